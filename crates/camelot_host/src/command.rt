ghost use Rattle.std.specs.Prelude.{◌≡◌, ◌<◌, ◌^◌, ℕ, [], ◌∷◌, codes, decimal, map, string_bytes, IfSome, MatchOption};
ghost use Rattle.job_script.specs.Scripts.{IsUpTo};
ghost use Rattle.camelot_host.specs.Commands.{IsCommand, IsDrill, IsNoCommand, IsSliced, reads};
ghost use Rattle.camelot_host.specs.Replies.{command_named, IsWithin};

use itoa::Buffer;

/// What the host is asked to do.
#[derive(Clone, Copy, Debug)]
pub(crate) enum Command {
    /// To report on a script.
    Serve,
    /// To compile a Camelot source to a bundle.
    Compile,
    /// To verify a bundle.
    Verify,
    /// To write a bundle again, its code in the second format.
    Migrate,
    /// To tell the tenants of a script what their jobs come to.
    Tenants,
    /// To report on a script whose jobs run in slices.
    Sliced { steps: u32 },
    /// To serve the drill's script.
    Drill { jobs: u32, workers: u32 },
}

/// Whether the command reads its input.
pub(crate) fn reads(command: Command) -> bool
    ensures { result ≡ reads (command_named command) }
{
    match command {
        Command::Serve => true,
        Command::Compile => true,
        Command::Verify => true,
        Command::Migrate => true,
        Command::Tenants => true,
        Command::Sliced { .. } => true,
        Command::Drill { .. } => false,
    }
}

// This number, where the word spells it and it is from 1 to the most.
#[tactic(auto, using(crate::proofs::Numbers::too_small, crate::proofs::Numbers::too_large, crate::proofs::Numbers::other_text, crate::proofs::Numbers::this_text))]
fn number_as(word: &str, number: u32, most: u32) -> Option<u32>
    requires only { (n : ℕ) → n < 2 ^ 32 → word.now ≡ decimal n → n ≡ number }
    ensures { MatchOption result ((n : ℕ) → word.now ≡ decimal n → IsUpTo most n → ⊥) (λ n. (word.now ≡ decimal n) × IsUpTo most n) }
{
    if number < 1 {
        return None;
    }
    if number > most {
        return None;
    }
    if Buffer::new().format(number) != word {
        return None;
    }
    Some(number)
}

// The number that a word spells in decimal without leading zeros, from 1 to the most.
#[tactic(auto, using(crate::proofs::Numbers::parsed, crate::proofs::Numbers::no_number))]
fn number_in(word: &str, most: u32) -> Option<u32>
    ensures { MatchOption result ((n : ℕ) → word.now ≡ decimal n → IsUpTo most n → ⊥) (λ n. (word.now ≡ decimal n) × IsUpTo most n) }
{
    match word.parse::<u32>() {
        Ok(number) => number_as(word, number, most),
        Err(_) => None,
    }
}

// The number of steps, where this word stands behind the name.
fn sliced_with(word: &str) -> Option<Command>
    ensures command { MatchOption result ((steps : ℕ) → IsSliced (codes "sliced" ∷ word.now ∷ []) steps → ⊥)
        (λ command. IsCommand (codes "sliced" ∷ word.now ∷ []) (command_named command)) }
    ensures within { IfSome result IsWithin }
{
    match number_in(word, 1000000000) {
        Some(steps) => Some(Command::Sliced { steps }),
        None => None,
    }
}

// The same of all words behind the name.
#[tactic(auto, using(crate::proofs::Slices::of_one, crate::proofs::Slices::not_one))]
fn sliced(rest: &[String]) -> Option<Command>
    ensures command { MatchOption result ((steps : ℕ) → IsSliced (codes "sliced" ∷ map string_bytes rest.now) steps → ⊥)
        (λ command. IsCommand (codes "sliced" ∷ map string_bytes rest.now) (command_named command)) }
    ensures within { IfSome result IsWithin }
{
    match rest {
        [word] => sliced_with(word.as_str()),
        _ => None,
    }
}

// The numbers of jobs and of workers, where a drill has these words behind its name.
#[tactic(auto, using(crate::proofs::Numbers::drill_is, crate::proofs::Numbers::other_jobs, crate::proofs::Numbers::other_workers))]
fn drill_with(first: &str, second: &str) -> Option<(u32, u32)>
    ensures { MatchOption result ((jobs workers : ℕ) → IsDrill (codes "drill" ∷ first.now ∷ second.now ∷ []) jobs workers
        → ⊥) (λ p. IsDrill (codes "drill" ∷ first.now ∷ second.now ∷ []) p.0 p.1) }
{
    let Some(jobs) = number_in(first, 4096) else {
        return None;
    };
    let Some(workers) = number_in(second, 16) else {
        return None;
    };
    Some((jobs, workers))
}

// The same of all words behind the name.
#[tactic(auto, using(crate::proofs::Numbers::of_two, crate::proofs::Numbers::not_two))]
fn drill_of(rest: &[String]) -> Option<(u32, u32)>
    ensures { MatchOption result ((jobs workers : ℕ) → IsDrill (codes "drill" ∷ map string_bytes rest.now) jobs workers → ⊥)
        (λ p. IsDrill (codes "drill" ∷ map string_bytes rest.now) p.0 p.1) }
{
    match rest {
        [first, second] => drill_with(first.as_str(), second.as_str()),
        _ => None,
    }
}

// The drill that has these words behind its name.
fn drill(rest: &[String]) -> Option<Command>
    ensures command { MatchOption result
        ((jobs workers : ℕ) → IsDrill (codes "drill" ∷ map string_bytes rest.now) jobs workers → ⊥)
        (λ command. IsCommand (codes "drill" ∷ map string_bytes rest.now) (command_named command)) }
    ensures within { IfSome result IsWithin }
{
    match drill_of(rest) {
        Some((jobs, workers)) => Some(Command::Drill { jobs, workers }),
        None => None,
    }
}

// This command, where no words are behind its name.
fn alone(rest: &[String], command: Command) -> Option<Command>
    requires within { IsWithin command }
    ensures command { MatchOption result (map string_bytes rest.now ≡ [] → ⊥) (λ c. (map string_bytes rest.now ≡ []) × (c ≡ command)) }
    ensures within { IfSome result IsWithin }
{
    match rest {
        [] => Some(command),
        _ => None,
    }
}

// The command of this name, which is compared as a whole, with these words behind it.
#[tactic(auto, using(crate::proofs::Naming::alone_is, crate::proofs::Slices::sliced_is, crate::proofs::Naming::drill_is, crate::specs::CommandLaws::no_name))]
fn command_with(name: &str, rest: &[String]) -> Option<Command>
    ensures command { MatchOption result
        (IsNoCommand (name.now ∷ map string_bytes rest.now))
        (λ command. IsCommand (name.now ∷ map string_bytes rest.now) (command_named command)) }
    ensures within { IfSome result IsWithin }
{
    if name == "serve" {
        return alone(rest, Command::Serve);
    }
    if name == "compile" {
        return alone(rest, Command::Compile);
    }
    if name == "verify" {
        return alone(rest, Command::Verify);
    }
    if name == "migrate" {
        return alone(rest, Command::Migrate);
    }
    if name == "tenants" {
        return alone(rest, Command::Tenants);
    }
    if name == "sliced" {
        return sliced(rest);
    }
    if name == "drill" {
        return drill(rest);
    }
    None
}

/// The command that the words spell. The first word is its name.
#[tactic(auto, using(crate::proofs::Naming::no_words, crate::proofs::Naming::first_and_rest))]
pub(crate) fn command_of(words: &[String]) -> Option<Command>
    ensures command { MatchOption result
        (IsNoCommand (map string_bytes words.now))
        (λ command. IsCommand (map string_bytes words.now) (command_named command)) }
    ensures within { IfSome result IsWithin }
{
    match words {
        [] => None,
        [name, rest @ ..] => command_with(name.as_str(), rest),
    }
}
