ghost use Rattle.std.specs.Prelude.{◌≡◌, ℕ, ◌<◌, ◌≤◌, ◌++◌, ◌∷◌, ⊤, List, length, MatchResult};
ghost use Rattle.text_lines.specs.Lines.{IsOneLine};
ghost use Rattle.text_lines.specs.Formats.{Format, IsRight, IsText, IsFault, IsSame};
ghost use Rattle.text_lines.specs.Machines.{Machine, Shows, IsNext, IsRefused, IsWhole};
ghost use Rattle.text_lines.specs.Answers.{KindIs, FaultIs};

use super::cutting::next_line;

/// Why a line isn't taken.
pub enum Refused<K> {
    /// It is wrong in this way.
    Kind(K),
    Memory,
}

/// Why a text isn't read.
pub enum Halt<K> {
    /// This line is the first that is wrong, in this way. Lines are counted from 1.
    Fault { kind: K, line: u64 },
    Memory,
}

/// A reader of a format that takes its lines one by one. What it holds stands for a state of the format's machine.
pub trait LineReader<'a> {
    type Kind;

    ghost format: { Format };

    ghost machine: { Machine format };

    ghost shows: { Shows machine };

    // the number of a kind: 0 for no form, and k + 1 for the demand k
    ghost kind_of: { Self.Kind → ℕ };

    ghost kinds: { (kind : Self.Kind) → kind_of kind ≤ format.most };

    ghost state: { Self → machine.State };

    // what the reader keeps of the text fits these bytes, which follow
    ghost ready: { Self → List ℕ → Type 0 };

    /// One more line, and what is behind its line feed.
    fn line(&mut self, line: &'a [u8], after: &'a [u8]) -> Result<(), Refused<Self::Kind>>
        // The line has no line feed in it.
        requires one { IsOneLine line.now }
        // What the reader keeps of the text fits what follows.
        requires ready { ready self.old (line.now ++ 10 ∷ after.now) }
        // The state is a good one.
        requires good { machine.IsGood (state self.old) }
        // The lines before begin a value that meets all demands.
        requires right { IsRight format (machine.closed (state self.old)) }
        // The rest has fewer than 2^32 bytes.
        requires short { length after.now < 4294967296 }
        // The reader goes on as the machine does, or tells why the machine doesn't.
        ensures taken { MatchResult result (λ _. IsNext machine (state self.old) line.now (state self.new))
            (λ stop. KindIs (λ kind. IsRefused machine (state self.old) line.now (kind_of kind)) stop) }
        // What it keeps of the text fits what is left.
        ensures on { MatchResult result (λ _. ready self.new after.now) (λ _. ⊤) };

    /// Whether the text may end here.
    fn may_end(&self) -> bool
        ensures { result ≡ machine.ends (state self.now) };

    /// The kind of a line without form.
    fn no_form(&self) -> Self::Kind
        ensures { kind_of result ≡ 0 };
}

// The lines of a text, to its end.
fn read_whole<'a, R: LineReader<'a>>(reader: &mut R, text: &'a [u8]) -> Result<(), Halt<R::Kind>>
    requires start { R.state reader.old ≡ R.machine.start }
    requires ready { R.ready reader.old text.now }
    requires short { length text.now < 4294967296 }
    ensures { MatchResult result (λ _. IsWhole R.machine text.now (R.state reader.new))
        (λ stop. FaultIs (λ kind line. IsFault R.format (R.kind_of kind) text.now line) stop) }
{
    let mut rest = text;
    let mut number = 1;
    'lines: while let Some((line, after)) = next_line(rest) {
        match reader.line(line, after) {
            Ok(()) => {}
            Err(Refused::Kind(kind)) => return Err(Halt::Fault { kind, line: number }),
            Err(Refused::Memory) => return Err(Halt::Memory),
        }
        rest = after;
        number += 1;
    }
    if !rest.is_empty() {
        return Err(Halt::Fault {
            kind: reader.no_form(),
            line: number,
        });
    }
    if !reader.may_end() {
        return Err(Halt::Fault {
            kind: reader.no_form(),
            line: number,
        });
    }
    Ok(())
}

/// Reads a text to its end. `Ok` comes exactly where it is a value's, and the reader stands for this value. `Fault`
/// comes exactly at the first line that is wrong, and tells in which way. `Memory` where memory runs out.
pub fn read_lines<'a, R: LineReader<'a>>(
    reader: &mut R,
    text: &'a [u8],
) -> Result<(), Halt<R::Kind>>
    // The reader is at its start.
    requires start { R.state reader.old ≡ R.machine.start }
    // What it keeps of the text fits this one.
    requires ready { R.ready reader.old text.now }
    // The text has fewer than 2^32 bytes.
    requires short { length text.now < 4294967296 }
    // What is answered is so.
    ensures found { MatchResult result (λ _. IsWhole R.machine text.now (R.state reader.new))
        (λ stop. FaultIs (λ kind line. IsFault R.format (R.kind_of kind) text.now line) stop) }
    // The text of a value is read as this value, unless memory runs out.
    ensures read { (value : R.format.Value) → IsText R.format text.now value
        → MatchResult result (λ _. R.machine.closed (R.state reader.new) ≡ value) (λ stop. FaultIs (λ _ _. ⊥) stop) }
    // The first line that is wrong is told, unless memory runs out.
    ensures fault { (kind line : ℕ) → kind ≤ R.format.most → IsFault R.format kind text.now line
        → MatchResult result (λ _. ⊥) (λ stop. FaultIs (λ found at. IsSame (R.kind_of found) kind at line) stop) }
{
    match read_whole(reader, text) {
        Ok(()) => Ok(()),
        Err(stop) => Err(stop),
    }
}
