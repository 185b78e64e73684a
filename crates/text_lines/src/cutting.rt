ghost use Rattle.std.specs.Prelude.{◌≡◌, ◌<◌, ◌∷◌, [], length, MatchOption, IfSome};
ghost use Rattle.text_lines.specs.Lines.{IsOneLine, HasLine};
ghost use Rattle.text_lines.specs.Cuts.{upto, from, behind, words, further, word_of, CutWord};

use memchr::memchr;

/// What stands before the first such byte, and the text from it on.
#[tactic(auto, using(crate::proofs::Cuts::upto_found, crate::proofs::Cuts::from_found, crate::proofs::Cuts::upto_none, crate::proofs::Cuts::from_none))]
pub fn cut(text: &[u8], byte: u8) -> (&[u8], &[u8])
    // The front has none of it.
    ensures front { result.0.now ≡ upto byte text.now }
    // The rest begins with it, or is empty.
    ensures rest { result.1.now ≡ from byte text.now }
{
    match memchr(byte, text) {
        Some(place) => (&text[..place], &text[place..]),
        None => (text, &[]),
    }
}

/// All but the first byte.
pub fn behind(text: &[u8]) -> &[u8]
    ensures { result.now ≡ behind text.now }
{
    match text {
        [] => text,
        [_, rest @ ..] => rest,
    }
}

/// The line in front and what is behind its line feed; None where no line feed is left.
pub fn next_line(text: &[u8]) -> Option<(&[u8], &[u8])>
    ensures { MatchOption result (IsOneLine text.now) (λ p. HasLine text.now p.0.now p.1.now) }
{
    let (line, rest) = cut(text, b'\n');
    match rest {
        [] => None,
        [_feed, after @ ..] => Some((line, after)),
    }
}

/// The first word of a line and what is left of it.
#[tactic(auto, using(crate::specs::CutLaws::words_cut))]
pub fn first_word(line: &[u8]) -> (&[u8], &[u8])
    ensures { words line.now ≡ result.0.now ∷ further result.1.now }
{
    cut(line, b' ')
}

/// The next word of what [`first_word`] or this call left of a line, and what is left; None at the end of the line.
#[tactic(auto, using(crate::specs::CutLaws::no_words, crate::proofs::Cuts::further_cut, crate::proofs::Cuts::further_shorter))]
pub fn further_word(rest: &[u8]) -> Option<(&[u8], &[u8])>
    // The words that were left are this one and those that are left now.
    ensures words { MatchOption result (further rest.now ≡ []) (λ p. further rest.now ≡ p.0.now ∷ further p.1.now) }
    // Less is left.
    ensures shorter { IfSome result (λ p. length p.1.now < length rest.now) }
{
    if rest.is_empty() {
        return None;
    }
    Some(cut(behind(rest), b' '))
}

/// The word behind a space, and what is left; None where no space stands in front.
#[tactic(auto, using(crate::proofs::Cuts::no_word, crate::proofs::Cuts::other_word, crate::proofs::Cuts::some_word))]
pub fn next_word(rest: &[u8]) -> Option<(&[u8], &[u8])>
    ensures { CutWord (word_of rest.now) result }
{
    match rest {
        [] => None,
        [first, text @ ..] => {
            if *first != b' ' {
                return None;
            }
            Some(cut(text, b' '))
        }
    }
}
