ghost use Rattle.std.specs.Prelude.{◌≡◌, ◌+◌, ◌≤◌, length, IsTrue, IfSome};
ghost use Rattle.value_text.specs.Grammar.{is_word_byte, Ends};
ghost use Rattle.value_text.specs.Choosing.{common};
ghost use Rattle.value_text.specs.Splitting.{skip, IsSplit, IsWordLength, IsSameFour, IsBehind};

// The text without the spaces in front, of which there are some.
#[inline(never)]
#[tactic(auto, using(crate::proofs::WordSteps::skip_here, crate::proofs::WordSteps::skip_done, crate::proofs::WordSteps::skip_end))]
fn skip_some(text: &[u8]) -> &[u8]
    ensures { result.now ≡ skip text.now }
{
    let mut at = 0;
    'spaces: while at < text.len() {
        if text[at] != b' ' {
            return &text[at..];
        }
        at += 1;
    }
    &[]
}

// The text without the spaces in front. Most often there are none, and then nothing is called.
#[inline(always)]
#[tactic(auto, using(crate::proofs::WordSteps::skip_none, crate::proofs::WordSteps::skip_empty))]
pub(crate) fn skip_spaces(text: &[u8]) -> &[u8]
    ensures { result.now ≡ skip text.now }
{
    if text.is_empty() {
        return text;
    }
    if text[0] != b' ' {
        return text;
    }
    skip_some(text)
}

// Whether the byte is no space, parenthesis or comma.
fn is_word_byte(byte: u8) -> bool
    ensures { result ≡ is_word_byte byte }
{
    !(byte == b' ' || byte == b'(' || byte == b')' || byte == b',')
}

// The length of the word in front.
#[tactic(auto, using(crate::proofs::WordSteps::word_here, crate::proofs::WordSteps::word_done, crate::proofs::WordSteps::word_end))]
fn word_length(text: &[u8]) -> usize
    ensures { IsWordLength text.now result }
{
    let mut at = 0;
    'word: while at < text.len() {
        if !is_word_byte(text[at]) {
            return at;
        }
        at += 1;
    }
    at
}

// The word in front, as far as it goes, and the rest.
#[tactic(auto, using(crate::proofs::WordSteps::split_there))]
pub(crate) fn split_word(text: &[u8]) -> (&[u8], &[u8])
    ensures { IsSplit text.now result.0.now result.1.now }
{
    let at = word_length(text);
    (&text[..at], &text[at..])
}

// How many bytes two words have in common at their fronts.
#[tactic(auto, using(crate::proofs::WordSteps::common_here, crate::proofs::WordSteps::common_done, crate::proofs::WordSteps::common_end, crate::proofs::WordSteps::common_within))]
pub(crate) fn common(name: &[u8], word: &[u8]) -> usize
    ensures common { result ≡ common name.now word.now }
    ensures within { result ≤ length word.now }
{
    let mut at = 0;
    'bytes: while at < name.len() && at < word.len() {
        if name[at] != word[at] {
            return at;
        }
        at += 1;
    }
    at
}

// Whether a word ends in front of this text.
#[tactic(auto, using(crate::proofs::WordSteps::ends_byte, crate::proofs::WordSteps::ends_none))]
pub(crate) fn ends(rest: &[u8]) -> bool
    ensures { IsTrue result → Ends rest.now }
{
    if rest.is_empty() {
        return true;
    }
    if is_word_byte(rest[0]) {
        return false;
    }
    true
}

// Whether four bytes from this place on are the same in both. All are compared, so that it becomes one comparison.
fn same_four(name: &[u8], text: &[u8], at: usize) -> bool
    requires name { at + 4 ≤ length name.now }
    requires text { at + 4 ≤ length text.now }
    ensures { IsTrue result → IsSameFour name.now text.now at }
{
    let first = name[at] == text[at];
    let second = name[at + 1] == text[at + 1];
    let third = name[at + 2] == text[at + 2];
    let fourth = name[at + 3] == text[at + 3];
    first & second & third & fourth
}

// Whether the text begins with the name, which is no longer.
#[tactic(auto, using(crate::proofs::WordSteps::common_here, crate::proofs::WordSteps::common_fours))]
fn begins(name: &[u8], text: &[u8]) -> bool
    requires { length name.now ≤ length text.now }
    ensures { IsTrue result → length name.now ≤ common name.now text.now }
{
    let count = name.len();
    let mut at = 0;
    'fours: while count - at >= 4 {
        if !same_four(name, text, at) {
            return false;
        }
        at += 4;
    }
    'bytes: while at < count {
        if name[at] != text[at] {
            return false;
        }
        at += 1;
    }
    true
}

// The text behind the name, where the name stands in front and ends there.
#[tactic(auto, using(crate::proofs::WordSteps::behind_here))]
pub(crate) fn behind_name<'a>(name: &[u8], text: &'a [u8]) -> Option<&'a [u8]>
    ensures { IfSome result (λ rest. IsBehind name.now text.now rest.now) }
{
    let count = name.len();
    if count > text.len() {
        return None;
    }
    if !begins(name, text) {
        return None;
    }
    let rest = &text[count..];
    if ends(rest) { Some(rest) } else { None }
}
