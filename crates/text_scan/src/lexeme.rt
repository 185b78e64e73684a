ghost use Rattle.std.specs.Prelude.{◌∷◌, [], ◌≡◌, ◌≢◌, ◌+◌, ◌<◌, ◌≤◌, MatchOption, IsTrue, IsFalse, drop, length, slice_index};
ghost use Rattle.std.specs.Char.{is_ascii_digit, is_ascii_lowercase, is_ascii_uppercase};
ghost use Rattle.std.specs.Str.{byte};
ghost use Rattle.text_scan.specs.Forms.{is_word, is_symbol, is_name_part};
ghost use Rattle.text_scan.specs.Comments.{opens_comment};
ghost use Rattle.text_scan.specs.Reading.{IsNextToken, BeginsNoToken};
ghost use Rattle.text_scan.specs.Steps.{name_run, digit_run};

use crate::tokens::TokenKind;

/// The words that the grammar keeps for itself.
const WORDS: [&[u8]; 17] = [
    b"type", b"of", b"let", b"in", b"if", b"then", b"else", b"match", b"with", b"end", b"true",
    b"false", b"not", b"int", b"bool", b"read", b"mod",
];

/// The signs of the grammar.
const SYMBOLS: [&[u8]; 21] = [
    b"(", b")", b",", b":", b"@", b"_", b"=", b"<>", b"<", b"<=", b">", b">=", b"+", b"-", b"*",
    b"/", b"&&", b"||", b"|", b"!", b"->",
];

// Whether a name is one of the grammar's words, which have two to five bytes.
#[tactic(auto, using(crate::proofs::Tables::in_words, crate::proofs::FormLemmas::no_short_word, crate::proofs::FormLemmas::no_long_word))]
fn is_word(name: &[u8]) -> bool
    ensures { result ≡ is_word name.now }
{
    if name.len() < 2 {
        return false;
    }
    if name.len() > 5 {
        return false;
    }
    WORDS.contains(&name)
}

// Whether the bytes are in the table of the grammar's signs.
#[tactic(auto, using(crate::proofs::Tables::in_symbols))]
fn is_listed(bytes: &[u8]) -> bool
    ensures { result ≡ is_symbol bytes.now }
{
    SYMBOLS.contains(&bytes)
}

// Whether the byte is one of the grammar's signs.
#[tactic(auto, unfolding(crate::specs::Forms::is_symbol, crate::specs::Forms::symbols))]
fn is_sign(byte: u8) -> bool
    ensures { result ≡ is_symbol (byte ∷ []) }
{
    match byte {
        b'('
        | b')'
        | b','
        | b':'
        | b'@'
        | b'_'
        | b'='
        | b'<'
        | b'>'
        | b'+'
        | b'-'
        | b'*'
        | b'/'
        | b'|'
        | b'!' => true,
        _ => is_listed(&[byte]),
    }
}

// Whether the two bytes are one of the grammar's signs.
#[tactic(auto, unfolding(crate::specs::Forms::is_symbol, crate::specs::Forms::symbols), using(crate::proofs::FormLemmas::no_pair))]
fn is_pair(first: u8, second: u8) -> bool
    ensures { result ≡ is_symbol (first ∷ second ∷ []) }
{
    match second {
        b'&' if first == b'&' => true,
        b'|' if first == b'|' => true,
        b'=' | b'>' | b'&' | b'|' => is_listed(&[first, second]),
        _ => false,
    }
}

// Whether the bytes are one of the grammar's signs. Most are found without a look into the table.
fn is_symbol(bytes: &[u8]) -> bool
    ensures { result ≡ is_symbol bytes.now }
{
    match bytes {
        [byte] => is_sign(*byte),
        [first, second] => is_pair(*first, *second),
        _ => is_listed(bytes),
    }
}

// Whether the byte may stand in a name.
fn is_name_part(byte: u8) -> bool
    ensures { result ≡ is_name_part byte }
{
    byte.is_ascii_alphanumeric() || byte == b'_'
}

// The place after the letters, digits and `_` that stand from `start` on.
#[tactic(auto, unfolding(crate::specs::Steps::name_run))]
fn name_end(bytes: &[u8], start: usize) -> usize
    requires { start ≤ length bytes.now }
    ensures within { result ≤ length bytes.now }
    ensures end { result ≡ start + name_run (drop start bytes.now) }
{
    let mut end = start;
    while end < bytes.len() && is_name_part(bytes[end]) {
        end += 1;
    }
    end
}

// The place after the digits that stand from `start` on.
#[tactic(auto, unfolding(crate::specs::Steps::digit_run))]
fn number_end(bytes: &[u8], start: usize) -> usize
    requires { start ≤ length bytes.now }
    ensures within { result ≤ length bytes.now }
    ensures end { result ≡ start + digit_run (drop start bytes.now) }
{
    let mut end = start;
    while end < bytes.len() && bytes[end].is_ascii_digit() {
        end += 1;
    }
    end
}

// The token at the front, which begins with a lower-case letter.
#[tactic(auto, using(crate::proofs::FormLemmas::lower_answers))]
fn lower_token(bytes: &[u8]) -> (TokenKind, usize)
    requires nonempty { 0 < length bytes.now }
    requires no_comment { IsFalse (opens_comment bytes.now) }
    requires first { IsTrue (is_ascii_lowercase (slice_index bytes.now 0)) }
    ensures { IsNextToken bytes.now result.0 result.1 }
{
    let size = name_end(bytes, 1);
    if is_word(&bytes[..size]) {
        (TokenKind::Keyword, size)
    } else {
        (TokenKind::Lower, size)
    }
}

// The type variable at the front, which begins with a quote.
#[tactic(auto, using(crate::proofs::FormLemmas::variable_answers))]
fn type_variable(bytes: &[u8]) -> Option<(TokenKind, usize)>
    requires nonempty { 0 < length bytes.now }
    requires no_comment { IsFalse (opens_comment bytes.now) }
    requires first { slice_index bytes.now 0 ≡ byte "'" }
    ensures { MatchOption result (BeginsNoToken bytes.now) (λ found. IsNextToken bytes.now found.0 found.1) }
{
    if bytes.len() < 2 {
        return None;
    }
    if !bytes[1].is_ascii_lowercase() {
        return None;
    }
    Some((TokenKind::TypeVar, name_end(bytes, 2)))
}

// The symbol at the front, which begins with no letter, digit or quote.
#[tactic(auto, using(crate::proofs::FormLemmas::symbol_answers))]
fn symbol(bytes: &[u8]) -> Option<(TokenKind, usize)>
    requires nonempty { 0 < length bytes.now }
    requires no_comment { IsFalse (opens_comment bytes.now) }
    requires no_lower { IsFalse (is_ascii_lowercase (slice_index bytes.now 0)) }
    requires no_upper { IsFalse (is_ascii_uppercase (slice_index bytes.now 0)) }
    requires no_digit { IsFalse (is_ascii_digit (slice_index bytes.now 0)) }
    requires no_quote { slice_index bytes.now 0 ≢ byte "'" }
    ensures { MatchOption result (BeginsNoToken bytes.now) (λ found. IsNextToken bytes.now found.0 found.1) }
{
    if bytes.len() > 1 && is_symbol(&bytes[..2]) {
        return Some((TokenKind::Symbol, 2));
    }
    if is_symbol(&bytes[..1]) {
        return Some((TokenKind::Symbol, 1));
    }
    None
}

/// The token at the front of some bytes that don't begin a comment: its kind and its number of bytes.
#[tactic(auto, using(crate::proofs::FormLemmas::token_answers))]
pub fn next_token(bytes: &[u8]) -> Option<(TokenKind, usize)>
    requires nonempty { 0 < length bytes.now }
    requires no_comment { IsFalse (opens_comment bytes.now) }
    ensures { MatchOption result (BeginsNoToken bytes.now) (λ found. IsNextToken bytes.now found.0 found.1) }
{
    let first = bytes[0];
    if first.is_ascii_lowercase() {
        Some(lower_token(bytes))
    } else if first.is_ascii_uppercase() {
        Some((TokenKind::Upper, name_end(bytes, 1)))
    } else if first.is_ascii_digit() {
        Some((TokenKind::Number, number_end(bytes, 1)))
    } else if first == b'\'' {
        type_variable(bytes)
    } else {
        symbol(bytes)
    }
}
