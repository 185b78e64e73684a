ghost use Rattle.std.specs.Prelude.{◌≡◌, ℕ, Some, ◌+◌, ◌^◌, ◌<◌, ◌≤◌, ◌++◌, List, length, drop, IsTrue, IsFalse, IfOk, IfErr, OnOk, MatchResult, ◌⊎◌};
ghost use Rattle.std.specs.List.{All};
ghost use Rattle.text_scan.specs.declared.fault.ScanFault.{ScanFault};
ghost use Rattle.text_scan.specs.declared.tokens.Token.{Token};
ghost use Rattle.stops.specs.declared.stop.Stop.TheVariants.{Fault, Memory};
ghost use Rattle.stops.specs.Stopping.{FaultIs};
ghost use Rattle.text_scan.specs.Forms.{token_kind, is_long_number, is_long_name};
ghost use Rattle.text_scan.specs.Comments.{opens_comment};
ghost use Rattle.text_scan.specs.Reading.{begins_white, IsNextToken, StandsAt, size_of, line_feeds, tokens_in, AreTokensOf, IsFaultOf, IsSliceOf, AreInOrder};
ghost use Rattle.text_scan.specs.Steps.{StopsAt};

use crate::comment::{comment_size, is_opening};
use crate::fault::ScanFault;
use crate::lexeme::next_token;
use crate::number::number_value;
use crate::tokens::{Piece, Token, TokenKind};
use std::alloc::Global;
use stops::Stop;

/// How many bytes a name has at most.
const LONGEST_NAME: usize = 64;

// Whether a token is a number above the limit.
#[tactic(auto, using(crate::proofs::FormLemmas::number_kind), unfolding(crate::specs::Forms::is_long_number))]
fn is_long_number(kind: TokenKind, token: &[u8]) -> bool
    requires { token_kind token.now ≡ Some kind }
    ensures { result ≡ is_long_number kind token.now }
{
    match kind {
        TokenKind::Number => number_value(token).is_none(),
        _ => false,
    }
}

// Whether a token is a name of too many bytes. The quote of a type variable isn't counted.
#[tactic(auto, unfolding(crate::specs::Forms::is_long_name))]
fn is_long_name(kind: TokenKind, token: &[u8]) -> bool
    ensures { result ≡ is_long_name kind token.now }
{
    match kind {
        TokenKind::Lower | TokenKind::Upper => token.len() > LONGEST_NAME,
        TokenKind::TypeVar => token.len() > 1 + LONGEST_NAME,
        TokenKind::Number | TokenKind::Keyword | TokenKind::Symbol => false,
    }
}

// Whether the bytes begin with white space.
fn begins_white(bytes: &[u8]) -> bool
    requires { 0 < length bytes.now }
    ensures { result ≡ begins_white bytes.now }
{
    matches!(bytes[0], b' ' | b'\t' | b'\n' | b'\r')
}

// Whether the bytes begin with a comment.
fn opens_comment(bytes: &[u8]) -> bool
    ensures { result ≡ opens_comment bytes.now }
{
    bytes.len() > 1 && is_opening(bytes[0], bytes[1])
}

// How many line feeds there are.
#[tactic(auto, unfolding(crate::specs::Reading::line_feeds))]
fn line_feeds(bytes: &[u8]) -> usize
    ensures count { result ≡ line_feeds bytes.now }
    ensures within { result ≤ length bytes.now }
{
    bytes.iter().filter(|byte| **byte == b'\n').count()
}

// The token at the front, which neither white space nor a comment is; `at` is its place.
#[tactic(auto, using(crate::proofs::ScanLemmas::lexeme_answers))]
fn lexeme(bytes: &[u8], at: usize) -> Result<Piece, ScanFault>
    requires nonempty { 0 < length bytes.now }
    requires no_white { IsFalse (begins_white bytes.now) }
    requires no_comment { IsFalse (opens_comment bytes.now) }
    ensures found { MatchResult result (StandsAt bytes.now) (StopsAt bytes.now at) }
    ensures nonempty { IfOk result (λ piece. 0 < size_of piece) }
    ensures within { IfOk result (λ piece. size_of piece ≤ length bytes.now) }
{
    let Some((kind, size)) = next_token(bytes) else {
        return Err(ScanFault::BadCharacter { at: at as u64 });
    };
    let token = &bytes[..size];
    if is_long_number(kind, token) {
        return Err(ScanFault::LongNumber { at: at as u64 });
    }
    if is_long_name(kind, token) {
        return Err(ScanFault::LongName { at: at as u64 });
    }
    Ok(Piece::Lexeme { kind, size })
}

// The piece at the front, whose place is `at`, or why none stands there.
#[tactic(auto, using(crate::proofs::ScanLemmas::piece_answers))]
fn piece(bytes: &[u8], at: usize) -> Result<Piece, ScanFault>
    requires { 0 < length bytes.now }
    ensures found { MatchResult result (StandsAt bytes.now) (StopsAt bytes.now at) }
    ensures nonempty { IfOk result (λ piece. 0 < size_of piece) }
    ensures within { IfOk result (λ piece. size_of piece ≤ length bytes.now) }
{
    if begins_white(bytes) {
        return Ok(Piece::White);
    }
    if !opens_comment(bytes) {
        return lexeme(bytes, at);
    }
    match comment_size(bytes) {
        Some(size) => Ok(Piece::Comment { size }),
        None => Err(ScanFault::OpenComment { at: at as u64 }),
    }
}

// Puts the token at the end, if the piece is one. The piece begins at the place `at` in this line.
fn push_token(
    tokens: &mut Vec<Token>,
    piece: Piece,
    at: usize,
    line: usize,
) -> Result<(), Stop<ScanFault>>
    requires fits { at + size_of piece < 2 ^ 32 }
    requires line_fits { line < 2 ^ 32 }
    ensures ok { OnOk result (tokens.new.items ≡ tokens.old.items ++ tokens_in piece at line) }
    ensures err { IfErr result (λ stop. stop ≡ Memory) }
{
    if let Piece::Lexeme { kind, size } = piece {
        let token = Token {
            kind,
            start: at as u32,
            end: (at + size) as u32,
            line: line as u32,
        };
        tokens.push(token)?;
    }
    Ok(())
}

// Reads the text piece by piece.
#[tactic(auto, using(crate::proofs::ScanLemmas::text_turns))]
fn scan_text(alloc: Global, text: &[u8]) -> Result<Vec<Token>, Stop<ScanFault>>
    requires { length text.now < 2 ^ 32 }
    ensures tokens { IfOk result (λ tokens. AreTokensOf text.now tokens.items) }
    ensures fault { IfErr result (FaultIs (IsFaultOf text.now)) }
{
    let mut tokens = Vec::new(alloc);
    let mut at = 0;
    let mut line = 1;
    while at < text.len() {
        let piece = piece(&text[at..], at).map_err(Stop::Fault)?;
        let end = at + piece.size();
        push_token(&mut tokens, piece, at, line)?;
        line += line_feeds(&text[at..end]);
        at = end;
    }
    Ok(tokens)
}

/// The tokens of a text, in order, each the longest that begins at its place; or the first fault.
///
/// White space is space, tab, line feed and carriage return. A comment is what stands from `(*` to the `*)` that
/// closes it; comments nest, may hold any byte, and `(*` always begins one.
///
/// # Errors
///
/// At the first place where the reading goes no further: [`ScanFault::OpenComment`] for a comment that isn't closed,
/// at its outermost start; [`ScanFault::LongNumber`] for a number above 2147483648; [`ScanFault::LongName`] for a
/// name of more than 64 bytes; [`ScanFault::BadCharacter`] where no token begins. [`Stop::Memory`] where memory runs
/// out.
pub fn scan(alloc: Global, text: &[u8]) -> Result<Vec<Token>, Stop<ScanFault>>
    requires { length text.now < 2 ^ 32 }

    // The answer is the text's tokens, or its fault.
    ensures tokens { IfOk result (λ tokens. AreTokensOf text.now tokens.items) }
    // A fault that is answered is the text's.
    ensures fault { IfErr result (FaultIs (IsFaultOf text.now)) }

    // A text that has tokens is taken, and one that has a fault is refused for it, unless memory runs out.
    ensures takes { (tokens : List Token) → AreTokensOf text.now tokens
        → MatchResult result (λ found. found.items ≡ tokens) (λ found. found ≡ Memory) }
    // A text with a fault is refused for it, unless memory runs out.
    ensures refuses { (fault : ScanFault) → IsFaultOf text.now fault
        → MatchResult result (λ _. ⊥) (λ found. (found ≡ Fault fault) ⊎ (found ≡ Memory)) }

    // What a caller may rest on without the definition of a reading.
    ensures slices { IfOk result (λ tokens. All (IsSliceOf text.now) tokens.items) }
    // The tokens are in order, and none begins before the one in front of it ends.
    ensures in_order { IfOk result (λ tokens. AreInOrder tokens.items) }
    // There are at most as many tokens as bytes.
    ensures count { IfOk result (λ tokens. length tokens.items ≤ length text.now) }
{
    scan_text(alloc, text)
}
