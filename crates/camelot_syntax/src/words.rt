ghost use Rattle.std.specs.Prelude.{◌≡◌, ◌≤◌, ◌∷◌, [], MatchResult, IsTrue, map};
ghost use Rattle.text_scan.specs.Forms.{is_number_token, number_value};
ghost use Rattle.text_scan.specs.Reading.{IsSliceOf};
ghost use Rattle.text_scan.specs.declared.tokens.TokenKind.TheVariants.{Number};
ghost use Rattle.camelot_grammar.specs.Lexemes.{mark_in, mark_of, lexeme_of, lexeme_at};
ghost use Rattle.camelot_syntax.specs.declared.state.Halt.TheVariants.{Memory};
ghost use Rattle.camelot_syntax.specs.States.{seen};

use crate::state::Halt;
use camelot_grammar::Mark;
use camelot_tree::Name;
use camelot_values::Word;
use std::alloc::Global;
use text_scan::{GREATEST_NUMBER, Token, TokenKind, number_value};

/// A token as the parser reads it: the bytes of a name stand in the text.
#[derive(Clone, Copy)]
pub enum TokenView<'a> {
    Lower { word: &'a [u8], line: u32 },
    Upper { word: &'a [u8], line: u32 },
    /// A type variable.
    Variable { line: u32 },
    /// A number up to 2147483647.
    Number { value: u32, line: u32 },
    /// The number 2147483648: the size of the least `int`.
    Greatest { line: u32 },
    Mark { mark: Mark, line: u32 },
}

/// The words and signs with their texts.
const MARKS: [(&[u8], Mark); 38] = [
    (b"type", Mark::Type),
    (b"of", Mark::Of),
    (b"let", Mark::Let),
    (b"in", Mark::In),
    (b"if", Mark::If),
    (b"then", Mark::Then),
    (b"else", Mark::Else),
    (b"match", Mark::Match),
    (b"with", Mark::With),
    (b"end", Mark::End),
    (b"true", Mark::True),
    (b"false", Mark::False),
    (b"not", Mark::Not),
    (b"int", Mark::Int),
    (b"bool", Mark::Bool),
    (b"read", Mark::Read),
    (b"mod", Mark::Mod),
    (b"(", Mark::Open),
    (b")", Mark::Close),
    (b",", Mark::Comma),
    (b":", Mark::Colon),
    (b"@", Mark::At),
    (b"_", Mark::Blank),
    (b"=", Mark::Equal),
    (b"<>", Mark::Diamond),
    (b"<", Mark::Less),
    (b"<=", Mark::LessEqual),
    (b">", Mark::Greater),
    (b">=", Mark::GreaterEqual),
    (b"+", Mark::Plus),
    (b"-", Mark::Minus),
    (b"*", Mark::Star),
    (b"/", Mark::Slash),
    (b"&&", Mark::AndAnd),
    (b"||", Mark::OrOr),
    (b"|", Mark::Bar),
    (b"!", Mark::Bang),
    (b"->", Mark::Arrow),
];

// The word or sign of this text, among these.
fn lookup_in(marks: &[(&[u8], Mark)], text: &[u8]) -> Mark
    ensures { result ≡ mark_in (map (λ e. record { text = e.0.now; mark = e.1 }) marks.now) text.now }
{
    'marks: for (written, mark) in marks {
        if *written == text {
            return *mark;
        }
    }
    Mark::EndOfText
}

// The sign of one byte: most tokens are such.
#[tactic(auto, unfolding(camelot_grammar::specs::Lexemes::mark_of, camelot_grammar::specs::Lexemes::marks), using(crate::proofs::WordLemmas::entries_is))]
fn sign(byte: u8) -> Mark
    ensures { result ≡ mark_of (byte ∷ []) }
{
    match byte {
        b'(' => Mark::Open,
        b')' => Mark::Close,
        b',' => Mark::Comma,
        b':' => Mark::Colon,
        b'@' => Mark::At,
        b'_' => Mark::Blank,
        b'=' => Mark::Equal,
        b'<' => Mark::Less,
        b'>' => Mark::Greater,
        b'+' => Mark::Plus,
        b'-' => Mark::Minus,
        b'*' => Mark::Star,
        b'/' => Mark::Slash,
        b'|' => Mark::Bar,
        b'!' => Mark::Bang,
        _ => lookup_in(&MARKS, &[byte]),
    }
}

// The sign of two bytes.
#[tactic(auto, unfolding(camelot_grammar::specs::Lexemes::mark_of, camelot_grammar::specs::Lexemes::marks), using(crate::proofs::WordLemmas::entries_is))]
fn pair(first: u8, second: u8) -> Mark
    ensures { result ≡ mark_of (first ∷ second ∷ []) }
{
    match second {
        b'&' if first == b'&' => Mark::AndAnd,
        b'|' if first == b'|' => Mark::OrOr,
        b'>' if first == b'-' => Mark::Arrow,
        b'=' if first == b'<' => Mark::LessEqual,
        b'=' if first == b'>' => Mark::GreaterEqual,
        _ => lookup_in(&MARKS, &[first, second]),
    }
}

// The word or sign of this text.
#[tactic(auto, using(crate::proofs::WordLemmas::entries_is))]
fn lookup(text: &[u8]) -> Mark
    ensures { result ≡ mark_of text.now }
{
    match text {
        [byte] => sign(*byte),
        [first, second] => pair(*first, *second),
        _ => lookup_in(&MARKS, text),
    }
}

// The token of these digits.
#[tactic(auto, unfolding(camelot_grammar::specs::Lexemes::lexeme_of))]
fn number(digits: &[u8], line: u32) -> TokenView<'static>
    requires form { IsTrue (is_number_token digits.now) }
    requires short { number_value digits.now ≤ 2147483648 }
    ensures { seen result ≡ lexeme_of Number digits.now line }
{
    match number_value(digits) {
        Some(GREATEST_NUMBER) => TokenView::Greatest { line },
        Some(value) => TokenView::Number { value, line },
        None => unreachable!(),
    }
}

/// The token of the text at this place.
#[tactic(auto, unfolding(camelot_grammar::specs::Lexemes::lexeme_of), using(crate::proofs::WordLemmas::short_number))]
pub fn view(text: &[u8], token: Token) -> TokenView<'_>
    requires { IsSliceOf text.now token }
    ensures { seen result ≡ lexeme_at text.now token }
{
    let line = token.line;
    let word = &text[token.start as usize..token.end as usize];
    match token.kind {
        TokenKind::Lower => TokenView::Lower { word, line },
        TokenKind::Upper => TokenView::Upper { word, line },
        TokenKind::TypeVar => TokenView::Variable { line },
        TokenKind::Number => number(word, line),
        TokenKind::Keyword | TokenKind::Symbol => {
            let mark = lookup(word);
            TokenView::Mark { mark, line }
        }
    }
}

/// The name of these bytes.
pub fn to_name(alloc: Global, word: &[u8], line: u32) -> Result<Name, Halt>
    ensures { MatchResult result (λ name. name ≡ record { word = word.now; line = line }) (λ halt. halt ≡ Memory) }
{
    let word = Word::new(alloc, word)?;
    Ok(Name { word, line })
}
