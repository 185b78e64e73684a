/// What a token is.
#[derive(Clone, Copy, Debug, PartialEq, Eq)]
pub enum TokenKind {
    /// A lower-case letter, then letters, digits or `_`; no word of the grammar.
    Lower,
    /// An upper-case letter, then letters, digits or `_`.
    Upper,
    /// A quote and a lower name, which may be a word of the grammar.
    TypeVar,
    /// Decimal digits.
    Number,
    /// A word that the grammar keeps for itself.
    Keyword,
    /// One of the signs of the grammar, as `(` or `->`.
    Symbol,
}

/// A token and where it stands: it is the slice `start..end` of the text.
#[derive(Clone, Copy, Debug, PartialEq, Eq)]
pub struct Token {
    pub kind: TokenKind,
    /// The place of its first byte, counted from 0.
    pub start: u32,
    /// The place after its last byte.
    pub end: u32,
    /// The line of its first byte, counted from 1. A line ends with its line feed.
    pub line: u32,
}

/// What may stand at a place of a text, with its number of bytes. A text is read as one piece after the other.
#[derive(Clone, Copy, Debug, PartialEq, Eq)]
pub enum Piece {
    /// One byte of white space.
    White,
    /// A whole comment.
    Comment { size: usize },
    /// A token.
    Lexeme { kind: TokenKind, size: usize },
}

impl Piece {
    ghost use Rattle.std.specs.Prelude.{◌≡◌};
    ghost use Rattle.text_scan.specs.Reading.{size_of};

    /// How many bytes it has.
    pub fn size(self) -> usize
        ensures { result ≡ size_of self }
    {
        match self {
            Piece::White => 1,
            Piece::Comment { size } | Piece::Lexeme { size, .. } => size,
        }
    }
}
