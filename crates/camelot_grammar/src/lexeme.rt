use camelot_tree::Name;

/// A word or a sign of the grammar, or the end of the text.
#[derive(Clone, Copy, Debug, PartialEq, Eq)]
pub enum Mark {
    Type,
    Of,
    Let,
    In,
    If,
    Then,
    Else,
    Match,
    With,
    End,
    True,
    False,
    Not,
    Int,
    Bool,
    Read,
    Mod,
    Open,
    Close,
    Comma,
    Colon,
    At,
    Blank,
    Equal,
    Diamond,
    Less,
    LessEqual,
    Greater,
    GreaterEqual,
    Plus,
    Minus,
    Star,
    Slash,
    AndAnd,
    OrOr,
    Bar,
    Bang,
    Arrow,
    EndOfText,
}

/// A token as the grammar sees it, with the line of its first byte.
#[derive(Debug, Drop)]
pub enum Lexeme {
    Lower(Name),
    Upper(Name),
    /// A type variable.
    Variable { line: u32 },
    /// A number up to 2147483647.
    Number { value: u32, line: u32 },
    /// The number 2147483648: the size of the least `int`.
    Greatest { line: u32 },
    Mark { mark: Mark, line: u32 },
}
