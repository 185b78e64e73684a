use camelot_values::Kind;

/// What is known of a kind: the kind, or the number of the parameter or result that it is.
#[derive(Clone, Copy, Debug, PartialEq, Eq)]
pub enum Guess {
    Known(Kind),
    Unknown(u32),
}
