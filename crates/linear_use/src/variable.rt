use camelot_values::Kind;

/// A variable that is bound: its number in its function, counted from 0 in the order of binding, its kind, and whether
/// it is lent.
#[derive(Clone, Copy, Debug)]
pub(crate) struct Variable {
    pub(crate) number: usize,
    pub(crate) kind: Kind,
    pub(crate) lent: bool,
}
