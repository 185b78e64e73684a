/// Less is there than is asked: of the units of a constructor, or of what is left.
#[derive(Clone, Copy, Debug, PartialEq, Eq)]
pub(crate) struct Short {
    pub(crate) func: u32,
    pub(crate) block: u32,
    pub(crate) place: u32,
    pub(crate) con: Option<u32>,
    pub(crate) have: u64,
    pub(crate) need: u64,
}
