/// Where checks stand: a function, a block, and the place in it. Places count lets from 1; behind the last stands the
/// block's end.
#[derive(Clone, Copy, Debug, PartialEq, Eq)]
pub struct Site {
    pub func: u32,
    pub block: u32,
    pub place: u32,
}
