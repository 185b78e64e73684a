use super::counts::Counts;
use super::locals::Bound;
use super::outcome::Reached;
use super::tree::Tree;

/// How the body of a function goes on.
#[derive(Drop)]
pub(crate) enum Ending {
    /// It is over.
    Over(Reached),
    /// Another function takes its place.
    Tail {
        counts: Counts,
        func: u32,
        args: Vec<Tree>,
    },
}

/// How a block goes on.
#[derive(Drop)]
pub(crate) enum BlockEnd {
    /// It leaves its function.
    Leaves(Ending),
    /// It jumps to the block of this number.
    Jumps {
        counts: Counts,
        target: u32,
        env: Vec<Bound>,
    },
}
