use cell_span::Cell;

/// A live local of a call, and the word that it holds.
#[derive(Clone, Copy, Debug, PartialEq, Eq)]
pub struct Bound {
    /// The number of the local in its function.
    pub local: u32,
    /// The word.
    pub word: u32,
}

/// A call that hasn't returned: where it goes on, and what it needs there.
#[derive(Drop)]
pub struct Frame {
    /// The number of the function.
    pub func: u32,
    /// The number of the block in the function.
    pub block: u32,
    /// The place in the block.
    pub place: u32,
    /// The live locals, each with a greater number than the one before.
    pub live: Vec<Bound>,
}

/// A run that waits between two steps. Within the ranges named here it is what its image is read as; beyond them it has
/// a text too, which no reader takes.
#[derive(Drop)]
pub struct State {
    /// How many functions were entered. Together with the fuel they are at most 2^40.
    pub calls: u64,
    /// The cells taken from the free list less those given back, from -4294967295 to 4294967295.
    pub net: i64,
    /// The greatest net so far, and at least 0, in cells; at most 2^40.
    pub peak: u64,
    /// How many functions may still be entered.
    pub fuel: u64,
    /// The head of the list of free cells.
    pub free: u32,
    /// The calls that haven't returned, the oldest first; at least one.
    pub frames: Vec<Frame>,
    /// All cells of the run's arena, in order; at most 4294967295.
    pub cells: Vec<Cell>,
}
