use cell_span::Span;
use script_service::Leftovers;

/// The answer to an input that was read whole, before any of it is written.
pub(crate) enum Reply {
    /// The command was done.
    Done {
        /// The whole output.
        output: Vec<u8>,
        /// The arena that it leaves, where it ran jobs in one.
        arena: Option<Span>,
    },
    /// The input is refused; its line.
    Refused {
        line: Vec<u8>,
    },
}

/// A reply, and what its making left in memory.
pub(crate) struct Work {
    pub(crate) reply: Reply,
    pub(crate) left: Option<Leftovers>,
}
