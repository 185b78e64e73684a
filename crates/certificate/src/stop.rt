/// Why a line isn't read.
pub(crate) enum LineStop {
    /// It isn't of the text form, numbers of any size allowed.
    Line,
    /// One of its numbers is above its limit.
    Number,
    Memory,
}
