/// Why a line isn't read.
pub enum LineStop {
    /// It has no form.
    Line,
    /// It has a form, but a number outside its limits, or a program or a job too many.
    Count,
    /// A name stood before.
    Repeat,
    Memory,
}
