use thiserror::Error;

/// The first line of a text that isn't of the form of bundles.
#[derive(Clone, Copy, Debug, PartialEq, Eq, Error)]
#[error("bundle line {line}")]
pub struct BundleFault {
    /// The number of this line, counted from 1; where the text ends before a line that is needed, the number of that
    /// line.
    pub line: u32,
}
