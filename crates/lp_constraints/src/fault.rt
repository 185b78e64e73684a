use thiserror::Error;

/// Why no certificate is found.
#[derive(Clone, Copy, Debug, PartialEq, Eq, Error)]
pub enum NoCert {
    /// The system of the code has more than 512 unknowns or 1,536 rows; it has so many.
    #[error("too-many-unknowns {unknowns} rows {rows}")]
    TooMany { unknowns: u64, rows: u64 },
    /// No certificate grants the code, with numbers of any size: it has no linear bound.
    #[error("no-bound")]
    NoBound,
    /// A number of the run of the solver is too large, or one of the certificate is above its limit.
    #[error("wide")]
    Wide,
    /// The solver's run has no end within 4,096 pivots.
    #[error("spent")]
    Spent,
}
