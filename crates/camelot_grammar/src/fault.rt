use text_scan::ScanFault;
use thiserror::Error;

/// Why a text is no program. `token` is the place of the fault among the tokens, counted from 0, and `line` the line of
/// that token. At the end of the text `token` is the number of tokens, and `line` the line of the text's last byte.
#[derive(Clone, Copy, Debug, PartialEq, Eq, Error)]
pub enum ParseFault {
    /// The text has no tokens, for this reason.
    #[error("{0}")]
    Scan(ScanFault),
    /// No program goes on with this token, or none ends here.
    #[error("unexpected token {token} line {line}")]
    Unexpected { token: u64, line: u64 },
    /// The level of this token is above 200, and some program goes on with it.
    #[error("too-deep token {token} line {line}")]
    TooDeep { token: u64, line: u64 },
    /// No program goes on with this type variable.
    #[error("type-parameter token {token} line {line}")]
    TypeParameter { token: u64, line: u64 },
}
