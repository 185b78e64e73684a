use super::short::Short;
use certificate::CertFault;
use certificate_fit::Misfit;
use grail_check::CodeFault;
use grail_code::DecodeFault;
use thiserror::Error;

/// Why bytes are no licence. Functions and blocks are counted from 0, and places of lets from 1; behind the last let
/// stands the block's end.
#[derive(Clone, Copy, Debug, PartialEq, Eq, Error)]
pub enum Refusal {
    /// The bytes of the code spell none.
    #[error("{0}")]
    Code(DecodeFault),
    /// The code isn't well formed.
    #[error("code {0}")]
    Kinds(CodeFault),
    /// The bytes of the certificate aren't the text of one.
    #[error("certificate {0}")]
    Cert(CertFault),
    /// The certificate's lines don't fit the code: this is the first function where they don't, and the least block in
    /// it.
    #[error("shape function {func} block {block}")]
    Shape {
        func: u64,
        block: u64,
    },
    /// Fewer units are left at this place than are needed.
    #[error("need function {func} block {block} place {place} have {have} need {need}")]
    Need {
        func: u64,
        block: u64,
        place: u64,
        have: u64,
        need: u64,
    },
    /// A value at this place has fewer units of this constructor than are asked of it.
    #[error("weak function {func} block {block} place {place} con {con} have {have} need {need}")]
    Weak {
        func: u64,
        block: u64,
        place: u64,
        con: u64,
        have: u64,
        need: u64,
    },
}
