use camelot_grammar::ParseFault;
use camelot_types::TypeFault;
use grail_verifier::Refusal;
use linear_use::UseFault;
use lp_constraints::NoCert;
use normal_form::NormalFault;
use thiserror::Error;

/// Why an input is refused: a source that doesn't compile, or bytes that aren't a bundle which the verifier accepts.
/// Want of memory refuses no input, so it is no cause.
#[derive(Debug, Drop, Error)]
pub enum Cause {
    /// The source is no program.
    #[error("{0}")]
    Parse(ParseFault),
    /// The program has no types.
    #[error("{0}")]
    Types(TypeFault),
    /// The program breaks the rule of use.
    #[error("{0}")]
    Uses(UseFault),
    /// A function of the program is too large for code.
    #[error("{0}")]
    Normal(NormalFault),
    /// No certificate of heap bounds is found for the program's code.
    #[error("{0}")]
    NoCert(NoCert),
    /// The bytes aren't a bundle: this line, counted from 1, is the first that isn't of its form.
    #[error("bundle line {line}")]
    Bundle { line: u32 },
    /// The verifier refuses the bundle.
    #[error("{0}")]
    Verify(Refusal),
}
