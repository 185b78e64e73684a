//! Answers lines about texts of bundles, so that tables of them are data: `stdin` has the lines, and `stdout` what is
//! to be answered.
//!
//! The lines are those of the table `certificates`. The answer is the number of bytes of the code and of the
//! certificate, with `same` where writing the bundle gives the text again, or the fault.
use case_lines::Judge;
use grail_bundle::{read_bundle, write_bundle};
use std::alloc::Global;
use std::io;
use stops::Stop;

/// What the reader says of a text.
pub(crate) struct Bundles;

impl Judge for Bundles {
    fn judge(&self, alloc: Global, bytes: &[u8]) -> io::Result<String> {
        if bytes.len() >= 4_294_967_296 {
            return Ok(format!(in alloc; "too long")?);
        }
        match read_bundle(alloc, bytes) {
            Ok(bundle) => {
                let written = write_bundle(alloc, &bundle)?;
                let same = if written.as_slice() == bytes {
                    "same"
                } else {
                    "other text"
                };
                Ok(format!(in alloc;
                    "code {} certificate {} {same}",
                    bundle.code().len(),
                    bundle.cert().len()
                )?)
            }
            Err(Stop::Fault(fault)) => Ok(format!(in alloc; "{fault}")?),
            Err(Stop::Memory) => Ok(format!(in alloc; "memory")?),
        }
    }
}
