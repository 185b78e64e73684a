//! What is said of a text.

use case_lines::Judge;
use certificate::{CertFault, read_cert, write_cert};
use std::alloc::Global;
use std::io;
use stops::Stop;

/// What the reader says of a text.
pub(crate) struct Certificates;

impl Judge for Certificates {
    fn judge(&self, alloc: Global, bytes: &[u8]) -> io::Result<String> {
        if bytes.len() >= 4_294_967_296 {
            return Ok(format!(in alloc; "too long")?);
        }
        match read_cert(alloc, bytes) {
            Ok(cert) => {
                let written = write_cert(alloc, &cert)?;
                let same = if written.as_slice() == bytes {
                    "same"
                } else {
                    "other text"
                };
                Ok(format!(in alloc;
                    "unit {} functions {} {same}",
                    cert.unit(),
                    cert.funcs().len()
                )?)
            }
            Err(Stop::Fault(CertFault::Line { number })) => Ok(format!(in alloc; "line {number}")?),
            Err(Stop::Fault(CertFault::Number { line })) => Ok(format!(in alloc; "number {line}")?),
            Err(Stop::Memory) => Ok(format!(in alloc; "memory")?),
        }
    }
}
