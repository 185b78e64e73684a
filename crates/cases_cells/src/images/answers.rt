//! What is said of a text.

use case_lines::Judge;
use machine_image::{NoImage, read_image, write_image};
use std::alloc::Global;
use std::io;
use stops::Stop;

/// What the reader says of a text, and whether the writer agrees.
pub(crate) struct Images;

impl Judge for Images {
    fn judge(&self, alloc: Global, bytes: &[u8]) -> io::Result<String> {
        if bytes.len() >= 4_294_967_296 {
            return Ok(format!(in alloc; "too long")?);
        }
        match read_image(alloc, bytes) {
            Ok(state) => {
                let written = write_image(alloc, &state)?;
                if written.as_slice() == bytes {
                    Ok(format!(in alloc; "image")?)
                } else {
                    Ok(format!(in alloc; "image, and written otherwise")?)
                }
            }
            Err(Stop::Fault(NoImage { line })) => Ok(format!(in alloc; "line {line}")?),
            Err(Stop::Memory) => Ok(format!(in alloc; "memory")?),
        }
    }
}
