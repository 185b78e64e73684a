//! Answers lines about texts of certificates, so that tables of them are data: `stdin` has the lines, and `stdout` what
//! is to be answered.
//!
//! `text` begins a text. `|LINE` adds a line and its line feed to it. `{W*N}` in a line is N times the word W. A line
//! that begins with `--` is a note. Any other line is a command, and its answer stands behind it: the unit and the
//! number of functions, with `same` where writing the certificate gives the text again, or the fault.
//!
//! - `read`: of the text.
//! - `with K |LINE`: of the text with this in place of its line K.
//! - `without K`: of the text without its line K.
//! - `before K |LINE`: of the text with this line before its line K.
//! - `ending |BYTES`: of the text with these bytes behind its last line feed.
//! - `fronts`: of each front of the text, from none to all of it; answers that are equal stand together, with their
//!   number.
mod answers;

pub(crate) use answers::Certificates;
