//! Compiles Camelot programs to bundles, so that tables of them are data: `stdin` has the cases, and `stdout` what is
//! to come of them.
//!
//! A case is a line `== NAME` and its text, the lines below it, each with its line feed. The answer is the name and the
//! bundle, or the name and the cause for which the text is refused. A line that begins with `--` is a note, and what
//! stands before the first case is no case.
mod answers;

use answers::answer;
use std::io;

/// Answers the lines of a table.
pub(crate) fn answer_lines(rt: &HostRuntime, lines: &[String]) -> io::Result<()> {
    let alloc = rt.alloc();
    let mut name = String::new(alloc);
    let mut text = String::new(alloc);
    for line in lines {
        if let Some(next) = line.as_str().strip_prefix("== ") {
            answer(rt, name.as_str(), text.as_str())?;
            name = String::from_str(alloc, next)?;
            text = String::new(alloc);
        } else if !line.as_str().starts_with("--") {
            text.push_str(line.as_str())?;
            text.push_str("\n")?;
        }
    }
    answer(rt, name.as_str(), text.as_str())
}
