//! Answers lines about texts of values, so that tables of them are data: `stdin` has the lines, and `stdout` what is to
//! be answered.
//!
//! `types` begins a list of types. `type NAME` begins a type of it, `inline NAME` gives that type an inline
//! constructor, and `con NAME FIELDS` a boxed one with fields of these kinds: `int`, `bool`, `dia`, or the number of a
//! type. A line that begins with `--` is a note. Any other line is a command, and its answer stands behind it. A text
//! stands between two `|`.
//!
//! - `kinds KINDS`: the kinds of the commands that follow; the answer is how many they are.
//! - `read |TEXT|`: the values that the text is read as, each printed, or the fault.
//! - `fronts |TEXT|`: for each front of the text, from none to all of it, `ok`, or the place of the fault.
//! - `nest NUMBER |OPEN|MIDDLE|CLOSE|`: of the text that has OPEN so many times, then MIDDLE, and then CLOSE so many
//!   times: how many values it is read as, how many nodes and cells the first has, and how long its text is, or the
//!   fault.
mod answers;
mod table;

use answers::answer;
use std::io;
use table::Table;

/// Answers the lines of a table.
pub(crate) fn answer_lines(rt: &HostRuntime, lines: &[String]) -> io::Result<()> {
    let alloc = rt.alloc();
    let mut table = Table::new(alloc);
    for line in lines {
        let line = line.as_str();
        if line.starts_with("--") {
            continue;
        }
        if !table.add(alloc, line)? {
            answer(rt, &mut table, line)?;
        }
    }
    Ok(())
}
