//! Compiles Camelot programs, so that tables of them are data: `stdin` has the cases, and `stdout` what is to come of
//! them.
//!
//! A case is a line `== COMMAND NAME` and its text, the lines below it with a line feed between any two. Where the text
//! has no code, the fault is printed, and else what the command asks for:
//!
//! - `code`: the code, function by function and block by block, and its spelling in hexadecimal digits.
//! - `bytes`: the spelling alone.
//! - `size`: how many further locals and blocks each function has.
//! - `run`: how a run ends. The name is that of a function, the fuel, and its arguments, which are numbers.
//!
//! A line that begins with `--` is a note, and one as `%3 let f# x = x` stands for three lines, with the numbers 00, 01
//! and 02 in place of `#`.
mod answers;
mod code_text;

use answers::answer;
use case_lines::Case;
use std::io;

/// Answers the lines of a table.
pub(crate) fn answer_lines(rt: &HostRuntime, lines: &[String]) -> io::Result<()> {
    let alloc = rt.alloc();
    let mut case = Case::new(alloc, "")?;
    for line in lines {
        match line.as_str().strip_prefix("== ") {
            Some(head) => {
                answer(rt, &case)?;
                case = Case::new(alloc, head)?;
            }
            None => case.add(alloc, line.as_str())?,
        }
    }
    answer(rt, &case)
}
