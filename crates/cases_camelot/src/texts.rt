//! Answers cases of Camelot texts, so that tables of them are data: `stdin` has the cases, and `stdout` what is to be
//! answered.
//!
//! A case is a line `== COMMAND NAME` and its text, the lines below it with a line feed between any two. `tokens`
//! prints the tokens of the text, `tree` the program that it is parsed to, `check` its first fault or the kinds of its
//! functions, and `kinds` the kinds of all expressions too. A line that begins with `--` is a note, and one as `%3 let
//! f# x = x` stands for three lines, with the numbers 00, 01 and 02 in place of `#`.
mod answers;
mod tree;

use answers::answer;
use case_lines::Case;
use std::io;

/// Answers the lines of a table.
pub(crate) fn answer_lines(rt: &HostRuntime, lines: &[String]) -> io::Result<()> {
    let alloc = rt.alloc();
    let mut case = Case::new(alloc, "")?;
    for line in lines {
        match line.as_str().strip_prefix("== ") {
            Some(head) => {
                answer(rt, &case)?;
                case = Case::new(alloc, head)?;
            }
            None => case.add(alloc, line.as_str())?,
        }
    }
    answer(rt, &case)
}
