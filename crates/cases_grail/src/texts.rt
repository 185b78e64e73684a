use case_lines::{Judge, Text, answer};
use std::io;

/// Answers the lines of a table about texts: `text` begins a text, `|LINE` adds a line to it, a line that begins with
/// `--` is a note, and any other line is a command, whose answer stands behind it.
pub(crate) fn answer_lines<J: Judge>(
    rt: &HostRuntime,
    judge: &J,
    lines: &[String],
) -> io::Result<()> {
    let alloc = rt.alloc();
    let mut text = Text::new(alloc);
    for line in lines {
        let line = line.as_str();
        if line.starts_with("--") {
            continue;
        }
        if line == "text" {
            text = Text::new(alloc);
        } else if let Some(added) = line.strip_prefix("|") {
            text.add(alloc, added)?;
        } else {
            println!(rt; "{line}:{}", answer(alloc, judge, &text, line)?)?;
        }
    }
    Ok(())
}
