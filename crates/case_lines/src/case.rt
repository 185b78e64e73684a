use std::alloc::{AllocError, Global};

/// A case: its command and name, and its text.
#[derive(Drop)]
pub struct Case {
    head: String,
    text: String,
    is_empty: bool,
}

impl Case {
    /// A case whose text has no line yet.
    pub fn new(alloc: Global, head: &str) -> Result<Case, AllocError> {
        Ok(Case {
            head: String::from_str(alloc, head)?,
            text: String::new(alloc),
            is_empty: true,
        })
    }

    /// The first word of the head.
    pub fn command(&self) -> &str {
        match self.head.as_str().split_once(" ") {
            Some((command, _)) => command,
            None => "",
        }
    }

    /// The lines that were added, with a line feed between any two.
    pub fn text(&self) -> &str {
        self.text.as_str()
    }

    /// What stands behind the first word of the head.
    pub fn name(&self) -> &str {
        match self.head.as_str().split_once(" ") {
            Some((_, name)) => name,
            None => "",
        }
    }

    fn push(&mut self, line: &str) -> Result<(), AllocError> {
        if !self.is_empty {
            self.text.push_str("\n")?;
        }
        self.is_empty = false;
        self.text.push_str(line)
    }

    /// Adds what a line stands for: nothing where it begins with `--`; lines with the numbers 00, 01 and 02 in place of
    /// `#` where it is as `%3 let f# x = x`; and else itself.
    pub fn add(&mut self, alloc: Global, line: &str) -> Result<(), AllocError> {
        if line.starts_with("--") {
            return Ok(());
        }
        match repetition(line) {
            Some((times, pattern)) => {
                for number in 0..times {
                    let digits = format!(in alloc; "{number:02}")?;
                    self.push(pattern.replace(alloc, "#", digits.as_str())?.as_str())?;
                }
                Ok(())
            }
            None => self.push(line),
        }
    }
}

// The number and the pattern of a line that stands for several.
fn repetition(line: &str) -> Option<(u32, &str)> {
    let (times, pattern) = line.strip_prefix("%")?.split_once(" ")?;
    Some((times.parse::<u32>().ok()?, pattern))
}
