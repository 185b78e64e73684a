use std::alloc::{AllocError, Global};
use std::fmt::Write;
use std::io;

/// A text, as lines without their line feeds.
#[derive(Drop)]
pub struct Text {
    lines: Vec<Vec<u8>>,
}

/// A change of one line.
#[derive(Clone, Copy)]
enum Change<'a> {
    /// None.
    None,
    /// This in place of the line of this number.
    With(usize, &'a str),
    /// No line of this number.
    Without(usize),
    /// This line before the line of this number.
    Before(usize, &'a str),
}

// Adds the bytes, with `{W*N}` as N times the word W, and `{=N}` as the byte N.
fn push_expanded(alloc: Global, out: &mut Vec<u8>, content: &str) -> Result<(), AllocError> {
    let parts: Vec<&str> = content.split("{").collect(alloc)?;
    let mut first = true;
    for part in parts {
        if first {
            out.extend_from_slice(part.as_bytes())?;
            first = false;
            continue;
        }
        let Some((run, rest)) = part.split_once("}") else {
            continue;
        };
        if let Some(byte) = run.strip_prefix("=") {
            out.push(byte.parse::<u8>().unwrap_or(0))?;
        } else if let Some((word, times)) = run.split_once("*") {
            for _ in 0..times.parse::<u32>().unwrap_or(0) {
                out.extend_from_slice(word.as_bytes())?;
            }
        }
        out.extend_from_slice(rest.as_bytes())?;
    }
    Ok(())
}

// Adds the line and its line feed.
fn push_line(alloc: Global, out: &mut Vec<u8>, content: &str) -> Result<(), AllocError> {
    push_expanded(alloc, out, content)?;
    out.push(b'\n')?;
    Ok(())
}

// Adds a line that stands there, where the change leaves it.
fn push_changed(
    alloc: Global,
    out: &mut Vec<u8>,
    line: &[u8],
    number: usize,
    change: Change,
) -> Result<(), AllocError> {
    match change {
        Change::With(at, content) if at == number => return push_line(alloc, out, content),
        Change::Without(at) if at == number => return Ok(()),
        Change::Before(at, content) if at == number => push_line(alloc, out, content)?,
        _ => {}
    }
    out.extend_from_slice(line)?;
    out.push(b'\n')?;
    Ok(())
}

impl Text {
    pub fn new(alloc: Global) -> Text {
        Text {
            lines: Vec::new(alloc),
        }
    }

    /// Adds a line, in which `{W*N}` stands for N times the word W, and `{=N}` for the byte N.
    pub fn add(&mut self, alloc: Global, content: &str) -> Result<(), AllocError> {
        let mut line = Vec::new(alloc);
        push_expanded(alloc, &mut line, content)?;
        self.lines.push(line)?;
        Ok(())
    }

    // The bytes of the text with this change, and these bytes at its end.
    fn bytes(&self, alloc: Global, change: Change, ending: &str) -> Result<Vec<u8>, AllocError> {
        let mut out = Vec::new(alloc);
        for (index, line) in self.lines.iter().enumerate() {
            push_changed(alloc, &mut out, line, index + 1, change)?;
        }
        push_expanded(alloc, &mut out, ending)?;
        Ok(out)
    }
}

/// What is said of a text.
pub trait Judge {
    fn judge(&self, alloc: Global, bytes: &[u8]) -> io::Result<String>;
}

// The answers to all fronts of a text, from none to all of it; answers that are equal stand together, with their
// number.
fn fronts<J: Judge>(alloc: Global, judge: &J, bytes: &[u8]) -> io::Result<String> {
    let mut out = String::new(alloc);
    let mut last = judge.judge(alloc, &bytes[..0])?;
    let mut times = 1u64;
    for count in 0..bytes.len() {
        let next = judge.judge(alloc, &bytes[..count + 1])?;
        if next.as_str() == last.as_str() {
            times = times.saturating_add(1);
        } else {
            write!(out, " {last} x {times},")?;
            last = next;
            times = 1;
        }
    }
    write!(out, " {last} x {times}")?;
    Ok(out)
}

// The number of a line and what stands behind it.
fn numbered(words: &str) -> Option<(usize, &str)> {
    let (number, content) = words.split_once(" |")?;
    match number.parse::<usize>() {
        Ok(number) => Some((number, content)),
        Err(_) => None,
    }
}

// The change that a command asks for.
fn change_of(line: &str) -> Option<Change<'_>> {
    if line == "read" {
        return Some(Change::None);
    }
    if let Some(words) = line.strip_prefix("with ") {
        let (number, content) = numbered(words)?;
        return Some(Change::With(number, content));
    }
    if let Some(words) = line.strip_prefix("before ") {
        let (number, content) = numbered(words)?;
        return Some(Change::Before(number, content));
    }
    let words = line.strip_prefix("without ")?;
    match words.parse::<usize>() {
        Ok(number) => Some(Change::Without(number)),
        Err(_) => None,
    }
}

/// What is said of the text where a command has changed it: `read` doesn't; `with K |LINE` puts a line in the place of
/// its line K, `without K` takes that away, and `before K |LINE` puts one before it; `ending |BYTES` puts bytes behind
/// its last line feed; and `fronts` asks for each front of the text.
pub fn answer<J: Judge>(alloc: Global, judge: &J, text: &Text, line: &str) -> io::Result<String> {
    if line == "fronts" {
        return fronts(alloc, judge, &text.bytes(alloc, Change::None, "")?);
    }
    let bytes = if let Some(ending) = line.strip_prefix("ending |") {
        text.bytes(alloc, Change::None, ending)?
    } else if let Some(change) = change_of(line) {
        text.bytes(alloc, change, "")?
    } else {
        return Ok(String::from_str(alloc, " no such command")?);
    };
    let said = judge.judge(alloc, &bytes)?;
    Ok(format!(in alloc; " {said}")?)
}
