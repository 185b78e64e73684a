//! The certificates by their names, in lines.

use std::alloc::{AllocError, Global};
use std::io;
use std::io::ErrorKind;

#[derive(Drop)]
struct Named {
    name: String,
    lines: Vec<String>,
}

#[derive(Drop)]
pub(crate) struct Certs {
    all: Vec<Named>,
}

impl Certs {
    pub(crate) fn new(alloc: Global) -> Certs {
        Certs {
            all: Vec::new(alloc),
        }
    }

    /// Begins a certificate of no lines.
    pub(crate) fn begin(&mut self, alloc: Global, name: &str) -> Result<(), AllocError> {
        let name = String::from_str(alloc, name)?;
        let lines = Vec::new(alloc);
        self.all.push(Named { name, lines })?;
        Ok(())
    }

    /// Adds a line to the certificate that was begun last.
    pub(crate) fn extend(&mut self, alloc: Global, text: &str) -> io::Result<()> {
        let line = String::from_str(alloc, text)?;
        match self.all.last_mut() {
            Some(cert) => cert.lines.push(line)?,
            None => return Err(ErrorKind::InvalidInput.into()),
        }
        Ok(())
    }

    pub(crate) fn find(&self, name: &str) -> Option<&[String]> {
        for cert in &self.all {
            if cert.name.as_str() == name {
                return Some(&cert.lines);
            }
        }
        None
    }
}

fn push_line(text: &mut Vec<u8>, line: &str) -> Result<(), AllocError> {
    text.extend_from_slice(line.as_bytes())?;
    text.push(b'\n')?;
    Ok(())
}

// Adds these lines, where `|` ends one.
fn push_lines(alloc: Global, text: &mut Vec<u8>, lines: &str) -> io::Result<()> {
    let parts: Vec<&str> = lines.split("|").collect(alloc)?;
    for part in &parts {
        push_line(text, part)?;
    }
    Ok(())
}

// The number of a line and what stands in its place; none, where the line is left out.
fn edit_of(edit: &str) -> io::Result<(usize, Option<&str>)> {
    let (number, other) = match edit.split_once(" ") {
        Some((number, other)) => (number, Some(other)),
        None => (edit, None),
    };
    match number.parse::<usize>() {
        Ok(number) => Ok((number, other)),
        Err(_) => Err(ErrorKind::InvalidInput.into()),
    }
}

/// The text of these lines, where others stand in the place of one of them.
pub(crate) fn edited(alloc: Global, lines: &[String], edit: &str) -> io::Result<Vec<u8>> {
    let (number, other) = if edit.is_empty() {
        (0, None)
    } else {
        edit_of(edit)?
    };
    let mut text = Vec::new(alloc);
    for (index, line) in lines.iter().enumerate() {
        if index + 1 != number {
            push_line(&mut text, line.as_str())?;
        } else if let Some(other) = other {
            push_lines(alloc, &mut text, other)?;
        }
    }
    Ok(text)
}
