use std::alloc::{AllocError, Global};
use std::io;
use std::io::ErrorKind;

#[derive(Drop)]
struct Named {
    name: String,
    bytes: Vec<u8>,
}

/// Texts and codes by their names, in bytes.
#[derive(Drop)]
pub struct Texts {
    all: Vec<Named>,
}

impl Texts {
    pub fn new(alloc: Global) -> Texts {
        Texts {
            all: Vec::new(alloc),
        }
    }

    /// Begins a text of no bytes.
    pub fn begin(&mut self, alloc: Global, name: &str) -> Result<(), AllocError> {
        let name = String::from_str(alloc, name)?;
        let bytes = Vec::new(alloc);
        self.all.push(Named { name, bytes })?;
        Ok(())
    }

    /// Adds bytes to the text that was begun last. `InvalidInput` where none was.
    pub fn extend(&mut self, more: &[u8]) -> io::Result<()> {
        match self.all.last_mut() {
            Some(text) => text.bytes.extend_from_slice(more)?,
            None => return Err(ErrorKind::InvalidInput.into()),
        }
        Ok(())
    }

    /// Adds the bytes of these hexadecimal digits. `InvalidInput` where there are none such.
    pub fn extend_digits(&mut self, alloc: Global, digits: &str) -> io::Result<()> {
        let more = bytes_of(alloc, digits)?;
        self.extend(&more)
    }

    /// The text of this name; the first one, where there are several.
    pub fn find(&self, name: &str) -> Option<&[u8]> {
        for text in &self.all {
            if text.name.as_str() == name {
                return Some(&text.bytes);
            }
        }
        None
    }
}

fn bytes_of(alloc: Global, digits: &str) -> io::Result<Vec<u8>> {
    match hex::decode(alloc, digits) {
        Ok(bytes) => Ok(bytes),
        Err(_) => Err(ErrorKind::InvalidInput.into()),
    }
}

/// The bytes, where each word as `3=67` has put others in the place of one of them, counted from 0. `InvalidInput` for
/// any other word.
pub fn edited(alloc: Global, bytes: &[u8], words: &[&str]) -> io::Result<Vec<u8>> {
    let mut text = Vec::from_slice(alloc, bytes)?;
    for word in words {
        text = edit(alloc, &text, word)?;
    }
    Ok(text)
}

fn edit(alloc: Global, bytes: &[u8], word: &str) -> io::Result<Vec<u8>> {
    let (place, digits) = match word.split_once("=") {
        Some(parts) => parts,
        None => return Err(ErrorKind::InvalidInput.into()),
    };
    let place = match place.parse::<usize>() {
        Ok(place) if place < bytes.len() => place,
        _ => return Err(ErrorKind::InvalidInput.into()),
    };
    let mut text = Vec::from_slice(alloc, &bytes[..place])?;
    text.extend_from_slice(&bytes_of(alloc, digits)?)?;
    text.extend_from_slice(&bytes[place + 1..])?;
    Ok(text)
}
