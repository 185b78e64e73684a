//! The types and kinds that lines of the input say.

use camelot_values::Kind;
use std::alloc::{AllocError, Global};

/// A type as it is spelled in code, without the count of its constructors.
#[derive(Drop)]
struct Spelled {
    name: String,
    count: u8,
    cons: Vec<u8>,
}

/// The types in order, and the kinds of values to read.
#[derive(Drop)]
pub(crate) struct Table {
    types: Vec<Spelled>,
    pub(crate) kinds: Vec<Kind>,
}

// The number of a kind in code.
fn number_of(word: &str) -> u8 {
    match word {
        "int" => 0,
        "bool" => 1,
        "dia" => 2,
        _ => word.parse::<u8>().unwrap_or(60).saturating_add(3),
    }
}

// The kind of a word.
fn kind_of(word: &str) -> Kind {
    match word {
        "int" => Kind::Int,
        "bool" => Kind::Flag,
        "dia" => Kind::Dia,
        _ => Kind::Of(word.parse::<u32>().unwrap_or(64)),
    }
}

// Adds a name with its length before it.
fn push_name(out: &mut Vec<u8>, name: &str) -> Result<(), AllocError> {
    out.push(name.len().min(127) as u8)?;
    out.extend_from_slice(name.as_bytes())
}

impl Table {
    pub(crate) fn new(alloc: Global) -> Table {
        Table {
            types: Vec::new(alloc),
            kinds: Vec::new(alloc),
        }
    }

    // Adds a constructor to the type that was begun last.
    fn add_con(
        &mut self,
        alloc: Global,
        name: &str,
        fields: &[&str],
        is_inline: bool,
    ) -> Result<(), AllocError> {
        let Some(last) = self.types.last_mut() else {
            return Ok(());
        };
        last.count = last.count.saturating_add(1);
        push_name(&mut last.cons, name)?;
        if is_inline {
            last.cons.push(1)?;
            return Ok(());
        }
        last.cons.push(0)?;
        last.cons.push(fields.len().min(127) as u8)?;
        for field in fields {
            last.cons.push(number_of(field))?;
        }
        let _ = alloc;
        Ok(())
    }

    /// Takes a line about types; false where it is a command.
    pub(crate) fn add(&mut self, alloc: Global, line: &str) -> Result<bool, AllocError> {
        let words: Vec<&str> = line.split_whitespace().collect(alloc)?;
        match words.as_slice() {
            ["types"] => self.types = Vec::new(alloc),
            ["type", name] => {
                let name = String::from_str(alloc, name)?;
                let cons = Vec::new(alloc);
                self.types.push(Spelled {
                    name,
                    count: 0,
                    cons,
                })?;
            }
            ["inline", name] => self.add_con(alloc, name, &[], true)?,
            ["con", name, fields @ ..] => self.add_con(alloc, name, fields, false)?,
            _ => return Ok(false),
        }
        Ok(true)
    }

    /// Takes the kinds of the values to read.
    pub(crate) fn set_kinds(&mut self, alloc: Global, line: &str) -> Result<(), AllocError> {
        let mut kinds = Vec::new(alloc);
        for word in line.split_whitespace() {
            kinds.push(kind_of(word))?;
        }
        self.kinds = kinds;
        Ok(())
    }

    /// A code with these types, and one function that gives its argument back.
    pub(crate) fn code(&self, alloc: Global) -> Result<Vec<u8>, AllocError> {
        let mut out = Vec::from_slice(alloc, b"GRL1")?;
        out.push(self.types.len().min(127) as u8)?;
        for spelled in &self.types {
            push_name(&mut out, spelled.name.as_str())?;
            out.push(spelled.count)?;
            out.extend_from_slice(&spelled.cons)?;
        }
        out.extend_from_slice(b"\x01\x01f\x01\x00\x00\x00\x01\x01\x00\x00\x00\x00")?;
        Ok(out)
    }
}
