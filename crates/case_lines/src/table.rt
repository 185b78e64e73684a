use std::alloc::{AllocError, Global};

/// A table: its name, and its lines.
#[derive(Drop)]
pub struct Table {
    pub name: String,
    pub lines: Vec<String>,
}

/// The tables of an input, in order.
#[derive(Drop)]
pub struct Tables {
    pub all: Vec<Table>,
}

impl Tables {
    pub fn new(alloc: Global) -> Tables {
        Tables {
            all: Vec::new(alloc),
        }
    }

    /// Takes a line of the input: `table NAME` begins a table, and any other line is one of the last table. What stands
    /// before the first table is left out.
    pub fn add(&mut self, alloc: Global, line: String) -> Result<(), AllocError> {
        if let Some(name) = line.as_str().strip_prefix("table ") {
            let name = String::from_str(alloc, name)?;
            let lines = Vec::new(alloc);
            self.all.push(Table { name, lines })?;
            return Ok(());
        }
        if let Some(last) = self.all.last_mut() {
            last.lines.push(line)?;
        }
        Ok(())
    }
}
