//! Answers tables of cases about Camelot, so that they are data: `stdin` has the tables, and `stdout` what is to be
//! answered.
//!
//! A line `table NAME` begins a table, and names what its lines are about:
//!
//! - `bundles`: what the compiler makes of programs, or why it refuses them.
//! - `compiled`: the code of programs.
//! - `texts`: tokens, trees, types and uses of texts.
#![tactic(auto)]

mod bundles;
mod compiled;
mod texts;

use case_lines::{Table, Tables};
use std::io;
use std::io::{BufRead, BufReader};

// Answers a table.
fn answer_table(rt: &HostRuntime, table: &Table) -> io::Result<()> {
    println!(rt; "table {}", table.name)?;
    match table.name.as_str() {
        "bundles" => bundles::answer_lines(rt, &table.lines),
        "compiled" => compiled::answer_lines(rt, &table.lines),
        "texts" => texts::answer_lines(rt, &table.lines),
        _ => println!(rt; "no such table"),
    }
}

fn main(rt: HostRuntime) -> io::Result<()> {
    let alloc = rt.alloc();
    let mut tables = Tables::new(alloc);
    for line in BufReader::new(alloc, rt.reader())?.lines(alloc) {
        tables.add(alloc, line?)?;
    }
    for table in &tables.all {
        answer_table(&rt, table)?;
    }
    Ok(())
}
