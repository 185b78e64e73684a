//! Answers tables of cases about Grail, so that they are data: `stdin` has the tables, and `stdout` what is to be
//! answered.
//!
//! A line `table NAME` begins a table, and names what its lines are about:
//!
//! - `bundles`: texts of bundles.
//! - `certificates`: texts of certificates.
//! - `codes`: codes: their bytes, their check and their runs.
//! - `systems`: systems of linear inequalities.
//! - `values`: texts of values.
//! - `verdicts`: what the verifier says of codes with certificates.
#![tactic(auto)]

mod bundles;
mod certificates;
mod codes;
mod systems;
mod texts;
mod values;
mod verdicts;

use bundles::Bundles;
use case_lines::{Table, Tables};
use certificates::Certificates;
use std::io;
use std::io::{BufRead, BufReader};

// Answers a table.
fn answer_table(rt: &HostRuntime, table: &Table) -> io::Result<()> {
    println!(rt; "table {}", table.name)?;
    match table.name.as_str() {
        "bundles" => texts::answer_lines(rt, &Bundles, &table.lines),
        "certificates" => texts::answer_lines(rt, &Certificates, &table.lines),
        "codes" => codes::answer_lines(rt, &table.lines),
        "systems" => systems::answer_lines(rt, &table.lines),
        "values" => values::answer_lines(rt, &table.lines),
        "verdicts" => verdicts::answer_lines(rt, &table.lines),
        _ => println!(rt; "no such table"),
    }
}

fn main(rt: HostRuntime) -> io::Result<()> {
    let alloc = rt.alloc();
    let mut tables = Tables::new(alloc);
    for line in BufReader::new(alloc, rt.reader())?.lines(alloc) {
        tables.add(alloc, line?)?;
    }
    for table in &tables.all {
        answer_table(&rt, table)?;
    }
    Ok(())
}
