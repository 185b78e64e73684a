//! Answers tables of cases about cells, so that they are data: `stdin` has the tables, and `stdout` what is to be
//! answered.
//!
//! A line `table NAME` begins a table, and names what its lines are about:
//!
//! - `desks`: desks, their leases and journals.
//! - `images`: texts of images, and runs that are paused.
//! - `licences`: runs of code with certificates, in the cells of their leases.
//! - `machines`: runs of code in cells.
//! - `places`: locals that are ready at places of code.
//! - `scripts`: texts of scripts.
//! - `tenants`: desks of several tenants, and their leases.
#![tactic(auto)]

mod arenas;
mod desks;
mod images;
mod licences;
mod machines;
mod places;
mod scripts;
mod tenants;

use case_lines::{Table, Tables};
use std::io;
use std::io::{BufRead, BufReader};
use std::sync::Wait;
use std::thread::Threads;

// Answers a table. The runtime comes twice: it prints, and it starts threads.
fn answer_table<R: Threads + Wait + Sync>(
    rt: &HostRuntime,
    threads: &R,
    table: &Table,
) -> io::Result<()> {
    println!(rt; "table {}", table.name)?;
    match table.name.as_str() {
        "desks" => desks::answer_lines(rt, &table.lines),
        "images" => images::answer_lines(rt, &table.lines),
        "licences" => licences::answer_lines(rt, threads, &table.lines),
        "machines" => machines::answer_lines(rt, &table.lines),
        "places" => places::answer_lines(rt, &table.lines),
        "scripts" => scripts::answer_lines(rt, &table.lines),
        "tenants" => tenants::answer_lines(rt, &table.lines),
        _ => println!(rt; "no such table"),
    }
}

fn main(rt: HostRuntime) -> io::Result<()> {
    let alloc = rt.alloc();
    let mut tables = Tables::new(alloc);
    for line in BufReader::new(alloc, rt.reader())?.lines(alloc) {
        tables.add(alloc, line?)?;
    }
    for table in &tables.all {
        answer_table(&rt, &rt, table)?;
    }
    Ok(())
}
