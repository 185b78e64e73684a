//! Answers lines about desks of several tenants, so that tables of them are data: `stdin` has the lines, and `stdout`
//! what is to be answered. A line that begins with `--` is a note. Any other line is a command, and its answer stands
//! behind it. Tenants are counted from 0, and the first cell of a lease from that of the tenant's piece on.
//!
//! - `desk ARENA MOST: BUDGET ..`: a new desk of so many cells, for tenants with these budgets. At most MOST leases of
//!   one tenant are out at a time.
//! - `ask TENANT SIZE`: asks for so many cells for a tenant.
//! - `mark TENANT FIRST CELL TAG`: writes a tag into a cell of the tenant's lease that begins there. `look TENANT FIRST
//!   CELL`: the tag of such a cell. A lease's cells are counted from 0.
//! - `give TENANT FIRST`: the tenant's lease that begins there goes back.
//! - `held TENANT`: how many cells the tenant holds.
//! - `finish`: ends the desk; the tags of all cells of the arena, where no lease was out.
mod answers;
mod session;

use answers::{answer, end};
use session::Session;
use std::io;

// Answers the lines. The session is that of the last desk, where there is one.
fn answer_each(
    rt: &HostRuntime,
    session: &mut Option<Session>,
    lines: &[String],
) -> io::Result<()> {
    for line in lines {
        let line = line.as_str();
        if !line.starts_with("--") {
            print!(rt; "{line}:")?;
            answer(rt, session, line)?;
            println!(rt; "")?;
        }
    }
    Ok(())
}

/// Answers the lines of a table.
pub(crate) fn answer_lines(rt: &HostRuntime, lines: &[String]) -> io::Result<()> {
    let mut session = None;
    let answered = answer_each(rt, &mut session, lines);
    end(session);
    answered
}
