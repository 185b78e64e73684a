//! What is answered to a command.
ghost use Rattle.std.specs.Prelude.{◌≡◌, ◌≤◌, sum, IfOk, IfSome, IsTrue};
ghost use Rattle.std.specs.List.{AllByRecursion};
ghost use Rattle.tenant_desk.specs.Desk.{AreBudgets};

use crate::arenas::new_arena;
use crate::tenants::session::{Asked, Session};
use cell_span::Span;
use std::alloc::{AllocError, Global};
use std::io;
use std::mem::replace;
use tenant_desk::DeskRefused;

/// What a desk is made of.
#[derive(Drop)]
struct Plan {
    cells: u32,
    most: u32,
    budgets: Vec<u32>,
}

// Whether each budget is at least 1, and all together are at most so many cells.
fn fit(cells: u32, budgets: &[u32]) -> bool
    ensures each { IsTrue result → AllByRecursion (λ b. 1 ≤ b) budgets.now }
    ensures within { IsTrue result → sum budgets.now ≤ cells }
{
    match budgets {
        [] => true,
        [budget, others @ ..] => {
            *budget >= 1 && *budget <= cells && fit(cells - *budget, others)
        }
    }
}

// The numbers of a text.
fn numbers(alloc: Global, text: &str) -> Result<Option<Vec<u32>>, AllocError> {
    let mut all = Vec::new(alloc);
    for word in text.split_whitespace() {
        match word.parse::<u32>() {
            Ok(number) => all.push(number)?,
            Err(_) => return Ok(None),
        }
    }
    Ok(Some(all))
}

// The plan of these words, where there is a desk of it.
fn plan_of(alloc: Global, words: &str) -> Result<Option<Plan>, AllocError>
    ensures budgets { IfOk result (λ found. IfSome found (λ plan. AreBudgets plan.cells plan.budgets.items)) }
    ensures some { IfOk result (λ found. IfSome found (λ plan. 1 ≤ plan.cells)) }
    ensures few { IfOk result (λ found. IfSome found (λ plan. plan.cells ≤ 2147483648)) }
{
    let Some((sizes, text)) = words.split_once(':') else {
        return Ok(None);
    };
    let (Some(sizes), Some(budgets)) = (numbers(alloc, sizes)?, numbers(alloc, text)?) else {
        return Ok(None);
    };
    let [cells, most] = sizes.as_slice() else {
        return Ok(None);
    };
    let (cells, most) = (*cells, *most);
    if cells < 1 || cells > 2_147_483_648 || budgets.is_empty() || budgets.len() > 64 {
        return Ok(None);
    }
    if !fit(cells, &budgets) {
        return Ok(None);
    }
    Ok(Some(Plan {
        cells,
        most,
        budgets,
    }))
}

/// Ends the session, where there is one.
pub(crate) fn end(session: Option<Session>) {
    match session {
        Some(session) => session.finish().end(),
        None => {}
    }
}

// Makes a desk in the place of the one before.
fn begin(rt: &HostRuntime, session: &mut Option<Session>, words: &str) -> io::Result<()> {
    end(replace(session, None));
    let Some(plan) = plan_of(rt.alloc(), words)? else {
        return print!(rt; " no desk");
    };
    let Plan {
        cells,
        most,
        budgets,
    } = plan;
    let span = new_arena(rt.alloc(), cells)?;
    match Session::open(rt.alloc(), span, budgets, most) {
        Ok(opened) => {
            end(replace(session, Some(opened)));
            Ok(())
        }
        Err(DeskRefused { span }) => {
            span.end();
            print!(rt; " memory")
        }
    }
}

fn print_tags(rt: &HostRuntime, span: &Span) -> io::Result<()> {
    print!(rt; " tags")?;
    for at in 0..span.len() {
        print!(rt; " {}", span.get(at).tag)?;
    }
    Ok(())
}

// Ends the session and its arena; the tags of the cells, where no lease was out.
fn finish(rt: &HostRuntime, session: Session) -> io::Result<()> {
    let out = session.is_any_out();
    let span = session.finish();
    let told = if out {
        print!(rt; " leases are out")
    } else {
        print_tags(rt, &span)
    };
    span.end();
    told
}

fn ask(rt: &HostRuntime, session: &mut Session, tenant: u32, size: u32) -> io::Result<()> {
    match session.ask(tenant, u64::from(size))? {
        Asked::Granted { first, size } => print!(rt; " granted first {first} size {size}"),
        Asked::Over { held, size, budget } => {
            print!(rt; " over held {held} size {size} budget {budget}")
        }
        Asked::Full { need, largest } => print!(rt; " full need {need} largest {largest}"),
        Asked::Cant => print!(rt; " can't ask"),
    }
}

fn look(rt: &HostRuntime, session: &Session, tenant: u32, first: u32, cell: u32) -> io::Result<()> {
    match session.tag(tenant, first, cell) {
        Some(tag) => print!(rt; " {tag}"),
        None => print!(rt; " no such cell"),
    }
}

// Says so where there was no such lease.
fn print_found(rt: &HostRuntime, found: bool) -> io::Result<()> {
    if found {
        return Ok(());
    }
    print!(rt; " no lease")
}

fn held(rt: &HostRuntime, session: &Session, tenant: u32) -> io::Result<()> {
    match session.held(tenant) {
        Some(held) => print!(rt; " {held}"),
        None => print!(rt; " no tenant"),
    }
}

fn with_session(rt: &HostRuntime, session: &mut Session, line: &str) -> io::Result<()> {
    let Some((command, rest)) = line.split_once(' ') else {
        return print!(rt; " no such command");
    };
    let Some(numbers) = numbers(rt.alloc(), rest)? else {
        return print!(rt; " no numbers");
    };
    match (command, numbers.as_slice()) {
        ("ask", [tenant, size]) => ask(rt, session, *tenant, *size),
        ("mark", [tenant, first, cell, tag]) => {
            print_found(rt, session.mark(*tenant, *first, *cell, *tag))
        }
        ("look", [tenant, first, cell]) => look(rt, session, *tenant, *first, *cell),
        ("give", [tenant, first]) => print_found(rt, session.give(*tenant, *first)),
        ("held", [tenant]) => held(rt, session, *tenant),
        _ => print!(rt; " no such command"),
    }
}

/// Answers a line. The session is that of the last desk, where there is one.
pub(crate) fn answer(
    rt: &HostRuntime,
    session: &mut Option<Session>,
    line: &str,
) -> io::Result<()> {
    if let Some(words) = line.strip_prefix("desk ") {
        return begin(rt, session, words);
    }
    if line == "finish" {
        return match replace(session, None) {
            Some(session) => finish(rt, session),
            None => print!(rt; " no desk"),
        };
    }
    match session {
        Some(session) => with_session(rt, session, line),
        None => print!(rt; " no desk"),
    }
}
