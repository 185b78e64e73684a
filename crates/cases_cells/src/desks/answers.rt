//! What is answered to a command.
ghost use Rattle.std.specs.Prelude.{◌≡◌, ◌≤◌, length, replicate, IsTrue};
ghost use Rattle.cell_span.specs.Range.{IsWhole, blank};
ghost use Rattle.lease_desk.specs.Journal.{AreSizes};

use crate::arenas::new_arena;
use crate::desks::copied::Copied;
use crate::desks::replays::answer_journal;
use crate::desks::session::{Asked, Session};
use cell_span::Span;
use lease_desk::{DeskName, DeskRefused, Event, Finished};
use std::io;
use std::marker::Brand;
use std::mem::replace;

/// Whether each size is from 1 to the arena's.
pub(crate) fn fit(arena: u32, sizes: &[u32]) -> bool
    ensures { IsTrue result → AreSizes arena sizes.now }
{
    match sizes {
        [] => true,
        [size, others @ ..] => *size >= 1 && *size <= arena && fit(arena, others),
    }
}

// Asks for the next job, and prints what comes of it.
fn next<N: DeskName>(rt: &HostRuntime, session: &mut Session<N>) -> io::Result<()> {
    match session.ask() {
        Asked::Granted { job, first, size } => print!(rt; " {job} at {first} size {size}"),
        Asked::Full { job, need, largest } => print!(rt;
            " {job} waits for {need}, largest {largest}"
        ),
        Asked::LeasesOut => print!(rt; " leases are out"),
        Asked::Over => print!(rt; " over"),
    }
}

fn tell(rt: &HostRuntime, event: Event) -> io::Result<()> {
    match event {
        Event::Took { job, first, size } => print!(rt; " took {job} {first} {size},"),
        Event::Full { job, need, largest } => print!(rt; " full {job} {need} {largest},"),
        Event::Gave { job, first, size } => print!(rt; " gave {job} {first} {size},"),
    }
}

// Prints the tags of an arena's cells, and the jobs with a payload.
fn tell_end(rt: &HostRuntime, span: &Span, payloads: &[Option<Copied>]) -> io::Result<()> {
    print!(rt; " tags")?;
    let count = span.len();
    for at in 0..count {
        let cell = span.get(at);
        print!(rt; " {}", cell.tag)?;
    }
    print!(rt; ", filed")?;
    for payload in payloads {
        if let Some(copied) = payload {
            print!(rt; " {}", copied.job)?;
        }
    }
    Ok(())
}

// Ends a session and its arena; where no lease is out, prints what is left.
fn finish<N: DeskName>(rt: &HostRuntime, session: Session<N>) -> io::Result<()> {
    let out = session.out();
    let Finished {
        span,
        journal: _,
        payloads,
    } = session.finish();
    let told = if out > 0 {
        print!(rt; " leases are out")
    } else {
        tell_end(rt, &span, &payloads)
    };
    span.end();
    told
}

// The first number, and what stands behind it.
fn number(words: &str) -> Option<(u32, &str)> {
    let (first, rest) = match words.split_once(' ') {
        Some(parts) => parts,
        None => (words, "0"),
    };
    Some((first.parse::<u32>().ok()?, rest))
}

// A job's number, a tag and the place of a cell; 0 for each that isn't given.
fn numbers(words: &str) -> Option<(u32, u32, u32)> {
    let (job, rest) = number(words)?;
    let (tag, rest) = number(rest)?;
    let (at, _) = number(rest)?;
    Some((job, tag, at))
}

fn with_lease<N: DeskName>(
    rt: &HostRuntime,
    session: &mut Session<N>,
    line: &str,
) -> io::Result<()> {
    let Some((command, words)) = line.split_once(' ') else {
        return print!(rt; " no command");
    };
    let Some((job, tag, at)) = numbers(words) else {
        return print!(rt; " no number");
    };
    let has_lease = if command == "mark" {
        session.mark(job, tag, at)
    } else if command == "give" {
        session.give(rt.alloc(), job)?
    } else {
        session.withdraw(job)
    };
    if !has_lease {
        return print!(rt; " no lease");
    }
    Ok(())
}

fn with_session<N: DeskName>(
    rt: &HostRuntime,
    session: &mut Session<N>,
    line: &str,
) -> io::Result<()> {
    if line == "next" {
        return next(rt, session);
    }
    if line == "counts" {
        let (free, largest, out, withdrawn) = session.counts();
        return print!(rt; " free {free} largest {largest} out {out} withdrawn {withdrawn}");
    }
    if line == "journal" {
        for event in session.journal() {
            tell(rt, *event)?;
        }
        return Ok(());
    }
    with_lease(rt, session, line)
}

// Answers a line that makes no desk. The session is the one behind it, where there is one.
fn answer<N: DeskName>(
    rt: &HostRuntime,
    session: &mut Option<Session<N>>,
    line: &str,
) -> io::Result<()> {
    if line == "finish" {
        return match replace(session, None) {
            Some(session) => finish(rt, session),
            None => print!(rt; " no desk"),
        };
    }
    match session {
        Some(session) => with_session(rt, session, line),
        None => print!(rt; " no desk"),
    }
}

// Ends the line of a desk, and answers the lines up to that of the next one.
fn answer_each<N: DeskName>(
    rt: &HostRuntime,
    session: &mut Option<Session<N>>,
    lines: &[String],
) -> io::Result<()> {
    println!(rt)?;
    for line in lines {
        let line = line.as_str();
        if line.starts_with("desk ") {
            return Ok(());
        }
        if line.starts_with("--") {
            continue;
        }
        print!(rt; "{line}:")?;
        match line.strip_prefix("replay ") {
            Some(words) => answer_journal(rt, words)?,
            None => answer(rt, session, line)?,
        }
        println!(rt)?;
    }
    Ok(())
}

/// Answers the lines up to that of the next desk, where there is no desk.
pub(crate) fn answer_without(rt: &HostRuntime, lines: &[String]) -> io::Result<()> {
    for line in lines {
        let line = line.as_str();
        if line.starts_with("desk ") {
            return Ok(());
        }
        if line.starts_with("--") {
            continue;
        }
        print!(rt; "{line}:")?;
        match line.strip_prefix("replay ") {
            Some(words) => answer_journal(rt, words)?,
            None => print!(rt; " no desk")?,
        }
        println!(rt)?;
    }
    Ok(())
}

// Ends the session, where there is one.
fn end<N: DeskName>(session: Option<Session<N>>) {
    match session {
        Some(session) => session.end(),
        None => {}
    }
}

// Answers on the name's desk, a new one. Nothing that it takes or hands out is of the name, so that its caller may pick
// it.
fn answer_on<N: DeskName>(
    rt: &HostRuntime,
    span: Span,
    sizes: Vec<u32>,
    lines: &[String],
) -> io::Result<()>
    requires arena { span.arena ≡ N.arena }
    requires named { sizes.items ≡ N.sizes }
    requires whole { IsWhole span }
    requires blanks { span.cells ≡ replicate span.arena.cells blank }
    requires few { length sizes.items ≤ 4096 }
    requires fit { AreSizes span.arena.cells sizes.items }
{
    match Session::<N>::open(rt.alloc(), span, sizes) {
        Ok(session) => {
            let mut session = Some(session);
            let answered = answer_each(rt, &mut session, lines);
            end(session);
            answered
        }
        Err(DeskRefused { span }) => {
            span.end();
            println!(rt; " memory")?;
            answer_without(rt, lines)
        }
    }
}

/// Answers the line of a desk, whose arena and sizes are these words, and the lines up to that of the next one. It is
/// the call that picks which desk it is.
pub(crate) fn answer_new(rt: &HostRuntime, words: &str, lines: &[String]) -> io::Result<()> {
    let alloc = rt.alloc();
    let mut numbers = Vec::new(alloc);
    for word in words.split(' ') {
        numbers.push(word.parse::<u32>().unwrap_or(0))?;
    }
    let arena = numbers.first().copied().unwrap_or(0);
    let sizes = numbers.get(1..).unwrap_or(&[]).to_vec(alloc)?;
    if arena == 0 || arena > 2_147_483_648 || sizes.len() > 4096 || !fit(arena, &sizes) {
        println!(rt; " no desk")?;
        return answer_without(rt, lines);
    }
    match new_arena(alloc, arena) {
        Ok(span) => answer_on::<Brand>(rt, span, sizes, lines),
        Err(_) => {
            println!(rt; " memory")?;
            answer_without(rt, lines)
        }
    }
}
