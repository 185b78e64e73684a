//! What is answered to a journal.

use journal_replay::{DeskState, replay};
use lease_desk::Event;
use std::alloc::{AllocError, Global};
use std::io;

// Three numbers.
fn three(words: &[&str]) -> Option<(u32, u32, u32)> {
    match words {
        [first, second, third] => Some((
            first.parse::<u32>().ok()?,
            second.parse::<u32>().ok()?,
            third.parse::<u32>().ok()?,
        )),
        _ => None,
    }
}

// The event that the words tell.
fn event(words: &[&str]) -> Option<Event> {
    let [kind, numbers @ ..] = words else {
        return None;
    };
    let (job, second, third) = three(numbers)?;
    match *kind {
        "took" => Some(Event::Took {
            job,
            first: second,
            size: third,
        }),
        "full" => Some(Event::Full {
            job,
            need: second,
            largest: third,
        }),
        "gave" => Some(Event::Gave {
            job,
            first: second,
            size: third,
        }),
        _ => None,
    }
}

// The events that a text tells, or nothing where a part of it isn't one.
fn events(alloc: Global, text: &str) -> Result<Option<Vec<Event>>, AllocError> {
    let mut all = Vec::new(alloc);
    for part in text.split(',') {
        let words: Vec<&str> = part.split_whitespace().collect(alloc)?;
        match event(&words) {
            Some(event) => all.push(event)?,
            None => return Ok(None),
        }
    }
    Ok(Some(all))
}

fn tell(rt: &HostRuntime, state: &DeskState) -> io::Result<()> {
    print!(rt; " holes")?;
    for hole in &state.holes {
        print!(rt; " {} size {},", hole.first, hole.size)?;
    }
    print!(rt; " leases")?;
    for lease in &state.leases {
        print!(rt;
            " {} at {} size {},",
            lease.job, lease.run.first, lease.run.size
        )?;
    }
    Ok(())
}

/// Prints what a journal comes to: the arena and the sizes of the jobs, and behind a colon the events.
pub(crate) fn answer_journal(rt: &HostRuntime, words: &str) -> io::Result<()> {
    let alloc = rt.alloc();
    let (numbers, text) = match words.split_once(':') {
        Some((numbers, text)) => (numbers, Some(text)),
        None => (words, None),
    };
    let mut sizes = Vec::new(alloc);
    for word in numbers.split_whitespace() {
        sizes.push(word.parse::<u32>().unwrap_or(0))?;
    }
    let [arena, sizes @ ..] = sizes.as_slice() else {
        return print!(rt; " no arena");
    };
    if sizes.len() > 4096 {
        return print!(rt; " too many jobs");
    }
    let journal = match text {
        Some(text) => events(alloc, text)?,
        None => Some(Vec::new(alloc)),
    };
    let Some(journal) = journal else {
        return print!(rt; " no events");
    };
    match replay(alloc, &journal, *arena, sizes)? {
        Some(state) => tell(rt, &state),
        None => print!(rt; " none"),
    }
}
