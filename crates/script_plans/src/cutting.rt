//! Where a list of entries is cut, so that two parts of it are read side by side.
ghost use Rattle.std.specs.Prelude.{◌≤◌, length};

use job_script::Entry;

/// Which texts are read.
#[derive(Clone, Copy)]
pub(crate) enum Texts {
    /// Those of programs.
    Programs,
    /// Those of jobs' arguments.
    Arguments,
}

// What a job costs beside its arguments, in bytes of them.
const JOB_COST: u64 = 32;

// So many bytes of arguments are read before another thread would have begun.
const FEW_BYTES: u64 = 8192;

// How many bytes are worth a thread.
fn least(texts: Texts) -> u64 {
    match texts {
        Texts::Programs => 1,
        Texts::Arguments => FEW_BYTES,
    }
}

// How many bytes are read of an entry.
fn weigh(entry: &Entry<'_>, texts: Texts) -> u64 {
    match entry {
        Entry::Program { text, .. } => match texts {
            Texts::Programs => text.len() as u64,
            Texts::Arguments => 0,
        },
        Entry::Job { args, .. } => match texts {
            Texts::Programs => 0,
            Texts::Arguments => JOB_COST.wrapping_add(args.len() as u64),
        },
    }
}

// How many bytes are read of all of them.
fn weigh_all(entries: &[Entry<'_>], texts: Texts) -> u64 {
    let mut total: u64 = 0;
    'entries: for entry in entries {
        total = total.wrapping_add(weigh(entry, texts));
    }
    total
}

/// Where to cut these entries, so that about as much is read of those in front as of those behind. It is one of the
/// ends where there is nothing to share.
pub(crate) fn middle(entries: &[Entry<'_>], texts: Texts) -> usize
    ensures { result ≤ length entries.now }
{
    let total = weigh_all(entries, texts);
    if total < least(texts) {
        return 0;
    }
    let mut left = total / 2;
    let mut place = 0;
    'entries: for entry in entries {
        let bytes = weigh(entry, texts);
        if bytes > left {
            return if bytes - left < left {
                place + 1
            } else {
                place
            };
        }
        left -= bytes;
        place += 1;
    }
    place
}
