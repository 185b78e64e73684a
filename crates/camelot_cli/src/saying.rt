//! What is said on standard error where the output isn't whole. It is for people: no contract speaks of it. Where
//! standard error fails too, nothing is left to say it on.
use camelot_host::Status;
use std::io;

/// The commands that read standard input, with what each reads and does.
const READING: [(&str, &str, &str); 5] = [
    (
        "serve",
        "SCRIPT",
        "runs the jobs of a script, and writes its report",
    ),
    (
        "compile",
        "SOURCE",
        "compiles a program in Camelot to a bundle",
    ),
    ("verify", "BUNDLE", "checks a bundle, and writes its bounds"),
    (
        "migrate",
        "BUNDLE",
        "writes the code of a bundle in the newest format",
    ),
    (
        "tenants",
        "SCRIPT",
        "tells the tenants of a script what their jobs come to",
    ),
];

/// Says, by these words and this status, what isn't as it may have been meant; nothing where the output is whole.
pub(crate) fn explain(rt: &HostRuntime, words: &[String], status: Status) {
    let _ = match status {
        Status::Ok | Status::Refused => Ok(()),
        Status::Usage => say_usage(rt, words),
        Status::ReadFault => eprintln!(rt; "sillwaroc: standard input could not be read"),
        Status::WriteFault => eprintln!(rt; "sillwaroc: standard output could not be written"),
        Status::Memory => eprintln!(rt; "sillwaroc: memory was refused"),
        Status::TooLong => eprintln!(rt; "sillwaroc: standard input has more than 8388608 bytes"),
    };
}

// Which words are no command, and what was meant.
fn say_usage(rt: &HostRuntime, words: &[String]) -> io::Result<()> {
    let (command, further) = match words {
        [] => return say_forms(rt),
        [command, further @ ..] => (command.as_str(), further),
    };
    if is_plea(command) {
        return say_forms(rt);
    }
    if command == "--version" {
        return eprintln!(rt;
            "sillwaroc: reads grail code GRL1 and GRL2 and grail certificate 1, writes GRL2"
        );
    }
    if command == "drill" {
        return say_drill(rt, further);
    }
    if command == "sliced" {
        return say_sliced(rt, further);
    }
    say_reading(rt, command, further)
}

// Whether the word asks for help.
fn is_plea(word: &str) -> bool {
    word == "--help" || word == "-h" || word == "help"
}

// All commands, a line each.
fn say_forms(rt: &HostRuntime) -> io::Result<()> {
    eprintln!(rt; "sillwaroc: there are these commands:")?;
    for (command, input, does) in &READING {
        eprintln!(rt; "    sillwaroc {command} < {input}    {does}")?;
    }
    eprintln!(rt;
        "    sillwaroc sliced N < SCRIPT    runs the jobs of a script in slices of N steps, 1 to 1000000000"
    )?;
    eprintln!(rt; "    sillwaroc drill N W    runs N jobs, 1 to 4096, by W workers, 1 to 16")
}

// What is wrong where the first word is neither `drill` nor `sliced`: it is no command, or a word stands behind it.
fn say_reading(rt: &HostRuntime, command: &str, further: &[String]) -> io::Result<()> {
    for (name, _, _) in &READING {
        if *name == command {
            return say_further(rt, command, further);
        }
    }
    eprintln!(rt;
        "sillwaroc: '{}' is no command; there are serve, compile, verify, migrate, tenants, sliced N and drill N W",
        command.escape_debug()
    )
}

// A command that reads standard input has no word behind it.
fn say_further(rt: &HostRuntime, command: &str, further: &[String]) -> io::Result<()> {
    match further {
        [file] => eprintln!(rt;
            "sillwaroc: {command} takes no file by its name; write {command} < {}",
            file.escape_debug()
        ),
        _ => eprintln!(rt;
            "sillwaroc: {command} has no word behind it; its input comes from standard input"
        ),
    }
}

// That the number of steps is none.
fn say_sliced(rt: &HostRuntime, numbers: &[String]) -> io::Result<()> {
    match numbers {
        [steps] => say_count(rt, "steps", steps, 1000000000),
        _ => eprintln!(rt; "sillwaroc: sliced has one number behind it: steps, 1 to 1000000000"),
    }
}

// Which of the numbers of a drill is none.
fn say_drill(rt: &HostRuntime, numbers: &[String]) -> io::Result<()> {
    match numbers {
        [jobs, workers] if is_count(jobs, 4096) => say_count(rt, "workers", workers, 16),
        [jobs, _] => say_count(rt, "jobs", jobs, 4096),
        _ => eprintln!(rt;
            "sillwaroc: drill has two numbers behind it: jobs, 1 to 4096, and workers, 1 to 16"
        ),
    }
}

fn say_count(rt: &HostRuntime, of: &str, word: &str, most: u32) -> io::Result<()> {
    eprintln!(rt;
        "sillwaroc: '{}' is no number of {of}: 1 to {most}, without sign or leading zero",
        word.escape_debug()
    )
}

// Whether the word is a number from 1 to the most, without a sign or a leading zero.
fn is_count(word: &str, most: u32) -> bool {
    match word.as_bytes() {
        [b'1'..=b'9', ..] => match word.parse::<u32>() {
            Ok(number) => number <= most,
            Err(_) => false,
        },
        _ => false,
    }
}
