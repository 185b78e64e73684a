ghost use Rattle.std.specs.Prelude.{◌≡◌, ◌≤◌, map, length, None, string_bytes, IfOk, IfSome};
ghost use Rattle.cell_span.specs.Range.{IsWhole};
ghost use Rattle.camelot_host.specs.Answers.{input_limit, devices, Quiet, SinkFaults};
ghost use Rattle.camelot_host.specs.Hosted.{shows, Hosted};
ghost use Rattle.camelot_host.specs.Due.{Done, Refused};
ghost use Rattle.camelot_host.specs.Replies.{command_named, verdict_of, bytes_of, IsReply, IsWithin, KeptBy, Keeps, WholeIn, Writes, Responds, RespondsIn};
ghost use Rattle.camelot_host.specs.Served.{ArenaBy};

use super::command::{Command, command_of, reads};
use super::drill::drill_jobs;
use super::migration::migrate_bundle;
use super::reply::{Reply, Work};
use super::serve::serve;
use super::served::Served;
use super::slicing::serve_sliced;
use super::sources::compile_source;
use super::status::Status;
use super::tenants::serve_shared;
use super::verify::verify_bundle;
use cell_span::Span;
use host_io::{ReadStop, Sink, Source, read_all, write_all};
use script_service::{Gate, OpenGate};
use std::alloc::{AllocError, Global};
use std::sync::Wait;
use std::thread::Threads;

/// The most bytes of input.
const INPUT_LIMIT: usize = 8388608;

// What the command makes of its input.
fn work<R: Threads + Wait + Sync, G: Gate + Sync>(
    rt: &R,
    alloc: Global,
    command: Command,
    input: Vec<u8>,
    gate: &G,
) -> Result<Work, AllocError>
    requires within { IsWithin command }
    requires few { length input.items ≤ input_limit }
    ensures { IfOk result (λ work. IsReply (command_named command) input.items work.reply) }
{
    match command {
        Command::Serve => serve(rt, alloc, input, gate),
        Command::Compile => Ok(Work {
            reply: compile_source(alloc, &input)?,
            left: None,
        }),
        Command::Verify => Ok(Work {
            reply: verify_bundle(alloc, input)?,
            left: None,
        }),
        Command::Migrate => Ok(Work {
            reply: migrate_bundle(alloc, &input)?,
            left: None,
        }),
        Command::Tenants => Ok(Work {
            reply: serve_shared(rt, alloc, &input)?,
            left: None,
        }),
        Command::Sliced { steps } => Ok(Work {
            reply: serve_sliced(rt, alloc, &input, steps)?,
            left: None,
        }),
        Command::Drill { jobs, workers } => Ok(Work {
            reply: drill_jobs(rt, alloc, jobs, workers, gate)?,
            left: None,
        }),
    }
}

// How writing ended, and the arena that is left.
struct Written {
    status: Status,
    arena: Option<Span>,
}

// Writes the output of a command that was done, and hands on the arena that it leaves, which is ended where that fails.
fn write_done<K: Sink>(sink: &mut K, output: &[u8], arena: Option<Span>) -> Written
    requires whole { IfSome arena IsWhole }
    ensures told { Writes result.status Done output.now (K.told sink.old) (K.told sink.new) }
    ensures arena { KeptBy result.status arena result.arena }
    ensures faults { SinkFaults result.status (K.faults sink.old) (K.faults sink.new) }
{
    match write_all(sink, output) {
        Ok(()) => Written {
            status: Status::Ok,
            arena,
        },
        Err(_) => {
            if let Some(span) = arena {
                span.end();
            }
            Written {
                status: Status::WriteFault,
                arena: None,
            }
        }
    }
}

// Writes the line of a refusal.
fn write_refusal<K: Sink>(sink: &mut K, line: &[u8]) -> Written
    ensures told { Writes result.status Refused line.now (K.told sink.old) (K.told sink.new) }
    ensures arena { result.arena ≡ None }
    ensures faults { SinkFaults result.status (K.faults sink.old) (K.faults sink.new) }
{
    match write_all(sink, line) {
        Ok(()) => Written {
            status: Status::Refused,
            arena: None,
        },
        Err(_) => Written {
            status: Status::WriteFault,
            arena: None,
        },
    }
}

// Writes a reply, and hands on its arena.
fn write<K: Sink>(sink: &mut K, reply: Reply) -> Written
    requires whole { WholeIn reply }
    ensures told { Writes result.status (verdict_of reply) (bytes_of reply) (K.told sink.old) (K.told sink.new) }
    ensures arena { Keeps result.status reply result.arena }
    ensures faults { SinkFaults result.status (K.faults sink.old) (K.faults sink.new) }
{
    match reply {
        Reply::Done { output, arena } => write_done(sink, &output, arena),
        Reply::Refused { line } => write_refusal(sink, &line),
    }
}

// Does the command's work on its input, and writes what comes of it.
#[tactic(auto, using(crate::proofs::Leaving::reply_responds, crate::proofs::Answering::written_quiet, crate::proofs::Leaving::leaves_whole, crate::proofs::Leaving::told_left))]
fn respond<R: Threads + Wait + Sync, K: Sink, G: Gate + Sync>(
    rt: &R,
    alloc: Global,
    command: Command,
    input: Vec<u8>,
    sink: &mut K,
    gate: &G,
) -> Served
    requires within { IsWithin command }
    requires few { length input.items ≤ input_limit }
    ensures told { Responds result.status (command_named command) input.items (K.told sink.old) (K.told sink.new) }
    ensures left { RespondsIn result.status (command_named command) input.items (K.told sink.old) (K.told sink.new) result.arena }
    ensures faults { SinkFaults result.status (K.faults sink.old) (K.faults sink.new) }
    ensures quiet { Quiet result.status sink.old sink.new }
{
    match work(rt, alloc, command, input, gate) {
        Ok(Work { reply, left }) => {
            let Written { status, arena } = write(sink, reply);
            Served {
                status,
                arena,
                left,
            }
        }
        Err(_) => Served {
            status: Status::Memory,
            arena: None,
            left: None,
        },
    }
}

/// Runs one command, from the bytes that come in to the bytes that go out, as [`host`] does, whose promises are all
/// made here too. The workers of `serve` are handed this gate, to pass it between the grant of a lease and the run of
/// its job: that they do is tested, and in no clause. The arena of a script that was served is handed out with the
/// status.
#[tactic(auto, using(crate::proofs::Running::not_hosted, crate::proofs::Running::hosted_unread, crate::proofs::Running::hosted_read, crate::proofs::Running::hosted_fault, crate::proofs::Running::hosted_memory, crate::proofs::Running::hosted_long, crate::proofs::Leaving::arena_by, crate::proofs::Leaving::arena_unread))]
pub fn host_gated<R: Threads + Wait + Sync, S: Source, K: Sink, G: Gate + Sync>(
    rt: &R,
    alloc: Global,
    words: &[String],
    source: &mut S,
    sink: &mut K,
    gate: &G,
) -> Served
    // All that is promised but the arena: the fields of the record `Hosted`, each with a sentence of its own.
    ensures hosted { let shown = shows S.left S.taken K.told S.faults K.faults in
        Hosted result.status (map string_bytes words.now) (shown source.old sink.old) (shown source.new sink.new) }

    // The arena is there exactly where the words are `serve` and the status is `Ok`. It is the script's whole arena,
    // and each of its cells is the machine's final cell of the last job whose lease went over it, by the printed
    // journal.
    ensures arena { let before = devices (S.left source.old) (S.taken source.old) (K.told sink.old) in
        let after = devices (S.left source.new) (S.taken source.new) (K.told sink.new) in
        ArenaBy result.status (map string_bytes words.now) before after result.arena }
{
    let Some(command) = command_of(words) else {
        return Served {
            status: Status::Usage,
            arena: None,
            left: None,
        };
    };
    if !reads(command) {
        return respond(rt, alloc, command, Vec::new(alloc), sink, gate);
    }
    let input = match read_all(alloc, source, INPUT_LIMIT) {
        Ok(input) => input,
        Err(ReadStop::Fault) => {
            return Served {
                status: Status::ReadFault,
                arena: None,
                left: None,
            };
        }
        Err(ReadStop::TooLong) => {
            return Served {
                status: Status::TooLong,
                arena: None,
                left: None,
            };
        }
        Err(ReadStop::Memory) => {
            return Served {
                status: Status::Memory,
                arena: None,
                left: None,
            };
        }
    };
    respond(rt, alloc, command, input, sink, gate)
}

/// Runs one command, from the bytes that come in to the bytes that go out.
///
/// The words spell the command, and a command that reads has its input read to the end. What is due for an input is the
/// command's own matter; all else is the same for each. The order is: words, reading, work, writing. The output is
/// built whole before the first byte is written.
///
/// The commands:
///
/// - `serve` reads a script of Camelot and Grail programs and of jobs, and writes its report. Each program, compiled
///   from its source or accepted from its bundle's bytes alone, has its unit or the cause of its refusal. Each job has
///   what it comes to by the meaning of its program, its peak and its bound, or why it didn't run. The journal of the
///   leases of all jobs in one arena follows. An input that is no script is refused with its first wrong line.
/// - `compile` reads a Camelot source and writes its bundle: the code and the least certificate. A source that isn't
///   compiled is refused with a line that tells the cause.
/// - `verify` reads a bundle and writes what its certificate grants: the units of a cell, and for each function how
///   many units its runs take at most. A text that is no bundle, and a bundle that the verifier refuses, is refused
///   with a line that tells the cause.
/// - `migrate` reads a bundle and writes it again, its code in the second format and its certificate as it was. A text
///   that is no bundle, and one whose bytes of code spell none, is refused with a line that tells the cause.
/// - `sliced N` reads a script as `serve` does, and runs its jobs on one thread in slices of N steps, from 1 to
///   1,000,000,000. Between its slices each job is a text, and its cells may lie elsewhere. It writes the lines of
///   programs and jobs that `serve` writes, and then how many slices were made.
/// - `tenants` reads a script of programs, of tenants with their budgets, and of the starts and finishes of their jobs. It
///   tells each program's line, a reply to each start and each finish in order, and what is free of each budget at the
///   end. What a tenant is told is what its own lines come to. An input that is no such script is refused with its
///   first wrong line.
/// - `drill N W` reads nothing. It serves a script that it makes, with N jobs, from 1 to 4,096, on W workers, from 1 to
///   16, and writes one line: how many jobs ended how, and the sums of their calls and peaks.
///
/// The answer is [`Status::Ok`] where the command was done and [`Status::Refused`] where it refused its input, each
/// after what is written for it; [`Status::Usage`] where the words spell no command; [`Status::ReadFault`] and
/// [`Status::WriteFault`] where a device failed; [`Status::TooLong`] where there are more than 8,388,608 bytes of
/// input; and [`Status::Memory`] where memory ran out.
pub fn host<R: Threads + Wait + Sync, S: Source, K: Sink>(
    rt: &R,
    alloc: Global,
    words: &[String],
    source: &mut S,
    sink: &mut K,
) -> Status
    // All that is promised: the fields of the record `Hosted`, each with a sentence of its own.
    ensures hosted { let shown = shows S.left S.taken K.told S.faults K.faults in
        Hosted result (map string_bytes words.now) (shown source.old sink.old) (shown source.new sink.new) }
{
    host_gated(rt, alloc, words, source, sink, &OpenGate).end()
}
