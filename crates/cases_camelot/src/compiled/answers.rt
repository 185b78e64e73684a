ghost use Rattle.std.specs.Prelude.{◌<◌, ◌^◌, length};
ghost use Rattle.grail_code.specs.Code.{code_of};
ghost use Rattle.grail_code.specs.Spelling.{Second, FitsCode};

use crate::compiled::code_text::{show_block, show_head};
use camelot_syntax::parse;
use camelot_types::check_program;
use case_lines::Case;
use code_gen::laws::law_of_room;
use code_gen::{compile, generate};
use grail_code::{Code, Func, encode};
use grail_evaluator::{Outcome, Tree, run};
use linear_use::{Linear, check_use};
use normal_form::{NormalFault, normalise};
use std::alloc::{AllocError, Global};
use std::fmt::Write;
use std::io;
use stops::Stop;

/// Prints the name of the case and what comes of it. What stands before the first case has no name, and no answer.
pub(crate) fn answer(rt: &HostRuntime, case: &Case) -> io::Result<()> {
    let text = case.text().as_bytes();
    if case.command() == "" {
        return Ok(());
    }
    print!(rt; "{}:", case.name())?;
    if text.len() >= 1 << 32 {
        return println!(rt; " too long a text");
    }
    answer_text(rt, case, text)
}

fn answer_text(rt: &HostRuntime, case: &Case, text: &[u8]) -> io::Result<()>
    requires { length text.now < 2 ^ 32 }
{
    let program = match parse(rt.alloc(), text) {
        Ok(program) => program,
        Err(fault) => return println!(rt; " {fault}"),
    };
    let typed = match check_program(rt.alloc(), program) {
        Ok(typed) => typed,
        Err(fault) => return println!(rt; " {fault}"),
    };
    match check_use(rt.alloc(), typed) {
        Ok(linear) => answer_linear(rt, case, &linear),
        Err(fault) => println!(rt; " {fault}"),
    }
}

// The code by the two passes, one after the other over the whole program.
fn by_passes(alloc: Global, linear: &Linear) -> Result<Code, Stop<NormalFault>> {
    law_of_room(linear);
    let normal = normalise(alloc, linear)?;
    let code = generate(alloc, normal)?;
    Ok(code)
}

// What the case shows of code, or the fault.
fn show_answer(
    alloc: Global,
    answer: &Result<Code, Stop<NormalFault>>,
) -> Result<String, AllocError> {
    let mut shown = String::new(alloc);
    match answer {
        Ok(code) => {
            for func in &code.funcs {
                show_head(&mut shown, func)?;
                for block in &func.blocks {
                    show_block(&mut shown, block)?;
                }
            }
        }
        Err(fault) => write!(shown, "{fault}")?,
    }
    Ok(shown)
}

fn answer_linear(rt: &HostRuntime, case: &Case, linear: &Linear) -> io::Result<()> {
    let answer = compile(rt.alloc(), linear);
    let passes = by_passes(rt.alloc(), linear);
    if show_answer(rt.alloc(), &answer)? != show_answer(rt.alloc(), &passes)? {
        return println!(rt; " the passes, one after the other, answer otherwise");
    }
    let code = match answer {
        Ok(code) => code,
        Err(fault) => return println!(rt; " {fault}"),
    };
    match case.command() {
        "size" => print_sizes(rt, &code),
        "bytes" => print_bytes(rt, &code),
        "code" => {
            println!(rt; "")?;
            print_functions(rt, &code)?;
            print!(rt; "  bytes")?;
            print_bytes(rt, &code)
        }
        "run" => answer_run(rt, &code, case.name()),
        _ => println!(rt; " no such command"),
    }
}

// How many further locals and blocks each function has.
fn print_sizes(rt: &HostRuntime, code: &Code) -> io::Result<()> {
    for func in &code.funcs {
        print!(rt;
            " {} {} locals {} blocks",
            func.name,
            func.locals.len(),
            func.blocks.len()
        )?;
    }
    println!(rt; "")
}

// The spelling of the code.
fn print_bytes(rt: &HostRuntime, code: &Code) -> io::Result<()>
    requires { FitsCode Second (code_of code.now) }
{
    let bytes = encode(rt.alloc(), code)?;
    println!(rt; " {}", hex::encode(rt.alloc(), bytes)?)
}

fn print_functions(rt: &HostRuntime, code: &Code) -> io::Result<()> {
    for func in &code.funcs {
        let mut shown = String::new(rt.alloc());
        show_head(&mut shown, func)?;
        println!(rt; "  {}:{shown}", func.name)?;
        print_blocks(rt, func)?;
    }
    Ok(())
}

fn print_blocks(rt: &HostRuntime, func: &Func) -> io::Result<()> {
    for (number, block) in func.blocks.iter().enumerate() {
        let mut shown = String::new(rt.alloc());
        show_block(&mut shown, block)?;
        println!(rt; "    {number} {shown}")?;
    }
    Ok(())
}

// How the run ends that the words tell: the name of a function, the fuel, and numbers.
fn answer_run(rt: &HostRuntime, code: &Code, words: &str) -> io::Result<()> {
    let words: Vec<&str> = words.split_whitespace().collect(rt.alloc())?;
    match words.as_slice() {
        [name, fuel, numbers @ ..] => match (code.func(name.as_bytes()), fuel.parse::<u64>()) {
            (Some(func), Ok(fuel)) => print_run(rt, code, func, fuel, numbers),
            _ => println!(rt; " no such run"),
        },
        _ => println!(rt; " no such run"),
    }
}

fn print_run(
    rt: &HostRuntime,
    code: &Code,
    func: u32,
    fuel: u64,
    numbers: &[&str],
) -> io::Result<()> {
    let mut args = Vec::new(rt.alloc());
    for number in numbers {
        match number.parse::<i32>() {
            Ok(number) => args.push(Tree::Int(number))?,
            Err(_) => return println!(rt; " no such run"),
        }
    }
    match run(rt.alloc(), code, 65536, func, fuel, args) {
        Ok(outcome) => print_outcome(rt, &outcome),
        Err(error) => println!(rt; " {error}"),
    }
}

fn print_outcome(rt: &HostRuntime, outcome: &Outcome) -> io::Result<()> {
    match outcome {
        Outcome::Done {
            value,
            calls,
            peak,
            low,
        } => {
            let net = i128::from(*peak) - i128::from(*low);
            println!(rt; " done {value:?} calls {calls} peak {peak} net {net}")
        }
        Outcome::Fuel { calls, peak } => println!(rt; " fuel calls {calls} peak {peak}"),
        Outcome::Deep { peak } => println!(rt; " deep peak {peak}"),
        Outcome::Trap { peak } => println!(rt; " trap peak {peak}"),
        Outcome::Stuck => println!(rt; " stuck"),
    }
}
