ghost use Rattle.std.specs.Prelude.{ℕ, ◌<◌, ◌^◌, length};

use crate::texts::tree::show_program;
use camelot_syntax::parse;
use camelot_types::check_program;
use camelot_typing::Typed;
use camelot_values::{Kind, Types};
use case_lines::Case;
use linear_use::check_use;
use std::alloc::AllocError;
use std::fmt::Write;
use std::io;
use text_scan::scan;

/// Prints the name of the case and what is answered to it. What stands before the first case has no head, and no
/// answer.
pub(crate) fn answer(rt: &HostRuntime, case: &Case) -> io::Result<()> {
    let text = case.text().as_bytes();
    if case.command() == "" {
        return Ok(());
    }
    print!(rt; "{}:", case.name())?;
    if text.len() >= 1 << 32 {
        return println!(rt; " too long a text");
    }
    match case.command() {
        "tokens" => answer_tokens(rt, text),
        "tree" => answer_tree(rt, text),
        "check" => answer_check(rt, text, false),
        "kinds" => answer_check(rt, text, true),
        _ => println!(rt; " no such command"),
    }
}

fn answer_tokens(rt: &HostRuntime, text: &[u8]) -> io::Result<()>
    requires { length text.now < 2 ^ 32 }
{
    match scan(rt.alloc(), text) {
        Ok(tokens) => {
            println!(rt; " {} tokens", tokens.len())?;
            for token in &tokens {
                println!(rt;
                    "  {:?} {} to {} line {}",
                    token.kind, token.start, token.end, token.line
                )?;
            }
            Ok(())
        }
        Err(fault) => println!(rt; " {fault}"),
    }
}

fn answer_tree(rt: &HostRuntime, text: &[u8]) -> io::Result<()>
    requires { length text.now < 2 ^ 32 }
{
    match parse(rt.alloc(), text) {
        Ok(program) => {
            println!(rt; "")?;
            let mut shown = String::new(rt.alloc());
            show_program(&mut shown, &program)?;
            print!(rt; "{shown}")
        }
        Err(fault) => println!(rt; " {fault}"),
    }
}

fn answer_check(rt: &HostRuntime, text: &[u8], with_expressions: bool) -> io::Result<()>
    requires { length text.now < 2 ^ 32 }
{
    let program = match parse(rt.alloc(), text) {
        Ok(program) => program,
        Err(fault) => return println!(rt; " {fault}"),
    };
    let typed = match check_program(rt.alloc(), program) {
        Ok(typed) => typed,
        Err(fault) => return println!(rt; " {fault}"),
    };
    match check_use(rt.alloc(), typed) {
        Ok(linear) => {
            println!(rt; " accepted")?;
            print_functions(rt, &linear.typed, with_expressions)
        }
        Err(fault) => println!(rt; " {fault}"),
    }
}

// A line for each function: its name, the kinds of its parameters and of its result, and those of its expressions where
// they are wanted.
fn print_functions(rt: &HostRuntime, typed: &Typed, with_expressions: bool) -> io::Result<()> {
    for (decl, kinds) in typed.program.funs.iter().zip(&typed.funs) {
        let mut shown = String::new(rt.alloc());
        show_kinds(&mut shown, &typed.types, &kinds.params)?;
        shown.push_str(" ->")?;
        show_kind(&mut shown, &typed.types, kinds.result)?;
        if with_expressions {
            shown.push_str(" |")?;
            show_kinds(&mut shown, &typed.types, &kinds.exprs)?;
        }
        println!(rt; "  {}:{shown}", decl.name.word)?;
    }
    Ok(())
}

fn show_kinds(out: &mut String, types: &Types, kinds: &[Kind]) -> Result<(), AllocError> {
    for kind in kinds {
        show_kind(out, types, *kind)?;
    }
    Ok(())
}

fn show_kind(out: &mut String, types: &Types, kind: Kind) -> Result<(), AllocError> {
    match kind {
        Kind::Int => out.push_str(" int"),
        Kind::Flag => out.push_str(" bool"),
        Kind::Dia => out.push_str(" <>"),
        Kind::Of(number) => match types.defs().get(number as usize) {
            Some(def) => write!(out, " {}", def.name),
            None => out.push_str(" ?"),
        },
    }
}
