//! Code as text: a line for each block, with its number, its parameters, its lets and its end.

use camelot_values::Kind;
use grail_blocks::{CaseArm, CaseCell, Let, Op, Place, PrimCode, Term};
use grail_code::{Block, Func};
use std::alloc::AllocError;
use std::fmt::Write;

fn show_kinds(out: &mut String, kinds: &[Kind]) -> Result<(), AllocError> {
    for kind in kinds {
        show_kind(out, *kind)?;
    }
    Ok(())
}

fn show_kind(out: &mut String, kind: Kind) -> Result<(), AllocError> {
    match kind {
        Kind::Int => out.push_str(" int"),
        Kind::Flag => out.push_str(" bool"),
        Kind::Dia => out.push_str(" <>"),
        Kind::Of(number) => write!(out, " type{number}"),
    }
}

fn show_locals(out: &mut String, locals: &[u32]) -> Result<(), AllocError> {
    let mut first = true;
    out.push_str("(")?;
    for local in locals {
        if !first {
            out.push_str(" ")?;
        }
        first = false;
        write!(out, "{local}")?;
    }
    out.push_str(")")
}

fn word(op: PrimCode) -> &'static str {
    match op {
        PrimCode::Add => "add",
        PrimCode::Sub => "sub",
        PrimCode::Mul => "mul",
        PrimCode::Div => "div",
        PrimCode::Mod => "mod",
        PrimCode::Eq => "eq",
        PrimCode::Ne => "ne",
        PrimCode::Lt => "lt",
        PrimCode::Le => "le",
        PrimCode::Gt => "gt",
        PrimCode::Ge => "ge",
    }
}

fn show_make(out: &mut String, con: u32, args: &[u32], place: Place) -> Result<(), AllocError> {
    write!(out, "make {con} ")?;
    show_locals(out, args)?;
    match place {
        Place::Inline => out.push_str(" inline"),
        Place::New => out.push_str(" new"),
        Place::Reuse(diamond) => write!(out, " reuse {diamond}"),
    }
}

fn show_let(out: &mut String, l: &Let) -> Result<(), AllocError> {
    write!(out, "{} = ", l.target)?;
    match &l.op {
        Op::Lit(value) => write!(out, "lit {value}")?,
        Op::Flag(value) => write!(out, "flag {value}")?,
        Op::Copy(from) => write!(out, "copy {from}")?,
        Op::Prim { op, left, right } => write!(out, "{} {left} {right}", word(*op))?,
        Op::Make { con, args, place } => show_make(out, *con, args, *place)?,
        Op::Call { func, args } => {
            write!(out, "call {func} ")?;
            show_locals(out, args)?;
        }
    }
    out.push_str("; ")
}

fn show_arm(out: &mut String, arm: &CaseArm) -> Result<(), AllocError> {
    out.push_str(" | ")?;
    show_locals(out, &arm.fields)?;
    match arm.cell {
        CaseCell::Inline => out.push_str(" inline")?,
        CaseCell::Free => out.push_str(" free")?,
        CaseCell::Look => out.push_str(" look")?,
        CaseCell::Keep(diamond) => write!(out, " keep {diamond}")?,
    }
    write!(out, " to {}", arm.target)
}

fn show_term(out: &mut String, term: &Term) -> Result<(), AllocError> {
    match term {
        Term::Ret(from) => write!(out, "ret {from}"),
        Term::Tail { func, args } => {
            write!(out, "tail {func} ")?;
            show_locals(out, args)
        }
        Term::Goto(target) => write!(out, "goto {target}"),
        Term::If { cond, yes, no } => write!(out, "if {cond} to {yes} else {no}"),
        Term::Case { on, arms } => {
            write!(out, "case {on}")?;
            for arm in arms {
                show_arm(out, arm)?;
            }
            Ok(())
        }
    }
}

/// A block: its parameters, its lets and its end.
pub(crate) fn show_block(out: &mut String, block: &Block) -> Result<(), AllocError> {
    show_locals(out, &block.params)?;
    out.push_str(" ")?;
    for l in &block.lets {
        show_let(out, l)?;
    }
    show_term(out, &block.term)
}

// The kinds of parameters, with a word in front of one that is only read.
fn show_params(out: &mut String, kinds: &[Kind], reads: &[bool]) -> Result<(), AllocError> {
    for (kind, read) in kinds.iter().zip(reads) {
        if *read {
            out.push_str(" read")?;
        }
        show_kind(out, *kind)?;
    }
    Ok(())
}

/// The kinds of a function's parameters, its result and its further locals.
pub(crate) fn show_head(out: &mut String, func: &Func) -> Result<(), AllocError> {
    show_params(out, &func.params, &func.reads)?;
    out.push_str(" ->")?;
    show_kind(out, func.result)?;
    out.push_str(" |")?;
    show_kinds(out, &func.locals)
}
