//! Parsed programs as text. Each name, operator, literal and keyword has its line behind `#`.

use camelot_syntax::{Arm, ArmCell, Atom, Expr, FunDecl, Name, Param, PrimOp, Program, TypeDecl};
use std::alloc::AllocError;
use std::fmt::Write;

fn show_name(out: &mut String, name: &Name) -> Result<(), AllocError> {
    write!(out, "{}#{}", name.word, name.line)
}

fn symbol(op: PrimOp) -> &'static str {
    match op {
        PrimOp::Add => "+",
        PrimOp::Sub => "-",
        PrimOp::Mul => "*",
        PrimOp::Div => "/",
        PrimOp::Mod => "mod",
        PrimOp::Eq => "=",
        PrimOp::Ne => "<>",
        PrimOp::Lt => "<",
        PrimOp::Le => "<=",
        PrimOp::Gt => ">",
        PrimOp::Ge => ">=",
    }
}

// The pattern of an arm: the constructor, its fields, and what becomes of the cell.
fn show_pattern(out: &mut String, arm: &Arm) -> Result<(), AllocError> {
    out.push_str(" | ")?;
    show_name(out, &arm.con)?;
    for field in &arm.fields {
        out.push_str(" ")?;
        match field {
            Some(name) => show_name(out, name)?,
            None => out.push_str("_")?,
        }
    }
    match &arm.cell {
        ArmCell::Plain => {}
        ArmCell::Free => out.push_str(" @_")?,
        ArmCell::Keep(name) => write!(out, " @{}#{}", name.word, name.line)?,
    }
    out.push_str(" -> ")
}

fn show_place(out: &mut String, place: &Option<Name>) -> Result<(), AllocError> {
    match place {
        Some(name) => write!(out, "@{}#{}", name.word, name.line),
        None => Ok(()),
    }
}

#[cycle(show)]
fn show(out: &mut String, expr: &Expr) -> Result<(), AllocError> {
    match expr {
        Expr::Num { value, line } => write!(out, "{value}#{line}"),
        Expr::Truth { value, line } => write!(out, "{value}#{line}"),
        Expr::Var(name) => show_name(out, name),
        Expr::Prim {
            op,
            left,
            right,
            line,
        } => {
            write!(out, "({}#{line}", symbol(*op))?;
            show_next(out, left)?;
            show_last(out, right)
        }
        Expr::If {
            cond,
            yes,
            no,
            line,
        } => {
            write!(out, "(if#{line}")?;
            show_next(out, cond)?;
            show_next(out, yes)?;
            show_last(out, no)
        }
        Expr::Let { name, value, body } => {
            write!(out, "(let {}#{}", name.word, name.line)?;
            show_next(out, value)?;
            show_last(out, body)
        }
        Expr::Match { on, arms, line } => {
            write!(out, "(match#{line}")?;
            show_next(out, on)?;
            show_arms(out, arms)
        }
        Expr::Build(build) => {
            show_name(out, &build.con)?;
            show_args(out, &build.args, "[", "]")?;
            show_place(out, &build.place)
        }
        Expr::Call(call) => {
            show_name(out, &call.fun)?;
            show_args(out, &call.args, "(", ")")
        }
    }
}

#[cycle(show)]
fn show_next(out: &mut String, expr: &Expr) -> Result<(), AllocError> {
    out.push_str(" ")?;
    show(out, expr)
}

#[cycle(show)]
fn show_last(out: &mut String, expr: &Expr) -> Result<(), AllocError> {
    out.push_str(" ")?;
    show(out, expr)?;
    out.push_str(")")
}

#[cycle(show)]
fn show_arms(out: &mut String, arms: &[Arm]) -> Result<(), AllocError> {
    for arm in arms {
        show_pattern(out, arm)?;
        show(out, &arm.body)?;
    }
    out.push_str(")")
}

#[cycle(show)]
fn show_args(out: &mut String, args: &[Expr], open: &str, close: &str) -> Result<(), AllocError> {
    for arg in args {
        out.push_str(open)?;
        show(out, arg)?;
        out.push_str(close)?;
    }
    Ok(())
}

fn show_atom(out: &mut String, atom: &Atom) -> Result<(), AllocError> {
    match atom {
        Atom::Int => out.push_str(" int"),
        Atom::Bool => out.push_str(" bool"),
        Atom::Dia => out.push_str(" <>"),
        Atom::Named(name) => {
            out.push_str(" ")?;
            show_name(out, name)
        }
    }
}

fn show_type(out: &mut String, decl: &TypeDecl) -> Result<(), AllocError> {
    out.push_str("  type ")?;
    show_name(out, &decl.name)?;
    for con in &decl.cons {
        out.push_str(if con.inline { " | !" } else { " | " })?;
        show_name(out, &con.name)?;
        for field in &con.fields {
            show_atom(out, field)?;
        }
    }
    out.push_str("\n")
}

fn show_param(out: &mut String, param: &Param) -> Result<(), AllocError> {
    out.push_str(if param.read { " read " } else { " " })?;
    show_name(out, &param.name)?;
    match &param.kind {
        Some(kind) => {
            out.push_str(":")?;
            show_atom(out, kind)
        }
        None => Ok(()),
    }
}

fn show_function(out: &mut String, decl: &FunDecl) -> Result<(), AllocError> {
    out.push_str("  let ")?;
    show_name(out, &decl.name)?;
    for param in &decl.params {
        show_param(out, param)?;
    }
    if let Some(kind) = &decl.result {
        out.push_str(" ->")?;
        show_atom(out, kind)?;
    }
    out.push_str(" = ")?;
    show(out, &decl.body)?;
    out.push_str("\n")
}

/// A line for each type and each function.
pub(crate) fn show_program(out: &mut String, program: &Program) -> Result<(), AllocError> {
    for decl in &program.types {
        show_type(out, decl)?;
    }
    for decl in &program.funs {
        show_function(out, decl)?;
    }
    Ok(())
}
