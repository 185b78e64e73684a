//! Copies of programs, in memory of their own.

ghost use Rattle.std.specs.Prelude.{◌≡◌, map, IfOk};
ghost use Rattle.camelot_tree.specs.Tree.{expression_of, branch_of, built_of, called_of, constructor_of, data_type_of, function_of};
ghost use Rattle.camelot_tree.specs.Programs.{program_of};
ghost use Rattle.camelot_tree.specs.Spine.{IsLeaf, with_first};

use crate::program::Program;
use crate::spine::left_spine;
use crate::tree::{Arm, ArmCell, Atom, Build, Call, ConDecl, Expr, FunDecl, Name, Param, TypeDecl};
use std::alloc::{AllocError, Global};

impl Name {
    /// The same name; `AllocError` where memory runs out.
    pub fn copy(&self, alloc: Global) -> Result<Name, AllocError>
        ensures { IfOk result (λ copy. copy ≡ self.now) }
    {
        Ok(Name {
            word: self.word.copy(alloc)?,
            line: self.line,
        })
    }
}

fn copy_name(alloc: Global, name: &Option<Name>) -> Result<Option<Name>, AllocError>
    ensures { IfOk result (λ copy. copy ≡ name.now) }
{
    match name {
        Some(name) => Ok(Some(name.copy(alloc)?)),
        None => Ok(None),
    }
}

fn copy_names(alloc: Global, names: &[Option<Name>]) -> Result<Vec<Option<Name>>, AllocError>
    ensures { IfOk result (λ copy. copy.items ≡ names.now) }
{
    let mut copy = Vec::new(alloc);
    'names: for name in names {
        copy.push(copy_name(alloc, name)?)?;
    }
    Ok(copy)
}

fn copy_cell(alloc: Global, cell: &ArmCell) -> Result<ArmCell, AllocError>
    ensures { IfOk result (λ copy. copy ≡ cell.now) }
{
    match cell {
        ArmCell::Plain => Ok(ArmCell::Plain),
        ArmCell::Free => Ok(ArmCell::Free),
        ArmCell::Keep(name) => Ok(ArmCell::Keep(name.copy(alloc)?)),
    }
}

fn copy_atom(alloc: Global, atom: &Atom) -> Result<Atom, AllocError>
    ensures { IfOk result (λ copy. copy ≡ atom.now) }
{
    match atom {
        Atom::Int => Ok(Atom::Int),
        Atom::Bool => Ok(Atom::Bool),
        Atom::Dia => Ok(Atom::Dia),
        Atom::Named(name) => Ok(Atom::Named(name.copy(alloc)?)),
    }
}

fn copy_kind(alloc: Global, kind: &Option<Atom>) -> Result<Option<Atom>, AllocError>
    ensures { IfOk result (λ copy. copy ≡ kind.now) }
{
    match kind {
        Some(atom) => Ok(Some(copy_atom(alloc, atom)?)),
        None => Ok(None),
    }
}

// ---- expressions

// An expression, along its left end.
#[cycle(copy)]
#[tactic(auto, using(crate::specs::SpineLaws::around_popped, crate::specs::SpineLaws::front_popped, crate::specs::SpineLaws::last_popped, crate::specs::SpineLaws::around_begun, crate::specs::SpineLaws::none_larger, crate::specs::SpineLaws::leaf_smaller))]
fn copy_expr(alloc: Global, expr: &Expr) -> Result<Expr, AllocError>
    ensures { IfOk result (λ copy. expression_of copy ≡ expression_of expr.now) }
{
    let spine = left_spine(alloc, expr)?;
    let mut parents = spine.parents;
    let mut copy = copy_leaf(alloc, spine.leaf)?;
    'up: while let Some(parent) = parents.pop() {
        copy = copy_around(alloc, parent, copy)?;
    }
    Ok(copy)
}

// A parent of the left end, with a copy of its first part.
#[cycle(copy)]
fn copy_around(alloc: Global, parent: &Expr, first: Expr) -> Result<Expr, AllocError>
    ensures { IfOk result (λ copy. expression_of copy ≡ with_first (expression_of parent.now) (expression_of first)) }
{
    match parent {
        Expr::Prim {
            op,
            right,
            line,
            ..
        } => {
            let left = Box::new(alloc, first)?;
            let right = Box::new(alloc, copy_expr(alloc, right)?)?;
            Ok(Expr::Prim {
                op: *op,
                left,
                right,
                line: *line,
            })
        }
        Expr::If { yes, no, line, .. } => {
            let cond = Box::new(alloc, first)?;
            let yes = Box::new(alloc, copy_expr(alloc, yes)?)?;
            let no = Box::new(alloc, copy_expr(alloc, no)?)?;
            Ok(Expr::If {
                cond,
                yes,
                no,
                line: *line,
            })
        }
        _ => Ok(first),
    }
}

// The innermost part of a left end.
#[cycle(copy)]
fn copy_leaf(alloc: Global, expr: &Expr) -> Result<Expr, AllocError>
    requires { IsLeaf (expression_of expr.now) }
    ensures { IfOk result (λ copy. expression_of copy ≡ expression_of expr.now) }
{
    match expr {
        Expr::Num { value, line } => Ok(Expr::Num {
            value: *value,
            line: *line,
        }),
        Expr::Truth { value, line } => Ok(Expr::Truth {
            value: *value,
            line: *line,
        }),
        Expr::Var(name) => Ok(Expr::Var(name.copy(alloc)?)),
        Expr::Let { name, value, body } => {
            let name = Box::new(alloc, name.copy(alloc)?)?;
            let value = Box::new(alloc, copy_expr(alloc, value)?)?;
            let body = Box::new(alloc, copy_expr(alloc, body)?)?;
            Ok(Expr::Let { name, value, body })
        }
        Expr::Match { on, arms, line } => {
            let on = Box::new(alloc, copy_expr(alloc, on)?)?;
            let arms = copy_arms(alloc, arms)?;
            Ok(Expr::Match {
                on,
                arms,
                line: *line,
            })
        }
        Expr::Build(build) => {
            let copy = copy_build(alloc, build)?;
            Ok(Expr::Build(Box::new(alloc, copy)?))
        }
        Expr::Call(call) => {
            let copy = copy_call(alloc, call)?;
            Ok(Expr::Call(Box::new(alloc, copy)?))
        }
        Expr::Prim { .. } | Expr::If { .. } => unreachable!(),
    }
}

#[cycle(copy)]
fn copy_build(alloc: Global, build: &Build) -> Result<Build, AllocError>
    ensures { IfOk result (λ copy. built_of copy ≡ built_of build.now) }
{
    Ok(Build {
        con: build.con.copy(alloc)?,
        args: copy_args(alloc, &build.args)?,
        place: copy_name(alloc, &build.place)?,
    })
}

#[cycle(copy)]
fn copy_call(alloc: Global, call: &Call) -> Result<Call, AllocError>
    ensures { IfOk result (λ copy. called_of copy ≡ called_of call.now) }
{
    Ok(Call {
        fun: call.fun.copy(alloc)?,
        args: copy_args(alloc, &call.args)?,
    })
}

#[cycle(copy)]
fn copy_args(alloc: Global, args: &[Expr]) -> Result<Vec<Expr>, AllocError>
    ensures { IfOk result (λ copy. map expression_of copy.items ≡ map expression_of args.now) }
{
    let mut copy = Vec::new(alloc);
    'args: for arg in args {
        copy.push(copy_expr(alloc, arg)?)?;
    }
    Ok(copy)
}

#[cycle(copy)]
fn copy_arm(alloc: Global, arm: &Arm) -> Result<Arm, AllocError>
    ensures { IfOk result (λ copy. branch_of copy ≡ branch_of arm.now) }
{
    Ok(Arm {
        con: arm.con.copy(alloc)?,
        fields: copy_names(alloc, &arm.fields)?,
        cell: copy_cell(alloc, &arm.cell)?,
        body: copy_expr(alloc, &arm.body)?,
    })
}

#[cycle(copy)]
fn copy_arms(alloc: Global, arms: &[Arm]) -> Result<Vec<Arm>, AllocError>
    ensures { IfOk result (λ copy. map branch_of copy.items ≡ map branch_of arms.now) }
{
    let mut copy = Vec::new(alloc);
    'arms: for arm in arms {
        copy.push(copy_arm(alloc, arm)?)?;
    }
    Ok(copy)
}

// ---- declarations

fn copy_atoms(alloc: Global, atoms: &[Atom]) -> Result<Vec<Atom>, AllocError>
    ensures { IfOk result (λ copy. copy.items ≡ atoms.now) }
{
    let mut copy = Vec::new(alloc);
    'atoms: for atom in atoms {
        copy.push(copy_atom(alloc, atom)?)?;
    }
    Ok(copy)
}

fn copy_con(alloc: Global, con: &ConDecl) -> Result<ConDecl, AllocError>
    ensures { IfOk result (λ copy. constructor_of copy ≡ constructor_of con.now) }
{
    Ok(ConDecl {
        name: con.name.copy(alloc)?,
        inline: con.inline,
        fields: copy_atoms(alloc, &con.fields)?,
    })
}

fn copy_type(alloc: Global, decl: &TypeDecl) -> Result<TypeDecl, AllocError>
    ensures { IfOk result (λ copy. data_type_of copy ≡ data_type_of decl.now) }
{
    let name = decl.name.copy(alloc)?;
    let mut cons = Vec::new(alloc);
    'cons: for con in &decl.cons {
        cons.push(copy_con(alloc, con)?)?;
    }
    Ok(TypeDecl { name, cons })
}

fn copy_param(alloc: Global, param: &Param) -> Result<Param, AllocError>
    ensures { IfOk result (λ copy. copy ≡ param.now) }
{
    Ok(Param {
        name: param.name.copy(alloc)?,
        read: param.read,
        kind: copy_kind(alloc, &param.kind)?,
    })
}

fn copy_fun(alloc: Global, decl: &FunDecl) -> Result<FunDecl, AllocError>
    ensures { IfOk result (λ copy. function_of copy ≡ function_of decl.now) }
{
    let name = decl.name.copy(alloc)?;
    let mut params = Vec::new(alloc);
    'params: for param in &decl.params {
        params.push(copy_param(alloc, param)?)?;
    }
    Ok(FunDecl {
        name,
        params,
        result: copy_kind(alloc, &decl.result)?,
        body: copy_expr(alloc, &decl.body)?,
    })
}

fn copy_types(alloc: Global, decls: &[TypeDecl]) -> Result<Vec<TypeDecl>, AllocError>
    ensures { IfOk result (λ copy. map data_type_of copy.items ≡ map data_type_of decls.now) }
{
    let mut copy = Vec::new(alloc);
    'decls: for decl in decls {
        copy.push(copy_type(alloc, decl)?)?;
    }
    Ok(copy)
}

fn copy_funs(alloc: Global, decls: &[FunDecl]) -> Result<Vec<FunDecl>, AllocError>
    ensures { IfOk result (λ copy. map function_of copy.items ≡ map function_of decls.now) }
{
    let mut copy = Vec::new(alloc);
    'decls: for decl in decls {
        copy.push(copy_fun(alloc, decl)?)?;
    }
    Ok(copy)
}

impl Program {
    /// The same program in memory of its own; `AllocError` where memory runs out.
    pub fn copy(&self, alloc: Global) -> Result<Program, AllocError>
        ensures { IfOk result (λ copy. program_of copy ≡ program_of self.now) }
    {
        Ok(Program {
            types: copy_types(alloc, &self.types)?,
            funs: copy_funs(alloc, &self.funs)?,
        })
    }
}
