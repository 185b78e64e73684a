//! What the parser holds between two tokens: where it stands, and what is to be finished later. What is large stands in
//! boxes, since states and frames are moved at each token.

ghost use Rattle.std.specs.Prelude.{◌≡◌};
ghost use Rattle.camelot_syntax.specs.declared.state.Halt.TheVariants.{Memory};

use camelot_tree::{
    Arm, ArmCell, Atom, Build, ConDecl, Expr, FunDecl, Name, Param, PrimOp, TypeDecl,
};
use std::alloc::{AllocError, AllocFailed};

/// An operand, with the line of its first token.
#[derive(Drop)]
pub struct Operand {
    pub tree: Box<Expr>,
    pub line: u32,
}

/// What an operator does with its operands.
#[derive(Clone, Copy)]
pub enum Joint {
    Prim(PrimOp),
    AndThen,
    OrElse,
}

/// What stands to the left of an operator.
#[derive(Drop)]
pub struct Left {
    pub operand: Operand,
    pub joint: Joint,
    /// The line of the operator.
    pub line: u32,
    /// The level around what follows the operator.
    pub within: u32,
}

/// The unfinished chains of one expression, one for each rank of operators.
#[derive(Drop)]
pub struct Lefts {
    /// The level of the expression's own tokens.
    pub around: u32,
    pub ors: Option<Left>,
    pub ands: Option<Left>,
    pub cmp: Option<Left>,
    pub sum: Option<Left>,
    pub prod: Option<Left>,
}

/// A name with the units that stand behind it so far.
#[derive(Drop)]
pub struct Callee {
    pub fun: Name,
    pub args: Vec<Expr>,
}

/// The place of an operand in an expression, and of a unit in that operand: alone, or behind a name.
#[derive(Drop)]
pub struct Spot {
    pub lefts: Lefts,
    /// The lines of the `not`s before the operand.
    pub nots: Vec<u32>,
    /// The level of the operand's own tokens. Where none is read yet, the level around the operand.
    pub level: u32,
    pub call: Option<Callee>,
}

/// A match with the arms so far.
#[derive(Drop)]
pub struct Matching {
    pub level: u32,
    pub line: u32,
    pub on: Box<Expr>,
    pub arms: Vec<Arm>,
}

/// An arm before its body.
#[derive(Drop)]
pub struct ArmHead {
    pub con: Name,
    pub fields: Vec<Option<Name>>,
    pub cell: ArmCell,
}

/// The declarations so far.
#[derive(Drop)]
pub struct Decls {
    pub types: Vec<TypeDecl>,
    pub funs: Vec<FunDecl>,
}

/// The declaration of a type with the constructors so far.
#[derive(Drop)]
pub struct TypeDraft {
    pub before: Box<Decls>,
    pub name: Name,
    pub cons: Vec<ConDecl>,
}

/// A constructor's declaration with the fields so far.
#[derive(Drop)]
pub struct ConDraft {
    pub name: Name,
    pub fields: Vec<Atom>,
}

/// The declaration of a function with the parameters so far.
#[derive(Drop)]
pub struct FunDraft {
    pub before: Box<Decls>,
    pub name: Name,
    pub params: Vec<Param>,
    /// The type of the result, where one is written and read.
    pub result: Option<Atom>,
}

/// An expression that is being read, within what goes on behind it.
#[derive(Drop)]
pub enum Frame {
    Body {
        draft: Box<FunDraft>,
    },
    Paren {
        spot: Box<Spot>,
        line: u32,
    },
    Args {
        spot: Box<Spot>,
        build: Box<Build>,
    },
    LetValue {
        level: u32,
        name: Box<Name>,
    },
    LetBody {
        name: Box<Name>,
        value: Box<Expr>,
    },
    IfCond {
        level: u32,
        line: u32,
    },
    IfThen {
        level: u32,
        line: u32,
        cond: Box<Expr>,
    },
    IfElse {
        line: u32,
        cond: Box<Expr>,
        yes: Box<Expr>,
    },
    MatchOn {
        level: u32,
        line: u32,
    },
    ArmBody {
        matching: Box<Matching>,
        head: Box<ArmHead>,
    },
}

/// An expression, with the frame that goes on behind it.
#[derive(Drop)]
pub struct Outer {
    pub frame: Frame,
    pub tree: Box<Expr>,
}

/// What an expression ends: a whole `let` or `if`, or else nothing.
#[derive(Drop)]
pub enum Enclosed {
    Whole(Box<Expr>),
    Outer(Outer),
}

/// Where the parser stands in declarations: what it wants next, or has.
#[derive(Drop)]
pub enum DeclState {
    Top(Box<Decls>),
    TypeName(Box<Decls>),
    TypeEquals(Box<Decls>, Name),
    WantCon(Box<TypeDraft>),
    InlineCon(Box<TypeDraft>),
    BareCon(Box<TypeDraft>, Name),
    WantField(Box<TypeDraft>, Box<ConDraft>),
    HaveField(Box<TypeDraft>, Box<ConDraft>),
    HaveCon(Box<TypeDraft>),
    FunName(Box<Decls>),
    FirstParam(Box<Decls>, Name),
    NextParam(Box<FunDraft>),
    OpenParam(Box<FunDraft>),
    ReadParam(Box<FunDraft>),
    ParamName(Box<FunDraft>, Name, bool),
    ParamKind(Box<FunDraft>, Name, bool),
    ParamClose(Box<FunDraft>, Box<Param>),
    ResultKind(Box<FunDraft>),
    ResultEquals(Box<FunDraft>, Atom),
}

/// Where the parser stands in expressions.
#[derive(Drop)]
pub enum ExprState {
    Want(u32),
    LetName(u32),
    LetEquals(u32, Box<Name>),
    /// Where an operand is wanted, or behind a name and the units behind it so far.
    Open(Box<Spot>),
    Negative(Box<Spot>, u32),
    Have(Box<Spot>, Operand),
    Con(Box<Spot>, Name),
    Full(Box<Spot>, Box<Build>),
    Placed(Box<Spot>, Box<Build>),
    Whole(Box<Expr>),
}

/// Where the parser stands in the head of an arm.
#[derive(Drop)]
pub enum ArmState {
    FirstArm(Box<Matching>),
    WantArm(Box<Matching>),
    ArmCon(Box<Matching>, Box<ArmHead>),
    WantName(Box<Matching>, Box<ArmHead>),
    HaveName(Box<Matching>, Box<ArmHead>),
    HaveNames(Box<Matching>, Box<ArmHead>),
    WantCell(Box<Matching>, Box<ArmHead>),
    WantArrow(Box<Matching>, Box<ArmHead>),
}

#[derive(Drop)]
pub enum State {
    InDecl(DeclState),
    InExpr(ExprState),
    InArm(ArmState),
    Finished(Box<Decls>),
}

/// Why the parser goes no further at a token.
#[derive(Clone, Copy, Debug, PartialEq, Eq)]
pub enum Halt {
    /// The token may not stand here.
    Stuck,
    /// Its level is above the limit.
    Deep,
    /// Memory ran out.
    Memory,
}

impl<T: Drop> From<AllocFailed<T>> for Halt {
    ghost from_gives = { λ _ halt. halt ≡ Memory };

    fn from(_failed: AllocFailed<T>) -> Halt {
        Halt::Memory
    }
}

impl From<AllocError> for Halt {
    ghost from_gives = { λ _ halt. halt ≡ Memory };

    fn from(_failed: AllocError) -> Halt {
        Halt::Memory
    }
}
