use camelot_values::Word;

/// A name and where it stands.
#[derive(Debug, Drop)]
pub struct Name {
    pub word: Word,
    /// The line of its token, counted from 1.
    pub line: u32,
}

/// A type as it is written.
#[derive(Debug, Drop)]
pub enum Atom {
    Int,
    Bool,
    /// The type `<>` of diamonds.
    Dia,
    Named(Name),
}

/// A constructor with the types of its fields. One that is written with `!` is inline.
#[derive(Debug, Drop)]
pub struct ConDecl {
    pub name: Name,
    pub inline: bool,
    pub fields: Vec<Atom>,
}

/// The declaration of a type.
#[derive(Debug, Drop)]
pub struct TypeDecl {
    pub name: Name,
    pub cons: Vec<ConDecl>,
}

/// A parameter: its name, whether it is marked `read`, and its type where one is written.
#[derive(Debug, Drop)]
pub struct Param {
    pub name: Name,
    pub read: bool,
    pub kind: Option<Atom>,
}

/// The declaration of a function.
#[derive(Debug, Drop)]
pub struct FunDecl {
    pub name: Name,
    pub params: Vec<Param>,
    pub result: Option<Atom>,
    pub body: Expr,
}

/// An operator on two ints.
#[derive(Clone, Copy, Debug, PartialEq, Eq)]
pub enum PrimOp {
    Add,
    Sub,
    Mul,
    Div,
    Mod,
    Eq,
    Ne,
    Lt,
    Le,
    Gt,
    Ge,
}

/// What becomes of the cell of a matched value.
#[derive(Debug, Drop)]
pub enum ArmCell {
    /// No `@` is written.
    Plain,
    /// `@_`: it is given back to the free list.
    Free,
    /// `@d`: it is the diamond of this name.
    Keep(Name),
}

/// An expression. A `line` is that of the expression's first token, parentheses around it left out.
///
/// What is large stands in boxes, and lines in front of what they would pad, so that an expression takes 40 bytes.
#[cycle(tree)]
#[derive(Debug)]
pub enum Expr {
    Num {
        value: i32,
        line: u32,
    },
    Truth {
        value: bool,
        line: u32,
    },
    Var(Name),
    Prim {
        op: PrimOp,
        left: Box<Expr>,
        right: Box<Expr>,
        line: u32,
    },
    If {
        cond: Box<Expr>,
        yes: Box<Expr>,
        no: Box<Expr>,
        line: u32,
    },
    Let {
        name: Box<Name>,
        value: Box<Expr>,
        body: Box<Expr>,
    },
    Match {
        line: u32,
        on: Box<Expr>,
        arms: Vec<Arm>,
    },
    Build(Box<Build>),
    Call(Box<Call>),
}

/// A constructor with its arguments, in the cell of the diamond `place` where one is named.
#[cycle(tree)]
#[derive(Debug, Drop)]
pub struct Build {
    pub con: Name,
    pub args: Vec<Expr>,
    pub place: Option<Name>,
}

/// A function with its arguments.
#[cycle(tree)]
#[derive(Debug, Drop)]
pub struct Call {
    pub fun: Name,
    pub args: Vec<Expr>,
}

/// An arm of a match. A field without a name is written `_`.
#[cycle(tree)]
#[derive(Debug, Drop)]
pub struct Arm {
    pub con: Name,
    pub fields: Vec<Option<Name>>,
    pub cell: ArmCell,
    pub body: Expr,
}

// Chains nest to the left, far deeper than expressions nest otherwise: so a tree is let go from its left end on, in a
// loop.
impl Drop for Expr {
    #[cycle(tree)]
    fn drop(mut self) {
        loop {
            match self {
                Expr::Prim {
                    op: _,
                    left,
                    right: _,
                    line: _,
                } => self = Box::into_inner(left),
                Expr::If {
                    cond,
                    yes: _,
                    no: _,
                    line: _,
                } => self = Box::into_inner(cond),
                Expr::Num { value: _, line: _ } | Expr::Truth { value: _, line: _ } => return,
                Expr::Var(_name) => return,
                Expr::Let {
                    name: _,
                    value: _,
                    body: _,
                } => return,
                Expr::Match {
                    on: _,
                    arms: _,
                    line: _,
                } => return,
                Expr::Build(_build) => return,
                Expr::Call(_call) => return,
            }
        }
    }
}
