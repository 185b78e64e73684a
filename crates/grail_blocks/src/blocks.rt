use smallvec::SmallVec;

/// An operator on two ints. `Add`, `Sub` and `Mul` wrap to 32 bits in two's complement and give an int. `Div` gives the
/// quotient, rounded toward zero and wrapped, and `Mod` the remainder, with the left operand's sign: both trap where the
/// right operand is 0. The others compare and give a truth value.
#[derive(Clone, Copy, Debug, PartialEq, Eq)]
pub enum PrimCode {
    Add,
    Sub,
    Mul,
    Div,
    Mod,
    Eq,
    Ne,
    Lt,
    Le,
    Gt,
    Ge,
}

/// Where a constructor is built.
#[derive(Clone, Copy, Debug, PartialEq, Eq)]
pub enum Place {
    /// In no cell: the constructor is inline.
    Inline,
    /// In a cell from the free list: the net rises by 1.
    New,
    /// In the cell that the diamond in this local names. The diamond is used, after the arguments; the net stays.
    Reuse(u32),
}

/// What a let binds. Locals, constructors and functions go by their numbers. Operands are used in the order in which
/// they stand; an operand that is owned and of a heap kind is spent by its use.
#[derive(Debug, Drop)]
pub enum Op {
    /// Uses nothing; gives this int.
    Lit(i32),
    /// Uses nothing; gives this truth value.
    Flag(bool),
    /// Uses a local of any kind; gives its value.
    Copy(u32),
    /// Uses two ints, the left one first; gives an int or a truth value.
    Prim {
        op: PrimCode,
        left: u32,
        right: u32,
    },
    /// Uses one local for each field of the constructor, and then the diamond of its place; gives the constructor's
    /// value. `New` takes a cell from the free list.
    Make {
        con: u32,
        args: SmallVec<u32, 4>,
        place: Place,
    },
    /// Has one local for each parameter of the function, and gives its result. It uses those at parameters without a
    /// mark, and reads the others. It takes one unit of fuel, and waits while the function runs.
    Call {
        func: u32,
        args: SmallVec<u32, 4>,
    },
}

/// One let: a local and what it is bound to. The local is bound anew, also where it was bound or spent before.
#[derive(Debug, Drop)]
pub struct Let {
    pub target: u32,
    pub op: Op,
}

/// What becomes of the cell that an arm matched.
#[derive(Clone, Copy, Debug, PartialEq, Eq)]
pub enum CaseCell {
    /// There is no cell: the constructor is inline.
    Inline,
    /// It goes back to the free list, before the arm's block: the net falls by 1.
    Free,
    /// This local is bound to a diamond that names it.
    Keep(u32),
    /// It stays as it is: its fields are only looked at.
    Look,
}

/// An arm of a case: it binds one local for each field, in order, then that of a kept cell, and goes on in the block
/// `target`.
#[derive(Debug, Drop)]
pub struct CaseArm {
    pub fields: Vec<u32>,
    pub cell: CaseCell,
    pub target: u32,
}

/// The end of a block. A jump goes to a later block of the function.
#[derive(Debug, Drop)]
pub enum Term {
    /// Uses a local of the function's result kind, which is the function's result.
    Ret(u32),
    /// Has one local for each parameter of another function, as a call has, and that takes the place of this one: it
    /// takes one unit of fuel, and nothing waits.
    Tail { func: u32, args: SmallVec<u32, 4> },
    /// Uses nothing; goes on in this block.
    Goto(u32),
    /// Uses a truth value; goes on in block `yes` where it is true, and in `no` where it is false.
    If { cond: u32, yes: u32, no: u32 },
    /// Uses a value of a data type that is owned, or looks at one that is lent, and goes on with the arm of its
    /// constructor; there is one arm for each constructor of the type, in order.
    Case { on: u32, arms: Vec<CaseArm> },
}
