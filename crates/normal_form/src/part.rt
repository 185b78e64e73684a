//! Parts of a function's normal form, and how they are put together.
ghost use Rattle.std.specs.Prelude.{◌≡◌, ◌<◌, ◌+◌, IfOk, OnOk, None, ◌++◌, [], map};
ghost use Rattle.grail_blocks.specs.Blocks.{arm_of, op_of, operator_of, term_of};
ghost use Rattle.normal_form.specs.Normal.{case_arm, joining};
ghost use Rattle.normal_form.specs.Parts.{args_and, before_tail, behind, closed_piece, divided, no_tails, parted, tail_and, tail_of, tails_of, arms_of, body_and, body_of, bound_piece, conditional, joined_bodies, line_of, matched, no_args, no_arms, operated, piece_of, pieces_of, sequenced};
ghost use Rattle.normal_form.specs.Tables.{source_in};

use crate::appending::append_to;
use crate::known::Known;
use grail_blocks::{CaseArm, CaseCell, Let, Op, PrimCode, Term};
use smallvec::SmallVec;
use std::alloc::{AllocError, Global};

/// A let, or the end of a block.
#[derive(Debug, Drop)]
pub(crate) enum Line {
    Bind(Let),
    Close(Term),
}

/// Where a part begins or ends: the first local that isn't made, and the number of the block.
#[derive(Clone, Copy, Debug)]
pub(crate) struct At {
    pub(crate) next: u32,
    pub(crate) number: u32,
}

/// What gives an expression's value: its lines, where they end, and the local that has the value.
#[derive(Debug, Drop)]
pub(crate) struct Part {
    pub(crate) lines: Vec<Line>,
    pub(crate) end: At,
    pub(crate) local: u32,
}

/// What gives the values of arguments.
#[derive(Debug, Drop)]
pub(crate) struct Args {
    pub(crate) lines: Vec<Line>,
    pub(crate) end: At,
    pub(crate) locals: SmallVec<u32, 4>,
}

impl Args {
    /// No arguments.
    pub(crate) fn new(alloc: Global, at: At) -> Args
        ensures { pieces_of result ≡ no_args at.next at.number }
    {
        Args {
            lines: Vec::new(alloc),
            end: at,
            locals: SmallVec::new(alloc),
        }
    }

    /// One argument more.
    pub(crate) fn and(mut self, part: Part) -> Result<Args, AllocError>
        ensures { IfOk result (λ args. pieces_of args ≡ args_and (pieces_of self) (piece_of part)) }
    {
        append_to(&mut self.lines, part.lines)?;
        self.locals.push(part.local)?;
        Ok(Args {
            lines: self.lines,
            end: part.end,
            locals: self.locals,
        })
    }
}

/// A let that binds a new local, behind these lines.
#[inline(always)]
pub(crate) fn bound(mut lines: Vec<Line>, at: At, op: Op) -> Result<Part, AllocError>
    requires { at.next < 4294967295 }
    ensures { IfOk result (λ part. piece_of part ≡ bound_piece (map line_of lines.items) at.next at.number (op_of op)) }
{
    lines.push(Line::Bind(Let {
        target: at.next,
        op,
    }))?;
    Ok(Part {
        lines,
        end: At {
            next: at.next + 1,
            number: at.number,
        },
        local: at.next,
    })
}

/// An operator on a local and the value of a part.
#[inline(always)]
pub(crate) fn operator(left: u32, right: Part, op: PrimCode) -> Result<Part, AllocError>
    requires { right.end.next < 4294967295 }
    ensures { IfOk result (λ part. piece_of part ≡ operated (operator_of op) left (piece_of right)) }
{
    let prim = Op::Prim {
        op,
        left,
        right: right.local,
    };
    bound(right.lines, right.end, prim)
}

/// A part behind these lines.
#[inline(always)]
pub(crate) fn followed(mut lines: Vec<Line>, part: Part) -> Result<Part, AllocError>
    ensures { IfOk result (λ all. piece_of all ≡ behind (map line_of lines.items) (piece_of part)) }
{
    append_to(&mut lines, part.lines)?;
    Ok(Part {
        lines,
        end: part.end,
        local: part.local,
    })
}

/// One part and then another, which has the value.
pub(crate) fn sequence(first: Part, second: Part) -> Result<Part, AllocError>
    ensures { IfOk result (λ part. piece_of part ≡ sequenced (piece_of first) (piece_of second)) }
{
    let mut lines = first.lines;
    append_to(&mut lines, second.lines)?;
    Ok(Part {
        lines,
        end: second.end,
        local: second.local,
    })
}

/// Adds what ends a branch that joins: its value is copied to `to`, and the block `target` goes on.
#[inline(always)]
pub(crate) fn join_to(
    lines: &mut Vec<Line>,
    from: u32,
    to: u32,
    target: u32,
) -> Result<(), AllocError>
    ensures { OnOk result (map line_of lines.new.items ≡ joining (map line_of lines.old.items) from to target) }
{
    lines.push(Line::Bind(Let {
        target: to,
        op: Op::Copy(from),
    }))?;
    lines.push(Line::Close(Term::Goto(target)))?;
    Ok(())
}

/// A conditional whose branches join: the second one begins in the block behind the first one's last.
pub(crate) fn conditional(cond: Part, first: Part, second: Part) -> Result<Part, AllocError>
    requires cond { cond.end.number < 4294967295 }
    requires first { first.end.number < 4294967295 }
    requires second { second.end.number < 4294967295 }
    ensures { IfOk result (λ part. piece_of part ≡ conditional (piece_of cond) (piece_of first) (piece_of second)) }
{
    let result = cond.end.next;
    let join = second.end.number + 1;
    let test = Term::If {
        cond: cond.local,
        yes: cond.end.number + 1,
        no: first.end.number + 1,
    };
    let mut lines = cond.lines;
    lines.push(Line::Close(test))?;
    append_to(&mut lines, first.lines)?;
    join_to(&mut lines, first.local, result, join)?;
    append_to(&mut lines, second.lines)?;
    join_to(&mut lines, second.local, result, join)?;
    Ok(Part {
        lines,
        end: At {
            next: second.end.next,
            number: join,
        },
        local: result,
    })
}

/// The same where the second branch is a literal, which needs no list of its own.
pub(crate) fn conditional_literal(cond: Part, first: Part, literal: Op) -> Result<Part, AllocError>
    requires cond { cond.end.number < 4294967295 }
    requires number { first.end.number < 4294967294 }
    requires next { first.end.next < 4294967295 }
    ensures { IfOk result (λ part. piece_of part ≡ conditional (piece_of cond) (piece_of first)
        (bound_piece [] first.end.next (first.end.number + 1) (op_of literal))) }
{
    let result = cond.end.next;
    let made = first.end.next;
    let no = first.end.number + 1;
    let join = no + 1;
    let test = Term::If {
        cond: cond.local,
        yes: cond.end.number + 1,
        no,
    };
    let mut lines = cond.lines;
    lines.push(Line::Close(test))?;
    append_to(&mut lines, first.lines)?;
    join_to(&mut lines, first.local, result, join)?;
    lines.push(Line::Bind(Let {
        target: made,
        op: literal,
    }))?;
    join_to(&mut lines, made, result, join)?;
    Ok(Part {
        lines,
        end: At {
            next: made + 1,
            number: join,
        },
        local: result,
    })
}

/// What an arm leaves to be joined: its lines, and the local that has its value.
#[derive(Debug, Drop)]
pub(crate) struct Body {
    pub(crate) lines: Vec<Line>,
    pub(crate) local: u32,
}

/// Arms of a case, and what they leave to be joined.
#[derive(Debug, Drop)]
pub(crate) struct Arms {
    pub(crate) cases: Vec<CaseArm>,
    pub(crate) bodies: Vec<Body>,
    pub(crate) end: At,
}

// Joins what arms left, behind these lines.
fn join_all(
    mut lines: Vec<Line>,
    bodies: Vec<Body>,
    to: u32,
    target: u32,
) -> Result<Vec<Line>, AllocError>
    ensures { IfOk result (λ all. map line_of all.items ≡ map line_of lines.items ++ joined_bodies to target (map body_of bodies.items)) }
{
    'bodies: for body in bodies {
        let mut more = body.lines;
        join_to(&mut more, body.local, to, target)?;
        lines.append(&mut more)?;
    }
    Ok(lines)
}

/// A match whose arms join in the block behind them.
pub(crate) fn matched(mut on: Part, arms: Arms) -> Result<Part, AllocError>
    ensures { IfOk result (λ part. piece_of part ≡ matched (piece_of on) (arms_of arms)) }
{
    let result = on.end.next;
    let case = Term::Case {
        on: on.local,
        arms: arms.cases,
    };
    on.lines.push(Line::Close(case))?;
    let lines = join_all(on.lines, arms.bodies, result, arms.end.number)?;
    Ok(Part {
        lines,
        end: arms.end,
        local: result,
    })
}

/// A case's arm for a constructor without an arm, which no typed program has.
pub(crate) fn missing(known: &Known<'_>, target: u32) -> CaseArm
    ensures { arm_of result ≡ case_arm (source_in known.now.typed.now) None 0 target }
{
    CaseArm {
        fields: Vec::new(known.alloc),
        cell: CaseCell::Inline,
        target,
    }
}

impl Arms {
    /// No arms.
    pub(crate) fn new(alloc: Global, at: At) -> Arms
        ensures { arms_of result ≡ no_arms at.next at.number }
    {
        Arms {
            cases: Vec::new(alloc),
            bodies: Vec::new(alloc),
            end: at,
        }
    }

    /// The body of the last arm, which is to be joined: the next one begins in the block behind it.
    pub(crate) fn and_body(mut self, body: Part) -> Result<Arms, AllocError>
        requires { body.end.number < 4294967295 }
        ensures { IfOk result (λ arms. arms_of arms ≡ body_and (arms_of self) (piece_of body)) }
    {
        self.bodies.push(Body {
            lines: body.lines,
            local: body.local,
        })?;
        Ok(Arms {
            cases: self.cases,
            bodies: self.bodies,
            end: At {
                next: body.end.next,
                number: body.end.number + 1,
            },
        })
    }
}

/// What ends a function: its lines, and where the next block begins.
#[derive(Debug, Drop)]
pub(crate) struct Tail {
    pub(crate) lines: Vec<Line>,
    pub(crate) end: At,
}

/// The end of a block, behind these lines.
pub(crate) fn closed(mut lines: Vec<Line>, at: At, term: Term) -> Result<Tail, AllocError>
    requires { at.number < 4294967295 }
    ensures { IfOk result (λ tail. tail_of tail ≡ closed_piece (map line_of lines.items) at.next at.number (term_of term)) }
{
    lines.push(Line::Close(term))?;
    Ok(Tail {
        lines,
        end: At {
            next: at.next,
            number: at.number + 1,
        },
    })
}

/// One part and then what ends the function.
pub(crate) fn before(first: Part, last: Tail) -> Result<Tail, AllocError>
    ensures { IfOk result (λ tail. tail_of tail ≡ before_tail (piece_of first) (tail_of last)) }
{
    let mut lines = first.lines;
    append_to(&mut lines, last.lines)?;
    Ok(Tail {
        lines,
        end: last.end,
    })
}

/// A conditional whose branches both end the function: the second one begins behind the first.
pub(crate) fn divided(mut cond: Part, mut first: Tail, mut second: Tail) -> Result<Tail, AllocError>
    requires { cond.end.number < 4294967295 }
    ensures { IfOk result (λ tail. tail_of tail ≡ divided (piece_of cond) (tail_of first) (tail_of second)) }
{
    let test = Term::If {
        cond: cond.local,
        yes: cond.end.number + 1,
        no: first.end.number,
    };
    cond.lines.push(Line::Close(test))?;
    cond.lines.append(&mut first.lines)?;
    cond.lines.append(&mut second.lines)?;
    Ok(Tail {
        lines: cond.lines,
        end: second.end,
    })
}

/// Arms of a case that end the function.
#[derive(Debug, Drop)]
pub(crate) struct TailArms {
    pub(crate) cases: Vec<CaseArm>,
    pub(crate) lines: Vec<Line>,
    pub(crate) end: At,
}

impl TailArms {
    /// No arms.
    pub(crate) fn new(alloc: Global, at: At) -> TailArms
        ensures { tails_of result ≡ no_tails at.next at.number }
    {
        TailArms {
            cases: Vec::new(alloc),
            lines: Vec::new(alloc),
            end: at,
        }
    }

    /// The body of the last arm.
    pub(crate) fn and_body(self, body: Tail) -> Result<TailArms, AllocError>
        ensures { IfOk result (λ arms. tails_of arms ≡ tail_and (tails_of self) (tail_of body)) }
    {
        let mut lines = self.lines;
        append_to(&mut lines, body.lines)?;
        Ok(TailArms {
            cases: self.cases,
            lines,
            end: body.end,
        })
    }
}

/// A match whose arms end the function.
pub(crate) fn parted(mut on: Part, mut arms: TailArms) -> Result<Tail, AllocError>
    ensures { IfOk result (λ tail. tail_of tail ≡ parted (piece_of on) (tails_of arms)) }
{
    let case = Term::Case {
        on: on.local,
        arms: arms.cases,
    };
    on.lines.push(Line::Close(case))?;
    on.lines.append(&mut arms.lines)?;
    Ok(Tail {
        lines: on.lines,
        end: arms.end,
    })
}
