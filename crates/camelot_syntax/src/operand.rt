//! Trees of operands and operators, and levels.

ghost use Rattle.std.specs.Prelude.{◌≡◌, ◌≤◌, ◌<◌, suc, MatchResult};
ghost use Rattle.camelot_syntax.specs.declared.state.Halt.TheVariants.{Memory, Deep};
ghost use Rattle.camelot_tree.specs.Tree.{expression_of, operator_of, Truth, Prim, If, Let};
ghost use Rattle.camelot_grammar.specs.Program.{join, negated};
ghost use Rattle.camelot_grammar.specs.Machine.{finished, negated_all, within};
ghost use Rattle.camelot_syntax.specs.States.{operand_of, joint_of, some_left, nots_of};

use crate::state::{Halt, Joint, Left, Operand};
use camelot_tree::{Expr, Name, PrimOp};
use std::alloc::Global;

/// The highest level that a token may have.
pub const LIMIT: u32 = 200;

/// The level of a part that begins within this level.
#[inline]
pub fn deeper(around: u32) -> Result<u32, Halt>
    ensures { MatchResult result (λ level. (level ≡ suc around) × (level ≤ 200)) (λ halt. (halt ≡ Deep) × (200 < suc around)) }
{
    if around >= LIMIT {
        return Err(Halt::Deep);
    }
    Ok(around + 1)
}

/// The level around what follows an operator of this level.
#[inline]
pub fn behind(level: u32) -> Result<u32, Halt>
    ensures { MatchResult result (λ inner. (inner ≡ suc level) × (level ≤ 200)) (λ halt. (halt ≡ Deep) × (200 < level)) }
{
    if level > LIMIT {
        return Err(Halt::Deep);
    }
    Ok(level + 1)
}

/// The level of the next operator of a rank.
#[inline]
pub fn within(left: &Option<Left>, around: u32) -> u32
    ensures { result ≡ within (some_left left.now) around }
{
    match left {
        Some(left) => left.within,
        None => around,
    }
}

pub fn prim(
    alloc: Global,
    op: PrimOp,
    left: Box<Expr>,
    right: Box<Expr>,
    line: u32,
) -> Result<Box<Expr>, Halt>
    ensures { MatchResult result (λ tree. expression_of tree.value ≡ Prim (operator_of op) (expression_of left.value)
        (expression_of right.value) line) (λ halt. halt ≡ Memory) }
{
    Ok(Box::new(
        alloc,
        Expr::Prim {
            op,
            left,
            right,
            line,
        },
    )?)
}

pub fn if_tree(
    alloc: Global,
    cond: Box<Expr>,
    yes: Box<Expr>,
    no: Box<Expr>,
    line: u32,
) -> Result<Box<Expr>, Halt>
    ensures { MatchResult result (λ tree. expression_of tree.value ≡ If (expression_of cond.value)
        (expression_of yes.value) (expression_of no.value) line) (λ halt. halt ≡ Memory) }
{
    Ok(Box::new(
        alloc,
        Expr::If {
            cond,
            yes,
            no,
            line,
        },
    )?)
}

pub fn let_tree(
    alloc: Global,
    name: Box<Name>,
    value: Box<Expr>,
    body: Box<Expr>,
) -> Result<Box<Expr>, Halt>
    ensures { MatchResult result (λ tree. expression_of tree.value ≡ Let name.value (expression_of value.value)
        (expression_of body.value)) (λ halt. halt ≡ Memory) }
{
    Ok(Box::new(alloc, Expr::Let { name, value, body })?)
}

// A truth value in this line.
fn truth(alloc: Global, value: bool, line: u32) -> Result<Box<Expr>, Halt>
    ensures { MatchResult result (λ tree. expression_of tree.value ≡ Truth value line) (λ halt. halt ≡ Memory) }
{
    Ok(Box::new(alloc, Expr::Truth { value, line })?)
}

/// The operand that is this tree.
pub fn leaf(alloc: Global, tree: Expr, line: u32) -> Result<Operand, Halt>
    ensures { MatchResult result (λ operand. operand_of operand ≡ record { expression = expression_of tree; line = line }) (λ halt. halt ≡ Memory) }
{
    let tree = Box::new(alloc, tree)?;
    Ok(Operand { tree, line })
}

impl Left {
    // The operator with its second operand.
    fn join(self, alloc: Global, right: Operand) -> Result<Operand, Halt>
        ensures { MatchResult result
            (λ whole. operand_of whole ≡ join (joint_of self.joint) self.line (operand_of self.operand) (operand_of right)) (λ halt. halt ≡ Memory) }
    {
        let Left {
            operand,
            joint,
            line,
            within: _,
        } = self;
        let first = operand.line;
        let tree = match joint {
            Joint::Prim(op) => prim(alloc, op, operand.tree, right.tree, first)?,
            Joint::AndThen => {
                let no = truth(alloc, false, line)?;
                if_tree(alloc, operand.tree, right.tree, no, first)?
            }
            Joint::OrElse => {
                let yes = truth(alloc, true, line)?;
                if_tree(alloc, operand.tree, yes, right.tree, first)?
            }
        };
        Ok(Operand { tree, line: first })
    }
}

/// The chain of one rank with its last operand.
#[inline]
pub fn finish(alloc: Global, left: Option<Left>, right: Operand) -> Result<Operand, Halt>
    ensures { MatchResult result (λ whole. operand_of whole ≡ finished (some_left left) (operand_of right)) (λ halt. halt ≡ Memory) }
{
    match left {
        Some(left) => left.join(alloc, right),
        None => Ok(right),
    }
}

// `not` of an operand, where the `not` stands in this line.
fn negation(alloc: Global, line: u32, operand: Operand) -> Result<Operand, Halt>
    ensures { MatchResult result (λ whole. operand_of whole ≡ negated line (operand_of operand)) (λ halt. halt ≡ Memory) }
{
    let yes = truth(alloc, false, line)?;
    let no = truth(alloc, true, line)?;
    let tree = if_tree(alloc, operand.tree, yes, no, line)?;
    Ok(Operand { tree, line })
}

/// An operand with all the `not`s before it, whose lines these are. They are taken.
#[tactic(auto, using(crate::proofs::StackLemmas::nots_push))]
pub fn negate_all(alloc: Global, nots: &mut Vec<u32>, mut operand: Operand) -> Result<Operand, Halt>
    ensures { MatchResult result (λ whole. operand_of whole ≡ negated_all (nots_of nots.old.items) (operand_of operand)) (λ halt. halt ≡ Memory) }
{
    'nots: while let Some(line) = nots.pop() {
        operand = negation(alloc, line, operand)?;
    }
    Ok(operand)
}
