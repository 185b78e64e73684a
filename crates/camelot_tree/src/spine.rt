ghost use Rattle.std.specs.Prelude.{◌≡◌, map, IfOk};
ghost use Rattle.camelot_tree.specs.Tree.{expression_of};
ghost use Rattle.camelot_tree.specs.Spine.{spine_of, leaf_of, IsLeaf};

use crate::tree::Expr;
use std::alloc::{AllocError, Global};

/// The left end of an expression, along which trees may be as deep as their text is long.
#[derive(Drop)]
pub struct Spine<'a> {
    /// Operators and conditionals from the outermost inwards, each in the left operand or the condition of the one
    /// before.
    pub parents: Vec<&'a Expr>,
    /// The left operand or condition of the innermost one; the expression itself where it is neither.
    pub leaf: &'a Expr,
}

// The left end of an expression, with its parents in this vector in place of what stood there; `AllocError` where
// memory runs out.
fn left_spine_in<'a>(mut parents: Vec<&'a Expr>, expr: &'a Expr) -> Result<Spine<'a>, AllocError>
    ensures parents { IfOk result (λ spine. map (λ parent. expression_of parent.now) spine.parents.items ≡ spine_of (expression_of expr.now)) }
    ensures leaf { IfOk result (λ spine. expression_of spine.leaf.now ≡ leaf_of (expression_of expr.now)) }
    ensures is_leaf { IfOk result (λ spine. IsLeaf (expression_of spine.leaf.now)) }
{
    parents.clear();
    let mut leaf = expr;
    'down: loop {
        match leaf {
            Expr::Prim { left, .. } => {
                parents.push(leaf)?;
                leaf = left;
            }
            Expr::If { cond, .. } => {
                parents.push(leaf)?;
                leaf = cond;
            }
            _ => return Ok(Spine { parents, leaf }),
        }
    }
}

// How many operators and conditionals stand along the left end of an expression.
fn depth(expr: &Expr) -> usize {
    let mut depth: usize = 0;
    let mut leaf = expr;
    'down: loop {
        match leaf {
            Expr::Prim { left, .. } => leaf = left,
            Expr::If { cond, .. } => leaf = cond,
            _ => return depth,
        }
        depth = depth.saturating_add(1);
    }
}

/// The left end of an expression; `AllocError` where memory runs out.
#[inline(always)]
pub fn left_spine(alloc: Global, expr: &Expr) -> Result<Spine<'_>, AllocError>
    // The parents are those of the left end, from the expression down.
    ensures parents { IfOk result (λ spine. map (λ parent. expression_of parent.now) spine.parents.items ≡ spine_of (expression_of expr.now)) }
    // The leaf is the one at the left end.
    ensures leaf { IfOk result (λ spine. expression_of spine.leaf.now ≡ leaf_of (expression_of expr.now)) }
    // The leaf has no part at its own left end.
    ensures is_leaf { IfOk result (λ spine. IsLeaf (expression_of spine.leaf.now)) }
{
    match expr {
        Expr::Prim { .. } | Expr::If { .. } => {
            left_spine_in(Vec::with_capacity(alloc, depth(expr))?, expr)
        }
        _ => Ok(Spine {
            parents: Vec::new(alloc),
            leaf: expr,
        }),
    }
}

/// Room for left ends, from those that have been walked.
#[derive(Drop)]
pub struct Rooms<'a> {
    alloc: Global,
    spares: Vec<Vec<&'a Expr>>,
}

impl<'a> Rooms<'a> {
    /// No room yet, which takes no memory.
    pub fn new(alloc: Global) -> Rooms<'a> {
        Rooms {
            alloc,
            spares: Vec::new(alloc),
        }
    }

    /// The left end of an expression, as [`left_spine`] has it.
    #[inline(always)]
    pub fn left_spine(&mut self, expr: &'a Expr) -> Result<Spine<'a>, AllocError>
        // The parents are those of the left end, from the expression down.
        ensures parents { IfOk result (λ spine. map (λ parent. expression_of parent.now) spine.parents.items ≡ spine_of (expression_of expr.now)) }
        // The leaf is the one at the left end.
        ensures leaf { IfOk result (λ spine. expression_of spine.leaf.now ≡ leaf_of (expression_of expr.now)) }
        // The leaf has no part at its own left end.
        ensures is_leaf { IfOk result (λ spine. IsLeaf (expression_of spine.leaf.now)) }
    {
        match expr {
            Expr::Prim { .. } | Expr::If { .. } => match self.spares.pop() {
                Some(room) => left_spine_in(room, expr),
                None => left_spine_in(Vec::new(self.alloc), expr),
            },
            _ => Ok(Spine {
                parents: Vec::new(self.alloc),
                leaf: expr,
            }),
        }
    }

    /// Keeps the room of parents that aren't needed any more, if there is any.
    #[inline(always)]
    pub fn keep(&mut self, parents: Vec<&'a Expr>) {
        if parents.capacity() > 0 {
            // Without room for it the vector is let go.
            let _ = self.spares.push(parents);
        }
    }
}
