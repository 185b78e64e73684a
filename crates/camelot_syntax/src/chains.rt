//! Steps behind an operand: an operator ends the chains of higher ranks.

ghost use Rattle.std.specs.Prelude.{◌≡◌, [], None};
ghost use Rattle.camelot_tree.specs.Tree.{operator_of};
ghost use Rattle.camelot_grammar.specs.Program.{Prim};
ghost use Rattle.camelot_grammar.specs.Machine.{after_and, after_cmp, after_sum, after_prod, after_pre, after_operand, compares, adds, multiplies, sum_level, Goes, InExpr, WantPre};
ghost use Rattle.camelot_syntax.specs.States.{Does, seen, stack_of, some_left, operand_of, joint_of, lefts_of, slot_of};

use crate::operand::{behind, finish, negate_all, within};
use crate::parser::Parser;
use crate::state::{ExprState, Halt, Joint, Left, Lefts, Operand, Spot, State};
use crate::words::TokenView;
use camelot_grammar::Mark;
use camelot_tree::PrimOp;

// The level of the next sign in a sum.
#[inline]
fn sum_level(lefts: &Lefts) -> u32
    ensures { result ≡ sum_level lefts.now.around (some_left lefts.now.ors) (some_left lefts.now.ands) (some_left lefts.now.cmp) (some_left lefts.now.sum) }
{
    let outer = within(&lefts.ands, within(&lefts.ors, lefts.around));
    within(&lefts.sum, within(&lefts.cmp, outer))
}

impl Parser {
    // Behind an operator of this level, whose operand is wanted within that one.
    fn next_operand(&mut self, mut spot: Box<Spot>, level: u32, within: u32) -> Result<(), Halt>
        ensures { Does (Goes level (InExpr (WantPre (lefts_of spot.value.lefts) [] within)) (stack_of self.old.stack.items)) self.new result }
    {
        spot.nots.clear();
        spot.level = within;
        spot.call = None;
        self.go(level, State::InExpr(ExprState::Open(spot)))
    }

    // Behind the last operand of a chain of `&&`.
    #[tactic(auto, unfolding(camelot_grammar::specs::Machine::after_and))]
    fn after_and(
        &mut self,
        mut spot: Box<Spot>,
        operand: Operand,
        lexeme: &TokenView<'_>,
    ) -> Result<(), Halt>
        ensures { Does (after_and spot.value.lefts.around (some_left spot.value.lefts.ors) (operand_of operand)
            (seen lexeme.now) (stack_of self.old.stack.items)) self.new result }
    {
        let level = within(&spot.lefts.ors, spot.lefts.around);
        let operand = finish(self.alloc, spot.lefts.ors.take(), operand)?;
        match *lexeme {
            TokenView::Mark {
                mark: Mark::OrOr,
                line,
            } => {
                let within = behind(level)?;
                spot.lefts.ors = Some(Left {
                    operand,
                    joint: Joint::OrElse,
                    line,
                    within,
                });
                spot.lefts.ands = None;
                spot.lefts.cmp = None;
                spot.lefts.sum = None;
                spot.lefts.prod = None;
                self.next_operand(spot, level, within)
            }
            _ => {
                // Without room for it the spot is let go.
                let _ = self.spares.push(spot);
                self.close(operand.tree, lexeme)
            }
        }
    }

    // Behind the last operand of a comparison.
    #[tactic(auto, unfolding(camelot_grammar::specs::Machine::after_cmp))]
    fn after_cmp(
        &mut self,
        mut spot: Box<Spot>,
        operand: Operand,
        lexeme: &TokenView<'_>,
    ) -> Result<(), Halt>
        ensures { Does (after_cmp spot.value.lefts.around (some_left spot.value.lefts.ors)
            (some_left spot.value.lefts.ands) (operand_of operand) (seen lexeme.now)
            (stack_of self.old.stack.items)) self.new result }
    {
        let level = within(&spot.lefts.ands, within(&spot.lefts.ors, spot.lefts.around));
        let operand = finish(self.alloc, spot.lefts.ands.take(), operand)?;
        match *lexeme {
            TokenView::Mark {
                mark: Mark::AndAnd,
                line,
            } => {
                let within = behind(level)?;
                spot.lefts.ands = Some(Left {
                    operand,
                    joint: Joint::AndThen,
                    line,
                    within,
                });
                spot.lefts.cmp = None;
                spot.lefts.sum = None;
                spot.lefts.prod = None;
                self.next_operand(spot, level, within)
            }
            _ => self.after_and(spot, operand, lexeme),
        }
    }

    // At a comparison, behind its first operand.
    fn compare(
        &mut self,
        mut spot: Box<Spot>,
        operand: Operand,
        op: PrimOp,
        line: u32,
    ) -> Result<(), Halt>
        ensures { Does (compares spot.value.lefts.around (some_left spot.value.lefts.ors) (some_left spot.value.lefts.ands) (some_left spot.value.lefts.cmp)
            (operand_of operand) (Prim (operator_of op)) line (stack_of self.old.stack.items)) self.new result }
    {
        if spot.lefts.cmp.is_some() {
            return Err(Halt::Stuck);
        }
        let level = within(&spot.lefts.ands, within(&spot.lefts.ors, spot.lefts.around));
        let within = behind(level)?;
        spot.lefts.cmp = Some(Left {
            operand,
            joint: Joint::Prim(op),
            line,
            within,
        });
        spot.lefts.sum = None;
        spot.lefts.prod = None;
        self.next_operand(spot, level, within)
    }

    // Behind the last operand of a sum.
    #[tactic(auto, unfolding(camelot_grammar::specs::Machine::after_sum))]
    fn after_sum(
        &mut self,
        mut spot: Box<Spot>,
        operand: Operand,
        lexeme: &TokenView<'_>,
    ) -> Result<(), Halt>
        ensures { Does (after_sum spot.value.lefts.around (some_left spot.value.lefts.ors) (some_left spot.value.lefts.ands) (some_left spot.value.lefts.cmp)
            (operand_of operand) (seen lexeme.now) (stack_of self.old.stack.items)) self.new result }
    {
        match *lexeme {
            TokenView::Mark {
                mark: Mark::Equal,
                line,
            } => self.compare(spot, operand, PrimOp::Eq, line),
            TokenView::Mark {
                mark: Mark::Diamond,
                line,
            } => self.compare(spot, operand, PrimOp::Ne, line),
            TokenView::Mark {
                mark: Mark::Less,
                line,
            } => self.compare(spot, operand, PrimOp::Lt, line),
            TokenView::Mark {
                mark: Mark::LessEqual,
                line,
            } => self.compare(spot, operand, PrimOp::Le, line),
            TokenView::Mark {
                mark: Mark::Greater,
                line,
            } => self.compare(spot, operand, PrimOp::Gt, line),
            TokenView::Mark {
                mark: Mark::GreaterEqual,
                line,
            } => self.compare(spot, operand, PrimOp::Ge, line),
            _ => {
                let whole = finish(self.alloc, spot.lefts.cmp.take(), operand)?;
                self.after_cmp(spot, whole, lexeme)
            }
        }
    }

    // At a sign, behind the first operand of a sum.
    fn add(
        &mut self,
        mut spot: Box<Spot>,
        operand: Operand,
        op: PrimOp,
        line: u32,
    ) -> Result<(), Halt>
        ensures { Does (adds spot.value.lefts.around (some_left spot.value.lefts.ors)
            (some_left spot.value.lefts.ands) (some_left spot.value.lefts.cmp) (some_left spot.value.lefts.sum)
            (operand_of operand) (Prim (operator_of op)) line (stack_of self.old.stack.items)) self.new result }
    {
        let level = sum_level(&spot.lefts);
        let operand = finish(self.alloc, spot.lefts.sum.take(), operand)?;
        let within = behind(level)?;
        spot.lefts.sum = Some(Left {
            operand,
            joint: Joint::Prim(op),
            line,
            within,
        });
        spot.lefts.prod = None;
        self.next_operand(spot, level, within)
    }

    // Behind the last operand of a product.
    #[tactic(auto, unfolding(camelot_grammar::specs::Machine::after_prod))]
    fn after_prod(
        &mut self,
        mut spot: Box<Spot>,
        operand: Operand,
        lexeme: &TokenView<'_>,
    ) -> Result<(), Halt>
        ensures { Does (after_prod spot.value.lefts.around (some_left spot.value.lefts.ors)
            (some_left spot.value.lefts.ands) (some_left spot.value.lefts.cmp) (some_left spot.value.lefts.sum)
            (operand_of operand) (seen lexeme.now) (stack_of self.old.stack.items)) self.new result }
    {
        match *lexeme {
            TokenView::Mark {
                mark: Mark::Plus,
                line,
            } => self.add(spot, operand, PrimOp::Add, line),
            TokenView::Mark {
                mark: Mark::Minus,
                line,
            } => self.add(spot, operand, PrimOp::Sub, line),
            _ => {
                let whole = finish(self.alloc, spot.lefts.sum.take(), operand)?;
                self.after_sum(spot, whole, lexeme)
            }
        }
    }

    // At an operator of a product, behind its first operand.
    fn multiply(
        &mut self,
        mut spot: Box<Spot>,
        operand: Operand,
        op: PrimOp,
        line: u32,
    ) -> Result<(), Halt>
        ensures { Does (multiplies (lefts_of spot.value.lefts) (operand_of operand) (Prim (operator_of op)) line
            (stack_of self.old.stack.items)) self.new result }
    {
        let level = within(&spot.lefts.prod, sum_level(&spot.lefts));
        let operand = finish(self.alloc, spot.lefts.prod.take(), operand)?;
        let within = behind(level)?;
        spot.lefts.prod = Some(Left {
            operand,
            joint: Joint::Prim(op),
            line,
            within,
        });
        self.next_operand(spot, level, within)
    }

    // Behind an operand, its `not`s included.
    #[tactic(auto, unfolding(camelot_grammar::specs::Machine::after_pre))]
    fn after_pre(
        &mut self,
        mut spot: Box<Spot>,
        operand: Operand,
        lexeme: &TokenView<'_>,
    ) -> Result<(), Halt>
        ensures { Does (after_pre (lefts_of spot.value.lefts) (operand_of operand) (seen lexeme.now) (stack_of self.old.stack.items)) self.new result }
    {
        match *lexeme {
            TokenView::Mark {
                mark: Mark::Star,
                line,
            } => self.multiply(spot, operand, PrimOp::Mul, line),
            TokenView::Mark {
                mark: Mark::Slash,
                line,
            } => self.multiply(spot, operand, PrimOp::Div, line),
            TokenView::Mark {
                mark: Mark::Mod,
                line,
            } => self.multiply(spot, operand, PrimOp::Mod, line),
            _ => {
                let whole = finish(self.alloc, spot.lefts.prod.take(), operand)?;
                self.after_prod(spot, whole, lexeme)
            }
        }
    }

    /// Behind an operand.
    #[tactic(auto, unfolding(camelot_grammar::specs::Machine::after_operand))]
    pub fn after_operand(
        &mut self,
        mut spot: Box<Spot>,
        operand: Operand,
        lexeme: &TokenView<'_>,
    ) -> Result<(), Halt>
        ensures { Does (after_operand (slot_of spot.value) (operand_of operand) (seen lexeme.now) (stack_of self.old.stack.items)) self.new result }
    {
        let operand = negate_all(self.alloc, &mut spot.nots, operand)?;
        self.after_pre(spot, operand, lexeme)
    }
}
