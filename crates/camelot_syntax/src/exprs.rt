//! Steps at the beginning of an expression, and the choice of a step in expressions.

ghost use Rattle.std.specs.Prelude.{◌≡◌, ◌∷◌, [], suc, None, MatchResult};
ghost use Rattle.camelot_syntax.specs.declared.state.Halt.TheVariants.{Memory};
ghost use Rattle.camelot_grammar.specs.Machine.{Goes, InExpr, WantPre, slot_step, pre_step, want_step, negative_step, let_step, expr_step, lefts, begins_pre, LetName, LetEquals};
ghost use Rattle.camelot_syntax.specs.States.{Does, seen, IsSmall, stack_of, slot_of, lefts_of, nots_of, expr_of, open_as};

use crate::operand::{deeper, leaf};
use crate::parser::Parser;
use crate::state::{Callee, ExprState, Frame, Halt, Lefts, Spot, State};
use crate::units::{begins_argument, negative};
use crate::words::{TokenView, to_name};
use camelot_grammar::Mark;
use camelot_tree::Name;

// Whether an operand begins with this token.
fn begins_pre(lexeme: &TokenView<'_>) -> bool
    ensures { result ≡ begins_pre (seen lexeme.now) }
{
    match *lexeme {
        TokenView::Mark {
            mark: Mark::Not | Mark::Minus,
            ..
        } => true,
        _ => begins_argument(lexeme),
    }
}

impl Parser {
    // The place of the first operand of an expression whose tokens have this level.
    fn fresh_spot(&mut self, around: u32) -> Result<Box<Spot>, Halt>
        ensures spot { MatchResult result
            (λ spot. slot_of spot.value ≡ record { lefts = lefts around None None None None None; nots = []; level = around }) (λ halt. halt ≡ Memory) }
        ensures stack { self.new.stack ≡ self.old.stack }
    {
        match self.spares.pop() {
            Some(mut spot) => {
                spot.lefts.around = around;
                spot.lefts.ors = None;
                spot.lefts.ands = None;
                spot.lefts.cmp = None;
                spot.lefts.sum = None;
                spot.lefts.prod = None;
                spot.nots.clear();
                spot.level = around;
                spot.call = None;
                Ok(spot)
            }
            None => {
                let lefts = Lefts {
                    around,
                    ors: None,
                    ands: None,
                    cmp: None,
                    sum: None,
                    prod: None,
                };
                let nots = Vec::new(self.alloc);
                let spot = Spot {
                    lefts,
                    nots,
                    level: around,
                    call: None,
                };
                Ok(Box::new(self.alloc, spot)?)
            }
        }
    }

    // At a `not` before an operand.
    #[tactic(auto, using(crate::proofs::StackLemmas::nots_push))]
    fn not(&mut self, mut spot: Box<Spot>, line: u32) -> Result<(), Halt>
        ensures { Does (Goes spot.value.level (InExpr (WantPre (lefts_of spot.value.lefts) (line ∷ nots_of spot.value.nots.items) spot.value.level))
            (stack_of self.old.stack.items)) self.new result }
    {
        let level = spot.level;
        spot.nots.push(line)?;
        spot.call = None;
        self.go(level, State::InExpr(ExprState::Open(spot)))
    }

    // At the first token of an operand.
    #[tactic(auto, unfolding(camelot_grammar::specs::Machine::slot_step))]
    fn slot(&mut self, mut spot: Box<Spot>, lexeme: &TokenView<'_>) -> Result<(), Halt>
        requires { IsSmall (seen lexeme.now) }
        ensures { Does (slot_step (slot_of spot.value) (seen lexeme.now) (stack_of self.old.stack.items)) self.new result }
    {
        let level = spot.level;
        match *lexeme {
            TokenView::Mark {
                mark: Mark::Not,
                line,
            } => self.not(spot, line),
            TokenView::Mark {
                mark: Mark::Minus,
                line,
            } => self.go(level, State::InExpr(ExprState::Negative(spot, line))),
            TokenView::Lower { word, line } => {
                let fun = to_name(self.alloc, word, line)?;
                let args = Vec::new(self.alloc);
                spot.call = Some(Callee { fun, args });
                self.go(level, State::InExpr(ExprState::Open(spot)))
            }
            _ => {
                spot.call = None;
                self.unit(spot, lexeme)
            }
        }
    }

    // Where an operand begins, within the level of the place.
    #[tactic(auto, unfolding(camelot_grammar::specs::Machine::pre_step), using(crate::proofs::LevelLemmas::pre_too_deep))]
    fn want_pre(&mut self, mut spot: Box<Spot>, lexeme: &TokenView<'_>) -> Result<(), Halt>
        requires { IsSmall (seen lexeme.now) }
        ensures { Does (pre_step (lefts_of spot.value.lefts) (nots_of spot.value.nots.items) spot.value.level
            (seen lexeme.now) (stack_of self.old.stack.items)) self.new result }
    {
        if !begins_pre(lexeme) {
            return Err(Halt::Stuck);
        }
        match deeper(spot.level) {
            Ok(level) => {
                spot.level = level;
                self.slot(spot, lexeme)
            }
            Err(halt) => Err(halt),
        }
    }

    // Where an expression begins with an operand.
    #[tactic(auto, unfolding(camelot_grammar::specs::Machine::pre_step), using(crate::proofs::LevelLemmas::begin_too_deep))]
    fn begin(&mut self, around: u32, lexeme: &TokenView<'_>) -> Result<(), Halt>
        requires { IsSmall (seen lexeme.now) }
        ensures { Does (pre_step (lefts (suc around) None None None None None) [] (suc around) (seen lexeme.now)
            (stack_of self.old.stack.items)) self.new result }
    {
        if !begins_pre(lexeme) {
            return Err(Halt::Stuck);
        }
        let around = deeper(around)?;
        let spot = self.fresh_spot(around)?;
        self.want_pre(spot, lexeme)
    }

    // Where an operand is wanted, or behind a name and the units behind it so far.
    #[tactic(auto, unfolding(camelot_grammar::specs::Machine::expr_step))]
    fn open(&mut self, mut spot: Box<Spot>, lexeme: &TokenView<'_>) -> Result<(), Halt>
        requires { IsSmall (seen lexeme.now) }
        ensures { Does (expr_step (open_as spot.value.call (slot_of spot.value)) (seen lexeme.now) (stack_of self.old.stack.items)) self.new result }
    {
        match spot.call.take() {
            None => self.want_pre(spot, lexeme),
            Some(callee) => self.applied(spot, callee, lexeme),
        }
    }

    // Where an expression begins.
    #[tactic(auto, unfolding(camelot_grammar::specs::Machine::want_step), using(crate::proofs::StackLemmas::stack_push))]
    fn want(&mut self, around: u32, lexeme: &TokenView<'_>) -> Result<(), Halt>
        requires { IsSmall (seen lexeme.now) }
        ensures { Does (want_step around (seen lexeme.now) (stack_of self.old.stack.items)) self.new result }
    {
        match *lexeme {
            TokenView::Mark {
                mark: Mark::Let,
                ..
            } => {
                let level = deeper(around)?;
                self.go(level, State::InExpr(ExprState::LetName(level)))
            }
            TokenView::Mark {
                mark: Mark::If,
                line,
            } => {
                let level = deeper(around)?;
                self.stack.push(Frame::IfCond { level, line })?;
                self.go(level, State::InExpr(ExprState::Want(level)))
            }
            TokenView::Mark {
                mark: Mark::Match,
                line,
            } => {
                let level = deeper(around)?;
                self.stack.push(Frame::MatchOn { level, line })?;
                self.go(level, State::InExpr(ExprState::Want(level)))
            }
            _ => self.begin(around, lexeme),
        }
    }

    // Behind a minus sign before a number.
    #[tactic(auto, unfolding(camelot_grammar::specs::Machine::negative_step))]
    fn minus(&mut self, spot: Box<Spot>, line: u32, lexeme: &TokenView<'_>) -> Result<(), Halt>
        requires { IsSmall (seen lexeme.now) }
        ensures { Does (negative_step (slot_of spot.value) line (seen lexeme.now) (stack_of self.old.stack.items)) self.new result }
    {
        let level = spot.level;
        let tree = match *lexeme {
            TokenView::Number { value, .. } => negative(value, line),
            TokenView::Greatest { .. } => negative(2_147_483_648, line),
            _ => return Err(Halt::Stuck),
        };
        let operand = leaf(self.alloc, tree, line)?;
        self.go(level, State::InExpr(ExprState::Have(spot, operand)))
    }

    // Behind the `let` of an expression.
    #[tactic(auto, unfolding(camelot_grammar::specs::Machine::let_step))]
    fn let_name(&mut self, level: u32, lexeme: &TokenView<'_>) -> Result<(), Halt>
        ensures { Does (let_step (LetName level) (seen lexeme.now) (stack_of self.old.stack.items)) self.new result }
    {
        match *lexeme {
            TokenView::Lower { word, line } => {
                let name = to_name(self.alloc, word, line)?;
                let name = Box::new(self.alloc, name)?;
                self.go(level, State::InExpr(ExprState::LetEquals(level, name)))
            }
            _ => Err(Halt::Stuck),
        }
    }

    // Behind the name that a `let` binds.
    #[tactic(auto, unfolding(camelot_grammar::specs::Machine::let_step), using(crate::proofs::StackLemmas::stack_push))]
    fn let_equals(
        &mut self,
        level: u32,
        name: Box<Name>,
        lexeme: &TokenView<'_>,
    ) -> Result<(), Halt>
        ensures { Does (let_step (LetEquals level name.value) (seen lexeme.now) (stack_of self.old.stack.items)) self.new result }
    {
        match *lexeme {
            TokenView::Mark {
                mark: Mark::Equal,
                ..
            } => {
                self.stack.push(Frame::LetValue { level, name })?;
                self.go(level, State::InExpr(ExprState::Want(level)))
            }
            _ => Err(Halt::Stuck),
        }
    }

    /// One token of an expression.
    #[tactic(auto, unfolding(camelot_grammar::specs::Machine::expr_step))]
    pub fn expr(&mut self, state: ExprState, lexeme: &TokenView<'_>) -> Result<(), Halt>
        requires { IsSmall (seen lexeme.now) }
        ensures { Does (expr_step (expr_of state) (seen lexeme.now) (stack_of self.old.stack.items)) self.new result }
    {
        match state {
            ExprState::Want(around) => self.want(around, lexeme),
            ExprState::LetName(level) => self.let_name(level, lexeme),
            ExprState::LetEquals(level, name) => self.let_equals(level, name, lexeme),
            ExprState::Open(spot) => self.open(spot, lexeme),
            ExprState::Negative(spot, line) => self.minus(spot, line, lexeme),
            ExprState::Have(spot, operand) => self.after_operand(spot, operand, lexeme),
            ExprState::Con(spot, con) => self.con(spot, con, lexeme),
            ExprState::Full(spot, build) => self.full(spot, build, lexeme),
            ExprState::Placed(spot, build) => self.placed(spot, build, lexeme),
            ExprState::Whole(tree) => self.close(tree, lexeme),
        }
    }
}
