//! Steps at and behind a unit.

ghost use Rattle.std.specs.Prelude.{◌≡◌, ◌<◌, ◌≤◌, ◌++◌, ◌∷◌, [], Some, None, IfOk, IfErr, OnOk, MatchResult, pos, ◌-ℤ◌};
ghost use Rattle.camelot_syntax.specs.declared.state.Halt.TheVariants.{Memory};
ghost use Rattle.camelot_tree.specs.Tree.{expression_of, Num};
ghost use Rattle.camelot_grammar.specs.Machine.{unit_done, unit_step, argument_step, applied_step, after_unit, con_unit_step, full_step, placed_step, built, applied_operand, begins_unit, begins_argument, Goes, InExpr};
ghost use Rattle.camelot_syntax.specs.States.{Does, seen, IsSmall, stack_of, expressions_of, operand_of, slot_of, spot_of, expr_of};

use crate::operand::leaf;
use crate::parser::Parser;
use crate::state::{Callee, ExprState, Frame, Halt, Operand, Spot, State};
use crate::words::{TokenView, to_name};
use camelot_grammar::Mark;
use camelot_tree::{Build, Call, Expr, Name};
use std::alloc::Global;

// Whether a unit that isn't a name begins with this token.
fn begins_unit(lexeme: &TokenView<'_>) -> bool
    ensures { result ≡ begins_unit (seen lexeme.now) }
{
    match *lexeme {
        TokenView::Number { .. } | TokenView::Upper { .. } => true,
        TokenView::Mark { mark, .. } => { matches!(mark, Mark::True | Mark::False | Mark::Open) }
        _ => false,
    }
}

/// Whether an argument of a call begins with this token.
pub fn begins_argument(lexeme: &TokenView<'_>) -> bool
    ensures { result ≡ begins_argument (seen lexeme.now) }
{
    match *lexeme {
        TokenView::Lower { .. } => true,
        _ => begins_unit(lexeme),
    }
}

// The literal of a number token.
fn number(value: u32, line: u32) -> Expr
    requires { value < 2147483648 }
    ensures { expression_of result ≡ Num (pos value) line }
{
    Expr::Num {
        value: value as i32,
        line,
    }
}

/// The literal of a number behind a minus sign.
pub fn negative(value: u32, line: u32) -> Expr
    requires { value ≤ 2147483648 }
    ensures { expression_of result ≡ Num (pos 0 -ℤ pos value) line }
{
    let size = i64::from(value);
    Expr::Num {
        value: (0 - size) as i32,
        line,
    }
}

// The build, in the cell of the diamond `place` where one is named.
fn with_place(mut build: Box<Build>, place: Option<Name>) -> Box<Build>
    ensures con { result.value.con ≡ build.value.con }
    ensures args { result.value.args.items ≡ build.value.args.items }
    ensures place { result.value.place ≡ place }
{
    build.args.shrink_to_fit();
    build.place = place;
    build
}

// The constructor with its arguments, in the cell of the diamond `place` where one is named.
#[tactic(auto, using(crate::proofs::StackLemmas::build_is))]
fn built(alloc: Global, build: Box<Build>, place: Option<Name>) -> Result<Operand, Halt>
    ensures { MatchResult result (λ operand. operand_of operand ≡ built build.value.con (expressions_of build.value.args.items) place) (λ halt. halt ≡ Memory) }
{
    let build = with_place(build, place);
    let line = build.con.line;
    leaf(alloc, Expr::Build(build), line)
}

/// One more of these expressions.
#[tactic(auto, using(std::proofs::lemmas::List::map_push))]
pub fn push_tree(args: &mut Vec<Expr>, tree: Box<Expr>) -> Result<(), Halt>
    ensures ok { OnOk result (expressions_of args.new.items ≡ expressions_of args.old.items ++ expression_of tree.value ∷ []) }
    ensures err { IfErr result (λ halt. halt ≡ Memory) }
{
    // A list of one expression takes no more room than that.
    if args.is_empty() {
        args.reserve_exact(1)?;
    }
    args.push(Box::into_inner(tree))?;
    Ok(())
}

impl Callee {
    // The name with one more unit behind it.
    fn with(mut self, arg: Box<Expr>) -> Result<Callee, Halt>
        ensures name { IfOk result (λ callee. callee.fun ≡ self.fun) }
        ensures units { IfOk result (λ callee. expressions_of callee.args.items ≡ expressions_of self.args.items ++ expression_of arg.value ∷ []) }
        ensures err { IfErr result (λ halt. halt ≡ Memory) }
    {
        push_tree(&mut self.args, arg)?;
        Ok(self)
    }

    // A name alone is a variable; with units behind it, it is a call.
    fn applied(mut self, alloc: Global) -> Result<Operand, Halt>
        ensures { MatchResult result (λ operand. operand_of operand ≡ applied_operand self.fun (expressions_of self.args.items)) (λ halt. halt ≡ Memory) }
    {
        let line = self.fun.line;
        if self.args.is_empty() {
            return leaf(alloc, Expr::Var(self.fun), line);
        }
        self.args.shrink_to_fit();
        let call = Call {
            fun: self.fun,
            args: self.args,
        };
        let call = Box::new(alloc, call)?;
        leaf(alloc, Expr::Call(call), line)
    }
}

impl Parser {
    /// The unit here is read.
    pub fn take_unit(&mut self, mut spot: Box<Spot>, operand: Operand) -> Result<(), Halt>
        ensures { Does (Goes spot.value.level (InExpr (unit_done (spot_of spot.value) (operand_of operand))) (stack_of self.old.stack.items)) self.new result }
    {
        let level = spot.level;
        match spot.call.take() {
            None => self.go(level, State::InExpr(ExprState::Have(spot, operand))),
            Some(callee) => {
                spot.call = Some(callee.with(operand.tree)?);
                self.go(level, State::InExpr(ExprState::Open(spot)))
            }
        }
    }

    // The unit here is this expression of one token.
    fn take_leaf(&mut self, spot: Box<Spot>, tree: Expr, line: u32) -> Result<(), Halt>
        ensures { Does (Goes spot.value.level (InExpr
            (unit_done (spot_of spot.value) (record { expression = expression_of tree; line = line })))
            (stack_of self.old.stack.items)) self.new result }
    {
        let operand = leaf(self.alloc, tree, line)?;
        self.take_unit(spot, operand)
    }

    /// At a unit that isn't a name.
    #[tactic(auto, unfolding(camelot_grammar::specs::Machine::unit_step), using(crate::proofs::StackLemmas::stack_push))]
    pub fn unit(&mut self, spot: Box<Spot>, lexeme: &TokenView<'_>) -> Result<(), Halt>
        requires { IsSmall (seen lexeme.now) }
        ensures { Does (unit_step (spot_of spot.value) (seen lexeme.now) (stack_of self.old.stack.items)) self.new result }
    {
        let level = spot.level;
        match *lexeme {
            TokenView::Number { value, line } => self.take_leaf(spot, number(value, line), line),
            TokenView::Mark {
                mark: Mark::True,
                line,
            } => self.take_leaf(spot, Expr::Truth { value: true, line }, line),
            TokenView::Mark {
                mark: Mark::False,
                line,
            } => self.take_leaf(spot, Expr::Truth { value: false, line }, line),
            TokenView::Upper { word, line } => {
                let con = to_name(self.alloc, word, line)?;
                self.go(level, State::InExpr(ExprState::Con(spot, con)))
            }
            TokenView::Mark {
                mark: Mark::Open,
                line,
            } => {
                self.stack.push(Frame::Paren { spot, line })?;
                self.go(level, State::InExpr(ExprState::Want(level)))
            }
            _ => Err(Halt::Stuck),
        }
    }

    // At one more unit behind a name.
    #[tactic(auto, unfolding(camelot_grammar::specs::Machine::argument_step))]
    fn argument(
        &mut self,
        mut spot: Box<Spot>,
        callee: Callee,
        lexeme: &TokenView<'_>,
    ) -> Result<(), Halt>
        requires { IsSmall (seen lexeme.now) }
        ensures { Does (argument_step (slot_of spot.value) callee.fun (expressions_of callee.args.items)
            (seen lexeme.now) (stack_of self.old.stack.items)) self.new result }
    {
        spot.call = Some(callee);
        match *lexeme {
            TokenView::Lower { word, line } => {
                let name = to_name(self.alloc, word, line)?;
                self.take_leaf(spot, Expr::Var(name), line)
            }
            _ => self.unit(spot, lexeme),
        }
    }

    /// Behind a name and the units behind it so far.
    #[tactic(auto, unfolding(camelot_grammar::specs::Machine::applied_step))]
    pub fn applied(
        &mut self,
        spot: Box<Spot>,
        callee: Callee,
        lexeme: &TokenView<'_>,
    ) -> Result<(), Halt>
        requires { IsSmall (seen lexeme.now) }
        ensures { Does (applied_step (slot_of spot.value) callee.fun (expressions_of callee.args.items)
            (seen lexeme.now) (stack_of self.old.stack.items)) self.new result }
    {
        if begins_argument(&lexeme) {
            self.argument(spot, callee, lexeme)
        } else {
            let operand = callee.applied(self.alloc)?;
            self.after_operand(spot, operand, lexeme)
        }
    }

    // Behind a unit.
    #[tactic(auto, unfolding(camelot_grammar::specs::Machine::after_unit))]
    fn after_unit(
        &mut self,
        mut spot: Box<Spot>,
        operand: Operand,
        lexeme: &TokenView<'_>,
    ) -> Result<(), Halt>
        requires { IsSmall (seen lexeme.now) }
        ensures { Does (after_unit (spot_of spot.value) (operand_of operand) (seen lexeme.now) (stack_of self.old.stack.items)) self.new result }
    {
        match spot.call.take() {
            None => self.after_operand(spot, operand, lexeme),
            Some(callee) => {
                let callee = callee.with(operand.tree)?;
                self.applied(spot, callee, lexeme)
            }
        }
    }

    /// Behind a constructor's name.
    #[tactic(auto, unfolding(camelot_grammar::specs::Machine::con_unit_step), using(crate::proofs::StackLemmas::stack_push))]
    pub fn con(&mut self, spot: Box<Spot>, con: Name, lexeme: &TokenView<'_>) -> Result<(), Halt>
        requires { IsSmall (seen lexeme.now) }
        ensures { Does (con_unit_step (spot_of spot.value) con (seen lexeme.now) (stack_of self.old.stack.items)) self.new result }
    {
        let level = spot.level;
        let build = Build {
            con,
            args: Vec::new(self.alloc),
            place: None,
        };
        let build = Box::new(self.alloc, build)?;
        match *lexeme {
            TokenView::Mark {
                mark: Mark::Open,
                ..
            } => {
                self.stack.push(Frame::Args { spot, build })?;
                self.go(level, State::InExpr(ExprState::Want(level)))
            }
            TokenView::Mark { mark: Mark::At, .. } => {
                self.go(level, State::InExpr(ExprState::Placed(spot, build)))
            }
            _ => {
                let operand = built(self.alloc, build, None)?;
                self.after_unit(spot, operand, lexeme)
            }
        }
    }

    /// Behind a constructor's arguments.
    #[tactic(auto, unfolding(camelot_grammar::specs::Machine::full_step))]
    pub fn full(
        &mut self,
        spot: Box<Spot>,
        build: Box<Build>,
        lexeme: &TokenView<'_>,
    ) -> Result<(), Halt>
        requires { IsSmall (seen lexeme.now) }
        ensures { Does (full_step (spot_of spot.value) build.value.con (expressions_of build.value.args.items)
            (seen lexeme.now) (stack_of self.old.stack.items)) self.new result }
    {
        match *lexeme {
            TokenView::Mark { mark: Mark::At, .. } => {
                let level = spot.level;
                self.go(level, State::InExpr(ExprState::Placed(spot, build)))
            }
            _ => {
                let operand = built(self.alloc, build, None)?;
                self.after_unit(spot, operand, lexeme)
            }
        }
    }

    /// Behind the `@` of a build.
    #[tactic(auto, unfolding(camelot_grammar::specs::Machine::placed_step))]
    pub fn placed(
        &mut self,
        spot: Box<Spot>,
        build: Box<Build>,
        lexeme: &TokenView<'_>,
    ) -> Result<(), Halt>
        ensures { Does (placed_step (spot_of spot.value) build.value.con (expressions_of build.value.args.items)
            (seen lexeme.now) (stack_of self.old.stack.items)) self.new result }
    {
        match *lexeme {
            TokenView::Lower { word, line } => {
                let diamond = to_name(self.alloc, word, line)?;
                let operand = built(self.alloc, build, Some(diamond))?;
                self.take_unit(spot, operand)
            }
            _ => Err(Halt::Stuck),
        }
    }
}
