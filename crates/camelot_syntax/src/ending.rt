//! Steps behind a whole expression.

ghost use Rattle.std.specs.Prelude.{◌≡◌, ◌∷◌, MatchResult};
ghost use Rattle.camelot_syntax.specs.declared.state.Halt.TheVariants.{Memory};
ghost use Rattle.camelot_tree.specs.Tree.{expression_of, arms, Match};
ghost use Rattle.camelot_grammar.specs.Machine.{close, close_in, unwind, with_arm, Body, Paren, Args, LetValue, IfCond, IfThen, MatchOn, ArmBody};
ghost use Rattle.camelot_syntax.specs.States.{Does, seen, stack_of, fun_draft_of, spot_of, expressions_of, matching_of, arm_head_of, frame_of, unwound_of, Encloses};

use crate::operand::{if_tree, let_tree};
use crate::parser::Parser;
use crate::state::{
    ArmHead, ArmState, Enclosed, ExprState, Frame, FunDraft, Halt, Matching, Operand, Outer, Spot,
    State,
};
use crate::units::push_tree;
use crate::words::TokenView;
use camelot_grammar::Mark;
use camelot_tree::{Arm, Build, Expr, FunDecl, Name};
use std::alloc::Global;

// The match with one more arm.
#[tactic(auto, using(std::proofs::lemmas::List::map_push))]
fn with_arm(
    mut matching: Box<Matching>,
    head: Box<ArmHead>,
    body: Box<Expr>,
) -> Result<Box<Matching>, Halt>
    ensures { MatchResult result
        (λ more. matching_of more.value ≡ with_arm (matching_of matching.value) (arm_head_of head.value) (expression_of body.value)) (λ halt. halt ≡ Memory) }
{
    let ArmHead { con, fields, cell } = Box::into_inner(head);
    let body = Box::into_inner(body);
    matching.arms.push(Arm {
        con,
        fields,
        cell,
        body,
    })?;
    Ok(matching)
}

// The whole match.
fn whole_match(alloc: Global, matching: Box<Matching>) -> Result<Box<Expr>, Halt>
    ensures { MatchResult result
        (λ tree. expression_of tree.value
        ≡ Match (matching_of matching.value).on (arms (matching_of matching.value).arms) matching.value.line)
        (λ halt. halt ≡ Memory) }
{
    let Matching {
        level: _,
        line,
        on,
        mut arms,
    } = Box::into_inner(matching);
    arms.shrink_to_fit();
    Ok(Box::new(alloc, Expr::Match { line, on, arms })?)
}

// The `let` or `if` that ends with this expression, or else the frame that goes on behind it.
#[tactic(auto, using(crate::proofs::StackLemmas::stack_push))]
fn enclose(alloc: Global, frame: Frame, tree: Box<Expr>) -> Result<Enclosed, Halt>
    ensures { MatchResult result (λ found. Encloses (frame_of frame) (expression_of tree.value) found) (λ halt. halt ≡ Memory) }
{
    match frame {
        Frame::LetBody { name, value } => {
            Ok(Enclosed::Whole(let_tree(alloc, name, value, tree)?))
        }
        Frame::IfElse { line, cond, yes } => {
            Ok(Enclosed::Whole(if_tree(alloc, cond, yes, tree, line)?))
        }
        frame => Ok(Enclosed::Outer(Outer { frame, tree })),
    }
}

impl Parser {
    // Behind the body of a function.
    #[tactic(auto, unfolding(camelot_grammar::specs::Machine::close_in), using(std::proofs::lemmas::List::map_push))]
    fn close_body(
        &mut self,
        draft: Box<FunDraft>,
        tree: Box<Expr>,
        lexeme: &TokenView<'_>,
    ) -> Result<(), Halt>
        ensures { Does (close_in (Body (fun_draft_of draft.value) draft.value.result) (expression_of tree.value)
            (seen lexeme.now) (stack_of self.old.stack.items)) self.new result }
    {
        let FunDraft {
            before: mut decls,
            name,
            mut params,
            result,
        } = Box::into_inner(draft);
        params.shrink_to_fit();
        let body = Box::into_inner(tree);
        decls.funs.push(FunDecl {
            name,
            params,
            result,
            body,
        })?;
        self.top(decls, lexeme)
    }

    // Behind an expression in parentheses.
    #[tactic(auto, unfolding(camelot_grammar::specs::Machine::close_in))]
    fn close_paren(
        &mut self,
        spot: Box<Spot>,
        line: u32,
        tree: Box<Expr>,
        lexeme: &TokenView<'_>,
    ) -> Result<(), Halt>
        ensures { Does (close_in (Paren (spot_of spot.value) line) (expression_of tree.value) (seen lexeme.now)
            (stack_of self.old.stack.items)) self.new result }
    {
        match *lexeme {
            TokenView::Mark {
                mark: Mark::Close,
                ..
            } => self.take_unit(spot, Operand { tree, line }),
            _ => Err(Halt::Stuck),
        }
    }

    // Behind an argument of a constructor.
    #[tactic(auto, unfolding(camelot_grammar::specs::Machine::close_in), using(crate::proofs::StackLemmas::stack_push))]
    fn close_args(
        &mut self,
        spot: Box<Spot>,
        mut build: Box<Build>,
        tree: Box<Expr>,
        lexeme: &TokenView<'_>,
    ) -> Result<(), Halt>
        ensures { Does (close_in (Args (spot_of spot.value) build.value.con (expressions_of build.value.args.items))
            (expression_of tree.value) (seen lexeme.now) (stack_of self.old.stack.items)) self.new result }
    {
        let level = spot.level;
        push_tree(&mut build.args, tree)?;
        match *lexeme {
            TokenView::Mark {
                mark: Mark::Comma,
                ..
            } => {
                self.stack.push(Frame::Args { spot, build })?;
                self.go(level, State::InExpr(ExprState::Want(level)))
            }
            TokenView::Mark {
                mark: Mark::Close,
                ..
            } => self.go(level, State::InExpr(ExprState::Full(spot, build))),
            _ => Err(Halt::Stuck),
        }
    }

    // Behind the value of a `let`.
    #[tactic(auto, unfolding(camelot_grammar::specs::Machine::close_in), using(crate::proofs::StackLemmas::stack_push))]
    fn close_value(
        &mut self,
        level: u32,
        name: Box<Name>,
        value: Box<Expr>,
        lexeme: &TokenView<'_>,
    ) -> Result<(), Halt>
        ensures { Does (close_in (LetValue level name.value) (expression_of value.value) (seen lexeme.now) (stack_of self.old.stack.items)) self.new result }
    {
        match *lexeme {
            TokenView::Mark { mark: Mark::In, .. } => {
                self.stack.push(Frame::LetBody { name, value })?;
                self.go(level, State::InExpr(ExprState::Want(level)))
            }
            _ => Err(Halt::Stuck),
        }
    }

    // Behind the condition of an `if`.
    #[tactic(auto, unfolding(camelot_grammar::specs::Machine::close_in), using(crate::proofs::StackLemmas::stack_push))]
    fn close_cond(
        &mut self,
        level: u32,
        line: u32,
        cond: Box<Expr>,
        lexeme: &TokenView<'_>,
    ) -> Result<(), Halt>
        ensures { Does (close_in (IfCond level line) (expression_of cond.value) (seen lexeme.now) (stack_of self.old.stack.items)) self.new result }
    {
        match *lexeme {
            TokenView::Mark {
                mark: Mark::Then,
                ..
            } => {
                self.stack.push(Frame::IfThen { level, line, cond })?;
                self.go(level, State::InExpr(ExprState::Want(level)))
            }
            _ => Err(Halt::Stuck),
        }
    }

    // Behind the first branch of an `if`.
    #[tactic(auto, unfolding(camelot_grammar::specs::Machine::close_in), using(crate::proofs::StackLemmas::stack_push))]
    fn close_then(
        &mut self,
        level: u32,
        line: u32,
        cond: Box<Expr>,
        yes: Box<Expr>,
        lexeme: &TokenView<'_>,
    ) -> Result<(), Halt>
        ensures { Does (close_in (IfThen level line (expression_of cond.value)) (expression_of yes.value)
            (seen lexeme.now) (stack_of self.old.stack.items)) self.new result }
    {
        match *lexeme {
            TokenView::Mark {
                mark: Mark::Else,
                ..
            } => {
                self.stack.push(Frame::IfElse { line, cond, yes })?;
                self.go(level, State::InExpr(ExprState::Want(level)))
            }
            _ => Err(Halt::Stuck),
        }
    }

    // Behind what is matched.
    #[tactic(auto, unfolding(camelot_grammar::specs::Machine::close_in))]
    fn close_scrutinee(
        &mut self,
        level: u32,
        line: u32,
        on: Box<Expr>,
        lexeme: &TokenView<'_>,
    ) -> Result<(), Halt>
        ensures { Does (close_in (MatchOn level line) (expression_of on.value) (seen lexeme.now) (stack_of self.old.stack.items)) self.new result }
    {
        match *lexeme {
            TokenView::Mark {
                mark: Mark::With,
                ..
            } => {
                let matching = Matching {
                    level,
                    line,
                    on,
                    arms: Vec::new(self.alloc),
                };
                let matching = Box::new(self.alloc, matching)?;
                self.go(level, State::InArm(ArmState::FirstArm(matching)))
            }
            _ => Err(Halt::Stuck),
        }
    }

    // Behind the body of an arm.
    #[tactic(auto, unfolding(camelot_grammar::specs::Machine::close_in))]
    fn close_arm(
        &mut self,
        matching: Box<Matching>,
        head: Box<ArmHead>,
        body: Box<Expr>,
        lexeme: &TokenView<'_>,
    ) -> Result<(), Halt>
        ensures { Does (close_in (ArmBody (matching_of matching.value) (arm_head_of head.value))
            (expression_of body.value) (seen lexeme.now) (stack_of self.old.stack.items)) self.new result }
    {
        let level = matching.level;
        match *lexeme {
            TokenView::Mark {
                mark: Mark::Bar,
                ..
            } => {
                let matching = with_arm(matching, head, body)?;
                self.go(level, State::InArm(ArmState::WantArm(matching)))
            }
            TokenView::Mark {
                mark: Mark::End,
                ..
            } => {
                let matching = with_arm(matching, head, body)?;
                let tree = whole_match(self.alloc, matching)?;
                self.go(level, State::InExpr(ExprState::Whole(tree)))
            }
            _ => Err(Halt::Stuck),
        }
    }

    // Behind an expression that this frame goes on with.
    #[tactic(auto, using(crate::proofs::StackLemmas::let_stuck, crate::proofs::StackLemmas::else_stuck))]
    fn close_in(&mut self, outer: Outer, lexeme: &TokenView<'_>) -> Result<(), Halt>
        ensures { Does (close_in (frame_of outer.frame) (expression_of outer.tree.value) (seen lexeme.now) (stack_of self.old.stack.items)) self.new result }
    {
        let tree = outer.tree;
        match outer.frame {
            Frame::Body { draft } => self.close_body(draft, tree, lexeme),
            Frame::Paren { spot, line } => self.close_paren(spot, line, tree, lexeme),
            Frame::Args { spot, build } => self.close_args(spot, build, tree, lexeme),
            Frame::LetValue { level, name } => self.close_value(level, name, tree, lexeme),
            Frame::IfCond { level, line } => self.close_cond(level, line, tree, lexeme),
            Frame::IfThen { level, line, cond } => {
                self.close_then(level, line, cond, tree, lexeme)
            }
            Frame::MatchOn { level, line } => self.close_scrutinee(level, line, tree, lexeme),
            Frame::ArmBody { matching, head } => self.close_arm(matching, head, tree, lexeme),
            Frame::LetBody { .. } => Err(Halt::Stuck),
            Frame::IfElse { .. } => Err(Halt::Stuck),
        }
    }

    // Ends each `let` and `if` that ends with this expression, up to what goes on behind it.
    #[tactic(auto, unfolding(camelot_grammar::specs::Machine::unwind), using(crate::proofs::StackLemmas::stack_push, crate::proofs::StackLemmas::unwind_none))]
    fn unwind(&mut self, mut tree: Box<Expr>) -> Result<Option<Outer>, Halt>
        ensures { MatchResult result
            (λ outer. unwind (stack_of self.old.stack.items) (expression_of tree.value)
            ≡ unwound_of outer (stack_of self.new.stack.items)) (λ halt. halt ≡ Memory) }
    {
        'frames: while let Some(frame) = self.stack.pop() {
            match enclose(self.alloc, frame, tree)? {
                Enclosed::Whole(whole) => tree = whole,
                Enclosed::Outer(outer) => return Ok(Some(outer)),
            }
        }
        Ok(None)
    }

    /// Behind a whole expression.
    #[tactic(auto, unfolding(camelot_grammar::specs::Machine::close))]
    pub fn close(&mut self, tree: Box<Expr>, lexeme: &TokenView<'_>) -> Result<(), Halt>
        ensures { Does (close (stack_of self.old.stack.items) (expression_of tree.value) (seen lexeme.now)) self.new result }
    {
        match self.unwind(tree)? {
            Some(outer) => self.close_in(outer, lexeme),
            None => Err(Halt::Stuck),
        }
    }
}
