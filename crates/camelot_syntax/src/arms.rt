//! Steps in the head of an arm.

ghost use Rattle.std.specs.Prelude.{[]};
ghost use Rattle.camelot_tree.specs.declared.tree.ArmCell.TheVariants.{Plain};
ghost use Rattle.camelot_grammar.specs.Machine.{arm_name_step, arrow_step, arm_end_step, arm_step, Goes, InArm, FirstArm, WantArm, ArmCon, HaveName, WantCell};
ghost use Rattle.camelot_syntax.specs.States.{Does, seen, stack_of, matching_of, arm_head_of, arm_of};

use crate::parser::Parser;
use crate::state::{ArmHead, ArmState, ExprState, Frame, Halt, Matching, State};
use crate::words::{TokenView, to_name};
use camelot_grammar::Mark;
use camelot_tree::ArmCell;

impl Parser {
    // Where a field is wanted.
    #[tactic(auto, unfolding(camelot_grammar::specs::Machine::arm_name_step))]
    fn field(
        &mut self,
        matching: Box<Matching>,
        mut head: Box<ArmHead>,
        lexeme: &TokenView<'_>,
    ) -> Result<(), Halt>
        ensures { Does (arm_name_step (matching_of matching.value) head.value.con head.value.fields.items
            (seen lexeme.now) (stack_of self.old.stack.items)) self.new result }
    {
        let level = matching.level;
        match *lexeme {
            TokenView::Lower { word, line } => {
                let name = to_name(self.alloc, word, line)?;
                head.fields.push(Some(name))?;
            }
            TokenView::Mark {
                mark: Mark::Blank,
                ..
            } => head.fields.push(None)?,
            _ => return Err(Halt::Stuck),
        }
        self.go(level, State::InArm(ArmState::HaveName(matching, head)))
    }

    // Where the arrow of an arm is wanted.
    #[tactic(auto, unfolding(camelot_grammar::specs::Machine::arrow_step), using(crate::proofs::StackLemmas::stack_push))]
    fn arrow(
        &mut self,
        matching: Box<Matching>,
        head: Box<ArmHead>,
        lexeme: &TokenView<'_>,
    ) -> Result<(), Halt>
        ensures { Does (arrow_step (matching_of matching.value) (arm_head_of head.value) (seen lexeme.now) (stack_of self.old.stack.items)) self.new result }
    {
        let level = matching.level;
        match *lexeme {
            TokenView::Mark {
                mark: Mark::Arrow,
                ..
            } => {
                self.stack.push(Frame::ArmBody { matching, head })?;
                self.go(level, State::InExpr(ExprState::Want(level)))
            }
            _ => Err(Halt::Stuck),
        }
    }

    // Behind the fields of an arm.
    #[tactic(auto, unfolding(camelot_grammar::specs::Machine::arm_end_step))]
    fn fields_end(
        &mut self,
        matching: Box<Matching>,
        mut head: Box<ArmHead>,
        lexeme: &TokenView<'_>,
    ) -> Result<(), Halt>
        ensures { Does (arm_end_step (matching_of matching.value) head.value.con head.value.fields.items
            (seen lexeme.now) (stack_of self.old.stack.items)) self.new result }
    {
        let level = matching.level;
        match *lexeme {
            TokenView::Mark { mark: Mark::At, .. } => {
                self.go(level, State::InArm(ArmState::WantCell(matching, head)))
            }
            _ => {
                head.cell = ArmCell::Plain;
                self.arrow(matching, head, lexeme)
            }
        }
    }

    // At the constructor of an arm.
    fn con_name(&mut self, matching: Box<Matching>, word: &[u8], line: u32) -> Result<(), Halt>
        ensures { Does (Goes matching.value.level (InArm
            (ArmCon (matching_of matching.value) (record { word = word.now; line = line })))
            (stack_of self.old.stack.items)) self.new result }
    {
        let level = matching.level;
        let head = ArmHead {
            con: to_name(self.alloc, word, line)?,
            fields: Vec::new(self.alloc),
            cell: ArmCell::Plain,
        };
        let head = Box::new(self.alloc, head)?;
        self.go(level, State::InArm(ArmState::ArmCon(matching, head)))
    }

    // Where the first arm of a match may begin.
    #[tactic(auto, unfolding(camelot_grammar::specs::Machine::arm_step))]
    fn first_arm(&mut self, matching: Box<Matching>, lexeme: &TokenView<'_>) -> Result<(), Halt>
        ensures { Does (arm_step (FirstArm (matching_of matching.value)) (seen lexeme.now) (stack_of self.old.stack.items)) self.new result }
    {
        let level = matching.level;
        match *lexeme {
            TokenView::Mark {
                mark: Mark::Bar,
                ..
            } => self.go(level, State::InArm(ArmState::WantArm(matching))),
            TokenView::Upper { word, line } => self.con_name(matching, word, line),
            _ => Err(Halt::Stuck),
        }
    }

    // Behind the bar before an arm.
    #[tactic(auto, unfolding(camelot_grammar::specs::Machine::arm_step))]
    fn want_arm(&mut self, matching: Box<Matching>, lexeme: &TokenView<'_>) -> Result<(), Halt>
        ensures { Does (arm_step (WantArm (matching_of matching.value)) (seen lexeme.now) (stack_of self.old.stack.items)) self.new result }
    {
        match *lexeme {
            TokenView::Upper { word, line } => self.con_name(matching, word, line),
            _ => Err(Halt::Stuck),
        }
    }

    // Behind the constructor of an arm.
    #[tactic(auto, unfolding(camelot_grammar::specs::Machine::arm_step))]
    fn arm_con(
        &mut self,
        matching: Box<Matching>,
        mut head: Box<ArmHead>,
        lexeme: &TokenView<'_>,
    ) -> Result<(), Halt>
        ensures { Does (arm_step (ArmCon (matching_of matching.value) head.value.con) (seen lexeme.now) (stack_of self.old.stack.items)) self.new result }
    {
        let level = matching.level;
        head.fields.clear();
        match *lexeme {
            TokenView::Mark {
                mark: Mark::Open,
                ..
            } => self.go(level, State::InArm(ArmState::WantName(matching, head))),
            _ => self.fields_end(matching, head, lexeme),
        }
    }

    // Behind a field.
    #[tactic(auto, unfolding(camelot_grammar::specs::Machine::arm_step))]
    fn have_field_name(
        &mut self,
        matching: Box<Matching>,
        head: Box<ArmHead>,
        lexeme: &TokenView<'_>,
    ) -> Result<(), Halt>
        ensures { Does (arm_step (HaveName (matching_of matching.value) head.value.con head.value.fields.items)
            (seen lexeme.now) (stack_of self.old.stack.items)) self.new result }
    {
        let level = matching.level;
        match *lexeme {
            TokenView::Mark {
                mark: Mark::Comma,
                ..
            } => self.go(level, State::InArm(ArmState::WantName(matching, head))),
            TokenView::Mark {
                mark: Mark::Close,
                ..
            } => self.go(level, State::InArm(ArmState::HaveNames(matching, head))),
            _ => Err(Halt::Stuck),
        }
    }

    // Behind the `@` of an arm.
    #[tactic(auto, unfolding(camelot_grammar::specs::Machine::arm_step))]
    fn want_cell(
        &mut self,
        matching: Box<Matching>,
        mut head: Box<ArmHead>,
        lexeme: &TokenView<'_>,
    ) -> Result<(), Halt>
        ensures { Does (arm_step (WantCell (matching_of matching.value) head.value.con head.value.fields.items)
            (seen lexeme.now) (stack_of self.old.stack.items)) self.new result }
    {
        let level = matching.level;
        head.cell = match *lexeme {
            TokenView::Lower { word, line } => ArmCell::Keep(to_name(self.alloc, word, line)?),
            TokenView::Mark {
                mark: Mark::Blank,
                ..
            } => ArmCell::Free,
            _ => return Err(Halt::Stuck),
        };
        self.go(level, State::InArm(ArmState::WantArrow(matching, head)))
    }

    /// One token in the head of an arm.
    #[tactic(auto, unfolding(camelot_grammar::specs::Machine::arm_step))]
    pub fn arm(&mut self, state: ArmState, lexeme: &TokenView<'_>) -> Result<(), Halt>
        ensures { Does (arm_step (arm_of state) (seen lexeme.now) (stack_of self.old.stack.items)) self.new result }
    {
        match state {
            ArmState::FirstArm(matching) => self.first_arm(matching, lexeme),
            ArmState::WantArm(matching) => self.want_arm(matching, lexeme),
            ArmState::ArmCon(matching, head) => self.arm_con(matching, head, lexeme),
            ArmState::WantName(matching, head) => self.field(matching, head, lexeme),
            ArmState::HaveName(matching, head) => self.have_field_name(matching, head, lexeme),
            ArmState::HaveNames(matching, head) => self.fields_end(matching, head, lexeme),
            ArmState::WantCell(matching, head) => self.want_cell(matching, head, lexeme),
            ArmState::WantArrow(matching, head) => self.arrow(matching, head, lexeme),
        }
    }
}
