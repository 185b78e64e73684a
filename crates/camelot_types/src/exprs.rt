//! The walk of expressions. It goes along the left end of an expression in a loop, since trees are deep there and
//! nowhere else.

ghost use Rattle.std.specs.Prelude.{◌≡◌, ◌∷◌, ℕ, [], map, OnOk, Some};
ghost use Rattle.camelot_tree.specs.Tree.{expression_of, expressions, branch_of, operator_of};
ghost use Rattle.camelot_tree.specs.Tree as tree;
ghost use Rattle.camelot_tree.specs.Spine.{IsLeaf};
ghost use Rattle.camelot_values.specs.Typing.{operator_kind};
ghost use Rattle.camelot_typing.specs.Kinds.{arm_scope, constructor_number};
ghost use Rattle.camelot_types.specs.Tables.{globals_view};
ghost use Rattle.camelot_types.specs.Working.{work_of};
ghost use Rattle.camelot_types.specs.Solving.{walk, walk_all, walk_arms, rest_of, lines_of, first_arm, next_arm, match_walk};
ghost use Rattle.camelot_types.specs.Doing.{Finds, FindsAll, FindsArm, FindsArms};
ghost use Rattle.camelot_types.specs.declared.guess.Guess.TheVariants.{Known};

use crate::arms::BodyGuess;
use crate::builds::line_of;
use crate::constructors::con_guess;
use crate::fault::TypeFault;
use crate::globals::Globals;
use crate::guess::Guess;
use crate::table::word;
use crate::walker::Walker;
use camelot_tree::{Arm, Expr, Name, PrimOp};
use camelot_values::Kind;
use stops::Stop;

// The kind of what an operator gives.
fn operator_kind(op: PrimOp) -> Kind
    ensures { result ≡ operator_kind (operator_of op) }
{
    match op {
        PrimOp::Add | PrimOp::Sub | PrimOp::Mul | PrimOp::Div | PrimOp::Mod => Kind::Int,
        PrimOp::Eq | PrimOp::Ne | PrimOp::Lt | PrimOp::Le | PrimOp::Gt | PrimOp::Ge => Kind::Flag,
    }
}

impl<'a> Walker<'a> {
    /// An expression.
    #[cycle(walk)]
    #[tactic(auto, using(crate::proofs::Looping::unwound_begins, crate::proofs::Looping::leaf_stops, camelot_tree::specs::SpineLaws::none_larger))]
    pub(crate) fn expr(
        &mut self,
        globals: &Globals<'_, '_>,
        expr: &'a Expr,
    ) -> Result<Guess, Stop<TypeFault>>
        ensures found { Finds (walk (globals_view globals.now) self.old.scope (work_of self.old) (expression_of expr.now)) (work_of self.new) result }
        ensures scope { OnOk result (self.new.scope ≡ self.old.scope) }
    {
        let spine = self.rooms.left_spine(expr)?;
        let mut parents = spine.parents;
        let mut guess = self.leaf(globals, spine.leaf)?;
        'up: while let Some(parent) = parents.pop() {
            match self.rest(globals, parent, guess) {
                Ok(next) => guess = next,
                Err(stop) => return Err(stop),
            }
        }
        self.rooms.keep(parents);
        Ok(guess)
    }

    // What is left of an operator or a conditional, whose first part has this guess.
    #[cycle(walk)]
    #[tactic(auto, unfolding(crate::specs::Solving::rest_of))]
    fn rest(
        &mut self,
        globals: &Globals<'_, '_>,
        parent: &'a Expr,
        first: Guess,
    ) -> Result<Guess, Stop<TypeFault>>
        ensures found { Finds (rest_of (globals_view globals.now) self.old.scope (expression_of parent.now)
            (record { work = work_of self.old; guess = first })) (work_of self.new) result }
        ensures scope { OnOk result (self.new.scope ≡ self.old.scope) }
    {
        match parent {
            Expr::Prim {
                op,
                left,
                right,
                ..
            } => {
                let second = self.expr(globals, right)?;
                self.same(globals, first, Guess::Known(Kind::Int), line_of(left))?;
                self.same(globals, second, Guess::Known(Kind::Int), line_of(right))?;
                self.note(Guess::Known(operator_kind(*op)))
            }
            Expr::If { cond, yes, no, .. } => {
                self.same(globals, first, Guess::Known(Kind::Flag), line_of(cond))?;
                let guess = self.expr(globals, yes)?;
                let other = self.expr(globals, no)?;
                self.same(globals, guess, other, line_of(no))?;
                self.note(guess)
            }
            _ => Ok(first),
        }
    }

    // What a left end begins with.
    #[cycle(walk)]
    #[tactic(auto, unfolding(crate::specs::Solving::walk))]
    fn leaf(&mut self, globals: &Globals<'_, '_>, expr: &'a Expr) -> Result<Guess, Stop<TypeFault>>
        requires { IsLeaf (expression_of expr.now) }
        ensures found { Finds (walk (globals_view globals.now) self.old.scope (work_of self.old) (expression_of expr.now)) (work_of self.new) result }
        ensures scope { OnOk result (self.new.scope ≡ self.old.scope) }
    {
        match expr {
            Expr::Num { .. } => self.note(Guess::Known(Kind::Int)),
            Expr::Truth { .. } => self.note(Guess::Known(Kind::Flag)),
            Expr::Var(name) => {
                let guess = self.name(name)?;
                self.note(guess)
            }
            Expr::Let { name, value, body } => self.bound(globals, name, value, body),
            Expr::Match { on, arms, line } => self.matched(globals, on, arms, *line),
            Expr::Build(build) => self.built(globals, &build.con, &build.args, &build.place),
            Expr::Call(call) => self.called(globals, &call.fun, &call.args),
            Expr::Prim { .. } | Expr::If { .. } => unreachable!(),
        }
    }

    // A `let`.
    #[cycle(walk)]
    #[tactic(auto, unfolding(crate::specs::Solving::walk))]
    fn bound(
        &mut self,
        globals: &Globals<'_, '_>,
        name: &'a Name,
        value: &'a Expr,
        body: &'a Expr,
    ) -> Result<Guess, Stop<TypeFault>>
        ensures found { Finds (walk (globals_view globals.now) self.old.scope (work_of self.old)
            (tree.Let name.now (expression_of value.now) (expression_of body.now))) (work_of self.new) result }
        ensures scope { OnOk result (self.new.scope ≡ self.old.scope) }
    {
        let guess = self.expr(globals, value)?;
        let len = self.scope.len();
        self.scope.bind(name.word.bytes(), guess)?;
        let found = self.expr(globals, body)?;
        self.scope.leave(len);
        self.note(found)
    }

    // A build.
    #[cycle(walk)]
    #[tactic(auto, unfolding(crate::specs::Solving::walk))]
    fn built(
        &mut self,
        globals: &Globals<'_, '_>,
        con: &Name,
        args: &'a [Expr],
        place: &Option<Name>,
    ) -> Result<Guess, Stop<TypeFault>>
        ensures found { Finds (walk (globals_view globals.now) self.old.scope (work_of self.old)
            (tree.Build con.now (expressions (map expression_of args.now)) place.now)) (work_of self.new) result }
        ensures scope { OnOk result (self.new.scope ≡ self.old.scope) }
    {
        let guesses = self.args(globals, args)?;
        let number = globals.con(self.alloc, con)?;
        self.build(globals, con, number, args, &guesses, place)?;
        self.note(con_guess(globals, number))
    }

    // A call.
    #[cycle(walk)]
    #[tactic(auto, unfolding(crate::specs::Solving::walk))]
    fn called(
        &mut self,
        globals: &Globals<'_, '_>,
        fun: &Name,
        args: &'a [Expr],
    ) -> Result<Guess, Stop<TypeFault>>
        ensures found { Finds (walk (globals_view globals.now) self.old.scope (work_of self.old)
            (tree.Call fun.now (expressions (map expression_of args.now)))) (work_of self.new) result }
        ensures scope { OnOk result (self.new.scope ≡ self.old.scope) }
    {
        let guesses = self.args(globals, args)?;
        let head = globals.head(fun);
        self.call(globals, fun, head, args, &guesses)?;
        match head {
            Some(head) => self.note(head.result),
            None => self.note(Guess::Known(Kind::Int)),
        }
    }

    // Arguments in order, with their guesses.
    #[cycle(walk)]
    #[tactic(auto, using(crate::proofs::Looping::args_begin, crate::proofs::Looping::args_more, crate::proofs::Looping::args_fail, crate::proofs::Looping::args_end))]
    fn args(
        &mut self,
        globals: &Globals<'_, '_>,
        args: &'a [Expr],
    ) -> Result<Vec<Guess>, Stop<TypeFault>>
        ensures found { FindsAll (walk_all (globals_view globals.now) self.old.scope (work_of self.old)
            (expressions (map expression_of args.now))) (work_of self.new)
            (lines_of (expressions (map expression_of args.now))) result }
        ensures scope { OnOk result (self.new.scope ≡ self.old.scope) }
    {
        let mut guesses = Vec::new(self.alloc);
        'args: for arg in args {
            match self.expr(globals, arg) {
                Ok(guess) => guesses.push(guess)?,
                Err(stop) => return Err(stop),
            }
        }
        Ok(guesses)
    }

    // A match.
    #[cycle(walk)]
    #[tactic(auto, using(crate::proofs::Looping::finds_match))]
    fn matched(
        &mut self,
        globals: &Globals<'_, '_>,
        on: &'a Expr,
        arms: &'a [Arm],
        line: u32,
    ) -> Result<Guess, Stop<TypeFault>>
        ensures found { Finds (walk (globals_view globals.now) self.old.scope (work_of self.old)
            (tree.Match (expression_of on.now) (tree.arms (map branch_of arms.now)) line)) (work_of self.new) result }
        ensures scope { OnOk result (self.new.scope ≡ self.old.scope) }
    {
        self.match_arms(globals, on, arms, line)
    }

    // A match, arm by arm.
    #[cycle(walk)]
    #[tactic(auto, unfolding(crate::specs::Solving::match_walk))]
    fn match_arms(
        &mut self,
        globals: &Globals<'_, '_>,
        on: &'a Expr,
        arms: &'a [Arm],
        line: u32,
    ) -> Result<Guess, Stop<TypeFault>>
        ensures found { Finds (match_walk (globals_view globals.now) self.old.scope (work_of self.old)
            (expression_of on.now) (tree.arms (map branch_of arms.now)) line) (work_of self.new) result }
        ensures scope { OnOk result (self.new.scope ≡ self.old.scope) }
    {
        let scrutinee = self.expr(globals, on)?;
        let [first, arms @ ..] = arms else {
            return Err(Stop::Fault(TypeFault::MissingArm {
                con: word(self.alloc, b"")?,
                line: u64::from(line),
            }));
        };
        let body = self.first_arm(globals, scrutinee, first)?;
        let numbers = self.arms(globals, body, arms)?;
        self.check_missing(globals, &numbers, line, body.con)?;
        self.note(body.guess)
    }

    // The body of an arm of this constructor.
    #[cycle(walk)]
    #[tactic(auto, using(crate::proofs::Looping::arm_left))]
    fn arm_body(
        &mut self,
        globals: &Globals<'_, '_>,
        con: u32,
        arm: &'a Arm,
    ) -> Result<Guess, Stop<TypeFault>>
        requires { constructor_number (globals_view globals.now).types arm.now.con.word ≡ Some con }
        ensures found { Finds (walk (globals_view globals.now)
            (arm_scope Known (globals_view globals.now).types arm.now.con arm.now.fields.items arm.now.cell
            self.old.scope) (work_of self.old) (branch_of arm.now).body) (work_of self.new) result }
        ensures scope { OnOk result (self.new.scope ≡ self.old.scope) }
    {
        let len = self.scope.len();
        self.bind_arm(globals, con, arm)?;
        let guess = self.expr(globals, &arm.body)?;
        self.scope.leave(len);
        Ok(guess)
    }

    // The first arm of a match, whose scrutinee has this guess.
    #[cycle(walk)]
    #[tactic(auto, unfolding(crate::specs::Solving::first_arm), using(crate::proofs::Looping::number_found))]
    fn first_arm(
        &mut self,
        globals: &Globals<'_, '_>,
        scrutinee: Guess,
        arm: &'a Arm,
    ) -> Result<BodyGuess, Stop<TypeFault>>
        ensures found { FindsArm (first_arm (globals_view globals.now) self.old.scope (work_of self.old) scrutinee
            (branch_of arm.now).con (branch_of arm.now).fields (branch_of arm.now).cell (branch_of arm.now).body)
            (work_of self.new) result }
        ensures scope { OnOk result (self.new.scope ≡ self.old.scope) }
    {
        let con = globals.con(self.alloc, &arm.con)?;
        self.head(globals, &[], con_guess(globals, con), scrutinee, con, arm)?;
        let guess = self.arm_body(globals, con, arm)?;
        Ok(BodyGuess { con, guess })
    }

    // A further arm, behind arms of these constructors; the first arm is this one.
    #[cycle(walk)]
    #[tactic(auto, unfolding(crate::specs::Solving::next_arm), using(crate::proofs::Looping::number_found))]
    fn next_arm(
        &mut self,
        globals: &Globals<'_, '_>,
        numbers: &[u32],
        first: BodyGuess,
        arm: &'a Arm,
    ) -> Result<BodyGuess, Stop<TypeFault>>
        ensures found { FindsArm (next_arm (globals_view globals.now) self.old.scope
            (work_of self.old) numbers.now first.con first.guess (branch_of arm.now).con (branch_of arm.now).fields
            (branch_of arm.now).cell (branch_of arm.now).body) (work_of self.new) result }
        ensures scope { OnOk result (self.new.scope ≡ self.old.scope) }
    {
        let con = globals.con(self.alloc, &arm.con)?;
        let of_first = con_guess(globals, first.con);
        self.head(
            globals,
            numbers,
            of_first,
            con_guess(globals, con),
            con,
            arm,
        )?;
        let guess = self.arm_body(globals, con, arm)?;
        self.same(globals, first.guess, guess, line_of(&arm.body))?;
        Ok(BodyGuess { con, guess })
    }

    // The arms behind the first one, which is this; the numbers of all arms.
    #[cycle(walk)]
    #[tactic(auto, using(crate::proofs::Looping::arms_begin, crate::proofs::Looping::arms_more, crate::proofs::Looping::arms_fail, crate::proofs::Looping::arms_end))]
    fn arms(
        &mut self,
        globals: &Globals<'_, '_>,
        first: BodyGuess,
        arms: &'a [Arm],
    ) -> Result<Vec<u32>, Stop<TypeFault>>
        ensures found { FindsArms (walk_arms (globals_view globals.now) self.old.scope (work_of self.old)
            (first.con ∷ []) first.con first.guess (tree.arms (map branch_of arms.now))) (work_of self.new) result }
        ensures scope { OnOk result (self.new.scope ≡ self.old.scope) }
    {
        let mut numbers = Vec::new(self.alloc);
        numbers.push(first.con)?;
        'arms: for arm in arms {
            match self.next_arm(globals, &numbers, first, arm) {
                Ok(found) => numbers.push(found.con)?,
                Err(stop) => return Err(stop),
            }
        }
        Ok(numbers)
    }
}
