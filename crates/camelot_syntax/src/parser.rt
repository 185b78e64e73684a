//! The parser: a machine that reads token by token, with a stack of what is unfinished.

ghost use Rattle.std.specs.Prelude.{◌≡◌, ◌∷◌, [], List, length, MatchResult};
ghost use Rattle.std.specs.List.{All};
ghost use Rattle.text_scan.specs.Reading.{IsSliceOf, line_at};
ghost use Rattle.camelot_grammar.specs.declared.lexeme.Lexeme.{Lexeme};
ghost use Rattle.camelot_grammar.specs.Lexemes.{lexeme_at, lexemes, IsReal};
ghost use Rattle.camelot_grammar.specs.Parsing.{stop_fault, line_of, last_line};
ghost use Rattle.camelot_grammar.specs.Machine.{step, advance, runs, ending, limited, start, Finished, Goes};
ghost use Rattle.camelot_syntax.specs.States.{Does, IsSmall, IsUnfinished, Answers, Reads, seen, stack_of, state_of, decls_of};

use crate::operand::LIMIT;
use crate::state::{DeclState, Decls, ExprState, Frame, Halt, Spot, State};
use crate::words::{TokenView, view};
use camelot_grammar::laws::tokens_of_a_text;
use camelot_grammar::{Mark, ParseFault};
use std::alloc::Global;
use std::mem;
use stops::Stop;
use text_scan::Token;

/// The parser between two tokens: where it stands, and the expressions that are unfinished, the innermost last.
#[derive(Drop)]
pub struct Parser {
    pub alloc: Global,
    pub state: State,
    pub stack: Vec<Frame>,
    /// Room for expressions that begin, from those that have ended.
    pub spares: Vec<Box<Spot>>,
}

// The line of a token.
fn line_of(lexeme: &TokenView<'_>) -> u32
    ensures { result ≡ line_of (seen lexeme.now) }
{
    match *lexeme {
        TokenView::Lower { line, .. } | TokenView::Upper { line, .. } => line,
        TokenView::Variable { line } | TokenView::Greatest { line } => line,
        TokenView::Number { line, .. } | TokenView::Mark { line, .. } => line,
    }
}

// The fault at a token with which no program goes on, at this place.
fn stop_fault(lexeme: &TokenView<'_>, token: u64) -> ParseFault
    ensures { (rest : List Lexeme) → result ≡ stop_fault (seen lexeme.now ∷ rest) token (line_of (seen lexeme.now)) }
{
    match *lexeme {
        TokenView::Variable { line } => ParseFault::TypeParameter {
            token,
            line: u64::from(line),
        },
        _ => ParseFault::Unexpected {
            token,
            line: u64::from(line_of(lexeme)),
        },
    }
}

// The line of the last byte of a text.
#[tactic(auto, unfolding(text_scan::specs::Reading::line_feeds))]
fn last_line(text: &[u8]) -> u64
    ensures { result ≡ last_line text.now }
{
    let last = text.len().saturating_sub(1);
    let feeds = text[..last].iter().filter(|byte| **byte == b'\n').count();
    1 + feeds as u64
}

impl State {
    // The declarations, where the text ends in this state; else this fault.
    fn whole(self, fault: ParseFault) -> Result<Decls, ParseFault>
        ensures { MatchResult result (λ decls. state_of self ≡ Finished (decls_of decls)) (λ found. (found ≡ fault) × IsUnfinished (state_of self)) }
    {
        match self {
            State::InDecl(_state) => Err(fault),
            State::InExpr(_state) => Err(fault),
            State::InArm(_state) => Err(fault),
            State::Finished(decls) => Ok(Box::into_inner(decls)),
        }
    }
}

impl Parser {
    /// Behind a token of this level, in this state.
    #[inline]
    pub fn go(&mut self, level: u32, state: State) -> Result<(), Halt>
        ensures { Does (Goes level (state_of state) (stack_of self.old.stack.items)) self.new result }
    {
        if level > LIMIT {
            return Err(Halt::Deep);
        }
        self.state = state;
        Ok(())
    }

    // Where the parser stands, to go on from there.
    #[inline]
    fn take_state(&mut self) -> State
        ensures state { result ≡ self.old.state }
        ensures stack { self.new.stack ≡ self.old.stack }
    {
        mem::replace(&mut self.state, State::InExpr(ExprState::Want(0)))
    }

    // One token.
    #[tactic(auto, unfolding(camelot_grammar::specs::Machine::step))]
    fn step(&mut self, lexeme: &TokenView<'_>) -> Result<(), Halt>
        requires { IsSmall (seen lexeme.now) }
        ensures { Does (step (state_of self.old.state) (seen lexeme.now) (stack_of self.old.stack.items)) self.new result }
    {
        match self.take_state() {
            State::InDecl(state) => self.decl(state, lexeme),
            State::InExpr(state) => self.expr(state, lexeme),
            State::InArm(state) => self.arm(state, lexeme),
            State::Finished(_) => Err(Halt::Stuck),
        }
    }

    // One token of the text, whose place among the tokens is `at`.
    #[tactic(auto, using(crate::proofs::RunLemmas::small_real, crate::proofs::RunLemmas::advance_real, crate::proofs::RunLemmas::fails_stop))]
    fn read_token(&mut self, lexeme: &TokenView<'_>, at: u64) -> Result<(), Stop<ParseFault>>
        requires real { IsReal (seen lexeme.now) }
        ensures { Reads (advance (state_of self.old.state) (seen lexeme.now) (stack_of self.old.stack.items)) (seen lexeme.now) at self.new result }
    {
        match self.step(lexeme) {
            Ok(()) => Ok(()),
            Err(Halt::Stuck) => Err(Stop::Fault(stop_fault(lexeme, at))),
            Err(Halt::Deep) => Err(Stop::Fault(ParseFault::TooDeep {
                token: at,
                line: u64::from(line_of(lexeme)),
            })),
            Err(Halt::Memory) => Err(Stop::Memory),
        }
    }

    // The token of the text at this place.
    fn read(&mut self, text: &[u8], token: Token, at: u64) -> Result<(), Stop<ParseFault>>
        requires { IsSliceOf text.now token }
        ensures { Reads (advance (state_of self.old.state) (lexeme_at text.now token) (stack_of self.old.stack.items)) (lexeme_at text.now token) at
            self.new result }
    {
        tokens_of_a_text();
        let lexeme = view(text, token);
        self.read_token(&lexeme, at)
    }

    // The end of a text of so many tokens.
    #[tactic(auto, using(crate::proofs::RunLemmas::ends_whole, crate::proofs::RunLemmas::ends_early, crate::proofs::RunLemmas::ends_stuck, crate::proofs::RunLemmas::ends_deep))]
    fn finish(&mut self, text: &[u8], count: usize) -> Result<Decls, Stop<ParseFault>>
        ensures { Answers count (last_line text.now)
            (ending (limited (step (state_of self.old.state) (Lexeme.Mark Mark.EndOfText 0)
            (stack_of self.old.stack.items)))) result }
    {
        let fault = ParseFault::Unexpected {
            token: count as u64,
            line: last_line(text),
        };
        let end = TokenView::Mark {
            mark: Mark::EndOfText,
            line: 0,
        };
        match self.step(&end) {
            Ok(()) => self.take_state().whole(fault).map_err(Stop::Fault),
            Err(Halt::Memory) => Err(Stop::Memory),
            Err(Halt::Stuck) => Err(Stop::Fault(fault)),
            Err(Halt::Deep) => Err(Stop::Fault(fault)),
        }
    }
}

/// The declarations that these tokens of the text are.
#[tactic(auto, using(crate::proofs::RunLemmas::run_first, crate::proofs::RunLemmas::run_more, crate::proofs::RunLemmas::run_fails, crate::proofs::RunLemmas::run_ends, crate::proofs::RunLemmas::slice_at))]
pub fn run(alloc: Global, text: &[u8], tokens: &[Token]) -> Result<Decls, Stop<ParseFault>>
    requires { All (IsSliceOf text.now) tokens.now }
    ensures { Answers (length tokens.now) (last_line text.now) (runs start [] (lexemes text.now tokens.now)) result }
{
    let decls = Decls {
        types: Vec::new(alloc),
        funs: Vec::new(alloc),
    };
    let decls = Box::new(alloc, decls)?;
    let mut parser = Parser {
        alloc,
        state: State::InDecl(DeclState::Top(decls)),
        stack: Vec::new(alloc),
        spares: Vec::new(alloc),
    };
    'tokens: for (at, token) in tokens.iter().enumerate() {
        match parser.read(text, *token, at as u64) {
            Ok(()) => {}
            Err(stop) => return Err(stop),
        }
    }
    parser.finish(text, tokens.len())
}
