//! Steps in the head of a function's declaration.

ghost use Rattle.std.specs.Prelude.{◌≡◌, ◌++◌, [], ◌∷◌, MatchResult, Some, None, false};
ghost use Rattle.camelot_syntax.specs.declared.state.Halt.TheVariants.{Memory};
ghost use Rattle.camelot_grammar.specs.Machine.{Goes, InExpr, Want, Body, fun_step, param_step, with_param, FunName, FirstParam, NextParam, ResultKind, ResultEquals, OpenParam, ReadParam, ParamName, ParamKind, ParamClose};
ghost use Rattle.camelot_syntax.specs.States.{Does, seen, decls_of, stack_of, fun_draft_of};

use crate::decls::atom;
use crate::parser::Parser;
use crate::state::{DeclState, Decls, ExprState, Frame, FunDraft, Halt, State};
use crate::words::{TokenView, to_name};
use camelot_grammar::Mark;
use camelot_tree::{Atom, Name, Param};

// The declaration with one more parameter.
fn with_param(mut draft: Box<FunDraft>, param: Param) -> Result<Box<FunDraft>, Halt>
    ensures { MatchResult result (λ more. fun_draft_of more.value ≡ with_param (fun_draft_of draft.value) param) (λ halt. halt ≡ Memory) }
{
    draft.params.push(param)?;
    Ok(draft)
}

impl Parser {
    #[tactic(auto, unfolding(camelot_grammar::specs::Machine::fun_step))]
    pub fn fun_name(&mut self, decls: Box<Decls>, lexeme: &TokenView<'_>) -> Result<(), Halt>
        ensures { Does (fun_step (FunName (decls_of decls.value)) (seen lexeme.now) (stack_of self.old.stack.items)) self.new result }
    {
        match *lexeme {
            TokenView::Lower { word, line } => {
                let name = to_name(self.alloc, word, line)?;
                self.go(0, State::InDecl(DeclState::FirstParam(decls, name)))
            }
            _ => Err(Halt::Stuck),
        }
    }

    #[tactic(auto, unfolding(camelot_grammar::specs::Machine::fun_step))]
    pub fn first_param(
        &mut self,
        decls: Box<Decls>,
        name: Name,
        lexeme: &TokenView<'_>,
    ) -> Result<(), Halt>
        ensures { Does (fun_step (FirstParam (decls_of decls.value) name) (seen lexeme.now) (stack_of self.old.stack.items)) self.new result }
    {
        let draft = FunDraft {
            before: decls,
            name,
            params: Vec::new(self.alloc),
            result: None,
        };
        let draft = Box::new(self.alloc, draft)?;
        match *lexeme {
            TokenView::Lower { word, line } => {
                let name = to_name(self.alloc, word, line)?;
                let draft = with_param(
                    draft,
                    Param {
                        name,
                        read: false,
                        kind: None,
                    },
                )?;
                self.go(0, State::InDecl(DeclState::NextParam(draft)))
            }
            TokenView::Mark {
                mark: Mark::Open,
                ..
            } => self.go(0, State::InDecl(DeclState::OpenParam(draft))),
            _ => Err(Halt::Stuck),
        }
    }

    // The body of a function comes next, whose result has this type, if one is written.
    #[tactic(auto, using(crate::proofs::StackLemmas::stack_push))]
    fn body(&mut self, mut draft: Box<FunDraft>, result_kind: Option<Atom>) -> Result<(), Halt>
        ensures { Does (Goes 0 (InExpr (Want 0)) (Body (fun_draft_of draft.value) result_kind ∷ stack_of self.old.stack.items)) self.new result }
    {
        draft.result = result_kind;
        self.stack.push(Frame::Body { draft })?;
        self.go(0, State::InExpr(ExprState::Want(0)))
    }

    #[tactic(auto, unfolding(camelot_grammar::specs::Machine::fun_step))]
    pub fn next_param(&mut self, draft: Box<FunDraft>, lexeme: &TokenView<'_>) -> Result<(), Halt>
        ensures { Does (fun_step (NextParam (fun_draft_of draft.value)) (seen lexeme.now) (stack_of self.old.stack.items)) self.new result }
    {
        match *lexeme {
            TokenView::Lower { word, line } => {
                let name = to_name(self.alloc, word, line)?;
                let draft = with_param(
                    draft,
                    Param {
                        name,
                        read: false,
                        kind: None,
                    },
                )?;
                self.go(0, State::InDecl(DeclState::NextParam(draft)))
            }
            TokenView::Mark {
                mark: Mark::Open,
                ..
            } => self.go(0, State::InDecl(DeclState::OpenParam(draft))),
            TokenView::Mark {
                mark: Mark::Colon,
                ..
            } => self.go(0, State::InDecl(DeclState::ResultKind(draft))),
            TokenView::Mark {
                mark: Mark::Equal,
                ..
            } => self.body(draft, None),
            _ => Err(Halt::Stuck),
        }
    }

    #[tactic(auto, unfolding(camelot_grammar::specs::Machine::fun_step))]
    pub fn result_kind(&mut self, draft: Box<FunDraft>, lexeme: &TokenView<'_>) -> Result<(), Halt>
        ensures { Does (fun_step (ResultKind (fun_draft_of draft.value)) (seen lexeme.now) (stack_of self.old.stack.items)) self.new result }
    {
        match atom(self.alloc, lexeme)? {
            Some(kind) => self.go(0, State::InDecl(DeclState::ResultEquals(draft, kind))),
            None => Err(Halt::Stuck),
        }
    }

    #[tactic(auto, unfolding(camelot_grammar::specs::Machine::fun_step))]
    pub fn result_equals(
        &mut self,
        draft: Box<FunDraft>,
        kind: Atom,
        lexeme: &TokenView<'_>,
    ) -> Result<(), Halt>
        ensures { Does (fun_step (ResultEquals (fun_draft_of draft.value) kind) (seen lexeme.now) (stack_of self.old.stack.items)) self.new result }
    {
        match *lexeme {
            TokenView::Mark {
                mark: Mark::Equal,
                ..
            } => self.body(draft, Some(kind)),
            _ => Err(Halt::Stuck),
        }
    }

    #[tactic(auto, unfolding(camelot_grammar::specs::Machine::param_step))]
    pub fn open_param(&mut self, draft: Box<FunDraft>, lexeme: &TokenView<'_>) -> Result<(), Halt>
        ensures { Does (param_step (OpenParam (fun_draft_of draft.value)) (seen lexeme.now) (stack_of self.old.stack.items)) self.new result }
    {
        match *lexeme {
            TokenView::Mark {
                mark: Mark::Read,
                ..
            } => self.go(0, State::InDecl(DeclState::ReadParam(draft))),
            TokenView::Lower { word, line } => {
                let name = to_name(self.alloc, word, line)?;
                self.go(0, State::InDecl(DeclState::ParamName(draft, name, false)))
            }
            _ => Err(Halt::Stuck),
        }
    }

    #[tactic(auto, unfolding(camelot_grammar::specs::Machine::param_step))]
    pub fn read_param(&mut self, draft: Box<FunDraft>, lexeme: &TokenView<'_>) -> Result<(), Halt>
        ensures { Does (param_step (ReadParam (fun_draft_of draft.value)) (seen lexeme.now) (stack_of self.old.stack.items)) self.new result }
    {
        match *lexeme {
            TokenView::Lower { word, line } => {
                let name = to_name(self.alloc, word, line)?;
                self.go(0, State::InDecl(DeclState::ParamName(draft, name, true)))
            }
            _ => Err(Halt::Stuck),
        }
    }

    #[tactic(auto, unfolding(camelot_grammar::specs::Machine::param_step))]
    pub fn param_name(
        &mut self,
        draft: Box<FunDraft>,
        name: Name,
        read: bool,
        lexeme: &TokenView<'_>,
    ) -> Result<(), Halt>
        ensures { Does (param_step (ParamName (fun_draft_of draft.value) name read) (seen lexeme.now) (stack_of self.old.stack.items)) self.new result }
    {
        match *lexeme {
            TokenView::Mark {
                mark: Mark::Colon,
                ..
            } => self.go(0, State::InDecl(DeclState::ParamKind(draft, name, read))),
            TokenView::Mark {
                mark: Mark::Close,
                ..
            } => {
                let draft = with_param(
                    draft,
                    Param {
                        name,
                        read,
                        kind: None,
                    },
                )?;
                self.go(0, State::InDecl(DeclState::NextParam(draft)))
            }
            _ => Err(Halt::Stuck),
        }
    }

    #[tactic(auto, unfolding(camelot_grammar::specs::Machine::param_step))]
    pub fn param_kind(
        &mut self,
        draft: Box<FunDraft>,
        name: Name,
        read: bool,
        lexeme: &TokenView<'_>,
    ) -> Result<(), Halt>
        ensures { Does (param_step (ParamKind (fun_draft_of draft.value) name read) (seen lexeme.now) (stack_of self.old.stack.items)) self.new result }
    {
        match atom(self.alloc, lexeme)? {
            Some(kind) => {
                let param = Param {
                    name,
                    read,
                    kind: Some(kind),
                };
                let param = Box::new(self.alloc, param)?;
                self.go(0, State::InDecl(DeclState::ParamClose(draft, param)))
            }
            None => Err(Halt::Stuck),
        }
    }

    #[tactic(auto, unfolding(camelot_grammar::specs::Machine::param_step))]
    pub fn param_close(
        &mut self,
        draft: Box<FunDraft>,
        param: Box<Param>,
        lexeme: &TokenView<'_>,
    ) -> Result<(), Halt>
        ensures { Does (param_step (ParamClose (fun_draft_of draft.value) param.value) (seen lexeme.now) (stack_of self.old.stack.items)) self.new result }
    {
        match *lexeme {
            TokenView::Mark {
                mark: Mark::Close,
                ..
            } => {
                let draft = with_param(draft, Box::into_inner(param))?;
                self.go(0, State::InDecl(DeclState::NextParam(draft)))
            }
            _ => Err(Halt::Stuck),
        }
    }
}
