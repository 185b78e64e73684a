//! Steps in declarations.

ghost use Rattle.std.specs.Prelude.{◌≡◌, ◌++◌, [], ◌∷◌, MatchResult, Some, None, false};
ghost use Rattle.camelot_syntax.specs.declared.state.Halt.TheVariants.{Memory};
ghost use Rattle.camelot_grammar.specs.Machine.{top_step, con_step, type_step, with_con, lexeme_atom, WantCon, InlineCon, BareCon, WantField, HaveField, HaveCon, TypeName, TypeEquals, decl_step};
ghost use Rattle.camelot_syntax.specs.States.{Does, seen, decls_of, stack_of, type_draft_of, decl_of};

use crate::parser::Parser;
use crate::state::{ConDraft, DeclState, Decls, Halt, State, TypeDraft};
use crate::words::{TokenView, to_name};
use camelot_grammar::Mark;
use camelot_tree::{Atom, ConDecl, Name, TypeDecl};
use std::alloc::Global;

/// The atom that a token is.
pub fn atom(alloc: Global, lexeme: &TokenView<'_>) -> Result<Option<Atom>, Halt>
    ensures { MatchResult result (λ atom. atom ≡ lexeme_atom (seen lexeme.now)) (λ halt. halt ≡ Memory) }
{
    match *lexeme {
        TokenView::Mark {
            mark: Mark::Int,
            ..
        } => Ok(Some(Atom::Int)),
        TokenView::Mark {
            mark: Mark::Bool,
            ..
        } => Ok(Some(Atom::Bool)),
        TokenView::Mark {
            mark: Mark::Diamond,
            ..
        } => Ok(Some(Atom::Dia)),
        TokenView::Lower { word, line } => Ok(Some(Atom::Named(to_name(alloc, word, line)?))),
        _ => Ok(None),
    }
}

// The declaration with one more constructor.
#[tactic(auto, using(std::proofs::lemmas::List::map_push))]
fn with_con(
    mut draft: Box<TypeDraft>,
    name: Name,
    inline: bool,
    fields: Vec<Atom>,
) -> Result<Box<TypeDraft>, Halt>
    ensures { MatchResult result
        (λ more. type_draft_of more.value ≡ with_con (type_draft_of draft.value) name inline fields.items) (λ halt. halt ≡ Memory) }
{
    draft.cons.push(ConDecl {
        name,
        inline,
        fields,
    })?;
    Ok(draft)
}

impl Parser {
    /// Between declarations.
    #[tactic(auto, unfolding(camelot_grammar::specs::Machine::top_step))]
    pub fn top(&mut self, decls: Box<Decls>, lexeme: &TokenView<'_>) -> Result<(), Halt>
        ensures { Does (top_step (decls_of decls.value) (seen lexeme.now) (stack_of self.old.stack.items)) self.new result }
    {
        match *lexeme {
            TokenView::Mark {
                mark: Mark::Type,
                ..
            } => self.go(0, State::InDecl(DeclState::TypeName(decls))),
            TokenView::Mark {
                mark: Mark::Let,
                ..
            } => self.go(0, State::InDecl(DeclState::FunName(decls))),
            TokenView::Mark {
                mark: Mark::EndOfText,
                ..
            } => self.go(0, State::Finished(decls)),
            _ => Err(Halt::Stuck),
        }
    }

    // Behind a constructor of a type's declaration.
    #[tactic(auto, unfolding(camelot_grammar::specs::Machine::con_step), using(std::proofs::lemmas::List::map_push))]
    fn have_con(&mut self, draft: Box<TypeDraft>, lexeme: &TokenView<'_>) -> Result<(), Halt>
        ensures { Does (con_step (type_draft_of draft.value) (seen lexeme.now) (stack_of self.old.stack.items)) self.new result }
    {
        if let TokenView::Mark {
            mark: Mark::Bar,
            ..
        } = *lexeme
        {
            return self.go(0, State::InDecl(DeclState::WantCon(draft)));
        }
        let TypeDraft {
            before: mut decls,
            name,
            cons,
        } = Box::into_inner(draft);
        decls.types.push(TypeDecl { name, cons })?;
        self.top(decls, lexeme)
    }

    #[tactic(auto, unfolding(camelot_grammar::specs::Machine::type_step))]
    fn type_name(&mut self, decls: Box<Decls>, lexeme: &TokenView<'_>) -> Result<(), Halt>
        ensures { Does (type_step (TypeName (decls_of decls.value)) (seen lexeme.now) (stack_of self.old.stack.items)) self.new result }
    {
        match *lexeme {
            TokenView::Lower { word, line } => {
                let name = to_name(self.alloc, word, line)?;
                self.go(0, State::InDecl(DeclState::TypeEquals(decls, name)))
            }
            _ => Err(Halt::Stuck),
        }
    }

    #[tactic(auto, unfolding(camelot_grammar::specs::Machine::type_step))]
    fn type_equals(
        &mut self,
        decls: Box<Decls>,
        name: Name,
        lexeme: &TokenView<'_>,
    ) -> Result<(), Halt>
        ensures { Does (type_step (TypeEquals (decls_of decls.value) name) (seen lexeme.now) (stack_of self.old.stack.items)) self.new result }
    {
        match *lexeme {
            TokenView::Mark {
                mark: Mark::Equal,
                ..
            } => {
                let draft = TypeDraft {
                    before: decls,
                    name,
                    cons: Vec::new(self.alloc),
                };
                let draft = Box::new(self.alloc, draft)?;
                self.go(0, State::InDecl(DeclState::WantCon(draft)))
            }
            _ => Err(Halt::Stuck),
        }
    }

    #[tactic(auto, unfolding(camelot_grammar::specs::Machine::type_step))]
    fn want_con(&mut self, draft: Box<TypeDraft>, lexeme: &TokenView<'_>) -> Result<(), Halt>
        ensures { Does (type_step (WantCon (type_draft_of draft.value)) (seen lexeme.now) (stack_of self.old.stack.items)) self.new result }
    {
        match *lexeme {
            TokenView::Mark {
                mark: Mark::Bang,
                ..
            } => self.go(0, State::InDecl(DeclState::InlineCon(draft))),
            TokenView::Upper { word, line } => {
                let name = to_name(self.alloc, word, line)?;
                self.go(0, State::InDecl(DeclState::BareCon(draft, name)))
            }
            _ => Err(Halt::Stuck),
        }
    }

    #[tactic(auto, unfolding(camelot_grammar::specs::Machine::type_step))]
    fn inline_con(&mut self, draft: Box<TypeDraft>, lexeme: &TokenView<'_>) -> Result<(), Halt>
        ensures { Does (type_step (InlineCon (type_draft_of draft.value)) (seen lexeme.now) (stack_of self.old.stack.items)) self.new result }
    {
        match *lexeme {
            TokenView::Upper { word, line } => {
                let name = to_name(self.alloc, word, line)?;
                let draft = with_con(draft, name, true, Vec::new(self.alloc))?;
                self.go(0, State::InDecl(DeclState::HaveCon(draft)))
            }
            _ => Err(Halt::Stuck),
        }
    }

    #[tactic(auto, unfolding(camelot_grammar::specs::Machine::type_step))]
    fn bare_con(
        &mut self,
        draft: Box<TypeDraft>,
        name: Name,
        lexeme: &TokenView<'_>,
    ) -> Result<(), Halt>
        ensures { Does (type_step (BareCon (type_draft_of draft.value) name) (seen lexeme.now) (stack_of self.old.stack.items)) self.new result }
    {
        let fields = Vec::new(self.alloc);
        match *lexeme {
            TokenView::Mark { mark: Mark::Of, .. } => {
                let con = Box::new(self.alloc, ConDraft { name, fields })?;
                self.go(0, State::InDecl(DeclState::WantField(draft, con)))
            }
            _ => {
                let draft = with_con(draft, name, false, fields)?;
                self.have_con(draft, lexeme)
            }
        }
    }

    #[tactic(auto, unfolding(camelot_grammar::specs::Machine::type_step))]
    fn want_field(
        &mut self,
        draft: Box<TypeDraft>,
        mut con: Box<ConDraft>,
        lexeme: &TokenView<'_>,
    ) -> Result<(), Halt>
        ensures { Does (type_step (WantField (type_draft_of draft.value) con.value.name con.value.fields.items)
            (seen lexeme.now) (stack_of self.old.stack.items)) self.new result }
    {
        match atom(self.alloc, lexeme)? {
            Some(field) => {
                con.fields.push(field)?;
                self.go(0, State::InDecl(DeclState::HaveField(draft, con)))
            }
            None => Err(Halt::Stuck),
        }
    }

    #[tactic(auto, unfolding(camelot_grammar::specs::Machine::type_step))]
    fn have_field(
        &mut self,
        draft: Box<TypeDraft>,
        con: Box<ConDraft>,
        lexeme: &TokenView<'_>,
    ) -> Result<(), Halt>
        ensures { Does (type_step (HaveField (type_draft_of draft.value) con.value.name con.value.fields.items)
            (seen lexeme.now) (stack_of self.old.stack.items)) self.new result }
    {
        match *lexeme {
            TokenView::Mark {
                mark: Mark::Star,
                ..
            } => self.go(0, State::InDecl(DeclState::WantField(draft, con))),
            _ => {
                let ConDraft { name, fields } = Box::into_inner(con);
                let draft = with_con(draft, name, false, fields)?;
                self.have_con(draft, lexeme)
            }
        }
    }

    /// One token of a declaration.
    #[tactic(auto, unfolding(camelot_grammar::specs::Machine::decl_step))]
    pub fn decl(&mut self, state: DeclState, lexeme: &TokenView<'_>) -> Result<(), Halt>
        ensures { Does (decl_step (decl_of state) (seen lexeme.now) (stack_of self.old.stack.items)) self.new result }
    {
        match state {
            DeclState::Top(decls) => self.top(decls, lexeme),
            DeclState::TypeName(decls) => self.type_name(decls, lexeme),
            DeclState::TypeEquals(decls, name) => self.type_equals(decls, name, lexeme),
            DeclState::WantCon(draft) => self.want_con(draft, lexeme),
            DeclState::InlineCon(draft) => self.inline_con(draft, lexeme),
            DeclState::BareCon(draft, name) => self.bare_con(draft, name, lexeme),
            DeclState::WantField(draft, con) => self.want_field(draft, con, lexeme),
            DeclState::HaveField(draft, con) => self.have_field(draft, con, lexeme),
            DeclState::HaveCon(draft) => self.end_con(draft, lexeme),
            DeclState::FunName(decls) => self.fun_name(decls, lexeme),
            DeclState::FirstParam(decls, name) => self.first_param(decls, name, lexeme),
            DeclState::NextParam(draft) => self.next_param(draft, lexeme),
            DeclState::OpenParam(draft) => self.open_param(draft, lexeme),
            DeclState::ReadParam(draft) => self.read_param(draft, lexeme),
            DeclState::ParamName(draft, name, read) => self.param_name(draft, name, read, lexeme),
            DeclState::ParamKind(draft, name, read) => self.param_kind(draft, name, read, lexeme),
            DeclState::ParamClose(draft, param) => self.param_close(draft, param, lexeme),
            DeclState::ResultKind(draft) => self.result_kind(draft, lexeme),
            DeclState::ResultEquals(draft, kind) => self.result_equals(draft, kind, lexeme),
        }
    }

    // Behind an inline constructor.
    #[tactic(auto, unfolding(camelot_grammar::specs::Machine::type_step))]
    fn end_con(&mut self, draft: Box<TypeDraft>, lexeme: &TokenView<'_>) -> Result<(), Halt>
        ensures { Does (type_step (HaveCon (type_draft_of draft.value)) (seen lexeme.now) (stack_of self.old.stack.items)) self.new result }
    {
        self.have_con(draft, lexeme)
    }
}
