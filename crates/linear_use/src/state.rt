ghost use Rattle.std.specs.Prelude.{◌≡◌, ◌<◌, ◌+◌, suc, length, Some, OnOk};
ghost use Rattle.std.specs.Option.{option_or};
ghost use Rattle.camelot_typing.specs.Kinds.{bind};
ghost use Rattle.linear_use.specs.declared.fault.UseFault.TheVariants.{Twice, ReadMatch, Lent};

use crate::fault::UseFault;
use crate::spent::Spent;
use crate::variable::Variable;
use camelot_names::Scope;
use camelot_tree::Name;
use camelot_values::Kind;
use std::alloc::{AllocError, Global};

/// Where a walk through a function stands.
#[derive(Drop)]
pub(crate) struct State<'a> {
    pub(crate) scope: Scope<'a, Variable>,
    pub(crate) spent: Spent,
    /// The number that the next variable gets.
    pub(crate) next: usize,
    /// How many expressions have been walked to their end.
    pub(crate) position: usize,
    /// The first fault in text order of what was walked.
    pub(crate) fault: Option<UseFault>,
}

impl<'a> State<'a> {
    /// Binds a variable of this kind, lent or owned.
    pub(crate) fn bind(&mut self, name: &'a Name, kind: Kind, lent: bool) -> Result<(), AllocError>
        ensures scope { OnOk result (self.new.scope ≡ bind name.now.word (record { number = self.old.next; kind = kind; lent = lent }) self.old.scope) }
        ensures next { OnOk result (self.new.next ≡ suc self.old.next) }
        ensures spent { OnOk result (self.new.spent ≡ self.old.spent) }
        ensures position { OnOk result (self.new.position ≡ self.old.position) }
        ensures fault { OnOk result (self.new.fault ≡ self.old.fault) }
    {
        let number = self.next;
        self.spent.count(number)?;
        self.next = number + 1;
        self.scope
            .bind(name.word.bytes(), Variable { number, kind, lent })?;
        Ok(())
    }

    /// The next of these expressions has been walked to its end.
    pub(crate) fn finish(&mut self, exprs: &[Kind])
        requires { self.old.position < length exprs.now }
        ensures { self.new ≡ record self.old { position = self.old.position + 1 } }
    {
        let _count = exprs.len();
        self.position += 1;
    }

    /// A variable occurs again that is spent. This stands behind all that was found.
    pub(crate) fn twice(&mut self, alloc: Global, name: &Name) -> Result<(), AllocError>
        ensures { OnOk result (self.new ≡ record self.old { fault = option_or self.old.fault (Some (Twice name.now.word name.now.line)) }) }
    {
        if self.fault.is_some() {
            return Ok(());
        }
        self.twice_first(alloc, name)
    }

    /// The same, in front of all that was found.
    pub(crate) fn twice_first(&mut self, alloc: Global, name: &Name) -> Result<(), AllocError>
        ensures { OnOk result (self.new ≡ record self.old { fault = Some (Twice name.now.word name.now.line) }) }
    {
        let name_copy = name.word.copy(alloc)?;
        self.fault = Some(UseFault::Twice {
            name: name_copy,
            line: name.line as u64,
        });
        Ok(())
    }

    /// A variable that is lent would be taken. This stands behind all that was found.
    pub(crate) fn lent(&mut self, alloc: Global, name: &Name) -> Result<(), AllocError>
        ensures { OnOk result (self.new ≡ record self.old { fault = option_or self.old.fault (Some (Lent name.now.word name.now.line)) }) }
    {
        if self.fault.is_some() {
            return Ok(());
        }
        let name_copy = name.word.copy(alloc)?;
        self.fault = Some(UseFault::Lent {
            name: name_copy,
            line: name.line as u64,
        });
        Ok(())
    }

    /// An arm of this constructor has no `@`. This stands behind all that was found.
    pub(crate) fn read_match(&mut self, alloc: Global, con: &Name) -> Result<(), AllocError>
        ensures { OnOk result (self.new ≡ record self.old { fault = option_or self.old.fault (Some (ReadMatch con.now.word con.now.line)) }) }
    {
        if self.fault.is_some() {
            return Ok(());
        }
        let name_copy = con.word.copy(alloc)?;
        self.fault = Some(UseFault::ReadMatch {
            name: name_copy,
            line: con.line as u64,
        });
        Ok(())
    }
}
