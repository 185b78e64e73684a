//! What is known of constructors, by their numbers.

ghost use Rattle.std.specs.Prelude.{◌≡◌, ◌++◌, map, IfOk, OnOk};
ghost use Rattle.camelot_values.specs.Kinds.{constructor_of};
ghost use Rattle.camelot_types.specs.Facts.{fact_at, fact_of, facts_from};

use camelot_values::{Con, Types};
use std::alloc::{AllocError, Global};

/// A constructor, and the number of its type.
#[derive(Clone, Copy)]
pub(crate) struct ConFact<'t> {
    pub(crate) con: &'t Con,
    pub(crate) owner: u32,
}

// The constructors of the type of this number, behind the others.
fn add_facts<'t>(
    facts: &mut Vec<ConFact<'t>>,
    owner: u32,
    cons: &'t [Con],
) -> Result<(), AllocError>
    ensures { OnOk result (map fact_of facts.new.items ≡ map fact_of facts.old.items ++ map (fact_at owner) (map constructor_of cons.now)) }
{
    'cons: for con in cons {
        facts.push(ConFact { con, owner })?;
    }
    Ok(())
}

/// Each constructor with its type, by its number.
pub(crate) fn con_facts<'t>(alloc: Global, types: &'t Types) -> Result<Vec<ConFact<'t>>, AllocError>
    ensures { IfOk result (λ facts. map fact_of facts.items ≡ facts_from 0 types.now) }
{
    types.limits();
    let mut facts = Vec::new(alloc);
    let mut owner = 0;
    let defs = types.defs();
    'types: for def in defs {
        add_facts(&mut facts, owner, &def.cons)?;
        owner += 1;
    }
    Ok(facts)
}
