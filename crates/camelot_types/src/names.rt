//! Names that stand before, and faults that name them.

ghost use Rattle.std.specs.Prelude.{◌≡◌, List, [], map, IfOk};
ghost use Rattle.camelot_values.specs.Names.{stands};
ghost use Rattle.camelot_tree.specs.declared.tree.Name.{Name};
ghost use Rattle.camelot_types.specs.declared.fault.TypeFault.TheVariants.{UnknownName, Duplicate};
ghost use Rattle.camelot_types.specs.Solving.{Stops, arity_checked, place_checked, names_checked, repeat_checked};
ghost use Rattle.camelot_types.specs.Doing.{StopsWith, Allows};

use crate::fault::TypeFault;
use camelot_tree::Name;
use std::alloc::Global;
use stops::Stop;

/// The fault at a name that isn't there.
pub(crate) fn unknown_name(alloc: Global, name: &Name) -> Stop<TypeFault>
    ensures { StopsWith {A = Unit {0}} (Stops (UnknownName name.now.word name.now.line)) result }
{
    match name.word.copy(alloc) {
        Ok(word) => Stop::Fault(TypeFault::UnknownName {
            name: word,
            line: u64::from(name.line),
        }),
        Err(_) => Stop::Memory,
    }
}

/// A name that stands before.
pub(crate) fn duplicate(alloc: Global, name: &Name) -> Stop<TypeFault>
    ensures { StopsWith {A = Unit {0}} (Stops (Duplicate name.now.word name.now.line)) result }
{
    match name.word.copy(alloc) {
        Ok(word) => Stop::Fault(TypeFault::Duplicate {
            name: word,
            line: u64::from(name.line),
        }),
        Err(_) => Stop::Memory,
    }
}

/// Whether the name is one of these.
pub(crate) fn stands(earlier: &[&Name], name: &Name) -> bool
    ensures { result ≡ stands (map (λ n. n.now.word) earlier.now) name.now.word }
{
    'earlier: for other in earlier {
        if name.word.bytes() == other.word.bytes() {
            return true;
        }
    }
    false
}

/// Refuses a name that stands twice among these.
#[tactic(auto, unfolding(crate::specs::Solving::names_checked))]
pub(crate) fn check_names(alloc: Global, names: &[&Name]) -> Result<(), Stop<TypeFault>>
    ensures { Allows (names_checked [] (map (λ n. n.now) names.now)) result }
{
    'names: for (index, name) in names.iter().enumerate() {
        if stands(&names[..index], name) {
            return Err(duplicate(alloc, name));
        }
    }
    Ok(())
}

/// Refuses a wrong number of arguments or fields.
#[tactic(auto, unfolding(crate::specs::Solving::arity_checked))]
pub(crate) fn check_arity(
    alloc: Global,
    name: &Name,
    have: usize,
    need: usize,
) -> Result<(), Stop<TypeFault>>
    ensures { Allows (arity_checked name.now have need) result }
{
    if have == need {
        return Ok(());
    }
    Err(Stop::Fault(TypeFault::Arity {
        name: name.word.copy(alloc)?,
        have: have as u64,
        need: need as u64,
        line: u64::from(name.line),
    }))
}

/// Refuses an `@` on an inline constructor.
#[tactic(auto, unfolding(crate::specs::Solving::place_checked))]
pub(crate) fn check_place(
    alloc: Global,
    con: &Name,
    inline: bool,
    placed: bool,
) -> Result<(), Stop<TypeFault>>
    ensures { Allows (place_checked con.now inline placed) result }
{
    if !inline || !placed {
        return Ok(());
    }
    Err(Stop::Fault(TypeFault::PlaceOnInline {
        con: con.word.copy(alloc)?,
        line: u64::from(con.line),
    }))
}

/// Refuses a constructor that an earlier arm has.
#[tactic(auto, unfolding(crate::specs::Solving::repeat_checked))]
pub(crate) fn check_repeat(
    alloc: Global,
    con: &Name,
    number: u32,
    earlier: &[u32],
) -> Result<(), Stop<TypeFault>>
    ensures { Allows (repeat_checked con.now number earlier.now) result }
{
    if !earlier.contains(&number) {
        return Ok(());
    }
    Err(Stop::Fault(TypeFault::RepeatedArm {
        con: con.word.copy(alloc)?,
        line: u64::from(con.line),
    }))
}
