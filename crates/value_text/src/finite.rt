ghost use Rattle.std.specs.Prelude.{◌≡◌, ◌<◌, ◌≤◌, map, length, MatchOption};
ghost use Rattle.std.specs.List.{list_all, list_any};
ghost use Rattle.camelot_values.specs.Kinds.{data_type_of, constructor_of};
ghost use Rattle.value_text.specs.Finite.{is_marked, has_value, is_ready, all_ready, Sound, NoneReady, ReadyAt, Exact, is_next};

use camelot_values::{Con, Kind, TypeDef, Types};

// How many types there may be.
pub(crate) const MOST_TYPES: usize = 64;

// Whether the type is marked.
fn is_marked(marks: &[bool], number: usize) -> bool
    ensures { result ≡ is_marked marks.now number }
{
    match marks.get(number) {
        Some(marked) => *marked,
        None => false,
    }
}

// Whether the marks say that the kind has a value.
pub(crate) fn has_value(marks: &[bool], kind: Kind) -> bool
    ensures { result ≡ has_value marks.now kind }
{
    match kind {
        Kind::Of(number) => is_marked(marks, number as usize),
        Kind::Int | Kind::Flag | Kind::Dia => true,
    }
}

// Whether the marks say that all fields of the constructor have values.
#[tactic(auto, using(crate::proofs::FinitySteps::all_here, crate::proofs::FinitySteps::all_not))]
pub(crate) fn is_ready(marks: &[bool], con: &Con) -> bool
    ensures { result ≡ is_ready marks.now (constructor_of con.now) }
{
    'fields: for kind in &con.fields {
        if !has_value(marks, *kind) {
            return false;
        }
    }
    true
}

// Whether some constructor of the type has fields that all have values.
#[tactic(auto, using(crate::proofs::FinitySteps::any_here, crate::proofs::FinitySteps::any_later))]
fn has_ready(marks: &[bool], def: &TypeDef) -> bool
    ensures { result ≡ list_any (is_ready marks.now) (data_type_of def.now).cons }
{
    'cons: for con in &def.cons {
        if is_ready(marks, con) {
            return true;
        }
    }
    false
}

// Whether all fields of the type's constructors have values.
#[tactic(auto, using(crate::proofs::FinitySteps::con_ready, crate::proofs::FinitySteps::con_unready))]
fn has_all_ready(marks: &[bool], def: &TypeDef) -> bool
    ensures { result ≡ list_all (is_ready marks.now) (data_type_of def.now).cons }
{
    'cons: for con in &def.cons {
        if !is_ready(marks, con) {
            return false;
        }
    }
    true
}

// Whether the marks say that each field of each constructor has a value.
#[tactic(auto, using(crate::proofs::FinitySteps::type_ready, crate::proofs::FinitySteps::type_unready))]
pub(crate) fn are_ready(marks: &[bool], types: &[TypeDef]) -> bool
    ensures { result ≡ all_ready marks.now (map data_type_of types.now) }
{
    'types: for def in types {
        if !has_all_ready(marks, def) {
            return false;
        }
    }
    true
}

// Whether the type is to be marked next.
fn is_next(marks: &[bool], number: usize, def: &TypeDef) -> bool
    ensures { result ≡ is_next marks.now number (data_type_of def.now) }
{
    if is_marked(marks, number) {
        false
    } else {
        has_ready(marks, def)
    }
}

// The first type that isn't marked and has such a constructor.
#[tactic(auto, using(crate::proofs::FinitySteps::ready_at, crate::proofs::FinitySteps::none_ready, crate::proofs::FinitySteps::one_passed))]
fn first_ready(types: &[TypeDef], marks: &[bool]) -> Option<usize>
    ensures { MatchOption result (NoneReady (map data_type_of types.now) marks.now) (λ number. ReadyAt (map data_type_of types.now) marks.now number) }
{
    for (number, def) in types.iter().enumerate() {
        if is_next(marks, number, def) {
            return Some(number);
        }
    }
    None
}

// Marks types until no more have such a constructor.
#[tactic(auto, using(crate::proofs::FinitySteps::within_types, crate::proofs::FinitySteps::sound_more, crate::proofs::FinitySteps::less_left, crate::proofs::FinitySteps::length_marks))]
fn mark_all(types: &[TypeDef], marks: &mut [bool])
    requires few { length types.now ≤ 64 }
    requires size { length marks.old ≡ 64 }
    requires sound { Sound (map data_type_of types.now) marks.old }
    ensures sound { Sound (map data_type_of types.now) marks.new }
    ensures done { NoneReady (map data_type_of types.now) marks.new }
{
    'marking: while let Some(number) = first_ready(types, marks) {
        marks[number] = true;
    }
}

/// For each type by its number, whether it has a value.
#[tactic(auto, using(crate::proofs::Finiteness::exact_marks, crate::proofs::FinitySteps::few_defs))]
pub(crate) fn finite_types(types: &Types) -> [bool; MOST_TYPES]
    ensures { Exact types.now result }
{
    types.limits();
    let mut marks = [false; MOST_TYPES];
    mark_all(types.defs(), &mut marks);
    marks
}
