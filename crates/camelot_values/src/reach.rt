ghost use Rattle.std.specs.Prelude.{◌≡◌, ◌≢◌, ℕ, ◌<◌, ◌≤◌, ◌↔◌, IsTrue, length, map, slice_get, slice_set, MatchOption, Some};
ghost use Rattle.camelot_values.specs.Kinds.{data_type_of, constructor_of};
ghost use Rattle.camelot_values.specs.Heap.{fields_of, fields_at, IsLedTo};
ghost use Rattle.camelot_values.specs.Search.{wait, spread, NoneWaits, Searched};
ghost use Rattle.camelot_values.specs.declared.reach.Mark.TheVariants.{New, Waiting, Seen};

use super::kinds::{Con, Kind, TypeDef};

/// How many types there may be.
pub(crate) const MOST_TYPES: usize = 64;

// What a search through the types knows of one of them.
#[derive(Clone, Copy, Debug, PartialEq, Eq)]
pub(crate) enum Mark {
    // It wasn't met.
    New,
    // It was met, and its fields are still to be looked at.
    Waiting,
    // It was met, and so were the types of its fields.
    Seen,
}

// Whether the type at this place was met.
fn is_met(marks: &[Mark], place: usize) -> bool
    requires { place < length marks.now }
    ensures { IsTrue result ↔ (slice_get marks.now place ≢ Some New) }
{
    match marks[place] {
        Mark::New => false,
        Mark::Waiting | Mark::Seen => true,
    }
}

// Marks the type of this kind as met.
fn meet(marks: &mut [Mark], kind: Kind)
    ensures { marks.new ≡ wait kind marks.old }
{
    if let Kind::Of(number) = kind {
        let place = number as usize;
        if place < marks.len() && marks[place] == Mark::New {
            marks[place] = Mark::Waiting;
        }
    }
}

// Marks the types of the constructor's fields.
fn meet_fields(marks: &mut [Mark], con: &Con)
    ensures { marks.new ≡ spread (constructor_of con.now).fields marks.old }
{
    'fields: for kind in &con.fields {
        meet(marks, *kind);
    }
}

// Marks the types of all fields of the type's constructors.
#[tactic(auto, using(crate::proofs::SearchLaws::one_con_more))]
fn meet_all(marks: &mut [Mark], def: &TypeDef)
    ensures { marks.new ≡ spread (fields_of (data_type_of def.now)) marks.old }
{
    'cons: for con in &def.cons {
        meet_fields(marks, con);
    }
}

// The first type that waits.
fn first_waiting(marks: &[Mark]) -> Option<usize>
    ensures { MatchOption result (NoneWaits marks.now) (λ place. slice_get marks.now place ≡ Some Waiting) }
{
    for (place, mark) in marks.iter().enumerate() {
        if *mark == Mark::Waiting {
            return Some(place);
        }
    }
    None
}

// Looks at the fields of the type at this place, which is then done.
fn visit(types: &[TypeDef], marks: &mut [Mark], place: usize)
    requires { place < length marks.old }
    ensures { marks.new ≡ spread (fields_at (map data_type_of types.now) place) (slice_set marks.old place Seen) }
{
    marks[place] = Mark::Seen;
    if let Some(def) = types.get(place) {
        meet_all(marks, def);
    }
}

// Visits types until none waits.
#[tactic(auto, using(crate::proofs::SearchLaws::less_left, crate::proofs::SearchLaws::is_within))]
fn search(types: &[TypeDef], first: usize, marks: &mut [Mark])
    requires { Searched (map data_type_of types.now) first marks.old }
    ensures searched { Searched (map data_type_of types.now) first marks.new }
    ensures done { NoneWaits marks.new }
{
    'search: while let Some(place) = first_waiting(marks) {
        visit(types, marks, place);
    }
}

// The marks after a search from type `first`. There are at most 64 types.
pub(crate) fn search_from(types: &[TypeDef], first: usize) -> [Mark; MOST_TYPES]
    requires few { length types.now ≤ 64 }
    requires first { first < MOST_TYPES }
    ensures searched { Searched (map data_type_of types.now) first result }
    ensures done { NoneWaits result }
{
    let mut marks = [Mark::New; MOST_TYPES];
    marks[first] = Mark::Waiting;
    search(types, first, &mut marks);
    marks
}

// Whether type `last` stands in type `first` itself or in its fields, followed to the end, by the marks of a search
// from there.
pub(crate) fn is_led_to(types: &[TypeDef], first: usize, marks: &[Mark], last: usize) -> bool
    requires few { length types.now ≤ 64 }
    requires last { last < MOST_TYPES }
    requires searched { Searched (map data_type_of types.now) first marks.now }
    requires done { NoneWaits marks.now }
    ensures { IsTrue result ↔ IsLedTo (map data_type_of types.now) first last }
{
    is_met(marks, last)
}

/// Whether type `last` stands in type `first` itself or in its fields, followed to the end. There are at most 64 types.
pub(crate) fn leads(types: &[TypeDef], first: usize, last: usize) -> bool
    requires few { length types.now ≤ 64 }
    requires first { first < MOST_TYPES }
    requires last { last < MOST_TYPES }
    ensures { IsTrue result ↔ IsLedTo (map data_type_of types.now) first last }
{
    let marks = search_from(types, first);
    is_led_to(types, first, &marks, last)
}
