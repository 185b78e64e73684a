ghost use Rattle.std.specs.Prelude.{◌≡◌, ℕ, List, ◌<◌, length, MatchResult};
ghost use Rattle.std.specs.List.{list_all};
ghost use Rattle.camelot_values.specs.Value.{Value};
ghost use Rattle.stops.specs.Stopping.{FaultIs};
ghost use Rattle.value_text.specs.Grammar.{AreNamed, DistinctNames, IsRead, IsTooLong, IsBadShape};
ghost use Rattle.value_text.specs.Answers.{IsFault, IsMemory, IsBadAt, IsLongBy};
ghost use Rattle.value_text.specs.Finite.{has_value};
ghost use Rattle.value_text.specs.Inhabited.{Knows};
ghost use Rattle.value_text.specs.Due.{Whole, first_due};
ghost use Rattle.value_text.specs.Only.{OnlyRead, OnlyFault, IsBad};

use super::finite::has_value;
use super::inhabited::Inhabited;
use super::reading::{TextStop, read_items};
use super::splitting::split_values;
use camelot_values::{Flat, Item, Kind, Types};
use std::alloc::Global;
use stops::Stop;
use thiserror::Error;

/// How many nodes the values of a text may have in all.
const MOST_ITEMS: usize = 65_536;

/// Why a text is refused.
#[derive(Clone, Copy, Debug, PartialEq, Eq, Error)]
pub enum ValueFault {
    /// The text isn't of values of the kinds. `at` is the length of its longest front that begins such a text; 0 where
    /// nothing is one.
    #[error("no values of these kinds at byte {at}")]
    BadShape { at: u64 },
    /// The values have so many nodes in all, more than 65,536.
    #[error("the values have {items} nodes")]
    TooLong { items: u64 },
}

// Whether each of these kinds has a value.
#[tactic(auto, using(crate::proofs::FinitySteps::all_here, crate::proofs::FinitySteps::all_not))]
fn all_have_values(marks: &[bool], kinds: &[Kind]) -> bool
    ensures { result ≡ list_all (has_value marks.now) kinds.now }
{
    'kinds: for kind in kinds {
        if !has_value(marks, *kind) {
            return false;
        }
    }
    true
}

// The nodes that the text is of.
fn read_nodes(
    alloc: Global,
    text: &[u8],
    types: &Types,
    inhabited: &Inhabited,
    kinds: &[Kind],
) -> Result<Vec<Item>, Stop<ValueFault>>
    requires knows { Knows types.now inhabited.now }
    requires named { AreNamed types.now }
    requires distinct { DistinctNames types.now }
    ensures { MatchResult result (λ items. Whole types.now (first_due kinds.now) text.now items.items)
        (λ stop. FaultIs (IsBad types.now kinds.now text.now) stop) }
{
    if !all_have_values(&inhabited.marks, kinds) {
        return Err(Stop::Fault(ValueFault::BadShape { at: 0 }));
    }
    match read_items(alloc, types, inhabited, kinds, text) {
        Ok(items) => Ok(items),
        Err(TextStop::Memory) => Err(Stop::Memory),
        Err(TextStop::At(at)) => Err(Stop::Fault(ValueFault::BadShape { at: at as u64 })),
    }
}

// What the text is read as, with the law that it is nothing else.
#[tactic(auto, using(crate::proofs::Answering::bad_fault))]
fn read_whole(
    alloc: Global,
    text: &[u8],
    types: &Types,
    inhabited: &Inhabited,
    kinds: &[Kind],
) -> Result<Vec<Flat>, Stop<ValueFault>>
    requires knows { Knows types.now inhabited.now }
    requires named { AreNamed types.now }
    requires distinct { DistinctNames types.now }
    ensures { MatchResult result (λ values. OnlyRead types.now kinds.now text.now values.items)
        (λ stop. FaultIs (OnlyFault types.now kinds.now text.now) stop) }
{
    let items = read_nodes(alloc, text, types, inhabited, kinds)?;
    if items.len() > MOST_ITEMS {
        return Err(Stop::Fault(ValueFault::TooLong {
            items: items.len() as u64,
        }));
    }
    match split_values(alloc, items, kinds.len()) {
        Ok(values) => Ok(values),
        Err(_) => Err(Stop::Memory),
    }
}

/// Reads a text of one value for each of these kinds, at least one space between two values, and any number of spaces
/// before, after, and around `(`, `,` and `)`. An int is `-` or nothing and then `0` or digits without a leading zero,
/// from -2147483648 to 2147483647; `-0` is 0. The names of constructors are upper names, and no two are the same.
/// `BadShape` comes exactly where the text isn't of such values, and `TooLong` exactly where it is, and they have more
/// than 65,536 nodes in all. [`Stop::Memory`] is no answer about the text. Which types have values was looked up
/// before, once for many texts.
#[tactic(auto, using(crate::proofs::Answering::read_found, crate::proofs::Answering::fault_found, crate::proofs::Answering::read_same, crate::proofs::Answering::read_fault, crate::proofs::Answering::read_bad, crate::proofs::Answering::fault_bad, crate::proofs::Answering::read_long, crate::proofs::Answering::fault_long))]
pub fn read_known(
    alloc: Global,
    text: &[u8],
    types: &Types,
    inhabited: &Inhabited,
    kinds: &[Kind],
) -> Result<Vec<Flat>, Stop<ValueFault>>
    requires short { length text.now < 4294967296 }
    requires knows { Knows types.now inhabited.now }
    requires named { AreNamed types.now }
    requires distinct { DistinctNames types.now }
    // What stands behind each answer.
    ensures found { MatchResult result (λ values. IsRead types.now kinds.now text.now values.items)
        (λ stop. FaultIs (IsFault types.now kinds.now text.now) stop) }
    // The text of few enough values is read as these values.
    ensures read { (values : List Value) → IsRead types.now kinds.now text.now values →
        MatchResult result (λ found. found.items ≡ values) (λ stop. IsMemory stop) }
    // A text that isn't of such values is answered with the place where it goes wrong.
    ensures bad { (at : ℕ) → IsBadShape types.now kinds.now text.now at → MatchResult result (λ found. ⊥) (λ stop. IsBadAt at stop) }
    // The text of too many values is answered with how many nodes they have.
    ensures long { (items : ℕ) → IsTooLong types.now kinds.now text.now items → MatchResult result (λ found. ⊥) (λ stop. IsLongBy items stop) }
{
    match read_whole(alloc, text, types, inhabited, kinds) {
        Ok(values) => Ok(values),
        Err(stop) => Err(stop),
    }
}

/// The same, where it wasn't looked up before which types have values.
pub fn read(
    alloc: Global,
    text: &[u8],
    types: &Types,
    kinds: &[Kind],
) -> Result<Vec<Flat>, Stop<ValueFault>>
    requires short { length text.now < 4294967296 }
    requires named { AreNamed types.now }
    requires distinct { DistinctNames types.now }
    // What stands behind each answer.
    ensures found { MatchResult result (λ values. IsRead types.now kinds.now text.now values.items)
        (λ stop. FaultIs (IsFault types.now kinds.now text.now) stop) }
    // The text of few enough values is read as these values.
    ensures read { (values : List Value) → IsRead types.now kinds.now text.now values →
        MatchResult result (λ found. found.items ≡ values) (λ stop. IsMemory stop) }
    // A text that isn't of such values is answered with the place where it goes wrong.
    ensures bad { (at : ℕ) → IsBadShape types.now kinds.now text.now at → MatchResult result (λ found. ⊥) (λ stop. IsBadAt at stop) }
    // The text of too many values is answered with how many nodes they have.
    ensures long { (items : ℕ) → IsTooLong types.now kinds.now text.now items → MatchResult result (λ found. ⊥) (λ stop. IsLongBy items stop) }
{
    read_known(alloc, text, types, &Inhabited::of(types), kinds)
}
