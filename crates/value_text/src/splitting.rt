ghost use Rattle.std.specs.Prelude.{◌≡◌, ◌≤◌, [], length, IfOk};
ghost use Rattle.camelot_values.specs.Value.{parts};
ghost use Rattle.camelot_values.specs.Items.{nodes, nodes_all};
ghost use Rattle.value_text.specs.Values.{BeginsValue, OfValues, ValueLength};

use super::writing::parts_of;
use camelot_values::{Flat, Item};
use std::alloc::{AllocError, Global};

// How many nodes the first value has.
#[tactic(auto, using(crate::proofs::ValueSteps::length_start, crate::proofs::ValueSteps::length_more, crate::proofs::ValueSteps::length_done))]
fn value_length(items: &[Item]) -> usize
    requires value { BeginsValue items.now }
    requires few { length items.now ≤ 65536 }
    ensures { ValueLength items.now result }
{
    let mut due = 1;
    let mut at = 0;
    'nodes: while due > 0 && at < items.len() {
        due = due - 1 + parts_of(&items[at]) as u32;
        at += 1;
    }
    at
}

// Cuts the first value off, and gives it with the nodes behind it.
#[tactic(auto, using(crate::proofs::ValueSteps::one_value, crate::proofs::ValueSteps::cut_there))]
fn cut_value<'a>(alloc: Global, items: &'a [Item]) -> Result<(Flat, &'a [Item]), AllocError>
    requires value { BeginsValue items.now }
    requires few { length items.now ≤ 65536 }
    ensures { IfOk result (λ cut. items.now ≡ nodes cut.0 cut.1.now) }
{
    let length = value_length(items);
    let value = Flat::of(Vec::from_slice(alloc, &items[..length])?);
    Ok((value, &items[length..]))
}

// The value whose nodes these are, with no copy of them.
#[tactic(auto, using(crate::proofs::ValueSteps::only_value, crate::proofs::ValueSteps::only_cut))]
fn whole_value(alloc: Global, items: Vec<Item>) -> Result<Vec<Flat>, AllocError>
    requires values { OfValues items.items 1 }
    ensures nodes { IfOk result (λ values. items.items ≡ nodes_all (parts values.items) []) }
    ensures count { IfOk result (λ values. length values.items ≡ 1) }
{
    let mut values = Vec::with_capacity(alloc, 1)?;
    values.push(Flat::of(items))?;
    Ok(values)
}

// The values whose nodes these are, each with a copy of its own.
#[tactic(auto, using(crate::proofs::ValueSteps::cuts_first, crate::proofs::ValueSteps::cuts_begin, crate::proofs::ValueSteps::cuts_more, crate::proofs::ValueSteps::cuts_few, crate::proofs::ValueSteps::cuts_done))]
fn cut_values(alloc: Global, items: &[Item], count: usize) -> Result<Vec<Flat>, AllocError>
    requires values { OfValues items.now count }
    requires few { length items.now ≤ 65536 }
    ensures nodes { IfOk result (λ values. items.now ≡ nodes_all (parts values.items) []) }
    ensures count { IfOk result (λ values. length values.items ≡ count) }
{
    let mut values = Vec::with_capacity(alloc, count)?;
    let mut rest = items;
    for _value in 0..count {
        let (value, after) = cut_value(alloc, rest)?;
        values.push(value)?;
        rest = after;
    }
    Ok(values)
}

// Gives back the room that the nodes don't fill, where it is worth a call.
fn give_room_back(items: &mut Vec<Item>)
    ensures { items.new.items ≡ items.old.items }
{
    if items.capacity() - items.len() > 32 {
        items.shrink_to_fit();
    }
}

/// The values whose nodes these are, one after the other. One value alone keeps the nodes where they were read.
pub(crate) fn split_values(
    alloc: Global,
    mut items: Vec<Item>,
    count: usize,
) -> Result<Vec<Flat>, AllocError>
    requires values { OfValues items.items count }
    requires few { length items.items ≤ 65536 }
    ensures nodes { IfOk result (λ values. items.items ≡ nodes_all (parts values.items) []) }
    ensures count { IfOk result (λ values. length values.items ≡ count) }
{
    if count == 1 {
        give_room_back(&mut items);
        whole_value(alloc, items)
    } else {
        cut_values(alloc, &items, count)
    }
}
