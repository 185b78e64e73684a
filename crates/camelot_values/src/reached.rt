ghost use Rattle.std.specs.Prelude.{◌≡◌, ◌++◌, ◌+◌, ◌≤◌, ◌<◌, length, cond, [], IfOk, OnOk};
ghost use Rattle.std.specs.List.{range_with_len};
ghost use Rattle.camelot_values.specs.Heap.{reached};
ghost use Rattle.camelot_values.specs.Search.{passes, numbers_where, Searched, NoneWaits};

use super::kinds::{Kind, Types};
use super::reach::{MOST_TYPES, Mark, is_led_to, search_from};
use std::alloc::{AllocError, Global};

// Adds so many numbers, from the first on.
#[tactic(auto, using(crate::proofs::ReachSteps::one_number_on))]
fn push_numbers(found: &mut Vec<u32>, first: u32, count: u32) -> Result<(), AllocError>
    requires { first + count ≤ 4294967295 }
    ensures { OnOk result (found.new.items ≡ found.old.items ++ range_with_len first count) }
{
    for number in first..first + count {
        found.push(number)?;
    }
    Ok(())
}

// Adds so many numbers, from the first on, or none.
fn push_where(found: &mut Vec<u32>, wanted: bool, first: u32, count: u32) -> Result<(), AllocError>
    requires { first + count ≤ 4294967295 }
    ensures { OnOk result (found.new.items ≡ found.old.items ++ cond wanted (range_with_len first count) []) }
{
    if wanted {
        push_numbers(found, first, count)
    } else {
        Ok(())
    }
}

impl Types {
    // Whether the type is a heap type that stands in type `first`, by the marks of a search from there.
    #[tactic(auto, using(crate::proofs::ReachSteps::passes_test, crate::proofs::ReachSteps::passes_not))]
    fn passes(&self, first: usize, marks: &[Mark], number: usize) -> bool
        requires first { number < MOST_TYPES }
        requires few { length self.now ≤ 64 }
        requires searched { Searched self.now first marks.now }
        requires done { NoneWaits marks.now }
        ensures { result ≡ passes self.now first number }
    {
        if self.is_heap(Kind::Of(number as u32)) {
            is_led_to(self.defs(), first, marks, number)
        } else {
            false
        }
    }

    // The numbers of the constructors of those heap types that stand in type `first`, by the marks of a search from
    // there.
    #[tactic(auto, using(crate::proofs::ReachSteps::all_types, crate::proofs::ReachSteps::few_defs, crate::proofs::ReachSteps::few_cons))]
    fn passing(&self, alloc: Global, first: usize, marks: &[Mark]) -> Result<Vec<u32>, AllocError>
        requires searched { Searched self.now first marks.now }
        requires done { NoneWaits marks.now }
        ensures { IfOk result (λ list. list.items ≡ numbers_where (passes self.now first) 0 0 self.now) }
    {
        self.limits();
        let mut found = Vec::new(alloc);
        let mut next = 0;
        for (number, def) in self.defs().iter().enumerate() {
            let count = def.cons.len() as u32;
            push_where(&mut found, self.passes(first, marks, number), next, count)?;
            next += count;
        }
        Ok(found)
    }

    /// The numbers of the constructors that the kind reaches, ascending: those of the heap types that stand in the kind
    /// itself or in its fields, followed to the end. `AllocError` where memory runs out.
    #[tactic(auto, using(crate::proofs::ReachSteps::few_defs, crate::proofs::ReachSteps::reached_here))]
    pub fn reached(&self, alloc: Global, kind: Kind) -> Result<Vec<u32>, AllocError>
        ensures { IfOk result (λ list. list.items ≡ reached self.now kind) }
    {
        self.limits();
        match kind {
            Kind::Int | Kind::Flag | Kind::Dia => Ok(Vec::new(alloc)),
            Kind::Of(number) => {
                let first = number as usize;
                if first >= MOST_TYPES {
                    return Ok(Vec::new(alloc));
                }
                let marks = search_from(self.defs(), first);
                let found = self.passing(alloc, first, &marks)?;
                Ok(found)
            }
        }
    }
}
