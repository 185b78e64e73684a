ghost use Rattle.std.specs.Prelude.{◌≡◌, ℕ, ◌<◌, ◌||◌, length, map, flat_map, slice_get, Some, IfOk};
ghost use Rattle.grail_code.specs.Code.{arm_of, term_of, block_of, func_of};
ghost use Rattle.std.specs.Option.{option_map};
ghost use Rattle.camelot_values.specs.Lists.{is_among};
ghost use Rattle.grail_code.specs.WellFormed.{local_kinds, is_read, looked_by, looked_at, looked_in};
ghost use Rattle.grail_check.specs.Marked.{mark_all, all_marks};

use grail_code::{Block, CaseArm, CaseCell, Func, Term};
use std::alloc::{AllocError, Global};

// Marks these locals, where they are there.
#[tactic(auto, using(std::proofs::lemmas::List::set_past))]
fn mark_all(reads: &mut [bool], locals: &[u32])
    ensures { reads.new ≡ mark_all reads.old locals.now }
{
    'locals: for local in locals {
        let place = *local as usize;
        if place < reads.len() {
            reads[place] = true;
        }
    }
}

// Marks the fields of an arm that leaves its cell as it is.
fn mark_arm(reads: &mut [bool], arm: &CaseArm)
    ensures { reads.new ≡ mark_all reads.old (looked_by arm.now.cell arm.now.fields.items) }
{
    match arm.cell {
        CaseCell::Look => mark_all(reads, &arm.fields),
        CaseCell::Inline | CaseCell::Free | CaseCell::Keep(_) => {}
    }
}

// Those of all such arms.
#[tactic(auto, using(crate::proofs::LentLaws::looked_more, crate::proofs::LentLaws::looked_done))]
fn mark_arms(reads: &mut [bool], arms: &[CaseArm])
    ensures { reads.new ≡ mark_all reads.old (flat_map (λ a. looked_by a.cell a.fields) (map arm_of arms.now)) }
{
    'arms: for arm in arms {
        mark_arm(reads, arm);
    }
}

// Those at the end of a block.
fn mark_term(reads: &mut [bool], term: &Term)
    ensures { reads.new ≡ mark_all reads.old (looked_at (term_of term.now)) }
{
    match term {
        Term::Case { arms, .. } => mark_arms(reads, arms),
        Term::Ret(_) | Term::Tail { .. } | Term::Goto(_) | Term::If { .. } => {}
    }
}

// Those of all blocks.
#[tactic(auto, using(crate::proofs::LentLaws::looked_more, crate::proofs::LentLaws::looked_done))]
fn mark_blocks(reads: &mut [bool], blocks: &[Block])
    ensures { reads.new ≡ mark_all reads.old (flat_map (λ b. looked_at b.term) (map block_of blocks.now)) }
{
    'each: for block in blocks {
        mark_term(reads, &block.term);
    }
}

/// Marks by its number each local that is a field of an arm which only looks at its cell, where the list has it. What
/// is marked stays so.
#[tactic(auto, using(crate::proofs::LentLaws::marked, crate::proofs::LentLaws::marked_count))]
pub fn mark_looked(reads: &mut [bool], func: &Func)
    // There are as many marks as before.
    ensures count { length reads.new ≡ length reads.old }
    // A mark is set where it was, or where such an arm has the local as a field.
    ensures marked { (x : ℕ) → slice_get reads.new x ≡ option_map (λ b. b || is_among (looked_in (func_of func.now)) x) (slice_get reads.old x) }
{
    mark_blocks(reads, &func.blocks);
}

// The marks of the parameters, and none for the further locals.
fn marks_of(alloc: Global, func: &Func) -> Result<Vec<bool>, AllocError>
    ensures { IfOk result (λ reads. reads.items ≡ all_marks (func_of func.now)) }
{
    let unmarked = vec![in alloc; false; func.locals.len()]?;
    let mut reads = Vec::new(alloc);
    reads.extend_from_slice(&func.reads)?;
    reads.extend_from_slice(&unmarked)?;
    Ok(reads)
}

/// For each local whether it is a parameter that is marked, or a field of an arm that leaves its cell as it is.
#[tactic(auto, using(crate::proofs::LentLaws::reads_known, crate::proofs::LentLaws::reads_count))]
pub(crate) fn reads_in(alloc: Global, func: &Func) -> Result<Vec<bool>, AllocError>
    ensures count { IfOk result (λ reads. length reads.items ≡ length (local_kinds (func_of func.now))) }
    ensures known { (x : ℕ) → x < length (local_kinds (func_of func.now))
        → IfOk result (λ reads. slice_get reads.items x ≡ Some (is_read (func_of func.now) x)) }
{
    let mut reads = marks_of(alloc, func)?;
    mark_blocks(&mut reads, &func.blocks);
    Ok(reads)
}
