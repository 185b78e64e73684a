ghost use Rattle.std.specs.Prelude.{◌≡◌, ◌++◌, nat_lt, map};
ghost use Rattle.std.specs.List.{list_all};
ghost use Rattle.camelot_values.specs.Kinds.{constructor_of};
ghost use Rattle.grail_code.specs.Code.{arm_of, func_of};
ghost use Rattle.grail_code.specs.WellFormed.{bound_anew, kept_diamond, bound_by};
ghost use Rattle.grail_check.specs.Marked.{is_look};
ghost use Rattle.grail_check.specs.Faulting.{is_local, is_among, have_kinds, is_block, arm_is_there, fields_count, arms_count, looks_where, look_where, are_not_lent, cell_fits, cells_fit, kept_fits, arms_have_kinds, are_distinct};

use super::lets::are_locals;
use super::locals::{Local, are_not_lent, has_kind, is_lent_at, is_local};
use camelot_values::{Con, Kind};
use grail_code::{CaseArm, CaseCell, Func};

/// Whether there is a block of this number.
pub(crate) fn is_block(func: &Func, block: u32) -> bool
    ensures { result ≡ is_block (func_of func.now) block }
{
    (block as usize) < func.blocks.len()
}

/// Whether the cell is kept as a diamond in this local.
pub(crate) fn keeps(cell: CaseCell, local: u32) -> bool
    ensures { result ≡ is_among (kept_diamond cell) local }
{
    match cell {
        CaseCell::Keep(diamond) => diamond == local,
        _ => false,
    }
}

// Whether what an arm names is there.
fn arm_is_there(func: &Func, locals: &[Local], arm: &CaseArm) -> bool
    ensures { result ≡ arm_is_there (func_of func.now) locals.now (arm_of arm.now) }
{
    let has_diamond = match arm.cell {
        CaseCell::Keep(diamond) => is_local(locals, diamond),
        _ => true,
    };
    are_locals(locals, &arm.fields) && has_diamond && is_block(func, arm.target)
}

/// Whether what arms name is there.
pub(crate) fn arms_are_there(func: &Func, locals: &[Local], arms: &[CaseArm]) -> bool
    ensures { result ≡ list_all (arm_is_there (func_of func.now) locals.now) (map arm_of arms.now) }
{
    'arms: for arm in arms {
        if !arm_is_there(func, locals, arm) {
            return false;
        }
    }
    true
}

/// Whether arms lead to blocks behind this one.
pub(crate) fn arms_go_on(number: u32, arms: &[CaseArm]) -> bool
    ensures { result ≡ list_all (λ a. nat_lt number a.target) (map arm_of arms.now) }
{
    'arms: for arm in arms {
        if arm.target <= number {
            return false;
        }
    }
    true
}

// Whether there is a local for each field.
fn fields_count(arms: &[CaseArm], cons: &[Con]) -> bool
    ensures { result ≡ fields_count (map arm_of arms.now) (map constructor_of cons.now) }
{
    'arms: for (index, arm) in arms.iter().enumerate() {
        if index >= cons.len() {
            return true;
        }
        if arm.fields.len() != cons[index].fields.len() {
            return false;
        }
    }
    true
}

/// Whether there is an arm for each constructor, with a local for each field.
pub(crate) fn arms_count(arms: &[CaseArm], cons: &[Con]) -> bool
    ensures { result ≡ arms_count (map arm_of arms.now) (map constructor_of cons.now) }
{
    arms.len() == cons.len() && fields_count(arms, cons)
}

// Whether the cell stays as it is.
fn is_look(cell: CaseCell) -> bool
    ensures { result ≡ is_look cell }
{
    match cell {
        CaseCell::Look => true,
        CaseCell::Inline | CaseCell::Free | CaseCell::Keep(_) => false,
    }
}

// Whether the cell of a value that is lent, or isn't, stays as it is where it has to.
fn looks_where(lent: bool, inline: bool, cell: CaseCell) -> bool
    ensures { result ≡ looks_where lent inline cell }
{
    if lent {
        inline || is_look(cell)
    } else {
        !is_look(cell)
    }
}

/// Whether a value that is lent is only looked at, in the arm of each constructor that has a cell, and another one in
/// no arm.
pub(crate) fn look_where(lent: bool, arms: &[CaseArm], cons: &[Con]) -> bool
    ensures { result ≡ look_where lent (map arm_of arms.now) (map constructor_of cons.now) }
{
    'arms: for (index, arm) in arms.iter().enumerate() {
        if index >= cons.len() {
            return true;
        }
        if !looks_where(lent, cons[index].inline, arm.cell) {
            return false;
        }
    }
    true
}

// Whether an arm binds no local that is lent, but for the fields of a cell that stays as it is.
fn binds_own(locals: &[Local], fields: &[u32], cell: CaseCell) -> bool
    ensures { result ≡ are_not_lent locals.now (bound_anew cell (fields.now ++ kept_diamond cell)) }
{
    match cell {
        CaseCell::Look => true,
        CaseCell::Keep(diamond) => are_not_lent(locals, fields)
            && !is_lent_at(locals, diamond as usize),
        CaseCell::Inline | CaseCell::Free => are_not_lent(locals, fields),
    }
}

/// Whether no arm binds a local that is lent, but for the fields of a cell that stays as it is.
pub(crate) fn arms_bind_own(locals: &[Local], arms: &[CaseArm]) -> bool
    ensures { result ≡ list_all (λ a. are_not_lent locals.now (bound_anew a.cell (bound_by a))) (map arm_of arms.now) }
{
    'arms: for arm in arms {
        if !binds_own(locals, &arm.fields, arm.cell) {
            return false;
        }
    }
    true
}

// Whether a constructor is matched inline exactly where it is inline.
fn cell_fits(inline: bool, cell: CaseCell) -> bool
    ensures { result ≡ cell_fits inline cell }
{
    match cell {
        CaseCell::Inline => inline,
        CaseCell::Free | CaseCell::Keep(_) | CaseCell::Look => !inline,
    }
}

/// Whether each constructor is matched inline exactly where it is inline.
pub(crate) fn cells_fit(arms: &[CaseArm], cons: &[Con]) -> bool
    ensures { result ≡ cells_fit (map arm_of arms.now) (map constructor_of cons.now) }
{
    'arms: for (index, arm) in arms.iter().enumerate() {
        if index >= cons.len() {
            return true;
        }
        if !cell_fits(cons[index].inline, arm.cell) {
            return false;
        }
    }
    true
}

// Whether each of these locals has its kind.
#[tactic(auto, using(crate::proofs::MarkLaws::kinds_end))]
fn have_kinds(locals: &[Local], fields: &[u32], kinds: &[Kind]) -> bool
    ensures { result ≡ have_kinds locals.now fields.now kinds.now }
{
    'fields: for (index, field) in fields.iter().enumerate() {
        if index >= kinds.len() {
            return true;
        }
        if !has_kind(locals, *field, kinds[index]) {
            return false;
        }
    }
    true
}

// Whether a kept cell becomes a diamond.
fn kept_fits(locals: &[Local], cell: CaseCell) -> bool
    ensures { result ≡ kept_fits locals.now cell }
{
    match cell {
        CaseCell::Keep(diamond) => has_kind(locals, diamond, Kind::Dia),
        _ => true,
    }
}

/// Whether what arms bind has the kinds of the fields, and of a diamond.
pub(crate) fn arms_have_kinds(locals: &[Local], arms: &[CaseArm], cons: &[Con]) -> bool
    ensures { result ≡ arms_have_kinds locals.now (map arm_of arms.now) (map constructor_of cons.now) }
{
    'arms: for (index, arm) in arms.iter().enumerate() {
        if index >= cons.len() {
            return true;
        }
        if !have_kinds(locals, &arm.fields, &cons[index].fields) || !kept_fits(locals, arm.cell) {
            return false;
        }
    }
    true
}

// Whether the fields and the diamond of a kept cell are bound to distinct locals.
fn binds_once(fields: &[u32], cell: CaseCell) -> bool
    ensures { result ≡ are_distinct (fields.now ++ kept_diamond cell) }
{
    'fields: for (index, field) in fields.iter().enumerate() {
        if fields[index + 1..].contains(field) || keeps(cell, *field) {
            return false;
        }
    }
    true
}

/// Whether each arm binds distinct locals.
pub(crate) fn arms_bind_once(arms: &[CaseArm]) -> bool
    ensures { result ≡ list_all (λ a. are_distinct (bound_by a)) (map arm_of arms.now) }
{
    'arms: for arm in arms {
        if !binds_once(&arm.fields, arm.cell) {
            return false;
        }
    }
    true
}
