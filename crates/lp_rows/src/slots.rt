ghost use Rattle.std.specs.Prelude.{◌≡◌, ◌≤◌, ◌<◌, ◌+◌, ◌++◌, ◌∷◌, [], IfOk, OnOk, length};
ghost use Rattle.camelot_values.specs.Lists.{is_among};
ghost use Rattle.licence.specs.Rules.{carrying};
ghost use Rattle.lp_rows.specs.Plain.{units_of, own, names};
ghost use Rattle.lp_rows.specs.Walk.{bound};

use super::unknown::Origin;
use licence::Site;
use std::alloc::AllocError;

// Where a local's value has its units from at the beginning of a block.
fn own(site: Site, local: u32) -> Origin
    ensures { units_of result ≡ own site.func site.block local }
{
    let Site { func, block, .. } = site;
    if block == 0 {
        Origin::Param { func, var: local }
    } else {
        Origin::BlockVar {
            func,
            block,
            var: local,
        }
    }
}

/// Where a local's value has its units from. The list has the locals up to the last that was bound anew.
pub(crate) fn origin_at(site: Site, slots: &[Origin], local: u32) -> Origin
    ensures { units_of result ≡ names site.func site.block slots.now local }
{
    match slots.get(local as usize) {
        Some(origin) => *origin,
        None => own(site, local),
    }
}

/// The same where an arm has bound these fields.
#[tactic(auto, unfolding(crate::specs::Walk::bound))]
pub(crate) fn bound_at(
    site: Site,
    slots: &[Origin],
    fields: &[u32],
    matched: Origin,
    local: u32,
) -> Origin
    ensures { units_of result ≡ bound (names site.func site.block slots.now) fields.now (units_of matched) local }
{
    if fields.contains(&local) {
        matched
    } else {
        origin_at(site, slots, local)
    }
}

// Has the list reach up to this local.
fn extend(site: Site, slots: &mut Vec<Origin>, local: u32) -> Result<(), AllocError>
    ensures same { OnOk result (names site.func site.block slots.new.items ≡ names site.func site.block slots.old.items) }
    ensures long { OnOk result (local < length slots.new.items) }
{
    'slots: while slots.len() <= local as usize {
        let number = slots.len() as u32;
        slots.push(own(site, number))?;
    }
    Ok(())
}

/// The local's value has its units from there from now on.
pub(crate) fn bind(
    site: Site,
    slots: &mut Vec<Origin>,
    local: u32,
    origin: Origin,
) -> Result<(), AllocError>
    ensures { OnOk result (names site.func site.block slots.new.items ≡ carrying (names site.func site.block slots.old.items) local (units_of origin)) }
{
    extend(site, slots, local)?;
    slots[local as usize] = origin;
    Ok(())
}
