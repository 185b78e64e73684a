//! The last lines: what is free of each tenant's budget.
ghost use Rattle.std.specs.Prelude.{◌≡◌, ◌++◌, ◌<◌, ◌≤◌, List, Some, length, map, slice_get, OnOk};
ghost use Rattle.licence.specs.Licensed.{Licensed};
ghost use Rattle.tenant_script.specs.Tenants.{Tenant as PlainTenant};
ghost use Rattle.tenant_script.specs.Words.{tenant_view};
ghost use Rattle.tenant_service.specs.Replies.{Rooms};
ghost use Rattle.tenant_service.specs.Running.{HoldsRooms};
ghost use Rattle.tenant_service.specs.Texts.{end_text, ends_text};

use crate::holding::Shared;
use crate::texts::push_end_of;
use std::alloc::AllocError;
use tenant_script::Tenant;

// The last line of the tenant of this number.
fn push_end_at(
    out: &mut Vec<u8>,
    shared: &Shared<'_>,
    number: u32,
    tenant: &Tenant<'_>,
) -> Result<(), AllocError>
    requires there { number < length shared.now.desk.pieces }
    ensures { (licences : List Licensed) (ts : List PlainTenant) (rooms : Rooms) → HoldsRooms licences ts rooms shared.now
        → slice_get ts number ≡ Some (tenant_view tenant.now)
        → OnOk result (out.new.items ≡ out.old.items ++ end_text (tenant_view tenant.now) (rooms tenant.now.name.now)) }
{
    let held = shared.desk.held(number);
    let free = (tenant.cells as u64).saturating_sub(held);
    push_end_of(out, tenant.name, free)?;
    Ok(())
}

/// Writes the last line of each tenant at the end. `AllocError` where memory runs out.
pub(crate) fn push_ends(
    out: &mut Vec<u8>,
    shared: &Shared<'_>,
    tenants: &[Tenant<'_>],
) -> Result<(), AllocError>
    requires there { length shared.now.desk.pieces ≡ length tenants.now }
    requires few { length tenants.now ≤ 64 }
    ensures { (licences : List Licensed) (rooms : Rooms) → HoldsRooms licences (map tenant_view tenants.now) rooms shared.now
        → OnOk result (out.new.items ≡ out.old.items ++ ends_text (map tenant_view tenants.now) rooms) }
{
    let mut at = 0;
    'tenants: for tenant in tenants {
        push_end_at(out, shared, at, tenant)?;
        at += 1;
    }
    Ok(())
}
