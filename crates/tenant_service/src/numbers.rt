//! The numbers of tenants.
ghost use Rattle.std.specs.Prelude.{◌≡◌, ◌≤◌, length, map, IfOk, IsTrue};
ghost use Rattle.camelot_values.specs.Names.{stands};
ghost use Rattle.tenant_script.specs.Tenants.{tenant_names};
ghost use Rattle.tenant_script.specs.Words.{tenant_view};
ghost use Rattle.tenant_service.specs.Running.{HasTenant, cells_of};

use std::alloc::{AllocError, Global};
use tenant_script::Tenant;

/// The number of the tenant of this name. There are at most 64.
pub(crate) fn number_of(tenants: &[Tenant<'_>], name: &[u8]) -> u32
    requires few { length tenants.now ≤ 64 }
    requires known { IsTrue (stands (tenant_names (map tenant_view tenants.now)) name.now) }
    ensures { HasTenant (map tenant_view tenants.now) result name.now }
{
    let mut at = 0;
    'tenants: for tenant in tenants {
        if tenant.name == name {
            return at;
        }
        at += 1;
    }
    unreachable!()
}

/// The budgets of these tenants. `AllocError` where memory runs out.
pub(crate) fn budgets_of(alloc: Global, tenants: &[Tenant<'_>]) -> Result<Vec<u32>, AllocError>
    ensures { IfOk result (λ budgets. budgets.items ≡ map cells_of (map tenant_view tenants.now)) }
{
    let mut budgets = Vec::with_capacity(alloc, tenants.len())?;
    'tenants: for tenant in tenants {
        budgets.push(tenant.cells)?;
    }
    Ok(budgets)
}
