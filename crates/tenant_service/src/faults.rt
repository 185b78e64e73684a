ghost use Rattle.std.specs.Prelude.{◌≡◌, ◌++◌, codes, decimal, IfOk};
ghost use Rattle.tenant_service.specs.Service.{fault_text};

use itoa::Buffer;
use std::alloc::{AllocError, Global};
use tenant_script::TenantFault;

// The line with the number of a wrong line, and what is wrong with it.
fn line_with(alloc: Global, line: u64, kind: &[u8]) -> Result<Vec<u8>, AllocError>
    ensures { IfOk result (λ text. text.items ≡ codes "refused script line " ++ decimal line ++ kind.now) }
{
    let mut text = Vec::from_slice(alloc, b"refused script line ")?;
    text.extend_from_slice(Buffer::new().format(line).as_bytes())?;
    text.extend_from_slice(kind)?;
    Ok(text)
}

/// The line that tells why an input is no script of tenants. `AllocError` where memory runs out.
#[tactic(auto, unfolding(crate::specs::Service::fault_text))]
pub fn fault_line(alloc: Global, fault: &TenantFault) -> Result<Vec<u8>, AllocError>
    // It names the first wrong line, and what is wrong with it.
    ensures { IfOk result (λ text. text.items ≡ fault_text fault.now) }
{
    match fault {
        TenantFault::Line { line } => line_with(alloc, *line, b" line\n"),
        TenantFault::Count { line } => line_with(alloc, *line, b" count\n"),
        TenantFault::Repeat { line } => line_with(alloc, *line, b" repeat\n"),
        TenantFault::Tenant { line } => line_with(alloc, *line, b" tenant\n"),
    }
}
