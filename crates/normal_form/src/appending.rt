//! Lists, one behind the other.
ghost use Rattle.std.specs.Prelude.{◌≡◌, ◌++◌, OnOk};

use std::alloc::AllocError;

/// Adds a list behind another one, which stays where it is. Behind an empty list the other one is taken as it is, so
/// that nothing is moved.
#[inline(always)]
pub(crate) fn append_to<T: Drop>(first: &mut Vec<T>, mut second: Vec<T>) -> Result<(), AllocError>
    ensures { OnOk result (first.new.items ≡ first.old.items ++ second.items) }
{
    if first.is_empty() {
        *first = second;
        return Ok(());
    }
    first.append(&mut second)?;
    Ok(())
}
