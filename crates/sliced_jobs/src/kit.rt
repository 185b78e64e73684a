//! What the runs of a licence share, made at the first need.
ghost use Rattle.std.specs.Prelude.{◌≡◌, ◌<◌, length, slice_get, slice_set, Some, None, IfOk};
ghost use Rattle.sliced_jobs.specs.Kits.{IsKitFor};
ghost use Rattle.sliced_jobs.specs.declared.kit.Kit.{Kit as DeclaredKit};

use cell_machine::Stack;
use licence::Licence;
use pause_image::ImageJudge;
use std::alloc::{AllocError, Global};

/// What the images of a licence's runs are judged by, and a stack for them.
#[derive(Drop)]
pub(crate) struct Kit {
    pub(crate) judge: ImageJudge,
    pub(crate) stack: Stack,
}

/// Takes the kit of the licence of this number, or makes one. `AllocError` where memory runs out.
pub(crate) fn take_kit(
    alloc: Global,
    kits: &mut Vec<Option<Kit>>,
    number: u32,
    licence: &Licence,
) -> Result<Kit, AllocError>
    requires there { number < length kits.old.items }
    requires kit { (k : DeclaredKit) → slice_get kits.old.items number ≡ Some (Some k) → IsKitFor licence.now k }
    ensures kits { kits.new.items ≡ slice_set kits.old.items number None }
    ensures kit { IfOk result (IsKitFor licence.now) }
{
    match kits[number as usize].take() {
        Some(kit) => Ok(kit),
        None => {
            let judge = ImageJudge::new(alloc, licence)?;
            let stack = Stack::new(alloc, licence)?;
            Ok(Kit { judge, stack })
        }
    }
}

/// Puts a kit to its number.
pub(crate) fn put_kit(kits: &mut Vec<Option<Kit>>, number: u32, kit: Kit)
    requires there { number < length kits.old.items }
    ensures { kits.new.items ≡ slice_set kits.old.items number (Some kit) }
{
    kits[number as usize] = Some(kit);
}
