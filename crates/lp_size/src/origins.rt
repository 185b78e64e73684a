ghost use Rattle.std.specs.Prelude.{◌≡◌, suc};
ghost use Rattle.lp_size.specs.Counting.{same_origin, first_origin, origin_at, put};

use super::books::Here;

/// Which units a value carries: those that a certificate says of a parameter, a result, a later block's parameter or a
/// build.
#[derive(Clone, Copy, Debug, PartialEq, Eq)]
pub(crate) enum Origin {
    Param { func: u32, local: usize },
    Result { func: u32 },
    BlockVar { func: u32, block: u32, local: usize },
    Made { func: u32, block: u32, place: usize },
}

/// What a local was bound to last, and how many blocks of the function had begun then.
#[derive(Clone, Copy)]
pub(crate) struct Slot {
    pub(crate) begun: u64,
    pub(crate) origin: Origin,
}

/// Whether they are the same.
pub(crate) fn is_same(left: Origin, right: Origin) -> bool
    ensures { result ≡ same_origin left right }
{
    match (left, right) {
        (
            Origin::Param { func, local },
            Origin::Param {
                func: other,
                local: place,
            },
        ) => func == other && local == place,
        (Origin::Result { func }, Origin::Result { func: other }) => func == other,
        (
            Origin::BlockVar { func, block, local },
            Origin::BlockVar {
                func: other,
                block: number,
                local: place,
            },
        ) => func == other && block == number && local == place,
        (
            Origin::Made { func, block, place },
            Origin::Made {
                func: other,
                block: number,
                place: next,
            },
        ) => func == other && block == number && place == next,
        _ => false,
    }
}

// What a local carries at the beginning of a block.
fn first_origin(here: Here<'_>, local: u32) -> Origin
    ensures { result ≡ first_origin here.entry.func here.entry.block local }
{
    let Here { func, block, .. } = here;
    let local = local as usize;
    if block == 0 {
        Origin::Param { func, local }
    } else {
        Origin::BlockVar { func, block, local }
    }
}

// So many blocks have begun.
fn begun(here: Here<'_>) -> u64
    ensures { result ≡ suc here.entry.block }
{
    u64::from(here.block) + 1
}

/// What a local carries: what it was bound to in this block, if it was.
pub(crate) fn origin_at(here: Here<'_>, slots: &[Slot], local: u32) -> Origin
    ensures { result ≡ origin_at here.entry.func here.entry.block slots.now local }
{
    match slots.get(local as usize) {
        Some(slot) if slot.begun == begun(here) => slot.origin,
        _ => first_origin(here, local),
    }
}

/// The local carries this from now on.
pub(crate) fn put(here: Here<'_>, slots: &mut [Slot], local: u32, origin: Origin)
    ensures { slots.new ≡ put here.entry.block slots.old local origin }
{
    if (local as usize) < slots.len() {
        slots[local as usize] = Slot {
            begun: begun(here),
            origin,
        };
    }
}
