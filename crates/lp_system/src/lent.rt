ghost use Rattle.std.specs.Prelude.{◌≡◌, ◌<◌, Some, length};
ghost use Rattle.camelot_values.specs.Lists.{Ascend};
ghost use Rattle.annotations.specs.Tables.{table_of};
ghost use Rattle.grail_code.specs.Code.{func_of};
ghost use Rattle.grail_code.specs.WellFormed.{local_kinds, kind_of, is_marked, is_read, is_lent};
ghost use Rattle.lp_system.specs.Unknowns.{local_carriers};
ghost use Rattle.lp_system.specs.Looked.{AreLooked};

use annotations::ReachTable;
use camelot_values::{Kind, Types};
use grail_check::mark_looked;
use grail_code::Func;

// How many locals a function has at most.
const MOST_LOCALS: usize = 256;

/// For each number of a local, whether some arm that only looks at its cell has it as a field. The ends of all blocks
/// are walked once.
#[tactic(auto, using(crate::proofs::Looks::looked_all))]
pub fn looked_in(func: &Func) -> [bool; MOST_LOCALS]
    // The marks say so of each local.
    ensures { AreLooked (func_of func.now) result }
{
    let mut marks = [false; MOST_LOCALS];
    mark_looked(&mut marks, func);
    marks
}

/// Whether the parameter of this number is marked: its argument is only read.
pub fn is_marked(func: &Func, number: usize) -> bool
    // It is the function's mark.
    ensures { result ≡ is_marked (func_of func.now) number }
{
    match func.reads.get(number) {
        Some(mark) => *mark,
        None => false,
    }
}

// Whether the local is only read: a parameter that is marked, or a field of such an arm.
#[tactic(auto, using(crate::proofs::Looks::read_by_mark, crate::proofs::Looks::read_by_look))]
fn is_read(func: &Func, looked: &[bool], local: u32) -> bool
    requires looked { AreLooked (func_of func.now) looked.now }
    requires there { local < length (local_kinds (func_of func.now)) }
    ensures { result ≡ is_read (func_of func.now) local }
{
    let place = local as usize;
    if is_marked(func, place) {
        return true;
    }
    match looked.get(place) {
        Some(mark) => *mark,
        None => false,
    }
}

// Whether the local, of this kind, is lent.
#[tactic(auto, using(crate::proofs::Looks::lent_by_kind, crate::proofs::Looks::not_read, std::proofs::lemmas::Option::slice_get_within))]
fn is_lent(types: &Types, func: &Func, looked: &[bool], local: u32, kind: Kind) -> bool
    requires looked { AreLooked (func_of func.now) looked.now }
    requires kind { kind_of (func_of func.now) local ≡ Some kind }
    ensures { result ≡ is_lent types.now (func_of func.now) local }
{
    if is_read(func, looked, local) {
        types.is_heap(kind)
    } else {
        false
    }
}

/// The constructors that a local's value carries units on, ascending: those that its kind reaches, and none where the
/// local is lent.
#[tactic(auto, using(crate::proofs::Looks::none_of_lent, crate::proofs::Looks::all_of_kind, crate::proofs::Looks::none_of_missing, crate::proofs::Looks::all_ascend))]
pub fn local_carriers<'a>(
    types: &Types,
    table: &'a ReachTable,
    func: &Func,
    looked: &[bool],
    local: u32,
) -> &'a [u32]
    requires table { table.now ≡ table_of types.now }
    requires looked { AreLooked (func_of func.now) looked.now }
    // They are the local's.
    ensures is { result.now ≡ local_carriers types.now (func_of func.now) local }
    // They ascend.
    ensures ascend { Ascend result.now }
{
    match func.kind_of(local) {
        Some(kind) => {
            if is_lent(types, func, looked, local, kind) {
                &[]
            } else {
                table.reached(kind)
            }
        }
        None => &[],
    }
}
