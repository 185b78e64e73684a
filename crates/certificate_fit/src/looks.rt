ghost use Rattle.std.specs.Prelude.{◌≡◌, ◌<◌, length};
ghost use Rattle.grail_code.specs.Code.{func_of};
ghost use Rattle.grail_code.specs.WellFormed.{local_kinds, is_read};
ghost use Rattle.certificate_fit.specs.Shapes.{AreLooked};

use grail_check::mark_looked;
use grail_code::Func;

// How many locals a function has at most.
const MOST_LOCALS: usize = 256;

// For each number of a local, whether some arm that only looks at its cell has it as a field.
#[tactic(auto, using(crate::proofs::ReadLaws::looked_all))]
pub(crate) fn looked_in(func: &Func) -> [bool; MOST_LOCALS]
    ensures { AreLooked (func_of func.now) result }
{
    let mut marks = [false; MOST_LOCALS];
    mark_looked(&mut marks, func);
    marks
}

// Whether the local is only read: a parameter that is marked, or a field of such an arm.
#[tactic(auto, using(crate::proofs::ReadLaws::read_by_mark, crate::proofs::ReadLaws::read_by_look))]
pub(crate) fn is_read(func: &Func, looked: &[bool], local: u32) -> bool
    requires looked { AreLooked (func_of func.now) looked.now }
    requires there { local < length (local_kinds (func_of func.now)) }
    ensures { result ≡ is_read (func_of func.now) local }
{
    let place = local as usize;
    if let Some(true) = func.reads.get(place) {
        return true;
    }
    match looked.get(place) {
        Some(mark) => *mark,
        None => false,
    }
}
