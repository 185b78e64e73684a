ghost use Rattle.std.specs.Prelude.{◌≡◌};
ghost use Rattle.annotations.specs.Tables.{table_of};
ghost use Rattle.grail_code.specs.Code.{func_of};
ghost use Rattle.lp_system.specs.Looked.{AreLooked};

use annotations::ReachTable;
use grail_code::{Code, Func};

/// The code whose system is counted, and the table of its types.
#[derive(Clone, Copy)]
pub(crate) struct Books<'a> {
    pub(crate) code: &'a Code,
    pub(crate) table: &'a ReachTable,
    pub(crate) ghost reaches: { table.now ≡ table_of code.now.types },
}

/// Where the walk is: a block of a function, by their numbers, with the marks of the function's locals that are only
/// looked at.
#[derive(Clone, Copy)]
pub(crate) struct Here<'a> {
    pub(crate) body: &'a Func,
    pub(crate) looked: &'a [bool],
    pub(crate) func: u32,
    pub(crate) block: u32,
    pub(crate) ghost marks: { AreLooked (func_of body.now) looked.now },
}
