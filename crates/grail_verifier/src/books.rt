ghost use Rattle.std.specs.Prelude.{◌≡◌};
ghost use Rattle.annotations.specs.Tables.{table_of};

use super::numbered::{FuncLines, NumberedCert};
use annotations::ReachTable;
use grail_code::{Code, Func};
use licence::Site;

/// What is walked: code with the numbered lines of its certificate, and the table of its types. Locals carry
/// annotations by their numbers; number 0 is no units, for locals and builds without a line.
#[derive(Clone, Copy)]
pub(crate) struct Books<'a> {
    pub(crate) code: &'a Code,
    pub(crate) lines: &'a NumberedCert<'a>,
    pub(crate) table: &'a ReachTable,
    pub(crate) ghost reaches: { table.now ≡ table_of code.now.types },
}

/// A function with its lines.
#[derive(Clone, Copy)]
pub(crate) struct Body<'a> {
    pub(crate) func: &'a Func,
    pub(crate) own: &'a FuncLines<'a>,
}

/// Where the walk is in a function, and how many units are left there.
#[derive(Clone, Copy)]
pub(crate) struct Here<'a> {
    pub(crate) func: &'a Func,
    pub(crate) site: Site,
    pub(crate) left: u64,
}
