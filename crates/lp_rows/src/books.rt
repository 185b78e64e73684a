ghost use Rattle.std.specs.Prelude.{◌≡◌, ◌≤◌, length};
ghost use Rattle.annotations.specs.Tables.{table_of};

use super::unknown::Unknown;
use annotations::ReachTable;
use grail_code::{Code, Func};
use licence::Site;
use std::alloc::Global;

/// What is walked: code with the table of its types, and its unknowns in order.
#[derive(Clone, Copy)]
pub(crate) struct Books<'a> {
    pub(crate) alloc: Global,
    pub(crate) code: &'a Code,
    pub(crate) table: &'a ReachTable,
    pub(crate) unknowns: &'a [Unknown],
    pub(crate) ghost reaches: { table.now ≡ table_of code.now.types },
    pub(crate) ghost few: { length unknowns.now ≤ 512 },
}

/// Where the walk is, and in which function.
#[derive(Clone, Copy)]
pub(crate) struct Here<'a> {
    pub(crate) func: &'a Func,
    pub(crate) site: Site,
}
