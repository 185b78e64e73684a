ghost use Rattle.std.specs.Prelude.{◌≡◌};
ghost use Rattle.camelot_values.specs.Counts.{count, cells, is_boxed};
ghost use Rattle.camelot_values.specs.Nodes.{is_node_of, needs_cell};

use super::kinds::Types;
use super::value::{Flat, Item};

// Whether the node is one of this constructor.
fn is_node_of(item: &Item, con: u32) -> bool
    ensures { result ≡ is_node_of con item.now }
{
    match *item {
        Item::Con {
            con: number,
            parts: _,
        } => number == con,
        _ => false,
    }
}

// Whether the constructor needs a cell; one that isn't there needs none.
fn is_boxed(types: &Types, con: u32) -> bool
    ensures { result ≡ is_boxed types.now con }
{
    match types.con(con) {
        Some(con) => !con.inline,
        None => false,
    }
}

// The constructor that was looked up last, with whether it needs a cell. The items of a list repeat one constructor.
#[derive(Clone, Copy)]
struct Known {
    con: u32,
    boxed: bool,
}

// Whether the node needs a cell. Its constructor is looked up where it isn't the known one.
fn needs_cell(types: &Types, known: &mut Known, item: &Item) -> bool
    requires known { known.old.boxed ≡ is_boxed types.now known.old.con }
    ensures known { known.new.boxed ≡ is_boxed types.now known.new.con }
    ensures needs { result ≡ needs_cell types.now item.now }
{
    match *item {
        Item::Dia => true,
        Item::Con { con, parts: _ } => {
            if con != known.con {
                *known = Known {
                    con,
                    boxed: is_boxed(types, con),
                };
            }
            known.boxed
        }
        _ => false,
    }
}

impl Flat {
    /// How many nodes of the constructor of this number the value has.
    #[tactic(auto, using(crate::proofs::CountSteps::node_more))]
    pub fn count(&self, con: u32) -> u64
        ensures { result ≡ count con self.now }
    {
        let mut total = 0;
        'items: for item in self.items() {
            if is_node_of(item, con) {
                total += 1;
            }
        }
        total
    }

    /// How many cells a machine needs to hold the value: one for each boxed node and one for each diamond. A
    /// constructor that isn't there needs none.
    #[tactic(auto, using(crate::proofs::CountSteps::node_more))]
    pub fn cells(&self, types: &Types) -> u64
        ensures { result ≡ cells types.now self.now }
    {
        let mut known = Known {
            con: 0,
            boxed: is_boxed(types, 0),
        };
        let mut total = 0;
        'items: for item in self.items() {
            if needs_cell(types, &mut known, item) {
                total += 1;
            }
        }
        total
    }
}
