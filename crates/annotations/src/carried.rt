ghost use Rattle.std.specs.Prelude.{◌≡◌};
ghost use Rattle.annotations.specs.Vectors.{at, is_heap_con, node_units, potential};
ghost use Rattle.annotations.specs.Steps.{item_units};

use super::vector::Vector;
use camelot_values::{Flat, Item, Kind, Types};

// Whether the constructor belongs to a heap type.
fn is_heap_con(types: &Types, con: u32) -> bool
    ensures { result ≡ is_heap_con types.now con }
{
    match types.type_of(con) {
        Some(number) => types.is_heap(Kind::Of(number)),
        None => false,
    }
}

// What a node of the constructor carries. The types are asked only where it has units.
fn node_units(types: &Types, vector: &Vector, con: u32) -> u64
    ensures { result ≡ node_units types.now (at vector.now) con }
{
    let units = vector.at(con);
    if units == 0 {
        return 0;
    }
    if is_heap_con(types, con) { units } else { 0 }
}

// The constructor that was looked up last, with what a node of it carries. The items of a list repeat one constructor.
#[derive(Clone, Copy)]
struct Known {
    con: u32,
    units: u64,
}

// What the node carries. Its constructor is looked up where it isn't the known one.
fn item_units(types: &Types, vector: &Vector, known: &mut Known, item: &Item) -> u64
    requires known { known.old.units ≡ node_units types.now (at vector.now) known.old.con }
    ensures known { known.new.units ≡ node_units types.now (at vector.now) known.new.con }
    ensures units { result ≡ item_units types.now (at vector.now) item.now }
{
    match *item {
        Item::Con { con, parts: _ } => {
            if con != known.con {
                *known = Known {
                    con,
                    units: node_units(types, vector, con),
                };
            }
            known.units
        }
        _ => 0,
    }
}

/// What all nodes of the value carry together, in units (Hofmann and Jost 2003). It goes through the nodes once, and
/// takes no memory.
#[tactic(auto, using(crate::proofs::Nodes::node_more))]
pub fn potential(value: &Flat, types: &Types, vector: &Vector) -> u128
    ensures { result ≡ potential types.now (at vector.now) value.now }
{
    let mut known = Known {
        con: 0,
        units: node_units(types, vector, 0),
    };
    let mut total = 0;
    'items: for item in value.items() {
        total += item_units(types, vector, &mut known, item) as u128;
    }
    total
}
