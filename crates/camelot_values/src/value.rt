ghost use Rattle.std.specs.Prelude.{◌≡◌, List, vec_items, IfOk};
ghost use Rattle.camelot_values.specs.Items.{items_of, value_of, IsOneValue};

use std::alloc::{AllocError, Global};
use std::marker::Model;

/// One node of a value.
#[derive(Clone, Copy, Debug, PartialEq, Eq)]
pub enum Item {
    /// An int of 32 bits in two's complement.
    Int(i32),
    /// A truth value.
    Flag(bool),
    /// A diamond: the name of a cell that may be built in.
    Dia,
    /// A constructor by its number, with the number of its parts, whose nodes follow.
    Con { parts: u8, con: u32 },
}

// A node takes eight bytes, since the number of parts lies beside the tag.
const _: () = prove!(size_of::<Item>() == 8);

/// One value, kept as its nodes in prefix order.
#[derive(Drop)]
pub struct Flat {
    items: Vec<Item>,
}

impl Model for Flat {
    ghost use Rattle.std.specs.Prelude.{List};
    ghost use Rattle.std.specs.Coded.{code_by, coded_list};
    ghost use Rattle.camelot_values.specs.Value.{Value as ValueTree};
    ghost use Rattle.camelot_values.specs.declared.value.Item.{Item};
    ghost use Rattle.camelot_values.specs.contracts.value.Item as item;
    ghost use Rattle.camelot_values.specs.Items.{items_of, value_of, value_of-items_of, IsOneValue};

    ghost Value = { ValueTree };

    ghost coded = { code_by (List Item) (coded_list item.the_row.coded) items_of value_of value_of-items_of };

    ghost view = { λ f. value_of f.items.items };

    ghost invariant = { λ f. IsOneValue f.items.items };
}

impl Flat {
    /// The value of these nodes, which are those of one value in prefix order.
    #[tactic(auto, using(crate::proofs::ItemLaws::items_of_value_of))]
    pub fn of(items: Vec<Item>) -> Flat
        requires { IsOneValue items.items }
        ensures { items_of result ≡ items.items }
    {
        Flat { items }
    }

    /// The nodes of the value in prefix order.
    #[tactic(auto, using(crate::proofs::ItemLaws::items_of_read))]
    pub fn items(&self) -> &[Item]
        ensures { result.now ≡ items_of self.now }
    {
        &self.items
    }

    /// The same value in memory of its own; `AllocError` where memory runs out.
    pub fn copy(&self, alloc: Global) -> Result<Flat, AllocError>
        ensures { IfOk result (λ copy. copy ≡ self.now) }
    {
        Ok(Flat {
            items: Vec::from_slice(alloc, &self.items)?,
        })
    }
}
