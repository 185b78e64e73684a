ghost use Rattle.std.specs.Prelude.{◌≡◌, ℕ, ◌+◌, ◌-◌, ◌<◌, ◌≤◌, ◌++◌, length, map, Some, IfOk, OnOk, IsSome, vec_len};
ghost use Rattle.camelot_values.specs.Kinds.{data_type_of, constructor_of, constructor, type_of};
ghost use Rattle.std.specs.Option.{option_map};
ghost use Rattle.cell_machine.specs.Homes.{row, homes_from, place_in, HomesAre};

use camelot_values::{Con, Types};
use std::alloc::{AllocError, Global};

/// Where a constructor stands: the number of its type, and its place among the constructors of that type.
#[derive(Clone, Copy, Debug)]
pub(crate) struct Home {
    pub(crate) number: u32,
    pub(crate) place: u32,
}

/// Where each constructor stands, by its number.
#[derive(Drop)]
pub(crate) struct Homes {
    pub(crate) homes: Vec<Home>,
}

// So many constructors more, those of the type of this number.
#[tactic(auto, using(crate::proofs::HomeLaws::row_turn, crate::proofs::HomeLaws::row_done))]
fn add(homes: &mut Vec<Home>, number: u32, count: u32) -> Result<(), AllocError>
    ensures { OnOk result (homes.new.items ≡ homes.old.items ++ row number 0 count) }
{
    'places: for place in 0..count {
        homes.push(Home { number, place })?;
    }
    Ok(())
}

impl Homes {
    // Those of these types.
    #[tactic(auto, using(crate::proofs::HomeLaws::one_type_more))]
    pub(crate) fn new(alloc: Global, types: &Types) -> Result<Homes, AllocError>
        ensures { IfOk result (HomesAre types.now) }
    {
        types.limits();
        let defs = types.defs();
        let mut homes = Vec::new(alloc);
        'types: for number in 0..defs.len() {
            add(&mut homes, number as u32, defs[number].cons.len() as u32)?;
        }
        Ok(Homes { homes })
    }

    // The place of the constructor of this number in its type.
    #[tactic(auto, using(crate::proofs::HomeLaws::place_inside, crate::proofs::HomeLaws::place_found))]
    pub(crate) fn place(&self, con: u32) -> u32
        requires { IsSome (place_in self.now con) }
        ensures { place_in self.now con ≡ Some result }
    {
        self.homes[con as usize].place
    }

    // The constructor of this number.
    pub(crate) fn con<'a>(&self, types: &'a Types, con: u32) -> &'a Con
        requires homes { HomesAre types.now self.now }
        requires there { IsSome (constructor types.now con) }
        ensures { constructor types.now con ≡ Some (constructor_of result.now) }
    {
        let home = self.homes[con as usize];
        &types.defs()[home.number as usize].cons[home.place as usize]
    }

    // The constructor of this number with the number of its type, where there is one.
    #[tactic(auto, using(crate::proofs::HomeLaws::con_there, crate::proofs::HomeLaws::con_past, crate::proofs::HomeLaws::type_past, crate::proofs::HomeLaws::number_here))]
    pub(crate) fn find<'a>(&self, types: &'a Types, con: u32) -> Option<(u32, &'a Con)>
        requires homes { HomesAre types.now self.now }
        ensures con { option_map (λ p. constructor_of p.1.now) result ≡ constructor types.now con }
        ensures number { option_map (λ p. p.0) result ≡ type_of types.now con }
    {
        if con as usize >= self.homes.len() {
            return None;
        }
        let found = self.con(types, con);
        Some((self.homes[con as usize].number, found))
    }
}
