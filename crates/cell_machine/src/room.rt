ghost use Rattle.std.specs.Prelude.{◌≡◌, ◌≤◌, length, IfOk};
ghost use Rattle.camelot_values.specs.Value.{Value};
ghost use Rattle.camelot_values.specs.Typing.{Fits};
ghost use Rattle.cell_machine.specs.Stands.{Stands};
ghost use Rattle.cell_machine.specs.Homes.{HomesAre};
ghost use Rattle.cell_machine.specs.Due.{HoldsValue};
ghost use Rattle.cell_machine.specs.Views.{HasRoom, HasJustRoom};

use crate::homes::Homes;
use crate::reading::Reading;
use camelot_values::{Flat, Kind, Types};
use cell_span::Span;
use std::alloc::{AllocError, Global};
use std::marker::Model;

/// Room for the value that a run in a range of so many cells may come to: four nodes for each cell, and one. Beside it
/// is room for the words that are still to be read while the value is put together: so many, and four more. Reading a
/// value then takes no memory. Contracts see for how many of each there is room.
#[derive(Drop)]
pub struct Room {
    reading: Reading,
}

impl Model for Room {
    ghost use Rattle.std.specs.Prelude.{vec_capacity};
    ghost use Rattle.cell_machine.specs.Views.{RoomView};
    ghost use Rattle.cell_machine.specs.Due.{IsNew};

    ghost Value = { RoomView };

    ghost view = { λ r. record { nodes = vec_capacity r.reading.items; words = vec_capacity r.reading.due } };

    ghost invariant = { λ r. IsNew r.reading };
}

impl Room {
    /// Room for the value of a run in `lease` cells. `AllocError` where memory runs out.
    pub fn new(alloc: Global, lease: u32) -> Result<Room, AllocError>
        // There is room for each value in a lease of so many cells.
        ensures room { IfOk result (HasRoom lease) }
        // There is no more than that: 4 nodes a cell and one, and 4 words more than so many.
        ensures just { IfOk result (HasJustRoom lease) }
    {
        let most = 4 * lease as usize + 1;
        let items = Vec::with_capacity(alloc, most)?;
        let due = Vec::with_capacity(alloc, most + 4)?;
        Ok(Room {
            reading: Reading { items, due },
        })
    }

    // Reads the value that a word of a kind stands for.
    pub(crate) fn read(
        self,
        span: &Span,
        types: &Types,
        homes: &Homes,
        kind: Kind,
        word: u32,
    ) -> Flat
        requires homes { HomesAre types.now homes.now }
        requires room { HasRoom (length span.now.cells) self }
        requires value { HoldsValue types.now span.now.cells kind word }
        ensures { (v : Value) → Fits types.now kind v → Stands types.now span.now.cells v word → result ≡ v }
    {
        let Room { reading } = self;
        reading.read(span, types, homes, kind, word)
    }
}
