use camelot_values::Flat;

/// The run of an entry of the licence of this number on these arguments, with so much fuel, in a run of so many cells.
#[derive(Drop)]
pub struct Plan {
    pub licence: u32,
    pub entry: u32,
    pub args: Vec<Flat>,
    /// How many cells the arguments take.
    pub cells: u32,
    pub fuel: u64,
    pub lease: u32,
}
