use camelot_values::Flat;
use licence::Needs;

/// The call of this function of the licence of this number, on these arguments, with so much fuel. Its bound and its
/// lease are the licence's.
#[derive(Drop)]
pub struct Call {
    pub licence: u32,
    pub entry: u32,
    pub args: Vec<Flat>,
    pub needs: Needs,
    pub fuel: u64,
}
