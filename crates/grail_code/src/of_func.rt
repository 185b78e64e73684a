ghost use Rattle.std.specs.Prelude.{◌≡◌};
ghost use Rattle.grail_blocks.specs.Events.{params_at};
ghost use Rattle.grail_code.specs.Code.{func_of};
ghost use Rattle.grail_code.specs.WellFormed.{kind_of};

use crate::code::Func;
use camelot_values::Kind;

impl Func {
    /// The kind of the local of this number, or None where there is no such local. The parameters come first.
    pub fn kind_of(&self, local: u32) -> Option<Kind>
        ensures { result ≡ kind_of (func_of self.now) local }
    {
        let place = local as usize;
        let params = self.params.len();
        if place < params {
            self.params.get(place).copied()
        } else {
            self.locals.get(place - params).copied()
        }
    }

    /// The parameters of the block of this number; none where there is no such block.
    pub fn params_at(&self, number: u32) -> &[u32]
        ensures { result.now ≡ params_at (func_of self.now).blocks number }
    {
        match self.blocks.get(number as usize) {
            Some(block) => &block.params,
            None => &[],
        }
    }
}
