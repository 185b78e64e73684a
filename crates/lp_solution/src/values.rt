ghost use Rattle.std.specs.Prelude.{◌≡◌, IfOk};
ghost use Rattle.camelot_values.specs.Lists.{Ascend};
ghost use Rattle.lp_solution.specs.Taking.{value_of, others_of, vector_from, behind};

use annotations::Vector;
use smallvec::SmallVec;
use std::alloc::{AllocError, Global};
use std::marker::Model;

// Values that are taken one by one from the front.
#[derive(Drop)]
pub(crate) struct Values<'a> {
    left: &'a [u64],
}

impl<'a> Model for Values<'a> {
    ghost use Rattle.std.specs.Prelude.{ℕ, List};

    ghost Value = { List ℕ };

    ghost view = { λ v. v.left.now };
}

impl<'a> Values<'a> {
    pub(crate) fn of(values: &'a [u64]) -> Values<'a>
        ensures { result ≡ values.now }
    {
        Values { left: values }
    }

    // The value in front; 0 where none is left.
    pub(crate) fn next(&mut self) -> u64
        ensures value { result ≡ value_of self.old }
        ensures left { self.new ≡ others_of self.old }
    {
        match self.left {
            [] => 0,
            [value, others @ ..] => {
                self.left = others;
                *value
            }
        }
    }

    // The units of these constructors, which ascend.
    #[tactic(auto, using(crate::proofs::Takings::some_more, crate::proofs::Takings::none_more, crate::proofs::Takings::formed_at_end))]
    pub(crate) fn vector(&mut self, alloc: Global, cons: &[u32]) -> Result<Vector, AllocError>
        requires ascend { Ascend cons.now }
        ensures value { IfOk result (λ vector. vector ≡ vector_from cons.now self.old) }
        ensures left { IfOk result (λ vector. self.new ≡ behind cons.now self.old) }
    {
        let mut pairs = SmallVec::new(alloc);
        let mut rest = cons;
        'cons: while let [con, others @ ..] = rest {
            let units = self.next();
            if units > 0 {
                pairs.push((*con, units))?;
            }
            rest = others;
        }
        Ok(Vector::of(pairs))
    }
}
