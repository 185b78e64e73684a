ghost use Rattle.grail_code.specs.Code.{code_of};
ghost use Rattle.grail_code.specs.Limits.{IsWithinLimits};
ghost use Rattle.grail_code.specs.Soundness.{HaveBlocks};

use crate::code::Code;

impl Code {
    /// The limits that the types keep: those of [`Types`], and at most 64 functions, each with at most 16 parameters,
    /// 240 further locals, and 1 to 256 blocks of at most 256 lets. It does nothing; its clauses are what whoever holds
    /// a `Code` can use.
    #[tactic(auto, using(crate::proofs::Kept::within, crate::proofs::Kept::have_blocks))]
    pub fn limits(&self)
        // Types, functions, parameters, locals, blocks and lets are within their limits.
        ensures limits { IsWithinLimits (code_of self.now) }
        // Each function has a block.
        ensures blocks { HaveBlocks (code_of self.now) }
    {
        self.types.limits();
    }
}
