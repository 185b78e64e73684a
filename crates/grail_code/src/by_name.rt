ghost use Rattle.std.specs.Prelude.{◌≡◌, ℕ, nat_eq, IfSome, IfNone};
ghost use Rattle.std.specs.List.{position};
ghost use Rattle.std.specs.Cmp.Lexicographic.{pointwise};
ghost use Rattle.grail_code.specs.Code.{code_of};
ghost use Rattle.grail_code.specs.ByName.{HasName, IsFirstNamed};

use crate::code::Code;

impl Code {
    // The place of the first function that has the name.
    fn place_of(&self, name: &[u8]) -> Option<usize>
        ensures { result ≡ position (λ func. pointwise nat_eq func.name name.now) self.now.funcs.items }
    {
        self.funcs.iter().position(|func| func.name.bytes() == name)
    }

    /// The number of the first function of this name, or None where no function has it.
    #[tactic(auto, using(crate::proofs::NamedFuncs::first_below))]
    pub fn func(&self, name: &[u8]) -> Option<u32>
        // A number is that of the first function of this name.
        ensures found { IfSome result (λ number. IsFirstNamed (code_of self.now) number name.now) }
        // None comes only where no function has the name.
        ensures none { IfNone result ((number : ℕ) → HasName (code_of self.now) number name.now → ⊥) }
    {
        match self.place_of(name) {
            Some(place) => Some(place as u32),
            None => None,
        }
    }
}
