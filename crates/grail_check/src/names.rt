ghost use Rattle.std.specs.Prelude.{◌≡◌, ◌++◌, ◌∷◌, [], map, not, IsTrue, IfOk};
ghost use Rattle.grail_check.specs.Faulting.{stands};

use indexmap::IndexSet;
use std::alloc::{AllocError, Global};

/// Whether the name is none of those before; if so, it is then the last of them.
#[tactic(auto, using(crate::proofs::NameLaws::added_is, crate::proofs::NameLaws::added_last))]
pub(crate) fn is_new<'a>(names: &mut IndexSet<&'a [u8]>, name: &'a [u8]) -> Result<bool, AllocError>
    ensures answer { IfOk result (λ new. new ≡ not (stands (map (λ word. word.now) names.old.keys) name.now)) }
    ensures names { IfOk result (λ new. IsTrue new → map (λ word. word.now) names.new.keys ≡ map (λ word. word.now) names.old.keys ++ name.now ∷ []) }
{
    match names.insert(name) {
        Ok(added) => Ok(added),
        Err(_) => Err(AllocError),
    }
}
