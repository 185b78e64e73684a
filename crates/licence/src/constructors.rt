ghost use Rattle.std.specs.Prelude.{◌≡◌};
ghost use Rattle.licence.specs.Rules.{first_con, first_con_of};

use camelot_values::{Kind, Types};

// The first constructor of the type of this number: those of the types before it come first.
#[tactic(auto, using(crate::specs::FirstConLaws::one_type_more, crate::specs::FirstConLaws::all_types, crate::specs::FirstConLaws::stop_at, crate::specs::FirstConLaws::few_with))]
fn first_con(types: &Types, number: u32) -> u32
    ensures { result ≡ first_con types.now number }
{
    types.limits();
    let mut first = 0;
    'types: for (index, def) in types.defs().iter().enumerate() {
        if index >= number as usize {
            return first;
        }
        first += def.cons.len() as u32;
    }
    first
}

/// The first constructor of the type of this kind, from which the arms of a choice count; 0 where the kind is no
/// type's.
pub fn first_con_of(types: &Types, kind: Option<Kind>) -> u32
    ensures { result ≡ first_con_of types.now kind }
{
    match kind {
        Some(Kind::Of(number)) => first_con(types, number),
        _ => 0,
    }
}
