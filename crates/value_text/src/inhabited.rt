ghost use Rattle.value_text.specs.Inhabited.{Knows};

use super::finite::{MOST_TYPES, are_ready, finite_types};
use super::names::first_cons;
use camelot_values::Types;

/// Which of a list of types have values: all but those each of whose constructors leads back to one of them. It is
/// looked up once for many texts: in the worst case, where each type has a value because of the one behind it, that
/// takes a round over all types for each type. The numbers of the types' first constructors are kept with it.
#[derive(Drop)]
pub struct Inhabited {
    pub(crate) marks: [bool; MOST_TYPES],
    // Whether each field of each constructor has a value, so that no field needs to be looked up.
    pub(crate) full: bool,
    // For each type, the number of its first constructor.
    pub(crate) firsts: [u32; MOST_TYPES],
}

impl Inhabited {
    /// Which of these types have values. It takes no memory.
    pub fn of(types: &Types) -> Inhabited
        ensures { Knows types.now result }
    {
        types.limits();
        let marks = finite_types(types);
        Inhabited {
            full: are_ready(&marks, types.defs()),
            firsts: first_cons(types.defs()),
            marks,
        }
    }
}
