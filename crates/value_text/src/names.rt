ghost use Rattle.std.specs.Prelude.{◌≡◌, ◌+◌, ◌≤◌, ◌<◌, true, Some, None, map, length, vec_len, MatchResult, IfOk, IfSome};
ghost use Rattle.std.specs.List.{list_all};
ghost use Rattle.camelot_values.specs.Kinds.{data_type_of, constructor_of, AreTypes};
ghost use Rattle.value_text.specs.Choosing.{choose, best, Looked};
ghost use Rattle.value_text.specs.Inhabited.{first_con, AreFirst};
ghost use Rattle.value_text.specs.Splitting.{FrontCon};
ghost use Rattle.value_text.specs.Finite.{is_ready};

use super::cutting::{behind_name, common};
use super::finite::{MOST_TYPES, is_ready};
use super::inhabited::Inhabited;
use camelot_values::{Con, TypeDef};

// What one constructor says of a word: its name is the word, or it has so many bytes in common with it. A constructor
// with a field that has no value says nothing.
enum Look {
    Found,
    Common(usize),
}

// Compares the word with the constructor's name.
#[tactic(auto, using(crate::proofs::NameSteps::look_unready, crate::proofs::NameSteps::look_same, crate::proofs::NameSteps::look_other))]
fn compare(marks: &[bool], word: &[u8], con: &Con) -> Look
    ensures { Looked marks.now word.now (constructor_of con.now) result }
{
    if !is_ready(marks, con) {
        return Look::Common(0);
    }
    if con.name.bytes() == word {
        return Look::Found;
    }
    Look::Common(common(con.name.bytes(), word))
}

// The place of the type's constructor with this name, whose fields all have values. Else how many bytes of the word
// begin such a name.
#[tactic(auto, using(crate::proofs::NameSteps::chosen_here, crate::proofs::NameSteps::chosen_later, crate::proofs::NameSteps::best_later, crate::proofs::NameSteps::chosen_none, crate::proofs::NameSteps::best_end))]
pub(crate) fn choose(marks: &[bool], word: &[u8], def: &TypeDef) -> Result<usize, usize>
    ensures within { IfOk result (λ place. place < vec_len def.now.cons) }
    ensures chosen { MatchResult result (λ place. choose marks.now word.now (data_type_of def.now).cons ≡ Some place)
        (λ good. (choose marks.now word.now (data_type_of def.now).cons ≡ None)
        × (good ≡ best marks.now word.now (data_type_of def.now).cons)) }
{
    let mut good = 0;
    for (place, con) in def.cons.iter().enumerate() {
        match compare(marks, word, con) {
            Look::Found => return Ok(place),
            Look::Common(count) => good = good.max(count),
        }
    }
    Err(good)
}

// Whether all fields of the constructor have values. They are looked up only where some field of a type has none.
fn has_values(known: &Inhabited, con: &Con) -> bool
    requires full { known.now.full ≡ true → is_ready known.now.marks (constructor_of con.now) ≡ true }
    ensures { result ≡ is_ready known.now.marks (constructor_of con.now) }
{
    known.full || is_ready(&known.marks, con)
}

// The place of the type's constructor whose name stands in front, where its fields all have values, and the text behind
// the name. The last one is tried first, since the first ones of a type are mostly those that end a value.
#[tactic(auto, using(crate::proofs::NameSteps::front_there, crate::proofs::NameSteps::ready_there))]
pub(crate) fn front_con<'a>(
    known: &Inhabited,
    text: &'a [u8],
    def: &TypeDef,
) -> Option<(usize, &'a [u8])>
    requires full { known.now.full ≡ true → list_all (is_ready known.now.marks) (data_type_of def.now).cons ≡ true }
    ensures within { IfSome result (λ found. found.0 < vec_len def.now.cons) }
    ensures front { IfSome result (λ found. FrontCon known.now.marks (data_type_of def.now).cons text.now found.0 found.1.now) }
{
    let mut place = def.cons.len();
    'names: while place > 0 {
        place -= 1;
        let con = &def.cons[place];
        if let Some(rest) = behind_name(con.name.bytes(), text) {
            if has_values(known, con) {
                return Some((place, rest));
            }
            return None;
        }
    }
    None
}

// For each type, the number of its first constructor.
#[tactic(auto, using(crate::proofs::NameSteps::first_later, crate::proofs::NameSteps::first_zero, crate::proofs::NameSteps::few_cons, crate::proofs::NameSteps::few_list, crate::proofs::NameSteps::firsts_size, crate::proofs::NameSteps::firsts_more, crate::proofs::NameSteps::firsts_all))]
pub(crate) fn first_cons(types: &[TypeDef]) -> [u32; MOST_TYPES]
    requires types { AreTypes (map data_type_of types.now) }
    ensures { AreFirst (map data_type_of types.now) result }
{
    let mut firsts = [0; MOST_TYPES];
    let mut first = 0;
    for place in 0..types.len() {
        firsts[place] = first;
        first += types[place].cons.len() as u32;
    }
    firsts
}

// The number of the type's first constructor.
#[tactic(auto, using(crate::proofs::NameSteps::first_there))]
pub(crate) fn first_con(known: &Inhabited, types: &[TypeDef], number: usize) -> u32
    requires types { AreTypes (map data_type_of types.now) }
    requires firsts { AreFirst (map data_type_of types.now) known.now.firsts }
    requires within { number < length types.now }
    ensures { result ≡ first_con (map data_type_of types.now) number }
{
    known.firsts[number]
}
