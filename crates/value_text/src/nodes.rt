ghost use Rattle.std.specs.Prelude.{◌≡◌, ◌∷◌, map, length, IfSome, MatchResult};
ghost use Rattle.camelot_values.specs.Kinds.{data_type_of, AreTypes};
ghost use Rattle.camelot_values.specs.declared.kinds.Kind.TheVariants.{Of};
ghost use Rattle.value_text.specs.Due.{Named, Unnamed};
ghost use Rattle.value_text.specs.Grammar.{AreNamed, DistinctNames};
ghost use Rattle.value_text.specs.Finite.{HasValue};
ghost use Rattle.value_text.specs.Inhabited.{Knows, AreFirst};
ghost use Rattle.value_text.specs.Choosing.{HasPlace, IsConNode, IsFlag, NoFlag};
ghost use Rattle.value_text.specs.Splitting.{FrontIntPart, FrontPart, FrontRead, NodeRead, NodeRefused, NotFirst, before_mark};

use super::cutting::{common, skip_spaces, split_word};
use super::inhabited::Inhabited;
use super::ints::{front_int, plain_part, read_int};
use super::names::{choose, first_con, front_con};
use camelot_values::{Item, Kind, TypeDef, Types};

// The node of the constructor at this place of the type, and the kinds of its fields.
#[tactic(auto, using(crate::proofs::NodeSteps::node_here, crate::proofs::NodeSteps::number_within, crate::proofs::NodeSteps::place_within, crate::proofs::NodeSteps::few_fields, crate::proofs::NodeSteps::few_places, crate::proofs::NodeSteps::few_firsts))]
fn con_node<'a>(
    known: &Inhabited,
    defs: &'a [TypeDef],
    number: usize,
    place: usize,
) -> (Item, &'a [Kind])
    requires types { AreTypes (map data_type_of defs.now) }
    requires firsts { AreFirst (map data_type_of defs.now) known.now.firsts }
    requires place { HasPlace (map data_type_of defs.now) number place }
    ensures { IsConNode (map data_type_of defs.now) number place result.0 result.1.now }
{
    let con = &defs[number].cons[place];
    let item = Item::Con {
        con: first_con(known, defs, number) + place as u32,
        parts: con.fields.len() as u8,
    };
    (item, &con.fields)
}

// The constructor of the type that the word names, whose fields all have values. Else how many bytes of the word begin
// such a name.
#[tactic(auto, using(crate::proofs::NodeSteps::named_node, crate::proofs::NodeSteps::unnamed_node, crate::proofs::NodeSteps::absent_node, crate::proofs::NodeSteps::has_place))]
fn find_con<'a>(
    types: &'a Types,
    known: &Inhabited,
    number: u32,
    word: &[u8],
) -> Result<(Item, &'a [Kind]), usize>
    requires named { AreNamed types.now }
    requires distinct { DistinctNames types.now }
    requires knows { Knows types.now known.now }
    requires value { HasValue types.now (Of number) }
    ensures { MatchResult result (λ node. Named types.now (Of number) word.now node.0 node.1.now) (λ good. Unnamed types.now (Of number) word.now good) }
{
    types.limits();
    let defs = types.defs();
    let place = number as usize;
    if place >= defs.len() {
        return Err(0);
    }
    match choose(&known.marks, word, &defs[place]) {
        Ok(chosen) => Ok(con_node(known, defs, place, chosen)),
        Err(good) => Err(good),
    }
}

// The truth value that the word is. Else how many bytes of the word begin one.
fn find_flag(word: &[u8]) -> Result<bool, usize>
    ensures { MatchResult result (λ flag. IsFlag word.now flag) (λ good. NoFlag word.now good) }
{
    if word == b"true".as_slice() {
        return Ok(true);
    }
    if word == b"false".as_slice() {
        return Ok(false);
    }
    Err(common(b"true", word).max(common(b"false", word)))
}

// The node of this kind whose word this is, and the kinds of its parts, all of which have values. Else how many bytes
// of the word begin a word of such a node.
#[tactic(auto, using(crate::proofs::NodeSteps::int_named, crate::proofs::NodeSteps::int_unnamed, crate::proofs::NodeSteps::flag_is, crate::proofs::NodeSteps::flag_not, crate::proofs::NodeSteps::dia_is, crate::proofs::NodeSteps::dia_not))]
fn find_node<'a>(
    types: &'a Types,
    known: &Inhabited,
    kind: Kind,
    word: &[u8],
) -> Result<(Item, &'a [Kind]), usize>
    requires named { AreNamed types.now }
    requires distinct { DistinctNames types.now }
    requires knows { Knows types.now known.now }
    requires value { HasValue types.now kind }
    ensures { MatchResult result (λ node. Named types.now kind word.now node.0 node.1.now) (λ good. Unnamed types.now kind word.now good) }
{
    match kind {
        Kind::Int => match read_int(word) {
            Ok(number) => Ok((Item::Int(number), &[])),
            Err(good) => Err(good),
        },
        Kind::Flag => match find_flag(word) {
            Ok(flag) => Ok((Item::Flag(flag), &[])),
            Err(good) => Err(good),
        },
        Kind::Dia => {
            if word == b"<>".as_slice() {
                Ok((Item::Dia, &[]))
            } else {
                Err(common(b"<>", word))
            }
        }
        Kind::Of(number) => find_con(types, known, number, word),
    }
}

/// What was read of a value: a node, the kinds of its parts, and the text behind its word.
#[derive(Drop)]
pub(crate) struct Read<'a, 'b> {
    pub item: Item,
    pub fields: &'a [Kind],
    pub rest: &'b [u8],
}

// The node of the type's constructor whose name stands in front, where its fields all have values.
#[tactic(auto, using(crate::proofs::NodeSteps::has_place, crate::proofs::NodeSteps::ready_type))]
fn front_con_node<'a, 'b>(
    types: &'a Types,
    known: &Inhabited,
    number: u32,
    text: &'b [u8],
) -> Option<Read<'a, 'b>>
    requires named { AreNamed types.now }
    requires distinct { DistinctNames types.now }
    requires knows { Knows types.now known.now }
    ensures { IfSome result (λ node. FrontRead types.now (Of number) text.now node.item node.fields.now node.rest.now) }
{
    types.limits();
    let defs = types.defs();
    let place = number as usize;
    if place >= defs.len() {
        return None;
    }
    match front_con(known, text, &defs[place]) {
        Some((chosen, rest)) => {
            let (item, fields) = con_node(known, defs, place, chosen);
            Some(Read { item, fields, rest })
        }
        None => None,
    }
}

// The node of this kind whose word stands in front, where it is an int without a sign or a constructor.
fn front_node<'a, 'b>(
    types: &'a Types,
    known: &Inhabited,
    kind: Kind,
    text: &'b [u8],
) -> Option<Read<'a, 'b>>
    requires named { AreNamed types.now }
    requires distinct { DistinctNames types.now }
    requires knows { Knows types.now known.now }
    ensures { IfSome result (λ node. FrontRead types.now kind text.now node.item node.fields.now node.rest.now) }
{
    match kind {
        Kind::Int => match front_int(text) {
            Some((number, rest)) => Some(Read {
                item: Item::Int(number),
                fields: &[],
                rest,
            }),
            None => None,
        },
        Kind::Of(number) => front_con_node(types, known, number, text),
        Kind::Flag | Kind::Dia => None,
    }
}

/// Reads the word of a node of this kind, behind spaces. Else how many bytes are left from the first bad one on. Words
/// that stand in front as they are printed are read at once.
#[tactic(auto, using(crate::proofs::NodeSteps::front_is_read, crate::proofs::NodeSteps::node_read, crate::proofs::NodeSteps::node_refused, crate::proofs::NodeSteps::good_within))]
pub(crate) fn read_node<'a, 'b>(
    types: &'a Types,
    known: &Inhabited,
    kind: Kind,
    text: &'b [u8],
) -> Result<Read<'a, 'b>, usize>
    requires named { AreNamed types.now }
    requires distinct { DistinctNames types.now }
    requires knows { Knows types.now known.now }
    requires value { HasValue types.now kind }
    ensures { MatchResult result (λ node. NodeRead types.now kind text.now node.item node.fields.now node.rest.now)
        (λ left. NodeRefused types.now kind text.now left) }
{
    let text = skip_spaces(text);
    if let Some(node) = front_node(types, known, kind, text) {
        return Ok(node);
    }
    let (word, rest) = split_word(text);
    match find_node(types, known, kind, word) {
        Ok((item, fields)) => Ok(Read { item, fields, rest }),
        Err(good) => Err(text.len() - good),
    }
}

/// Reads a mark: behind spaces, unless it is a space itself. Else how many bytes are left from the first bad one on. A
/// mark that stands in front is read at once.
#[tactic(auto, using(crate::proofs::NodeSteps::mark_first, crate::proofs::NodeSteps::mark_here, crate::proofs::NodeSteps::mark_other, crate::proofs::NodeSteps::mark_none))]
pub(crate) fn read_mark(text: &[u8], mark: u8) -> Result<&[u8], usize>
    ensures { MatchResult result (λ rest. before_mark mark text.now ≡ mark ∷ rest.now)
        (λ left. (left ≡ length (before_mark mark text.now)) × NotFirst mark (before_mark mark text.now)) }
{
    if let [first, rest @ ..] = text {
        if *first == mark {
            return Ok(rest);
        }
    }
    let text = if mark == b' ' {
        text
    } else {
        skip_spaces(text)
    };
    match text {
        [first, rest @ ..] => {
            if *first == mark {
                Ok(rest)
            } else {
                Err(text.len())
            }
        }
        [] => Err(0),
    }
}

// The int behind spaces that a comma stands behind, and the text behind the comma.
#[inline(never)]
fn spaced_part(text: &[u8]) -> Option<(i32, &[u8])>
    ensures { IfSome result (λ found. FrontIntPart text.now found.0 found.1.now) }
{
    match front_int(skip_spaces(text)) {
        None => None,
        Some((number, behind)) => match read_mark(behind, b',') {
            Err(_) => None,
            Ok(rest) => Some((number, rest)),
        },
    }
}

// The int that a comma stands behind, and the text behind the comma. Most often both stand there as they are printed,
// and then nothing is called.
#[inline(always)]
fn int_part(text: &[u8]) -> Option<(i32, &[u8])>
    ensures { IfSome result (λ found. FrontIntPart text.now found.0 found.1.now) }
{
    if let Some(found) = plain_part(text) {
        return Some(found);
    }
    spaced_part(text)
}

/// The node of an int that was read with the comma behind it, the kind of the next part, those of the parts behind
/// that, and the text behind the comma.
#[derive(Drop)]
pub(crate) struct IntPart<'a, 'b> {
    pub item: Item,
    pub next: Kind,
    pub others: &'a [Kind],
    pub rest: &'b [u8],
}

/// Reads an int and the comma behind it, where a part of this kind is due with others behind it.
pub(crate) fn front_part<'a, 'b>(
    kind: Kind,
    others: &'a [Kind],
    text: &'b [u8],
) -> Option<IntPart<'a, 'b>>
    ensures { IfSome result (λ part. FrontPart kind others.now text.now part.item part.next part.others.now part.rest.now) }
{
    match kind {
        Kind::Int => match others {
            [] => None,
            [next, others @ ..] => match int_part(text) {
                None => None,
                Some((number, rest)) => Some(IntPart {
                    item: Item::Int(number),
                    next: *next,
                    others,
                    rest,
                }),
            },
        },
        _ => None,
    }
}
