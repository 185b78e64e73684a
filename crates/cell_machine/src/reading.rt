ghost use Rattle.std.specs.Prelude.{◌≡◌, true, ℕ, ◌+◌, ◌*◌, ◌≤◌, ◌<◌, ◌++◌, ◌∷◌, [], List, length, take, Some, IsSome, IsSomeAnd, vec_len, vec_capacity};
ghost use Rattle.camelot_values.specs.Kinds.{constructor};
ghost use Rattle.camelot_values.specs.Value.{Value};
ghost use Rattle.camelot_values.specs.Typing.{Fits};
ghost use Rattle.cell_machine.specs.Cells.{inline_base};
ghost use Rattle.cell_machine.specs.Stands.{Stands, footprint, RepeatsNone};
ghost use Rattle.cell_machine.specs.Homes.{HomesAre};
ghost use Rattle.cell_machine.specs.Nodes.{node_of, IsReading};
ghost use Rattle.cell_machine.specs.Due.{IfThere, kinds_due, words_due, kinds_next, words_next, ahead, ahead_fields, ahead_words, is_leaf, leaf_items, GoesOn, IsNew, IsRead, HasNodeRoom, SameItems, HoldsValue, con_node};

use crate::homes::Homes;
use crate::state::INLINE_BASE;
use camelot_values::{Flat, Item, Kind, Types};
use cell_span::Span;

/// A word that is still to be read, with its kind.
#[derive(Clone, Copy, Debug)]
pub(crate) struct Due {
    pub(crate) kind: Kind,
    pub(crate) word: u32,
}

/// A value that is being read: its nodes up to here, and the words that are due behind the next one, the first one of
/// them last.
#[derive(Drop)]
pub(crate) struct Reading {
    pub(crate) items: Vec<Item>,
    pub(crate) due: Vec<Due>,
}

// The constructor that was looked up last, with the kinds of its fields. The cells of a list repeat one constructor.
#[derive(Clone, Copy)]
struct Known<'a> {
    con: u32,
    fields: &'a [Kind],
}

// The first constructor, as the known one.
fn first_known(types: &Types) -> Known<'_>
    ensures { IfThere types.now result.con result.fields.now }
{
    let fields: &[Kind] = match types.con(0) {
        Some(con) => &con.fields,
        None => &[],
    };
    Known { con: 0, fields }
}

// The kinds of a constructor's fields. It is looked up where it isn't the known one.
#[inline(always)]
#[tactic(auto, using(crate::proofs::DueLaws::found_there))]
fn fields_at<'a>(types: &'a Types, homes: &Homes, known: &mut Known<'a>, con: u32) -> &'a [Kind]
    requires homes { HomesAre types.now homes.now }
    requires there { IsSome (constructor types.now con) }
    requires known { IfThere types.now known.old.con known.old.fields.now }
    ensures known { IfThere types.now known.new.con known.new.fields.now }
    ensures fields { IsSomeAnd (constructor types.now con) (λ k. k.fields ≡ result.now) }
{
    if con != known.con {
        *known = Known {
            con,
            fields: &homes.con(types, con).fields,
        };
    }
    known.fields
}

// The node of a word whose kind is no data type. It is called for the rarer kinds, so that the loop over nodes tells
// kinds apart by comparisons and has no table of them.
#[inline(never)]
fn leaf_item(leaf: Due) -> Item
    requires { is_leaf leaf.kind ≡ true }
    ensures { leaf_items leaf.kind leaf.word ≡ result ∷ [] }
{
    match leaf.kind {
        Kind::Int => Item::Int(leaf.word.cast_signed()),
        Kind::Flag => Item::Flag(leaf.word == 1),
        Kind::Dia => Item::Dia,
        Kind::Of(_) => unreachable!(),
    }
}

impl Reading {
    // This word is due next.
    #[inline(always)]
    #[tactic(auto, using(crate::proofs::DueLaws::kinds_last, crate::proofs::DueLaws::words_last))]
    fn due_word(&mut self, due: Due)
        requires room { vec_len self.old.due < vec_capacity self.old.due }
        ensures kinds { kinds_due self.new.due.items ≡ due.kind ∷ kinds_due self.old.due.items }
        ensures words { words_due self.new.due.items ≡ due.word ∷ words_due self.old.due.items }
        ensures len { vec_len self.new.due ≡ vec_len self.old.due + 1 }
        ensures room { vec_capacity self.new.due ≡ vec_capacity self.old.due }
        ensures items { SameItems self.old self.new }
    {
        self.due.push_reserved(due);
    }

    // Takes the next one of the words that are due.
    #[inline(always)]
    #[tactic(auto, using(crate::proofs::DueLaws::kinds_last, crate::proofs::DueLaws::words_last))]
    fn take_due(&mut self) -> Option<Due>
        ensures kinds { kinds_due self.old.due.items ≡ kinds_next result self.new.due.items }
        ensures words { words_due self.old.due.items ≡ words_next result self.new.due.items }
        ensures room { vec_capacity self.new.due ≡ vec_capacity self.old.due }
        ensures items { SameItems self.old self.new }
    {
        self.due.pop()
    }

    // Reads a word at once, unless its kind is a data type.
    #[inline(always)]
    fn read_leaf(&mut self, leaf: Due) -> bool
        requires room { vec_len self.old.items < vec_capacity self.old.items }
        ensures leaf { result ≡ is_leaf leaf.kind }
        ensures items { self.new.items.items ≡ self.old.items.items ++ leaf_items leaf.kind leaf.word }
        ensures items_room { vec_capacity self.new.items ≡ vec_capacity self.old.items }
        ensures due { self.new.due ≡ self.old.due }
    {
        match leaf.kind {
            Kind::Int => {
                self.items.push_reserved(Item::Int(leaf.word.cast_signed()));
                true
            }
            Kind::Of(_) => false,
            Kind::Flag | Kind::Dia => {
                self.items.push_reserved(leaf_item(leaf));
                true
            }
        }
    }

    // Of two words the first one is read at once or next.
    #[inline(always)]
    fn read_two(&mut self, a: Due, b: Due) -> Due
        requires items { vec_len self.old.items < vec_capacity self.old.items }
        requires due { vec_len self.old.due < vec_capacity self.old.due }
        ensures goes_on { GoesOn (ahead_words self.old (a ∷ b ∷ [])) (ahead self.new (Some result)) }
        ensures more { vec_len self.old.items ≤ vec_len self.new.items }
        ensures items_room { vec_capacity self.new.items ≡ vec_capacity self.old.items }
        ensures due_room { vec_capacity self.new.due ≡ vec_capacity self.old.due }
    {
        if self.read_leaf(a) {
            return b;
        }
        self.due_word(b);
        a
    }

    // Of three words the leading ones are read at once, as far as no kind is a data type.
    #[inline(always)]
    fn read_three(&mut self, a: Due, b: Due, c: Due) -> Due
        requires items { vec_len self.old.items + 2 ≤ vec_capacity self.old.items }
        requires due { vec_len self.old.due + 2 ≤ vec_capacity self.old.due }
        ensures goes_on { GoesOn (ahead_words self.old (a ∷ b ∷ c ∷ [])) (ahead self.new (Some result)) }
        ensures more { vec_len self.old.items ≤ vec_len self.new.items }
        ensures items_room { vec_capacity self.new.items ≡ vec_capacity self.old.items }
        ensures due_room { vec_capacity self.new.due ≡ vec_capacity self.old.due }
    {
        if self.read_leaf(a) {
            return self.read_two(b, c);
        }
        self.due_word(c);
        self.due_word(b);
        a
    }

    // Of four words the leading ones are read at once, as far as no kind is a data type.
    #[inline(always)]
    fn read_four(&mut self, a: Due, b: Due, c: Due, d: Due) -> Due
        requires items { vec_len self.old.items + 3 ≤ vec_capacity self.old.items }
        requires due { vec_len self.old.due + 3 ≤ vec_capacity self.old.due }
        ensures goes_on { GoesOn (ahead_words self.old (a ∷ b ∷ c ∷ d ∷ [])) (ahead self.new (Some result)) }
        ensures more { vec_len self.old.items ≤ vec_len self.new.items }
        ensures items_room { vec_capacity self.new.items ≡ vec_capacity self.old.items }
        ensures due_room { vec_capacity self.new.due ≡ vec_capacity self.old.due }
    {
        if self.read_leaf(a) {
            return self.read_three(b, c, d);
        }
        self.due_word(d);
        self.due_word(c);
        self.due_word(b);
        a
    }

    // The words of a cell's fields come next. The leading ones are read at once, as far as no kind is a data type and
    // others follow; the result is the next word. A list's cells have two fields, so that two are looked for first.
    #[inline(always)]
    fn read_fields(&mut self, fields: &[Kind], words: [u32; 4]) -> Option<Due>
        requires few { length fields.now ≤ 4 }
        requires items { vec_len self.old.items + length fields.now ≤ vec_capacity self.old.items }
        requires due { vec_len self.old.due + length fields.now ≤ vec_capacity self.old.due }
        ensures goes_on { GoesOn (ahead_fields self.old fields.now (take (length fields.now) words)) (ahead self.new result) }
        ensures more { vec_len self.old.items ≤ vec_len self.new.items }
        ensures items_room { vec_capacity self.new.items ≡ vec_capacity self.old.items }
        ensures due_room { vec_capacity self.new.due ≡ vec_capacity self.old.due }
    {
        let [first, second, third, fourth] = words;
        if let [a, b] = fields {
            let a = Due {
                kind: *a,
                word: first,
            };
            let b = Due {
                kind: *b,
                word: second,
            };
            return Some(self.read_two(a, b));
        }
        match fields {
            [] => self.take_due(),
            [a] => Some(Due {
                kind: *a,
                word: first,
            }),
            [a, b, c] => {
                let a = Due {
                    kind: *a,
                    word: first,
                };
                let b = Due {
                    kind: *b,
                    word: second,
                };
                let c = Due {
                    kind: *c,
                    word: third,
                };
                Some(self.read_three(a, b, c))
            }
            [a, b, c, d] => {
                let a = Due {
                    kind: *a,
                    word: first,
                };
                let b = Due {
                    kind: *b,
                    word: second,
                };
                let c = Due {
                    kind: *c,
                    word: third,
                };
                let d = Due {
                    kind: *d,
                    word: fourth,
                };
                Some(self.read_four(a, b, c, d))
            }
            _ => unreachable!(),
        }
    }

    // Reads the value that a word of a kind stands for; nothing was read yet.
    #[inline(never)]
    pub(crate) fn read(
        mut self,
        span: &Span,
        types: &Types,
        homes: &Homes,
        kind: Kind,
        word: u32,
    ) -> Flat
        requires homes { HomesAre types.now homes.now }
        requires new { IsNew self }
        requires nodes { 4 * length span.now.cells + 1 ≤ vec_capacity self.items }
        requires words { 4 * length span.now.cells + 5 ≤ vec_capacity self.due }
        requires value { HoldsValue types.now span.now.cells kind word }
        ensures { (v : Value) → Fits types.now kind v → Stands types.now span.now.cells v word → result ≡ v }
    {
        types.limits();
        let mut known = first_known(types);
        let mut next = Some(Due { kind, word });
        'words: while let Some(due) = next {
            next = self.read_node(span, types, homes, &mut known, due);
        }
        Flat::of(self.items)
    }

    // Reads the node of a word, with leading parts that are no data. The result is the word that comes next.
    #[inline(always)]
    fn read_node<'a>(
        &mut self,
        span: &Span,
        types: &'a Types,
        homes: &Homes,
        known: &mut Known<'a>,
        due: Due,
    ) -> Option<Due>
        requires homes { HomesAre types.now homes.now }
        requires known { IfThere types.now known.old.con known.old.fields.now }
        requires node { IsSomeAnd (node_of types.now span.now.cells due.kind due.word) (HasNodeRoom self.old) }
        requires due { vec_len self.old.due + 4 ≤ vec_capacity self.old.due }
        ensures known { IfThere types.now known.new.con known.new.fields.now }
        ensures read { IsSomeAnd (node_of types.now span.now.cells due.kind due.word) (IsRead self.old self.new result) }
        ensures more { vec_len self.old.items < vec_len self.new.items }
        ensures items_room { vec_capacity self.new.items ≡ vec_capacity self.old.items }
        ensures due_room { vec_capacity self.new.due ≡ vec_capacity self.old.due }
    {
        match due.kind {
            Kind::Int => {
                self.items.push_reserved(Item::Int(due.word.cast_signed()));
                self.take_due()
            }
            Kind::Of(_) => self.read_con(span, types, homes, known, due.word),
            Kind::Flag | Kind::Dia => {
                self.items.push_reserved(leaf_item(due));
                self.take_due()
            }
        }
    }

    // Reads the node of a word of a data type.
    #[inline(always)]
    fn read_con<'a>(
        &mut self,
        span: &Span,
        types: &'a Types,
        homes: &Homes,
        known: &mut Known<'a>,
        word: u32,
    ) -> Option<Due>
        requires homes { HomesAre types.now homes.now }
        requires known { IfThere types.now known.old.con known.old.fields.now }
        requires node { IsSomeAnd (con_node types.now span.now.cells word) (HasNodeRoom self.old) }
        requires due { vec_len self.old.due + 4 ≤ vec_capacity self.old.due }
        ensures known { IfThere types.now known.new.con known.new.fields.now }
        ensures read { IsSomeAnd (con_node types.now span.now.cells word) (IsRead self.old self.new result) }
        ensures more { vec_len self.old.items < vec_len self.new.items }
        ensures items_room { vec_capacity self.new.items ≡ vec_capacity self.old.items }
        ensures due_room { vec_capacity self.new.due ≡ vec_capacity self.old.due }
    {
        if word >= INLINE_BASE {
            let con = word - INLINE_BASE;
            self.items.push_reserved(Item::Con { con, parts: 0 });
            return self.take_due();
        }
        let cell = span.get(word);
        types.limits();
        let fields = fields_at(types, homes, known, cell.tag);
        self.items.push_reserved(Item::Con {
            con: cell.tag,
            parts: fields.len() as u8,
        });
        self.read_fields(fields, cell.words)
    }
}
