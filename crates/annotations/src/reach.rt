ghost use Rattle.std.specs.Prelude.{◌≡◌, ◌↔◌, ◌&&◌, ◌++◌, nat_lt, List, length, map, replicate, slice_get, get_or, IfOk, OnOk, IsTrue, false, MatchOption, None};
ghost use Rattle.camelot_values.specs.Kinds.{DataType, type_of};
ghost use Rattle.camelot_values.specs.Heap.{is_heap, reached, Reaches};
ghost use Rattle.camelot_values.specs.Lists.{Ascend, is_among};
ghost use Rattle.annotations.specs.Vectors.{at, is_heap_con, AtLeast, IsFirstBelow};
ghost use Rattle.annotations.specs.Tables.{table_of, IsRow, is_heap_in, is_heap_con_in, is_in, row_in, AreIn, ReachesEach};
ghost use Rattle.annotations.specs.Steps.{first_below};

use super::compare::{in_front, pairs_from};
use super::vector::Vector;
use camelot_values::{Kind, Types};
use std::alloc::{AllocError, Global};
use std::marker::Model;

/// Whether the number is among these, which ascend. It takes a logarithmic time.
pub fn is_among(numbers: &[u32], number: u32) -> bool
    requires { Ascend numbers.now }
    ensures { result ≡ is_among numbers.now number }
{
    match numbers.binary_search(&number) {
        Ok(_) => true,
        Err(_) => false,
    }
}

// How many types there are.
fn type_count(types: &Types) -> u32
    ensures { result ≡ length types.now }
{
    types.limits();
    types.defs().len() as u32
}

// For each type, whether it's a heap type.
#[tactic(auto, using(crate::proofs::Rows::one_heap))]
fn heaps_of(alloc: Global, types: &Types) -> Result<Vec<bool>, AllocError>
    ensures { IfOk result (λ heaps. heaps.items ≡ (table_of types.now).heaps) }
{
    let mut heaps = Vec::new(alloc);
    'types: for number in 0..type_count(types) {
        heaps.push(types.is_heap(Kind::Of(number)))?;
    }
    Ok(heaps)
}

// Adds the type of so many constructors.
#[tactic(auto, using(crate::proofs::Rows::one_owner))]
fn push_owner(owners: &mut Vec<u32>, number: u32, count: usize) -> Result<(), AllocError>
    ensures { OnOk result (owners.new.items ≡ owners.old.items ++ replicate count number) }
{
    'cons: for _con in 0..count {
        owners.push(number)?;
    }
    Ok(())
}

// For each constructor, its type.
#[tactic(auto, using(crate::proofs::Rows::one_type))]
fn owners_of(alloc: Global, types: &Types) -> Result<Vec<u32>, AllocError>
    ensures { IfOk result (λ owners. owners.items ≡ (table_of types.now).owners) }
{
    types.limits();
    let mut owners = Vec::new(alloc);
    let mut number = 0;
    let mut rest = types.defs();
    'types: while let [def, others @ ..] = rest {
        push_owner(&mut owners, number, def.cons.len())?;
        number += 1;
        rest = others;
    }
    Ok(owners)
}

// For each type, the constructors that it reaches.
fn rows_of(alloc: Global, types: &Types) -> Result<Vec<Vec<u32>>, AllocError>
    ensures { IfOk result (λ rows. map (λ r. r.items) rows.items ≡ (table_of types.now).rows) }
{
    let mut rows = Vec::new(alloc);
    'types: for number in 0..type_count(types) {
        let row = types.reached(alloc, Kind::Of(number))?;
        rows.push(row)?;
    }
    Ok(rows)
}

/// Which constructors each type reaches, and which type each constructor is of, made once for many questions.
#[derive(Drop)]
pub struct ReachTable {
    heaps: Vec<bool>,
    owners: Vec<u32>,
    rows: Vec<Vec<u32>>,
}

impl Model for ReachTable {
    ghost use Rattle.std.specs.Prelude.{map};
    ghost use Rattle.std.specs.List.{AllByRecursion};
    ghost use Rattle.camelot_values.specs.Lists.{Ascend};
    ghost use Rattle.annotations.specs.Tables.{Table};

    ghost Value = { Table };

    ghost view = { λ t. record { heaps = t.heaps.items; owners = t.owners.items; rows = map (λ r. r.items) t.rows.items } };

    ghost invariant = { λ t. AllByRecursion Ascend (map (λ r. r.items) t.rows.items) };
}

impl ReachTable {
    /// The table of these types; `AllocError` where memory runs out.
    pub fn new(alloc: Global, types: &Types) -> Result<ReachTable, AllocError>
        ensures { IfOk result (λ table. table ≡ table_of types.now) }
    {
        let heaps = heaps_of(alloc, types)?;
        let owners = owners_of(alloc, types)?;
        let rows = rows_of(alloc, types)?;
        Ok(ReachTable {
            heaps,
            owners,
            rows,
        })
    }

    // The type that the constructor is of.
    fn owner(&self, con: u32) -> Option<u32>
        ensures { result ≡ slice_get self.now.owners con }
    {
        self.owners.get(con as usize).copied()
    }

    // Whether this is a heap type. A type that isn't there is none.
    fn is_heap_type(&self, number: u32) -> bool
        ensures { result ≡ get_or self.now.heaps number false }
    {
        self.heaps.get(number as usize).copied().unwrap_or(false)
    }

    // Whether the kind is a heap kind, by the table.
    fn is_heap_in(&self, kind: Kind) -> bool
        ensures { result ≡ is_heap_in self.now kind }
    {
        match kind {
            Kind::Int | Kind::Flag => false,
            Kind::Dia => true,
            Kind::Of(number) => self.is_heap_type(number),
        }
    }

    // Whether the constructor belongs to a heap type, by the table.
    fn is_heap_con_in(&self, con: u32) -> bool
        ensures { result ≡ is_heap_con_in self.now con }
    {
        match self.owner(con) {
            Some(number) => self.is_heap_type(number),
            None => false,
        }
    }

    /// The number of the type that the constructor of this number belongs to, as `Types::type_of` says it of the types
    /// of the table. It takes a constant time, and no memory.
    pub fn type_of(&self, con: u32) -> Option<u32>
        ensures { (types : List DataType) → self.now ≡ table_of types → result ≡ type_of types con }
    {
        self.owner(con)
    }

    /// Whether values of this kind take cells, as `Types::is_heap` says it of the types of the table. It takes a
    /// constant time, and no memory.
    pub fn is_heap(&self, kind: Kind) -> bool
        ensures { (types : List DataType) → self.now ≡ table_of types → result ≡ is_heap types kind }
    {
        self.is_heap_in(kind)
    }

    /// Whether the constructor of this number belongs to a heap type, in the types of the table. It takes a constant
    /// time, and no memory.
    pub fn is_heap_con(&self, con: u32) -> bool
        ensures { (types : List DataType) → self.now ≡ table_of types → result ≡ is_heap_con types con }
    {
        self.is_heap_con_in(con)
    }

    // The constructors that the type of this number reaches, ascending. A type that isn't there reaches none.
    fn row(&self, number: u32) -> &[u32]
        ensures { IsRow self.now.rows number result.now }
    {
        match self.rows.get(number as usize) {
            Some(row) => row,
            None => &[],
        }
    }

    // Whether the constructor stands in the kind's row.
    fn is_in(&self, kind: Kind, con: u32) -> bool
        ensures { result ≡ is_in self.now kind con }
    {
        match kind {
            Kind::Int | Kind::Flag | Kind::Dia => false,
            Kind::Of(number) => is_among(self.row(number), con),
        }
    }

    /// Whether the kind reaches the constructor of this number, as `Types::reaches` says it of the types of the table.
    /// It takes a logarithmic time, and no memory.
    pub fn reaches(&self, kind: Kind, con: u32) -> bool
        ensures { (types : List DataType) → self.now ≡ table_of types → (IsTrue result ↔ Reaches types kind con) }
    {
        self.is_in(kind, con)
    }

    // The kind's row.
    fn row_of(&self, kind: Kind) -> &[u32]
        ensures { result.now ≡ row_in self.now kind }
    {
        match kind {
            Kind::Int | Kind::Flag | Kind::Dia => &[],
            Kind::Of(number) => self.row(number),
        }
    }

    /// The constructors that the kind reaches, ascending, as `Types::reached` lists them, in the types of the table. It
    /// takes a constant time, and no memory.
    pub fn reached(&self, kind: Kind) -> &[u32]
        ensures { (types : List DataType) → self.now ≡ table_of types → result.now ≡ reached types kind }
    {
        self.row_of(kind)
    }

    // Whether each constructor of the vector stands in the kind's row.
    fn are_in(&self, kind: Kind, vector: &Vector) -> bool
        ensures { IsTrue result ↔ AreIn self.now kind vector.now }
    {
        let mut rest = vector.pairs();
        'pairs: while let [(con, _), others @ ..] = rest {
            if !self.is_in(kind, *con) {
                return false;
            }
            rest = others;
        }
        true
    }

    /// Whether the kind reaches each constructor of the vector, in the types of the table. It takes a logarithmic time
    /// for each, and no memory.
    pub fn reaches_each(&self, kind: Kind, vector: &Vector) -> bool
        ensures { (types : List DataType) → self.now ≡ table_of types → (IsTrue result ↔ ReachesEach types kind vector.now) }
    {
        self.are_in(kind, vector)
    }
}

// Whether there are fewer units, of a constructor that the kind reaches.
fn is_below(table: &ReachTable, kind: Kind, con: u32, have: u64, need: u64) -> bool
    ensures { result ≡ (nat_lt have need && is_in table.now kind con) }
{
    if have < need {
        table.is_in(kind, con)
    } else {
        false
    }
}

// The first constructor on the right that the kind reaches and that has fewer units on the left.
fn first_fewer(left: &Vector, right: &Vector, table: &ReachTable, kind: Kind) -> Option<u32>
    ensures { result ≡ first_below (is_in table.now kind) left.now right.now }
{
    let mut rest = left.pairs();
    'pairs: for (con, need) in right.pairs() {
        rest = pairs_from(rest, *con);
        if is_below(table, kind, *con, in_front(rest, *con), *need) {
            return Some(*con);
        }
    }
    None
}

/// The first constructor that the kind reaches which has fewer units on the left than on the right, by a table of the
/// types; None exactly where the left has at least as many on each. Both are walked once, it takes no memory, and the
/// table is only asked where the left has fewer.
pub fn first_below(left: &Vector, right: &Vector, table: &ReachTable, kind: Kind) -> Option<u32>
    // None says that the left has at least as many units on each constructor that is reached; a constructor is the
    // first where it has fewer.
    ensures answer { (types : List DataType) → table.now ≡ table_of types
        → MatchOption result (AtLeast types kind (at left.now) (at right.now))
        (λ con. IsFirstBelow types kind (at left.now) (at right.now) con) }
    // None comes exactly where the left has at least as many on each.
    ensures none { (types : List DataType) → table.now ≡ table_of types → ((result ≡ None) ↔ AtLeast types kind (at left.now) (at right.now)) }
{
    left.limits();
    right.limits();
    first_fewer(left, right, table, kind)
}
