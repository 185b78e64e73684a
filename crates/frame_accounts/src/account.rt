//! The account at a place: what is left there, and what locals carry.
ghost use Rattle.std.specs.Prelude.{◌≡◌, ◌+◌, ◌-◌, ◌≤◌, [], length, map, take, drop, replicate, slice_get, Some, None};
ghost use Rattle.std.specs.Option.{option_map, option_map_or};
ghost use Rattle.grail_code.specs.Code as plain;
ghost use Rattle.grail_code.specs.Code.{block_of, let_of, op_of};
ghost use Rattle.annotations.specs.Vectors.{at};
ghost use Rattle.certificate.specs.Certificates as certified;
ghost use Rattle.certificate.specs.Words as words;
ghost use Rattle.licence.specs.Books.{said, vector_of};
ghost use Rattle.licence.specs.Rules.{build_cost, naturals};
ghost use Rattle.frame_accounts.specs.Accounts.{AreCarried, account_of, block_at};
ghost use Rattle.frame_accounts.specs.Tables.{heaps_from, row_for, row_of, rows_of, table_of};
ghost use Rattle.frame_accounts.specs.Walk.{AreLeft, first_need, first_vars, left_after, left_at, listed, vectors_at};

use crate::lines::{in_front, makes_from, need_at, vars_at};
use crate::lookups::{block_at, own_at};
use crate::table::{AccountTable, BlockRow, FuncRows};
use crate::vectors::{Here, bind, is_heap_con, put_none, put_vars};
use annotations::Vector;
use certificate::{FuncCert, MakeCert};
use grail_code::{Block, Let, Op, Place};
use licence::Licence;

// The units of the constructor.
fn units_of(made: Option<&Vector>, con: u32) -> u64
    ensures { result ≡ at (option_map_or (λ v. v.now) made.entry []) con }
{
    match made {
        Some(vector) => vector.at(con),
        None => 0,
    }
}

// What is left where a build took what its node is to carry, and a cell's price where it takes a new cell.
fn left_behind_build(left: u64, unit: u64, place: Place, units: u64) -> u64
    ensures is { result ≡ left - build_cost naturals unit place units }
    ensures few { result ≤ left }
{
    let rest = left.saturating_sub(units);
    match place {
        Place::New => rest.saturating_sub(unit),
        Place::Inline | Place::Reuse(_) => rest,
    }
}

// What is left where a call took its need and gave back.
fn left_behind_call(licence: &Licence, left: u64, func: u32) -> u64
    requires few { left ≤ 281474976710656 }
    ensures is { result ≡ (left - said licence.now.cert func (λ f. f.need) 0) + said licence.now.cert func (λ f. f.back) 0 }
    ensures few { result ≤ left + 1099511627776 }
{
    licence.cert().limits();
    match own_at(licence, func as usize) {
        Some(callee) => left.saturating_sub(callee.need) + callee.back,
        None => left,
    }
}

// What is left behind a let whose build carries this.
fn left_after(here: Here<'_, '_>, made: Option<&Vector>, left: u64, op: &Op) -> u64
    requires few { left ≤ 281474976710656 }
    ensures is { result ≡ left_after here.entry.licence.now.code.types here.entry.licence.now.cert
        (option_map_or (λ v. v.now) made.entry []) left (op_of op.now) }
    ensures few { result ≤ left + 1099511627776 }
{
    match op {
        Op::Make { con, place, .. } => {
            if !is_heap_con(here, *con) {
                return left;
            }
            left_behind_build(
                left,
                here.licence.cert().unit(),
                *place,
                units_of(made, *con),
            )
        }
        Op::Call { func, .. } => left_behind_call(here.licence, left, *func),
        Op::Lit(_) | Op::Flag(_) | Op::Copy(_) | Op::Prim { .. } => left,
    }
}

// What is left behind these lets of a block, where so much is needed at its beginning, and what locals carry there.
fn pass_lets<'a>(
    here: Here<'a, '_>,
    need: u64,
    lets: &[Let],
    vectors: &mut [Option<&'a Vector>],
) -> u64
    requires makes { AreLeft (words.func_of here.own.now) here.block 1 (map words.make_of here.makes.now) }
    requires need { need ≡ first_need (words.func_of here.own.now) here.block }
    requires little { need ≤ 1099511627776 }
    requires few { length lets.now ≤ 256 }
    requires told { map (λ o. option_map_or (λ v. v.now) o []) vectors.old
        ≡ listed (length vectors.old) (vector_of (first_vars (words.func_of here.own.now) here.block)) }
    ensures count { length vectors.new ≡ length vectors.old }
    ensures left { result ≡ left_at here.entry.licence.now.code.types here.entry.licence.now.cert (words.func_of here.entry.own.now)
        here.entry.block (map let_of lets.now) }
    ensures told { map (λ o. option_map_or (λ v. v.now) o []) vectors.new
        ≡ listed (length vectors.old) (vectors_at here.entry.licence.now.code.types here.entry.licence.now.cert (words.func_of here.entry.own.now)
        here.entry.block (map let_of lets.now)) }
    ensures range { result ≤ 562949953421312 }
{
    let mut rest = here.makes;
    let mut left = need;
    let mut count = 0;
    'lets: while count < lets.len() {
        rest = makes_from(rest, here.block, count + 1);
        let made = in_front(rest, here.block, count + 1);
        let each = &lets[count];
        left = left_after(here, made, left, &each.op);
        bind(here, &lets[..count], made, each, vectors);
        count += 1;
    }
    left
}

// The lets before the one of this number.
#[tactic(auto, using(crate::proofs::PlaceLaws::front_of))]
fn lets_before(block: &Block, place: u32) -> &[Let]
    ensures { map let_of result.now ≡ take place (block_of block.now).lets }
{
    let lets: &[Let] = &block.lets;
    match lets.get(..place as usize) {
        Some(front) => front,
        None => lets,
    }
}

// The lines of builds from this one on.
#[tactic(auto, using(crate::proofs::PlaceLaws::rest_there, crate::proofs::PlaceLaws::rest_past))]
fn makes_at(own: &FuncCert, make: u32) -> &[MakeCert]
    ensures { map words.make_of result.now ≡ drop make (words.func_of own.now).makes }
{
    let makes: &[MakeCert] = &own.makes;
    let place = make as usize;
    if place > makes.len() {
        return &[];
    }
    &makes[place..]
}

// The row of this block, where there is one.
fn row_in(rows: &FuncRows, block: u32) -> Option<&BlockRow>
    ensures { option_map (λ r. row_of r.now) result ≡ slice_get (rows_of rows.now) block }
{
    rows.blocks.get(block as usize)
}

// The account behind these lets of a block of a function with these lines, the row of which is known. No local carries
// anything at first.
fn account_behind<'a>(
    licence: &'a Licence,
    heaps: &[bool],
    own: &'a FuncCert,
    row: BlockRow,
    block: u32,
    lets: &[Let],
    vectors: &mut [Option<&'a Vector>],
) -> u64
    requires heaps { heaps.now ≡ heaps_from licence.now.code.types 0 licence.now.code.types }
    requires formed { certified.FuncIsFormed (words.func_of own.now) }
    requires within { certified.FuncIsWithin (words.func_of own.now) }
    requires row { row_of row ≡ row_for (words.func_of own.now) block }
    requires few { length lets.now ≤ 256 }
    requires none { vectors.old ≡ replicate (length vectors.old) None }
    ensures count { length vectors.new ≡ length vectors.old }
    ensures left { result ≡ left_at licence.now.code.types licence.now.cert (words.func_of own.now) block (map let_of lets.now) }
    ensures told { map (λ o. option_map_or (λ v. v.now) o []) vectors.new
        ≡ listed (length vectors.old) (vectors_at licence.now.code.types licence.now.cert (words.func_of own.now) block (map let_of lets.now)) }
    ensures range { result ≤ 562949953421312 }
{
    let vars = vars_at(own, row.line, block);
    let need = need_at(own, row.line, block);
    put_vars(vectors, vars);
    let here = Here {
        licence,
        heaps,
        own,
        block,
        vars,
        makes: makes_at(own, row.make),
    };
    pass_lets(here, need, lets, vectors)
}

impl AccountTable {
    // The account at a place of this block. It stands in a function that has lines, and it has a row.
    fn account_in<'a>(
        &self,
        licence: &'a Licence,
        func: u32,
        block: u32,
        at: &Block,
        place: u32,
        vectors: &mut [Option<&'a Vector>],
    ) -> u64
        requires table { self.now ≡ table_of licence.now }
        requires there { block_at licence.now.code func block ≡ Some (block_of at.now) }
        requires none { vectors.old ≡ replicate (length vectors.old) None }
        ensures count { length vectors.new ≡ length vectors.old }
        ensures left { result ≡ (account_of licence.now func block (block_of at.now) place).left }
        ensures carried { AreCarried (account_of licence.now func block (block_of at.now) place).carried
            (map (λ o. option_map_or (λ v. v.now) o []) vectors.new) }
        ensures range { result ≤ 562949953421312 }
    {
        licence.kept();
        match own_at(licence, func as usize) {
            Some(own) => match self.rows_at(func) {
                Some(rows) => match row_in(rows, block) {
                    Some(row) => {
                        account_behind(
                            licence,
                            self.heaps(),
                            own,
                            *row,
                            block,
                            lets_before(at, place),
                            vectors,
                        )
                    }
                    None => 0,
                },
                None => 0,
            },
            None => 0,
        }
    }

    /// The account at a place of a block: how many units are left there, by the certificate, and what the value of each
    /// local carries. Places count lets from 0; at their number and beyond it, the place is that before the block's
    /// end. Each local gets its vector, as far as there are vectors. Where its value carries nothing, that is None, or
    /// a vector without units.
    ///
    /// It takes no memory, and time by the block's lets before the place, its parameters' lines and its builds' lines.
    /// A copy of a local that has no place among the vectors goes through the lets before it.
    pub fn account_at<'a>(
        &self,
        licence: &'a Licence,
        func: u32,
        block: u32,
        place: u32,
        vectors: &mut [Option<&'a Vector>],
    ) -> u64
        requires { self.now ≡ table_of licence.now }
        // As many vectors are there as before.
        ensures count { length vectors.new ≡ length vectors.old }
        // The answer is what is left there by the rules.
        ensures left { (b : plain.Block) → block_at licence.now.code func block ≡ Some b
            → result ≡ (account_of licence.now func block b place).left }
        // Each local carries there by the rules what its vector says.
        ensures carried { (b : plain.Block) → block_at licence.now.code func block ≡ Some b
            → AreCarried (account_of licence.now func block b place).carried (map (λ o. option_map_or (λ v. v.now) o []) vectors.new) }
        // At most 2^49 units are left.
        ensures range { result ≤ 562949953421312 }
        // Where there is no such block, nothing is left.
        ensures nowhere { block_at licence.now.code func block ≡ None → result ≡ 0 }
        // And no local has a vector.
        ensures none { block_at licence.now.code func block ≡ None → vectors.new ≡ replicate (length vectors.old) None }
    {
        put_none(vectors);
        match block_at(licence, func, block) {
            Some(at) => self.account_in(licence, func, block, at, place, vectors),
            None => 0,
        }
    }
}
