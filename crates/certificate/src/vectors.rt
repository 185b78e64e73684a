ghost use Rattle.std.specs.Prelude.{◌≡◌, ◌∷◌, [], ◌≤◌, MatchResult, MatchOption, length};
ghost use Rattle.std.specs.Option.{option_map};
ghost use Rattle.certificate.specs.Certificates.{VectorIsWithin};
ghost use Rattle.certificate.specs.Reading.{capped_pair, is_there, is_before, pair_of, vector_from, vector_of, IsRead, IsStopped, IsWide};
ghost use Rattle.text_lines.specs.Cuts.{upto, from, behind, further, capped};

use super::numbers::is_before;
use super::stop::LineStop;
use annotations::Vector;
use smallvec::SmallVec;
use std::alloc::Global;
use text_lines::{behind, cut, further_word, number};

/// The largest number of a local, a block, a place or a constructor.
pub(crate) const MOST_NUMBER: u64 = 4_294_967_295;

/// The most units of a constructor, and of a cell.
pub(crate) const MOST_UNITS: u64 = 2_147_483_648;

// The constructor and the units of a pair, each as it is written.
fn cut_pair(word: &[u8]) -> (&[u8], &[u8])
    ensures con { result.0.now ≡ upto 61 word.now }
    ensures units { result.1.now ≡ behind (from 61 word.now) }
{
    let (con, rest) = cut(word, b'=');
    (con, behind(rest))
}

// The pair that is written so, behind this constructor; large numbers as `number` has them.
#[tactic(auto, using(crate::proofs::Pairs::no_con, crate::proofs::Pairs::no_units, crate::proofs::Pairs::zero_units, crate::proofs::Pairs::not_behind, crate::proofs::Pairs::is_pair))]
fn read_pair(prev: &[u8], con: &[u8], units: &[u8]) -> Option<(u64, u64)>
    ensures { result ≡ option_map capped_pair (pair_of prev.now con.now units.now) }
{
    let Some(con_number) = number(con) else {
        return None;
    };
    let Some(unit_count) = number(units) else {
        return None;
    };
    if unit_count == 0 {
        return None;
    }
    if !is_before(prev, con) {
        return None;
    }
    Some((con_number, unit_count))
}

// Whether these are pairs behind this constructor, with numbers of any size.
#[tactic(auto, using(crate::proofs::Pairs::there_none, crate::proofs::Pairs::there_more, crate::proofs::Pairs::there_end))]
fn are_pairs(prev: &[u8], rest: &[u8]) -> bool
    ensures { result ≡ is_there (vector_from prev.now (further rest.now)) }
{
    let mut last = prev;
    let mut left = rest;
    'pairs: while let Some((word, after)) = further_word(left) {
        let (con, units) = cut_pair(word);
        match read_pair(last, con, units) {
            None => return false,
            Some(_) => last = con,
        }
        left = after;
    }
    true
}

// The pairs of a vector.
#[tactic(auto, using(crate::proofs::Pairs::pairs_first, crate::proofs::Pairs::pairs_wrong, crate::proofs::Pairs::pairs_wide, crate::proofs::Pairs::pairs_not, crate::proofs::Pairs::pairs_more, crate::proofs::Pairs::pairs_within, crate::proofs::Pairs::pairs_end))]
fn read_pairs(alloc: Global, rest: &[u8]) -> Result<SmallVec<(u32, u64), 1>, LineStop>
    ensures { MatchResult result (λ pairs. IsRead (vector_from [] (further rest.now)) VectorIsWithin pairs.items)
        (λ stop. IsStopped (vector_from [] (further rest.now)) VectorIsWithin stop) }
{
    let mut pairs = SmallVec::new(alloc);
    let mut last: &[u8] = &[];
    let mut left = rest;
    'pairs: while let Some((word, after)) = further_word(left) {
        let (con, units) = cut_pair(word);
        let (con_number, unit_count) = match read_pair(last, con, units) {
            None => return Err(LineStop::Line),
            Some(pair) => pair,
        };
        if con_number > MOST_NUMBER || unit_count > MOST_UNITS {
            if are_pairs(con, after) {
                return Err(LineStop::Number);
            }
            return Err(LineStop::Line);
        }
        match pairs.push((con_number as u32, unit_count)) {
            Ok(()) => {}
            Err(_) => return Err(LineStop::Memory),
        }
        last = con;
        left = after;
    }
    Ok(pairs)
}

/// The annotations of a line: at least one pair `con=units`, constructors ascending.
#[tactic(auto, using(crate::proofs::Pairs::vector_none, crate::proofs::Pairs::vector_some, crate::proofs::Pairs::vector_stop, crate::proofs::Pairs::vector_form))]
pub(crate) fn read_vector(alloc: Global, rest: &[u8]) -> Result<Vector, LineStop>
    ensures { MatchResult result (λ vector. IsRead (vector_of (further rest.now)) VectorIsWithin vector)
        (λ stop. IsStopped (vector_of (further rest.now)) VectorIsWithin stop) }
{
    if rest.is_empty() {
        return Err(LineStop::Line);
    }
    match read_pairs(alloc, rest) {
        Ok(pairs) => Ok(Vector::of(pairs)),
        Err(stop) => Err(stop),
    }
}
