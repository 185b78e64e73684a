ghost use Rattle.std.specs.Prelude.{◌≡◌, ◌∷◌, [], ◌<◌, false, length, map, ℕ, MatchResult, MatchOption};
ghost use Rattle.certificate.specs.Certificates.{VarIsWithin, BlockIsWithin, MakeIsWithin, FuncIsWithin};
ghost use Rattle.certificate.specs.Words.{var_of, block_of, make_of, func_of};
ghost use Rattle.certificate.specs.Reading.{is_three, is_five, is_after, comes_behind, makes_on, var_of_words, block_of_words, make_of_words, function_of_words, IsRead, IsStopped};
ghost use Rattle.text_lines.specs.Cuts.{further, capped};

use super::numbers::is_after;
use super::stop::LineStop;
use super::types::{BlockCert, MakeCert, VarCert};
use super::vectors::{MOST_NUMBER, read_vector};
use std::alloc::Global;
use text_lines::{further_word, number};

/// The most that a function or a block needs or gives back.
pub(crate) const MOST_NEED: u64 = 1_099_511_627_776;

/// Just three words.
#[tactic(auto, using(crate::proofs::ItemSteps::three_none, crate::proofs::ItemSteps::three_one, crate::proofs::ItemSteps::three_two, crate::proofs::ItemSteps::three_more, crate::proofs::ItemSteps::three_all))]
pub(crate) fn three_words(rest: &[u8]) -> Option<(&[u8], &[u8], &[u8])>
    ensures { MatchOption result (is_three (further rest.now) ≡ false) (λ p. further rest.now ≡ p.0.now ∷ p.1.now ∷ p.2.now ∷ []) }
{
    let Some((first, rest)) = further_word(rest) else {
        return None;
    };
    let Some((second, rest)) = further_word(rest) else {
        return None;
    };
    let Some((third, rest)) = further_word(rest) else {
        return None;
    };
    if !rest.is_empty() {
        return None;
    }
    Some((first, second, third))
}

/// A local behind this one, and its annotations.
#[tactic(auto, using(crate::proofs::ItemSteps::var_none, crate::proofs::ItemSteps::var_no_number, crate::proofs::ItemSteps::var_not_after, crate::proofs::ItemSteps::var_stopped, crate::proofs::ItemSteps::var_wide, crate::proofs::ItemSteps::var_read))]
pub(crate) fn read_var(alloc: Global, last: Option<u32>, rest: &[u8]) -> Result<VarCert, LineStop>
    ensures { MatchResult result (λ v. IsRead (var_of_words last (further rest.now)) VarIsWithin (var_of v))
        (λ stop. IsStopped (var_of_words last (further rest.now)) VarIsWithin stop) }
{
    let Some((word, after)) = further_word(rest) else {
        return Err(LineStop::Line);
    };
    let Some(var) = number(word) else {
        return Err(LineStop::Line);
    };
    if !is_after(last, var) {
        return Err(LineStop::Line);
    }
    let vector = match read_vector(alloc, after) {
        Ok(vector) => vector,
        Err(stop) => return Err(stop),
    };
    if var > MOST_NUMBER {
        return Err(LineStop::Number);
    }
    Ok(VarCert {
        var: var as u32,
        vector,
    })
}

/// A block behind this one, and its need.
#[tactic(auto, using(crate::proofs::ItemSteps::block_none, crate::proofs::ItemSteps::block_no_number, crate::proofs::ItemSteps::block_no_need, crate::proofs::ItemSteps::block_tag, crate::proofs::ItemSteps::block_not_after, crate::proofs::ItemSteps::block_wide, crate::proofs::ItemSteps::block_much, crate::proofs::ItemSteps::block_read))]
pub(crate) fn read_block(
    alloc: Global,
    last: Option<u32>,
    rest: &[u8],
) -> Result<BlockCert, LineStop>
    ensures { MatchResult result (λ b. IsRead (block_of_words last (further rest.now)) BlockIsWithin (block_of b))
        (λ stop. IsStopped (block_of_words last (further rest.now)) BlockIsWithin stop) }
{
    let Some((block_word, tag, need_word)) = three_words(rest) else {
        return Err(LineStop::Line);
    };
    let Some(block) = number(block_word) else {
        return Err(LineStop::Line);
    };
    let Some(need) = number(need_word) else {
        return Err(LineStop::Line);
    };
    if tag != b"need".as_slice() {
        return Err(LineStop::Line);
    }
    if !is_after(last, block) {
        return Err(LineStop::Line);
    }
    if block > MOST_NUMBER {
        return Err(LineStop::Number);
    }
    if need > MOST_NEED {
        return Err(LineStop::Number);
    }
    Ok(BlockCert {
        block: block as u32,
        need,
        vars: Vec::new(alloc),
    })
}

// Whether this place of a block is behind that one.
#[tactic(auto, using(crate::proofs::ItemSteps::behind_block, crate::proofs::ItemSteps::other_block, crate::proofs::ItemSteps::same_block))]
fn is_behind(last_block: u32, last_place: u32, block: u64, place: u64) -> bool
    ensures { (b p : ℕ) → block ≡ capped b → place ≡ capped p → result ≡ comes_behind last_block last_place b p }
{
    if (last_block as u64) < block {
        return true;
    }
    if last_block as u64 != block {
        return false;
    }
    (last_place as u64) < place
}

// Whether a build at this place may stand behind these.
#[tactic(auto, using(crate::proofs::ItemSteps::no_makes))]
fn makes_on(makes: &[MakeCert], block: u64, place: u64) -> bool
    ensures { (b p : ℕ) → block ≡ capped b → place ≡ capped p → result ≡ makes_on (map make_of makes.now) b p }
{
    match makes {
        [] => true,
        [.., last] => is_behind(last.block, last.place, block, place),
    }
}

/// A build behind these, and its annotations.
#[tactic(auto, using(crate::proofs::ItemSteps::make_none, crate::proofs::ItemSteps::make_one, crate::proofs::ItemSteps::make_no_block, crate::proofs::ItemSteps::make_no_place, crate::proofs::ItemSteps::make_not_on, crate::proofs::ItemSteps::make_stopped, crate::proofs::ItemSteps::make_wide, crate::proofs::ItemSteps::make_far, crate::proofs::ItemSteps::make_read))]
pub(crate) fn read_make(
    alloc: Global,
    makes: &[MakeCert],
    rest: &[u8],
) -> Result<MakeCert, LineStop>
    ensures { MatchResult result (λ m. IsRead (make_of_words (map make_of makes.now) (further rest.now)) MakeIsWithin
        (make_of m)) (λ stop. IsStopped (make_of_words (map make_of makes.now)
        (further rest.now)) MakeIsWithin stop) }
{
    let Some((block_word, behind)) = further_word(rest) else {
        return Err(LineStop::Line);
    };
    let Some((place_word, after)) = further_word(behind) else {
        return Err(LineStop::Line);
    };
    let Some(block) = number(block_word) else {
        return Err(LineStop::Line);
    };
    let Some(place) = number(place_word) else {
        return Err(LineStop::Line);
    };
    if !makes_on(makes, block, place) {
        return Err(LineStop::Line);
    }
    let vector = match read_vector(alloc, after) {
        Ok(vector) => vector,
        Err(stop) => return Err(stop),
    };
    if block > MOST_NUMBER {
        return Err(LineStop::Number);
    }
    if place > MOST_NUMBER {
        return Err(LineStop::Number);
    }
    Ok(MakeCert {
        block: block as u32,
        place: place as u32,
        vector,
    })
}
