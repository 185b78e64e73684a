//! Where in the list of holes, and in that of the runs that are out, something is taken or given back.
ghost use Rattle.std.specs.Prelude.{◌≡◌, ◌<◌, ◌≤◌, length, map};
ghost use Rattle.std.specs.List.{AllByRecursion};
ghost use Rattle.hole_list.specs.Placing.{AreOrdered};
ghost use Rattle.hole_list.specs.Holes.{run_of};
ghost use Rattle.hole_list.specs.Places.{too_small, ends_before, begin_before};

use super::run::Run;
use cell_span::Span;

/// How many holes stand before the first one that has so many cells.
#[tactic(auto, using(crate::proofs::AtPlaces::small_more, crate::proofs::AtPlaces::small_here, crate::proofs::AtPlaces::small_within))]
pub fn count_too_small(spans: &[Span], size: u32) -> usize
    ensures count { result ≡ too_small spans.now size }
    ensures within { result ≤ length spans.now }
{
    for (i, span) in spans.iter().enumerate() {
        if size <= span.len() {
            return i;
        }
    }
    spans.len()
}

/// How many holes end before this index.
#[tactic(auto, using(crate::proofs::AtPlaces::ends_more, crate::proofs::AtPlaces::ends_less, crate::proofs::AtPlaces::ends_within))]
pub fn count_ends_before(spans: &[Span], first: u32) -> usize
    requires { AreOrdered (map run_of spans.now) }
    ensures count { result ≡ ends_before spans.now first }
    ensures within { result ≤ length spans.now }
{
    let mut low = 0;
    let mut high = spans.len();
    while low < high {
        let middle = low + (high - low) / 2;
        let span = &spans[middle];
        if span.first() + span.len() < first {
            low = middle + 1;
        } else {
            high = middle;
        }
    }
    low
}

/// How many runs begin before this index.
#[tactic(auto, using(crate::proofs::AtPlaces::begin_more, crate::proofs::AtPlaces::begin_less, crate::proofs::AtPlaces::begin_within))]
pub fn count_begin_before(runs: &[Run], first: u32) -> usize
    requires { AreOrdered runs.now }
    ensures { result ≡ begin_before runs.now first }
{
    let mut low = 0;
    let mut high = runs.len();
    while low < high {
        let middle = low + (high - low) / 2;
        if runs[middle].first < first {
            low = middle + 1;
        } else {
            high = middle;
        }
    }
    low
}
