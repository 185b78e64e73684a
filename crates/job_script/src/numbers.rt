ghost use Rattle.std.specs.Prelude.{◌≤◌, ◌-◌, MatchResult};
ghost use Rattle.text_lines.specs.Cuts.{number_of};
ghost use Rattle.job_script.specs.Scripts.{IsUpTo};
ghost use Rattle.job_script.specs.Reading.{number_behind, IsRead, IsStopped};

use super::stop::LineStop;
use text_lines::{behind, cut, number};

/// The most fuel of a job.
pub(crate) const MOST_FUEL: u64 = 1_099_511_627_776;

/// The number that is written so, from 1 to the most.
#[tactic(auto, using(crate::proofs::Caps::not_number, crate::proofs::Caps::too_small, crate::proofs::Caps::too_large, crate::proofs::Caps::in_limits))]
pub(crate) fn read_limited(word: &[u8], most: u64) -> Result<u64, LineStop>
    requires { most ≤ 1099511627776 }
    ensures { MatchResult result (λ n. IsRead (number_of word.now) (IsUpTo most) n) (λ stop. IsStopped (number_of word.now) (IsUpTo most) stop) }
{
    let Some(value) = number(word) else {
        return Err(LineStop::Line);
    };
    if value < 1 {
        return Err(LineStop::Count);
    }
    if value > most {
        return Err(LineStop::Count);
    }
    Ok(value)
}

/// The number behind this word, alone on a line.
#[tactic(auto, using(crate::proofs::Caps::other_tag))]
pub fn read_sized(line: &[u8], tag: &[u8], most: u64) -> Result<u64, LineStop>
    requires { most ≤ 1099511627776 }
    ensures { MatchResult result (λ n. IsRead (number_behind tag.now line.now) (IsUpTo most) n)
        (λ stop. IsStopped (number_behind tag.now line.now) (IsUpTo most) stop) }
{
    let (first, rest) = cut(line, b' ');
    if first != tag {
        return Err(LineStop::Line);
    }
    read_limited(behind(rest), most)
}
