ghost use Rattle.std.specs.Prelude.{◌≤◌, ◌<◌, ◌+◌, length, MatchResult};
ghost use Rattle.job_script.specs.Steps.{HasBody, IsOpen};

use text_lines::next_line;

/// The text of a program, which ends at the first line `.`.
#[derive(Drop)]
pub(crate) struct Body<'a> {
    pub(crate) text: &'a [u8],
    /// How many lines it has.
    pub(crate) lines: u64,
    /// What is behind the line `.`.
    pub(crate) after: &'a [u8],
}

/// The text of a program in front; where it isn't ended, how many whole lines are left.
#[tactic(auto, using(crate::proofs::Body::lines_start, crate::proofs::Body::lines_more, crate::proofs::Body::lines_shorter, crate::proofs::Body::lines_end, crate::proofs::Body::end_short, crate::proofs::Body::lines_open))]
pub(crate) fn read_body(rest: &[u8]) -> Result<Body<'_>, u64>
    requires { length rest.now < 4294967296 }
    ensures found { MatchResult result (λ body. HasBody rest.now body.text.now body.after.now body.lines) (λ lines. IsOpen rest.now lines) }
    ensures short { MatchResult result (λ body. body.lines + length body.after.now + 2 ≤ length rest.now) (λ lines. lines ≤ length rest.now) }
{
    let mut left = rest;
    let mut lines = 0;
    'lines: while let Some((line, after)) = next_line(left) {
        if line == b".".as_slice() {
            let (text, _end) = rest.split_at(rest.len() - left.len());
            return Ok(Body { text, lines, after });
        }
        left = after;
        lines += 1;
    }
    Err(lines)
}
