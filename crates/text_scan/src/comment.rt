ghost use Rattle.std.specs.Prelude.{◌≡◌, ◌≤◌, IsTrue, MatchOption};
ghost use Rattle.text_scan.specs.Comments.{is_opening, is_closing, opens_comment};
ghost use Rattle.text_scan.specs.Reading.{IsNextComment, BeginsNoComment};

/// Whether these are the two bytes that open a comment.
pub fn is_opening(first: u8, second: u8) -> bool
    ensures { result ≡ is_opening first second }
{
    first == b'(' && second == b'*'
}

// Whether these are the two bytes that close a comment.
fn is_closing(first: u8, second: u8) -> bool
    ensures { result ≡ is_closing first second }
{
    first == b'*' && second == b')'
}

/// The number of bytes of the comment at the front; None where it isn't closed. The open comments are counted.
#[tactic(auto, using(crate::proofs::CommentLemmas::comment_turns))]
pub fn comment_size(bytes: &[u8]) -> Option<usize>
    requires { IsTrue (opens_comment bytes.now) }
    ensures { MatchOption result (BeginsNoComment bytes.now) (IsNextComment bytes.now) }
{
    let mut depth = 1usize;
    let mut at = 2;
    while depth > 0 {
        if bytes.len() - at < 2 {
            return None;
        }
        let (first, second) = (bytes[at], bytes[at + 1]);
        if is_opening(first, second) {
            depth += 1;
            at += 2;
        } else if is_closing(first, second) {
            depth -= 1;
            at += 2;
        } else {
            at += 1;
        }
    }
    Some(at)
}
