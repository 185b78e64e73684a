ghost use Rattle.std.specs.Prelude.{◌≡◌, MatchOption, None, Some, IfSome};
ghost use Rattle.cell_span.specs.Range.{IsWhole};

use super::status::Status;
use cell_span::Span;
use script_service::Leftovers;
use std::marker::Model;

/// How a run of the host ended, the arena that it leaves where it served a script, and what else is left in memory. It
/// can't be dropped: who has it ends it, and the arena with it.
pub struct Served {
    pub(crate) status: Status,
    pub(crate) arena: Option<Span>,
    pub(crate) left: Option<Leftovers>,
}

impl Model for Served {
    ghost use Rattle.std.specs.Prelude.{IfSome};
    ghost use Rattle.cell_span.specs.Range.{IsWhole};
    ghost use Rattle.camelot_host.specs.Served.{ServedView};

    ghost Value = { ServedView };

    ghost view = { λ s. record { status = s.status; arena = s.arena } };

    ghost invariant = { λ s. IfSome s.arena IsWhole };
}

// Ends an arena where there is one.
fn end_arena(arena: Option<Span>)
    requires { IfSome arena IsWhole }
{
    if let Some(span) = arena {
        span.end();
    }
}

impl Served {
    /// How the run ended.
    pub fn status(&self) -> Status
        ensures { result ≡ self.now.status }
    {
        self.status
    }

    /// The whole arena, as the jobs left it; `None` where the command wasn't `serve` or wasn't done.
    pub fn arena(&self) -> Option<&Span>
        ensures { MatchOption result (self.now.arena ≡ None) (λ span. self.now.arena ≡ Some span.now) }
    {
        match &self.arena {
            Some(span) => Some(span),
            None => None,
        }
    }

    /// Ends the arena where there is one, gives all memory back, and answers how the run ended.
    pub fn end(self) -> Status
        ensures { result ≡ self.status }
    {
        let Served {
            status,
            arena,
            left,
        } = self;
        drop(left);
        end_arena(arena);
        status
    }

    /// As [`Served::end`], for a process that ends next: what is left in memory beside the arena is left to the system,
    /// which takes it all at once.
    pub fn leave(self) -> Status
        ensures { result ≡ self.status }
    {
        let Served {
            status,
            arena,
            left,
        } = self;
        if let Some(left) = left {
            left.leave();
        }
        end_arena(arena);
        status
    }
}
