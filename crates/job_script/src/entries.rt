ghost use Rattle.std.specs.Prelude.{◌≡◌};
ghost use Rattle.job_script.specs.Scripts.{AJob};
ghost use Rattle.job_script.specs.Heads.{job_view};
ghost use Rattle.job_script.specs.Words.{entry_of};

use super::heads::JobLine;
use super::types::Entry;

/// The job of a line.
pub(crate) fn job_entry<'a>(job: &JobLine<'a>) -> Entry<'a>
    ensures { entry_of result ≡ AJob (job_view job.now) }
{
    Entry::Job {
        name: job.name,
        program: job.program,
        entry: job.entry,
        fuel: job.fuel,
        args: job.args,
    }
}
