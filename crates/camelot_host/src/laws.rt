//! Laws of the definitions that the contract of `host` cites. Each function does nothing: its clause is the law.

ghost use Rattle.std.specs.Prelude.{◌≡◌, ◌≤◌, ℕ, List, Some, codes};
ghost use Rattle.camelot_values.specs.Value.{Value};
ghost use Rattle.camelot_values.specs.Outcome.{peak_of};
ghost use Rattle.grail_code.specs.Meaning.{run_of};
ghost use Rattle.licence.specs.Bound.{bound};
ghost use Rattle.grail_code.specs.Decoding.{IsMigration};
ghost use Rattle.grail_verifier.specs.Accepted.{IsAccepted};
ghost use Rattle.licence.specs.Licensed.{Licensed, FitsEntry};
ghost use Rattle.lp_constraints.specs.declared.fault.NoCert.TheVariants.{NoBound};
ghost use Rattle.cause_texts.specs.declared.cause.Cause.TheVariants.{NoCert};
ghost use Rattle.camelot_compiler.specs.Compiled.{OfCode, NoneGrants};
ghost use Rattle.camelot_compiler.specs.Licences.{IsCertifiedFor};
ghost use Rattle.cell_span.specs.Range.{Range};
ghost use Rattle.script_service.specs.Service.{IsReportIn};
ghost use Rattle.camelot_host.specs.Answers.{Answered, Devices};
ghost use Rattle.camelot_host.specs.Commands.{Command, Compile, Verify, IsCommand};
ghost use Rattle.camelot_host.specs.Due.{Done, Refused, IsDue};
ghost use Rattle.camelot_host.specs.OneServing.{TellBytes};
ghost use Rattle.camelot_host.specs.Served.{LeftBehind};

use bundle_licence::laws::law_of_licences;
use camelot_compiler::laws::{law_of_bundles, law_of_compiling};
use grail_bundle::laws as texts_of_bundles;
use grail_code::laws::one_meaning;
use job_script::laws::law_of_scripts;
use script_service::laws::law_of_left_arenas;
use tenant_script::laws::law_of_tenant_scripts;

/// Words spell at most one command.
#[tactic(auto, using(crate::specs::CommandLaws::one_command))]
pub fn one_command()
    ensures { (words : List (List ℕ)) (first second : Command)
        → IsCommand words first → IsCommand words second → first ≡ second }
{}

/// No output is due with one verdict for an input for which another is due with the other: no input that is served,
/// compiled, accepted or migrated is also refused.
pub fn one_verdict()
    ensures { (command : Command) (input output other : List ℕ) → IsDue command input Done output → IsDue command input Refused other → ⊥ }
{
    law_of_scripts();
    law_of_compiling();
    law_of_licences();
    texts_of_bundles::law_of_bundles();
    texts_of_bundles::law_of_faults();
    one_meaning();
    law_of_tenant_scripts();
}

/// What `compile` tells of a source, done or refused, in the words of the verifier and of certificates.
pub fn law_of_compile()
    // What is told as a bundle is accepted by the verifier, with the licence of the source, and no certificate that
    // grants its code costs less.
    ensures done { (input output : List ℕ) (due : IsDue Compile input Done output) → IsCertifiedFor input due.code due.cert }
    // Where the cause that is told is that there is no bound, no certificate, with numbers of any size, grants the
    // source's code.
    ensures none { (input output : List ℕ) (due : IsDue Compile input Refused output) → due.cause ≡ NoCert NoBound → OfCode input NoneGrants }
    // No other cause is told in this line, so that the line itself says it.
    ensures told { (input : List ℕ) → IsDue Compile input Refused (codes "refused no-bound\n") → OfCode input NoneGrants }
{
    law_of_bundles();
}

/// What `verify` tells of a bundle, in the words of runs: its certificate bounds the cells of each. That the verifier
/// accepts the bundle's bytes is a field of what is due.
pub fn law_of_verify()
    // Every run of a function of the bundle's code on arguments of its kinds, with any fuel and any limit of waiting
    // calls, ended or stopped: its peak is at most the bound by the certificate whose numbers are told, which is what
    // the function needs and its arguments carry, in whole cells.
    ensures within { (input output : List ℕ) (due : IsDue Verify input Done output) (limit entry fuel : ℕ) (args : List Value)
        → FitsEntry due.licence entry args → peak_of (run_of due.licence.code limit entry fuel args) ≤ bound due.licence.code due.licence.cert entry args }
{}

/// What `migrate` makes of a bundle's code, in the words of the verifier: whatever it accepts before, it accepts behind,
/// with the same licence.
pub fn law_of_migrate()
    // The verifier's licence of a bundle's bytes is that of the migrated ones with the same certificate.
    ensures accepted { (bytes migrated cert : List ℕ) (l : Licensed) → IsMigration bytes migrated → IsAccepted bytes cert l → IsAccepted migrated cert l }
    // And the other way round.
    ensures back { (bytes migrated cert : List ℕ) (l : Licensed) → IsMigration bytes migrated → IsAccepted migrated cert l → IsAccepted bytes cert l }
{
    one_meaning();
}

/// Over devices that tell their bytes, what `serve` answers and the arena that it leaves are of one input with one
/// output, and so of one journal, and the cells of the arena are told by the bytes that were read and written.
pub fn law_of_one_serving()
    // The report that was due and told is the one whose arena is left.
    ensures answered { (words : List (List ℕ)) (before after : Devices) (arena : Range) → TellBytes before after → (a : Answered words Done before after)
        → LeftBehind words before after (Some arena) → IsReportIn a.input a.told.output arena }
    // No other cells could have been left.
    ensures left { (words : List (List ℕ)) (before after : Devices) (first second : Range) → TellBytes before after
        → LeftBehind words before after (Some first) → LeftBehind words before after (Some second) → first.cells ≡ second.cells }
{
    law_of_left_arenas();
}
