//! The law of printed events, as the contract of a function that does nothing.
ghost use Rattle.std.specs.Prelude.{◌≡◌, ◌<◌, ◌^◌, ℕ, List};
ghost use Rattle.lease_desk.specs.declared.event.Event.{Event};
ghost use Rattle.lease_desk.specs.Within.{AreEventsWithin};
ghost use Rattle.run_reports.specs.JobNames.{AreNames};
ghost use Rattle.run_reports.specs.Report.{event_lines};

/// The lines of events tell the events: two lists of them with the same lines are the same, where names tell the jobs
/// and numbers have at most 64 bits.
pub fn law_of_event_texts()
    ensures { (name : ℕ → List ℕ) (arena jobs : ℕ) (first second : List Event) → arena < 2 ^ 64 → AreNames name jobs
        → AreEventsWithin arena jobs first → AreEventsWithin arena jobs second → event_lines name first ≡ event_lines name second → first ≡ second }
{}
