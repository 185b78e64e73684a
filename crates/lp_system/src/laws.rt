//! What the system of a code means, as the contracts of functions that do nothing.
ghost use Rattle.std.specs.Prelude.{◌≡◌, ◌≤◌, ℕ, List, length};
ghost use Rattle.camelot_values.specs.Kinds.{AreTypes};
ghost use Rattle.grail_code.specs.Code.{Code};
ghost use Rattle.grail_code.specs.Soundness.{HaveBlocks};
ghost use Rattle.grail_code.specs.WellFormed.{IsWellFormed};
ghost use Rattle.grail_code.specs.Limits.{IsNamed, IsWithinLimits};
ghost use Rattle.certificate.specs.Certificates.{Cert, IsFormed};
ghost use Rattle.licence.specs.Fitting.{Grants};
ghost use Rattle.dual_simplex.specs.Feasible.{IsFeasible, IsLeast};
ghost use Rattle.dual_simplex.specs.Systems.{IsProper};
ghost use Rattle.lp_system.specs.Unknowns.{unknowns_of};
ghost use Rattle.lp_system.specs.Forms.{rows_of, system_of};
ghost use Rattle.lp_system.specs.Found.{certificate_of, values_of, IsLeastCertificate};

/// Of well-formed code: a solution, with numbers of any size, is a certificate that grants the code; and a
/// certificate that grants it, with numbers of any size, is a solution.
#[tactic(auto, using(crate::specs::SystemLaws::solution_grants, crate::specs::SystemLaws::certificate_solves))]
pub fn law_of_solutions()
    // A solution, with numbers of any size, is a certificate that grants the code.
    ensures grants { (p : Code) (unit : ℕ) (values : List ℕ) → IsWellFormed p → IsWithinLimits p
        → IsFeasible (system_of p) unit values → Grants p (certificate_of p unit values) }
    // A certificate that grants the code, with numbers of any size, is a solution.
    ensures solves { (p : Code) (c : Cert) → IsWellFormed p → IsWithinLimits p → Grants p c → IsFeasible (system_of p) c.unit (values_of p c) }
{}

/// Of well-formed code: a solution of least cost is a certificate of least cost among all that grant the code;
/// and where there is no solution, there is no certificate.
#[tactic(auto, using(crate::specs::SystemLaws::least_is_least, crate::specs::SystemLaws::none_grants))]
pub fn law_of_least()
    // A solution of least cost is a certificate than which none that grants the code costs less.
    ensures least { (p : Code) (unit : ℕ) (values : List ℕ) → IsWellFormed p → IsWithinLimits p
        → IsLeast (system_of p) unit values → IsLeastCertificate p (certificate_of p unit values) }
    // Where there is no solution, no certificate grants the code.
    ensures none { (p : Code) → IsWellFormed p → IsWithinLimits p
        → ((unit : ℕ) (values : List ℕ) → IsFeasible (system_of p) unit values → ⊥) → (c : Cert) → Grants p c → ⊥ }
{}

/// The certificate of a solution has the form of certificates; its numbers may be above their limits.
#[tactic(auto, using(crate::specs::SystemLaws::solution_formed))]
pub fn law_of_form()
    ensures { (p : Code) (unit : ℕ) (values : List ℕ) → IsWellFormed p → IsWithinLimits p → IsNamed p → 1 ≤ unit → IsFormed (certificate_of p unit values) }
{}

/// The solver takes the system, if there are few unknowns and rows: its numbers are small.
#[tactic(auto, using(crate::specs::SystemLaws::system_proper))]
pub fn law_of_size()
    ensures { (p : Code) → IsWellFormed p → IsWithinLimits p → length (unknowns_of p) ≤ 512 → length (rows_of p) ≤ 1536 → IsProper (system_of p) }
{}
