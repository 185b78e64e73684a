//! What the faults of the walk say of the rule.
ghost use Rattle.std.specs.Prelude.{◌≡◌, ◌↔◌, []};
ghost use Rattle.camelot_typing.specs.Typing.{IsTyped};
ghost use Rattle.camelot_typing.specs.Typed.{Typing};
ghost use Rattle.linear_use.specs.Answers.{KeepsRule, faults_of};

/// The law of the rule of use: a typed program keeps it exactly where the walk finds no fault. The rule counts the uses
/// of names, and the walk keeps a list of spent variables.
#[tactic(auto, using(crate::proofs::Answering::rule_by_faults_is))]
pub fn rule_by_faults()
    ensures { (t : Typing) → IsTyped t.source t.signatures → KeepsRule t ↔ (faults_of t ≡ []) }
{}
