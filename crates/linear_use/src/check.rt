ghost use Rattle.std.specs.Prelude.{◌≡◌, Some, IfOk, IfErr};
ghost use Rattle.camelot_typing.specs.TypedPrograms.{typing_of};
ghost use Rattle.linear_use.specs.declared.fault.UseFault.{UseFault};
ghost use Rattle.linear_use.specs.Answers.{first};
ghost use Rattle.linear_use.specs.Answers.{KeepsRule, faults_of, IsFirst, Takes, Refuses};

use crate::fault::UseFault;
use crate::functions::first_fault;
use camelot_typing::Typed;
use std::alloc::Global;
use stops::Stop;

/// A typed program that keeps the rule of use (`specs/Uses.antt`; LFPL, Hofmann 2000). Every owned variable of a heap
/// kind is taken at most once on each path through its scope, and neither taken nor read behind that. What is lent is
/// only looked at, and handed on to parameters that are read: a parameter of a heap kind that is marked `read`, and such
/// a field in a match on what is lent. Each other match has an `@` in every arm of a boxed constructor, and a function
/// with a lent parameter has a result that takes no cells.
#[derive(Drop)]
pub struct Linear {
    pub typed: Typed,
    pub ghost keeps: { ∥ KeepsRule (typing_of typed) ∥₁ },
}

/// The program, if it keeps the rule of use. A fault is its first place in text order that breaks the rule;
/// [`Stop::Memory`] where memory runs out. Chains of operators and conditions are walked in a loop.
#[tactic(auto, using(crate::proofs::Answering::keeps_where, crate::proofs::Answering::merely_where))]
pub fn check_use(alloc: Global, typed: Typed) -> Result<Linear, Stop<UseFault>>
    // It is the program that was given.
    ensures program { IfOk result (λ linear. typing_of linear.typed ≡ typing_of typed) }

    // It keeps the rule.
    ensures keeps { IfOk result (λ linear. KeepsRule (typing_of linear.typed)) }

    // An error is the first fault, unless memory ran out.
    ensures fault { IfErr result (IsFirst (faults_of (typing_of typed))) }

    // A program that keeps the rule is refused for want of memory alone.
    ensures takes { KeepsRule (typing_of typed) → Takes result }

    // A program with a fault is refused, and by its first one unless memory ran out.
    ensures refuses { (fault : UseFault) → first (faults_of (typing_of typed)) ≡ Some fault → Refuses fault result }
{
    first_fault(alloc, &typed)?;
    Ok(Linear { typed })
}
