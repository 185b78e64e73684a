ghost use Rattle.std.specs.Prelude.{◌≡◌, ◌≤◌, ◌⊎◌, List, length, map, IfOk, IfErr, MatchResult, ⊤};
ghost use Rattle.std.specs.List.{AllByRecursion};
ghost use Rattle.camelot_values.specs.Kinds.{constructors};
ghost use Rattle.camelot_tree.specs.Programs.{program_of};
ghost use Rattle.camelot_typing.specs.Kinds.{types_of};
ghost use Rattle.camelot_typing.specs.Typing.{Signature, IsTyped, IsWithinLimits, globals_of};
ghost use Rattle.camelot_typing.specs.Typed.{typing_kinds, functions_kinds};
ghost use Rattle.camelot_typing.specs.TypedPrograms.{typing_of};
ghost use Rattle.camelot_typing.specs.Settled.{KindsSettled};
ghost use Rattle.camelot_types.specs.Walk.{HasFault};
ghost use Rattle.camelot_types.specs.Checked.{BodiesChecked, Checks};
ghost use Rattle.camelot_types.specs.declared.fault.TypeFault.{TypeFault};
ghost use Rattle.stops.specs.declared.stop.Stop.TheVariants.{Fault, Memory};
ghost use Rattle.stops.specs.Stopping.{FaultIs};

use crate::bodies::walk_bodies;
use crate::compile::{compile_types, type_numbers};
use crate::facts::con_facts;
use crate::fault::TypeFault;
use crate::globals::Globals;
use crate::headers::check_headers;
use crate::heads::{head_guesses, unknowns};
use crate::settle::{fresh, settled_funs};
use crate::types::check_types;
use camelot_names::Names;
use camelot_tree::Program;
use camelot_typing::{FunKinds, Typed};
use camelot_values::Types;
use std::alloc::Global;
use stops::Stop;

// The kinds of all functions, whose declarations and headers are checked.
fn check_bodies<'p>(
    alloc: Global,
    program: &'p Program,
    types: &Types,
    cons: Names<'p>,
    funs: Names<'p>,
) -> Result<Vec<FunKinds>, Stop<TypeFault>>
    requires types { types.now ≡ types_of (program_of program.now) }
    requires few_types { length program.now.types.items ≤ 64 }
    requires few_funs { length program.now.funs.items ≤ 64 }
    requires few_params { AllByRecursion (λ f. length f.params ≤ 16) (program_of program.now).funs }
    requires cons { cons ≡ map (λ c. c.name) (constructors types.now) }
    requires funs { funs ≡ map (λ f. f.name.word) (program_of program.now).funs }
    ensures { BodiesChecked (program_of program.now) result }
{
    types.limits();
    let heads = head_guesses(alloc, program, &program.funs)?;
    let facts = con_facts(alloc, types)?;
    let numbers = type_numbers(alloc, types)?;
    let globals = Globals {
        types,
        cons,
        funs,
        heads,
        facts,
        numbers,
    };
    let table = fresh(alloc, unknowns(&program.funs))?;
    match walk_bodies(alloc, &globals, table, &program.funs) {
        Ok(work) => Ok(settled_funs(alloc, &work.table, &globals.heads, &work.atoms)?),
        Err(stop) => Err(stop),
    }
}

/// The types of a program, and the kinds of its functions and of all their expressions.
#[derive(Drop)]
struct Parts {
    types: Types,
    funs: Vec<FunKinds>,
}

fn check_parts(alloc: Global, program: &Program) -> Result<Parts, Stop<TypeFault>>
    ensures { Checks (program_of program.now) result }
{
    let cons = match check_types(alloc, program) {
        Ok(cons) => cons,
        Err(stop) => return Err(stop),
    };
    let funs = match check_headers(alloc, program) {
        Ok(funs) => funs,
        Err(stop) => return Err(stop),
    };
    let types = compile_types(alloc, program)?;
    match check_bodies(alloc, program, &types, cons, funs) {
        Ok(funs) => Ok(Parts { types, funs }),
        Err(stop) => Err(stop),
    }
}

/// Checks the types of a program, which becomes that of the answer.
///
/// A program is typed where some choice of one kind for each parameter, result, local and expression obeys the rules of
/// ML's typing (Milner 1978) without type parameters; a kind that nothing fixes becomes `int`. The walk through the
/// text is `specs/Walk.antt`.
///
/// # Errors
///
/// The first step of the walk that fails: first the declarations of types, then the headers of functions, then their
/// bodies, each in text order; see [`TypeFault`]. [`Stop::Memory`] where memory runs out.
pub fn check_program(alloc: Global, program: Program) -> Result<Typed, Stop<TypeFault>>
    // The answer is this program, typed with these kinds, within the limits.
    ensures program { IfOk result (λ typed. (typing_of typed).source ≡ program_of program) }
    // The kinds in the answer obey the rules of typing.
    ensures typed { IfOk result (λ typed. IsTyped (program_of program) (typing_of typed).signatures) }
    // The program is within the limits.
    ensures within { IfOk result (λ _. IsWithinLimits (program_of program)) }
    // A kind other than `int` is the same in every choice that obeys the rules.
    ensures settled { IfOk result (λ typed. (signatures : List Signature) → IsTyped (program_of program) signatures
        → KindsSettled (typing_kinds (typing_of typed)) (functions_kinds (globals_of (program_of program) signatures) (program_of program).funs signatures)) }
    // A fault is the first one of the walk.
    ensures fault { IfErr result (FaultIs (HasFault (program_of program))) }
    // A typed program within the limits is taken, and one that has a fault is refused for it, unless memory runs out.
    ensures takes { (signatures : List Signature) → IsTyped (program_of program) signatures → IsWithinLimits (program_of program)
        → MatchResult result (λ _. ⊤) (λ found. found ≡ Memory) }
    // A program with a first fault is refused for it, unless memory runs out.
    ensures refuses { (fault : TypeFault) → HasFault (program_of program) fault
        → MatchResult result (λ _. ⊥) (λ found. (found ≡ Fault fault) ⊎ (found ≡ Memory)) }
{
    match check_parts(alloc, &program) {
        Ok(parts) => Ok(Typed {
            program,
            types: parts.types,
            funs: parts.funs,
        }),
        Err(stop) => Err(stop),
    }
}

/// Checks the types of a copy of the program, as [`check_program`] does.
pub fn check(alloc: Global, program: &Program) -> Result<Typed, Stop<TypeFault>>
    // The program in the answer is this one.
    ensures program { IfOk result (λ typed. (typing_of typed).source ≡ program_of program.now) }
    // The kinds in the answer obey the rules of typing.
    ensures typed { IfOk result (λ typed. IsTyped (program_of program.now) (typing_of typed).signatures) }
    // The program is within the limits.
    ensures within { IfOk result (λ _. IsWithinLimits (program_of program.now)) }
    // A kind other than `int` in the answer is the same in every choice of kinds that obeys the rules.
    ensures settled { IfOk result (λ typed. (signatures : List Signature) → IsTyped (program_of program.now) signatures
        → KindsSettled (typing_kinds (typing_of typed))
        (functions_kinds (globals_of (program_of program.now) signatures) (program_of program.now).funs signatures)) }
    // A fault that is answered is the program's first.
    ensures fault { IfErr result (FaultIs (HasFault (program_of program.now))) }
    // A program that is typed for some kinds within the limits is taken, unless memory runs out.
    ensures takes { (signatures : List Signature) → IsTyped (program_of program.now) signatures → IsWithinLimits (program_of program.now)
        → MatchResult result (λ _. ⊤) (λ found. found ≡ Memory) }
    // A program with a first fault is refused for it, unless memory runs out.
    ensures refuses { (fault : TypeFault) → HasFault (program_of program.now) fault
        → MatchResult result (λ _. ⊥) (λ found. (found ≡ Fault fault) ⊎ (found ≡ Memory)) }
{
    let copy = program.copy(alloc)?;
    check_program(alloc, copy)
}
