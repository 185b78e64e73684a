//! The arms of a match in the order of the constructors.
ghost use Rattle.std.specs.Prelude.{◌≡◌, ◌+◌, ◌<◌, ◌≤◌, map, length, IfSome, IfOk, List};
ghost use Rattle.std.specs.List.{AllByRecursion};
ghost use Rattle.std.specs.Option.{option_map};
ghost use Rattle.camelot_tree.specs.Tree.{branch_of};
ghost use Rattle.camelot_tree.specs.Tree as tree;
ghost use Rattle.camelot_tree.specs.Meaning.{constructor_number, function_number};
ghost use Rattle.camelot_typing.specs.Kinds.{numbered, numbers_of, or_else};
ghost use Rattle.normal_form.specs.Normal.{arm_for, con_of, cons_of, fun_of};
ghost use Rattle.normal_form.specs.Tables.{cons_by, source_in};

use crate::known::Known;
use camelot_tree::{Arm, Name};
use camelot_values::{Con, Types};
use std::alloc::{AllocError, Global};

/// The number of the constructor of this name, if there is one.
pub(crate) fn con_number(known: &Known<'_>, name: &Name) -> Option<usize>
    ensures number { result ≡ constructor_number (source_in known.now.typed.now) name.now }
    ensures within { IfSome result (λ i. i < 4096) }
{
    known.cons.number(name.word.bytes())
}

// The numbers of these constructors, of which the first has the number `first`.
fn row(alloc: Global, first: u32, cons: &[Con]) -> Result<Vec<u32>, AllocError>
    requires { first + length cons.now ≤ 4096 }
    ensures { IfOk result (λ numbers. numbers.items ≡ numbered first cons.now) }
{
    let mut numbers = Vec::new(alloc);
    let mut number = first;
    'cons: for _con in cons {
        numbers.push(number)?;
        number += 1;
    }
    Ok(numbers)
}

// The numbers of the constructors of the type of this number.
fn type_numbers(alloc: Global, types: &Types, number: u32) -> Result<Vec<u32>, AllocError>
    ensures { IfOk result (λ numbers. numbers.items ≡ numbers_of types.now number) }
{
    types.limits();
    let mut first: u32 = 0;
    let mut left = number;
    'types: for def in types.defs() {
        if left == 0 {
            return row(alloc, first, &def.cons);
        }
        left -= 1;
        first += def.cons.len() as u32;
    }
    Ok(Vec::new(alloc))
}

// The number of the constructor of each of these arms.
fn arm_numbers(known: &Known<'_>, arms: &[Arm]) -> Result<Vec<Option<usize>>, AllocError>
    ensures within { IfOk result (λ numbers. AllByRecursion (λ o. IfSome o (λ i. i < 4096)) numbers.items) }
    ensures numbers { IfOk result (λ numbers. numbers.items ≡ map (λ a. constructor_number (source_in known.now.typed.now) (branch_of a).con) arms.now) }
{
    let mut numbers = Vec::new(known.alloc);
    'arms: for arm in arms {
        numbers.push(con_number(known, &arm.con))?;
    }
    Ok(numbers)
}

// The arm of this constructor among arms with these numbers of constructors.
fn arm_of<'a>(
    known: &Known<'_>,
    numbers: &[Option<usize>],
    arms: &'a [Arm],
    con: usize,
) -> Option<&'a Arm>
    requires { numbers.now ≡ map (λ a. constructor_number (source_in known.now.typed.now) (branch_of a).con) arms.now }
    ensures { option_map (λ a. branch_of a.now) result ≡ arm_for (source_in known.now.typed.now) (tree.arms (map branch_of arms.now)) con }
{
    let _names = &known.cons;
    'arms: for (arm, number) in arms.iter().zip(numbers) {
        if *number == Some(con) {
            return Some(arm);
        }
    }
    None
}

// The numbers of the constructors of a match, by those of its arms' constructors.
fn match_numbers(
    alloc: Global,
    types: &Types,
    numbers: &[Option<usize>],
) -> Result<Vec<u32>, AllocError>
    requires { AllByRecursion (λ o. IfSome o (λ i. i < 4096)) numbers.now }
    ensures { IfOk result (λ cons. cons.items ≡ cons_by types.now numbers.now) }
{
    match numbers {
        [] => Ok(Vec::new(alloc)),
        [first, ..] => {
            let con = first.unwrap_or(0) as u32;
            let number = types.type_of(con).unwrap_or(0);
            type_numbers(alloc, types, number)
        }
    }
}

/// The arms of a match in the order of the constructors.
pub(crate) fn arms_in_order<'a>(
    known: &Known<'_>,
    arms: &'a [Arm],
) -> Result<Vec<Option<&'a Arm>>, AllocError>
    ensures { IfOk result (λ order. map (option_map (λ a. branch_of a.now)) order.items ≡ map
        (arm_for (source_in known.now.typed.now) (tree.arms (map branch_of arms.now)))
        (cons_of (source_in known.now.typed.now) (tree.arms (map branch_of arms.now)))) }
{
    let numbers = arm_numbers(known, arms)?;
    let cons = match_numbers(known.alloc, &known.typed.types, &numbers)?;
    let mut order = Vec::new(known.alloc);
    'cons: for con in &cons {
        order.push(arm_of(known, &numbers, arms, *con as usize))?;
    }
    Ok(order)
}
