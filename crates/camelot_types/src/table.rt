//! The table of what is known of each unknown.

ghost use Rattle.std.specs.Prelude.{◌≡◌, List, map, IfOk};
ghost use Rattle.camelot_values.specs.Kinds.{same_kind};
ghost use Rattle.camelot_types.specs.Walk.{kind_name};
ghost use Rattle.camelot_types.specs.Solving.{Stops, looked_up, replaced, made_same};
ghost use Rattle.camelot_types.specs.Doing.{Leaves, StopsWith};
ghost use Rattle.camelot_types.specs.declared.guess.Guess.{Guess};
ghost use Rattle.camelot_types.specs.declared.fault.TypeFault.TheVariants.{Clash};

use crate::fault::TypeFault;
use crate::guess::Guess;
use camelot_values::{Kind, Types, Word};
use std::alloc::{AllocError, Global};
use stops::Stop;

/// A name of these bytes.
pub(crate) fn word(alloc: Global, bytes: &[u8]) -> Result<Word, AllocError>
    ensures { IfOk result (λ word. word ≡ bytes.now) }
{
    Word::new(alloc, bytes)
}

// How a kind is written.
fn kind_name(alloc: Global, types: &Types, kind: Kind) -> Result<Word, AllocError>
    ensures { IfOk result (λ name. name ≡ kind_name types.now kind) }
{
    match kind {
        Kind::Int => word(alloc, b"int"),
        Kind::Flag => word(alloc, b"bool"),
        Kind::Dia => word(alloc, b"<>"),
        Kind::Of(number) => match types.defs().get(number as usize) {
            Some(def) => def.name.copy(alloc),
            None => word(alloc, b""),
        },
    }
}

/// What the table has for a guess.
pub(crate) fn looked_up(table: &[Guess], guess: Guess) -> Guess
    ensures { result ≡ looked_up table.now guess }
{
    match guess {
        Guess::Known(_) => guess,
        Guess::Unknown(number) => match table.get(number as usize) {
            Some(found) => *found,
            None => guess,
        },
    }
}

// A guess, with another one in place of an unknown.
fn replaced(guess: Guess, number: u32, new: Guess) -> Guess
    ensures { result ≡ replaced number new guess }
{
    match guess {
        Guess::Unknown(other) if other == number => new,
        guess => guess,
    }
}

// Puts a guess in place of an unknown everywhere.
#[inline(never)]
#[tactic(auto, using(crate::proofs::Looping::entry_changed))]
fn replace(table: &mut [Guess], number: u32, new: Guess)
    ensures { table.new ≡ map (replaced number new) table.old }
{
    'entries: for entry in table.iter_mut() {
        *entry = replaced(*entry, number, new);
    }
}

// Whether the kinds are the same.
fn same_kind(left: Kind, right: Kind) -> bool
    ensures { result ≡ same_kind left right }
{
    left == right
}

#[cold]
#[inline(never)]
fn clash(alloc: Global, types: &Types, left: Kind, right: Kind, line: u32) -> Stop<TypeFault>
    ensures { StopsWith {A = List Guess} (Stops (Clash (kind_name types.now left) (kind_name types.now right) line)) result }
{
    match (
        kind_name(alloc, types, left),
        kind_name(alloc, types, right),
    ) {
        (Ok(left), Ok(right)) => Stop::Fault(TypeFault::Clash {
            left,
            right,
            line: u64::from(line),
        }),
        _ => Stop::Memory,
    }
}

/// Makes two guesses the same, as the table has them: two kinds have to be the same already, and an unknown gets the
/// other guess.
#[inline(always)]
#[tactic(auto, unfolding(crate::specs::Solving::made_same))]
pub(crate) fn make_same(
    alloc: Global,
    types: &Types,
    table: &mut [Guess],
    left: Guess,
    right: Guess,
    line: u32,
) -> Result<(), Stop<TypeFault>>
    ensures { Leaves (made_same types.now table.old left right line) table.new result }
{
    match (looked_up(table, left), looked_up(table, right)) {
        (Guess::Known(left), Guess::Known(right)) => {
            if same_kind(left, right) {
                Ok(())
            } else {
                Err(clash(alloc, types, left, right, line))
            }
        }
        (Guess::Known(kind), Guess::Unknown(number)) => {
            replace(table, number, Guess::Known(kind));
            Ok(())
        }
        (Guess::Unknown(number), Guess::Unknown(other)) if number == other => Ok(()),
        (Guess::Unknown(number), new) => {
            replace(table, number, new);
            Ok(())
        }
    }
}
