ghost use Rattle.std.specs.Prelude.{◌≡◌, ◌+◌, ◌≤◌, ℕ, [], length, map, slice_get, Some, IsSomeAnd};
ghost use Rattle.std.specs.Option.{option_map_or};
ghost use Rattle.camelot_values.specs.Value.{parts};
ghost use Rattle.camelot_values.specs.Counts.{cells_among, size_all};
ghost use Rattle.camelot_values.specs.Outcome.{peak_of};
ghost use Rattle.camelot_values.specs.Typing.{ArgumentsFit};
ghost use Rattle.grail_code.specs.Meaning.{run_of};
ghost use Rattle.annotations.specs.Vectors.{at, potential};
ghost use Rattle.certificate.specs.Certificates.{FuncIsWithin};
ghost use Rattle.certificate.specs.Words.{var_of, func_of};
ghost use Rattle.licence.specs.Books.{vector_of};
ghost use Rattle.licence.specs.Bound.{arguments_carry, bound, lease, units_at};
ghost use Rattle.licence.specs.Books.{book_of};
ghost use Rattle.licence.specs.Licensed.{FitsEntry};

use super::licence::Licence;
use annotations::{Vector, potential};
use camelot_values::{Flat, Types};
use certificate::{FuncCert, VarCert};

// The annotations of a parameter, where it has any.
#[tactic(auto, using(crate::proofs::Vectors::here, crate::proofs::Vectors::later, crate::proofs::Vectors::nowhere))]
fn vector_of(vars: &[VarCert], var: u32) -> Option<&Vector>
    ensures { option_map_or (λ v. v.now) result [] ≡ vector_of (map var_of vars.now) var }
{
    'vars: for entry in vars {
        if entry.var == var {
            return Some(&entry.vector);
        }
    }
    None
}

// What an argument carries.
#[tactic(auto, using(crate::proofs::Vectors::nothing_carried))]
fn argument_carries(params: &[VarCert], types: &Types, number: u32, argument: &Flat) -> u128
    ensures { result ≡ potential types.now (at (vector_of (map var_of params.now) number)) argument.now }
{
    match vector_of(params, number) {
        Some(vector) => potential(argument, types, vector),
        None => 0,
    }
}

// What all arguments carry.
#[tactic(auto, using(crate::proofs::Vectors::one_more, crate::proofs::Vectors::all_added))]
fn arguments_carry(params: &[VarCert], types: &Types, args: &[Flat]) -> u128
    requires few { arguments_carry types.now (λ x. at (vector_of (map var_of params.now) x)) 0 args.now ≤ 18446744073709551615 }
    requires count { length args.now ≤ 4294967295 }
    ensures { result ≡ arguments_carry types.now (λ x. at (vector_of (map var_of params.now) x)) 0 args.now }
{
    let mut total = 0;
    let mut number = 0;
    'each: for argument in args {
        total += argument_carries(params, types, number, argument);
        number += 1;
    }
    total
}

// The cells that arguments take.
#[tactic(auto, using(crate::proofs::Vectors::one_more_cells, crate::proofs::Vectors::all_cells, crate::proofs::Vectors::cells_fit))]
fn cells_of(types: &Types, args: &[Flat]) -> u64
    requires few { size_all (parts args.now) ≤ 65536 }
    ensures { result ≡ cells_among types.now args.now }
{
    let mut total = 0;
    'each: for argument in args {
        total += argument.cells(types);
    }
    total
}

// The entry's part of the certificate.
#[tactic(auto, using(crate::proofs::Bounds::index_there))]
fn certified<'a>(licence: &'a Licence, entry: u32, args: &[Flat]) -> &'a FuncCert
    requires fits { FitsEntry licence.now entry args.now }
    ensures is { slice_get licence.now.cert.funcs entry ≡ Some (func_of result.now) }
{
    licence.kept();
    &licence.cert().funcs()[entry as usize]
}

/// What a run is given, in cells: its bound, and its lease.
#[derive(Clone, Copy, Debug, PartialEq, Eq)]
pub struct Needs {
    /// How many cells beyond those of its arguments it may take at once.
    pub bound: u64,
    /// How many cells it is given.
    pub lease: u64,
}

// In units, what the function needs and these arguments carry.
#[tactic(auto, using(crate::proofs::Vectors::carry_few, crate::proofs::Vectors::count_few))]
fn units_of(func: &FuncCert, types: &Types, args: &[Flat]) -> u128
    requires within { FuncIsWithin (func_of func.now) }
    requires few { size_all (parts args.now) ≤ 65536 }
    ensures is { result ≡ (func_of func.now).need + arguments_carry types.now (λ x. at (vector_of (func_of func.now).params x)) 0 args.now }
    ensures few { result ≤ 281474976710656 }
{
    let carried = arguments_carry(&func.params, types, args);
    func.need as u128 + carried
}

// The same of an entry of a licence.
#[tactic(auto, using(crate::proofs::Bounds::entry_within, crate::proofs::Bounds::units_are))]
fn units_at(licence: &Licence, entry: u32, args: &[Flat]) -> u128
    requires fits { FitsEntry licence.now entry args.now }
    requires few { size_all (parts args.now) ≤ 65536 }
    ensures is { result ≡ units_at licence.now.code (book_of licence.now.cert) entry args.now }
    ensures few { result ≤ 281474976710656 }
{
    let cert = licence.cert();
    cert.limits();
    let func = certified(licence, entry, args);
    units_of(func, &licence.code().types, args)
}

impl Licence {
    /// The bound of a run from this entry on these arguments, in cells beyond those of the arguments: what the entry
    /// needs and its arguments carry, by the units of a cell (Hofmann and Jost 2003). The peak of every run is within
    /// it, whatever the fuel and the limit of waiting calls. It takes no memory.
    #[tactic(auto, using(crate::proofs::Bounds::peak_within))]
    pub fn bound(&self, entry: u32, args: &[Flat]) -> u64
        requires fits { FitsEntry self.now entry args.now }
        requires few { size_all (parts args.now) ≤ 65536 }
        // It is the bound by the code and the certificate of the licence.
        ensures bound { result ≡ bound self.now.code self.now.cert entry args.now }
        // The peak of every run is within it, whatever the fuel and the limit of waiting calls.
        ensures peak { (limit fuel : ℕ) → peak_of (run_of self.now.code limit entry fuel args.now) ≤ result }
        // It is at most 2^48.
        ensures range { result ≤ 281474976710656 }
    {
        self.kept();
        self.code().limits();
        (units_at(self, entry, args) / self.cert().unit() as u128) as u64
    }

    /// The bound and the lease of a run, as [`Licence::bound`] and [`Licence::lease`] say them, by one walk over what
    /// the arguments carry. It takes no memory.
    pub fn needs(&self, entry: u32, args: &[Flat]) -> Needs
        requires fits { FitsEntry self.now entry args.now }
        requires few { size_all (parts args.now) ≤ 65536 }
        // It has the bound by the code and the certificate of the licence.
        ensures bound { result.bound ≡ bound self.now.code self.now.cert entry args.now }
        // It has the lease by both.
        ensures lease { result.lease ≡ lease self.now.code self.now.cert entry args.now }
        // The peak of every run is within the bound, whatever the fuel and the limit of waiting calls.
        ensures peak { (limit fuel : ℕ) → peak_of (run_of self.now.code limit entry fuel args.now) ≤ result.bound }
        // The cells of the arguments and the peak of every run fit into the lease together.
        ensures suffices { (most fuel : ℕ) → cells_among self.now.code.types args.now + peak_of (run_of self.now.code most entry fuel args.now) ≤ result.lease }
        // The bound is at most 2^48.
        ensures bound_range { result.bound ≤ 281474976710656 }
        // The lease is at most 2^48 + 65,536.
        ensures lease_range { result.lease ≤ 281474976776192 }
    {
        let bound = self.bound(entry, args);
        let cells = cells_of(&self.code().types, args);
        Needs {
            bound,
            lease: (cells + bound).max(1),
        }
    }

    /// How many cells a run from this entry on these arguments is given: those of the arguments and as many more as the
    /// bound says, and at least one. They suffice for every run. It takes no memory.
    pub fn lease(&self, entry: u32, args: &[Flat]) -> u64
        requires fits { FitsEntry self.now entry args.now }
        requires few { size_all (parts args.now) ≤ 65536 }
        // It is the lease by the code and the certificate of the licence.
        ensures lease { result ≡ lease self.now.code self.now.cert entry args.now }
        // The cells of the arguments and the peak of every run fit into it together.
        ensures suffices { (limit fuel : ℕ) → cells_among self.now.code.types args.now + peak_of (run_of self.now.code limit entry fuel args.now) ≤ result }
        // It is at most 2^48 + 65,536.
        ensures range { result ≤ 281474976776192 }
    {
        self.needs(entry, args).lease
    }
}
