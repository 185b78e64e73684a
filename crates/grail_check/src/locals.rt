ghost use Rattle.std.specs.Prelude.{◌≡◌, length, slice_get, Some, OnOk};
ghost use Rattle.grail_code.specs.WellFormed.{taken_by, read_by};
ghost use Rattle.grail_check.specs.Finding.{Finds};
ghost use Rattle.grail_check.specs.Marked.{first_mark, later_marks};
ghost use Rattle.grail_check.specs.Faulting.{unless, is_local, kind_at, is_owned_at, is_lent_at, are_not_lent, same_kind, same_kinds, has_kind, bind, bind_all, spend, spend_unless, spend_all, mark_fault, own_fault, operand_fault, argument_fault, operands_fault, again_fault, arguments_fault};

use super::fault::CodeKind;
use super::marks::Marks;
use camelot_values::Kind;

/// A local of a function: its kind, and, where values of that kind take cells, whether the function owns them or is
/// lent them.
#[derive(Clone, Copy, Debug)]
pub(crate) struct Local {
    pub(crate) kind: Kind,
    pub(crate) owned: bool,
    pub(crate) lent: bool,
}

/// How a local stands on the way through a block.
#[derive(Clone, Copy, Debug, PartialEq, Eq)]
pub(crate) enum Mark {
    /// It isn't bound.
    Unbound,
    /// It is bound and may be used.
    Ready,
    /// It is owned, and was used since it was bound.
    Spent,
}

/// This fault, where the test fails.
pub(crate) fn require(test: bool, kind: CodeKind) -> Result<(), CodeKind>
    ensures { Finds result (unless test kind) }
{
    if test { Ok(()) } else { Err(kind) }
}

/// Whether there is such a local.
pub(crate) fn is_local(locals: &[Local], local: u32) -> bool
    ensures { result ≡ is_local locals.now local }
{
    (local as usize) < locals.len()
}

/// The kind of a local.
pub(crate) fn kind_at(locals: &[Local], local: u32) -> Option<Kind>
    ensures { result ≡ kind_at locals.now local }
{
    match locals.get(local as usize) {
        Some(found) => Some(found.kind),
        None => None,
    }
}

/// Whether the kinds are the same.
pub(crate) fn same_kind(left: Kind, right: Kind) -> bool
    ensures { result ≡ same_kind left right }
{
    left == right
}

/// Whether both kinds are there and are the same.
pub(crate) fn same_kinds(left: Option<Kind>, right: Option<Kind>) -> bool
    ensures { result ≡ same_kinds left right }
{
    match (left, right) {
        (Some(left), Some(right)) => same_kind(left, right),
        _ => false,
    }
}

/// Whether the local is there and is of this kind.
pub(crate) fn has_kind(locals: &[Local], local: u32, kind: Kind) -> bool
    ensures { result ≡ has_kind locals.now local kind }
{
    same_kinds(kind_at(locals, local), Some(kind))
}

/// Whether the local is there and is owned.
pub(crate) fn is_owned_at(locals: &[Local], local: u32) -> bool
    ensures { result ≡ is_owned_at locals.now local }
{
    match locals.get(local as usize) {
        Some(found) => found.owned,
        None => false,
    }
}

/// Whether the local is there and is lent.
pub(crate) fn is_lent_at(locals: &[Local], local: usize) -> bool
    ensures { result ≡ is_lent_at locals.now local }
{
    match locals.get(local) {
        Some(found) => found.lent,
        None => false,
    }
}

/// Whether none of these locals is lent.
pub(crate) fn are_not_lent(locals: &[Local], named: &[u32]) -> bool
    ensures { result ≡ are_not_lent locals.now named.now }
{
    'named: for local in named {
        if is_lent_at(locals, *local as usize) {
            return false;
        }
    }
    true
}

/// Refuses a local that is lent.
pub(crate) fn check_own(locals: &[Local], local: u32) -> Result<(), CodeKind>
    ensures { Finds result (own_fault locals.now local) }
{
    require(!is_lent_at(locals, local as usize), CodeKind::Lent)
}

/// Refuses a local that isn't bound, or was used up.
pub(crate) fn check_mark(marks: &Marks, local: u32) -> Result<(), CodeKind>
    ensures { Finds result (mark_fault (slice_get marks.now local)) }
{
    match marks.get(local) {
        Some(Mark::Ready) => Ok(()),
        Some(Mark::Spent) => Err(CodeKind::Spent),
        _ => Err(CodeKind::Unbound),
    }
}

/// The local has a new value.
pub(crate) fn bind(marks: &mut Marks, local: u32)
    ensures { marks.new ≡ bind marks.old local }
{
    marks.set_ready(local);
}

/// Each of these locals has a new value.
pub(crate) fn bind_all(marks: &mut Marks, locals: &[u32])
    ensures { marks.new ≡ bind_all marks.old locals.now }
{
    'locals: for local in locals {
        bind(marks, *local);
    }
}

/// A local that was used is used up, if it is owned.
pub(crate) fn spend(locals: &[Local], marks: &mut Marks, local: u32)
    ensures { marks.new ≡ spend locals.now marks.old local }
{
    if is_owned_at(locals, local) {
        marks.set_spent(local);
    }
}

/// Checks one operand, which is then used.
pub(crate) fn check_operand(
    locals: &[Local],
    marks: &mut Marks,
    operand: u32,
    kind: Kind,
) -> Result<(), CodeKind>
    ensures found { Finds result (operand_fault locals.now marks.old operand kind) }
    ensures marks { OnOk result (marks.new ≡ spend locals.now marks.old operand) }
{
    check_mark(marks, operand)?;
    check_own(locals, operand)?;
    require(has_kind(locals, operand, kind), CodeKind::Kind)?;
    spend(locals, marks, operand);
    Ok(())
}

// Checks one argument, which is then used, unless it is only read.
fn check_argument(
    locals: &[Local],
    marks: &mut Marks,
    read: bool,
    argument: u32,
    kind: Kind,
) -> Result<(), CodeKind>
    ensures found { Finds result (argument_fault read locals.now marks.old argument kind) }
    ensures marks { OnOk result (marks.new ≡ spend_unless read locals.now marks.old argument) }
{
    if !read {
        return check_operand(locals, marks, argument, kind);
    }
    check_mark(marks, argument)?;
    require(has_kind(locals, argument, kind), CodeKind::Kind)
}

// The first mark and the later ones. Where the marks end, nothing is marked.
fn split_marks(reads: &[bool]) -> (bool, &[bool])
    ensures first { result.0 ≡ first_mark reads.now }
    ensures later { result.1.now ≡ later_marks reads.now }
{
    match reads {
        [] => (false, &[]),
        [first, later @ ..] => (*first, later),
    }
}

// One argument after the other.
fn check_each(
    locals: &[Local],
    marks: &mut Marks,
    reads: &[bool],
    arguments: &[u32],
    kinds: &[Kind],
) -> Result<(), CodeKind>
    requires { length arguments.now ≡ length kinds.now }
    ensures found { Finds result (operands_fault locals.now marks.old reads.now arguments.now kinds.now) }
    ensures marks { OnOk result (marks.new ≡ spend_all locals.now marks.old (taken_by reads.now arguments.now)) }
{
    match (arguments, kinds) {
        ([argument, others @ ..], [kind, further @ ..]) => {
            let (read, later) = split_marks(reads);
            check_argument(locals, marks, read, *argument, *kind)?;
            check_each(locals, marks, later, others, further)
        }
        ([], _) => Ok(()),
        (_, []) => Ok(()),
    }
}

// Those that are only read, once more behind them all.
#[tactic(auto, using(crate::proofs::LentLaws::none_read))]
fn check_again(marks: &Marks, reads: &[bool], arguments: &[u32]) -> Result<(), CodeKind>
    ensures { Finds result (again_fault marks.now (read_by reads.now arguments.now)) }
{
    match arguments {
        [] => Ok(()),
        [argument, others @ ..] => match reads {
            [] => Ok(()),
            [read, later @ ..] => {
                if *read {
                    check_mark(marks, *argument)?;
                }
                check_again(marks, later, others)
            }
        },
    }
}

/// Checks that there are as many arguments as kinds, and then one after the other. By these marks some of them are only
/// read.
pub(crate) fn check_arguments(
    locals: &[Local],
    marks: &mut Marks,
    reads: &[bool],
    arguments: &[u32],
    kinds: &[Kind],
) -> Result<(), CodeKind>
    ensures found { Finds result (arguments_fault locals.now marks.old reads.now arguments.now kinds.now) }
    ensures marks { OnOk result (marks.new ≡ spend_all locals.now marks.old (taken_by reads.now arguments.now)) }
{
    require(arguments.len() == kinds.len(), CodeKind::Arms)?;
    check_each(locals, marks, reads, arguments, kinds)?;
    check_again(marks, reads, arguments)
}
