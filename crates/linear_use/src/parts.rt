//! Steps of the walk that aren't expressions.
ghost use Rattle.std.specs.Prelude.{◌≡◌, ◌+◌, ◌-◌, ◌&&◌, not, true, [], ◌∷◌, map, length, Some, OnOk, slice_get};
ghost use Rattle.std.specs.Option.{option_map, option_map_or};
ghost use Rattle.camelot_values.specs.Kinds.{constructor, constructor_of};
ghost use Rattle.camelot_values.specs.Heap.{is_heap};
ghost use Rattle.camelot_values.specs.declared.kinds.Kind.TheVariants.{Int};
ghost use Rattle.camelot_tree.specs.Tree.{expression_of, branch_of};
ghost use Rattle.camelot_tree.specs.Tree as tree;
ghost use Rattle.camelot_typing.specs.Kinds.{or_else, constructor_number, is_inline};
ghost use Rattle.camelot_tree.specs.Cells.{has_cell};
ghost use Rattle.linear_use.specs.Flow.{name_flow, place_flow, con_fields, cell_flow, look_flow, some_cell, looks_on, next_of, number_fields, number_cell, fields_count, cell_count, arm_variables, arm_count};
ghost use Rattle.linear_use.specs.Walk.{globals_in, AreAt, Walks, kinds_at};

use crate::known::Known;
use crate::state::State;
use camelot_tree::{Arm, ArmCell, Expr, Name};
use camelot_values::{Con, Kind, Types};
use std::alloc::AllocError;

/// An occurrence of a name that stands for its value.
#[tactic(auto, using(crate::proofs::Steps::unbound_walked, crate::proofs::Steps::lent_walked, crate::proofs::Steps::unwatched_walked, crate::proofs::Steps::again_walked, crate::proofs::Steps::spent_walked))]
pub(crate) fn use_name(
    known: &Known<'_, '_>,
    state: &mut State<'_>,
    name: &Name,
) -> Result<(), AllocError>
    ensures { Walks (name_flow known.now.typed.now.types state.old.scope name.now) state.old.next 0 state.old result state.new }
{
    let Some(variable) = state.scope.find(name.word.bytes()) else {
        return Ok(());
    };
    if variable.lent {
        return state.lent(known.alloc, name);
    }
    if !known.typed.types.is_heap(variable.kind) {
        return Ok(());
    }
    if state.spent.contains(variable.number) {
        state.twice(known.alloc, name)?;
        state.spent.spend(variable.number)?;
        return Ok(());
    }
    state.spent.spend(variable.number)?;
    Ok(())
}

/// The diamond of a build, where one is named.
pub(crate) fn use_place(
    known: &Known<'_, '_>,
    state: &mut State<'_>,
    place: &Option<Name>,
) -> Result<(), AllocError>
    ensures { Walks (place_flow known.now.typed.now.types state.old.scope place.now) state.old.next 0 state.old result state.new }
{
    match place {
        Some(name) => use_name(known, state, name),
        None => Ok(()),
    }
}

/// Whether a scrutinee is a variable that is lent.
pub(crate) fn looks_on(state: &State<'_>, on: &Expr) -> bool
    ensures { result ≡ looks_on state.now.scope (expression_of on.now) }
{
    match on {
        Expr::Var(name) => match state.scope.find(name.word.bytes()) {
            Some(variable) => variable.lent,
            None => false,
        },
        _ => false,
    }
}

// Whether some arm has an `@`.
fn some_cell(arms: &[Arm]) -> bool
    ensures { result ≡ some_cell (tree.arms (map branch_of arms.now)) }
{
    'arms: for arm in arms {
        if has_cell(&arm.cell) {
            return true;
        }
    }
    false
}

/// A match on a variable that is lent, which takes no cell.
pub(crate) fn look(
    known: &Known<'_, '_>,
    state: &mut State<'_>,
    on: &Expr,
    arms: &[Arm],
) -> Result<(), AllocError>
    requires lent { looks_on state.old.scope (expression_of on.now) ≡ true }
    requires kinds { AreAt known.now.exprs.now state.old.position (kinds_at (globals_in known.now.typed.now) state.old (expression_of on.now)) }
    ensures { let e = expression_of on.now in
        Walks (look_flow e (tree.arms (map branch_of arms.now))) (next_of known.now.typed.now.types state.old.next e)
        (length (kinds_at (globals_in known.now.typed.now) state.old e)) state.old result state.new }
{
    state.finish(known.exprs);
    match on {
        Expr::Var(name) => {
            if !some_cell(arms) {
                return Ok(());
            }
            state.lent(known.alloc, name)
        }
        _ => Ok(()),
    }
}

/// The kind of the expression that was walked to its end last.
pub(crate) fn kind_behind(exprs: &[Kind], position: usize) -> Kind
    ensures { result ≡ or_else (slice_get exprs.now (position - 1)) Int }
{
    match exprs.get(position.saturating_sub(1)) {
        Some(kind) => *kind,
        None => Kind::Int,
    }
}

/// The constructor of this name.
pub(crate) fn constructor<'a>(known: &Known<'a, '_>, name: &[u8]) -> Option<&'a Con>
    ensures { option_map (λ c. constructor_of c.now) result
        ≡ constructor known.now.typed.now.types (or_else (constructor_number known.now.typed.now.types name.now) 0) }
{
    let number = known.cons.number(name).unwrap_or(0);
    known.typed.types.con(number as u32)
}

/// The kinds of the fields of the constructor of this name.
pub(crate) fn fields_of<'a>(known: &Known<'a, '_>, name: &Name) -> &'a [Kind]
    ensures { result.now ≡ con_fields known.now.typed.now.types name.now }
{
    match constructor(known, name.word.bytes()) {
        Some(con) => &con.fields,
        None => &[],
    }
}

// Whether the constructor of this name is inline.
fn is_inline(known: &Known<'_, '_>, name: &Name) -> bool
    ensures { result ≡ is_inline known.now.typed.now.types (or_else (constructor_number known.now.typed.now.types name.now.word) 0) }
{
    match constructor(known, name.word.bytes()) {
        Some(con) => con.inline,
        None => false,
    }
}

// Whether an `@` is written.
fn has_cell(cell: &ArmCell) -> bool
    ensures { result ≡ has_cell cell.now }
{
    !matches!(cell, ArmCell::Plain)
}

/// An arm of a boxed constructor without `@`, where the scrutinee isn't a variable that is lent.
#[tactic(auto, using(crate::proofs::Steps::cell_lent, crate::proofs::Steps::cell_inline, crate::proofs::Steps::cell_there, crate::proofs::Steps::cell_missing))]
pub(crate) fn check_cell(
    known: &Known<'_, '_>,
    state: &mut State<'_>,
    lent: bool,
    con: &Name,
    cell: &ArmCell,
) -> Result<(), AllocError>
    ensures { Walks (cell_flow known.now.typed.now.types lent con.now cell.now) state.old.next 0 state.old result state.new }
{
    if lent {
        return Ok(());
    }
    if is_inline(known, con) {
        return Ok(());
    }
    if has_cell(cell) {
        return Ok(());
    }
    state.read_match(known.alloc, con)
}

// One field of an arm, which has a name or `_`.
fn bind_field<'a>(
    types: &Types,
    state: &mut State<'a>,
    lends: bool,
    field: &'a Option<Name>,
    kind: Kind,
) -> Result<(), AllocError>
    ensures scope { OnOk result (state.new.scope
        ≡ number_fields (λ k. lends && is_heap types.now k) state.old.next (field.now ∷ []) (kind ∷ []) state.old.scope) }
    ensures next { OnOk result (state.new.next ≡ state.old.next + fields_count (field.now ∷ []) (kind ∷ [])) }
    ensures spent { OnOk result (state.new.spent ≡ state.old.spent) }
    ensures position { OnOk result (state.new.position ≡ state.old.position) }
    ensures fault { OnOk result (state.new.fault ≡ state.old.fault) }
{
    match field {
        Some(name) => {
            let lent = lends && types.is_heap(kind);
            state.bind(name, kind, lent)
        }
        None => Ok(()),
    }
}

/// Binds the fields of an arm, which have these kinds; those of heap kinds are lent, where it lends.
pub(crate) fn bind_fields<'a>(
    types: &Types,
    state: &mut State<'a>,
    lends: bool,
    fields: &'a [Option<Name>],
    kinds: &[Kind],
) -> Result<(), AllocError>
    ensures scope { OnOk result (state.new.scope ≡ number_fields (λ k. lends && is_heap types.now k) state.old.next fields.now kinds.now state.old.scope) }
    ensures next { OnOk result (state.new.next ≡ state.old.next + fields_count fields.now kinds.now) }
    ensures spent { OnOk result (state.new.spent ≡ state.old.spent) }
    ensures position { OnOk result (state.new.position ≡ state.old.position) }
    ensures fault { OnOk result (state.new.fault ≡ state.old.fault) }
{
    'fields: for (field, kind) in fields.iter().zip(kinds) {
        bind_field(types, state, lends, field, *kind)?;
    }
    Ok(())
}

/// Binds the diamond of an arm, where one is named.
pub(crate) fn bind_cell<'a>(
    types: &Types,
    state: &mut State<'a>,
    lends: bool,
    cell: &'a ArmCell,
) -> Result<(), AllocError>
    ensures scope { OnOk result (state.new.scope ≡ number_cell (λ k. lends && is_heap types.now k) state.old.next cell.now state.old.scope) }
    ensures next { OnOk result (state.new.next ≡ state.old.next + cell_count cell.now) }
    ensures spent { OnOk result (state.new.spent ≡ state.old.spent) }
    ensures position { OnOk result (state.new.position ≡ state.old.position) }
    ensures fault { OnOk result (state.new.fault ≡ state.old.fault) }
{
    match cell {
        ArmCell::Keep(name) => {
            let lent = lends && types.is_heap(Kind::Dia);
            state.bind(name, Kind::Dia, lent)
        }
        ArmCell::Plain | ArmCell::Free => Ok(()),
    }
}

// Whether the fields of this constructor are lent, where they are of heap kinds.
fn lends(known: &Known<'_, '_>, lent: bool, con: &Name) -> bool
    ensures { result ≡ (lent && not (is_inline known.now.typed.now.types (or_else (constructor_number known.now.typed.now.types con.now.word) 0))) }
{
    if !lent {
        return false;
    }
    !is_inline(known, con)
}

/// Binds the variables of an arm.
#[tactic(auto, using(crate::proofs::Steps::arm_scope_is))]
pub(crate) fn bind_arm<'a>(
    known: &Known<'a, '_>,
    state: &mut State<'a>,
    lent: bool,
    arm: &'a Arm,
) -> Result<(), AllocError>
    ensures scope { OnOk result (let a = branch_of arm.now in state.new.scope
        ≡ arm_variables known.now.typed.now.types lent state.old.next a.con a.fields a.cell state.old.scope) }
    ensures next { OnOk result (let a = branch_of arm.now in state.new.next ≡ state.old.next + arm_count known.now.typed.now.types a.con a.fields a.cell) }
    ensures spent { OnOk result (state.new.spent ≡ state.old.spent) }
    ensures position { OnOk result (state.new.position ≡ state.old.position) }
    ensures fault { OnOk result (state.new.fault ≡ state.old.fault) }
{
    let lends = lends(known, lent, &arm.con);
    bind_fields(
        &known.typed.types,
        state,
        lends,
        &arm.fields,
        fields_of(known, &arm.con),
    )?;
    bind_cell(&known.typed.types, state, lends, &arm.cell)?;
    Ok(())
}
