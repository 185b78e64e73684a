ghost use Rattle.std.specs.Prelude.{◌≡◌, ◌++◌, ◌-◌, map, length, OnOk, IfOk};
ghost use Rattle.std.specs.List.{range_with_len};
ghost use Rattle.std.specs.Option.{option_map};
ghost use Rattle.camelot_values.specs.Kinds.{type_of};
ghost use Rattle.camelot_values.specs.declared.kinds.Kind.TheVariants as kind;
ghost use Rattle.annotations.specs.Tables.{table_of};
ghost use Rattle.grail_code.specs.Code.{op_of, let_of, block_of, func_of, code_of};
ghost use Rattle.lp_system.specs.Unknowns.{params_unknowns, vars_unknowns, block_unknowns, blocks_unknowns, made_unknowns, lets_unknowns, builds_unknowns, func_unknowns, funcs_unknowns};
ghost use Rattle.lp_system.specs.Looked.{AreLooked};
ghost use Rattle.lp_rows.specs.Plain.{plain, units_of};

use super::unknown::{Origin, Unknown, unit};
use super::values::carriers;
use annotations::ReachTable;
use camelot_values::{Kind, Types};
use grail_code::{Block, Code, Func, Op};
use lp_system::{local_carriers, looked_in};
use std::alloc::{AllocError, Global};

/// Types with their table.
#[derive(Clone, Copy)]
struct Reach<'a> {
    types: &'a Types,
    table: &'a ReachTable,
    ghost reaches: { table.now ≡ table_of types.now },
}

// The units of these constructors.
fn push_units(list: &mut Vec<Unknown>, origin: Origin, cons: &[u32]) -> Result<(), AllocError>
    ensures { OnOk result (map plain list.new.items ≡ map plain list.old.items ++ map (units_of origin) cons.now) }
{
    'cons: for con in cons {
        list.push(unit(origin, *con))?;
    }
    Ok(())
}

// Of the parameters of a function. Nothing is unknown of those that are lent.
fn push_params(
    reach: Reach<'_>,
    list: &mut Vec<Unknown>,
    func: u32,
    body: &Func,
    looked: &[bool],
) -> Result<(), AllocError>
    requires looked { AreLooked (func_of body.now) looked.now }
    ensures { OnOk result (map plain list.new.items ≡ map plain list.old.items
        ++ params_unknowns reach.entry.types.now (func_of body.now) func
        (range_with_len 0 (length body.now.params.items))) }
{
    'params: for var in 0..body.params.len() as u32 {
        let cons = local_carriers(reach.types, reach.table, body, looked, var);
        push_units(list, Origin::Param { func, var }, cons)?;
    }
    Ok(())
}

// Of the parameters of a block after the first, in the same way.
fn push_vars(
    reach: Reach<'_>,
    list: &mut Vec<Unknown>,
    func: u32,
    body: &Func,
    looked: &[bool],
    block: u32,
    vars: &[u32],
) -> Result<(), AllocError>
    requires looked { AreLooked (func_of body.now) looked.now }
    ensures { OnOk result (map plain list.new.items ≡ map plain list.old.items ++ vars_unknowns reach.entry.types.now (func_of body.now) func block vars.now) }
{
    'vars: for var in vars {
        let cons = local_carriers(reach.types, reach.table, body, looked, *var);
        let origin = Origin::BlockVar {
            func,
            block,
            var: *var,
        };
        push_units(list, origin, cons)?;
    }
    Ok(())
}

// Of a block after the first.
fn push_block(
    reach: Reach<'_>,
    list: &mut Vec<Unknown>,
    func: u32,
    body: &Func,
    looked: &[bool],
    block: u32,
) -> Result<(), AllocError>
    requires looked { AreLooked (func_of body.now) looked.now }
    ensures { OnOk result (map plain list.new.items ≡ map plain list.old.items ++ block_unknowns reach.entry.types.now (func_of body.now) func block) }
{
    list.push(Unknown::BlockNeed { func, block })?;
    push_vars(
        reach,
        list,
        func,
        body,
        looked,
        block,
        body.params_at(block),
    )
}

// Of the blocks after the first.
fn push_blocks(
    reach: Reach<'_>,
    list: &mut Vec<Unknown>,
    func: u32,
    body: &Func,
    looked: &[bool],
) -> Result<(), AllocError>
    requires looked { AreLooked (func_of body.now) looked.now }
    ensures { OnOk result (map plain list.new.items ≡ map plain list.old.items ++ blocks_unknowns reach.entry.types.now (func_of body.now) func) }
{
    'numbers: for block in 1..body.blocks.len() as u32 {
        push_block(reach, list, func, body, looked, block)?;
    }
    Ok(())
}

// The kind of a constructor's type.
fn con_kind(reach: Reach<'_>, con: u32) -> Option<Kind>
    ensures { result ≡ option_map kind.Of (type_of reach.entry.types.now con) }
{
    match reach.table.type_of(con) {
        Some(number) => Some(Kind::Of(number)),
        None => None,
    }
}

// Of a build.
fn push_made(
    reach: Reach<'_>,
    list: &mut Vec<Unknown>,
    func: u32,
    block: u32,
    place: u32,
    op: &Op,
) -> Result<(), AllocError>
    ensures { OnOk result (map plain list.new.items ≡ map plain list.old.items ++ made_unknowns reach.entry.types.now func block place (op_of op.now)) }
{
    match op {
        Op::Make { con, .. } => {
            if !reach.table.is_heap_con(*con) {
                return Ok(());
            }
            let cons = carriers(reach.types, reach.table, con_kind(reach, *con));
            push_units(list, Origin::Made { func, block, place }, cons)
        }
        Op::Lit(_) | Op::Flag(_) | Op::Copy(_) | Op::Prim { .. } | Op::Call { .. } => Ok(()),
    }
}

// Of the builds of a block.
fn push_lets(
    reach: Reach<'_>,
    list: &mut Vec<Unknown>,
    func: u32,
    block: u32,
    body: &Block,
) -> Result<(), AllocError>
    ensures { OnOk result (map plain list.new.items ≡ map plain list.old.items
        ++ lets_unknowns reach.entry.types.now func block 1 (map let_of body.now.lets.items)) }
{
    let mut place = 1;
    'lets: for binding in &body.lets {
        push_made(reach, list, func, block, place, &binding.op)?;
        place += 1;
    }
    Ok(())
}

// Of the builds of all blocks.
fn push_builds(
    reach: Reach<'_>,
    list: &mut Vec<Unknown>,
    func: u32,
    body: &Func,
) -> Result<(), AllocError>
    ensures { OnOk result (map plain list.new.items ≡ map plain list.old.items
        ++ builds_unknowns reach.entry.types.now func 0 (map block_of body.now.blocks.items)) }
{
    let mut number = 0;
    'walk: for block in &body.blocks {
        push_lets(reach, list, func, number, block)?;
        number += 1;
    }
    Ok(())
}

// Of a function.
fn push_func(
    reach: Reach<'_>,
    list: &mut Vec<Unknown>,
    func: u32,
    body: &Func,
) -> Result<(), AllocError>
    ensures { OnOk result (map plain list.new.items ≡ map plain list.old.items ++ func_unknowns reach.entry.types.now func (func_of body.now)) }
{
    let looked = looked_in(body);
    list.push(Unknown::Need { func })?;
    list.push(Unknown::Back { func })?;
    push_params(reach, list, func, body, &looked)?;
    let cons = carriers(reach.types, reach.table, Some(body.result));
    push_units(list, Origin::Outcome { func }, cons)?;
    push_blocks(reach, list, func, body, &looked)?;
    push_builds(reach, list, func, body)
}

/// All that is unknown of a code, in order.
pub(crate) fn unknowns(
    alloc: Global,
    code: &Code,
    table: &ReachTable,
) -> Result<Vec<Unknown>, AllocError>
    requires { table.now ≡ table_of code.now.types }
    ensures { IfOk result (λ list. map plain list.items ≡ funcs_unknowns (code_of code.now).types 0 (code_of code.now).funcs) }
{
    let reach = Reach {
        types: &code.types,
        table,
    };
    let mut list = Vec::new(alloc);
    let mut number = 0;
    'funcs: for func in &code.funcs {
        push_func(reach, &mut list, number, func)?;
        number += 1;
    }
    Ok(list)
}
