ghost use Rattle.std.specs.Prelude.{◌≡◌, ◌++◌, ◌<◌, IfOk, OnOk, length, map};
ghost use Rattle.std.specs.List.{range_with_len};
ghost use Rattle.camelot_values.specs.Lists.{Ascend};
ghost use Rattle.grail_code.specs.Code.{func_of};
ghost use Rattle.annotations.specs.Tables.{table_of};
ghost use Rattle.certificate.specs.Words.{var_of, block_of};
ghost use Rattle.lp_system.specs.Unknowns.{carriers};
ghost use Rattle.lp_system.specs.Looked.{AreLooked};
ghost use Rattle.lp_system.specs.Found.{line_of};
ghost use Rattle.grail_blocks.specs.Events.{params_at};
ghost use Rattle.lp_solution.specs.Taking.{value_of, others_of, lines_from, behind_lines, block_from, behind_block, own_blocks, blocks_from, behind_blocks};

use super::values::Values;
use annotations::{ReachTable, Vector};
use camelot_values::{Kind, Types};
use certificate::{BlockCert, VarCert};
use grail_code::Func;
use lp_system::local_carriers;
use std::alloc::{AllocError, Global};

// Code's types with their table.
#[derive(Clone, Copy)]
pub(crate) struct Typed<'a> {
    pub types: &'a Types,
    pub table: &'a ReachTable,
    pub ghost same: { table.now ≡ table_of types.now },
}

// The constructors that a kind reaches.
pub(crate) fn carriers<'a>(typed: Typed<'a>, kind: Option<Kind>) -> &'a [u32]
    ensures is { result.now ≡ carriers typed.entry.types.now kind }
    ensures ascend { Ascend result.now }
{
    match kind {
        Some(kind) => typed.table.reached(kind),
        None => &[],
    }
}

// A line of a local, where it carries units.
fn push_line(lines: &mut Vec<VarCert>, var: u32, vector: Vector) -> Result<(), AllocError>
    ensures { OnOk result (map var_of lines.new.items ≡ map var_of lines.old.items ++ line_of var vector) }
{
    if !vector.pairs().is_empty() {
        lines.push(VarCert { var, vector })?;
    }
    Ok(())
}

// The lines of these locals: those that are lent carry nothing, and have none.
pub(crate) fn lines(
    alloc: Global,
    typed: Typed<'_>,
    func: &Func,
    looked: &[bool],
    locals: &[u32],
    values: &mut Values,
) -> Result<Vec<VarCert>, AllocError>
    requires looked { AreLooked (func_of func.now) looked.now }
    ensures value { IfOk result (λ lines. map var_of lines.items ≡ lines_from typed.entry.types.now (func_of func.now) locals.now values.old) }
    ensures left { IfOk result (λ lines. values.new ≡ behind_lines typed.entry.types.now (func_of func.now) locals.now values.old) }
{
    let mut lines = Vec::new(alloc);
    let mut rest = locals;
    'locals: while let [local, others @ ..] = rest {
        let cons = local_carriers(typed.types, typed.table, func, looked, *local);
        let vector = values.vector(alloc, cons)?;
        push_line(&mut lines, *local, vector)?;
        rest = others;
    }
    Ok(lines)
}

// The lines of a block after the first.
pub(crate) fn block(
    alloc: Global,
    typed: Typed<'_>,
    func: &Func,
    looked: &[bool],
    number: u32,
    values: &mut Values,
) -> Result<BlockCert, AllocError>
    requires looked { AreLooked (func_of func.now) looked.now }
    requires there { number < length func.now.blocks.items }
    ensures value { IfOk result (λ block. block_of block ≡ block_from typed.entry.types.now (func_of func.now) number values.old) }
    ensures left { IfOk result (λ block. values.new ≡ behind_block typed.entry.types.now (func_of func.now) number values.old) }
{
    let need = values.next();
    let vars = lines(
        alloc,
        typed,
        func,
        looked,
        &func.blocks[number as usize].params,
        values,
    )?;
    Ok(BlockCert {
        block: number,
        need,
        vars,
    })
}

// The lines of all blocks after the first.
#[tactic(auto, using(crate::proofs::Takings::block_more, crate::proofs::Takings::behind_more))]
pub(crate) fn blocks(
    alloc: Global,
    typed: Typed<'_>,
    func: &Func,
    looked: &[bool],
    values: &mut Values,
) -> Result<Vec<BlockCert>, AllocError>
    requires looked { AreLooked (func_of func.now) looked.now }
    ensures value { IfOk result (λ blocks. map block_of blocks.items ≡ blocks_from typed.entry.types.now
        (func_of func.now) (own_blocks (func_of func.now)) values.old) }
    ensures left { IfOk result (λ blocks. values.new ≡ behind_blocks typed.entry.types.now (func_of func.now) (own_blocks (func_of func.now)) values.old) }
{
    let mut blocks = Vec::new(alloc);
    let count = func.blocks.len() as u32;
    'blocks: for number in 1..count {
        blocks.push(block(alloc, typed, func, looked, number, values)?)?;
    }
    Ok(blocks)
}
