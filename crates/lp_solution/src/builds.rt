ghost use Rattle.std.specs.Prelude.{◌≡◌, ◌++◌, ◌≤◌, IfOk, OnOk, length, map};
ghost use Rattle.grail_blocks.specs.Blocks.{op_of, let_of};
ghost use Rattle.grail_code.specs.Code.{block_of};
ghost use Rattle.camelot_values.specs.Lists.{Ascend};
ghost use Rattle.certificate.specs.Words.{make_of};
ghost use Rattle.lp_system.specs.Found.{make_line};
ghost use Rattle.lp_solution.specs.Taking.{made_cons, lets_from, behind_lets, builds_from, behind_builds};

use super::lines::{Typed, carriers};
use super::values::Values;
use annotations::Vector;
use camelot_values::Kind;
use certificate::MakeCert;
use grail_blocks::{Let, Op};
use grail_code::Block;
use std::alloc::{AllocError, Global};

// The constructors of a build that carry units.
fn made_cons<'a>(typed: Typed<'a>, op: &Op) -> &'a [u32]
    ensures is { result.now ≡ made_cons typed.entry.types.now (op_of op.now) }
    ensures ascend { Ascend result.now }
{
    match op {
        Op::Make { con, .. } => {
            if typed.table.is_heap_con(*con) {
                carriers(typed, typed.table.type_of(*con).map(Kind::Of))
            } else {
                &[]
            }
        }
        _ => &[],
    }
}

// A line of a build, where it carries units.
fn push_line(
    lines: &mut Vec<MakeCert>,
    block: u32,
    place: u32,
    vector: Vector,
) -> Result<(), AllocError>
    ensures { OnOk result (map make_of lines.new.items ≡ map make_of lines.old.items ++ make_line block place vector) }
{
    if !vector.pairs().is_empty() {
        lines.push(MakeCert {
            block,
            place,
            vector,
        })?;
    }
    Ok(())
}

// The lines of the builds among these lets.
fn push_lets(
    alloc: Global,
    typed: Typed<'_>,
    block: u32,
    lets: &[Let],
    values: &mut Values,
    lines: &mut Vec<MakeCert>,
) -> Result<(), AllocError>
    requires few { length lets.now ≤ 256 }
    ensures value { OnOk result (map make_of lines.new.items ≡ map make_of lines.old.items
        ++ lets_from typed.entry.types.now block 1 (map let_of lets.now) values.old) }
    ensures left { OnOk result (values.new ≡ behind_lets typed.entry.types.now (map let_of lets.now) values.old) }
{
    let mut place = 1;
    let mut rest = lets;
    'lets: while let [first, others @ ..] = rest {
        let vector = values.vector(alloc, made_cons(typed, &first.op))?;
        push_line(lines, block, place, vector)?;
        place += 1;
        rest = others;
    }
    Ok(())
}

// The lines of the builds of all blocks.
pub(crate) fn builds(
    alloc: Global,
    typed: Typed<'_>,
    blocks: &[Block],
    values: &mut Values,
) -> Result<Vec<MakeCert>, AllocError>
    requires few { length blocks.now ≤ 256 }
    ensures value { IfOk result (λ lines. map make_of lines.items ≡ builds_from typed.entry.types.now 0 (map block_of blocks.now) values.old) }
    ensures left { IfOk result (λ lines. values.new ≡ behind_builds typed.entry.types.now (map block_of blocks.now) values.old) }
{
    let mut lines = Vec::new(alloc);
    let mut number = 0;
    let mut rest = blocks;
    'blocks: while let [block, others @ ..] = rest {
        push_lets(alloc, typed, number, &block.lets, values, &mut lines)?;
        number += 1;
        rest = others;
    }
    Ok(lines)
}
