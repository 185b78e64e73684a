ghost use Rattle.std.specs.Prelude.{◌≡◌, [], map, IfOk, OnOk};
ghost use Rattle.certificate.specs.Words.{var_of, block_of, make_of, func_of};
ghost use Rattle.grail_verifier.specs.Numbered.{Keeps, Say, vars_in, block_in, blocks_in, makes_in, func_in, funcs_in, held};

use super::numbered::{BlockLines, FuncLines, Held, MakeLine, NumberedCert, VarLine};
use annotations::Vector;
use certificate::{BlockCert, Cert, FuncCert, MakeCert, VarCert};
use std::alloc::{AllocError, Global};

// The lines of locals.
fn number_vars<'a>(
    alloc: Global,
    held: &mut Held<'a>,
    lines: &'a [VarCert],
) -> Result<Vec<VarLine>, AllocError>
    ensures keeps { OnOk result (Keeps held.old held.new) }
    ensures said { IfOk result (λ vars. Say vars_in held.new vars.items (map var_of lines.now)) }
{
    let mut vars = Vec::new(alloc);
    'lines: for line in lines {
        let number = held.add(&line.vector)?;
        vars.push(VarLine {
            var: line.var,
            number,
        })?;
    }
    Ok(vars)
}

// The lines of a block.
fn number_block<'a>(
    alloc: Global,
    held: &mut Held<'a>,
    line: &'a BlockCert,
) -> Result<BlockLines, AllocError>
    ensures keeps { OnOk result (Keeps held.old held.new) }
    ensures said { IfOk result (λ b. Say block_in held.new b (block_of line.now)) }
{
    let vars = number_vars(alloc, held, &line.vars)?;
    Ok(BlockLines {
        block: line.block,
        need: line.need,
        vars,
    })
}

// The lines of blocks.
fn number_blocks<'a>(
    alloc: Global,
    held: &mut Held<'a>,
    lines: &'a [BlockCert],
) -> Result<Vec<BlockLines>, AllocError>
    ensures keeps { OnOk result (Keeps held.old held.new) }
    ensures said { IfOk result (λ bs. Say blocks_in held.new bs.items (map block_of lines.now)) }
{
    let mut blocks = Vec::new(alloc);
    'lines: for line in lines {
        let block = number_block(alloc, held, line)?;
        blocks.push(block)?;
    }
    Ok(blocks)
}

// The lines of builds.
fn number_makes<'a>(
    alloc: Global,
    held: &mut Held<'a>,
    lines: &'a [MakeCert],
) -> Result<Vec<MakeLine>, AllocError>
    ensures keeps { OnOk result (Keeps held.old held.new) }
    ensures said { IfOk result (λ ms. Say makes_in held.new ms.items (map make_of lines.now)) }
{
    let mut makes = Vec::new(alloc);
    'lines: for line in lines {
        let number = held.add(&line.vector)?;
        makes.push(MakeLine {
            block: line.block,
            place: line.place,
            number,
        })?;
    }
    Ok(makes)
}

// The lines of a function.
fn number_func<'a>(
    alloc: Global,
    held: &mut Held<'a>,
    cert: &'a FuncCert,
) -> Result<FuncLines<'a>, AllocError>
    ensures keeps { OnOk result (Keeps held.old held.new) }
    ensures said { IfOk result (λ f. Say func_in held.new f (func_of cert.now)) }
{
    let params = number_vars(alloc, held, &cert.params)?;
    let result = held.add(&cert.result)?;
    let blocks = number_blocks(alloc, held, &cert.blocks)?;
    let makes = number_makes(alloc, held, &cert.makes)?;
    Ok(FuncLines {
        cert,
        need: cert.need,
        back: cert.back,
        params,
        result,
        blocks,
        makes,
    })
}

// The lines of functions.
fn number_funcs<'a>(
    alloc: Global,
    held: &mut Held<'a>,
    certs: &'a [FuncCert],
) -> Result<Vec<FuncLines<'a>>, AllocError>
    ensures keeps { OnOk result (Keeps held.old held.new) }
    ensures said { IfOk result (λ fs. Say funcs_in held.new fs.items (map func_of certs.now)) }
{
    let mut funcs = Vec::new(alloc);
    'lines: for cert in certs {
        let func = number_func(alloc, held, cert)?;
        funcs.push(func)?;
    }
    Ok(funcs)
}

/// The certificate with the annotations numbered in the order of its lines, behind `none`, which has number 0;
/// `AllocError` where memory runs out.
pub(crate) fn number_cert<'a>(
    alloc: Global,
    cert: &'a Cert,
    none: &'a Vector,
) -> Result<NumberedCert<'a>, AllocError>
    requires none { none.now ≡ [] }
    ensures said { IfOk result (λ n. n.cert ≡ cert.now) }
    ensures first { IfOk result (λ n. held n.held 0 ≡ []) }
{
    let mut held = Held::new(alloc);
    let _first = held.add(none)?;
    let funcs = number_funcs(alloc, &mut held, cert.funcs())?;
    Ok(NumberedCert {
        unit: cert.unit(),
        held,
        none,
        funcs,
    })
}
