ghost use Rattle.std.specs.Prelude.{◌≡◌, ◌++◌, map, flat_map, IfOk, OnOk};
ghost use Rattle.certificate.specs.Text.{function_words, result_lines, text_of};
ghost use Rattle.certificate.specs.Words.{var_of, block_of, make_of, func_of};
ghost use Rattle.certificate.specs.Writing.{pair_text, vector_text, var_text, block_text, make_text, func_text, line_text, lines_text};

use super::types::{BlockCert, Cert, FuncCert, MakeCert, VarCert};
use annotations::Vector;
use std::alloc::{AllocError, Global};
use text_lines::push_number;

// Writes a pair behind a space.
#[tactic(auto, using(crate::proofs::Written::pair_written))]
fn push_pair(out: &mut Vec<u8>, pair: &(u32, u64)) -> Result<(), AllocError>
    ensures { OnOk result (out.new.items ≡ out.old.items ++ pair_text pair.now) }
{
    push_number(out, b" ", pair.0 as u64)?;
    push_number(out, b"=", pair.1)
}

// Writes the pairs, each behind a space.
#[tactic(auto, using(crate::proofs::Written::item_written, crate::proofs::Written::all_written))]
fn push_vector(out: &mut Vec<u8>, vector: &Vector) -> Result<(), AllocError>
    ensures { OnOk result (out.new.items ≡ out.old.items ++ vector_text vector.now) }
{
    'pairs: for pair in vector.pairs() {
        push_pair(out, pair)?;
    }
    Ok(())
}

// Writes the line of a local, with this tag in front.
#[tactic(auto, using(crate::proofs::Written::var_written))]
fn push_var(out: &mut Vec<u8>, tag: &[u8], var: &VarCert) -> Result<(), AllocError>
    ensures { OnOk result (out.new.items ≡ out.old.items ++ var_text tag.now (var_of var.now)) }
{
    out.extend_from_slice(tag)?;
    push_number(out, b" ", var.var as u64)?;
    push_vector(out, &var.vector)?;
    out.push(b'\n')?;
    Ok(())
}

// Writes the lines of locals, with this tag in front of each.
#[tactic(auto, using(crate::proofs::Written::mapped_written, crate::proofs::Written::all_mapped))]
fn push_vars(out: &mut Vec<u8>, tag: &[u8], vars: &[VarCert]) -> Result<(), AllocError>
    ensures { OnOk result (out.new.items ≡ out.old.items ++ flat_map (var_text tag.now) (map var_of vars.now)) }
{
    'vars: for var in vars {
        push_var(out, tag, var)?;
    }
    Ok(())
}

// Writes the line of a result, where it has units.
#[tactic(auto, using(crate::proofs::Written::no_result, crate::proofs::Written::result_written))]
fn push_result(out: &mut Vec<u8>, vector: &Vector) -> Result<(), AllocError>
    ensures { OnOk result (out.new.items ≡ out.old.items ++ lines_text (result_lines vector.now)) }
{
    if vector.pairs().is_empty() {
        return Ok(());
    }
    out.extend_from_slice(b"result")?;
    push_vector(out, vector)?;
    out.push(b'\n')?;
    Ok(())
}

// Writes the lines of a block.
#[tactic(auto, using(crate::proofs::Written::block_written))]
fn push_block(out: &mut Vec<u8>, block: &BlockCert) -> Result<(), AllocError>
    ensures { OnOk result (out.new.items ≡ out.old.items ++ block_text (block_of block.now)) }
{
    push_number(out, b"block ", block.block as u64)?;
    push_number(out, b" need ", block.need)?;
    out.push(b'\n')?;
    push_vars(out, b"var", &block.vars)?;
    Ok(())
}

// Writes the lines of all blocks.
#[tactic(auto, using(crate::proofs::Written::mapped_written, crate::proofs::Written::all_mapped))]
fn push_blocks(out: &mut Vec<u8>, blocks: &[BlockCert]) -> Result<(), AllocError>
    ensures { OnOk result (out.new.items ≡ out.old.items ++ flat_map block_text (map block_of blocks.now)) }
{
    'rest: for block in blocks {
        push_block(out, block)?;
    }
    Ok(())
}

// Writes the line of a build.
#[tactic(auto, using(crate::proofs::Written::make_written))]
fn push_make(out: &mut Vec<u8>, make: &MakeCert) -> Result<(), AllocError>
    ensures { OnOk result (out.new.items ≡ out.old.items ++ make_text (make_of make.now)) }
{
    push_number(out, b"make ", make.block as u64)?;
    push_number(out, b" ", make.place as u64)?;
    push_vector(out, &make.vector)?;
    out.push(b'\n')?;
    Ok(())
}

// Writes the lines of all builds.
#[tactic(auto, using(crate::proofs::Written::mapped_written, crate::proofs::Written::all_mapped))]
fn push_makes(out: &mut Vec<u8>, makes: &[MakeCert]) -> Result<(), AllocError>
    ensures { OnOk result (out.new.items ≡ out.old.items ++ flat_map make_text (map make_of makes.now)) }
{
    'makes: for make in makes {
        push_make(out, make)?;
    }
    Ok(())
}

// Writes the first line of a function.
#[tactic(auto, using(crate::proofs::Written::function_written))]
fn push_function(out: &mut Vec<u8>, func: &FuncCert) -> Result<(), AllocError>
    ensures { OnOk result (out.new.items ≡ out.old.items ++ line_text (function_words (func_of func.now))) }
{
    out.extend_from_slice(b"function ")?;
    out.extend_from_slice(func.name.bytes())?;
    push_number(out, b" need ", func.need)?;
    push_number(out, b" back ", func.back)?;
    out.push(b'\n')?;
    Ok(())
}

// Writes the lines of a function.
#[tactic(auto, using(crate::proofs::Written::func_written))]
fn push_func(out: &mut Vec<u8>, func: &FuncCert) -> Result<(), AllocError>
    ensures { OnOk result (out.new.items ≡ out.old.items ++ func_text (func_of func.now)) }
{
    push_function(out, func)?;
    push_vars(out, b"param", &func.params)?;
    push_result(out, &func.result)?;
    push_blocks(out, &func.blocks)?;
    push_makes(out, &func.makes)?;
    Ok(())
}

// Writes the lines of all functions.
#[tactic(auto, using(crate::proofs::Written::mapped_written, crate::proofs::Written::all_mapped))]
fn push_funcs(out: &mut Vec<u8>, funcs: &[FuncCert]) -> Result<(), AllocError>
    ensures { OnOk result (out.new.items ≡ out.old.items ++ flat_map func_text (map func_of funcs.now)) }
{
    'funcs: for func in funcs {
        push_func(out, func)?;
    }
    Ok(())
}

/// The text of the certificate (`CERTIFICATES.md`); `AllocError` where memory runs out.
#[tactic(auto, using(crate::proofs::Written::cert_written))]
pub fn write_cert(alloc: Global, cert: &Cert) -> Result<Vec<u8>, AllocError>
    ensures { IfOk result (λ text. text.items ≡ text_of cert.now) }
{
    let mut out = Vec::new(alloc);
    push_number(&mut out, b"grail certificate 1\nunit ", cert.unit())?;
    out.push(b'\n')?;
    push_funcs(&mut out, cert.funcs())?;
    out.extend_from_slice(b"end\n")?;
    Ok(out)
}
