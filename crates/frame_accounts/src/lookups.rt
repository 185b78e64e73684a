//! Functions, blocks, lets and lines by their numbers.
ghost use Rattle.std.specs.Prelude.{◌≡◌, slice_get};
ghost use Rattle.std.specs.Option.{option_map};
ghost use Rattle.grail_code.specs.Code.{block_of, code_of, func_of, let_of};
ghost use Rattle.certificate.specs.Words as words;
ghost use Rattle.frame_accounts.specs.Accounts.{block_at};

use certificate::FuncCert;
use grail_code::{Block, Code, Func, Let};
use licence::Licence;

/// The function of this number, where there is one.
pub fn func_at(code: &Code, func: u32) -> Option<&Func>
    ensures { option_map (λ f. func_of f.now) result ≡ slice_get (code_of code.now).funcs func }
{
    code.funcs.get(func as usize)
}

/// The function's block of this number, where there is one.
pub fn block_in(func: &Func, block: u32) -> Option<&Block>
    ensures { option_map (λ b. block_of b.now) result ≡ slice_get (func_of func.now).blocks block }
{
    func.blocks.get(block as usize)
}

/// The let at this place of the block, where there is one. Places count from 0.
pub fn let_in(block: &Block, place: u32) -> Option<&Let>
    ensures { option_map (λ l. let_of l.now) result ≡ slice_get (block_of block.now).lets place }
{
    block.lets.get(place as usize)
}

/// The block of this number of this function, where there is one.
pub(crate) fn block_at(licence: &Licence, func: u32, block: u32) -> Option<&Block>
    ensures { option_map (λ b. block_of b.now) result ≡ block_at licence.now.code func block }
{
    match func_at(licence.code(), func) {
        Some(of) => block_in(of, block),
        None => None,
    }
}

/// The lines of the function of this number, where there are any.
pub fn own_at(licence: &Licence, func: usize) -> Option<&FuncCert>
    ensures { option_map (λ f. words.func_of f.now) result ≡ slice_get licence.now.cert.funcs func }
{
    licence.cert().funcs().get(func)
}
