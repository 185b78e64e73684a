//! The names of all functions.
ghost use Rattle.std.specs.Prelude.{◌≡◌, map, IfOk};
ghost use Rattle.camelot_tree.specs.Programs.{program_of};
ghost use Rattle.camelot_tree.specs.Tree.{function_of};

use camelot_names::Names;
use camelot_typing::Typed;
use std::alloc::{AllocError, Global};

/// The names of a program's functions.
pub(crate) fn function_names<'a>(alloc: Global, typed: &'a Typed) -> Result<Names<'a>, AllocError>
    ensures { IfOk result (λ names. names ≡ map (λ f. f.name.word) (program_of typed.now.program).funs) }
{
    let mut names = Names::new(alloc);
    'funs: for decl in &typed.program.funs {
        let _added = names.add(decl.name.word.bytes())?;
    }
    Ok(names)
}
