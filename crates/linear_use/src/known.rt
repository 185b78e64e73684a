ghost use Rattle.std.specs.Prelude.{◌≡◌, ◌≤◌, map, length};
ghost use Rattle.camelot_values.specs.Kinds.{constructors};
ghost use Rattle.camelot_tree.specs.Programs.{program_of};

use camelot_names::Names;
use camelot_typing::Typed;
use camelot_values::Kind;
use std::alloc::Global;

/// What a walk through a function knows: the program, the names of all constructors and functions by their numbers, and
/// the kinds of the function's expressions.
#[derive(Drop)]
pub(crate) struct Known<'a, 'n> {
    pub(crate) alloc: Global,
    pub(crate) typed: &'a Typed,
    pub(crate) cons: &'n Names<'a>,
    pub(crate) funs: &'n Names<'a>,
    pub(crate) exprs: &'a [Kind],
    ghost names: { cons.now ≡ map (λ c. c.name) (constructors typed.now.types) },
    ghost few: { length (constructors typed.now.types) ≤ 4096 },
    ghost functions: { funs.now ≡ map (λ f. f.name.word) (program_of typed.now.program).funs },
}
