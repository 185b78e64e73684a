ghost use Rattle.std.specs.Prelude.{◌≡◌, map, length, ◌≤◌, IfOk};
ghost use Rattle.camelot_values.specs.Kinds.{constructors};
ghost use Rattle.camelot_tree.specs.Programs.{program_of};

use crate::copying::copy_types;
use crate::names::function_names;
use camelot_names::Names;
use camelot_typing::Typed;
use camelot_values::Types;
use linear_use::Linear;
use linear_use::names::{constructor_names, law_of_few};
use std::alloc::{AllocError, Global};

/// What a walk through a program knows: the program, and the names of its constructors and functions by their numbers.
#[derive(Drop)]
pub struct Known<'a> {
    pub(crate) alloc: Global,
    /// The program.
    pub typed: &'a Typed,
    pub(crate) cons: Names<'a>,
    pub(crate) funs: Names<'a>,
    ghost con_names: { cons ≡ map (λ c. c.name) (constructors typed.now.types) },
    ghost fun_names: { funs ≡ map (λ f. f.name.word) (program_of typed.now.program).funs },
    ghost few_cons: { length (constructors typed.now.types) ≤ 4096 },
}

impl<'a> Known<'a> {
    /// What is known of a program that keeps the rule of use; `AllocError` where memory runs out.
    pub fn new(alloc: Global, program: &'a Linear) -> Result<Known<'a>, AllocError>
        ensures { IfOk result (λ known. known.typed.now ≡ program.now.typed) }
    {
        let typed = &program.typed;
        law_of_few(typed);
        let cons = constructor_names(alloc, typed)?;
        let funs = function_names(alloc, typed)?;
        Ok(Known {
            alloc,
            typed,
            cons,
            funs,
        })
    }

    /// The program's types in memory of their own; `AllocError` where memory runs out.
    pub fn types(&self) -> Result<Types, AllocError>
        ensures { IfOk result (λ types. types ≡ self.now.typed.now.types) }
    {
        copy_types(self.alloc, &self.typed.types)
    }
}
