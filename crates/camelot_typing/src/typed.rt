ghost use Rattle.std.specs.Prelude.{◌≡◌, map};
ghost use Rattle.camelot_tree.specs.Programs.{program_of};
ghost use Rattle.camelot_typing.specs.Kinds.{types_of};
ghost use Rattle.camelot_typing.specs.Typed.{typing, typing_kinds, kinds_of, IsTyping};
ghost use Rattle.camelot_typing.specs.Settled.{IsSettled};

use crate::kinds::FunKinds;
use camelot_tree::Program;
use camelot_values::Types;

/// A typed program with its types and the kinds of its functions and expressions. Its type keeps that the program is
/// typed with these kinds (`specs/Typing.antt`) within the limits of 64 types, 64 constructors of one type, 64
/// functions and 16 parameters of one function, that a kind other than `int` is the same in every choice of kinds that
/// obeys the rules, so that what nothing fixes is `int`, that `types` are its types, and that `funs` has the kinds of
/// its functions and of all their expressions. That names have their forms and literals 32 bits is kept by `program`
/// itself.
#[derive(Drop)]
pub struct Typed {
    pub program: Program,
    pub types: Types,
    pub funs: Vec<FunKinds>,
    pub ghost typed: { ∥ IsTyping (typing (program_of program) (map kinds_of funs.items)) ∥₁ },
    pub ghost settled: { ∥ IsSettled (typing (program_of program) (map kinds_of funs.items)) ∥₁ },
    pub ghost its_types: { types ≡ types_of (program_of program) },
    pub ghost its_kinds: { map kinds_of funs.items ≡ typing_kinds (typing (program_of program) (map kinds_of funs.items)) },
}
