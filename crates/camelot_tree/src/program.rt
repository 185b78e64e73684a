ghost use Rattle.std.specs.Prelude.{map, IsTrue};
ghost use Rattle.camelot_tree.specs.Tree.{data_type_of, function_of};
ghost use Rattle.camelot_tree.specs.Shape.{is_whole};
ghost use Rattle.camelot_tree.specs.Tokens.{is_named, has_ints};

use crate::tree::{FunDecl, TypeDecl};

/// A program as it is written: its types and functions in text order.
///
/// Each type has at least one constructor, each function at least one parameter and each match at least one arm, and an
/// inline constructor has no fields. Names have the forms of their tokens: types, functions, variables and diamonds
/// have lower names and constructors upper ones, of at most 64 bytes.
#[derive(Debug, Drop)]
pub struct Program {
    pub types: Vec<TypeDecl>,
    pub funs: Vec<FunDecl>,
    pub ghost whole: { IsTrue (is_whole (record { types = map data_type_of types.items; funs = map function_of funs.items })) },
    pub ghost named: { IsTrue (is_named (record { types = map data_type_of types.items; funs = map function_of funs.items })) },
    pub ghost ints: { IsTrue (has_ints (record { types = map data_type_of types.items; funs = map function_of funs.items })) },
}
