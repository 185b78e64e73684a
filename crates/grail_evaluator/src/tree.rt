ghost use Rattle.std.specs.Prelude.{◌≡◌, IfOk, map, take, drop};
ghost use Rattle.grail_evaluator.specs.Trees.{plain, plain_all};

use std::alloc::{AllocError, Global};

/// A value as a tree.
#[derive(Debug, PartialEq, Drop)]
pub enum Tree {
    /// An int of 32 bits.
    Int(i32),
    /// A truth value.
    Flag(bool),
    /// A diamond.
    Dia,
    /// A constructor by its number, with its parts.
    Con { con: u32, parts: Vec<Tree> },
}

impl Tree {
    /// The same value once more.
    pub fn copy(&self, alloc: Global) -> Result<Tree, AllocError>
        ensures { IfOk result (λ tree. plain tree ≡ plain self.now) }
    {
        match self {
            Tree::Int(number) => Ok(Tree::Int(*number)),
            Tree::Flag(truth) => Ok(Tree::Flag(*truth)),
            Tree::Dia => Ok(Tree::Dia),
            Tree::Con { con, parts } => {
                let mut copies = Vec::new(alloc);
                'parts: for part in parts {
                    copies.push(part.copy(alloc)?)?;
                }
                Ok(Tree::Con {
                    con: *con,
                    parts: copies,
                })
            }
        }
    }
}
