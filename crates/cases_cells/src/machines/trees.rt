//! Values as the evaluator has them.
ghost use Rattle.std.specs.Prelude.{◌≡◌, Some, IfSome, IfOk};
ghost use Rattle.camelot_values.specs.Value.{parts};
ghost use Rattle.grail_evaluator.specs.Trees.{plain, plain_all};
ghost use Rattle.grail_evaluator.specs.declared.tree.Tree.{Tree};
ghost use Rattle.cases_cells.specs.Trees.{IsFirst, AreFirst};

use camelot_values::{Flat, Item};
use grail_evaluator::Tree;
use std::alloc::{AllocError, Global};

/// A value, and the nodes behind its own.
#[derive(Drop)]
struct First<'a> {
    tree: Tree,
    rest: &'a [Item],
}

/// Values, and the nodes behind their own.
#[derive(Drop)]
struct Firsts<'a> {
    trees: Vec<Tree>,
    rest: &'a [Item],
}

// The first value of these nodes.
#[cycle(trees)]
fn take_tree<'a>(alloc: Global, items: &'a [Item]) -> Result<Option<First<'a>>, AllocError>
    ensures { IfOk result (IsFirst items.now) }
{
    match items {
        [] => Ok(None),
        [Item::Int(number), rest @ ..] => Ok(Some(First {
            tree: Tree::Int(*number),
            rest,
        })),
        [Item::Flag(truth), rest @ ..] => Ok(Some(First {
            tree: Tree::Flag(*truth),
            rest,
        })),
        [Item::Dia, rest @ ..] => Ok(Some(First {
            tree: Tree::Dia,
            rest,
        })),
        [Item::Con { con, parts }, rest @ ..] => match take_trees(alloc, *parts, rest)? {
            Some(found) => Ok(Some(First {
                tree: Tree::Con {
                    con: *con,
                    parts: found.trees,
                },
                rest: found.rest,
            })),
            None => Ok(None),
        },
    }
}

// The first so many values of these nodes.
#[cycle(trees)]
fn take_trees<'a>(
    alloc: Global,
    count: u8,
    items: &'a [Item],
) -> Result<Option<Firsts<'a>>, AllocError>
    ensures { IfOk result (AreFirst count items.now) }
{
    let mut trees = Vec::new(alloc);
    let mut rest = items;
    'trees: for _ in 0..count {
        match take_tree(alloc, rest)? {
            Some(first) => {
                trees.push(first.tree)?;
                rest = first.rest;
            }
            None => return Ok(None),
        }
    }
    Ok(Some(Firsts { trees, rest }))
}

// The value as a tree, where its nodes are those of one.
#[tactic(auto, using(crate::proofs::TreeLaws::whole))]
fn tree_of(alloc: Global, value: &Flat) -> Result<Option<Tree>, AllocError>
    ensures { IfOk result (λ found. IfSome found (λ tree. plain tree ≡ value.now)) }
{
    match take_tree(alloc, value.items())? {
        Some(first) => match first.rest {
            [] => Ok(Some(first.tree)),
            _ => Ok(None),
        },
        None => Ok(None),
    }
}

/// The values as trees.
pub(crate) fn trees_of(alloc: Global, values: &[Flat]) -> Result<Option<Vec<Tree>>, AllocError>
    ensures { IfOk result (λ found. IfSome found (λ trees. plain_all trees.items ≡ values.now)) }
{
    let mut trees = Vec::new(alloc);
    'values: for value in values {
        match tree_of(alloc, value)? {
            Some(tree) => trees.push(tree)?,
            None => return Ok(None),
        }
    }
    Ok(Some(trees))
}
