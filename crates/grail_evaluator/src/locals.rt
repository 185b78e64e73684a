ghost use Rattle.std.specs.Prelude.{◌≡◌, ◌≤◌, vec_len, IfOk, OnOk, if◌then◌else◌, [], ◌∷◌, ◌++◌, map, Some, None};
ghost use Rattle.std.specs.Option.{option_map};
ghost use Rattle.camelot_values.specs.Value.{parts};
ghost use Rattle.grail_code.specs.Meaning.{arguments, narrowed, put, put_all, values_of};
ghost use Rattle.grail_evaluator.specs.Trees.{plain, plain_all};
ghost use Rattle.grail_evaluator.specs.Locals.{env_of, kept, bound_of};

use super::tree::Tree;
use std::alloc::{AllocError, Global};

/// A local and what it is bound to. Of several for one local the last counts.
#[derive(Debug, Drop)]
pub(crate) struct Bound {
    pub(crate) local: u32,
    pub(crate) value: Tree,
}

/// What the local is bound to.
#[tactic(auto, using(crate::proofs::LocalLaws::one_more))]
pub(crate) fn value_of(env: &[Bound], local: u32) -> Option<&Tree>
    ensures { option_map (λ tree. plain tree.now) result ≡ env_of env.now local }
{
    let mut last = None;
    'locals: for bound in env {
        if bound.local == local {
            last = Some(&bound.value);
        }
    }
    last
}

/// Binds one local anew.
#[tactic(auto, using(crate::proofs::LocalLaws::env_push))]
pub(crate) fn bind(env: &mut Vec<Bound>, local: u32, value: Tree) -> Result<(), AllocError>
    ensures { OnOk result (env_of env.new.items ≡ put (env_of env.old.items) local (plain value)) }
{
    env.push(Bound { local, value })?;
    Ok(())
}

/// The values of these locals, if each is bound.
#[tactic(auto, using(crate::proofs::LocalLaws::behind_nothing, crate::proofs::LocalLaws::one_value_more, crate::proofs::LocalLaws::no_value, crate::proofs::LocalLaws::all_values))]
pub(crate) fn values(
    alloc: Global,
    env: &[Bound],
    locals: &[u32],
) -> Result<Option<Vec<Tree>>, AllocError>
    ensures { IfOk result (λ found. option_map (λ values. map plain values.items) found ≡ values_of (env_of env.now) locals.now) }
{
    let mut all = Vec::new(alloc);
    'locals: for local in locals {
        match value_of(env, *local) {
            Some(value) => all.push(value.copy(alloc)?)?,
            None => return Ok(None),
        }
    }
    Ok(Some(all))
}

// One binding more, where it is of one of these locals.
fn keep(
    alloc: Global,
    all: &mut Vec<Bound>,
    bound: &Bound,
    params: &[u32],
) -> Result<(), AllocError>
    ensures { OnOk result (map bound_of all.new.items ≡ map bound_of all.old.items ++ kept params.now (bound_of bound.now ∷ [])) }
{
    if params.contains(&bound.local) {
        let value = bound.value.copy(alloc)?;
        let local = bound.local;
        all.push(Bound { local, value })?;
    }
    Ok(())
}

/// The bindings of these locals alone.
pub(crate) fn narrow(alloc: Global, env: &[Bound], params: &[u32]) -> Result<Vec<Bound>, AllocError>
    ensures { IfOk result (λ bounds. env_of bounds.items ≡ narrowed params.now (env_of env.now)) }
{
    let mut all = Vec::new(alloc);
    'locals: for bound in env {
        keep(alloc, &mut all, bound, params)?;
    }
    Ok(all)
}

/// Binds the fields of an arm to the parts of a value, one each; false where there isn't one part for each.
#[tactic(auto, using(crate::proofs::LocalLaws::unequal))]
pub(crate) fn bind_all(
    alloc: Global,
    env: &mut Vec<Bound>,
    fields: &[u32],
    values: &[Tree],
) -> Result<bool, AllocError>
    ensures { IfOk result (λ fit. (if fit then Some (env_of env.new.items) else None) ≡ put_all
        (env_of env.old.items) fields.now (parts (plain_all values.now))) }
{
    if fields.len() != values.len() {
        return Ok(false);
    }
    'fields: for place in 0..fields.len() {
        let value = values[place].copy(alloc)?;
        bind(env, fields[place], value)?;
    }
    Ok(true)
}

/// The parameters of a function, the locals from 0 on, bound to these arguments.
#[tactic(auto, using(crate::proofs::LocalLaws::one_argument_more, crate::proofs::LocalLaws::all_arguments))]
pub(crate) fn arguments(alloc: Global, args: Vec<Tree>) -> Result<Vec<Bound>, AllocError>
    requires { vec_len args ≤ 256 }
    ensures { IfOk result (λ bounds. env_of bounds.items ≡ arguments (plain_all args.items)) }
{
    let mut all = Vec::new(alloc);
    'args: for place in 0..args.len() {
        let value = args[place].copy(alloc)?;
        all.push(Bound {
            local: place as u32,
            value,
        })?;
    }
    Ok(all)
}
