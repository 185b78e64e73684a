//! Types in memory of their own.
ghost use Rattle.std.specs.Prelude.{◌≡◌, IfOk};
ghost use Rattle.camelot_values.specs.Kinds.{constructor_of, data_type_of};

use camelot_values::{Con, TypeDef, Types};
use std::alloc::{AllocError, Global};

// The same constructor in memory of its own.
fn copy_con(alloc: Global, con: &Con) -> Result<Con, AllocError>
    ensures { IfOk result (λ copy. constructor_of copy ≡ constructor_of con.now) }
{
    Ok(Con {
        name: con.name.copy(alloc)?,
        inline: con.inline,
        fields: Vec::from_slice(alloc, &con.fields)?,
    })
}

// The same type in memory of its own.
fn copy_def(alloc: Global, def: &TypeDef) -> Result<TypeDef, AllocError>
    ensures { IfOk result (λ copy. data_type_of copy ≡ data_type_of def.now) }
{
    let name = def.name.copy(alloc)?;
    let mut cons = Vec::new(alloc);
    'cons: for con in &def.cons {
        cons.push(copy_con(alloc, con)?)?;
    }
    Ok(TypeDef { name, cons })
}

/// The same types in memory of their own; `AllocError` where memory runs out.
pub(crate) fn copy_types(alloc: Global, types: &Types) -> Result<Types, AllocError>
    ensures { IfOk result (λ copy. copy ≡ types.now) }
{
    types.limits();
    let mut defs = Vec::new(alloc);
    'defs: for def in types.defs() {
        defs.push(copy_def(alloc, def)?)?;
    }
    Ok(Types::new(defs))
}
