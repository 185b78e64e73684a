ghost use Rattle.std.specs.Prelude.{◌≡◌, ◌↔◌, ◌++◌, reverse, IsTrue, IfOk, OnOk};
ghost use Rattle.std.specs.Option.{option_map};
ghost use Rattle.camelot_values.specs.Value.{is_int32};
ghost use Rattle.camelot_values.specs.Typing.{Fits};
ghost use Rattle.camelot_values.specs.Nodes.{parts_due};
ghost use Rattle.camelot_values.specs.declared.value.Item.TheVariants.{Con};

use super::kinds::{Kind, Types};
use super::value::{Flat, Item};
use std::alloc::{AllocError, Global};

// Each int has 32 bits.
#[tactic(auto, using(crate::specs::IntLaws::int_passes))]
fn fits_32_bits(value: i32)
    ensures { IsTrue (is_int32 value) }
{
    let _ = value;
}

// The kinds of the node's parts; None where the node is of another kind or has another number of parts.
fn parts_due<'a>(types: &'a Types, kind: Kind, item: &Item) -> Option<&'a [Kind]>
    ensures { option_map (λ fields. fields.now) result ≡ parts_due types.now kind item.now }
{
    let is_right = match *item {
        Item::Int(number) => {
            fits_32_bits(number);
            kind == Kind::Int
        }
        Item::Flag(_) => kind == Kind::Flag,
        Item::Dia => kind == Kind::Dia,
        Item::Con { con, parts } => return fields_due(types, kind, con, parts),
    };
    if is_right { Some(&[]) } else { None }
}

// The kinds of the constructor's fields; None where it is of another kind or has another number of fields.
fn fields_due<'a>(types: &'a Types, kind: Kind, con: u32, parts: u8) -> Option<&'a [Kind]>
    ensures { option_map (λ fields. fields.now) result ≡ parts_due types.now kind (Con parts con) }
{
    if types.type_of(con).map(Kind::Of) != Some(kind) {
        return None;
    }
    let con = types.con(con)?;
    if con.fields.len() == parts as usize {
        Some(&con.fields)
    } else {
        None
    }
}

// Puts the kinds on the stack, so that the first of them is on top.
#[tactic(auto, using(crate::proofs::FitSteps::one_more_due))]
fn push_all(due: &mut Vec<Kind>, kinds: &[Kind]) -> Result<(), AllocError>
    ensures { OnOk result (due.new.items ≡ due.old.items ++ reverse kinds.now) }
{
    let mut left = kinds.len();
    'kinds: while left > 0 {
        left -= 1;
        due.push(kinds[left])?;
    }
    Ok(())
}

impl Flat {
    /// Whether the value is of this kind: each int has 32 bits, and each constructor is of its type and has one part of
    /// the right kind for each field. `AllocError` where memory runs out.
    #[tactic(auto, using(crate::proofs::FitSteps::fits_on, crate::proofs::FitSteps::fits_not, crate::proofs::FitSteps::fits_past, crate::proofs::FitSteps::fits_end))]
    pub fn fits(&self, alloc: Global, types: &Types, kind: Kind) -> Result<bool, AllocError>
        ensures { IfOk result (λ fits. IsTrue fits ↔ Fits types.now kind self.now) }
    {
        let mut due = vec![in alloc; kind]?;
        'items: for item in self.items() {
            let kind = match due.pop() {
                Some(kind) => kind,
                None => return Ok(false),
            };
            let kinds = match parts_due(types, kind, item) {
                Some(kinds) => kinds,
                None => return Ok(false),
            };
            push_all(&mut due, kinds)?;
        }
        Ok(due.is_empty())
    }
}
