ghost use Rattle.std.specs.Prelude.{◌≡◌, [], ◌++◌, ◌<◌, codes, cond, decimal, reverse, IfOk, OnOk};
ghost use Rattle.std.specs.Fmt.{signed_decimal};
ghost use Rattle.camelot_values.specs.Kinds.{constructor_name};
ghost use Rattle.value_text.specs.Text.{value_text};
ghost use Rattle.value_text.specs.Printing.{IsWord, IsKnown, node_text, closing_text, closing_due, opening_text, opening_due, parts_of};

use camelot_values::{Flat, Item, Types};
use itoa::Buffer;
use std::alloc::{AllocError, Global};

/// Writes a number below 1,000 in decimal at the end, in one piece. `AllocError` where memory runs out.
#[tactic(auto, using(crate::proofs::DigitSteps::one_digit, crate::proofs::DigitSteps::two_digits, crate::proofs::DigitSteps::three_digits))]
pub fn push_small(out: &mut Vec<u8>, number: u32) -> Result<(), AllocError>
    requires { number < 1000 }
    ensures { OnOk result (out.new.items ≡ out.old.items ++ decimal number) }
{
    if number < 10 {
        return out.extend_from_slice(&[b'0' + number as u8]);
    }
    let tens = number / 10;
    let last = b'0' + (number % 10) as u8;
    if number < 100 {
        return out.extend_from_slice(&[b'0' + tens as u8, last]);
    }
    let first = b'0' + (number / 100) as u8;
    out.extend_from_slice(&[first, b'0' + (tens % 10) as u8, last])
}

// Writes an int in decimal.
fn push_long(out: &mut Vec<u8>, number: i32) -> Result<(), AllocError>
    ensures { OnOk result (out.new.items ≡ out.old.items ++ signed_decimal number) }
{
    out.extend_from_slice(Buffer::new().format(number).as_bytes())
}

// Writes an int in decimal, a small one in one piece.
#[tactic(auto, using(crate::proofs::DigitSteps::plain_text))]
fn push_int(out: &mut Vec<u8>, number: i32) -> Result<(), AllocError>
    ensures { OnOk result (out.new.items ≡ out.old.items ++ signed_decimal number) }
{
    if number.is_negative() {
        return push_long(out, number);
    }
    let size = number.unsigned_abs();
    if size >= 1000 {
        return push_long(out, number);
    }
    push_small(out, size)?;
    Ok(())
}

// Writes a truth value.
fn push_flag(out: &mut Vec<u8>, flag: bool) -> Result<(), AllocError>
    ensures { OnOk result (out.new.items ≡ out.old.items ++ cond flag (codes "true") (codes "false")) }
{
    if flag {
        out.extend_from_slice(b"true")
    } else {
        out.extend_from_slice(b"false")
    }
}

// The name of a constructor; that of one that isn't there is empty.
fn name_of(types: &Types, con: u32) -> &[u8]
    ensures { result.now ≡ constructor_name types.now con }
{
    match types.con(con) {
        Some(con) => con.name.bytes(),
        None => b"",
    }
}

// The name with `(` behind it, then zeros; zeros alone where the name has more than 15 bytes.
fn word_of(name: &[u8]) -> [u8; 16]
    ensures { IsWord name.now result }
{
    let mut word = [0; 16];
    let len = name.len();
    if len < 16 {
        word[..len].copy_from_slice(name);
        word[len] = b'(';
    }
    word
}

// A constructor that was looked up, with its name and the name's word.
#[derive(Clone, Copy)]
struct Known<'a> {
    con: u32,
    name: &'a [u8],
    word: [u8; 16],
}

// Looks a constructor up.
fn known_of(types: &Types, con: u32) -> Known<'_>
    ensures con { result.con ≡ con }
    ensures known { IsKnown (constructor_name types.now) result.con result.name.now result.word }
{
    let name = name_of(types, con);
    Known {
        con,
        name,
        word: word_of(name),
    }
}

// Looks a constructor up in place of the known one.
#[inline(never)]
fn change<'a>(types: &'a Types, known: &mut Known<'a>, con: u32)
    ensures con { known.new.con ≡ con }
    ensures known { IsKnown (constructor_name types.now) known.new.con known.new.name.now known.new.word }
{
    *known = known_of(types, con);
}

// Makes a constructor the known one. It is looked up where it isn't.
#[inline(always)]
fn look_up<'a>(types: &'a Types, known: &mut Known<'a>, con: u32)
    requires { IsKnown (constructor_name types.now) known.old.con known.old.name.now known.old.word }
    ensures con { known.new.con ≡ con }
    ensures known { IsKnown (constructor_name types.now) known.new.con known.new.name.now known.new.word }
{
    if con != known.con {
        change(types, known, con);
    }
}

// Writes a name of any length, and `(` behind it where it opens.
#[inline(never)]
fn push_long_name(out: &mut Vec<u8>, name: &[u8], opens: bool) -> Result<(), AllocError>
    ensures { OnOk result (out.new.items ≡ out.old.items ++ name.now ++ cond opens (codes "(") []) }
{
    out.extend_from_slice(name)?;
    if opens {
        out.push(b'(')?;
    }
    Ok(())
}

// The same of the known constructor's name. A short one is the word's beginning: the whole word is written, since its
// length is known when compiling, and then cut.
#[inline(always)]
fn push_known(out: &mut Vec<u8>, known: &Known, opens: bool) -> Result<(), AllocError>
    requires { IsWord known.now.name.now known.now.word }
    ensures { OnOk result (out.new.items ≡ out.old.items ++ known.now.name.now ++ cond opens (codes "(") []) }
{
    let len = known.name.len();
    if len > 15 {
        return push_long_name(out, known.name, opens);
    }
    let start = out.len();
    let word = known.word;
    out.extend_from_slice(&word)?;
    if opens {
        out.truncate(start + len + 1);
    } else {
        out.truncate(start + len);
    }
    Ok(())
}

// The number of the node's parts.
pub(crate) fn parts_of(item: &Item) -> u8
    ensures { result ≡ parts_of item.now }
{
    match *item {
        Item::Con { con: _, parts } => parts,
        _ => 0,
    }
}

// Writes what stands behind a part that is complete.
#[tactic(auto, using(crate::proofs::PrintLaws::one_closed_text, crate::proofs::PrintLaws::one_closed_due, crate::proofs::PrintLaws::fewer_due, crate::proofs::PrintLaws::comma_text, crate::proofs::PrintLaws::comma_due))]
fn close(out: &mut Vec<u8>, due: &mut Vec<u8>) -> Result<(), AllocError>
    ensures text { OnOk result (out.new.items ≡ out.old.items ++ closing_text (reverse due.old.items)) }
    ensures due { OnOk result (reverse due.new.items ≡ closing_due (reverse due.old.items)) }
{
    'closed: while let Some(left) = due.pop() {
        if left > 0 {
            due.push_reserved(left - 1);
            out.push(b',')?;
            return Ok(());
        }
        out.push(b')')?;
    }
    Ok(())
}

// Writes a constructor's name, and `(` behind it where it opens.
#[inline(always)]
fn push_name<'a>(
    out: &mut Vec<u8>,
    types: &'a Types,
    known: &mut Known<'a>,
    con: u32,
    opens: bool,
) -> Result<(), AllocError>
    requires { IsKnown (constructor_name types.now) known.old.con known.old.name.now known.old.word }
    ensures known { IsKnown (constructor_name types.now) known.new.con known.new.name.now known.new.word }
    ensures text { OnOk result (out.new.items ≡ out.old.items ++ constructor_name types.now con ++ cond opens (codes "(") []) }
{
    look_up(types, known, con);
    push_known(out, known, opens)
}

// Writes the node's own word, and what stands behind it. Of the constructors with parts one is known, and one of the
// others: the items of a list repeat the first, and the leaves of a tree the second.
fn push_node<'a>(
    out: &mut Vec<u8>,
    due: &mut Vec<u8>,
    types: &'a Types,
    opening: &mut Known<'a>,
    bare: &mut Known<'a>,
    item: &Item,
) -> Result<(), AllocError>
    requires opening { IsKnown (constructor_name types.now) opening.old.con opening.old.name.now opening.old.word }
    requires bare { IsKnown (constructor_name types.now) bare.old.con bare.old.name.now bare.old.word }
    ensures opening { IsKnown (constructor_name types.now) opening.new.con opening.new.name.now opening.new.word }
    ensures bare { IsKnown (constructor_name types.now) bare.new.con bare.new.name.now bare.new.word }
    ensures text { OnOk result (out.new.items ≡ out.old.items ++ node_text (constructor_name types.now) item.now ++ opening_text (reverse due.old.items) (parts_of item.now)) }
    ensures due { OnOk result (reverse due.new.items ≡ opening_due (reverse due.old.items) (parts_of item.now)) }
{
    match *item {
        Item::Int(number) => {
            push_int(out, number)?;
            close(out, due)
        }
        Item::Flag(flag) => {
            push_flag(out, flag)?;
            close(out, due)
        }
        Item::Dia => {
            out.extend_from_slice(b"<>")?;
            close(out, due)
        }
        Item::Con { con, parts } => {
            if parts == 0 {
                push_name(out, types, bare, con, false)?;
                return close(out, due);
            }
            push_name(out, types, opening, con, true)?;
            due.push(parts - 1)?;
            Ok(())
        }
    }
}

/// Writes the text of a value at the end: an int in decimal, with `-` where it is negative; `true` or `false`; `<>` for
/// a diamond; a constructor by its name, and where it has parts, these in parentheses with commas between them. There
/// are no spaces. A constructor that isn't there has the empty name; no value of a kind of these types has one.
/// `AllocError` where memory runs out. What `room` held is lost: it is memory that one call may leave to the next.
#[tactic(auto, using(crate::proofs::PrintLaws::node_written, crate::proofs::PrintLaws::all_written))]
pub fn push_value(
    out: &mut Vec<u8>,
    room: &mut Vec<u8>,
    value: &Flat,
    types: &Types,
) -> Result<(), AllocError>
    ensures { OnOk result (out.new.items ≡ out.old.items ++ value_text (constructor_name types.now) value.now) }
{
    let mut opening = known_of(types, 0);
    let mut bare = opening;
    room.clear();
    'items: for item in value.items() {
        push_node(out, room, types, &mut opening, &mut bare, item)?;
    }
    Ok(())
}

/// The text of a value, as [`push_value`] writes it. `AllocError` where memory runs out.
pub fn print(alloc: Global, value: &Flat, types: &Types) -> Result<Vec<u8>, AllocError>
    ensures { IfOk result (λ text. text.items ≡ value_text (constructor_name types.now) value.now) }
{
    let mut out = Vec::new(alloc);
    push_value(&mut out, &mut Vec::new(alloc), value, types)?;
    Ok(out)
}
