//! Texts of the faults of sources.
ghost use Rattle.std.specs.Prelude.{◌≡◌, ◌++◌, codes, decimal, IfOk};
ghost use Rattle.cause_texts.specs.Texts.{scan_text, parse_text, type_text, use_text, normal_text, inference_text};

use crate::pieces::{named, named_at, named_having, numbered, push_bytes, push_number};
use camelot_grammar::ParseFault;
use camelot_types::TypeFault;
use camelot_values::Word;
use linear_use::UseFault;
use lp_constraints::NoCert;
use normal_form::NormalFault;
use std::alloc::{AllocError, Global};
use text_scan::ScanFault;

#[tactic(auto, unfolding(crate::specs::Texts::scan_text))]
fn scan_text(alloc: Global, fault: &ScanFault) -> Result<Vec<u8>, AllocError>
    ensures { IfOk result (λ text. text.items ≡ scan_text fault.now) }
{
    match fault {
        ScanFault::BadCharacter { at } => numbered(alloc, b"bad-character at ", *at),
        ScanFault::OpenComment { at } => numbered(alloc, b"open-comment at ", *at),
        ScanFault::LongNumber { at } => numbered(alloc, b"long-number at ", *at),
        ScanFault::LongName { at } => numbered(alloc, b"long-name at ", *at),
    }
}

// A fault at a token.
fn token_text(alloc: Global, label: &[u8], token: u64, line: u64) -> Result<Vec<u8>, AllocError>
    ensures { IfOk result (λ text. text.items ≡ label.now ++ decimal token ++ codes " line " ++ decimal line) }
{
    let mut text = numbered(alloc, label, token)?;
    push_number(&mut text, b" line ", line)?;
    Ok(text)
}

#[tactic(auto, unfolding(crate::specs::Texts::parse_text))]
pub(crate) fn parse_text(alloc: Global, fault: &ParseFault) -> Result<Vec<u8>, AllocError>
    ensures { IfOk result (λ text. text.items ≡ parse_text fault.now) }
{
    match fault {
        ParseFault::Scan(fault) => scan_text(alloc, fault),
        ParseFault::Unexpected { token, line } => {
            token_text(alloc, b"unexpected token ", *token, *line)
        }
        ParseFault::TooDeep { token, line } => {
            token_text(alloc, b"too-deep token ", *token, *line)
        }
        ParseFault::TypeParameter { token, line } => {
            token_text(alloc, b"type-parameter token ", *token, *line)
        }
    }
}

// What there is and what is needed.
fn arity_text(
    alloc: Global,
    name: &Word,
    have: u64,
    need: u64,
    line: u64,
) -> Result<Vec<u8>, AllocError>
    ensures { IfOk result (λ text. text.items ≡ codes "arity " ++ name.now ++ codes " have " ++ decimal have
        ++ codes " need " ++ decimal need ++ codes " line " ++ decimal line) }
{
    let mut text = named_having(alloc, b"arity ", name, have)?;
    push_number(&mut text, b" need ", need)?;
    push_number(&mut text, b" line ", line)?;
    Ok(text)
}

// Two types that differ.
fn clash_text(alloc: Global, left: &Word, right: &Word, line: u64) -> Result<Vec<u8>, AllocError>
    ensures { IfOk result (λ text. text.items ≡ codes "clash " ++ left.now ++ codes " " ++ right.now ++ codes " line " ++ decimal line) }
{
    let mut text = named(alloc, b"clash ", left)?;
    push_bytes(&mut text, b" ", right.bytes())?;
    push_number(&mut text, b" line ", line)?;
    Ok(text)
}

// More than there may be.
fn count_text(
    alloc: Global,
    label: &[u8],
    name: &Word,
    have: u64,
    line: u64,
) -> Result<Vec<u8>, AllocError>
    ensures { IfOk result (λ text. text.items ≡ label.now ++ name.now ++ codes " have " ++ decimal have ++ codes " line " ++ decimal line) }
{
    let mut text = named_having(alloc, label, name, have)?;
    push_number(&mut text, b" line ", line)?;
    Ok(text)
}

#[tactic(auto, unfolding(crate::specs::Texts::type_text))]
pub(crate) fn type_text(alloc: Global, fault: &TypeFault) -> Result<Vec<u8>, AllocError>
    ensures { IfOk result (λ text. text.items ≡ type_text fault.now) }
{
    match fault {
        TypeFault::UnknownName { name, line } => named_at(alloc, b"unknown-name ", name, *line),
        TypeFault::UnknownType { name, line } => named_at(alloc, b"unknown-type ", name, *line),
        TypeFault::Duplicate { name, line } => named_at(alloc, b"duplicate ", name, *line),
        TypeFault::Arity {
            name,
            have,
            need,
            line,
        } => arity_text(alloc, name, *have, *need, *line),
        TypeFault::Clash { left, right, line } => clash_text(alloc, left, right, *line),
        TypeFault::MissingArm { con, line } => named_at(alloc, b"missing-arm ", con, *line),
        TypeFault::RepeatedArm { con, line } => named_at(alloc, b"repeated-arm ", con, *line),
        TypeFault::TooManyFields { con, have, line } => {
            count_text(alloc, b"too-many-fields ", con, *have, *line)
        }
        TypeFault::PlaceOnInline { con, line } => named_at(alloc, b"place-on-inline ", con, *line),
        TypeFault::TooMany { what, have, line } => {
            count_text(alloc, b"too-many ", what, *have, *line)
        }
    }
}

#[tactic(auto, unfolding(crate::specs::Texts::use_text))]
pub(crate) fn use_text(alloc: Global, fault: &UseFault) -> Result<Vec<u8>, AllocError>
    ensures { IfOk result (λ text. text.items ≡ use_text fault.now) }
{
    match fault {
        UseFault::Twice { name, line } => named_at(alloc, b"twice ", name, *line),
        UseFault::ReadMatch { name, line } => named_at(alloc, b"read-match ", name, *line),
        UseFault::Lent { name, line } => named_at(alloc, b"lent ", name, *line),
        UseFault::ReadResult { name, line } => named_at(alloc, b"read-result ", name, *line),
    }
}

#[tactic(auto, unfolding(crate::specs::Texts::normal_text))]
pub(crate) fn normal_text(alloc: Global, fault: &NormalFault) -> Result<Vec<u8>, AllocError>
    ensures { IfOk result (λ text. text.items ≡ normal_text fault.now) }
{
    match fault {
        NormalFault::TooManyLocals { name, have } => {
            named_having(alloc, b"too-many-locals ", name, *have)
        }
        NormalFault::TooManyBlocks { name, have } => {
            named_having(alloc, b"too-many-blocks ", name, *have)
        }
    }
}

// More unknowns or rows than are solved.
fn size_text(alloc: Global, unknowns: u64, rows: u64) -> Result<Vec<u8>, AllocError>
    ensures { IfOk result (λ text. text.items ≡ codes "too-many-unknowns " ++ decimal unknowns ++ codes " rows " ++ decimal rows) }
{
    let mut text = numbered(alloc, b"too-many-unknowns ", unknowns)?;
    push_number(&mut text, b" rows ", rows)?;
    Ok(text)
}

#[tactic(auto, unfolding(crate::specs::Texts::inference_text))]
pub(crate) fn inference_text(alloc: Global, fault: &NoCert) -> Result<Vec<u8>, AllocError>
    ensures { IfOk result (λ text. text.items ≡ inference_text fault.now) }
{
    match fault {
        NoCert::TooMany { unknowns, rows } => size_text(alloc, *unknowns, *rows),
        NoCert::NoBound => Vec::from_slice(alloc, b"no-bound"),
        NoCert::Wide => Vec::from_slice(alloc, b"wide"),
        NoCert::Spent => Vec::from_slice(alloc, b"spent"),
    }
}
