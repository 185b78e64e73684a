//! Texts of the faults of code and certificates.
ghost use Rattle.std.specs.Prelude.{◌≡◌, ◌++◌, codes, decimal, IfOk};
ghost use Rattle.cause_texts.specs.Texts.{decode_text, kind_word, code_text, cert_text, refusal_text};

use crate::pieces::{numbered, push_number};
use certificate::CertFault;
use grail_check::{CodeFault, CodeKind};
use grail_code::DecodeFault;
use grail_verifier::Refusal;
use std::alloc::{AllocError, Global};

#[tactic(auto, unfolding(crate::specs::Texts::decode_text))]
fn decode_text(alloc: Global, fault: &DecodeFault) -> Result<Vec<u8>, AllocError>
    ensures { IfOk result (λ text. text.items ≡ decode_text fault.now) }
{
    match fault {
        DecodeFault::Short => Vec::from_slice(alloc, b"code short"),
        DecodeFault::Bad { at } => numbered(alloc, b"code bad at ", *at),
    }
}

#[tactic(auto, unfolding(crate::specs::Texts::kind_word))]
fn kind_word(kind: CodeKind) -> &'static [u8]
    ensures { result.now ≡ kind_word kind }
{
    match kind {
        CodeKind::NoSuchEntry => b"nosuchentry",
        CodeKind::Backward => b"backward",
        CodeKind::Unbound => b"unbound",
        CodeKind::Spent => b"spent",
        CodeKind::Kind => b"kind",
        CodeKind::Arms => b"arms",
        CodeKind::Place => b"place",
        CodeKind::Header => b"header",
        CodeKind::Name => b"name",
        CodeKind::Lent => b"lent",
    }
}

#[tactic(auto, unfolding(crate::specs::Texts::code_text))]
fn code_text(alloc: Global, fault: &CodeFault) -> Result<Vec<u8>, AllocError>
    ensures { IfOk result (λ text. text.items ≡ code_text fault.now) }
{
    let mut text = Vec::from_slice(alloc, b"code ")?;
    text.extend_from_slice(kind_word(fault.kind))?;
    push_number(&mut text, b" function ", fault.func as u64)?;
    push_number(&mut text, b" block ", fault.block as u64)?;
    push_number(&mut text, b" place ", fault.place as u64)?;
    Ok(text)
}

#[tactic(auto, unfolding(crate::specs::Texts::cert_text))]
fn cert_text(alloc: Global, fault: &CertFault) -> Result<Vec<u8>, AllocError>
    ensures { IfOk result (λ text. text.items ≡ cert_text fault.now) }
{
    match fault {
        CertFault::Line { number } => numbered(alloc, b"certificate line ", *number),
        CertFault::Number { line } => numbered(alloc, b"certificate number line ", *line),
    }
}

// A function and a block.
fn block_text(alloc: Global, label: &[u8], func: u64, block: u64) -> Result<Vec<u8>, AllocError>
    ensures { IfOk result (λ text. text.items ≡ label.now ++ decimal func ++ codes " block " ++ decimal block) }
{
    let mut text = numbered(alloc, label, func)?;
    push_number(&mut text, b" block ", block)?;
    Ok(text)
}

// A place.
fn place_text(
    alloc: Global,
    label: &[u8],
    func: u64,
    block: u64,
    place: u64,
) -> Result<Vec<u8>, AllocError>
    ensures { IfOk result (λ text. text.items ≡ label.now ++ decimal func ++ codes " block " ++ decimal block ++ codes " place " ++ decimal place) }
{
    let mut text = block_text(alloc, label, func, block)?;
    push_number(&mut text, b" place ", place)?;
    Ok(text)
}

// What there is and what is needed, behind a place.
fn with_need(mut text: Vec<u8>, have: u64, need: u64) -> Result<Vec<u8>, AllocError>
    ensures { IfOk result (λ whole. whole.items ≡ text.items ++ codes " have " ++ decimal have ++ codes " need " ++ decimal need) }
{
    push_number(&mut text, b" have ", have)?;
    push_number(&mut text, b" need ", need)?;
    Ok(text)
}

// A place, and a constructor of which a value there has too few units.
fn con_text(
    alloc: Global,
    func: u64,
    block: u64,
    place: u64,
    con: u64,
) -> Result<Vec<u8>, AllocError>
    ensures { IfOk result (λ text. text.items ≡ codes "weak function " ++ decimal func ++ codes " block "
        ++ decimal block ++ codes " place " ++ decimal place ++ codes " con " ++ decimal con) }
{
    let mut text = place_text(alloc, b"weak function ", func, block, place)?;
    push_number(&mut text, b" con ", con)?;
    Ok(text)
}

#[tactic(auto, unfolding(crate::specs::Texts::refusal_text))]
pub(crate) fn refusal_text(alloc: Global, fault: &Refusal) -> Result<Vec<u8>, AllocError>
    ensures { IfOk result (λ text. text.items ≡ refusal_text fault.now) }
{
    match fault {
        Refusal::Code(fault) => decode_text(alloc, fault),
        Refusal::Kinds(fault) => code_text(alloc, fault),
        Refusal::Cert(fault) => cert_text(alloc, fault),
        Refusal::Shape { func, block } => block_text(alloc, b"shape function ", *func, *block),
        Refusal::Need {
            func,
            block,
            place,
            have,
            need,
        } => {
            let text = place_text(alloc, b"need function ", *func, *block, *place)?;
            with_need(text, *have, *need)
        }
        Refusal::Weak {
            func,
            block,
            place,
            con,
            have,
            need,
        } => {
            let text = con_text(alloc, *func, *block, *place, *con)?;
            with_need(text, *have, *need)
        }
    }
}
