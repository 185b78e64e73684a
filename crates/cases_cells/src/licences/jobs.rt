//! Runs that a licence covers.
ghost use Rattle.std.specs.Prelude.{◌<◌, length, IfOk, IfSome};
ghost use Rattle.grail_code.specs.Code.{code_of};
ghost use Rattle.cases_cells.specs.Covered.{IsReadable, IsReady, AreArguments};

use camelot_values::Flat;
use grail_code::Code;
use grail_verifier::verify;
use licence::Licence;
use std::alloc::Global;
use std::io;
use stops::Stop;
use value_text::{ValueFault, read};

/// A run of licensed code.
#[derive(Drop)]
pub(crate) struct Job {
    pub(crate) licence: Licence,
    pub(crate) entry: u32,
    pub(crate) args: Vec<Flat>,
    pub(crate) fuel: u64,
}

/// The licence of these bytes, where there is one; otherwise what is wrong is printed.
pub(crate) fn licence_of(rt: &HostRuntime, code: &[u8], cert: &[u8]) -> io::Result<Option<Licence>>
    ensures { IfOk result (λ found. IfSome found (λ licence. IsReadable licence.code)) }
{
    if code.len() >= 4_294_967_296 || cert.len() >= 4_294_967_296 {
        print!(rt; " too long")?;
        return Ok(None);
    }
    let code = Vec::from_slice(rt.alloc(), code)?;
    let cert = Vec::from_slice(rt.alloc(), cert)?;
    match verify(rt.alloc(), code, cert) {
        Ok(licence) => {
            licence.kept();
            Ok(Some(licence))
        }
        Err(stop) => {
            print!(rt; " {stop}")?;
            Ok(None)
        }
    }
}

/// The arguments of an entry, of this text.
pub(crate) fn arguments_of(
    alloc: Global,
    code: &Code,
    entry: u32,
    text: &[u8],
) -> Result<Vec<Flat>, Stop<ValueFault>>
    requires there { entry < length (code_of code.now).funcs }
    requires readable { IsReadable (code_of code.now) }
    requires short { length text.now < 4294967296 }
    ensures { IfOk result (λ values. AreArguments (code_of code.now) entry values.items) }
{
    read(alloc, text, &code.types, &code.funcs[entry as usize].params)
}

/// The run of these bytes as code and certificate, with arguments of this text; where it can't be made, the reason is
/// printed.
pub(crate) fn job_of(
    rt: &HostRuntime,
    code: &[u8],
    cert: &[u8],
    entry: u32,
    fuel: u64,
    text: &[u8],
) -> io::Result<Option<Job>>
    ensures { IfOk result (λ found. IfSome found IsReady) }
{
    let licence = match licence_of(rt, code, cert)? {
        Some(licence) => licence,
        None => return Ok(None),
    };
    if entry as usize >= licence.code().funcs.len() || fuel < 1 || text.len() >= 4_294_967_296 {
        print!(rt; " no such run")?;
        return Ok(None);
    }
    match arguments_of(rt.alloc(), licence.code(), entry, text) {
        Ok(args) => Ok(Some(Job {
            licence,
            entry,
            args,
            fuel,
        })),
        Err(_) => {
            print!(rt; " no such arguments")?;
            Ok(None)
        }
    }
}
