//! The stages of the compiler: each takes what the stage before it found, and goes on to the next one.
ghost use Rattle.std.specs.Prelude.{◌≡◌, ◌<◌, ◌^◌, length, IfOk, IfErr};
ghost use Rattle.camelot_tree.specs.Programs.{program_of};
ghost use Rattle.camelot_grammar.specs.Parsing.{HasProgram};
ghost use Rattle.camelot_typing.specs.Typed.{Typing, IsTyping};
ghost use Rattle.camelot_typing.specs.TypedPrograms.{typing_of};
ghost use Rattle.camelot_typing.specs.Settled.{IsSettled};
ghost use Rattle.code_gen.specs.Generated.{compiled};
ghost use Rattle.grail_code.specs.Code.{code_of};
ghost use Rattle.grail_code.specs.Spelling.{Second, FitsCode, spelling};
ghost use Rattle.grail_code.specs.WellFormed.{IsWellFormed};
ghost use Rattle.certificate.specs.Text.{text_of};
ghost use Rattle.stops.specs.declared.stop.Stop.TheVariants.{Memory};
ghost use Rattle.camelot_compiler.specs.Compiled.{Compiled, compiled_of, IsCertified, IsGenerated, IsLinear, IsTyped, IsCompiled, IsSo, Answers};
ghost use Rattle.camelot_compiler.specs.Stages.{parse_fault, type_fault, use_fault, normal_fault, inference_fault, Stands};

use camelot_syntax::{ParseFault, Program, parse};
use camelot_types::{TypeFault, check_program};
use camelot_typing::Typed;
use camelot_typing::laws::law_of_one_typing;
use cause_texts::Cause;
use certificate::{Cert, write_cert};
use grail_bundle::Bundle;
use grail_code::{Code, encode};
use linear_use::{Linear, UseFault, check_use};
use lp_constraints::{NoCert, infer};
use normal_form::NormalFault;
use std::alloc::Global;
use stops::Stop;

fn parse_fault(stop: Stop<ParseFault>) -> Stop<Cause>
    ensures { result ≡ parse_fault stop }
{
    match stop {
        Stop::Fault(fault) => Stop::Fault(Cause::Parse(fault)),
        Stop::Memory => Stop::Memory,
    }
}

fn type_fault(stop: Stop<TypeFault>) -> Stop<Cause>
    ensures { result ≡ type_fault stop }
{
    match stop {
        Stop::Fault(fault) => Stop::Fault(Cause::Types(fault)),
        Stop::Memory => Stop::Memory,
    }
}

fn use_fault(stop: Stop<UseFault>) -> Stop<Cause>
    ensures { result ≡ use_fault stop }
{
    match stop {
        Stop::Fault(fault) => Stop::Fault(Cause::Uses(fault)),
        Stop::Memory => Stop::Memory,
    }
}

fn normal_fault(stop: Stop<NormalFault>) -> Stop<Cause>
    ensures { result ≡ normal_fault stop }
{
    match stop {
        Stop::Fault(fault) => Stop::Fault(Cause::Normal(fault)),
        Stop::Memory => Stop::Memory,
    }
}

fn inference_fault(stop: Stop<NoCert>) -> Stop<Cause>
    ensures { result ≡ inference_fault stop }
{
    match stop {
        Stop::Fault(fault) => Stop::Fault(Cause::NoCert(fault)),
        Stop::Memory => Stop::Memory,
    }
}

// Code with its certificate, as bytes.
fn bundle(alloc: Global, code: &Code, cert: &Cert) -> Result<Bundle, Stop<Cause>>
    requires { FitsCode Second (code_of code.now) }
    ensures code { IfOk result (λ b. b.code ≡ spelling Second (code_of code.now)) }
    ensures cert { IfOk result (λ b. b.cert ≡ text_of cert.now) }
    ensures memory { IfErr result (λ fault. fault ≡ Memory) }
{
    let code = encode(alloc, code)?;
    let cert = write_cert(alloc, cert)?;
    Ok(Bundle::new(code, cert))
}

// The certificate of code, and the bundle of both.
#[tactic(auto, using(crate::proofs::Named::fits_named))]
fn certify(alloc: Global, code: &Code) -> Result<Bundle, Stop<Cause>>
    requires well { IsWellFormed (code_of code.now) }
    requires fits { FitsCode Second (code_of code.now) }
    ensures found { IsSo (IsCertified (code_of code.now)) (compiled_of result) }
    ensures exact { (answer : Compiled) → IsCertified (code_of code.now) answer → Answers (compiled_of result) answer }
    ensures stands { Stands (compiled_of result) (code_of code.now) }
{
    match infer(alloc, code) {
        Ok(cert) => {
            cert.limits();
            bundle(alloc, code, &cert)
        }
        Err(stop) => Err(inference_fault(stop)),
    }
}

// The code of a program that keeps the rule of use.
fn compile_linear(alloc: Global, linear: &Linear) -> Result<Bundle, Stop<Cause>>
    ensures found { IsSo (IsGenerated (typing_of linear.now.typed)) (compiled_of result) }
    ensures exact { (answer : Compiled) → IsGenerated (typing_of linear.now.typed) answer → Answers (compiled_of result) answer }
    ensures stands { Stands (compiled_of result) (compiled (typing_of linear.now.typed)) }
{
    match code_gen::compile(alloc, linear) {
        Ok(code) => certify(alloc, &code),
        Err(stop) => Err(normal_fault(stop)),
    }
}

// The rule of use of a typed program.
fn compile_typed(alloc: Global, typed: Typed) -> Result<Bundle, Stop<Cause>>
    ensures found { IsSo (IsLinear (typing_of typed)) (compiled_of result) }
    ensures exact { (answer : Compiled) → IsLinear (typing_of typed) answer → Answers (compiled_of result) answer }
    ensures stands { Stands (compiled_of result) (compiled (typing_of typed)) }
{
    match check_use(alloc, typed) {
        Ok(linear) => compile_linear(alloc, &linear),
        Err(stop) => Err(use_fault(stop)),
    }
}

// The types of a program.
fn compile_program(alloc: Global, program: Program) -> Result<Bundle, Stop<Cause>>
    ensures found { IsSo (IsTyped (program_of program)) (compiled_of result) }
    ensures exact { (answer : Compiled) → IsTyped (program_of program) answer → Answers (compiled_of result) answer }
    ensures stands { (t : Typing) → t.source ≡ program_of program → IsTyping t → IsSettled t → Stands (compiled_of result) (compiled t) }
{
    law_of_one_typing();
    match check_program(alloc, program) {
        Ok(typed) => compile_typed(alloc, typed),
        Err(stop) => Err(type_fault(stop)),
    }
}

/// The program of a text, and all that comes behind.
pub(crate) fn compile_text(alloc: Global, text: &[u8]) -> Result<Bundle, Stop<Cause>>
    requires { length text.now < 2 ^ 32 }
    ensures found { IsSo (IsCompiled text.now) (compiled_of result) }
    ensures exact { (answer : Compiled) → IsCompiled text.now answer → Answers (compiled_of result) answer }
    ensures stands { (t : Typing) → HasProgram text.now t.source → IsTyping t → IsSettled t → Stands (compiled_of result) (compiled t) }
{
    match parse(alloc, text) {
        Ok(program) => compile_program(alloc, program),
        Err(stop) => Err(parse_fault(stop)),
    }
}
