ghost use Rattle.std.specs.Prelude.{◌≡◌, ◌<◌, ◌^◌, ◌⊎◌, List, length, IfOk, IfErr, MatchResult};
ghost use Rattle.std.specs.List.{All};
ghost use Rattle.text_scan.specs.declared.tokens.Token.{Token};
ghost use Rattle.text_scan.specs.declared.fault.ScanFault.{ScanFault};
ghost use Rattle.text_scan.specs.Reading.{AreTokensOf, IsFaultOf, IsSliceOf};
ghost use Rattle.camelot_grammar.specs.declared.fault.ParseFault.{ParseFault};
ghost use Rattle.camelot_grammar.specs.declared.fault.ParseFault.TheVariants.{Scan};
ghost use Rattle.stops.specs.declared.stop.Stop.TheVariants.{Fault, Memory};
ghost use Rattle.stops.specs.Stopping.{FaultIs};
ghost use Rattle.camelot_grammar.specs.Lexemes.{lexemes};
ghost use Rattle.camelot_tree.specs.Tree.{Source};
ghost use Rattle.camelot_tree.specs.Programs.{program_of};
ghost use Rattle.camelot_grammar.specs.Parsing.{IsProgram, IsFaultAmong, HasProgram, HasCause, last_line};
ghost use Rattle.camelot_syntax.specs.Answers.{Runs, Parses};

use crate::parser::run;
use camelot_grammar::ParseFault;
use camelot_grammar::laws::{answers_of_the_machine, tokens_give_form, tokens_of_a_text};
use camelot_tree::Program;
use std::alloc::Global;
use stops::Stop;
use text_scan::{Token, scan};

// The program that the tokens of a text are.
fn parse_tokens(alloc: Global, text: &[u8], tokens: &[Token]) -> Result<Program, Stop<ParseFault>>
    requires { All (IsSliceOf text.now) tokens.now }
    ensures { Runs text.now tokens.now result }
{
    answers_of_the_machine();
    tokens_give_form();
    tokens_of_a_text();
    let decls = run(alloc, text, tokens)?;
    Ok(Program {
        types: decls.types,
        funs: decls.funs,
    })
}

// The program that a text is, or its fault.
fn parse_text(alloc: Global, text: &[u8]) -> Result<Program, Stop<ParseFault>>
    requires { length text.now < 2 ^ 32 }
    ensures { Parses text.now result }
{
    answers_of_the_machine();
    match scan(alloc, text) {
        Ok(tokens) => parse_tokens(alloc, text, &tokens),
        Err(Stop::Fault(fault)) => Err(Stop::Fault(ParseFault::Scan(fault))),
        Err(Stop::Memory) => Err(Stop::Memory),
    }
}

/// The program that a text is.
///
/// # Errors
///
/// [`ParseFault::Scan`] where the text can't be read as tokens. Otherwise the fault stands at the first token with
/// which no program goes on, or whose level is above 200: [`ParseFault::TooDeep`] where a program goes on with it; else
/// [`ParseFault::TypeParameter`] at a type variable, and [`ParseFault::Unexpected`] at any other token and at the end
/// of the text. [`Stop::Memory`] where memory runs out.
pub fn parse(alloc: Global, text: &[u8]) -> Result<Program, Stop<ParseFault>>
    requires { length text.now < 2 ^ 32 }

    // The answer is the program that the text's tokens are, each within 200 levels, or the fault.
    ensures program { IfOk result (λ program. HasProgram text.now (program_of program)) }
    // A fault that is answered is the text's.
    ensures fault { IfErr result (FaultIs (HasCause text.now)) }

    // Tokens that are a program are taken as this program, and tokens that aren't are refused for their fault, unless
    // memory runs out. A text that can't be read as tokens is refused for the first fault of its reading.
    ensures takes { (tokens : List Token) (source : Source) → AreTokensOf text.now tokens → IsProgram (lexemes text.now tokens) source
        → MatchResult result (λ program. program_of program ≡ source) (λ found. found ≡ Memory) }
    // Tokens with a fault are refused for it, unless memory runs out.
    ensures refuses { (tokens : List Token) (fault : ParseFault) → AreTokensOf text.now tokens
        → IsFaultAmong (lexemes text.now tokens) (last_line text.now) fault
        → MatchResult result (λ _. ⊥) (λ found. (found ≡ Fault fault) ⊎ (found ≡ Memory)) }
    // A text that can't be read as tokens is refused for that, unless memory runs out.
    ensures scans { (fault : ScanFault) → IsFaultOf text.now fault
        → MatchResult result (λ _. ⊥) (λ found. (found ≡ Fault (Scan fault)) ⊎ (found ≡ Memory)) }
{
    parse_text(alloc, text)
}
