//! Laws of the definitions. Each function does nothing: its clauses are the laws.

ghost use Rattle.std.specs.Prelude.{◌≡◌, ◌⊎◌, ℕ, List, ◌∷◌, ◌++◌, [], length, take, get_or, Some, IsTrue};
ghost use Rattle.camelot_grammar.specs.declared.fault.ParseFault.{ParseFault};
ghost use Rattle.camelot_grammar.specs.declared.lexeme.Lexeme.{Lexeme};
ghost use Rattle.camelot_tree.specs.Tree.{Source};
ghost use Rattle.camelot_grammar.specs.Grammar.{Decls, spell_decls};
ghost use Rattle.camelot_grammar.specs.Levels.{levels_decls};
ghost use Rattle.text_scan.specs.declared.tokens.Token.{Token};
ghost use Rattle.text_scan.specs.Reading.{IsSliceOf};
ghost use Rattle.std.specs.List.{AllByRecursion};
ghost use Rattle.camelot_tree.specs.Shape.{is_whole};
ghost use Rattle.camelot_tree.specs.Tokens.{is_named, has_ints};
ghost use Rattle.camelot_grammar.specs.Lexemes.{lexeme_at, IsReal};
ghost use Rattle.camelot_grammar.specs.Machine.{runs, start, fault_of, Yes};
ghost use Rattle.camelot_grammar.specs.Parsing.{IsProgram, BeginsProgram, IsFaultAmong, place_of};

/// Tokens are a program or have a fault, not both, and only one program or one fault. `last` is the line of the text's
/// last byte.
pub fn one_answer()
    // Tokens are a program, or have a fault.
    ensures some { (tokens : List Lexeme) (last : ℕ)
        → ((source : Source) × IsProgram tokens source) ⊎ ((fault : ParseFault) × IsFaultAmong tokens last fault) }
    // They aren't both.
    ensures not_both { (tokens : List Lexeme) (last : ℕ) (source : Source) (fault : ParseFault)
        → IsProgram tokens source → IsFaultAmong tokens last fault → ⊥ }
    // They are one program at most.
    ensures program { (tokens : List Lexeme) (first second : Source)
        → IsProgram tokens first → IsProgram tokens second → first ≡ second }
    // They have one fault at most.
    ensures fault { (tokens : List Lexeme) (last : ℕ) (first second : ParseFault)
        → IsFaultAmong tokens last first → IsFaultAmong tokens last second → first ≡ second }
{}

/// The tokens before a fault begin a program.
#[tactic(auto, using(crate::proofs::LawLemmas::before_fault))]
pub fn tokens_before_a_fault()
    ensures { (tokens : List Lexeme) (last : ℕ) (fault : ParseFault)
        → IsFaultAmong tokens last fault → BeginsProgram (take (place_of fault) tokens) }
{}

/// The level of a token is settled by the tokens up to it.
#[tactic(auto, using(crate::proofs::LawLemmas::level_of_front))]
pub fn level_of_a_token()
    ensures { (before : List Lexeme) (token : Lexeme) (one other : List Lexeme) (first second : Decls)
        → spell_decls first [] ≡ before ++ token ∷ one → spell_decls second [] ≡ before ++ token ∷ other
        → get_or (levels_decls first []) (length before) 0 ≡ get_or (levels_decls second []) (length before) 0 }
{}

/// What tokens are as the grammar sees them: no token of a text is the end of the text, names have their forms, and a
/// number is below the greatest one.
#[tactic(auto, using(crate::proofs::LexemeLemmas::slice_real))]
pub fn tokens_of_a_text()
    ensures { (text : List ℕ) (token : Token) → IsSliceOf text token → IsReal (lexeme_at text token) }
{}

/// The machine that reads token by token answers the program that tokens are, or their fault. `last` is the line of the
/// text's last byte.
pub fn answers_of_the_machine()
    // A program that the machine answers is the one that the tokens are.
    ensures program { (tokens : List Lexeme) (source : Source) → runs start [] tokens ≡ Yes source → IsProgram tokens source }
    // The program that the tokens are is answered.
    ensures takes { (tokens : List Lexeme) (source : Source) → IsProgram tokens source → runs start [] tokens ≡ Yes source }
    // A fault that the machine answers is the tokens'.
    ensures fault { (tokens : List Lexeme) (last : ℕ) (fault : ParseFault)
        → fault_of (length tokens) last (runs start [] tokens) ≡ Some fault → IsFaultAmong tokens last fault }
    // The fault that the tokens have is answered.
    ensures refuses { (tokens : List Lexeme) (last : ℕ) (fault : ParseFault)
        → IsFaultAmong tokens last fault → fault_of (length tokens) last (runs start [] tokens) ≡ Some fault }
{}

/// What tokens give of the program that they are. Each type has a constructor, each function a parameter and each match
/// an arm, and an inline constructor has no fields; names have the forms of their tokens, and literals 32 bits.
pub fn tokens_give_form()
    // Types have constructors, functions parameters, and matches arms; inline constructors have no fields.
    ensures whole { (tokens : List Lexeme) (source : Source) → IsProgram tokens source → IsTrue (is_whole source) }
    // Names have the forms of their tokens.
    ensures named { (tokens : List Lexeme) (source : Source) → AllByRecursion IsReal tokens → IsProgram tokens source → IsTrue (is_named source) }
    // Literals have 32 bits.
    ensures ints { (tokens : List Lexeme) (source : Source) → AllByRecursion IsReal tokens → IsProgram tokens source → IsTrue (has_ints source) }
{}
