//! Laws of typing, as the contracts of functions that do nothing.
ghost use Rattle.std.specs.Prelude.{◌≡◌, ℕ, Bool, true, List, Some, slice_get, IsTrue};
ghost use Rattle.camelot_values.specs.Value.{Value};
ghost use Rattle.camelot_values.specs.Kinds.{DataType, type_of};
ghost use Rattle.camelot_values.specs.Lists.{is_among};
ghost use Rattle.camelot_values.specs.Typing.{ArgumentsFit, Fits, IsSafe};
ghost use Rattle.camelot_values.specs.Bounds.{Yields};
ghost use Rattle.camelot_values.specs.Runs.{Enter, calls};
ghost use Rattle.camelot_values.specs.declared.kinds.Kind.{Kind};
ghost use Rattle.camelot_tree.specs.declared.tree.Name.{Name};
ghost use Rattle.camelot_tree.specs.Tree.{Expression, Expressions, Source};
ghost use Rattle.camelot_tree.specs.Tokens.{expression_has_ints, expressions_have_ints, has_ints};
ghost use Rattle.camelot_tree.specs.Meaning.{Environment, bodies, eval, eval_all, run_of};
ghost use Rattle.camelot_tree.specs.Meaning as meaning;
ghost use Rattle.camelot_typing.specs.Kinds.{Globals, Scope, atom_of, types_of, constructor_number, numbers_of};
ghost use Rattle.camelot_typing.specs.Typing.{FunctionsFit, HasKind, HaveKinds, IsTyped, Signature, globals_of, known_kind};
ghost use Rattle.camelot_typing.specs.Typed.{Typing, typing_kinds, IsTyping};
ghost use Rattle.camelot_typing.specs.Fitting.{CallsFit, Scoped};
ghost use Rattle.camelot_typing.specs.Settled.{IsSettled};

/// A typed program on fitting arguments is never stuck, whatever the fuel and the limit of waiting calls: a run comes
/// to a value of the function's result kind, stops on fuel or depth, or is trapped. So every name that is read has a
/// value of its kind, each function and constructor that is named is declared, each value that is taken apart has an
/// arm, what is named behind `@` is a diamond, and each int has 32 bits.
pub fn law_of_typing()
    ensures { (p : Source) (sigs : List Signature) (limit func fuel : ℕ) (args : List Value) (s : Signature) → IsTyped p sigs
        → slice_get sigs func ≡ Some s → ArgumentsFit (types_of p) s.params args → IsSafe (types_of p) s.result (run_of p limit func fuel args) }
{}

/// The same of each expression, and of arguments: where each name in scope has a value of its kind and calls come to
/// values of theirs, an expression comes to a value of its kind, or stops; and calls do come to such values.
pub fn law_of_expressions()
    // Where names in scope and calls have values of their kinds, an expression comes to a value of its kind, or stops.
    ensures expression { (p : Source) (sigs : List Signature) (enter : Enter) (e : Expression) (s : Scope Kind)
        (k : Kind) (fuel waits : ℕ) (tail : Bool) (env : Environment)
        → FunctionsFit p (globals_of p sigs) p.funs sigs → CallsFit p sigs enter → Scoped (types_of p) s env → expression_has_ints e ≡ true
        → HasKind (globals_of p sigs) s e k → Yields (Fits (types_of p) k) (eval p enter e fuel waits tail env) }
    // The same of the arguments of a call, each of its own kind.
    ensures arguments { (p : Source) (sigs : List Signature) (enter : Enter) (es : Expressions) (s : Scope Kind)
        (kinds : List Kind) (fuel waits : ℕ) (env : Environment)
        → FunctionsFit p (globals_of p sigs) p.funs sigs → CallsFit p sigs enter → Scoped (types_of p) s env → expressions_have_ints es ≡ true
        → HaveKinds (globals_of p sigs) s es kinds → Yields (ArgumentsFit (types_of p) kinds) (eval_all p enter es fuel waits env) }
    // Calls of a typed program come to values of their results' kinds, or stop.
    ensures calls { (p : Source) (sigs : List Signature) (limit clock : ℕ) → FunctionsFit p (globals_of p sigs) p.funs sigs → IsTrue (has_ints p)
        → CallsFit p sigs (calls (bodies p) limit clock) }
{}

/// An expression has at most one kind in a scope, and it is the one that is computed without looking at the rules.
#[tactic(auto, using(crate::proofs::Determined::one_kind, crate::proofs::Determined::kind_is_atom))]
pub fn law_of_kinds()
    // An expression has at most one kind in a scope.
    ensures one { (g : Globals Kind) (s : Scope Kind) (e : Expression) (k q : Kind) → HasKind g s e k → HasKind g s e q → k ≡ q }
    // It is the kind that is computed without looking at the rules.
    ensures computed { (g : Globals Kind) (s : Scope Kind) (e : Expression) (k : Kind) → HasKind g s e k → k ≡ atom_of known_kind g s e }
{}

/// The kinds of a program are a function of it: it has one typing that is settled, so the kinds of its functions'
/// parameters, of their results and of all expressions are the same whoever finds them.
#[tactic(auto, using(crate::proofs::OneTyping::one_typing, crate::proofs::OneTyping::one_kinds))]
pub fn law_of_one_typing()
    // Two settled typings of one program are the same.
    ensures typing { (t u : Typing) → t.source ≡ u.source → IsTyping t → IsSettled t → IsTyping u → IsSettled u → t ≡ u }
    // So are the kinds of all expressions.
    ensures kinds { (t u : Typing) → t.source ≡ u.source → IsTyping t → IsSettled t → IsTyping u → IsSettled u → typing_kinds t ≡ typing_kinds u }
{}

/// A constructor has the same number among a program's constructors, by which values have it, and among those of its
/// types with the kinds of their fields; and a constructor that belongs to a type is among that type's.
#[tactic(auto, using(crate::specs::NumberLaws::number_same, crate::specs::NumberLaws::is_among_numbers))]
pub fn law_of_numbers()
    // A constructor's number among the types is the one by which values have it.
    ensures same { (p : Source) (con : Name) → constructor_number (types_of p) con.word ≡ meaning.constructor_number p con }
    // A constructor that belongs to a type is among that type's constructors.
    ensures among { (types : List DataType) (con number : ℕ) → type_of types con ≡ Some number → IsTrue (is_among (numbers_of types number) con) }
{}
