//! Facts of the normal form, as the contracts of functions that do nothing.
ghost use Rattle.std.specs.Prelude.{◌≤◌, length};
ghost use Rattle.std.specs.List.{AllByRecursion};
ghost use Rattle.camelot_tree.specs.Programs.{program_of};
ghost use Rattle.camelot_typing.specs.Kinds.{types_of};
ghost use Rattle.camelot_typing.specs.Typed.{IsTyping, Typing};
ghost use Rattle.linear_use.specs.Answers.{KeepsRule};
ghost use Rattle.normal_form.specs.Normal.{normal_form};
ghost use Rattle.normal_form.specs.Coded.{BlockParams};
ghost use Rattle.normal_form.specs.Facts.{AreCounted, FitsAsCode, TablesFit, UsesFairly};

use camelot_typing::Typed;
use camelot_typing::laws::law_of_kinds;

/// The normal form of a typed program that keeps the rule of use reads no local before it is bound, and takes none that
/// is owned twice, or in front of where it is read.
pub fn law_of_use()
    ensures { (t : Typing) → IsTyping t → KeepsRule t → AllByRecursion (UsesFairly (normal_form t)) (normal_form t).functions }
{
    law_of_kinds();
}

/// It fits as code, whatever the parameters of its blocks: all that the rules of well-formed code say but for the uses
/// of locals.
pub fn law_of_fits()
    ensures { (takes : BlockParams) (t : Typing) → IsTyping t → KeepsRule t → AllByRecursion (FitsAsCode takes (normal_form t)) (normal_form t).functions }
{
    law_of_kinds();
}

/// Its tables are those of the program, so that no name stands twice and each field's type is there.
pub fn law_of_tables()
    ensures { (t : Typing) → IsTyping t → TablesFit (normal_form t) }
{}

/// It has as many locals and blocks as are counted beforehand, and few lets in a block.
pub fn law_of_sizes()
    ensures { (t : Typing) → IsTyping t → AreCounted t.source t.source.funs (normal_form t).functions }
{
    law_of_kinds();
}

/// A function of a typed program has at most 16 parameters.
pub fn law_of_params(typed: &Typed)
    ensures { AllByRecursion (λ f. length f.params ≤ 16) (program_of typed.now.program).funs }
{
    let _funs = typed.funs.len();
}
