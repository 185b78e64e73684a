//! What is known of each program of a script, found by the program's name.
ghost use Rattle.std.specs.Prelude.{◌≡◌, map};
ghost use Rattle.std.specs.Option.{option_map};
ghost use Rattle.script_plans.specs.Rows.{row_of, row_among};

use job_script::Language;
use value_text::Inhabited;

/// What is known of a program that has a licence: the licence's number, and which of its types have values.
#[derive(Drop)]
pub struct Known {
    pub licence: u32,
    pub inhabited: Inhabited,
}

/// A program of a script: its name, its language, its text, and what is known of it, where it isn't refused.
#[derive(Drop)]
pub struct Row<'a> {
    pub name: &'a [u8],
    pub language: Language,
    pub text: &'a [u8],
    pub known: Option<Known>,
}

/// The first program of this name. There are at most 64.
#[tactic(auto, using(crate::proofs::Finding::here, crate::proofs::Finding::later))]
pub(crate) fn find<'a, 'b>(rows: &'a [Row<'b>], name: &[u8]) -> Option<&'a Row<'b>>
    ensures { option_map (λ r. row_of r.now) result ≡ row_among (map row_of rows.now) name.now }
{
    let mut rest = rows;
    'rows: while let [row, others @ ..] = rest {
        if row.name == name {
            return Some(row);
        }
        rest = others;
    }
    None
}
