//! Laws of the definitions that the contract of `scan` cites. Each function does nothing: its clauses
//! are the laws.

ghost use Rattle.std.specs.Prelude.{◌≡◌, ◌↔◌, ◌⊎◌, ℕ, suc, ◌++◌, List, Some, IsTrue};
ghost use Rattle.text_scan.specs.declared.fault.ScanFault.{ScanFault};
ghost use Rattle.text_scan.specs.declared.tokens.Token.{Token};
ghost use Rattle.text_scan.specs.declared.tokens.TokenKind.{TokenKind};
ghost use Rattle.text_scan.specs.Comments.{is_comment, closes};
ghost use Rattle.text_scan.specs.Forms.{token_kind, HasForm};
ghost use Rattle.text_scan.specs.Reading.{AreTokensOf, IsFaultOf};

/// Each text has its tokens or a fault, only one of the two, and only one list of tokens or one fault.
pub fn one_reading()
    // Each text has tokens, or a fault.
    ensures some { (text : List ℕ)
        → ((tokens : List Token) × AreTokensOf text tokens) ⊎ ((fault : ScanFault) × IsFaultOf text fault) }
    // No text has both.
    ensures not_both { (text : List ℕ) (tokens : List Token) (fault : ScanFault)
        → AreTokensOf text tokens → IsFaultOf text fault → ⊥ }
    // A text has one list of tokens at most.
    ensures tokens { (text : List ℕ) (first second : List Token)
        → AreTokensOf text first → AreTokensOf text second → first ≡ second }
    // A text has one fault at most.
    ensures fault { (text : List ℕ) (first second : ScanFault)
        → IsFaultOf text first → IsFaultOf text second → first ≡ second }
{}

/// The kinds of token are the rows of the table, whatever order they are tried in.
#[tactic(auto, using(crate::proofs::FormLemmas::kind_from_form, crate::proofs::FormLemmas::form_from_kind))]
pub fn kinds_are_rows()
    ensures { (bytes : List ℕ) (kind : TokenKind) → (token_kind bytes ≡ Some kind) ↔ HasForm kind bytes }
{}

/// Inside a comment, one whole comment more changes nothing.
#[tactic(auto, using(crate::proofs::CommentLemmas::comment_inside))]
pub fn comments_nest()
    ensures { (depth : ℕ) (comment bytes : List ℕ)
        → IsTrue (is_comment comment) → closes (suc depth) (comment ++ bytes) ≡ closes (suc depth) bytes }
{}
