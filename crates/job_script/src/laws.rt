//! Laws of scripts and their text, as contracts of functions that do nothing.
ghost use Rattle.std.specs.Prelude.{◌≡◌, ◌≤◌, ◌+◌, ℕ, List, length};
ghost use Rattle.std.specs.List.{AllByRecursion};
ghost use Rattle.job_script.specs.Scripts.{Script as PlainScript, IsFormed, IsScript, program_names, job_names};
ghost use Rattle.job_script.specs.Text.{script_text, script_format, IsScriptText, IsLineFault, IsCountFault, IsRepeatFault, EntryIsShort};
ghost use Rattle.text_lines.specs.Formats.{IsJudged};

/// A text is that of one script at most. Each text is a script's, or has a wrong line, or one beyond a limit, or one
/// that repeats a name; it has one such fault, and none where it is a script's.
pub fn law_of_scripts()
    // A text is that of one script at most.
    ensures one { (s t : PlainScript) → IsFormed s → IsFormed t → script_text s ≡ script_text t → s ≡ t }
    // Each text is a script's, or has a fault of one of the three sorts.
    ensures judged { (text : List ℕ) → IsJudged script_format text }
    // There is one first line without a form at most.
    ensures line { (text : List ℕ) (m n : ℕ) → IsLineFault text m → IsLineFault text n → m ≡ n }
    // There is one first line beyond a limit at most.
    ensures count { (text : List ℕ) (m n : ℕ) → IsCountFault text m → IsCountFault text n → m ≡ n }
    // There is one first line that repeats a name at most.
    ensures repeat { (text : List ℕ) (m n : ℕ) → IsRepeatFault text m → IsRepeatFault text n → m ≡ n }
    // A text whose fault is a line without a form has none of a limit.
    ensures line_count { (text : List ℕ) (m n : ℕ) → IsLineFault text m → IsCountFault text n → ⊥ }
    // Nor one of a name.
    ensures line_repeat { (text : List ℕ) (m n : ℕ) → IsLineFault text m → IsRepeatFault text n → ⊥ }
    // A text whose fault is a limit has none of a name.
    ensures count_repeat { (text : List ℕ) (m n : ℕ) → IsCountFault text m → IsRepeatFault text n → ⊥ }
    // A script's text has no line without a form.
    ensures right_line { (text : List ℕ) (s : PlainScript) (n : ℕ) → IsScriptText text s → IsLineFault text n → ⊥ }
    // It has none beyond a limit.
    ensures right_count { (text : List ℕ) (s : PlainScript) (n : ℕ) → IsScriptText text s → IsCountFault text n → ⊥ }
    // It has none that repeats a name.
    ensures right_repeat { (text : List ℕ) (s : PlainScript) (n : ℕ) → IsScriptText text s → IsRepeatFault text n → ⊥ }
{}

/// The texts of programs and the arguments of jobs are no longer than the text of the script, and there are at most
/// 4160 entries. Forms, ranges and names are fields of `IsScript`.
pub fn law_of_lengths()
    // Texts of programs and arguments of jobs are no longer than the script's text.
    ensures short { (text : List ℕ) (s : PlainScript) → IsScriptText text s → AllByRecursion (EntryIsShort (length text)) s.items }
    // Each entry is a program or a job.
    ensures entries { (s : PlainScript) → length s.items ≡ length (program_names s.items) + length (job_names s.items) }
    // A script has at most 4,160 entries.
    ensures few { (s : PlainScript) → IsScript s → length s.items ≤ 4160 }
{}
