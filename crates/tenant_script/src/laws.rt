//! Laws of tenant scripts and their text, as contracts of functions that do nothing.
ghost use Rattle.std.specs.Prelude.{◌≡◌, ℕ, List};
ghost use Rattle.text_lines.specs.Formats.{IsJudged};
ghost use Rattle.tenant_script.specs.Tenants.{TenantScript as PlainScript, IsFormed, IsTenantScript};
ghost use Rattle.tenant_script.specs.Text.{tenants_text, tenants_format, IsTenantsText, IsLineFault, IsCountFault, IsRepeatFault, IsTenantFault};

/// A text is that of one tenant script at most. Each text is a tenant script's, or has a wrong line, or one beyond a
/// limit, or one that repeats a name, or one of no tenant; it has one such fault, and none where it is a script's.
pub fn law_of_tenant_scripts()
    // A text is that of one script at most.
    ensures one { (s t : PlainScript) → IsFormed s → IsFormed t → tenants_text s ≡ tenants_text t → s ≡ t }
    // The script of a text has the form, keeps the limits, repeats no name, and is of its tenants alone.
    ensures right { (text : List ℕ) (s : PlainScript) → IsTenantsText text s → IsTenantScript s }
    // Each text is a script's, or has a fault of one of the four sorts.
    ensures judged { (text : List ℕ) → IsJudged tenants_format text }
    // There is one first line without a form at most.
    ensures line { (text : List ℕ) (m n : ℕ) → IsLineFault text m → IsLineFault text n → m ≡ n }
    // There is one first line beyond a limit at most.
    ensures count { (text : List ℕ) (m n : ℕ) → IsCountFault text m → IsCountFault text n → m ≡ n }
    // There is one first line that repeats a name at most.
    ensures repeat { (text : List ℕ) (m n : ℕ) → IsRepeatFault text m → IsRepeatFault text n → m ≡ n }
    // There is one first line of no tenant at most.
    ensures tenant { (text : List ℕ) (m n : ℕ) → IsTenantFault text m → IsTenantFault text n → m ≡ n }
    // A text whose fault is a line without a form has none of a limit.
    ensures line_count { (text : List ℕ) (m n : ℕ) → IsLineFault text m → IsCountFault text n → ⊥ }
    // Nor one of a name.
    ensures line_repeat { (text : List ℕ) (m n : ℕ) → IsLineFault text m → IsRepeatFault text n → ⊥ }
    // Nor one of a tenant.
    ensures line_tenant { (text : List ℕ) (m n : ℕ) → IsLineFault text m → IsTenantFault text n → ⊥ }
    // A text whose fault is a limit has none of a name.
    ensures count_repeat { (text : List ℕ) (m n : ℕ) → IsCountFault text m → IsRepeatFault text n → ⊥ }
    // Nor one of a tenant.
    ensures count_tenant { (text : List ℕ) (m n : ℕ) → IsCountFault text m → IsTenantFault text n → ⊥ }
    // A text whose fault is a name has none of a tenant.
    ensures repeat_tenant { (text : List ℕ) (m n : ℕ) → IsRepeatFault text m → IsTenantFault text n → ⊥ }
    // A script's text has no line without a form.
    ensures right_line { (text : List ℕ) (s : PlainScript) (n : ℕ) → IsTenantsText text s → IsLineFault text n → ⊥ }
    // It has none beyond a limit.
    ensures right_count { (text : List ℕ) (s : PlainScript) (n : ℕ) → IsTenantsText text s → IsCountFault text n → ⊥ }
    // It has none that repeats a name.
    ensures right_repeat { (text : List ℕ) (s : PlainScript) (n : ℕ) → IsTenantsText text s → IsRepeatFault text n → ⊥ }
    // It has none of no tenant.
    ensures right_tenant { (text : List ℕ) (s : PlainScript) (n : ℕ) → IsTenantsText text s → IsTenantFault text n → ⊥ }
{}
