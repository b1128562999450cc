//! The logic of three values: true, false, and nothing said (GROQ-1.revision1, "And operator", "Or
//! operator", "Not operator").
ghost use Rattle.std.specs.Prelude.{◌≡◌};
ghost use Rattle.cs_ops.specs.Truth.{both, either, opposite};

/// What `&&` says of two truths: false where either is false, else nothing where either says
/// nothing, else true.
pub fn both(a: Option<bool>, b: Option<bool>) -> Option<bool>
    ensures { result ≡ both a b }
{
    match (a, b) {
        (Some(false), _) | (_, Some(false)) => Some(false),
        (Some(true), Some(true)) => Some(true),
        _ => None,
    }
}

/// What `||` says of two truths: true where either is true, else nothing where either says nothing,
/// else false.
pub fn either(a: Option<bool>, b: Option<bool>) -> Option<bool>
    ensures { result ≡ either a b }
{
    match (a, b) {
        (Some(true), _) | (_, Some(true)) => Some(true),
        (Some(false), Some(false)) => Some(false),
        _ => None,
    }
}

/// What `!` says of a truth: nothing where it says nothing.
pub fn opposite(a: Option<bool>) -> Option<bool>
    ensures { result ≡ opposite a }
{
    match a {
        Some(b) => Some(!b),
        None => None,
    }
}
