//! The characters of a path by what they may begin.
ghost use Rattle.std.specs.Prelude.{◌≡◌};
ghost use Rattle.cs_jsonmatch.specs.Grammar.{class};

// The classes of the characters that a path is written with. All but `Other` are ASCII.
#[derive(Clone, Copy, Drop, PartialEq, Eq)]
pub(crate) enum Class {
    // An ASCII letter or `_`.
    Letter,
    Digit,
    Dot,
    // `[`
    Opening,
    // `]`
    Closing,
    Comma,
    Space,
    Minus,
    Star,
    // Either quote, `'` or `"`.
    Quote,
    Backslash,
    Colon,
    AtSign,
    EqualSign,
    Bang,
    // `<`
    Below,
    // `>`
    Above,
    Other,
}

pub(crate) fn class_of(c: char) -> Class
    ensures { result ≡ class c }
{
    match c {
        'a'..='z' | 'A'..='Z' | '_' => Class::Letter,
        '0'..='9' => Class::Digit,
        '"' | '\'' => Class::Quote,
        '.' => Class::Dot,
        '[' => Class::Opening,
        ']' => Class::Closing,
        ',' => Class::Comma,
        ' ' => Class::Space,
        '-' => Class::Minus,
        '*' => Class::Star,
        '\\' => Class::Backslash,
        ':' => Class::Colon,
        '@' => Class::AtSign,
        '=' => Class::EqualSign,
        '!' => Class::Bang,
        '<' => Class::Below,
        '>' => Class::Above,
        _ => Class::Other,
    }
}
