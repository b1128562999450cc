//! The signs by their bytes.
ghost use Rattle.std.specs.Prelude.{◌≡◌};
ghost use Rattle.cs_syntax.specs.Ends.{one_of, three_of, two_of};
ghost use Rattle.cs_syntax.specs.Signs.{sign_of};

/// A sign: a token of punctuation (GROQ-1.revision1 "Syntax", as this project's profile has it).
#[derive(Clone, Copy, Debug, Drop, PartialEq, Eq)]
pub enum Sign {
    /// `=>`
    FatArrow,
    /// `==`
    EqEq,
    /// `!=`
    Ne,
    /// `<=`
    Le,
    /// `>=`
    Ge,
    /// `<`
    Lt,
    /// `>`
    Gt,
    /// `&&`
    AndAnd,
    /// `||`
    OrOr,
    /// `|`
    Pipe,
    /// `!`
    Not,
    /// `+`
    Plus,
    /// `-`
    Minus,
    /// `**`
    StarStar,
    /// `*`
    Star,
    /// `/`
    Slash,
    /// `%`
    Percent,
    /// `...`
    DotDotDot,
    /// `..`
    DotDot,
    /// `.`
    Dot,
    /// `->`
    Arrow,
    /// `[`
    OpenBracket,
    /// `]`
    CloseBracket,
    /// `{`
    OpenBrace,
    /// `}`
    CloseBrace,
    /// `(`
    OpenParen,
    /// `)`
    CloseParen,
    /// `,`
    Comma,
    /// `::`
    ColonColon,
    /// `:`
    Colon,
    /// `@`
    At,
    /// `^`
    Caret,
}

// The sign of one byte.
fn of_one(byte: u8) -> Option<Sign>
    ensures { result ≡ one_of byte }
{
    match byte {
        b'!' => Some(Sign::Not),
        b'%' => Some(Sign::Percent),
        b'(' => Some(Sign::OpenParen),
        b')' => Some(Sign::CloseParen),
        b'*' => Some(Sign::Star),
        b'+' => Some(Sign::Plus),
        b',' => Some(Sign::Comma),
        b'-' => Some(Sign::Minus),
        b'.' => Some(Sign::Dot),
        b'/' => Some(Sign::Slash),
        b':' => Some(Sign::Colon),
        b'<' => Some(Sign::Lt),
        b'>' => Some(Sign::Gt),
        b'@' => Some(Sign::At),
        b'[' => Some(Sign::OpenBracket),
        b']' => Some(Sign::CloseBracket),
        b'^' => Some(Sign::Caret),
        b'{' => Some(Sign::OpenBrace),
        b'|' => Some(Sign::Pipe),
        b'}' => Some(Sign::CloseBrace),
        _ => None,
    }
}

// The sign of two bytes.
fn of_two(first: u8, second: u8) -> Option<Sign>
    ensures { result ≡ two_of first second }
{
    match (first, second) {
        (b'!', b'=') => Some(Sign::Ne),
        (b'&', b'&') => Some(Sign::AndAnd),
        (b'*', b'*') => Some(Sign::StarStar),
        (b'-', b'>') => Some(Sign::Arrow),
        (b'.', b'.') => Some(Sign::DotDot),
        (b':', b':') => Some(Sign::ColonColon),
        (b'<', b'=') => Some(Sign::Le),
        (b'=', b'=') => Some(Sign::EqEq),
        (b'=', b'>') => Some(Sign::FatArrow),
        (b'>', b'=') => Some(Sign::Ge),
        (b'|', b'|') => Some(Sign::OrOr),
        _ => None,
    }
}

// The sign of three bytes.
fn of_three(first: u8, second: u8, third: u8) -> Option<Sign>
    ensures { result ≡ three_of first second third }
{
    if first == b'.' && second == b'.' && third == b'.' {
        return Some(Sign::DotDotDot);
    }
    None
}

impl Sign {
    /// The sign that is written so: `None` exactly where no sign is.
    pub fn of(source: &str) -> Option<Sign>
        ensures { result ≡ sign_of source.now }
    {
        match source.as_bytes() {
            [byte] => of_one(*byte),
            [first, second] => of_two(*first, *second),
            [first, second, third] => of_three(*first, *second, *third),
            _ => None,
        }
    }
}
