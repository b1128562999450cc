//! Tokens of small texts, and what they mean.
ghost use Rattle.cs_syntax.specs.Lex.{IsTokenOf};

use super::*;
use std::alloc::Global;
use std::test::Fail;

// What a token means, for reading: a sign by its name, a text without its quotes.
fn meaning(alloc: Global, text: &str, token: &Token) -> Result<String, Fail>
    requires { IsTokenOf text.now token.now }
{
    a_token_means_its_source();
    let source = token.source(text);
    Ok(match token.kind {
        Kind::Text => unescape(alloc, source)?.into_string(alloc)?,
        Kind::Param => String::from_str(alloc, token.name(text))?,
        Kind::Sign => {
            let Some(sign) = Sign::of(source) else {
                unreachable!()
            };
            format!(in alloc; "{sign:?}")?
        }
        Kind::Word | Kind::Number => String::from_str(alloc, source)?,
    })
}

// The tokens of a text, each by the first letter of its kind and its source, or its bad place.
fn sources(alloc: Global, text: &str) -> Result<String, Fail> {
    let mut shown = String::new(alloc);
    if text.len() > 1000 {
        return Ok(shown);
    }
    match tokens(alloc, text) {
        Ok(found) => {
            for token in &found {
                if !shown.is_empty() {
                    shown.push_str(" ")?;
                }
                shown.push_str(match token.kind {
                    Kind::Word => "W",
                    Kind::Number => "N",
                    Kind::Text => "T",
                    Kind::Param => "P",
                    Kind::Sign => "S",
                })?;
                shown.push_str(token.source(text))?;
            }
        }
        Err(TokenFault::BadToken { at }) => shown = format!(in alloc; "bad {at}")?,
        Err(TokenFault::NoMemory) => shown.push_str("no-memory")?,
    }
    Ok(shown)
}

// The meanings of the tokens of a text, each behind a `|`.
fn meanings(alloc: Global, text: &str) -> Result<String, Fail> {
    let mut shown = String::new(alloc);
    if text.len() > 1000 {
        return Ok(shown);
    }
    if let Ok(found) = tokens(alloc, text) {
        for token in &found {
            shown.push_str("|")?;
            shown.push_str(meaning(alloc, text, token)?.as_str())?;
        }
    }
    Ok(shown)
}

// Texts, each with its tokens.
static LONGEST: [(&str, &str); 11] = [
    ("", ""),
    (" \t\r\n//", ""),
    ("a//b\nc //\rd\ne/ /f //", "Wa Wc We S/ S/ Wf"),
    (
        "* ** *** *[0] ... .... ..... a..b",
        "S* S** S** S* S* S[ N0 S] S... S... S. S... S.. Wa S.. Wb",
    ),
    (
        "=> == != ! <=> >= && ||| -> --> :: :::",
        "S=> S== S!= S! S<= S> S>= S&& S|| S| S-> S- S-> S:: S:: S:",
    ),
    (
        "a@^%+-(),{}<>:",
        "Wa S@ S^ S% S+ S- S( S) S, S{ S} S< S> S:",
    ),
    (
        "1 0 01 00 1.5 1. 1.e5 1..2 1...2 1.5.5",
        "N1 N0 N0 N1 N0 N0 N1.5 N1 S. N1 S. We5 N1 S.. N2 N1 S... N2 N1.5 S. N5",
    ),
    (
        "1e5 1E+5 1e-05 1e 1e+ 1e+x 1.5e5 1.5e 0x1 1a",
        "N1e5 N1E+5 N1e-05 N1 We N1 We S+ N1 We S+ Wx N1.5e5 N1.5 We N0 Wx1 N1 Wa",
    ),
    (
        "a _a1 a_ $a $a1$b $_ a$b nullin 1in[1]",
        "Wa W_a1 Wa_ P$a P$a1 P$b P$_ Wa P$b Wnullin N1 Win S[ N1 S]",
    ),
    (
        "\"\" '' \"a\"'b' \"'\" '\"' \"\\\"\" \"é//\n\" \"//\"//",
        "T\"\" T'' T\"a\" T'b' T\"'\" T'\"' T\"\\\"\" T\"é//\n\" T\"//\"",
    ),
    (
        "\"\\u0041\" \"\\u{1F600}\" \"\\uD83D\\uDE00\"",
        "T\"\\u0041\" T\"\\u{1F600}\" T\"\\uD83D\\uDE00\"",
    ),
];

#[test]
fn reads_the_longest_tokens(rt: HostRuntime) -> Result<(), Fail> {
    for (text, wanted) in LONGEST {
        let found = sources(rt.alloc(), text)?;
        assert_eq!(rt; found.as_str(), wanted, "of {text}");
    }
    Ok(())
}

// Texts, each with its first place without a token.
static BAD_PLACES: [(&str, &str); 12] = [
    ("aé", "bad 1"),
    ("'a\"", "bad 0"),
    ("\"\\uD83D\"", "bad 0"),
    ("\"\\uD83D\\u{DE00}\"", "bad 0"),
    ("\"\\u{}\"", "bad 0"),
    ("\"\\u{0000041}\"", "bad 0"),
    ("\"\\u{110000}\"", "bad 0"),
    ("\"\\u{D800}\"", "bad 0"),
    ("$ a", "bad 0"),
    ("// a\n#", "bad 5"),
    (" \x0b", "bad 1"),
    ("\"a\" \"b", "bad 4"),
];

#[test]
fn finds_the_first_bad_place(rt: HostRuntime) -> Result<(), Fail> {
    for (text, wanted) in BAD_PLACES {
        let found = sources(rt.alloc(), text)?;
        assert_eq!(rt; found.as_str(), wanted, "of {text}");
    }
    Ok(())
}

#[test]
fn reads_what_tokens_mean(rt: HostRuntime) -> Result<(), Fail> {
    let cases = [
        ("a $b 1.5 =>", "|a|b|1.5|FatArrow"),
        ("\"\" 'x\"y' \"x'y\"", "||x\"y|x'y"),
        ("\"\\\"\\'\\\\\\/\"", "|\"'\\/"),
        ("'\\b\\f\\n\\r\\t'", "|\x08\x0c\n\r\t"),
        ("'\\u0041\\u00e9\\u20AC'", "|Aé€"),
        ("'\\uD83D\\uDE00\\u{1F600}x'", "|😀😀x"),
        ("'\\uD800\\uDC00\\uDBFF\\uDFFF'", "|\u{10000}\u{10FFFF}"),
        ("'\\u{0}\\u{000041}\\u{10FFFF}é'", "|\x00A\u{10FFFF}é"),
    ];
    for (text, wanted) in cases {
        let found = meanings(rt.alloc(), text)?;
        assert_eq!(rt; found.as_str(), wanted, "of {text}");
    }
    Ok(())
}
