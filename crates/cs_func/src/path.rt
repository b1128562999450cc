//! Patterns of the function `path`.
ghost use Rattle.std.specs.Prelude.{◌≡◌, ◌∷◌, false};
ghost use Rattle.std.specs.List.{list_any};
ghost use Rattle.cs_func.specs.PathPattern.{is_dot, part_matches, path_matches};
ghost use Rattle.cs_func.specs.Run.{IsRun, left};
ghost use Rattle.cs_func.specs.Segments.{segments, is_any, after_some, segments_match};

use crate::run::Run;

/// Whether the pattern matches the text. The pattern is cut at its dots into parts: `**` matches
/// any text, `*` one that is not empty and has no dot, any other part itself. Several parts match
/// `u`, a dot and `v` where the first matches `u` and the others match `v`, for some such cut. It
/// takes no memory, and time in the product of the two lengths at most.
pub fn path_matches(pattern: &str, text: &str) -> bool
    ensures { result ≡ path_matches pattern.now text.now }
{
    match run(Some(pattern.as_bytes()), Some(text.as_bytes())) {
        Run::Matched => true,
        Run::Failed => false,
        Run::Any(later, rest) => matches_after_some(later, rest),
    }
}

// Whether the parts match what is left of the segments, after one or more of them. Where a run
// comes to a further `**`, an earlier one need not try again: what this one can leave is no less.
fn matches_after_some(parts: Option<&[u8]>, text: Option<&[u8]>) -> bool
    ensures { result ≡ after_some (segments_match (left parts.entry)) (left text.entry) }
{
    let mut parts_left = parts;
    let mut text_left = text;
    while let Some(bytes) = text_left {
        let (_, rest) = first_part(bytes);
        match run(parts_left, rest) {
            Run::Matched => return true,
            Run::Failed => text_left = rest,
            Run::Any(later, others) => {
                parts_left = later;
                text_left = others;
            }
        }
    }
    false
}

fn run<'a>(parts: Option<&'a [u8]>, text: Option<&'a [u8]>) -> Run<'a>
    ensures { IsRun result (left parts.entry) (left text.entry) }
{
    let mut parts_left = parts;
    let mut text_left = text;
    while let Some(pattern) = parts_left {
        let (part, later) = first_part(pattern);
        if is_any(part) {
            return Run::Any(later, text_left);
        }
        let Some(bytes) = text_left else {
            return Run::Failed;
        };
        let (segment, rest) = first_part(bytes);
        if !fits(part, segment) {
            return Run::Failed;
        }
        parts_left = later;
        text_left = rest;
    }
    match text_left {
        None => Run::Matched,
        Some(_) => Run::Failed,
    }
}

fn is_any(part: &[u8]) -> bool
    ensures { result ≡ is_any part.now }
{
    part == "**".as_bytes()
}

// Whether a part other than `**` matches a text without a dot.
fn fits(part: &[u8], segment: &[u8]) -> bool
    requires part { is_any part.now ≡ false }
    requires segment { list_any is_dot segment.now ≡ false }
    ensures { result ≡ part_matches part.now segment.now }
{
    if part == "*".as_bytes() {
        !segment.is_empty()
    } else {
        part == segment
    }
}

// What stands before the first dot, and what stands behind it: none where there is no dot.
fn first_part<'a>(bytes: &'a [u8]) -> (&'a [u8], Option<&'a [u8]>)
    ensures split { segments bytes.now ≡ result.0.now ∷ left result.1 }
    ensures plain { list_any is_dot result.0.now ≡ false }
{
    for (i, byte) in bytes.iter().enumerate() {
        if *byte == b'.' {
            return (&bytes[..i], Some(&bytes[i + 1..]));
        }
    }
    (bytes, None)
}
