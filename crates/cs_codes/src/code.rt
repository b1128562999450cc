//! Codes of keys. Two keys may have one code: who finds a document by a code has to test it.
ghost use Rattle.std.specs.Prelude.{◌≡◌};
ghost use Rattle.cs_codes.specs.Codes.{start, with_text, with_mark, with_names, with_value, with_element, code_of, boolean_code, number_code, text_code, scalar_code, ref_code, id_code, key_code};

use crate::seed::Seed;
use cs_value::Txt;
use cs_view::{Key, Scalar};
use std::hash::{FoldHasher, Hash, Hasher};

// These numbers tell what comes next in a hash. No text has one of them as a byte.
const VALUE: u8 = 254;

const ELEMENT: u8 = 253;

const REFERENCE: u8 = 252;

const BOOLEAN: u8 = 251;

const NUMBER: u8 = 250;

const TEXT: u8 = 249;

const ID: u8 = 248;

// The hash that has read nothing yet.
pub(crate) fn start(seed: &Seed) -> FoldHasher
    ensures { result ≡ start seed.now }
{
    seed.begun
}

// The hash that has read the text too.
pub(crate) fn with_text(hash: FoldHasher, text: &str) -> FoldHasher
    ensures { result ≡ with_text hash text.now }
{
    let mut longer = hash;
    text.hash(&mut longer);
    longer
}

fn with_mark(hash: FoldHasher, mark: u8) -> FoldHasher
    ensures { result ≡ with_mark hash mark }
{
    let mut longer = hash;
    longer.write_u8(mark);
    longer
}

fn code_of(hash: &FoldHasher) -> u64
    ensures { result ≡ code_of hash.now }
{
    hash.finish()
}

// The hash that has read the names too.
pub(crate) fn with_names(hash: FoldHasher, names: &[Txt]) -> FoldHasher
    ensures { result ≡ with_names hash names.now }
{
    let mut longer = hash;
    for name in names {
        longer = with_text(longer, name.as_str());
    }
    longer
}

// The hash of a value at the end of the names that were read.
pub(crate) fn with_value(hash: FoldHasher) -> FoldHasher
    ensures { result ≡ with_value hash }
{
    with_mark(hash, VALUE)
}

// The hash of an element of a list at the end of the names that were read.
pub(crate) fn with_element(hash: FoldHasher) -> FoldHasher
    ensures { result ≡ with_element hash }
{
    with_mark(hash, ELEMENT)
}

pub(crate) fn boolean_code(hash: FoldHasher, value: bool) -> u64
    ensures { result ≡ boolean_code hash value }
{
    let mut longer = with_mark(hash, BOOLEAN);
    value.hash(&mut longer);
    code_of(&longer)
}

pub(crate) fn number_code(hash: FoldHasher, number: i64) -> u64
    ensures { result ≡ number_code hash number }
{
    let mut longer = with_mark(hash, NUMBER);
    number.hash(&mut longer);
    code_of(&longer)
}

pub(crate) fn text_code(hash: FoldHasher, text: &Txt) -> u64
    ensures { result ≡ text_code hash text.now }
{
    code_of(&with_text(with_mark(hash, TEXT), text.as_str()))
}

fn scalar_code(hash: FoldHasher, scalar: &Scalar) -> u64
    ensures { result ≡ scalar_code hash scalar.now }
{
    match scalar {
        Scalar::Bool(value) => boolean_code(hash, *value),
        Scalar::Num(number) => number_code(hash, *number),
        Scalar::Text(text) => text_code(hash, text),
    }
}

/// The code of the key of references to the target.
pub fn ref_code(seed: &Seed, target: &Txt) -> u64
    ensures { result ≡ ref_code seed.now target.now }
{
    code_of(&with_text(with_mark(start(seed), REFERENCE), target.as_str()))
}

/// The code of the key of the document with the id.
pub fn id_code(seed: &Seed, id: &Txt) -> u64
    ensures { result ≡ id_code seed.now id.now }
{
    code_of(&with_text(with_mark(start(seed), ID), id.as_str()))
}

/// The code of a key. That of every document has the code 0.
pub fn key_code(seed: &Seed, key: &Key) -> u64
    ensures { result ≡ key_code seed.now key.now }
{
    match key {
        Key::All => 0,
        Key::Id(id) => id_code(seed, id),
        Key::Path(names, scalar) => {
            scalar_code(with_value(with_names(start(seed), names.texts())), scalar)
        }
        Key::Elem(names, scalar) => {
            scalar_code(with_element(with_names(start(seed), names.texts())), scalar)
        }
        Key::Ref(target) => ref_code(seed, target),
    }
}
