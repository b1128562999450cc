//! Small texts, each with what becomes of it, and how large a token is.
use super::*;
use cs_grammar::Lexeme;
use std::alloc::Global;
use std::mem::size_of;
use std::test::Fail;

// What becomes of the text, in a word and what the cause tells.
fn reply(alloc: Global, text: &str) -> Result<String, Fail> {
    if text.len() >= 4_294_967_296 {
        return Ok(String::from_str(alloc, "too long")?);
    }
    match parse(alloc, text) {
        Ok(_) => Ok(String::from_str(alloc, "ok")?),
        Err(ParseFault::BadToken { at }) => Ok(format!(in alloc; "bad-token {at}")?),
        Err(ParseFault::TooDeep) => Ok(String::from_str(alloc, "deep-query")?),
        Err(ParseFault::Syntax) => Ok(String::from_str(alloc, "syntax")?),
        Err(ParseFault::Unsupported { name }) => {
            Ok(format!(in alloc; "unsupported {}", name.as_str())?)
        }
        Err(ParseFault::UnknownFunction { name }) => {
            Ok(format!(in alloc; "unknown-function {}", name.as_str())?)
        }
        Err(ParseFault::Arity { name }) => Ok(format!(in alloc; "arity {}", name.as_str())?),
        Err(ParseFault::NoKey) => Ok(String::from_str(alloc, "no-key")?),
        Err(ParseFault::NoMemory) => Ok(String::from_str(alloc, "no memory")?),
    }
}

#[test]
fn a_token_is_small(rt: HostRuntime) -> Result<(), Fail> {
    assert!(rt; size_of::<Lexeme>() <= 12);
    Ok(())
}

#[test]
fn reads_queries_and_tells_the_first_cause(rt: HostRuntime) -> Result<(), Fail> {
    for row in TABLE.split('\n') {
        if let Some((text, wanted)) = row.split_once(" is ") {
            let found = reply(rt.alloc(), text)?;
            assert_eq!(rt; found.as_str(), wanted, "of {text}");
        }
    }
    for text in ["'\n\t\0'", " \t\r\n1", "1 // c\n + 1", "a//b\n.b"] {
        let found = reply(rt.alloc(), text)?;
        assert_eq!(rt; found.as_str(), "ok", "of {text}");
    }
    Ok(())
}

// Queries, each with what becomes of it: tokens, the grammar, the depth of brackets, faults, and
// queries that the store is asked.
const TABLE: &str = r#"01 is syntax
120 is ok
1. is syntax
1.5 is unsupported fraction
1.e5 is ok
1e-5 is unsupported exponent
1e+ is syntax
1..2 is syntax
"\q" is bad-token 0
a == b is ok
a = b is bad-token 2
a && b is ok
// c is syntax
1 / is syntax
1in[1] is ok
a => b is syntax
a : b is syntax
 is syntax
a || b && c == d + e * -f is ok
a - b - c is ok
a ** b ** c is unsupported **
a == b == c is syntax
(a == b) == c is ok
a in b in c is syntax
a in 1...2 is ok
a in 1.. is syntax
a in b == c is syntax
in in in is ok
match match match is unsupported match
a in in is ok
a in is syntax
a match b match c is syntax
-+1 is ok
-!a is ok
!-1 is syntax
+-1 is syntax
!!+a is ok
2 ** -1 is syntax
-2 ** 2 is unsupported **
null is ok
true(1) is unknown-function true
in(1) is unknown-function in
a.in is ok
.a is syntax
a. is syntax
a->b is ok
a->in is syntax
a->in [1] is ok
a->in b is ok
a->true is ok
* * * is ok
* * is syntax
^ is ok
^.^ is ok
^.^.a is ok
^.a.^ is syntax
^..a is syntax
^^ is syntax
() is syntax
(1 is syntax
1) is syntax
[1,] is ok
[1,,] is syntax
[,] is syntax
[1 2] is syntax
[...a] is ok
[...] is syntax
{"a" : 1,} is ok
{a,,} is syntax
{,} is syntax
{..., a} is ok
{...a} is ok
{a => b} is ok
{a => b => c} is syntax
{a: 1} is syntax
{"a"} is no-key
{...a => b} is syntax
count([],) is syntax
count( is syntax
select(a => b, c) is ok
select(a => b => c) is syntax
math :: sum([1]) is ok
math:: is syntax
math::sum is syntax
math::sum::x(1) is syntax
a[1..2] is ok
a[1...2] is ok
a[..2] is syntax
a[1..] is syntax
a[a in 1..2] is ok
a[a == 1..2] is syntax
a{b,} is ok
a | {b} is ok
a | b is syntax
a || {b} is ok
* | order(a) is ok
* | order(a asc, b desc) is ok
* | order(asc) is ok
* | order(desc desc) is ok
* | order(a,) is syntax
* | order(a asc desc) is syntax
*|order(a)[0] is ok
a..b is syntax
a{b}{c}[0]->d[] is ok
a ( b ) is unknown-function a
((((((((((((((((((((((((((((((((((((((((((((((((1)))))))))))))))))))))))))))))))))))))))))))))))) is ok
(((((((((((((((((((((((((((((((((((((((((((((((((1))))))))))))))))))))))))))))))))))))))))))))))))) is deep-query
[[[[[[[[[[[[[[[[[[[[[[[[[[[[[[[[[[[[[[[[[[[[[[[[]]]]]]]]]]]]]]]]]]]]]]]]]]]]]]]]]]]]]]]]]]]]]]]] is ok
[[[[[[[[[[[[[[[[[[[[[[[[[[[[[[[[[[[[[[[[[[[[[[[[[]]]]]]]]]]]]]]]]]]]]]]]]]]]]]]]]]]]]]]]]]]]]]]]]] is deep-query
{{{{{{{{{{{{{{{{{{{{{{{{{{{{{{{{{{{{{{{{{{{{{{{{{}}}}}}}}}}}}}}}}}}}}}}}}}}}}}}}}}}}}}}}}}}}}}}}}} is deep-query
[{([{([{([{([{([{([{([{([{([{([{([{([{([{([{([{(1)}])}])}])}])}])}])}])}])}])}])}])}])}])}])}])}] is no-key
[{([{([{([{([{([{([{([{([{([{([{([{([{([{([{([{((1))}])}])}])}])}])}])}])}])}])}])}])}])}])}])}])}] is deep-query
)))))((((((((((((((((((((((((((((((((((((((((((((((((((((( is syntax
)))))(((((((((((((((((((((((((((((((((((((((((((((((((((((( is deep-query
(((((((((((((((((((((((((((((((((((((((((((((((((# is bad-token 49
((((((((((((((((((((((((((((((((((((((((((((((((1))))))))))))))))))))))))))))))))))))))))))))))))[0] is ok
9223372036854775807 is ok
9223372036854775808 is unsupported wide-number
-9223372036854775808 is unsupported wide-number
a / 2 is unsupported /
a ** 2 is unsupported **
*[1+1] is unsupported constant
*[(1)] is unsupported constant
*[+1] is unsupported constant
*[--1] is unsupported constant
*[-1] is ok
*[('a')] is unsupported constant
*[1 / 2] is unsupported constant
*[!1] is ok
*[[1]] is ok
*[1 == 1] is ok
*[$p] is ok
*[1.5+1] is unsupported constant
*[0..n] is unsupported slice-bounds
*[n..0] is unsupported slice-bounds
*[0..-1] is ok
*[(0)..1] is unsupported slice-bounds
*[1.5..a] is unsupported slice-bounds
*[1+1..2] is unsupported slice-bounds
round(1) is unsupported round
global::round(1) is unsupported global::round
math::avg([1]) is unsupported math::avg
pt::text(a) is unsupported pt::text
* | score(n) is unsupported score
* | math::avg(n) is unsupported math::avg
path("a") is unsupported path
a in path("a") is ok
a in (path("a")) is unsupported path
a in path("a").b is unsupported path
a in path("a")..1 is unsupported path
a in path() is arity path
a in path(1, 2) is arity path
a in path(b => c) is arity path
global::path("a") is unknown-function global::path
a in global::path("a") is unknown-function global::path
foo(1) is unknown-function foo
global::count([]) is ok
global::math(1) is unknown-function global::math
* | foo(n) is unknown-function foo
* | count(n) is unknown-function count
* | path(n) is unknown-function path
* | global::order(n) is unknown-function global::order
order(n) is unknown-function order
count() is arity count
count(1, 2) is arity count
count(a => b) is arity count
coalesce(a => b) is arity coalesce
select(1) is ok
select(a => 1) is ok
select(a => 1, 2) is ok
select(1, 2) is arity select
select(1, a => 2) is arity select
references() is arity references
references(a => b) is arity references
array::join(1) is arity array::join
string::startsWith(1, 2, 3) is arity string::startsWith
* | order() is arity order
{a->} is ok
{a[]} is ok
{a{b}} is ok
{a | {b}} is ok
{a[0]} is ok
{a[0..1]} is ok
{a[b]} is ok
{a["b"]} is no-key
{a.b} is no-key
{a->b} is no-key
{a | order(n)} is no-key
{(a)} is no-key
{a + 1} is no-key
{1} is no-key
{-1.5} is no-key
{1.5} is unsupported fraction
{foo()} is unknown-function foo
{count()} is arity count
{round(1)} is unsupported round
{path(1)} is unsupported path
{a.b, foo()} is no-key
{foo(), a.b} is unknown-function foo
{a / 2} is no-key
[1.5, a / 2] is unsupported fraction
[a / 2, 1.5] is unsupported /
a / 1.5 is unsupported /
round(1.5) is unsupported round
foo(1.5) is unknown-function foo
1.5[1+1] is unsupported fraction
a[1.5][1+1] is unsupported fraction
a in [1.5] is unsupported fraction
{"k": a.b, a.b} is no-key
{a => foo(), ...bar()} is unknown-function foo
* | order(a.b, foo()) is unknown-function foo
*[_type == 'author']{name, 'posts': *[_type == 'post' && author._ref == ^._id].title} is ok
1 # is bad-token 2
"#;
