//! Queries through the top call: each with its data file, and what is written.
use crate::tests::{Outside, PLAIN, ends};
use cs_run::Status;
use std::test::Fail;

const QUERIES: [(&str, &str, &str); 21] = [
    (
        "{\"_id\":\"au-ann\",\"_type\":\"author\",\"name\":\"Ann\"}\n{\"_id\":\"t-db\",\"_type\":\"tag\",\"title\":\"Databases\"}\n{\"_id\":\"t-ql\",\"_type\":\"tag\",\"title\":\"Queries\"}\n{\"_id\":\"p1\",\"_type\":\"post\",\"title\":\"One\",\"publishedAt\":\"2024-03-01\",\"author\":{\"_ref\":\"au-ann\"},\"tags\":[{\"_key\":\"k1\",\"_ref\":\"t-db\"},{\"_key\":\"k2\",\"_ref\":\"t-ql\"}]}\n{\"_id\":\"p2\",\"_type\":\"post\",\"title\":\"Two\",\"publishedAt\":\"2024-05-01\",\"author\":{\"_ref\":\"au-bob\",\"_weak\":true}}\n{\"_id\":\"p3\",\"_type\":\"post\",\"title\":\"Three\",\"publishedAt\":\"2024-03-01\",\"author\":{\"_ref\":\"au-ann\"},\"tags\":[{\"_key\":\"k1\",\"_ref\":\"t-ql\"}]}\n{\"_id\":\"drafts.p4\",\"_type\":\"post\",\"title\":\"Four\",\"publishedAt\":\"2024-06-01\"}\n",
        "{\"query\":\"*[_type == 'post' && !(_id in path('drafts.**'))] | order(publishedAt desc)[0..9]{title, 'author': author->name, 'tags': tags[]->title}\"}\n",
        "{\"line\":1,\"result\":[{\"author\":null,\"tags\":null,\"title\":\"Two\"},{\"author\":\"Ann\",\"tags\":[\"Databases\",\"Queries\"],\"title\":\"One\"},{\"author\":\"Ann\",\"tags\":[\"Queries\"],\"title\":\"Three\"}]}\n",
    ),
    (
        "{\"_id\":\"au-ann\",\"_type\":\"author\",\"name\":\"Ann\"}\n{\"_id\":\"t-db\",\"_type\":\"tag\",\"title\":\"Databases\"}\n{\"_id\":\"t-ql\",\"_type\":\"tag\",\"title\":\"Queries\"}\n{\"_id\":\"p1\",\"_type\":\"post\",\"title\":\"One\",\"publishedAt\":\"2024-03-01\",\"author\":{\"_ref\":\"au-ann\"},\"tags\":[{\"_key\":\"k1\",\"_ref\":\"t-db\"},{\"_key\":\"k2\",\"_ref\":\"t-ql\"}]}\n{\"_id\":\"p2\",\"_type\":\"post\",\"title\":\"Two\",\"publishedAt\":\"2024-05-01\",\"author\":{\"_ref\":\"au-bob\",\"_weak\":true}}\n{\"_id\":\"p3\",\"_type\":\"post\",\"title\":\"Three\",\"publishedAt\":\"2024-03-01\",\"author\":{\"_ref\":\"au-ann\"},\"tags\":[{\"_key\":\"k1\",\"_ref\":\"t-ql\"}]}\n{\"_id\":\"drafts.p4\",\"_type\":\"post\",\"title\":\"Four\",\"publishedAt\":\"2024-06-01\"}\n",
        "{\"query\":\"*[_type == 'author']{name, 'posts': *[_type == 'post' && author._ref == ^._id].title}\"}\n{\"query\":\"*[references('au-ann')]._id\"}\n",
        "{\"line\":1,\"result\":[{\"name\":\"Ann\",\"posts\":[\"One\",\"Three\"]}]}\n{\"line\":2,\"result\":[\"p1\",\"p3\"]}\n",
    ),
    (
        "{\"_id\":\"a\",\"_type\":\"t\",\"tags\":[\"x\",\"y\"]}\n{\"_id\":\"b\",\"_type\":\"t\"}\n{\"_id\":\"c\",\"_type\":\"t\",\"tags\":[]}\n",
        "{\"query\":\"*.tags[]\"}\n{\"query\":\"*.tags[0]\"}\n",
        "{\"line\":1,\"result\":[\"x\",\"y\",null]}\n{\"line\":2,\"result\":[\"x\",null,null]}\n",
    ),
    (
        "",
        "{\"query\":\"[true && null, false && null, null || true, null == null, [1] == [1], 1 < 'a']\"}\n",
        "{\"line\":1,\"result\":[null,false,true,true,false,null]}\n",
    ),
    (
        "",
        "{\"query\":\"[9223372036854775807 + 1, 7 % 0, -7 % 2]\"}\n",
        "{\"line\":1,\"result\":[null,null,-1]}\n",
    ),
    (
        "",
        "{\"query\":\"[2, 'b', true, null, {'x': 1}, 1, 'a', false] | order(@)\"}\n",
        "{\"line\":1,\"result\":[1,2,\"a\",\"b\",false,true,null,{\"x\":1}]}\n",
    ),
    (
        "",
        "{\"query\":\"[2, 'b', true, null, {'x': 1}, 1, 'a', false] | order(@ desc)\"}\n",
        "{\"line\":1,\"result\":[null,{\"x\":1},true,false,\"b\",\"a\",2,1]}\n",
    ),
    (
        "",
        "{\"query\":\"{'a': [0,1,2,3][1..2], 'b': [0,1,2,3][1...-1], 'c': [0,1,2,3][-2..9], 'd': [0,1,2,3][-1], 'e': [0,1,2,3][9], 'f': 'x'[0..1]}\"}\n",
        "{\"line\":1,\"result\":{\"a\":[1,2],\"b\":[1,2],\"c\":[2,3],\"d\":3,\"e\":null,\"f\":null}}\n",
    ),
    (
        "",
        "{\"query\":\"[length('héé'), string(12), array::join(['a', 1, true], '-'), string::split('a,b,', ','), math::sum([1, null, 2]), math::min([]), array::unique([1, 1, 'a', null, null]), array::compact([null, 1]), coalesce(null, 3), select(false => 1, 2), defined(null)]\"}\n",
        "{\"line\":1,\"result\":[3,\"12\",\"a-1-true\",[\"a\",\"b\",\"\"],3,null,[1,\"a\",null],[1],3,2,false]}\n",
    ),
    (
        "",
        "{\"mutate\":{\"mutations\":[{\"create\":{\"_id\":\"a\",\"_type\":\"t\",\"n\":1}}]}}\n{\"query\":\"*[0]{..., 'n': n + 1, n > 5 => {'big': true}, n == 1 => {'one': true}}\"}\n",
        "{\"line\":1,\"results\":[{\"id\":\"a\",\"operation\":\"create\"}],\"transactionId\":\"tx-1\"}\n{\"line\":2,\"result\":{\"_createdAt\":\"1970-01-01T00:00:00Z\",\"_id\":\"a\",\"_rev\":\"tx-1\",\"_type\":\"t\",\"_updatedAt\":\"1970-01-01T00:00:00Z\",\"n\":2,\"one\":true}}\n",
    ),
    (
        "",
        "{\"query\":\"((((((((((((((((((((((((((((((((((((((((((((((((1))))))))))))))))))))))))))))))))))))))))))))))))\"}\n",
        "{\"line\":1,\"result\":1}\n",
    ),
    (
        "",
        "{\"query\":\"(((((((((((((((((((((((((((((((((((((((((((((((((1)))))))))))))))))))))))))))))))))))))))))))))))))\"}\n",
        "{\"error\":\"deep-query\",\"line\":1}\n",
    ),
    (
        "",
        "{\"query\":\"$p\",\"params\":{\"p\":1.5}}\n",
        "{\"error\":\"not-whole\",\"line\":1}\n",
    ),
    ("", "{\"query\":\n", "{\"error\":\"not-json\",\"line\":1}\n"),
    (
        "",
        "{\"query\":1}\n",
        "{\"error\":\"bad-command\",\"line\":1}\n",
    ),
    (
        "",
        "{\"query\":\"*[a / 2 > 1]\"}\n",
        "{\"error\":\"unsupported\",\"line\":1,\"name\":\"/\"}\n",
    ),
    (
        "",
        "{\"query\":\"foo(1)\"}\n",
        "{\"error\":\"unknown-function\",\"line\":1,\"name\":\"foo\"}\n",
    ),
    (
        "",
        "{\"query\":\"count()\"}\n",
        "{\"error\":\"arity\",\"line\":1,\"name\":\"count\"}\n",
    ),
    (
        "",
        "{\"query\":\"*{a.b}\"}\n",
        "{\"error\":\"no-key\",\"line\":1}\n",
    ),
    (
        "",
        "{\"query\":\"1 #\"}\n",
        "{\"at\":2,\"error\":\"bad-token\",\"line\":1}\n",
    ),
    (
        "",
        "{\"query\":\"\"}\n",
        "{\"error\":\"syntax\",\"line\":1}\n",
    ),
];

#[test]
fn answers_queries(rt: HostRuntime) -> Result<(), Fail> {
    for (data, script, wanted) in &QUERIES {
        let outside = Outside {
            words: "content_store --data data",
            data: data.as_bytes(),
            script: script.as_bytes(),
            ..PLAIN
        };
        ends(&rt, rt.alloc(), outside, Status::Done, wanted, script)?;
    }
    Ok(())
}
