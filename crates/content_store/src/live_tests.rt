//! Live queries through the top call: each script with its data file, and what is written.
use crate::tests::{Outside, PLAIN, ends};
use cs_run::Status;
use std::test::Fail;

const LIVES: [(&str, &str, &str); 6] = [
    (
        "{\"_id\":\"a\",\"_type\":\"person\",\"name\":\"Ann\"}\n{\"_id\":\"b\",\"_type\":\"person\",\"name\":\"Bob\"}\n{\"_id\":\"p\",\"_type\":\"post\",\"title\":\"One\",\"author\":{\"_ref\":\"a\"}}\n{\"_id\":\"q\",\"_type\":\"post\",\"title\":\"Two\",\"author\":{\"_ref\":\"b\"}}\n",
        "{\"live\":\"v\",\"query\":\"*[_type == 'post']{title, 'by': author->name}\"}\n{\"mutate\":{\"mutations\":[{\"patch\":{\"id\":\"b\",\"set\":{\"name\":\"Bea\"}}}]}}\n{\"mutate\":{\"mutations\":[{\"patch\":{\"id\":\"a\",\"set\":{\"age\":7}}}]}}\n{\"mutate\":{\"mutations\":[{\"patch\":{\"id\":\"q\",\"set\":{\"author._ref\":\"a\"}}}]}}\n{\"mutate\":{\"mutations\":[{\"patch\":{\"id\":\"b\",\"set\":{\"name\":\"Ben\"}}}]}}\n{\"mutate\":{\"mutations\":[{\"create\":{\"_id\":\"o\",\"_type\":\"post\",\"title\":\"Nil\",\"author\":{\"_ref\":\"z\",\"_weak\":true}}},{\"delete\":{\"id\":\"p\"}}]}}\n{\"mutate\":{\"mutations\":[{\"create\":{\"_id\":\"z\",\"_type\":\"person\",\"name\":\"Zoe\"}}]}}\n{\"mutate\":{\"mutations\":[{\"patch\":{\"id\":\"q\",\"set\":{\"_type\":\"page\"}}}]}}\n{\"mutate\":{\"mutations\":[{\"createOrReplace\":{\"_id\":\"q\",\"_type\":\"page\",\"title\":\"Two\"}}]}}\n",
        "{\"line\":1,\"live\":\"v\",\"result\":[{\"by\":\"Ann\",\"title\":\"One\"},{\"by\":\"Bob\",\"title\":\"Two\"}]}\n{\"line\":2,\"results\":[{\"id\":\"b\",\"operation\":\"update\"}],\"transactionId\":\"tx-2\"}\n{\"line\":2,\"live\":\"v\",\"result\":[{\"by\":\"Ann\",\"title\":\"One\"},{\"by\":\"Bea\",\"title\":\"Two\"}]}\n{\"line\":3,\"results\":[{\"id\":\"a\",\"operation\":\"update\"}],\"transactionId\":\"tx-3\"}\n{\"line\":4,\"results\":[{\"id\":\"q\",\"operation\":\"update\"}],\"transactionId\":\"tx-4\"}\n{\"line\":4,\"live\":\"v\",\"result\":[{\"by\":\"Ann\",\"title\":\"One\"},{\"by\":\"Ann\",\"title\":\"Two\"}]}\n{\"line\":5,\"results\":[{\"id\":\"b\",\"operation\":\"update\"}],\"transactionId\":\"tx-5\"}\n{\"line\":6,\"results\":[{\"id\":\"o\",\"operation\":\"create\"},{\"id\":\"p\",\"operation\":\"delete\"}],\"transactionId\":\"tx-6\"}\n{\"line\":6,\"live\":\"v\",\"result\":[{\"by\":null,\"title\":\"Nil\"},{\"by\":\"Ann\",\"title\":\"Two\"}]}\n{\"line\":7,\"results\":[{\"id\":\"z\",\"operation\":\"create\"}],\"transactionId\":\"tx-7\"}\n{\"line\":7,\"live\":\"v\",\"result\":[{\"by\":\"Zoe\",\"title\":\"Nil\"},{\"by\":\"Ann\",\"title\":\"Two\"}]}\n{\"error\":\"immutable\",\"id\":\"q\",\"line\":8,\"mutation\":0,\"name\":\"_type\"}\n{\"line\":9,\"results\":[{\"id\":\"q\",\"operation\":\"update\"}],\"transactionId\":\"tx-9\"}\n{\"line\":9,\"live\":\"v\",\"result\":[{\"by\":\"Zoe\",\"title\":\"Nil\"}]}\n",
    ),
    (
        "{\"_id\":\"p\",\"_type\":\"post\",\"author\":{\"_ref\":\"au\",\"_weak\":true}}\n",
        "{\"live\":\"v\",\"query\":\"*[_type == 'post'].author->name\"}\n{\"mutate\":{\"mutations\":[{\"create\":{\"_id\":\"au\",\"_type\":\"person\",\"name\":\"Ann\"}}]}}\n{\"mutate\":{\"mutations\":[{\"create\":{\"_id\":\"x\",\"_type\":\"other\"}}]}}\n",
        "{\"line\":1,\"live\":\"v\",\"result\":[null]}\n{\"line\":2,\"results\":[{\"id\":\"au\",\"operation\":\"create\"}],\"transactionId\":\"tx-2\"}\n{\"line\":2,\"live\":\"v\",\"result\":[\"Ann\"]}\n{\"line\":3,\"results\":[{\"id\":\"x\",\"operation\":\"create\"}],\"transactionId\":\"tx-3\"}\n",
    ),
    (
        "",
        "{\"live\":\"v\",\"query\":\"*[author == $x]{_id}\"}\n{\"mutate\":{\"mutations\":[{\"create\":{\"_id\":\"a\",\"_type\":\"t\"}}]}}\n{\"mutate\":{\"mutations\":[{\"patch\":{\"id\":\"a\",\"set\":{\"author\":\"z\"}}}]}}\n{\"mutate\":{\"mutations\":[{\"patch\":{\"id\":\"a\",\"unset\":[\"author\"]}}]}}\n",
        "{\"line\":1,\"live\":\"v\",\"result\":[]}\n{\"line\":2,\"results\":[{\"id\":\"a\",\"operation\":\"create\"}],\"transactionId\":\"tx-2\"}\n{\"line\":2,\"live\":\"v\",\"result\":[{\"_id\":\"a\"}]}\n{\"line\":3,\"results\":[{\"id\":\"a\",\"operation\":\"update\"}],\"transactionId\":\"tx-3\"}\n{\"line\":3,\"live\":\"v\",\"result\":[]}\n{\"line\":4,\"results\":[{\"id\":\"a\",\"operation\":\"update\"}],\"transactionId\":\"tx-4\"}\n{\"line\":4,\"live\":\"v\",\"result\":[{\"_id\":\"a\"}]}\n",
    ),
    (
        "",
        "{\"listen\":\"s\",\"query\":\"*\"}\n{\"live\":\"s\",\"query\":\"1\"}\n{\"listen\":\"u\",\"query\":\"*[a->b == 1]\"}\n{\"stop\":\"s\"}\n{\"stop\":\"s\"}\n",
        "{\"line\":1,\"listener\":\"s\",\"type\":\"welcome\"}\n{\"error\":\"name-used\",\"line\":2,\"name\":\"s\"}\n{\"error\":\"not-listenable\",\"line\":3}\n{\"line\":4,\"stopped\":\"s\"}\n{\"error\":\"no-name\",\"line\":5,\"name\":\"s\"}\n",
    ),
    (
        "",
        "{\"live\":\"v\",\"query\":\"*[_type == 'a']{'n': count(*[_type == 'b' && up == ^._id])}\"}\n{\"mutate\":{\"mutations\":[{\"create\":{\"_id\":\"x\",\"_type\":\"a\"}}]}}\n{\"mutate\":{\"mutations\":[{\"create\":{\"_id\":\"y\",\"_type\":\"b\",\"up\":\"x\"}}]}}\n{\"mutate\":{\"mutations\":[{\"create\":{\"_id\":\"z\",\"_type\":\"c\"}}]}}\n",
        "{\"line\":1,\"live\":\"v\",\"result\":[]}\n{\"line\":2,\"results\":[{\"id\":\"x\",\"operation\":\"create\"}],\"transactionId\":\"tx-2\"}\n{\"line\":2,\"live\":\"v\",\"result\":[{\"n\":0}]}\n{\"line\":3,\"results\":[{\"id\":\"y\",\"operation\":\"create\"}],\"transactionId\":\"tx-3\"}\n{\"line\":3,\"live\":\"v\",\"result\":[{\"n\":1}]}\n{\"line\":4,\"results\":[{\"id\":\"z\",\"operation\":\"create\"}],\"transactionId\":\"tx-4\"}\n",
    ),
    (
        "{\"_id\":\"a\",\"_type\":\"t\",\"n\":1}\n{\"_id\":\"b\",\"_type\":\"t\",\"n\":2}\n{\"_id\":\"c\",\"_type\":\"u\",\"n\":3}\n",
        "{\"live\":\"top\",\"query\":\"*[_type == 't'] | order(n desc)[0..1]{_id, n}\"}\n{\"listen\":\"heard\",\"query\":\"*[n > 2]\"}\n{\"live\":\"all\",\"query\":\"count(*)\"}\n{\"listen\":\"top\",\"query\":\"*\"}\n{\"live\":\"heard\",\"query\":\"1\"}\n{\"mutate\":{\"mutations\":[{\"create\":{\"_id\":\"d\",\"_type\":\"t\",\"n\":9}},{\"delete\":{\"id\":\"a\"}}]}}\n{\"mutate\":{\"mutations\":[{\"patch\":{\"id\":\"d\",\"set\":{\"m\":1}}}]}}\n{\"mutate\":{\"mutations\":[{\"create\":{\"_id\":\"d\",\"_type\":\"t\",\"n\":9}}]}}\n{\"stop\":\"top\"}\n{\"mutate\":{\"mutations\":[{\"delete\":{\"id\":\"d\"}}]}}\n{\"live\":\"top\",\"query\":\"*[_type == 't' && n > $least]._id\",\"params\":{\"least\":1}}\n{\"live\":\"bad\",\"query\":\"*[\"}\n{\"mutate\":{\"mutations\":[{\"createOrReplace\":{\"_id\":\"b\",\"_type\":\"u\",\"n\":7}}]}}\n",
        "{\"line\":1,\"live\":\"top\",\"result\":[{\"_id\":\"b\",\"n\":2},{\"_id\":\"a\",\"n\":1}]}\n{\"line\":2,\"listener\":\"heard\",\"type\":\"welcome\"}\n{\"line\":3,\"live\":\"all\",\"result\":3}\n{\"error\":\"name-used\",\"line\":4,\"name\":\"top\"}\n{\"error\":\"name-used\",\"line\":5,\"name\":\"heard\"}\n{\"line\":6,\"results\":[{\"id\":\"a\",\"operation\":\"delete\"},{\"id\":\"d\",\"operation\":\"create\"}],\"transactionId\":\"tx-6\"}\n{\"documentId\":\"d\",\"line\":6,\"listener\":\"heard\",\"resultRev\":\"tx-6\",\"timestamp\":\"1970-01-01T00:00:00Z\",\"transactionId\":\"tx-6\",\"transition\":\"appear\",\"type\":\"mutation\"}\n{\"line\":6,\"live\":\"top\",\"result\":[{\"_id\":\"d\",\"n\":9},{\"_id\":\"b\",\"n\":2}]}\n{\"line\":7,\"results\":[{\"id\":\"d\",\"operation\":\"update\"}],\"transactionId\":\"tx-7\"}\n{\"documentId\":\"d\",\"line\":7,\"listener\":\"heard\",\"previousRev\":\"tx-6\",\"resultRev\":\"tx-7\",\"timestamp\":\"1970-01-01T00:00:00Z\",\"transactionId\":\"tx-7\",\"transition\":\"update\",\"type\":\"mutation\"}\n{\"error\":\"exists\",\"id\":\"d\",\"line\":8,\"mutation\":0}\n{\"line\":9,\"stopped\":\"top\"}\n{\"line\":10,\"results\":[{\"id\":\"d\",\"operation\":\"delete\"}],\"transactionId\":\"tx-10\"}\n{\"documentId\":\"d\",\"line\":10,\"listener\":\"heard\",\"previousRev\":\"tx-7\",\"timestamp\":\"1970-01-01T00:00:00Z\",\"transactionId\":\"tx-10\",\"transition\":\"disappear\",\"type\":\"mutation\"}\n{\"line\":10,\"live\":\"all\",\"result\":2}\n{\"line\":11,\"live\":\"top\",\"result\":[\"b\"]}\n{\"error\":\"syntax\",\"line\":12}\n{\"line\":13,\"results\":[{\"id\":\"b\",\"operation\":\"update\"}],\"transactionId\":\"tx-13\"}\n{\"documentId\":\"b\",\"line\":13,\"listener\":\"heard\",\"previousRev\":\"import\",\"resultRev\":\"tx-13\",\"timestamp\":\"1970-01-01T00:00:00Z\",\"transactionId\":\"tx-13\",\"transition\":\"appear\",\"type\":\"mutation\"}\n{\"line\":13,\"live\":\"top\",\"result\":[]}\n",
    ),
];

#[test]
fn tells_answers_anew(rt: HostRuntime) -> Result<(), Fail> {
    for (data, script, wanted) in &LIVES {
        let outside = Outside {
            words: "content_store --data data",
            data: data.as_bytes(),
            script: script.as_bytes(),
            ..PLAIN
        };
        ends(&rt, rt.alloc(), outside, Status::Done, wanted, script)?;
    }
    Ok(())
}
