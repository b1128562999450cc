//! Paths, read and followed.
use cs_jsonmatch::{JsonPath, Part, PathFault, Place, Step};
use cs_value::{Fields, Txt, Val};
use std::alloc::Global;
use std::mem::size_of;
use std::test::Fail;

fn text(alloc: Global, text: &str) -> Result<Val, Fail> {
    Ok(Val::Text(Txt::copy_of(alloc, text)?))
}

fn add(alloc: Global, object: &mut Fields, name: &str, val: Val) -> Result<(), Fail> {
    drop(object.put(Txt::copy_of(alloc, name)?, val)?);
    Ok(())
}

// `{name: val}`
fn object(alloc: Global, name: &str, val: Val) -> Result<Val, Fail> {
    let mut object = Fields::new(alloc);
    add(alloc, &mut object, name, val)?;
    Ok(Val::Obj(object))
}

// [{"_key": "k", "n": 1}, {"n": 2}, 5, [{"n": 3}]]
fn entries(alloc: Global) -> Result<Val, Fail> {
    let mut keyed = Fields::new(alloc);
    add(alloc, &mut keyed, "_key", text(alloc, "k")?)?;
    add(alloc, &mut keyed, "n", Val::Num(1))?;
    let inner = Vec::from_array(alloc, [object(alloc, "n", Val::Num(3))?])?;
    let entries = [
        Val::Obj(keyed),
        object(alloc, "n", Val::Num(2))?,
        Val::Num(5),
        Val::List(inner),
    ];
    Ok(Val::List(Vec::from_array(alloc, entries)?))
}

// {"a": {"b": the entries, "n": null}, "l": [1, "x", true, null, [7]], "n": {"n": {"n": 0}}, "x y":
// 2, "é": 3}
fn sample(alloc: Global) -> Result<Val, Fail> {
    let mut a = Fields::new(alloc);
    add(alloc, &mut a, "b", entries(alloc)?)?;
    add(alloc, &mut a, "n", Val::Null)?;
    let seven = Val::List(Vec::from_array(alloc, [Val::Num(7)])?);
    let l = [
        Val::Num(1),
        text(alloc, "x")?,
        Val::Bool(true),
        Val::Null,
        seven,
    ];
    let mut sample = Fields::new(alloc);
    add(alloc, &mut sample, "a", Val::Obj(a))?;
    let l = Val::List(Vec::from_array(alloc, l)?);
    add(alloc, &mut sample, "l", l)?;
    let n = object(alloc, "n", object(alloc, "n", Val::Num(0))?)?;
    add(alloc, &mut sample, "n", n)?;
    add(alloc, &mut sample, "x y", Val::Num(2))?;
    add(alloc, &mut sample, "é", Val::Num(3))?;
    Ok(Val::Obj(sample))
}

fn shown_part(alloc: Global, part: &Part) -> Result<String, Fail> {
    Ok(match part {
        Part::Name(name) => format!(in alloc; ".{}", name.as_str())?,
        Part::Pos(at) => format!(in alloc; "[{at}]")?,
    })
}

fn shown_place(alloc: Global, place: &Place) -> Result<String, Fail> {
    let mut shown = String::new(alloc);
    for part in &place.parts {
        shown.push_str(shown_part(alloc, part)?.as_str())?;
    }
    Ok(shown)
}

fn shown(alloc: Global, places: &[Place]) -> Result<String, Fail> {
    let mut shown = String::new(alloc);
    for place in places {
        if !shown.is_empty() {
            shown.push(' ')?;
        }
        shown.push_str(shown_place(alloc, place)?.as_str())?;
    }
    if shown.is_empty() {
        shown.push_str("none")?;
    }
    Ok(shown)
}

// What a path of the table answers on the value. The paths there are short.
fn answer(alloc: Global, text: &str, val: &Val) -> Result<String, Fail> {
    if text.len() > 100 {
        return Ok(String::from_str(alloc, "too long")?);
    }
    match JsonPath::read(alloc, text) {
        Ok(path) => {
            let found = path.places(alloc, val)?;
            shown(alloc, &found)
        }
        Err(PathFault::BadPath { at }) => Ok(format!(in alloc; "bad at {at}")?),
        Err(PathFault::NoMemory) => Ok(String::from_str(alloc, "no memory")?),
    }
}

// A path in each line, and behind ` => ` its places in the sample or where it is bad.
const TABLE: &str = r#" => bad at 0
a => .a
_a => none
A9_ => none
9a => bad at 0
é => bad at 0
a.n => .a.n
a..n => .a.b[0].n .a.b[1].n .a.b[3][0].n .a.n
a. => bad at 2
a.. => bad at 3
a...n => bad at 3
a .n => bad at 1
a. n => bad at 2
 a => bad at 0
a  => bad at 1
.a => bad at 1
.. => bad at 2
...a => bad at 2
..n => .a.b[0].n .a.b[1].n .a.b[3][0].n .a.n .n .n.n .n.n.n
..n.n => .n.n .n.n.n
.. n => bad at 2
..[n => bad at 4
['a'] => .a
["a"] => .a
['x y'] => .x y
['é'] => .é
['a' ] => .a
[ 'a' , "l" ] => .a .l
[] => bad at 1
[ ] => bad at 2
[,] => bad at 1
['a',] => bad at 5
['a',,'l'] => bad at 5
['a' => bad at 4
['a'x => bad at 4
['a"] => bad at 5
["a'b"] => none
['\''] => none
['\"'] => none
["\\"] => none
["\b"] => bad at 3
['é\é'] => bad at 5
['é => bad at 4
a.b[0] => .a.b[0]
a.b[3] => .a.b[3]
a.b[4] => none
a.b[-1] => .a.b[3]
a.b[-4] => .a.b[0]
a.b[-5] => none
a.b[-0] => .a.b[0]
a.b[00] => .a.b[0]
a.b[ -1 ,0] => .a.b[0] .a.b[3]
a.b[2,0,0] => .a.b[0] .a.b[2]
a.n[0] => none
a[0] => none
a.b[-] => bad at 5
a.b[- 1] => bad at 5
a.b[--1] => bad at 5
a.b[+1] => bad at 4
a.b[1.5] => bad at 5
[123456789012345678] => none
[1234567890123456789] => bad at 19
[-123456789012345678] => none
[-1234567890123456789] => bad at 20
l[1:3] => .l[1] .l[2]
l[:2] => .l[0] .l[1]
l[-2:] => .l[3] .l[4]
l[:] => .l[0] .l[1] .l[2] .l[3] .l[4]
l[-9:9] => .l[0] .l[1] .l[2] .l[3] .l[4]
l[3:1] => none
l[-3:-1] => .l[2] .l[3]
l[0:0] => none
l[5:] => none
l[ : ] => .l[0] .l[1] .l[2] .l[3] .l[4]
l[1 :2] => bad at 4
l[1: 2] => bad at 5
l[1:2:3] => bad at 5
l[::] => bad at 3
l[1-2] => bad at 3
l[*] => .l[0] .l[1] .l[2] .l[3] .l[4]
[*] => .a .l .n .x y .é
* => bad at 0
a[*] => .a.b .a.n
l[**] => bad at 3
l[*:] => bad at 3
l[0,*,-1] => .l[0] .l[1] .l[2] .l[3] .l[4]
a.b[n==1] => .a.b[0]
a.b[n == 1] => .a.b[0]
a.b[n  ==1 ] => .a.b[0]
a.b[n=1] => bad at 6
a.b[n= =1] => bad at 6
a.b[n!=1] => .a.b[1]
a.b[n!1] => bad at 6
a.b[n<2] => .a.b[0]
a.b[n<=2] => .a.b[0] .a.b[1]
a.b[n>1] => .a.b[1]
a.b[n>=1] => .a.b[0] .a.b[1]
a.b[n=>1] => bad at 6
a.b[n<>1] => bad at 6
a.b[n === 1] => bad at 8
a.b[_key=='k'] => .a.b[0]
a.b[_key!='k'] => none
a.b[_key!="z"] => .a.b[0]
a.b[_key<'l'] => .a.b[0]
a.b[_key>='l'] => none
a.b[zz!=null] => none
a.b[@==5] => .a.b[2]
a.b[@ != 5] => .a.b[0] .a.b[1] .a.b[3]
a.b[@>4] => .a.b[2]
l[@==true] => .l[2]
l[@==false] => none
l[@>=false] => .l[2]
l[@==null] => .l[3]
l[@!=null] => .l[0] .l[1] .l[2] .l[4]
l[@<=null] => none
l[@=='x'] => .l[1]
l[@<"y"] => .l[1]
l[@>-1] => .l[0]
l[@==1,@=='x'] => .l[0] .l[1]
l[@==1.5] => bad at 6
l[@==01] => .l[0]
l[@==-01] => none
l[@] => bad at 3
l[@.a==1] => bad at 3
l[@ .a==1] => bad at 4
a.b[n.n==1] => none
a.b[n.==1] => bad at 6
a.b[n .n==1] => bad at 6
a.b[n => bad at 5
a.b[n] => bad at 5
a.b[n== => bad at 7
a.b[n==tru] => bad at 10
a.b[n==truex] => bad at 11
a.b[n==true => bad at 11
a.b[n==falsy] => bad at 11
a.b[n==nul] => bad at 10
a.b[n==True] => bad at 7
a.b[n==x] => bad at 7
a.b[n==1234567890123456789] => bad at 25
a[1234567890123456789] => bad at 20
a[n=1] => bad at 4
a[n==truex] => bad at 9
..[n==3] => .a.b[3][0]
..[n>=1] => .a.b[0] .a.b[1] .a.b[3][0]
..[n>=1].n => .a.b[0].n .a.b[1].n .a.b[3][0].n
..[0] => .a.b[0] .a.b[3][0] .l[0] .l[4][0]
..[-1] => .a.b[3] .a.b[3][0] .l[4] .l[4][0]
..[*] => .a .a.b .a.b[0] .a.b[0]._key .a.b[0].n .a.b[1] .a.b[1].n .a.b[2] .a.b[3] .a.b[3][0] .a.b[3][0].n .a.n .l .l[0] .l[1] .l[2] .l[3] .l[4] .l[4][0] .n .n.n .n.n.n .x y .é
..['n','a'] => .a .a.b[0].n .a.b[1].n .a.b[3][0].n .a.n .n .n.n .n.n.n
..n..n => .n.n .n.n.n
..n..n..n => .n.n.n
..a..n => .a.b[0].n .a.b[1].n .a.b[3][0].n .a.n
a..b[*]..n => .a.b[0].n .a.b[1].n .a.b[3][0].n
a['b'][0]['n'] => .a.b[0].n
a['b'].n => none
a['b']n => bad at 6
a[0]] => bad at 4
a[0] .n => bad at 4
a[0]..n => none
a$ => bad at 1
n.n.n.n => none
l[4][0] => .l[4][0]
l[4][@==7] => .l[4][0]
l[@==7] => none
..[@==7] => .l[4][0]
["b\n"] => bad at 4
a[ => bad at 2
[a.b => bad at 4
["\'\"\\é😀" => bad at 15
["é"] => .é"#;

#[test]
fn paths_on_a_sample(rt: HostRuntime) -> Result<(), Fail> {
    let alloc = rt.alloc();
    let val = sample(alloc)?;
    for row in TABLE.lines() {
        let Some((text, wanted)) = row.split_once(" => ") else {
            assert_eq!(rt; row, "a path and its answer");
            continue;
        };
        let got = answer(alloc, text, &val)?;
        assert_eq!(rt; got.as_str(), wanted, "{text}");
    }
    Ok(())
}

// A path may have millions of steps. The text of a name is beside them.
#[test]
fn a_step_has_at_most_64_bytes(rt: HostRuntime) -> Result<(), Fail> {
    assert!(rt; size_of::<Step>() <= 64);
    Ok(())
}
