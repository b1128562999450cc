//! What no clause says: how large a value is, and that an object has room on both of its forms.
ghost use Rattle.std.specs.Prelude.{◌≤◌};

use crate::map::name::Name;
use crate::{Fields, Txt, Val};
use std::alloc::Global;
use std::mem::size_of;
use std::process::Abort;
use std::test::Fail;

#[test]
fn a_value_is_small(rt: HostRuntime) -> Result<(), Fail> {
    assert!(rt; size_of::<Val>() <= 40);
    assert!(rt; size_of::<Txt>() <= 32);
    assert!(rt; size_of::<(Name, Val)>() <= 56);
    Ok(())
}

fn name(alloc: Global, number: u32) -> Result<String, Fail> {
    Ok(format!(in alloc; "{number:04}")?)
}

// So many numbers, each under its name, put in a scattered order.
fn numbered(alloc: Global, many: u32) -> Result<Fields, Fail>
    requires { many ≤ 100 }
{
    let mut object = Fields::new(alloc);
    for i in 0..many {
        let n = i * 7 % 101;
        drop(object.put(Txt::from_string(name(alloc, n)?), Val::Num(n as i64))?);
    }
    Ok(object)
}

fn keeps(rt: &impl Abort, alloc: Global, many: u32) -> Result<(), Fail>
    requires { many ≤ 100 }
{
    let mut object = numbered(alloc, many)?;
    assert_eq!(rt; object.pairs.len(), many as usize);
    let mut last = String::new(alloc);
    for (name, _) in object.pairs.iter() {
        assert!(rt; last.as_str() < name);
        last = String::from_str(alloc, name)?;
    }
    for i in 0..many {
        let n = i * 7 % 101;
        let name = name(alloc, n)?;
        assert!(rt; matches!(object.get(name.as_str()), Some(Val::Num(v)) if *v == n as i64));
    }
    assert!(rt; matches!(object.take("0000"), Some(Val::Num(0))));
    assert!(rt; object.get("0000").is_none());
    assert!(rt; object.take("x").is_none());
    for (_, value) in object.pairs.into_iter() {
        assert!(rt; !matches!(value, Val::Num(0)));
    }
    Ok(())
}

#[test]
fn an_object_keeps_what_was_put(rt: HostRuntime) -> Result<(), Fail> {
    keeps(&rt, rt.alloc(), 1)?;
    keeps(&rt, rt.alloc(), 32)?;
    keeps(&rt, rt.alloc(), 33)?;
    keeps(&rt, rt.alloc(), 100)
}

// The name is sought twice, since the second time its place is known.
fn finds(rt: &impl Abort, alloc: Global, name: &Txt, many: u32) -> Result<(), Fail>
    requires { many ≤ 100 }
{
    let object = Val::Obj(numbered(alloc, many)?);
    assert!(rt; matches!(object.attribute(name), Some(Val::Num(14))));
    assert!(rt; matches!(object.attribute(name), Some(Val::Num(14))));
    Ok(())
}

#[test]
fn a_name_is_found_wherever_it_stands(rt: HostRuntime) -> Result<(), Fail> {
    let alloc = rt.alloc();
    let name = Txt::copy_of(alloc, "0014")?;
    finds(&rt, alloc, &name, 3)?;
    finds(&rt, alloc, &name, 20)?;
    finds(&rt, alloc, &name, 3)?;
    finds(&rt, alloc, &name, 100)?;
    assert!(rt; Val::Obj(numbered(alloc, 2)?).attribute(&name).is_none());
    assert!(rt; Val::Null.attribute(&name).is_none());
    Ok(())
}
