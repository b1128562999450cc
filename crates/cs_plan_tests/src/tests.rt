//! The keys of filters that were worked out by hand.
use cs_plan::choose;
use cs_syntax::{Arg, BinSign, Expr, PreSign, Step};
use cs_value::{Fields, Txt, Val};
use cs_view::{Key, Names, Scalar, Scope};
use std::alloc::Global;
use std::test::Fail;

fn word(alloc: Global, name: &str) -> Result<Expr, Fail> {
    Ok(Expr::Word(Txt::copy_of(alloc, name)?))
}

fn text(alloc: Global, text: &str) -> Result<Expr, Fail> {
    Ok(Expr::Text(Txt::copy_of(alloc, text)?))
}

fn number(alloc: Global, digits: &str) -> Result<Expr, Fail> {
    Ok(Expr::Number(Txt::copy_of(alloc, digits)?))
}

fn joined(alloc: Global, left: Expr, sign: BinSign, right: Expr) -> Result<Expr, Fail> {
    let mut rest = Vec::new(alloc);
    rest.push((sign, right))?;
    Ok(Expr::Run {
        first: Box::new(alloc, left)?,
        rest,
    })
}

// name == ..
fn equals(alloc: Global, name: &str, right: Expr) -> Result<Expr, Fail> {
    joined(alloc, word(alloc, name)?, BinSign::Eq, right)
}

// A base and attributes of it, written with dots between them.
fn attributes(alloc: Global, base: Expr, dotted: &str) -> Result<Expr, Fail> {
    let mut steps = Vec::new(alloc);
    for name in dotted.split('.') {
        steps.push(Step::Attr(Txt::copy_of(alloc, name)?))?;
    }
    Ok(Expr::Chain {
        base: Box::new(alloc, base)?,
        steps,
    })
}

// references(target)
fn references(alloc: Global, target: &str) -> Result<Expr, Fail> {
    let mut args = Vec::new(alloc);
    args.push(Arg::One(text(alloc, target)?))?;
    Ok(Expr::Call {
        name: Txt::copy_of(alloc, "references")?,
        args,
    })
}

// 'x' in name
fn has_x(alloc: Global, name: &str) -> Result<Expr, Fail> {
    Ok(Expr::Within {
        left: Box::new(alloc, text(alloc, "x")?)?,
        right: Box::new(alloc, word(alloc, name)?)?,
    })
}

// -1
fn minus_one(alloc: Global) -> Result<Expr, Fail> {
    let mut signs = Vec::new(alloc);
    signs.push(PreSign::Minus)?;
    Ok(Expr::Prefix {
        signs,
        operand: Box::new(alloc, number(alloc, "1")?)?,
    })
}

// Each filter with its key in the scope of null alone.
fn worked(alloc: Global) -> Result<Vec<(Expr, &'static str)>, Fail> {
    let is_t = equals(alloc, "_type", text(alloc, "t")?)?;
    let is_one = equals(alloc, "n", number(alloc, "1")?)?;
    let above_one = joined(alloc, word(alloc, "n")?, BinSign::Gt, number(alloc, "1")?)?;
    let mut rows = Vec::new(alloc);
    let is_post = equals(alloc, "_type", text(alloc, "post")?)?;
    let is_a = equals(alloc, "_id", text(alloc, "a")?)?;
    rows.push((joined(alloc, is_post, BinSign::And, is_a)?, "id a"))?;
    let refers = references(alloc, "p")?;
    let also_t = equals(alloc, "_type", text(alloc, "t")?)?;
    rows.push((joined(alloc, refers, BinSign::And, also_t)?, "ref p"))?;
    let round = Expr::Round(Box::new(alloc, is_t)?);
    rows.push((
        joined(alloc, round, BinSign::And, above_one)?,
        "path _type 't'",
    ))?;
    rows.push((has_x(alloc, "tags")?, "elem tags 'x'"))?;
    let or_t = equals(alloc, "_type", text(alloc, "t")?)?;
    rows.push((joined(alloc, is_one, BinSign::Or, or_t)?, "all"))?;
    let not_given = Expr::Param(Txt::copy_of(alloc, "x")?);
    rows.push((equals(alloc, "author", not_given)?, "all"))?;
    let five = attributes(alloc, word(alloc, "a")?, "b.c.d.e")?;
    rows.push((
        joined(alloc, five, BinSign::Eq, number(alloc, "1")?)?,
        "all",
    ))?;
    rows.push((equals(alloc, "n", minus_one(alloc)?)?, "path n -1"))?;
    rows.push((up_is_outer_id(alloc)?, "all"))?;
    Ok(rows)
}

// up == ^._id
fn up_is_outer_id(alloc: Global) -> Result<Expr, Fail> {
    equals(alloc, "up", attributes(alloc, Expr::Up(1), "_id")?)
}

fn scalar_words(alloc: Global, scalar: &Scalar) -> Result<String, Fail> {
    Ok(match scalar {
        Scalar::Bool(b) => format!(in alloc; "{b}")?,
        Scalar::Num(n) => format!(in alloc; "{n}")?,
        Scalar::Text(text) => format!(in alloc; "'{}'", text.as_str())?,
    })
}

fn dotted(alloc: Global, names: &Names) -> Result<String, Fail> {
    let mut dotted = String::new(alloc);
    for name in names.texts() {
        if !dotted.is_empty() {
            dotted.push('.')?;
        }
        dotted.push_str(name.as_str())?;
    }
    Ok(dotted)
}

// A key in up to three words: its kind, what it names, and its scalar.
fn key_words(alloc: Global, key: &Key) -> Result<String, Fail> {
    Ok(match key {
        Key::All => String::from_str(alloc, "all")?,
        Key::Id(id) => format!(in alloc; "id {}", id.as_str())?,
        Key::Ref(target) => format!(in alloc; "ref {}", target.as_str())?,
        Key::Path(names, scalar) => {
            format!(in alloc;
                "path {} {}",
                dotted(alloc, names)?,
                scalar_words(alloc, scalar)?
            )?
        }
        Key::Elem(names, scalar) => {
            format!(in alloc;
                "elem {} {}",
                dotted(alloc, names)?,
                scalar_words(alloc, scalar)?
            )?
        }
    })
}

// The key in words, of a filter, a scope and parameters that live no equally long time.
fn chosen(
    alloc: Global,
    filter: &Expr,
    scope: &Scope<'_>,
    params: &Fields,
) -> Result<String, Fail> {
    key_words(alloc, &choose(alloc, filter, scope, params)?)
}

// The same in the scope of a value and another scope around it.
fn chosen_inside<'s>(
    alloc: Global,
    filter: &Expr,
    this: &'s Val,
    around: &'s Scope<'s>,
    params: &Fields,
) -> Result<String, Fail> {
    let inner = Scope {
        this,
        parent: Some(around),
    };
    chosen(alloc, filter, &inner, params)
}

#[test]
fn keys_of_worked_filters(rt: HostRuntime) -> Result<(), Fail> {
    let alloc = rt.alloc();
    let none = Fields::new(alloc);
    let null = Val::Null;
    let root = Scope {
        this: &null,
        parent: None,
    };
    for (filter, wanted) in &worked(alloc)? {
        let key = chosen(alloc, filter, &root, &none)?;
        assert_eq!(rt; key.as_str(), *wanted);
    }
    Ok(())
}

#[test]
fn key_of_a_value_of_the_outer_scope(rt: HostRuntime) -> Result<(), Fail> {
    let alloc = rt.alloc();
    let none = Fields::new(alloc);
    let null = Val::Null;
    let root = Scope {
        this: &null,
        parent: None,
    };
    let mut object = Fields::new(alloc);
    drop(object.put(
        Txt::copy_of(alloc, "_id")?,
        Val::Text(Txt::copy_of(alloc, "x")?),
    )?);
    let object = Val::Obj(object);
    let key = chosen_inside(alloc, &up_is_outer_id(alloc)?, &object, &root, &none)?;
    assert_eq!(rt; key.as_str(), "path up 'x'");
    Ok(())
}
