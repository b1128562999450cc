//! The walk over all filters of a query.
use crate::asked::wanted_of;
use cs_codes::KeyKind;
use cs_syntax::{Arg, BinSign, Elem, Entry, Expr, OrderKey, Query, Step};
use cs_value::NoMemory;
use std::alloc::Global;

// Puts the kinds last that the filter of the chain wants, where it is one of `*`.
fn put_of_chain(
    base: &Expr,
    steps: &[Step],
    alloc: Global,
    found: &mut Vec<KeyKind>,
) -> Result<(), NoMemory> {
    if let Expr::All = base {
        if let Some(Step::Bracket(filter)) = steps.first() {
            let mut kinds = wanted_of(filter, alloc)?;
            found.append(&mut kinds)?;
        }
    }
    Ok(())
}

// Puts the kinds last that all filters in the expression want.
#[cycle(wanted)]
fn put(expr: &Expr, alloc: Global, found: &mut Vec<KeyKind>) -> Result<(), NoMemory> {
    match expr {
        Expr::Round(inner) => put(inner, alloc, found),
        Expr::Call { args, .. } => put_arguments(args, alloc, found),
        Expr::Array(elements) => put_elements(elements, alloc, found),
        Expr::Object(entries) => put_entries(entries, alloc, found),
        Expr::Chain { base, steps } => {
            put_of_chain(base, steps, alloc, found)?;
            put(base, alloc, found)?;
            put_steps(steps, alloc, found)
        },
        Expr::Prefix { operand, .. } => put(operand, alloc, found),
        Expr::Run { first, rest } => {
            put(first, alloc, found)?;
            put_operands(rest, alloc, found)
        },
        Expr::Within { left, right } => {
            put(left, alloc, found)?;
            put(right, alloc, found)
        },
        Expr::Between { left, from, to, .. } => {
            put(left, alloc, found)?;
            put(from, alloc, found)?;
            put(to, alloc, found)
        },
        _ => Ok(()),
    }
}

#[cycle(wanted)]
fn put_operands(
    rest: &[(BinSign, Expr)],
    alloc: Global,
    found: &mut Vec<KeyKind>,
) -> Result<(), NoMemory> {
    for (_, operand) in rest {
        put(operand, alloc, found)?;
    }
    Ok(())
}

#[cycle(wanted)]
fn put_argument(arg: &Arg, alloc: Global, found: &mut Vec<KeyKind>) -> Result<(), NoMemory> {
    match arg {
        Arg::One(expr) => put(expr, alloc, found),
        Arg::When(condition, expr) => {
            put(condition, alloc, found)?;
            put(expr, alloc, found)
        },
    }
}

#[cycle(wanted)]
fn put_arguments(args: &[Arg], alloc: Global, found: &mut Vec<KeyKind>) -> Result<(), NoMemory> {
    for arg in args {
        put_argument(arg, alloc, found)?;
    }
    Ok(())
}

#[cycle(wanted)]
fn put_element(elem: &Elem, alloc: Global, found: &mut Vec<KeyKind>) -> Result<(), NoMemory> {
    match elem {
        Elem::One(expr) => put(expr, alloc, found),
        Elem::Spread(expr) => put(expr, alloc, found),
    }
}

#[cycle(wanted)]
fn put_elements(
    elements: &[Elem],
    alloc: Global,
    found: &mut Vec<KeyKind>,
) -> Result<(), NoMemory> {
    for elem in elements {
        put_element(elem, alloc, found)?;
    }
    Ok(())
}

#[cycle(wanted)]
fn put_entry(entry: &Entry, alloc: Global, found: &mut Vec<KeyKind>) -> Result<(), NoMemory> {
    match entry {
        Entry::Keyed(_, expr) => put(expr, alloc, found),
        Entry::Bare(expr) => put(expr, alloc, found),
        Entry::When(condition, expr) => {
            put(condition, alloc, found)?;
            put(expr, alloc, found)
        },
        Entry::Spread(expr) => put(expr, alloc, found),
    }
}

#[cycle(wanted)]
fn put_entries(entries: &[Entry], alloc: Global, found: &mut Vec<KeyKind>) -> Result<(), NoMemory> {
    for entry in entries {
        put_entry(entry, alloc, found)?;
    }
    Ok(())
}

#[cycle(wanted)]
fn put_step(step: &Step, alloc: Global, found: &mut Vec<KeyKind>) -> Result<(), NoMemory> {
    match step {
        Step::Attr(_) | Step::Deref | Step::Each => Ok(()),
        Step::Slice { from, to, .. } => {
            put(from, alloc, found)?;
            put(to, alloc, found)
        },
        Step::Bracket(inner) => put(inner, alloc, found),
        Step::Project(entries) => put_entries(entries, alloc, found),
        Step::Pipe { keys, .. } => put_keys(keys, alloc, found),
    }
}

#[cycle(wanted)]
fn put_steps(steps: &[Step], alloc: Global, found: &mut Vec<KeyKind>) -> Result<(), NoMemory> {
    for step in steps {
        put_step(step, alloc, found)?;
    }
    Ok(())
}

#[cycle(wanted)]
fn put_keys(keys: &[OrderKey], alloc: Global, found: &mut Vec<KeyKind>) -> Result<(), NoMemory> {
    for key in keys {
        put(&key.key, alloc, found)?;
    }
    Ok(())
}

/// The kinds of keys by which the filters of a query ask for documents, for an index that is to
/// have them. One may be there several times. Nothing but time hangs on the answer, so no clause
/// speaks of it. `NoMemory` where the allocator has no room for them.
pub fn wanted_kinds(alloc: Global, query: &Query) -> Result<Vec<KeyKind>, NoMemory> {
    let mut found = Vec::new(alloc);
    put(query.expr(), alloc, &mut found)?;
    Ok(found)
}
