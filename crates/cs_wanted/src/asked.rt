//! What one filter asks for.
use crate::paths::{LentPath, path_of};
use cs_codes::KeyKind;
use cs_plan::is_quiet;
use cs_syntax::{BinSign, Expr, without_global};
use cs_value::NoMemory;
use std::alloc::Global;

/// The kinds of keys of the conjuncts of a filter. Many documents are expected to share a key of
/// the wide ones, as they share a type, a boolean or a tag.
#[derive(Drop)]
struct Asked {
    by_id: bool,
    narrow: Vec<KeyKind>,
    wide: Vec<KeyKind>,
}

impl Asked {
    fn none(alloc: Global) -> Asked {
        Asked {
            by_id: false,
            narrow: Vec::new(alloc),
            wide: Vec::new(alloc),
        }
    }

    // The kinds that are wanted for the filter. None are where its documents are found by their
    // ids, and the wide ones only where there are no others; or where the filter looks something up
    // itself, since it is tried then at all documents of one key, which may be a wide one.
    fn wanted(self, is_quiet: bool, alloc: Global) -> Result<Vec<KeyKind>, NoMemory> {
        let Asked {
            by_id,
            narrow,
            wide,
        } = self;
        if by_id {
            return Ok(Vec::new(alloc));
        }
        if !narrow.is_empty() && is_quiet {
            return Ok(narrow);
        }
        let mut kinds = narrow;
        let mut others = wide;
        kinds.append(&mut others)?;
        Ok(kinds)
    }

    // Takes in that the values at the end of the path are compared with a value.
    fn put_path(
        &mut self,
        path: &LentPath<'_>,
        value: &Expr,
        alloc: Global,
    ) -> Result<(), NoMemory> {
        if path.is_id() {
            self.by_id = true;
        } else if let Some(names) = path.names(alloc)? {
            if path.is_type() || matches!(value, Expr::Bool(_)) {
                self.wide.push(KeyKind::Path(names))?;
            } else {
                self.narrow.push(KeyKind::Path(names))?;
            }
        }
        Ok(())
    }

    // Takes in `left == right`. Of two paths none is compared with a value known beforehand.
    fn put_equality(&mut self, left: &Expr, right: &Expr, alloc: Global) -> Result<(), NoMemory> {
        match (path_of(left), path_of(right)) {
            (Some(path), None) => self.put_path(&path, right, alloc),
            (None, Some(path)) => self.put_path(&path, left, alloc),
            _ => Ok(()),
        }
    }

    // Takes in that the list that `expr` is, if it is a path, is searched for an element.
    fn put_list(&mut self, expr: &Expr, alloc: Global) -> Result<(), NoMemory> {
        if let Some(path) = path_of(expr) {
            if let Some(names) = path.names(alloc)? {
                self.wide.push(KeyKind::Elem(names))?;
            }
        }
        Ok(())
    }

    // Takes in a conjunct.
    fn put_conjunct(&mut self, expr: &Expr, alloc: Global) -> Result<(), NoMemory> {
        match expr {
            Expr::Run { first, rest } => match sole_equal(rest) {
                Some(right) => self.put_equality(first, right, alloc),
                None => Ok(()),
            },
            Expr::Within { right, .. } => self.put_list(right, alloc),
            Expr::Call { name, .. } => {
                if without_global(name.as_str()) == "references".as_bytes() {
                    self.narrow.push(KeyKind::Ref)?;
                }
                Ok(())
            },
            _ => Ok(()),
        }
    }
}

// The right side, where the operators are one `==` alone.
fn sole_equal(rest: &[(BinSign, Expr)]) -> Option<&Expr> {
    let (first, others) = rest.split_first()?;
    if others.is_empty() && first.0 == BinSign::Eq {
        Some(&first.1)
    } else {
        None
    }
}

// Whether the operators are `&&` alone.
fn all_and(rest: &[(BinSign, Expr)]) -> bool {
    rest.iter().all(|operand| operand.0 == BinSign::And)
}

// Takes in the conjuncts of an expression.
#[cycle(put)]
fn put_conjuncts(expr: &Expr, alloc: Global, asked: &mut Asked) -> Result<(), NoMemory> {
    match expr {
        Expr::Round(inner) => put_conjuncts(inner, alloc, asked),
        Expr::Run { first, rest } => {
            if !all_and(rest) {
                return asked.put_conjunct(expr, alloc);
            }
            put_conjuncts(first, alloc, asked)?;
            put_operands(rest, alloc, asked)
        },
        _ => asked.put_conjunct(expr, alloc),
    }
}

#[cycle(put)]
fn put_operands(
    rest: &[(BinSign, Expr)],
    alloc: Global,
    asked: &mut Asked,
) -> Result<(), NoMemory> {
    for (_, operand) in rest {
        put_conjuncts(operand, alloc, asked)?;
    }
    Ok(())
}

/// The kinds of keys that are wanted for a filter of `*`. `NoMemory` where the allocator has no
/// room for them.
pub(crate) fn wanted_of(filter: &Expr, alloc: Global) -> Result<Vec<KeyKind>, NoMemory> {
    let mut asked = Asked::none(alloc);
    put_conjuncts(filter, alloc, &mut asked)?;
    asked.wanted(is_quiet(filter), alloc)
}
