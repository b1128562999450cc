//! Tables of rows, sought by name.
#![tactic(auto)]

ghost use Rattle.std.specs.Prelude.{◌≡◌, ◌≢◌, ℕ, List, All, Contains, IfNone, IfSome, map, option_map};
ghost use Rattle.cs_table.specs.Ascending.{IsAscending};
ghost use Rattle.cs_table.specs.Row.{row_of};

use cs_value::compared;

/// A row of a table, which has a name.
pub trait Row {
    ghost called: { Self → List ℕ };

    /// The name by which the row is sought.
    fn name(&self) -> &str
        ensures { result.now ≡ called self.now };
}

/// Rows in strictly ascending order of their names' bytes, so that no two have one name.
#[derive(Drop)]
pub struct Table<'t, R: Row> {
    rows: &'t [R],
    ghost ascends: { IsAscending (map R.called rows.now) },
}

impl<'t, R: Row> Table<'t, R> {
    /// The table of the rows, whose names ascend strictly.
    pub fn over(rows: &'t [R]) -> Table<'t, R>
        requires { IsAscending (map R.called rows.now) }
        ensures { result.rows.now ≡ rows.now }
    {
        Table { rows }
    }

    /// The row of the name, by binary search: `None` exactly where no row has the name.
    pub fn find(&self, name: &str) -> Option<&'t R>
        ensures row { option_map (λ r. r.now) result ≡ row_of R.called name.now self.now.rows.now }
        ensures named { IfSome result (λ r. R.called r.now ≡ name.now) }
        ensures found { IfSome result (λ r. Contains self.now.rows.now r.now) }
        ensures none { IfNone result (All (λ r. R.called r ≢ name.now) self.now.rows.now) }
    {
        match self.rows.binary_search_by(|row| compared(row.name(), name)) {
            Ok(place) => Some(&self.rows[place]),
            Err(_) => None,
        }
    }
}
