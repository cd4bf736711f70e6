//! The records of a wave, by level.
ghost use Rattle.std.specs.Prelude.{◌≡◌, ◌<◌, length, map};
ghost use Rattle.req_table.specs.Tables.{row_at};

use req_table::Record;
use std::marker::Model;

/// The records of a wave, in a row for each level.
#[derive(Drop)]
pub struct Records {
    rows: Vec<Vec<Record>>,
}

impl Model for Records {
    ghost use Rattle.std.specs.Prelude.{List, map};
    ghost use Rattle.req_table.specs.declared.Record.{Record};

    ghost Value = { List (List Record) };

    ghost view = { λ r. map (λ row. row.items) r.rows.items };
}

impl Records {
    /// Returns the records of these rows.
    pub fn of(rows: Vec<Vec<Record>>) -> Records
        ensures { result ≡ map (λ row. row.items) rows.items }
    {
        Records { rows }
    }

    /// Returns the rows.
    pub fn into_rows(self) -> Vec<Vec<Record>>
        ensures { map (λ row. row.items) result.items ≡ self }
    {
        self.rows
    }

    /// Returns the number of levels.
    pub fn levels(&self) -> usize
        ensures { result ≡ length self.now }
    {
        self.rows.len()
    }

    /// Returns the records of a level.
    pub fn level(&self, level: u16) -> &[Record]
        requires { level < length self.now }
        ensures { result.now ≡ row_at self.now level }
    {
        self.rows[level as usize].as_slice()
    }
}
