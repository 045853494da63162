//! Records in a list.
ghost use Rattle.std.specs.Prelude.{◌≡◌};

use record_key::{Key, Value};
use std::marker::Model;

/// The records of a table, in key order.
#[derive(Debug, Drop)]
pub struct RowList {
    rows: Vec<(Key, Value)>,
}

impl Model for RowList {
    ghost use Rattle.std.specs.Prelude.{List};
    ghost use Rattle.record_key.specs.Rows.{Row};

    ghost Value = { List Row };

    ghost view = { λ r. r.rows.items };
}

impl RowList {
    pub fn new(rows: Vec<(Key, Value)>) -> RowList
        ensures { result ≡ rows.items }
    {
        RowList { rows }
    }

    pub fn as_slice(&self) -> &[(Key, Value)]
        ensures { result.now ≡ self.now }
    {
        self.rows.as_slice()
    }
}
