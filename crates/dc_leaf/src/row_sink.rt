//! Where the rows of a scan go.
ghost use Rattle.std.specs.Prelude.{◌≡◌, List, ◌++◌, OnOk, OnErr, IsOkUnless};
ghost use Rattle.record_key.specs.Rows.{Row};

use crate::rows::add_rows;
use codec::LentRows;
use record_key::{Key, Refusal, Value};

/// What takes rows, some at a time.
pub trait RowSink {
    /// Those that it has taken.
    ghost rows: { Self → List Row };

    /// Puts copies of the rows at the end. Refused NoMemory, and unchanged then.
    fn add(&mut self, more: &LentRows<'_>) -> Result<(), Refusal>
        ensures added { OnOk result (rows self.new ≡ rows self.old ++ more.now) }
        ensures unchanged { OnErr result (rows self.new ≡ rows self.old) }
        ensures memory { IsOkUnless result Refusal.NoMemory };
}

impl RowSink for Vec<(Key, Value)> {
    ghost rows = { λ rows. rows.items };

    fn add(&mut self, more: &LentRows<'_>) -> Result<(), Refusal> {
        add_rows(self, more)
    }
}
