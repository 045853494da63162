//! The records of the leaves when they were opened, which contracts alone see.
ghost use Rattle.std.specs.Prelude.{◌≡◌};
ghost use Rattle.record_key.specs.Table.{Table, table_code};
ghost use Rattle.dc_tree.specs.Leaves.{rows_of};

use crate::system::System;
use stable::{LogDevice, PageDevice};
use std::marker::{Model, PhantomData, Send};

#[derive(Drop)]
pub struct Base {
    marker: PhantomData<u8>,
    pub ghost table: { Table } by { table_code },
}

impl Model for Base {
    ghost use Rattle.std.specs.Borrow.{ftrue};

    ghost also_owns = { λ _. ftrue };
}

impl Base {
    /// Those of these leaves.
    pub fn of<D: LogDevice, P: PageDevice>(system: &System<D, P>) -> Base
        ensures { result.table ≡ rows_of system.now.leaves }
    {
        let _ = system;
        Base {
            marker: PhantomData,
        }
    }
}

unsafe impl Send for Base {}
