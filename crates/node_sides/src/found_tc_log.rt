//! The records that a device's bytes spell, which contracts alone see.
ghost use Rattle.std.specs.Prelude.{List};
ghost use Rattle.std.specs.Coded.{codes};
ghost use Rattle.history.specs.declared.record.Record.{Record};
ghost use Rattle.tc_log.specs.Opening.{IsLogOf};

use stable::LogDevice;
use std::marker::{Model, PhantomData, Send};

#[derive(Drop)]
pub struct FoundTcLog {
    marker: PhantomData<u8>,
    pub ghost log: { List Record } by { Prim.hlevel codes },
}

impl Model for FoundTcLog {
    ghost use Rattle.std.specs.Borrow.{ftrue};

    ghost also_owns = { λ _. ftrue };
}

impl FoundTcLog {
    /// Those of this device.
    pub fn on<D: LogDevice>(device: &D) -> FoundTcLog
        requires { (records : List Record) × IsLogOf (D.forced device.now) records }
        ensures { IsLogOf (D.forced device.now) result.log }
    {
        let _ = device;
        FoundTcLog {
            marker: PhantomData,
        }
    }
}

unsafe impl Send for FoundTcLog {}
