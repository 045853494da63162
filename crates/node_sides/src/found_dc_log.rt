//! The records that a log's bytes spell, which contracts alone see.
ghost use Rattle.std.specs.Prelude.{List};
ghost use Rattle.std.specs.Coded.{codes};
ghost use Rattle.codec.specs.declared.dc_record.DcRecord.{DcRecord};
ghost use Rattle.node_laws.specs.dc_store.specs.Recovering.{HoldsFrames};

use stable::LogDevice;
use std::marker::{Model, PhantomData, Send};

#[derive(Drop)]
pub struct FoundDcLog {
    marker: PhantomData<u8>,
    pub ghost log: { List DcRecord } by { Prim.hlevel codes },
}

impl Model for FoundDcLog {
    ghost use Rattle.std.specs.Borrow.{ftrue};

    ghost also_owns = { λ _. ftrue };
}

impl FoundDcLog {
    /// Those of this log.
    pub fn on<D: LogDevice>(log: &D) -> FoundDcLog
        requires { (records : List DcRecord) × HoldsFrames (D.forced log.now) records }
        ensures { HoldsFrames (D.forced log.now) result.log }
    {
        let _ = log;
        FoundDcLog {
            marker: PhantomData,
        }
    }
}

unsafe impl Send for FoundDcLog {}
