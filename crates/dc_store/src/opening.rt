//! Devices that a crash left are opened.
ghost use Rattle.std.specs.Prelude.{◌≡◌, [], length, IfOk, IfErr};
ghost use Rattle.stable.specs.Usage.{called_often};
ghost use Rattle.dc_recovery.specs.Recovery.{stored_session};
ghost use Rattle.dc_store.specs.Devices.{spelled};
ghost use Rattle.dc_store.specs.Recovering.{Recovers, RefusesRecovery};
ghost use Rattle.dc_store.specs.Uses.{StopsOpening, log_calls, page_calls};

use crate::change_log::ChangeLog;
use crate::devices::{Devices, Refused};
use crate::frames::cut_off;
use crate::recovering::find;
use crate::system::SystemTxns;
use dc_tree::LeafSet;
use record_key::Refusal;
use stable::{LogDevice, PageDevice};
use std::alloc::Global;

/// What was opened, and the greatest session that its log accepted, 0 if none.
#[derive(Drop)]
pub struct Opened<L: LeafSet, D: LogDevice, P: PageDevice> {
    pub system: SystemTxns<L, D, P>,
    pub stored_session: u64,
}

impl<L: LeafSet, D: LogDevice, P: PageDevice> SystemTxns<L, D, P> {
    /// Opens what a crash left: the leaves that the pages and the log's whole records give, whatever the pages' ages.
    /// A last frame that is cut is cut off the device, last of all. Refused NoMemory, Device; BadBytes at the first
    /// frame that is bad or doesn't fit, or at 0 where a page is no image of its leaf or the leaves don't have all keys
    /// just once; the devices are handed back with the bytes that they held.
    pub fn open(alloc: Global, log: D, pages: P) -> Result<Opened<L, D, P>, Refused<D, P>>
    where
        L: Drop,
        requires none_pending { D.pending log ≡ [] }
        ensures recovers { IfOk result (λ opened. Recovers (D.forced log) (P.pages pages) opened.system) }
        ensures stored { IfOk result (λ opened. opened.stored_session ≡ stored_session opened.system.log) }
        ensures log_used { IfOk result (λ opened. opened.system.log_usage
            ≡ called_often (log_calls (length (spelled opened.system.log)) (length (D.forced log))) (D.usage log)) }
        ensures pages_used { IfOk result (λ opened. opened.system.page_usage
            ≡ called_often (page_calls (P.pages pages)) (P.usage pages)) }
        ensures refused { IfErr result (λ left. RefusesRecovery (D.forced log) (P.pages pages) left.refusal) }
        ensures log_left { IfErr result (λ left. D.forced left.devices.log ≡ D.forced log) }
        ensures none_left { IfErr result (λ left. D.pending left.devices.log ≡ []) }
        ensures pages_left { IfErr result (λ left. P.pages left.devices.pages ≡ P.pages pages) }
        ensures stopped { IfErr result (λ left. StopsOpening left.refusal (P.pages pages)
            (D.usage log) (D.usage left.devices.log) (P.usage pages) (P.usage left.devices.pages)) }
    {
        let (mut log, mut pages) = (log, pages);
        let (found, len) = match find(alloc, &mut log, &mut pages) {
            Ok(found) => found,
            Err(refusal) => return Err(refused(log, pages, refusal)),
        };
        let leaves = match L::from_leaves(alloc, found.leaves) {
            Ok(leaves) => leaves,
            Err(refusal) => return Err(refused(log, pages, refusal)),
        };
        if let Err(refusal) = cut_off(&mut log, found.end, len) {
            return Err(refused(log, pages, refusal));
        }
        let log = ChangeLog::reopened(alloc, log, found.places, found.end, found.next_id);
        let image = Vec::new(alloc);
        let system = SystemTxns {
            leaves,
            log,
            pages,
            image,
        };
        Ok(Opened {
            system,
            stored_session: found.stored_session,
        })
    }
}

fn refused<D, P>(log: D, pages: P, refusal: Refusal) -> Refused<D, P>
    ensures { result ≡ record {
      refusal = refusal;
      devices = record { log = log; pages = pages };
    } }
{
    Refused {
        refusal,
        devices: Devices { log, pages },
    }
}
