//! The leaves that both devices give after a crash.
ghost use Rattle.std.specs.Prelude.{◌≡◌, ◌+◌, ◌<◌, ◌^◌, [], length, reverse, take, IfOk, IfErr, OnOk, OnErr};
ghost use Rattle.stable.specs.PagesState.{Pages};
ghost use Rattle.stable.specs.Usage.{called, called_often};
ghost use Rattle.dc_tree.specs.Lists.{leaves_in};
ghost use Rattle.dc_recovery.specs.Ready.{AreReadable};
ghost use Rattle.dc_recovery.specs.Shape.{named};
ghost use Rattle.dc_store.specs.Devices.{AreRecords, pages_of};
ghost use Rattle.dc_store.specs.Finding.{AreRecovered, IsFound, RefusesLeaves};
ghost use Rattle.dc_store.specs.Recovering.{RefusesRecovery};
ghost use Rattle.dc_store.specs.Uses.{StopsWithin, StopsOpening, log_calls, page_calls};

use crate::arranging::arrange;
use crate::frames::{cut_off, read_log};
use crate::pages::read_pages;
use crate::replaying::replay;
use codec::DcRecord;
use dc_leaf::Leaf;
use record_key::Refusal;
use stable::{LogDevice, PageDevice};
use std::alloc::Global;

/// What the devices give: leaves, and what their log says besides.
#[derive(Debug, Drop)]
pub struct Recovered {
    /// The leaves, in key order.
    pub leaves: Vec<Box<Leaf>>,
    /// Where the frame of each record begins, and where the last one ends.
    pub places: Vec<usize>,
    pub end: usize,
    /// One above the greatest leaf number that is named.
    pub next_id: u64,
    /// The greatest session that was accepted, 0 if none.
    pub stored_session: u64,
}

/// Reads the log and the pages, does the records again, and then cuts off a last frame that is cut. Refused NoMemory,
/// Device; BadBytes at the first frame that is bad or doesn't fit, or at 0 where a page is no image of its leaf or the
/// leaves don't have all keys just once. Nothing is cut then.
pub fn recover<D: LogDevice, P: PageDevice>(
    alloc: Global,
    log: &mut D,
    pages: &mut P,
) -> Result<Recovered, Refusal>
    requires none_pending { D.pending log.old ≡ [] }
    ensures found { IfOk result (IsFound (D.forced log.old) (P.pages pages.old) (D.forced log.new)) }
    ensures refused { IfErr result (RefusesRecovery (D.forced log.old) (P.pages pages.old)) }
    ensures log_left { OnErr result (D.forced log.new ≡ D.forced log.old) }
    ensures none_left { D.pending log.new ≡ [] }
    ensures pages_left { P.pages pages.new ≡ P.pages pages.old }
    ensures log_used { IfOk result (λ found. D.usage log.new
        ≡ called_often (log_calls found.end (length (D.forced log.old))) (D.usage log.old)) }
    ensures pages_used { OnOk result (P.usage pages.new
        ≡ called_often (page_calls (P.pages pages.old)) (P.usage pages.old)) }
    ensures stopped { IfErr result (λ refusal. StopsOpening refusal (P.pages pages.old)
        (D.usage log.old) (D.usage log.new) (P.usage pages.old) (P.usage pages.new)) }
{
    let (found, len) = match find(alloc, log, pages) {
        Ok(found) => found,
        Err(refusal) => return Err(refusal),
    };
    if let Err(refusal) = cut_off(log, found.end, len) {
        return Err(refusal);
    }
    Ok(found)
}

/// The same, but for the cut: how many bytes the log's device holds is said too.
pub(crate) fn find<D: LogDevice, P: PageDevice>(
    alloc: Global,
    log: &mut D,
    pages: &mut P,
) -> Result<(Recovered, usize), Refusal>
    requires none_pending { D.pending log.old ≡ [] }
    ensures found { IfOk result (λ found. IsFound (D.forced log.old) (P.pages pages.old)
        (take found.0.end (D.forced log.old)) found.0) }
    ensures length { IfOk result (λ found. found.1 ≡ length (D.forced log.old)) }
    ensures refused { IfErr result (RefusesRecovery (D.forced log.old) (P.pages pages.old)) }
    ensures log_left { D.forced log.new ≡ D.forced log.old }
    ensures none_left { D.pending log.new ≡ [] }
    ensures pages_left { P.pages pages.new ≡ P.pages pages.old }
    ensures log_used { OnOk result (D.usage log.new ≡ called (D.usage log.old)) }
    ensures pages_used { OnOk result (P.usage pages.new
        ≡ called_often (page_calls (P.pages pages.old)) (P.usage pages.old)) }
    ensures stopped { IfErr result (λ refusal. StopsOpening refusal (P.pages pages.old)
        (D.usage log.old) (D.usage log.new) (P.usage pages.old) (P.usage pages.new)) }
{
    let (frames, len) = match read_log(alloc, log) {
        Ok(read) => read,
        Err(refusal) => return Err(refusal),
    };
    let leaves = match leaves_of(alloc, pages, frames.records, frames.next_id) {
        Ok(leaves) => leaves,
        Err(refusal) => return Err(refusal),
    };
    let found = Recovered {
        leaves,
        places: frames.places,
        end: frames.end,
        next_id: frames.next_id,
        stored_session: frames.stored_session,
    };
    Ok((found, len))
}

/// The leaves that the pages and a log's records give, the oldest first, where numbers below `next_id` are named.
fn leaves_of<P: PageDevice>(
    alloc: Global,
    pages: &mut P,
    records: Vec<DcRecord>,
    next_id: u64,
) -> Result<Vec<Box<Leaf>>, Refusal>
    requires records { AreRecords (reverse records.items) }
    requires numbered { length (reverse records.items) < 2 ^ 48 }
    requires readable { (all : Pages) → AreReadable (pages_of all) (reverse records.items) }
    requires next { next_id ≡ named (reverse records.items) + 1 }
    ensures recovered { IfOk result (λ leaves.
        AreRecovered (P.pages pages.old) (reverse records.items) (leaves_in leaves.items)) }
    ensures refused { IfErr result (RefusesLeaves (P.pages pages.old) (reverse records.items)) }
    ensures same { P.pages pages.new ≡ P.pages pages.old }
    ensures used { OnOk result (P.usage pages.new
        ≡ called_often (page_calls (P.pages pages.old)) (P.usage pages.old)) }
    ensures stopped { IfErr result (λ refusal.
        StopsWithin (page_calls (P.pages pages.old)) refusal (P.usage pages.old) (P.usage pages.new)) }
{
    let mut shelf = match read_pages(alloc, pages, next_id, records.len() as u64) {
        Ok(shelf) => shelf,
        Err(refusal) => return Err(refusal),
    };
    replay(alloc, &mut shelf, records)?;
    let leaves = shelf.into_leaves(alloc)?;
    let row = match arrange(leaves) {
        Ok(row) => row,
        Err(refusal) => return Err(refusal),
    };
    Ok(row)
}
