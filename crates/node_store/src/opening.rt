//! A node is opened on a log.
ghost use Rattle.std.specs.Prelude.{◌≡◌, [], IfOk, IfErr};
ghost use Rattle.std.specs.FinMap as map;
ghost use Rattle.node_world.specs.dc_core.specs.DcView.{fresh_dc};
ghost use Rattle.simulation.specs.Reading.{machine_read};
ghost use Rattle.stable.specs.Usage.{called as called_once};
ghost use Rattle.node_world.specs.tc_core.specs.Opening.{IsOpened};
ghost use Rattle.node_world.specs.node_laws.specs.Node.{joined};
ghost use Rattle.node_world.specs.node_laws.specs.Simulation.{NodeStandsFor};
ghost use Rattle.node_store.specs.Opening.{IsFit, IsRefusedFor, UsedInVain};

use crate::judging::Judging;
use crate::unopened::Unopened;
use node_world::World;
use node_world::dc_core::Dc;
use node_world::tc_core::Tc;
use stable::{CrashLog, CrashPages};
use std::alloc::Global;
use tc_log::Found;

/// A node on the log that the device has. Both components run, without a session; the data component has no records,
/// and logs on a device of its own and pages that are empty: the first settle brings it all that stands in the log.
/// Whoever has a Commit in the log has committed, and whoever was open loses. The log is judged before anything of the
/// device is changed: only then a cut last frame is cut off it. Where it is refused the device is handed back with its
/// bytes, all of them forced.
pub fn open<D: CrashLog, P: CrashPages>(
    alloc: Global,
    log: D,
    tree: D,
    pages: P,
) -> Result<World<D, P>, Unopened<D>>
where
    D: Drop,
    P: Drop,
    requires all_forced { D.pending log ≡ [] }
    requires no_tree { (D.forced tree ≡ []) × (D.pending tree ≡ []) }
    requires no_pages { P.pages pages ≡ map.empty }
    ensures opened { IfOk result (λ world. IsOpened (D.forced log) (D.usage log) world.tc) }
    ensures node { IfOk result (λ world. world ≡ joined world.tc (fresh_dc (D.usage tree) (P.usage pages))) }
    ensures stands { IfOk result (λ world. NodeStandsFor world (machine_read world.tc.log)) }
    ensures refused { IfErr result (λ left. IsRefusedFor (D.forced log) left.cause) }
    ensures forced { IfErr result (λ left. D.forced left.log ≡ D.forced log) }
    ensures none_pending { IfErr result (λ left. D.pending left.log ≡ []) }
    ensures used { IfErr result (λ left. UsedInVain (D.usage log) left.cause (D.usage left.log)) }
{
    let dc = match Dc::new(alloc, tree, pages) {
        Ok(dc) => dc,
        Err(refusal) => return Err(Unopened::refused(refusal, log)),
    };
    let found = judged(alloc, log)?;
    let tc = match Tc::over(alloc, found) {
        Ok(tc) => tc,
        Err(left) => return Err(Unopened::refused(left.refusal, left.device)),
    };
    tc.kept();
    Ok(World::over(alloc, tc, dc))
}

/// What the device's log says, once it was found fit.
fn judged<D: CrashLog>(alloc: Global, log: D) -> Result<Found<D>, Unopened<D>>
where
    D: Drop,
    requires all_forced { D.pending log ≡ [] }
    ensures fit { IfOk result (λ found. IsFit found.records) }
    ensures bytes { IfOk result (λ found. found.bytes ≡ D.forced log) }
    ensures called { IfOk result (λ found. found.usage ≡ called_once (D.usage log)) }
    ensures refused { IfErr result (λ left. IsRefusedFor (D.forced log) left.cause) }
    ensures forced { IfErr result (λ left. D.forced left.log ≡ D.forced log) }
    ensures none_pending { IfErr result (λ left. D.pending left.log ≡ []) }
    ensures used { IfErr result (λ left. UsedInVain (D.usage log) left.cause (D.usage left.log)) }
{
    let mut judging = Judging::new(alloc);
    let found = match Found::read_judged(alloc, log, &mut judging) {
        Ok(found) => found,
        Err(left) => return Err(Unopened::refused(left.refusal, left.device)),
    };
    match judging.wrong() {
        None => Ok(found),
        Some(cause) => Err(Unopened {
            cause,
            log: found.stop(),
        }),
    }
}
