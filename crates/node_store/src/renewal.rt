//! A node's log is written anew.
ghost use Rattle.std.specs.Prelude.{◌≡◌, ℕ, false, [], OnOk, IfOk, IfErr};
ghost use Rattle.std.specs.FinMap as map;
ghost use Rattle.std.specs.FinMap.{entries};
ghost use Rattle.history.specs.History.{plain};
ghost use Rattle.history.specs.ListMachine.{Machine, is_live};
ghost use Rattle.tc_rewriting.specs.Written.{written, RefusesRecords, count_with};
ghost use Rattle.tc_log.specs.Opening.{IsLogOf};
ghost use Rattle.dc_tree.specs.Leaves.{rows_of};
ghost use Rattle.node_world.specs.dc_core.specs.DcView.{fresh_dc, leaves};
ghost use Rattle.simulation.specs.Reading.{machine_read, txn_read};
ghost use Rattle.node_world.specs.node_laws.specs.Node.{joined};
ghost use Rattle.node_world.specs.node_laws.specs.Simulation.{NodeStandsFor};
ghost use Rattle.node_world.specs.Quiet.{IsQuiet};
ghost use Rattle.node_store.specs.Renewal.{RefusesRenewal};

use crate::opening::open;
use crate::unopened::Cause;
use node_world::World;
use record_key::Refusal;
use stable::{CrashLog, CrashPages};
use std::alloc::Global;
use tc_log::Refused;
use tc_rewriting::rewrite;

/// A node, on an empty device, that has just the records of a quiet one: its log is that of one transaction, which has
/// inserted them and has committed, and the rest is as `open` makes it. So the first settle brings it its records, and
/// numbers of records and of transactions begin anew. The old node is as it was. Refused NotNow where that isn't quiet,
/// NumbersSpent, NoMemory, Device; the device is handed back, empty where it was NotNow, else with what was written.
pub fn renew<D: CrashLog, P: CrashPages, E: CrashLog, Q: CrashPages>(
    alloc: Global,
    old: &World<D, P>,
    log: E,
    tree: E,
    pages: Q,
) -> Result<World<E, Q>, Refused<E>>
where
    E: Drop,
    Q: Drop,
    requires empty { (E.forced log ≡ []) × (E.pending log ≡ []) }
    requires no_tree { (E.forced tree ≡ []) × (E.pending tree ≡ []) }
    requires no_pages { Q.pages pages ≡ map.empty }
    ensures quiet { OnOk result (IsQuiet old.now) }
    ensures log { IfOk result (λ new. new.tc.log ≡ written (entries (rows_of (leaves old.now.dc))) []) }
    ensures node { IfOk result (λ new. new ≡ joined new.tc (fresh_dc (E.usage tree) (Q.usage pages))) }
    ensures stands { IfOk result (λ new. NodeStandsFor new (machine_read new.tc.log)) }
    ensures table { IfOk result (λ new. (m : Machine) → NodeStandsFor old.now m
        → plain (machine_read new.tc.log).h ≡ plain m.h) }
    ensures over { IfOk result (λ new. (t : ℕ) → is_live (txn_read new.tc.log t).status ≡ false) }
    ensures refused { IfErr result (λ left. RefusesRenewal old.now left.refusal) }
    ensures untouched { IfErr result (λ left. left.refusal ≡ Refusal.NotNow
        → (E.forced left.device ≡ []) × (E.pending left.device ≡ [])) }
{
    if !old.is_quiet() {
        return Err(Refused {
            refusal: Refusal::NotNow,
            device: log,
        });
    }
    // Called for what the node promises: its records are the plain map.
    old.kept();
    let log = match with_rows_of(alloc, old, log) {
        Ok(log) => log,
        Err(left) => return Err(left),
    };
    match open(alloc, log, tree, pages) {
        Ok(new) => Ok(new),
        Err(left) => match left.cause {
            Cause::Refused(refusal) => Err(Refused {
                refusal,
                device: left.log,
            }),
            _ => unreachable!(),
        },
    }
}

/// The empty device with the log by which the node's records are written. Refused as `renew` is, but for NotNow.
fn with_rows_of<D: CrashLog, P: CrashPages, E: CrashLog>(
    alloc: Global,
    old: &World<D, P>,
    log: E,
) -> Result<E, Refused<E>>
where
    E: Drop,
    requires quiet { IsQuiet old.now }
    requires empty { (E.forced log ≡ []) × (E.pending log ≡ []) }
    ensures log { IfOk result (λ left. IsLogOf (E.forced left) (written (entries (rows_of (leaves old.now.dc))) [])) }
    ensures none_pending { IfOk result (λ left. E.pending left ≡ []) }
    ensures refused { IfErr result (λ left.
        RefusesRecords (count_with 0 (entries (rows_of (leaves old.now.dc)))) left.refusal) }
{
    match old.rows() {
        Ok(rows) => rewrite(alloc, log, &rows),
        Err(refusal) => Err(Refused {
            refusal,
            device: log,
        }),
    }
}
