//! An engine ends, and what its node's records are opened as takes its place.
ghost use Rattle.std.specs.Prelude.{◌≡◌, [], length, IfOk, IfErr, IsSomeAnd, MatchOption};
ghost use Rattle.std.specs.FinMap as map;
ghost use Rattle.engine_guarded.specs.engine_history.specs.Steps.{node_at};
ghost use Rattle.node_world.specs.dc_core.specs.DcView.{fresh_dc};
ghost use Rattle.engine_monitor.specs.Renewing.{IsBroughtUp, IsHandedBack, IsNotRenewed, IsRenewal, IsRenewalOf, IsRenewed, NotRenewed};

use crate::engine::Engine;
use crate::opened::Opened;
use crate::session::Session;
use engine_guarded::engine_history::Naming;
use node_store::renew;
use node_world::{World, bring_up};
use record_key::Refusal;
use stable::{CrashLog, CrashPages};
use std::alloc::Global;
use std::sync::Wait;

/// Why an engine wasn't renewed, and what is left of it.
#[derive(Drop)]
pub struct Unrenewed<D: CrashLog, P: CrashPages, E> {
    pub refusal: Refusal,
    /// The node, over which an engine may be opened again. None where there was no memory to close the engine.
    pub node: Option<Box<World<D, P>>>,
    /// The device for the new log. None where that was written, and no engine was opened on it.
    pub log: Option<E>,
}

/// The same without the node, which is still lent.
#[derive(Drop)]
struct Unwritten<E> {
    refusal: Refusal,
    log: Option<E>,
}

impl<J: Naming, D: CrashLog + Drop, P: CrashPages + Drop> Engine<J, D, P> {
    /// Ends the engine with all of its sessions, brings its node to rest, writes that one's records as a log on devices
    /// that are empty, and opens that for as many sessions: so numbers of records and of transactions begin anew, and
    /// nothing of the past takes memory. What is opened is to be named anew. Refused NotNow where a transaction is open;
    /// NumbersSpent, NoMemory, Device. The node is handed back then, as far at rest as it came, and with NotNow the new
    /// log's device as it was.
    pub fn renew<R: Wait, E, Q>(
        self,
        rt: &R,
        sessions: Vec<Session<J, D, P>>,
        log: E,
        tree: E,
        pages: Q,
        shares_forces: bool,
    ) -> Result<Opened<E, Q>, Unrenewed<D, P, E>>
    where
        E: CrashLog + Drop,
        Q: CrashPages + Drop,
        requires empty { (E.forced log ≡ []) × (E.pending log ≡ []) }
        requires no_tree { (E.forced tree ≡ []) × (E.pending tree ≡ []) }
        requires no_pages { Q.pages pages ≡ map.empty }
        ensures renewed { IfOk result (λ opened. IsRenewal J.start J.sessions self sessions.items
            (fresh_dc (E.usage tree) (Q.usage pages)) (node_at opened.start)) }
        ensures count { IfOk result (λ opened. length opened.sessions ≡ length sessions.items) }
        ensures refused { IfErr result (λ left. MatchOption left.node (left.refusal ≡ Refusal.NoMemory) (λ node.
            IsHandedBack J.start J.sessions self sessions.items left.refusal node.value)) }
        ensures untouched { IfErr result (λ left. left.refusal ≡ Refusal.NotNow
            → IsSomeAnd left.log (λ device. (E.forced device ≡ []) × (E.pending device ≡ []))) }
    {
        let alloc = self.alloc;
        let count = sessions.len();
        let closed = match self.close(rt, sessions) {
            Ok(closed) => closed,
            Err(refusal) => {
                return Err(Unrenewed {
                    refusal,
                    node: None,
                    log: Some(log),
                });
            }
        };
        closed.kept();
        opened_anew(
            alloc,
            closed.into_node(),
            count,
            log,
            tree,
            pages,
            shares_forces,
        )
    }
}

// The node, once it has come to rest, is renewed and opened.
fn opened_anew<D, P, E, Q>(
    alloc: Global,
    node: Box<World<D, P>>,
    count: usize,
    log: E,
    tree: E,
    pages: Q,
    shares_forces: bool,
) -> Result<Opened<E, Q>, Unrenewed<D, P, E>>
where
    D: CrashLog + Drop,
    P: CrashPages + Drop,
    E: CrashLog + Drop,
    Q: CrashPages + Drop,
    requires empty { (E.forced log ≡ []) × (E.pending log ≡ []) }
    requires no_tree { (E.forced tree ≡ []) × (E.pending tree ≡ []) }
    requires no_pages { Q.pages pages ≡ map.empty }
    ensures renewed { IfOk result (λ opened. IsRenewed (fresh_dc (E.usage tree) (Q.usage pages)) node.value
        (node_at opened.start)) }
    ensures count { IfOk result (λ opened. length opened.sessions ≡ count) }
    ensures refused { IfErr result (λ left. IsSomeAnd left.node (λ rested.
        IsNotRenewed count node.value left.refusal rested.value)) }
    ensures untouched { IfErr result (λ left. left.refusal ≡ Refusal.NotNow
        → IsSomeAnd left.log (λ device. (E.forced device ≡ []) × (E.pending device ≡ []))) }
{
    let mut node = node;
    if let Err(refusal) = bring_to_rest(alloc, &mut node) {
        return Err(Unrenewed {
            refusal,
            node: Some(node),
            log: Some(log),
        });
    }
    match renewed(alloc, &node, count, log, tree, pages, shares_forces) {
        Ok(opened) => Ok(opened),
        Err(left) => Err(Unrenewed {
            refusal: left.refusal,
            node: Some(node),
            log: left.log,
        }),
    }
}

// What clients are told by that nobody hears: they have given up their sessions.
fn bring_to_rest<D: CrashLog, P: CrashPages>(
    alloc: Global,
    node: &mut World<D, P>,
) -> Result<(), Refusal>
    ensures { IsBroughtUp node.old result node.new }
{
    bring_up(node, &mut Vec::new(alloc))
}

// What the renewal of a node is opened as, for so many sessions.
fn renewed<D: CrashLog, P: CrashPages, E, Q>(
    alloc: Global,
    old: &World<D, P>,
    count: usize,
    log: E,
    tree: E,
    pages: Q,
    shares_forces: bool,
) -> Result<Opened<E, Q>, Unwritten<E>>
where
    E: CrashLog + Drop,
    Q: CrashPages + Drop,
    requires empty { (E.forced log ≡ []) × (E.pending log ≡ []) }
    requires no_tree { (E.forced tree ≡ []) × (E.pending tree ≡ []) }
    requires no_pages { Q.pages pages ≡ map.empty }
    ensures renewed { IfOk result (λ opened. IsRenewalOf (fresh_dc (E.usage tree) (Q.usage pages)) old.now
        (node_at opened.start)) }
    ensures count { IfOk result (λ opened. length opened.sessions ≡ count) }
    ensures refused { IfErr result (λ left. NotRenewed count old.now left.refusal) }
    ensures untouched { IfErr result (λ left. left.refusal ≡ Refusal.NotNow
        → IsSomeAnd left.log (λ device. (E.forced device ≡ []) × (E.pending device ≡ []))) }
{
    old.kept();
    old.stood();
    let new = match renew(alloc, old, log, tree, pages) {
        Ok(new) => new,
        Err(left) => {
            return Err(Unwritten {
                refusal: left.refusal,
                log: Some(left.device),
            });
        }
    };
    match Opened::over(alloc, new, count, shares_forces) {
        Ok(opened) => Ok(opened),
        Err(refusal) => Err(Unwritten { refusal, log: None }),
    }
}
