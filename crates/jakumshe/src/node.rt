//! A node that answers each call of a client before it takes the next.
ghost use Rattle.std.specs.Prelude.{◌≡◌, ◌<◌, ◌≤◌, [], false, length, Ok, Err, IfOk, IfErr, OnErr};
ghost use Rattle.record_key.specs.declared.refusal.Refusal.TheVariants.{EmptyKey, TooLong};
ghost use Rattle.node_laws.specs.declared.event.Event.TheVariants as event;
ghost use Rattle.node_laws.specs.Rounds.{IsDone};
ghost use Rattle.jakumshe.specs.declared.fault.Fault.TheVariants.{Refused};
ghost use Rattle.jakumshe.specs.Calls.{ComesToRest, StopsSettling, IsStepped, IsTold, IsNew, NotNew, RefusesEvent, Fails, Makes, Tells, Operates, Reads, begins, saves, finds, goes_back, rolls_back, commits, end_of};
ghost use Rattle.jakumshe.specs.Logs.{IsMadeOn, IsOpenedOn, IsBroughtUp, IsUnfitFor, NotOpened, Copies, stable_bytes, written_once};
ghost use Rattle.jakumshe.specs.Parts.{ReadsBack};
ghost use Rattle.jakumshe.specs.Records.{IsPageOfRows};
ghost use Rattle.jakumshe.specs.Renewal.{IsRenewalOf, IsRenewed, NotRenewed};
ghost use Rattle.node_store.specs.Renewal.{RefusesRenewal};

use crate::fault::{Fault, fault_of, renewal_fault};
use crate::records::RowBytes;
use crate::{ops, told};
use node_store::{Cause, open, renew};
use node_world::{Event, Out, World, bring_up, settle};
use record_key::{Key, Op, Refusal, Value};
use stable::{LogDevice, MemLog, MemPages};
use std::alloc::Global;
use std::mem::swap;

#[derive(Drop)]
pub struct Node {
    alloc: Global,
    world: World,
    // What is left of the rows that were read last, the next one at the end.
    rows: Vec<(Key, Value)>,
}

impl Node {
    /// A new node in memory, without records. Refused NoMemory, or as its first settle is.
    pub fn new(alloc: Global) -> Result<Node, Refusal>
        ensures made { IfOk result (λ node. IsNew node.world) }
        ensures refused { IfErr result NotNew }
    {
        let mut node = Node {
            alloc,
            world: World::new(alloc)?,
            rows: Vec::new(alloc),
        };
        match node.settled() {
            Ok(_) => Ok(node),
            Err(refusal) => Err(refusal),
        }
    }

    /// A node on the log that these bytes spell, and how many of them it keeps: a cut last frame is left out. Whoever has
    /// a Commit there has committed, and whoever was open is rolled back.
    pub fn open_on(alloc: Global, log: &[u8]) -> Result<(Node, usize), Fault>
        ensures opened { IfOk result (λ opened. IsOpenedOn log.now opened.1 opened.0.world) }
        ensures refused { IfErr result (NotOpened log.now) }
    {
        let device = match device_of(alloc, log) {
            Ok(device) => device,
            Err(refusal) => return Err(Fault::Refused(refusal)),
        };
        let mut node = match node_on(alloc, device) {
            Ok(node) => node,
            Err(cause) => return Err(fault_of(cause)),
        };
        let kept = match node.world.stable_bytes() {
            Ok(bytes) => bytes.len(),
            Err(_) => unreachable!(),
        };
        match node.bring_up() {
            Ok(()) => Ok((node, kept)),
            Err(refusal) => Err(Fault::Refused(refusal)),
        }
    }

    /// Copies the stable bytes of the log, from one of them on, as many as there is room for. Gives how many there are in
    /// all. Refused NotConnected.
    pub fn copy_log(&self, from: usize, room: &mut [u8]) -> Result<usize, Refusal>
        ensures copied { IfOk result (Copies (stable_bytes self.now.world) from room.new) }
        ensures refused { IfErr result (λ refusal. refusal ≡ Refusal.NotConnected) }
        ensures down { OnErr result (self.now.world.tc_up ≡ false) }
    {
        match self.world.stable_bytes() {
            Ok(bytes) => {
                copy(bytes, from, room);
                Ok(bytes.len())
            }
            Err(refusal) => Err(refusal),
        }
    }

    /// A node with just the records of this one: its log is that of one transaction, which has inserted them and has
    /// committed. So numbers of transactions begin anew there. This node comes to rest, and else is as it was. Refused
    /// Active where a transaction is open.
    pub fn renewed(&mut self) -> Result<Node, Fault>
        ensures made { IfOk result (λ node. IsRenewed self.old.world self.new.world node.world) }
        ensures refused { IfErr result (NotRenewed self.old.world self.new.world) }
        ensures rows { self.new.rows ≡ self.old.rows }
    {
        match self.settled() {
            Ok(_) => {}
            Err(refusal) => return Err(Fault::Refused(refusal)),
        }
        let mut node = match renewal_of(self.alloc, &self.world) {
            Ok(node) => node,
            Err(refusal) => return Err(renewal_fault(refusal)),
        };
        match node.bring_up() {
            Ok(()) => Ok(node),
            Err(refusal) => Err(Fault::Refused(refusal)),
        }
    }

    /// Takes what is left of the rows that another node has read last.
    pub fn take_rows(&mut self, other: &mut Node)
        ensures world { self.new.world ≡ self.old.world }
        ensures rows { self.new.rows ≡ other.old.rows }
    {
        swap(&mut self.rows, &mut other.rows);
    }

    pub fn world(&self) -> &World
        ensures { result.now ≡ self.now.world }
    {
        &self.world
    }

    /// A new transaction's number.
    pub fn begin(&mut self) -> Result<u64, Fault>
        ensures begun { Makes self.old.world event.Begin begins result self.new.world }
        ensures rows { self.new.rows ≡ self.old.rows }
    {
        match self.step(&Event::Begin) {
            Ok(out) => told::begun(&out),
            Err(refusal) => Err(Fault::Refused(refusal)),
        }
    }

    /// Does the operation, and tends a leaf after it.
    pub fn act(&mut self, txn: u64, op: Op) -> Result<(), Fault>
        ensures acted { Operates self.old.world txn op result self.new.world }
        ensures rows { self.new.rows ≡ self.old.rows }
    {
        let told = match self.call(&Event::Act { txn, op }) {
            Ok(told) => told,
            Err(refusal) => return Err(Fault::Refused(refusal)),
        };
        // A leaf that is large now is split. Where that is refused, a later call does it.
        let _ = self.world.step(&Event::Tend);
        told::answer(&told, txn)
    }

    /// The value at the key.
    pub fn get(&mut self, txn: u64, key: &[u8]) -> Result<Value, Fault>
        ensures read { 0 < length key.now → length key.now ≤ 32
            → Tells self.old.world (event.Get txn key.now) (finds txn) result self.new.world }
        ensures rows { self.new.rows ≡ self.old.rows }
        ensures empty { length key.now ≡ 0 → (result ≡ Err (Refused EmptyKey)) × (self.new ≡ self.old) }
        ensures long_key { 32 < length key.now → (result ≡ Err (Refused TooLong)) × (self.new ≡ self.old) }
    {
        let key = Key::new(key)?;
        match self.call(&Event::Get { txn, key }) {
            Ok(told) => told::value(&told, txn),
            Err(refusal) => Err(Fault::Refused(refusal)),
        }
    }

    /// Reads the rows from `low` on, below `high` or, where that is empty, to the end, and keeps them for `page` in place
    /// of earlier ones. Gives how many there are.
    pub fn scan(&mut self, txn: u64, low: &[u8], high: &[u8]) -> Result<usize, Fault>
        ensures read { 0 < length low.now → length low.now ≤ 32 → length high.now ≤ 32
            → Reads self.old.world txn low.now (end_of high.now) self.old.rows.items self.new.rows.items result
            self.new.world }
        ensures empty { length low.now ≡ 0 → (result ≡ Err (Refused EmptyKey)) × (self.new ≡ self.old) }
        ensures long_key { 32 < length low.now → (result ≡ Err (Refused TooLong)) × (self.new ≡ self.old) }
        ensures long_end { 0 < length low.now → 32 < length high.now → (result ≡ Err (Refused TooLong))
            × (self.new ≡ self.old) }
    {
        let (low, high) = ops::range(low, high)?;
        self.read(txn, low, high)
    }

    /// The same of a range's ends.
    pub fn read(&mut self, txn: u64, low: Key, high: Option<Key>) -> Result<usize, Fault>
        ensures { Reads self.old.world txn low high self.old.rows.items self.new.rows.items result self.new.world }
    {
        let told = match self.call(&Event::Scan { txn, low, high }) {
            Ok(told) => told,
            Err(refusal) => return Err(Fault::Refused(refusal)),
        };
        let found = match told::rows(&told, txn) {
            Ok(found) => found,
            Err(fault) => return Err(fault),
        };
        match found.to_rows(self.alloc) {
            Ok(rows) => {
                self.rows = rows;
                self.rows.reverse();
                Ok(self.rows.len())
            }
            Err(_) => Err(Fault::Refused(Refusal::NoMemory)),
        }
    }

    /// The same, but the last row is the next one.
    pub fn read_back(&mut self, txn: u64, low: Key, high: Option<Key>) -> Result<usize, Fault>
        ensures { ReadsBack self.old.world txn low high self.old.rows.items self.new.rows.items result self.new.world }
    {
        match self.read(txn, low, high) {
            Ok(found) => {
                self.rows.reverse();
                Ok(found)
            }
            Err(fault) => Err(fault),
        }
    }

    /// Puts the next rows of those that were read last, as many as there is room for. Gives how many.
    pub fn page(&mut self, room: &mut [RowBytes]) -> usize
        ensures world { self.new.world ≡ self.old.world }
        ensures page { IsPageOfRows self.old.rows.items self.new.rows.items room.new result }
    {
        let mut count = 0;
        while count < room.len() {
            let Some((key, value)) = self.rows.pop() else {
                break;
            };
            room[count].put(&key, &value);
            count += 1;
        }
        count
    }

    /// A savepoint's number, from 1 in each transaction.
    pub fn save(&mut self, txn: u64) -> Result<u64, Fault>
        ensures saved { Makes self.old.world (event.Save txn) saves result self.new.world }
        ensures rows { self.new.rows ≡ self.old.rows }
    {
        match self.step(&Event::Save { txn }) {
            Ok(out) => told::saved(&out),
            Err(refusal) => Err(Fault::Refused(refusal)),
        }
    }

    /// Undoes what the transaction did since the savepoint, which stays.
    pub fn go_back(&mut self, txn: u64, savepoint: u64) -> Result<(), Fault>
        ensures back { Tells self.old.world (event.GoBack txn savepoint) (goes_back txn savepoint) result self.new.world }
        ensures rows { self.new.rows ≡ self.old.rows }
    {
        match self.call(&Event::GoBack { txn, savepoint }) {
            Ok(told) => told::back(&told, txn, savepoint),
            Err(refusal) => Err(Fault::Refused(refusal)),
        }
    }

    /// Undoes all that the transaction did, and ends it.
    pub fn roll_back(&mut self, txn: u64) -> Result<(), Fault>
        ensures rolled_back { Tells self.old.world (event.Rollback txn) (rolls_back txn) result self.new.world }
        ensures rows { self.new.rows ≡ self.old.rows }
    {
        match self.call(&Event::Rollback { txn }) {
            Ok(told) => told::rolled_back(&told, txn),
            Err(refusal) => Err(Fault::Refused(refusal)),
        }
    }

    /// Ends the transaction; what it did stays.
    pub fn commit(&mut self, txn: u64) -> Result<(), Fault>
        ensures committed { Tells self.old.world (event.Commit txn) (commits txn) result self.new.world }
        ensures rows { self.new.rows ≡ self.old.rows }
    {
        match self.call(&Event::Commit { txn }) {
            Ok(told) => told::committed(&told, txn),
            Err(refusal) => Err(Fault::Refused(refusal)),
        }
    }

    /// What clients are told after the event, until the node is settled.
    fn call(&mut self, event: &Event) -> Result<Vec<Out>, Refusal>
        ensures told { IfOk result (λ told. IsTold self.old.world event.now told.items self.new.world) }
        ensures refused { IfErr result (λ refusal. Fails self.old.world event.now refusal self.new.world) }
        ensures rows { self.new.rows ≡ self.old.rows }
    {
        match self.step(event) {
            Ok(_) => {}
            Err(refusal) => return Err(refusal),
        }
        self.settled()
    }

    /// What the event comes to at once. What an earlier call has left half done, where memory ran out, is done before.
    fn step(&mut self, event: &Event) -> Result<Out, Refusal>
        ensures stepped { IfOk result (λ out. IsStepped self.old.world event.now out self.new.world) }
        ensures done { IfOk result IsDone }
        ensures refused { IfErr result (λ refusal. RefusesEvent self.old.world event.now refusal self.new.world) }
        ensures rows { self.new.rows ≡ self.old.rows }
    {
        match self.settled() {
            Ok(_) => {}
            Err(refusal) => return Err(refusal),
        }
        match self.world.step(event) {
            Out::Refused(refusal) => Err(refusal),
            out => Ok(out),
        }
    }

    /// Brings the node to rest after an opening. What that tells is of no client that is there.
    fn bring_up(&mut self) -> Result<(), Refusal>
        ensures { IsBroughtUp self.old.world result self.new.world }
    {
        bring_up(&mut self.world, &mut Vec::new(self.alloc))
    }

    /// All that the node tells until it is settled. Then every message is let go: none is delivered twice.
    fn settled(&mut self) -> Result<Vec<Out>, Refusal>
        ensures rests { IfOk result (λ told. ComesToRest self.old.world told.items self.new.world) }
        ensures stops { IfErr result (λ refusal. StopsSettling self.old.world refusal self.new.world) }
        ensures rows { self.new.rows ≡ self.old.rows }
    {
        let mut told = Vec::new(self.alloc);
        match settle(&mut self.world, None, &mut told) {
            Ok(true) => {
                self.world.forget();
                Ok(told)
            }
            // As many rounds as it takes are allowed.
            Ok(false) => unreachable!(),
            Err(refusal) => Err(refusal),
        }
    }
}

/// A device that has these bytes, all of them forced.
fn device_of(alloc: Global, log: &[u8]) -> Result<MemLog, Refusal>
    ensures forced { IfOk result (λ device. device.forced ≡ log.now) }
    ensures pending { IfOk result (λ device. device.pending ≡ []) }
    ensures usage { IfOk result (λ device. device.usage ≡ written_once) }
    ensures memory { IfErr result (λ refusal. refusal ≡ Refusal.NoMemory) }
{
    let mut device = MemLog::new(alloc);
    match device.append(log) {
        Ok(()) => {}
        Err(_) => return Err(Refusal::NoMemory),
    }
    match device.force() {
        Ok(()) => Ok(device),
        // It was set to fail by nobody.
        Err(_) => unreachable!(),
    }
}

/// A node on the device's log, as it is opened.
fn node_on(alloc: Global, log: MemLog) -> Result<Node, Cause>
    requires all_forced { log.pending ≡ [] }
    requires usage { log.usage ≡ written_once }
    ensures made { IfOk result (λ node. IsMadeOn log.forced node.world) }
    ensures refused { IfErr result (IsUnfitFor log.forced) }
{
    match open(alloc, log, MemLog::new(alloc), MemPages::new(alloc)) {
        Ok(world) => Ok(Node {
            alloc,
            world,
            rows: Vec::new(alloc),
        }),
        Err(left) => Err(left.cause),
    }
}

/// A node, not yet brought to rest, on a log that has just the records of a quiet one. Refused NotNow where that isn't.
fn renewal_of(alloc: Global, world: &World) -> Result<Node, Refusal>
    ensures made { IfOk result (λ node. IsRenewalOf world.now node.world) }
    ensures refused { IfErr result (RefusesRenewal world.now) }
{
    let (log, tree) = (MemLog::new(alloc), MemLog::new(alloc));
    match renew(alloc, world, log, tree, MemPages::new(alloc)) {
        Ok(world) => Ok(Node {
            alloc,
            world,
            rows: Vec::new(alloc),
        }),
        Err(left) => Err(left.refusal),
    }
}

/// Copies the bytes from one of them on, as many as there is room for.
fn copy(bytes: &[u8], from: usize, room: &mut [u8])
    ensures { Copies bytes.now from room.new (length bytes.now) }
{
    if bytes.len() <= from {
        return;
    }
    let next = &bytes[from..];
    if next.len() <= room.len() {
        room[..next.len()].copy_from_slice(next);
    } else {
        room.copy_from_slice(&next[..room.len()]);
    }
}
