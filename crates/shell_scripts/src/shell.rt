//! The node with the labels of a script.
ghost use Rattle.std.specs.Prelude.{◌≡◌, MatchResult, Some, None, OnOk, IfOk, IfErr, IsSome, option_map};
ghost use Rattle.std.specs.Option.{option_copied};
ghost use Rattle.std.specs.Ordering.{nat_cmp};
ghost use Rattle.std.specs.Cmp.Lexicographic.{slice_cmp};
ghost use Rattle.std.specs.BTreeMap.{get};
ghost use Rattle.record_key.specs.FirstCause.{RefusesAs};
ghost use Rattle.node_world.specs.tc_core.specs.Causes.{begin_refusal};
ghost use Rattle.node_world.specs.node_laws.specs.declared.event.Event.TheVariants as event;
ghost use Rattle.node_world.specs.node_laws.specs.Node.{fresh_node, if_up};
ghost use Rattle.node_world.specs.node_laws.specs.Stepping.{IsStep};
ghost use Rattle.shell_scripts.specs.Labels.{bindings, unbound, AreSameBindings};
ghost use Rattle.shell_scripts.specs.Script.{meaning, written_bytes};
ghost use Rattle.shell_scripts.specs.Text.{ComesTo, Does, Begins, Writes, AddsAmount, Gets, Scans, Prefixes, Notes, Treats, IsTableShown, IsSettling, event_called, leaf_event, op_written, length_fault, keys_fault};

use crate::label::{Label, Labels};
use crate::line::{Call, Kind, LeafCall, Line, Look, Written};
use crate::line_result::LineResult;
use crate::row_list::RowList;
use node_world::{Event, Out, World, settle};
use record_key::{Key, Op, Refusal, Value};
use row_ranges::beginning_end;
use stable::{CrashLog, CrashPages, MemLog, MemPages};
use std::alloc::Global;

/// A node, and what the labels of the script stand for.
#[derive(Drop)]
pub struct Shell<D: CrashLog = MemLog, P: CrashPages = MemPages> {
    alloc: Global,
    pub world: World<D, P>,
    pub(crate) labels: Labels,
}

impl Shell<MemLog, MemPages> {
    /// A new node, and no label bound.
    pub fn new(alloc: Global) -> Result<Shell, Refusal>
        ensures world { IfOk result (λ shell. shell.world ≡ fresh_node) }
        ensures labels { IfOk result (λ shell. AreSameBindings unbound (bindings shell.labels)) }
        ensures memory { IfErr result (λ refusal. refusal ≡ Refusal.NoMemory) }
    {
        Ok(Shell::on(alloc, World::new(alloc)?))
    }
}

impl<D: CrashLog, P: CrashPages> Shell<D, P> {
    /// This node, and no label bound.
    pub fn on(alloc: Global, world: World<D, P>) -> Shell<D, P>
        ensures world { result.world ≡ world }
        ensures labels { AreSameBindings unbound (bindings result.labels) }
    {
        Shell {
            alloc,
            world,
            labels: Labels::new(alloc),
        }
    }

    /// The number of the transaction that the label stands for, 0 where it is not bound.
    pub fn bound(&self, label: &Label) -> u64
        ensures { result ≡ (bindings self.now.labels).number label.now }
    {
        self.labels.number(label)
    }

    /// Runs the line.
    pub fn perform(&mut self, line: &Line<'_>) -> LineResult
        ensures { ComesTo (meaning line.now) self.old.world (bindings self.old.labels) result self.new.world
            (bindings self.new.labels) }
    {
        let result = self.come_to(line);
        self.world.to_come();
        result
    }

    fn come_to(&mut self, line: &Line<'_>) -> LineResult
        ensures { Does (meaning line.now) self.old.world (bindings self.old.labels) result self.new.world
            (bindings self.new.labels) }
    {
        match line {
            Line::Begin(label) => LineResult::Event(self.begin(label)),
            Line::Write {
                label,
                kind,
                key,
                value,
            } => LineResult::Event(self.write(label, *kind, key.as_bytes(), value.as_bytes())),
            Line::Add { label, key, amount } => {
                LineResult::Event(self.add(label, key.as_bytes(), *amount))
            }
            Line::Get { label, key } => LineResult::Event(self.get(label, key.as_bytes())),
            Line::Scan {
                label,
                low,
                high,
                look,
            } => LineResult::Event(self.scan(label, low.as_bytes(), end_bytes(high), *look)),
            Line::Prefix { label, text, look } => {
                LineResult::Event(self.prefix(label, text.as_bytes(), *look))
            }
            Line::Call { label, call } => {
                let event = event_called(*call, self.labels.number(label));
                LineResult::Event(self.world.step(&event))
            }
            Line::Leaf { call, key } => LineResult::Event(self.treat(*call, key.as_bytes())),
            Line::Step(event) => LineResult::Event(self.world.step(event)),
            Line::Settle(most) => settled(self.alloc, &mut self.world, *most),
            Line::Table => self.table(),
            Line::Forget => {
                self.world.forget();
                LineResult::Forgotten
            }
            Line::Show(part) => LineResult::Shown(*part),
        }
    }

    /// Begins a transaction and binds the label to it.
    fn begin(&mut self, label: &Label) -> Out
        ensures { Begins label.now self.old.world (bindings self.old.labels) result self.new.world
            (bindings self.new.labels) }
    {
        self.world.kept();
        if let Err(refusal) = self.make_way(label) {
            return Out::Refused(refusal);
        }
        let out = self.world.step(&Event::Begin);
        if let Out::Begun(txn) = &out {
            self.labels.bind(label, *txn);
        }
        out
    }

    /// Makes room for the label's binding, where nothing else stands in the way of beginning.
    fn make_way(&mut self, label: &Label) -> Result<(), Refusal>
        ensures refused { IfErr result (RefusesAs (if_up self.old.world.tc_up (begin_refusal self.old.world.tc))) }
        ensures room { OnOk result (IsSome (get (slice_cmp nat_cmp) self.new.labels.numbers label.now)) }
        ensures world { self.new.world ≡ self.old.world }
        ensures labels { AreSameBindings (bindings self.old.labels) (bindings self.new.labels) }
    {
        self.world.can_begin()?;
        self.labels.make_room(label)?;
        Ok(())
    }

    /// Writes, where the key and the value have lengths that the node takes.
    fn write(&mut self, label: &Label, kind: Kind, key: &[u8], value: &[u8]) -> Out
        ensures event { Writes label.now kind key.now value.now self.old.world (bindings self.old.labels) result
            self.new.world }
        ensures labels { AreSameBindings (bindings self.old.labels) (bindings self.new.labels) }
    {
        let op = match op_of(kind, key, value) {
            Ok(op) => op,
            Err(refusal) => return Out::Refused(refusal),
        };
        let txn = self.labels.number(label);
        self.world.step(&Event::Act { txn, op })
    }

    /// Adds to the number at a key that has a length that the node takes.
    fn add(&mut self, label: &Label, key: &[u8], amount: u64) -> Out
        ensures event { AddsAmount label.now key.now amount self.old.world (bindings self.old.labels) result
            self.new.world }
        ensures labels { AreSameBindings (bindings self.old.labels) (bindings self.new.labels) }
    {
        let key = match Key::new(key) {
            Ok(key) => key,
            Err(refusal) => return Out::Refused(refusal),
        };
        let txn = self.labels.number(label);
        let op = Op::Add(key, amount);
        self.world.step(&Event::Act { txn, op })
    }

    /// Splits, merges or writes the leaf of a key that has a length that the node takes.
    fn treat(&mut self, call: LeafCall, key: &[u8]) -> Out
        ensures event { Treats call key.now self.old.world result self.new.world }
        ensures labels { AreSameBindings (bindings self.old.labels) (bindings self.new.labels) }
    {
        let event = match leaf_event(call, key) {
            Ok(event) => event,
            Err(refusal) => return Out::Refused(refusal),
        };
        self.world.step(&event)
    }

    /// The records as they are.
    fn table(&self) -> LineResult
        ensures { IsTableShown self.now.world result }
    {
        match self.world.rows() {
            Ok(rows) => LineResult::Table(RowList::new(rows)),
            Err(refusal) => LineResult::Event(Out::Refused(refusal)),
        }
    }

    /// Asks for the value at a key that has a length that the node takes.
    fn get(&mut self, label: &Label, key: &[u8]) -> Out
        ensures event { Gets label.now key.now self.old.world (bindings self.old.labels) result self.new.world }
        ensures labels { AreSameBindings (bindings self.old.labels) (bindings self.new.labels) }
    {
        let key = match Key::new(key) {
            Ok(key) => key,
            Err(refusal) => return Out::Refused(refusal),
        };
        let txn = self.labels.number(label);
        self.world.step(&Event::Get { txn, key })
    }

    /// Asks for the rows between keys that have lengths that the node takes, to be told so.
    fn scan(&mut self, label: &Label, low: &[u8], high: Option<&[u8]>, look: Look) -> Out
        ensures event { Scans label.now low.now (option_copied high.entry) self.old.world (bindings self.old.labels)
            result self.new.world }
        ensures noted { Notes result ((bindings self.old.labels).number label.now) look (bindings self.old.labels)
            (bindings self.new.labels) }
    {
        let (low, high) = match ends_of(low, high) {
            Ok(ends) => ends,
            Err(refusal) => return Out::Refused(refusal),
        };
        let txn = self.labels.number(label);
        self.ask(txn, low, high, look)
    }

    /// Asks for the rows whose keys begin with a text of a length that keys have, to be told so.
    fn prefix(&mut self, label: &Label, text: &[u8], look: Look) -> Out
        ensures event { Prefixes label.now text.now self.old.world (bindings self.old.labels) result self.new.world }
        ensures noted { Notes result ((bindings self.old.labels).number label.now) look (bindings self.old.labels)
            (bindings self.new.labels) }
    {
        let key = match Key::new(text) {
            Ok(key) => key,
            Err(refusal) => return Out::Refused(refusal),
        };
        let end = beginning_end(&key);
        let txn = self.labels.number(label);
        self.ask(txn, key, end, look)
    }

    /// The transaction asks for rows, to be told so.
    fn ask(&mut self, txn: u64, low: Key, high: Option<Key>, look: Look) -> Out
        ensures event { IsStep self.old.world (event.Scan txn low high) result self.new.world }
        ensures noted { Notes result txn look (bindings self.old.labels) (bindings self.new.labels) }
    {
        let out = self.world.step(&Event::Scan { txn, low, high });
        if let Out::Asked(_) = &out {
            self.labels.note(txn, look);
        }
        out
    }
}

/// The operation, unless the key or the value has a length that no node takes.
pub fn op_of(kind: Kind, key: &[u8], value: &[u8]) -> Result<Op, Refusal>
    ensures { MatchResult result (λ op. (length_fault key.now value.now ≡ None) × (op ≡ op_written kind key.now value.now))
        (λ refusal. length_fault key.now value.now ≡ Some refusal) }
{
    let key = Key::new(key)?;
    let value = Value::new(value)?;
    Ok(match kind {
        Kind::Insert => Op::Insert(key, value),
        Kind::Update => Op::Update(key, value),
        Kind::Upsert => Op::Upsert(key, value),
        Kind::Delete => Op::Delete(key),
    })
}

/// The bytes of an upper end.
fn end_bytes<'a>(high: &'a Option<Written<'_>>) -> Option<&'a [u8]>
    ensures { option_map (λ text. text.now) result ≡ option_map written_bytes high.now }
{
    match high {
        Some(key) => Some(key.as_bytes()),
        None => None,
    }
}

/// The keys of a scan, unless one has a length that no key has.
fn ends_of(low: &[u8], high: Option<&[u8]>) -> Result<(Key, Option<Key>), Refusal>
    ensures { MatchResult result
        (λ ends. (keys_fault low.now (option_copied high.entry) ≡ None) × (ends.0 ≡ low.now)
        × (ends.1 ≡ option_copied high.entry))
        (λ refusal. keys_fault low.now (option_copied high.entry) ≡ Some refusal) }
{
    match high {
        None => Ok((Key::new(low)?, None)),
        // An empty key is told before one that is too long.
        Some([]) => Err(Refusal::EmptyKey),
        Some(high) => {
            let low = Key::new(low)?;
            Ok((low, Some(Key::new(high)?)))
        }
    }
}

/// What is to happen to the leaf of this key, unless it has a length that no key has.
fn leaf_event(call: LeafCall, key: &[u8]) -> Result<Event, Refusal>
    ensures { MatchResult result (λ event. (keys_fault key.now None ≡ None) × (event ≡ leaf_event call key.now))
        (λ refusal. keys_fault key.now None ≡ Some refusal) }
{
    let key = Key::new(key)?;
    Ok(match call {
        LeafCall::Split => Event::Split { key },
        LeafCall::Merge => Event::Merge { key },
        LeafCall::Flush => Event::Flush { key },
    })
}

/// What is to happen to the transaction of this number.
pub fn event_called(call: Call, txn: u64) -> Event
    ensures { result ≡ event_called call txn }
{
    match call {
        Call::Save => Event::Save { txn },
        Call::Back { savepoint } => Event::GoBack { txn, savepoint },
        Call::Rollback => Event::Rollback { txn },
        Call::Commit => Event::Commit { txn },
        Call::Send => Event::Send { txn },
        Call::Undo => Event::Undo { txn },
    }
}

/// Lets the node work until nothing is left to do, or for so many rounds at most.
fn settled<D: CrashLog, P: CrashPages>(
    alloc: Global,
    world: &mut World<D, P>,
    most: Option<u64>,
) -> LineResult
    ensures { IsSettling most world.old result world.new }
{
    let mut outs = Vec::new(alloc);
    let end = settle(world, most, &mut outs);
    LineResult::Settled { outs, end }
}
