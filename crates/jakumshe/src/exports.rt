//! The functions that C calls, as include/jakumshe.h declares them. Each gives a status. Each may also be refused NoMemory
//! and NumbersSpent. A `Global` takes no bytes, so C passes none.
ghost use Rattle.std.specs.Prelude.{◌≡◌, ◌≢◌, ◌<◌, ◌≤◌, length, pos, None, IsSome, IsSomeAnd, IfOk, IfErr};
ghost use Rattle.record_key.specs.declared.op.Op.TheVariants as op;
ghost use Rattle.node_laws.specs.declared.event.Event.TheVariants as event;
ghost use Rattle.jakumshe.specs.declared.fault.Fault.TheVariants.{Refused};
ghost use Rattle.jakumshe.specs.Calls.{IsNew, NotMade, Makes, Tells, Reads, EndsSo, PutsResult, begins, saves, finds, goes_back, rolls_back, commits, end_of};
ghost use Rattle.jakumshe.specs.Handles.{Acted};
ghost use Rattle.jakumshe.specs.Holding.{OnNode, RefusedAs};
ghost use Rattle.jakumshe.specs.Records.{IsPageOfRows, PutsValue};
ghost use Rattle.jakumshe.specs.Statuses.{status};

use crate::fault::{DONE, Fault, name_of, status_of};
use crate::handle::Handle;
use crate::node::Node;
use crate::ops;
use crate::records::{NameText, RowBytes, ValueBytes};
use record_key::{Op, Refusal};
use std::alloc::Global;

/// The library's version, as CHANGELOG.md numbers them and include/jakumshe.h says it.
const VERSION: &str = "0.2.0";

/// Makes a node in a handle that has none. Refused Open, NoMemory, or as the first settle of a node is.
#[unsafe(no_mangle)]
pub extern "C" fn jakumshe_raw_open(handle: &mut Handle, alloc: Global) -> i32
    ensures open { IsSome handle.old.node → (result ≡ pos 34) × (handle.new.node ≡ handle.old.node) }
    ensures opened { result ≡ pos 0 → IsSomeAnd handle.new.node (λ node. IsNew node.world) }
    ensures refused { handle.old.node ≡ None → result ≢ pos 0 → handle.new.node ≡ None }
    ensures cause { handle.old.node ≡ None → result ≢ pos 0 → EndsSo {X = Unit {0}} result (λ r. IfErr r NotMade) }
{
    if let Ok(node) = handle.take(alloc) {
        handle.put(node);
        return Fault::Open.status();
    }
    let node = match Node::new(alloc) {
        Ok(node) => node,
        Err(refusal) => return Fault::Refused(refusal).status(),
    };
    match Box::new(alloc, node) {
        Ok(node) => {
            handle.put(node);
            DONE
        }
        Err(_) => Fault::Refused(Refusal::NoMemory).status(),
    }
}

/// Frees the node. Refused Closed, as each call below is.
#[unsafe(no_mangle)]
pub extern "C" fn jakumshe_raw_close(handle: &mut Handle, alloc: Global) -> i32
    ensures closed { handle.new.node ≡ None }
    ensures done { IsSome handle.old.node → result ≡ pos 0 }
    ensures refused { handle.old.node ≡ None → result ≡ pos 33 }
{
    match handle.take(alloc) {
        Ok(_) => DONE,
        Err(fault) => fault.status(),
    }
}

/// Begins a transaction and gives its number. Refused Full.
#[unsafe(no_mangle)]
pub extern "C" fn jakumshe_raw_begin(handle: &mut Handle, alloc: Global, txn: &mut u64) -> i32
    ensures begun { OnNode handle.old.node handle.new.node result (λ old new. EndsSo result (λ r.
        Makes old.world event.Begin begins r new.world × PutsResult r txn.old txn.new × (new.rows ≡ old.rows))) }
    ensures closed { handle.old.node ≡ None → txn.new ≡ txn.old }
{
    let mut node = match handle.take(alloc) {
        Ok(node) => node,
        Err(fault) => return fault.status(),
    };
    let begun = node.begin();
    handle.put(node);
    match begun {
        Ok(number) => {
            *txn = number;
            DONE
        }
        Err(fault) => fault.status(),
    }
}

/// Puts a record where there is none. Refused EmptyKey, TooLong, NotOpen, Busy, Exists.
#[unsafe(no_mangle)]
pub extern "C" fn jakumshe_raw_insert(
    handle: &mut Handle,
    alloc: Global,
    txn: u64,
    key: &[u8],
    value: &[u8],
) -> i32
    ensures acted { 0 < length key.now → length key.now ≤ 32 → length value.now ≤ 120
        → Acted (op.Insert key.now value.now) txn handle.old.node handle.new.node result }
    ensures empty_key { length key.now ≡ 0 → RefusedAs 11 handle.old.node handle.new.node result }
    ensures long_key { 32 < length key.now → RefusedAs 12 handle.old.node handle.new.node result }
    ensures long_value { 0 < length key.now → 120 < length value.now
        → RefusedAs 12 handle.old.node handle.new.node result }
{
    perform(handle, alloc, txn, ops::insert(key, value))
}

/// Gives the record that is there another value. Refused EmptyKey, TooLong, NotOpen, Busy, NoRecord.
#[unsafe(no_mangle)]
pub extern "C" fn jakumshe_raw_update(
    handle: &mut Handle,
    alloc: Global,
    txn: u64,
    key: &[u8],
    value: &[u8],
) -> i32
    ensures acted { 0 < length key.now → length key.now ≤ 32 → length value.now ≤ 120
        → Acted (op.Update key.now value.now) txn handle.old.node handle.new.node result }
    ensures empty_key { length key.now ≡ 0 → RefusedAs 11 handle.old.node handle.new.node result }
    ensures long_key { 32 < length key.now → RefusedAs 12 handle.old.node handle.new.node result }
    ensures long_value { 0 < length key.now → 120 < length value.now
        → RefusedAs 12 handle.old.node handle.new.node result }
{
    perform(handle, alloc, txn, ops::update(key, value))
}

/// Puts the record, whether there is one or not. Refused EmptyKey, TooLong, NotOpen, Busy.
#[unsafe(no_mangle)]
pub extern "C" fn jakumshe_raw_upsert(
    handle: &mut Handle,
    alloc: Global,
    txn: u64,
    key: &[u8],
    value: &[u8],
) -> i32
    ensures acted { 0 < length key.now → length key.now ≤ 32 → length value.now ≤ 120
        → Acted (op.Upsert key.now value.now) txn handle.old.node handle.new.node result }
    ensures empty_key { length key.now ≡ 0 → RefusedAs 11 handle.old.node handle.new.node result }
    ensures long_key { 32 < length key.now → RefusedAs 12 handle.old.node handle.new.node result }
    ensures long_value { 0 < length key.now → 120 < length value.now
        → RefusedAs 12 handle.old.node handle.new.node result }
{
    perform(handle, alloc, txn, ops::upsert(key, value))
}

/// Removes the record that is there. Refused EmptyKey, TooLong, NotOpen, Busy, NoRecord.
#[unsafe(no_mangle)]
pub extern "C" fn jakumshe_raw_delete(
    handle: &mut Handle,
    alloc: Global,
    txn: u64,
    key: &[u8],
) -> i32
    ensures acted { 0 < length key.now → length key.now ≤ 32
        → Acted (op.Delete key.now) txn handle.old.node handle.new.node result }
    ensures empty_key { length key.now ≡ 0 → RefusedAs 11 handle.old.node handle.new.node result }
    ensures long_key { 32 < length key.now → RefusedAs 12 handle.old.node handle.new.node result }
{
    perform(handle, alloc, txn, ops::delete(key))
}

/// Adds to the number that is there. Refused EmptyKey, TooLong, NotOpen, Busy, NoRecord, NotNumber.
#[unsafe(no_mangle)]
pub extern "C" fn jakumshe_raw_add(
    handle: &mut Handle,
    alloc: Global,
    txn: u64,
    key: &[u8],
    amount: u64,
) -> i32
    ensures acted { 0 < length key.now → length key.now ≤ 32
        → Acted (op.Add key.now amount) txn handle.old.node handle.new.node result }
    ensures empty_key { length key.now ≡ 0 → RefusedAs 11 handle.old.node handle.new.node result }
    ensures long_key { 32 < length key.now → RefusedAs 12 handle.old.node handle.new.node result }
{
    perform(handle, alloc, txn, ops::add(key, amount))
}

/// Does the operation, or refuses it where none was made of what C gave.
fn perform(handle: &mut Handle, alloc: Global, txn: u64, op: Result<Op, Refusal>) -> i32
    ensures acted { IfOk op (λ op. Acted op txn handle.old.node handle.new.node result) }
    ensures refused { IfErr op (λ refusal.
        RefusedAs (status (Refused refusal)) handle.old.node handle.new.node result) }
{
    let mut node = match handle.take(alloc) {
        Ok(node) => node,
        Err(fault) => return fault.status(),
    };
    let ended = match op {
        Ok(op) => node.act(txn, op),
        Err(refusal) => Err(Fault::Refused(refusal)),
    };
    handle.put(node);
    status_of(ended)
}

/// Gives the value at the key. Refused EmptyKey, TooLong, NotOpen, Busy, NoRecord.
#[unsafe(no_mangle)]
pub extern "C" fn jakumshe_raw_get(
    handle: &mut Handle,
    alloc: Global,
    txn: u64,
    key: &[u8],
    value: &mut ValueBytes,
) -> i32
    ensures read { 0 < length key.now → length key.now ≤ 32
        → OnNode handle.old.node handle.new.node result (λ old new. EndsSo result (λ r.
        Tells old.world (event.Get txn key.now) (finds txn) r new.world × PutsValue r value.old value.new
        × (new.rows ≡ old.rows))) }
    ensures empty_key { length key.now ≡ 0 → RefusedAs 11 handle.old.node handle.new.node result }
    ensures long_key { 32 < length key.now → RefusedAs 12 handle.old.node handle.new.node result }
    ensures closed { handle.old.node ≡ None → value.new ≡ value.old }
{
    let mut node = match handle.take(alloc) {
        Ok(node) => node,
        Err(fault) => return fault.status(),
    };
    let ended = node.get(txn, key);
    handle.put(node);
    match ended {
        Ok(found) => {
            value.put(&found);
            DONE
        }
        Err(fault) => fault.status(),
    }
}

/// Reads the rows from `low` on, below `high` or, where that is empty, to the end, and gives how many there are. Refused
/// EmptyKey, TooLong, BadRange, NotOpen, Busy.
#[unsafe(no_mangle)]
pub extern "C" fn jakumshe_raw_scan(
    handle: &mut Handle,
    alloc: Global,
    txn: u64,
    low: &[u8],
    high: &[u8],
    count: &mut usize,
) -> i32
    ensures read { 0 < length low.now → length low.now ≤ 32 → length high.now ≤ 32
        → OnNode handle.old.node handle.new.node result (λ old new. EndsSo result (λ r.
        Reads old.world txn low.now (end_of high.now) old.rows.items new.rows.items r new.world
        × PutsResult r count.old count.new)) }
    ensures empty_key { length low.now ≡ 0 → RefusedAs 11 handle.old.node handle.new.node result }
    ensures long_key { 32 < length low.now → RefusedAs 12 handle.old.node handle.new.node result }
    ensures long_end { 0 < length low.now → 32 < length high.now
        → RefusedAs 12 handle.old.node handle.new.node result }
    ensures closed { handle.old.node ≡ None → count.new ≡ count.old }
{
    let mut node = match handle.take(alloc) {
        Ok(node) => node,
        Err(fault) => return fault.status(),
    };
    let ended = node.scan(txn, low, high);
    handle.put(node);
    match ended {
        Ok(found) => {
            *count = found;
            DONE
        }
        Err(fault) => fault.status(),
    }
}

/// Gives the next rows of those that were read last, as many as there is room for, and how many these are.
#[unsafe(no_mangle)]
pub extern "C" fn jakumshe_raw_page(
    handle: &mut Handle,
    alloc: Global,
    rows: &mut [RowBytes],
    count: &mut usize,
) -> i32
    ensures given { OnNode handle.old.node handle.new.node result (λ old new. (result ≡ pos 0)
        × IsPageOfRows old.rows.items new.rows.items rows.new count.new × (new.world ≡ old.world)) }
    ensures closed { handle.old.node ≡ None → (rows.new ≡ rows.old) × (count.new ≡ count.old) }
{
    let mut node = match handle.take(alloc) {
        Ok(node) => node,
        Err(fault) => return fault.status(),
    };
    *count = node.page(rows);
    handle.put(node);
    DONE
}

/// Sets a savepoint and gives its number, from 1 in each transaction. Refused NotOpen, Full.
#[unsafe(no_mangle)]
pub extern "C" fn jakumshe_raw_save(
    handle: &mut Handle,
    alloc: Global,
    txn: u64,
    savepoint: &mut u64,
) -> i32
    ensures saved { OnNode handle.old.node handle.new.node result (λ old new. EndsSo result (λ r.
        Makes old.world (event.Save txn) saves r new.world × PutsResult r savepoint.old savepoint.new
        × (new.rows ≡ old.rows))) }
    ensures closed { handle.old.node ≡ None → savepoint.new ≡ savepoint.old }
{
    let mut node = match handle.take(alloc) {
        Ok(node) => node,
        Err(fault) => return fault.status(),
    };
    let ended = node.save(txn);
    handle.put(node);
    match ended {
        Ok(number) => {
            *savepoint = number;
            DONE
        }
        Err(fault) => fault.status(),
    }
}

/// Undoes what the transaction did since the savepoint, which stays. Refused NotOpen, BadSavepoint.
#[unsafe(no_mangle)]
pub extern "C" fn jakumshe_raw_go_back(
    handle: &mut Handle,
    alloc: Global,
    txn: u64,
    savepoint: u64,
) -> i32
    ensures back { OnNode handle.old.node handle.new.node result (λ old new. EndsSo result (λ r.
        Tells old.world (event.GoBack txn savepoint) (goes_back txn savepoint) r new.world × (new.rows ≡ old.rows))) }
{
    let mut node = match handle.take(alloc) {
        Ok(node) => node,
        Err(fault) => return fault.status(),
    };
    let ended = node.go_back(txn, savepoint);
    handle.put(node);
    status_of(ended)
}

/// Undoes all that the transaction did, and ends it. Refused NotOpen.
#[unsafe(no_mangle)]
pub extern "C" fn jakumshe_raw_roll_back(handle: &mut Handle, alloc: Global, txn: u64) -> i32
    ensures rolled_back { OnNode handle.old.node handle.new.node result (λ old new. EndsSo result (λ r.
        Tells old.world (event.Rollback txn) (rolls_back txn) r new.world × (new.rows ≡ old.rows))) }
{
    let mut node = match handle.take(alloc) {
        Ok(node) => node,
        Err(fault) => return fault.status(),
    };
    let ended = node.roll_back(txn);
    handle.put(node);
    status_of(ended)
}

/// Ends the transaction; what it did stays. Refused NotOpen.
#[unsafe(no_mangle)]
pub extern "C" fn jakumshe_raw_commit(handle: &mut Handle, alloc: Global, txn: u64) -> i32
    ensures committed { OnNode handle.old.node handle.new.node result (λ old new. EndsSo result (λ r.
        Tells old.world (event.Commit txn) (commits txn) r new.world × (new.rows ≡ old.rows))) }
{
    let mut node = match handle.take(alloc) {
        Ok(node) => node,
        Err(fault) => return fault.status(),
    };
    let ended = node.commit(txn);
    handle.put(node);
    status_of(ended)
}

/// Gives the name of a status.
#[unsafe(no_mangle)]
pub extern "C" fn jakumshe_raw_name(status: i32, name: &mut NameText) {
    name.put(name_of(status));
}

/// Gives the version of the library.
#[unsafe(no_mangle)]
pub extern "C" fn jakumshe_raw_version(version: &mut NameText) {
    version.put(VERSION);
}
