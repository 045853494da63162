//! The functions by which C keeps a node's log in a file, as c/jakumshe_store.c does.
ghost use Rattle.std.specs.Prelude.{◌≡◌, ◌≢◌, ◌≤◌, length, pos, false, None, IsSome, IsSomeAnd, IfErr};
ghost use Rattle.log_blocks.specs.Blocks.{sum_of};
ghost use Rattle.jakumshe.specs.Calls.{EndsSo};
ghost use Rattle.jakumshe.specs.Holding.{OnNode};
ghost use Rattle.jakumshe.specs.Logs.{IsOpenedOn, NotOpened, Copies, stable_bytes};

use crate::fault::{DONE, Fault};
use crate::handle::Handle;
use crate::node::Node;
use crate::records::HeadBytes;
use log_blocks::{head, unpack};
use record_key::Refusal;
use std::alloc::Global;

/// Makes of the bytes of the file of a store's log those of the log, which take the place of the first ones: how many
/// these are, where the last whole block ended, and the checksum of all up to there. The store's number is 0 where it
/// began as version 1. Refused Damaged.
#[unsafe(no_mangle)]
pub extern "C" fn jakumshe_raw_unpack(
    file: &mut [u8],
    store: u64,
    len: &mut usize,
    end: &mut usize,
    sum: &mut u64,
) -> i32
    ensures len { result ≡ pos 0 → len.new ≤ end.new }
    ensures end { result ≡ pos 0 → end.new ≤ length file.new }
    ensures refused { result ≢ pos 0
        → (result ≡ pos 41) × (len.new ≡ len.old) × (end.new ≡ end.old) × (sum.new ≡ sum.old) }
{
    match unpack(file, store) {
        Ok(unpacked) => {
            *len = unpacked.len;
            *end = unpacked.end;
            *sum = unpacked.sum;
            DONE
        }
        Err(_) => Fault::Damaged.status(),
    }
}

/// Makes a node on a log in a handle that has none, and gives how many bytes of the log it keeps. Refused Open, NoMemory,
/// BadBytes, WrongAnswer, Checkpoint.
#[unsafe(no_mangle)]
pub extern "C" fn jakumshe_raw_open_on(
    handle: &mut Handle,
    alloc: Global,
    log: &[u8],
    kept: &mut usize,
) -> i32
    ensures open { IsSome handle.old.node → (result ≡ pos 34) × (handle.new.node ≡ handle.old.node)
        × (kept.new ≡ kept.old) }
    ensures opened { handle.old.node ≡ None → result ≡ pos 0
        → IsSomeAnd handle.new.node (λ node. IsOpenedOn log.now kept.new node.world) }
    ensures refused { handle.old.node ≡ None → result ≢ pos 0 → (handle.new.node ≡ None) × (kept.new ≡ kept.old) }
    ensures cause { handle.old.node ≡ None → result ≢ pos 0 → result ≢ pos 1
        → EndsSo {X = Unit {0}} result (λ r. IfErr r (NotOpened log.now)) }
{
    if let Ok(node) = handle.take(alloc) {
        handle.put(node);
        return Fault::Open.status();
    }
    let (node, count) = match Node::open_on(alloc, log) {
        Ok(opened) => opened,
        Err(fault) => return fault.status(),
    };
    match Box::new(alloc, node) {
        Ok(node) => {
            handle.put(node);
            *kept = count;
            DONE
        }
        Err(_) => Fault::Refused(Refusal::NoMemory).status(),
    }
}

/// Gives the bytes of the log that are stable, from one of them on, as many as there is room for, and how many there are
/// in all.
#[unsafe(no_mangle)]
pub extern "C" fn jakumshe_raw_log(
    handle: &mut Handle,
    alloc: Global,
    from: usize,
    room: &mut [u8],
    len: &mut usize,
) -> i32
    ensures same { OnNode handle.old.node handle.new.node result (λ old new. new ≡ old) }
    ensures given { OnNode handle.old.node handle.new.node result (λ old new. result ≡ pos 0
        → Copies (stable_bytes old.world) from room.new len.new) }
    ensures refused { OnNode handle.old.node handle.new.node result (λ old new. result ≢ pos 0
        → (result ≡ pos 9) × (old.world.tc_up ≡ false) × (len.new ≡ len.old)) }
    ensures closed { handle.old.node ≡ None → (room.new ≡ room.old) × (len.new ≡ len.old) }
{
    let node = match handle.take(alloc) {
        Ok(node) => node,
        Err(fault) => return fault.status(),
    };
    let copied = node.copy_log(from, room);
    handle.put(node);
    match copied {
        Ok(all) => {
            *len = all;
            DONE
        }
        Err(refusal) => Fault::Refused(refusal).status(),
    }
}

/// Gives the head of a block of these bytes, which goes behind all that has the checksum `sum` and puts them behind the
/// first `start` bytes of the log; and makes of `sum` the checksum of all up to the block's end.
#[unsafe(no_mangle)]
pub extern "C" fn jakumshe_raw_head(sum: &mut u64, start: u64, bytes: &[u8], room: &mut HeadBytes)
    ensures { sum.new ≡ sum_of sum.old start bytes.now }
{
    let (head, after) = head(*sum, start, bytes);
    room.put(head);
    *sum = after;
}
