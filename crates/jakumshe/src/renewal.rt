//! The functions by which C writes a node's log anew.
ghost use Rattle.std.specs.Prelude.{◌≡◌, ◌≢◌, pos, None, IsSome, IsSomeAnd, IfErr};
ghost use Rattle.jakumshe.specs.Calls.{EndsSo};
ghost use Rattle.jakumshe.specs.Handles.{Replaces};
ghost use Rattle.jakumshe.specs.Holding.{OnNode};
ghost use Rattle.jakumshe.specs.Renewal.{IsRenewed, NotRenewed};

use crate::fault::{DONE, Fault};
use crate::handle::Handle;
use record_key::Refusal;
use std::alloc::Global;

/// Makes a node, in a handle that has none, with just the records of another one, in which nobody is open. That one
/// goes on as it was, until the new one takes its place. Refused Open; Closed where the other handle has no node; Active.
#[unsafe(no_mangle)]
pub extern "C" fn jakumshe_raw_renew(
    handle: &mut Handle,
    alloc: Global,
    renewed: &mut Handle,
) -> i32
    ensures open { IsSome renewed.old.node → (result ≡ pos 34) × (renewed.new.node ≡ renewed.old.node)
        × (handle.new.node ≡ handle.old.node) }
    ensures made { renewed.old.node ≡ None → OnNode handle.old.node handle.new.node result (λ old new. result ≡ pos 0
        → IsSomeAnd renewed.new.node (λ node. IsRenewed old.world new.world node.world)) }
    ensures rows { renewed.old.node ≡ None → OnNode handle.old.node handle.new.node result (λ old new.
        new.rows ≡ old.rows) }
    ensures refused { renewed.old.node ≡ None → result ≢ pos 0 → renewed.new.node ≡ None }
    ensures cause { renewed.old.node ≡ None → OnNode handle.old.node handle.new.node result (λ old new. result ≢ pos 0
        → result ≢ pos 1 → EndsSo {X = Unit {0}} result (λ r. IfErr r (NotRenewed old.world new.world))) }
{
    if let Ok(node) = renewed.take(alloc) {
        renewed.put(node);
        return Fault::Open.status();
    }
    let mut node = match handle.take(alloc) {
        Ok(node) => node,
        Err(fault) => return fault.status(),
    };
    let made = node.renewed();
    handle.put(node);
    let made = match made {
        Ok(made) => made,
        Err(fault) => return fault.status(),
    };
    match Box::new(alloc, made) {
        Ok(made) => {
            renewed.put(made);
            DONE
        }
        Err(_) => Fault::Refused(Refusal::NoMemory).status(),
    }
}

/// Puts the node of the second handle in the place of that of the first, which is freed; what is left of the rows that
/// were read last stays. Refused Closed where either has none.
#[unsafe(no_mangle)]
pub extern "C" fn jakumshe_raw_replace(
    handle: &mut Handle,
    alloc: Global,
    renewed: &mut Handle,
) -> i32
    ensures { Replaces handle.old.node renewed.old.node handle.new.node renewed.new.node result }
{
    let mut old = match handle.take(alloc) {
        Ok(old) => old,
        Err(fault) => return fault.status(),
    };
    let mut new = match renewed.take(alloc) {
        Ok(new) => new,
        Err(fault) => {
            handle.put(old);
            return fault.status();
        }
    };
    new.take_rows(&mut old);
    handle.put(new);
    DONE
}
