//! What C holds of a node.
ghost use Rattle.std.specs.Prelude.{◌≡◌, None, Some, MatchOption, MatchResult, Option};
ghost use Rattle.jakumshe.specs.declared.fault.Fault.TheVariants.{Closed};
ghost use Rattle.std.specs.Coded.{coded_option};
ghost use Rattle.jakumshe.specs.contracts.node.Node.{the_row};
ghost use Rattle.jakumshe.specs.declared.node.Node.{Node};

use crate::fault::Fault;
use crate::node::Node;
use std::alloc::Global;
use std::marker::Model;
use std::mem::replace;
use std::ptr::null_mut;

/// A place of C's for one node: a pointer to it, null where there is none. The pointer has no type there, since C is given
/// none to what has cells of its own.
#[repr(C)]
pub struct Handle {
    at: *mut u8,
    alloc: Global,
    ghost node: { Option Node } by { coded_option the_row.coded },
}

impl Model for Handle {
    ghost use Rattle.jakumshe.specs.Holding.{kept};
    ghost use Rattle.jakumshe.specs.contracts.node.Node.{the_row};

    ghost also_owns = { λ h. kept the_row h.alloc h.at h.node };
}

impl Handle {
    /// Takes the node out. Refused Closed.
    pub(crate) fn take(&mut self, alloc: Global) -> Result<Box<Node>, Fault>
        ensures gone { self.new.node ≡ None }
        ensures taken { MatchResult result (λ node. self.old.node ≡ Some node.value)
            (λ fault. (self.old.node ≡ None) × (fault ≡ Closed)) }
    {
        let held = replace(self, Handle::closed(alloc));
        match held.into_box() {
            Some(node) => Ok(node),
            None => Err(Fault::Closed),
        }
    }

    /// Puts a node in. One that was there is freed.
    pub(crate) fn put(&mut self, node: Box<Node>)
        ensures { self.new.node ≡ Some node.value }
    {
        *self = Handle::holding(node);
    }

    fn closed(alloc: Global) -> Handle
        ensures { result.node ≡ None }
    {
        Handle {
            at: null_mut(),
            alloc,
        }
    }

    fn holding(node: Box<Node>) -> Handle
        ensures { result.node ≡ Some node.value }
    {
        let (at, alloc) = Box::into_raw_with_allocator(node);
        Handle {
            at: at as *mut u8,
            alloc,
        }
    }

    fn into_box(self) -> Option<Box<Node>>
        ensures { MatchOption result (self.node ≡ None) (λ node. self.node ≡ Some node.value) }
    {
        let Handle { at, alloc } = self;
        if at.is_null() {
            None
        } else {
            Some(unsafe { Box::from_raw(alloc, at as *mut Node) })
        }
    }
}

impl Drop for Handle {
    fn drop(self) {
        drop(self.into_box());
    }
}
