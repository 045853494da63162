//! The gate that holds one request while the data component crashes.
ghost use Rattle.std.specs.Prelude.{◌≡◌};
ghost use Rattle.shell_pool.specs.Words.{deletes};

use codec::{Reply, Request};
use engine_workers::Gate;
use record_key::Op;
use std::sync::{Arc, Condvar, Mutex, Wait};

/// The key whose first delete is held: this client's second round inserted it.
const HELD: &[u8; 4] = b"s1r2";

const HOLDER: u64 = 1;

/// How far the gate is.
#[derive(Debug, Clone, Copy, PartialEq, Eq)]
enum Stage {
    /// The request is still to come.
    Awaited,
    /// It waits here.
    Held,
    /// Nothing waits here any more.
    Open,
}

/// Where the request waits, and who waits for it.
#[derive(Drop)]
pub struct Holding {
    stage: Mutex<Stage>,
    moved: Condvar,
}

impl Holding {
    /// A gate that holds the request, or one that is open.
    pub fn new(holds: bool) -> Holding {
        let stage = if holds { Stage::Awaited } else { Stage::Open };
        Holding {
            stage: Mutex::new(stage),
            moved: Condvar::new(),
        }
    }

    // Goes from one stage to another, if it is there. Whether it was.
    fn turn<R: Wait>(&self, rt: &R, from: Stage, to: Stage) -> bool {
        let mut stage = self.stage.lock(rt);
        if *stage != from {
            return false;
        }
        *stage = to;
        self.moved.notify_all();
        true
    }

    // Waits while it is in this stage. Gives the one after it.
    fn wait<R: Wait>(&self, rt: &R, stage: Stage) -> Stage {
        *self
            .moved
            .wait_while(rt, self.stage.lock(rt), |now| *now == stage)
    }

    /// Waits here until the gate is opened, if the request is awaited: the first such request.
    pub fn hold<R: Wait>(&self, rt: &R) {
        if self.turn(rt, Stage::Awaited, Stage::Held) {
            self.wait(rt, Stage::Held);
        }
    }

    /// Waits until the request is held, or will not come. Whether it is held.
    pub fn wait_held<R: Wait>(&self, rt: &R) -> bool {
        self.wait(rt, Stage::Awaited) == Stage::Held
    }

    /// Lets the request go that is held.
    pub fn open<R: Wait>(&self, rt: &R) {
        self.turn(rt, Stage::Held, Stage::Open);
    }

    /// A client is over. Nobody is to wait for the request, if it was this one's and didn't come yet.
    pub fn leave<R: Wait>(&self, rt: &R, client: u64) {
        if client == HOLDER {
            self.turn(rt, Stage::Awaited, Stage::Open);
        }
    }
}

/// The engine's end of the gate.
#[derive(Drop)]
pub struct Door<R> {
    rt: R,
    holding: Arc<Holding>,
}

impl<R> Door<R> {
    pub fn new(rt: R, holding: Arc<Holding>) -> Door<R> {
        Door { rt, holding }
    }
}

impl<R: Wait> Gate for Door<R> {
    fn before(&self, request: &Request) {
        if deletes_held(request) {
            self.holding.hold(&self.rt);
        }
    }

    fn after(&self, _reply: &Reply) {}
}

fn deletes_held(request: &Request) -> bool
    ensures { result ≡ deletes HELD.now request.now }
{
    match request {
        Request::Perform {
            op: Op::Delete(key),
            ..
        } => key.as_bytes() == HELD.as_slice(),
        _ => false,
    }
}
