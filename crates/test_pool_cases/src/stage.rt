//! The gate of a case: one message waits there until the case goes on, or each waits a little.
use codec::{Reply, Request};
use engine_answers::engine_history::Gate;
use std::sync::Arc;
use std::sync::atomic::{AtomicBool, AtomicU64, Ordering};
use std::thread;

/// Nobody waits for more turns than these. So a case ends, whatever the engine does.
const TURNS: u64 = 1_000_000;

/// Where the first message of a case waits.
#[derive(Clone, Copy, PartialEq, Eq)]
pub enum Hold {
    Nowhere,
    /// Everywhere and each message, but for a few turns alone: so they overtake one another.
    Briefly,
    /// Before it is served.
    Request,
    /// While the data component serves it.
    Serving,
    /// Before its reply is taken.
    Reply,
}

/// How far a case is.
#[derive(Drop)]
pub struct Stage {
    hold: Hold,
    held: AtomicBool,
    open: AtomicBool,
    late: AtomicBool,
    down: AtomicBool,
    passed: AtomicU64,
    calls: AtomicU64,
    over: AtomicU64,
}

impl Stage {
    pub fn new(hold: Hold) -> Stage {
        Stage {
            hold,
            held: AtomicBool::new(false),
            open: AtomicBool::new(false),
            late: AtomicBool::new(false),
            down: AtomicBool::new(false),
            passed: AtomicU64::new(0),
            calls: AtomicU64::new(0),
            over: AtomicU64::new(0),
        }
    }

    // A message is here.
    fn pass(&self, at: Hold) {
        if self.hold == Hold::Briefly {
            self.linger();
        } else if self.hold == at && !self.held.swap(true, Ordering::SeqCst) {
            self.wait_open();
        }
    }

    // Waits for some turns, of which the next message here has one more or none.
    fn linger(&self) {
        let turns = self.passed.fetch_add(1, Ordering::SeqCst) % 5;
        for _ in 0..turns {
            thread::yield_now();
        }
    }

    // The first message that comes here waits until the gate is opened.
    fn wait_open(&self) {
        for _ in 0..TURNS {
            if self.open.load(Ordering::SeqCst) {
                return;
            }
            thread::yield_now();
        }
        self.late.store(true, Ordering::SeqCst);
    }

    /// Waits until a message waits here, or a client makes no more calls. Whether one came.
    pub fn wait_held(&self) -> bool {
        for _ in 0..TURNS {
            if self.held.load(Ordering::SeqCst) {
                return true;
            }
            if self.over.load(Ordering::SeqCst) > 0 {
                break;
            }
            thread::yield_now();
        }
        false
    }

    /// Lets the message go.
    pub fn open(&self) {
        self.open.store(true, Ordering::SeqCst);
    }

    /// A message went before the gate was opened: what was to be done beside it took too long.
    pub fn is_late(&self) -> bool {
        self.late.load(Ordering::SeqCst)
    }

    /// A component is about to crash, or all are up again.
    pub fn set_down(&self, down: bool) {
        self.down.store(down, Ordering::SeqCst);
    }

    /// Waits until all are up again.
    pub fn wait_up(&self) {
        for _ in 0..TURNS {
            if !self.down.load(Ordering::SeqCst) {
                return;
            }
            thread::yield_now();
        }
    }

    /// A client has made a call.
    pub fn count_call(&self) {
        self.calls.fetch_add(1, Ordering::SeqCst);
    }

    /// A client makes no more calls.
    pub fn count_over(&self) {
        self.over.fetch_add(1, Ordering::SeqCst);
    }

    /// Waits until so many calls were made, or so many clients are over.
    pub fn wait_calls(&self, calls: u64, clients: u64) {
        for _ in 0..TURNS {
            if self.calls.load(Ordering::SeqCst) >= calls
                || self.over.load(Ordering::SeqCst) >= clients
            {
                return;
            }
            thread::yield_now();
        }
    }
}

/// The engine's end of the gate.
#[derive(Drop)]
pub struct Door {
    stage: Arc<Stage>,
}

impl Door {
    pub fn new(stage: Arc<Stage>) -> Door {
        Door { stage }
    }
}

impl Gate for Door {
    fn before(&self, _request: &Request) {
        self.stage.pass(Hold::Request);
    }

    fn after(&self, _reply: &Reply) {
        self.stage.pass(Hold::Reply);
    }

    fn in_dc(&self, _request: &Request) {
        self.stage.pass(Hold::Serving);
    }
}
