//! A random walk, with messages late, repeated and lost and crashes of both components, beside the plain slow model.
use crate::calls::{new_world, record, records, rows, settle_all, stable_end};
use crate::choosing::{Chooser, is_dc_down, is_tc_down};
use crate::counts::Counts;
use crate::driving::step_again;
use crate::failures::Failures;
use crate::flaw::{Flaw, check};
use crate::renewing::check_renewals;
use history::Record;
use log_laws::plain_history;
use node_laws::{Event, Out};
use node_world::World;
use record_key::Refusal;
use std::alloc::Global;
use test_model::Model;

/// A node, the model beside it, and how far the walk came.
#[derive(Drop)]
pub struct Walk {
    world: Box<World>,
    model: Model,
    chooser: Chooser,
    /// The log at the latest crash of the transaction component, and how many of its records had to be kept.
    crashed: Vec<Record>,
    least: u64,
    failures: Failures,
    counts: Counts,
}

impl Walk {
    /// Another walk after those that were counted.
    pub fn new(alloc: Global, seed: u64, counts: Counts) -> Result<Walk, Refusal> {
        Ok(Walk {
            world: new_world(alloc)?,
            model: Model::new(alloc),
            chooser: Chooser::new(seed),
            crashed: Vec::new(alloc),
            least: 0,
            failures: Failures::new(),
            counts,
        })
    }

    /// How far it and those before it came.
    pub fn counts(&self) -> Counts {
        self.counts
    }

    /// One event: two of three go on from the last, the others are any.
    pub fn walk(&mut self, alloc: Global) -> Result<(), Flaw> {
        let goes_on = self.chooser.below(3) > 0;
        let event = self.event(goes_on)?;
        let out = self.compared(alloc, &event)?;
        if let Event::RestartTc = event {
            self.reopened(alloc, &out)?;
        }
        self.take(alloc, &out)?;
        if goes_on || is_step(&out) {
            self.chooser.go_on_from(out);
        }
        Ok(())
    }

    /// The event's output, which is that of the model where it says one. Where a device failed, as one might, the model
    /// doesn't hear of the event.
    fn compared(&mut self, alloc: Global, event: &Event) -> Result<Out, Flaw> {
        self.before(alloc, event)?;
        let next = next_number(&self.world);
        let refused = is_of_down(&self.world, event);
        let out = step_again(&mut self.world, event);
        if out == Out::Refused(Refusal::Device) {
            check(
                self.failures.happened(event),
                "a device failed that must not",
            )?;
            return Ok(out);
        }
        if out == Out::Set {
            self.failures.set(event);
        }
        if refused {
            check(
                out == Out::Refused(Refusal::NotConnected),
                "an event of a component that is down isn't refused",
            )?;
        }
        let answer = self.model.call(alloc, event, next);
        if is_no_memory(&answer) || out == Out::Refused(Refusal::NoMemory) {
            return Err(Flaw::NoMemory);
        }
        if let Some(answer) = answer {
            check(out == answer, "a call is answered otherwise")?;
        }
        Ok(out)
    }

    /// Before a crash of the transaction component its log is noted.
    fn before(&mut self, alloc: Global, event: &Event) -> Result<(), Flaw> {
        if let Event::CrashTc { frames, .. } = event
            && !is_tc_down(&self.world)
        {
            self.crashed = self.log(alloc)?;
            let stable = stable_end(&self.world)?;
            self.least = stable
                .saturating_add(*frames)
                .min(self.crashed.len() as u64);
            self.model.crash();
        }
        Ok(())
    }

    /// The transaction component runs again where it didn't, with the log that it found.
    fn reopened(&mut self, alloc: Global, out: &Out) -> Result<(), Flaw> {
        let Out::Up(count) = out else {
            return Ok(());
        };
        let log = self.found(alloc, *count as usize)?;
        self.check_found(&log)?;
        self.counts
            .count_lost_answers(self.model.lines.answered_above(*count));
        self.model.restart(alloc, &log)?;
        self.counts.count_losers(&self.model.losers);
        Ok(())
    }

    /// The first records of the log, so many.
    fn found(&self, alloc: Global, count: usize) -> Result<Vec<Record>, Flaw> {
        let mut log = self.log(alloc)?;
        log.truncate(count);
        Ok(log)
    }

    /// They are a beginning of the log that was noted, with all that had to be kept, at most one more, and all commits
    /// that were told.
    fn check_found(&self, log: &[Record]) -> Result<(), Flaw> {
        let count = log.len() as u64;
        check(count >= self.least, "a crash lost what had to stay")?;
        check(
            count.saturating_sub(self.least) <= 1,
            "a crash kept too much",
        )?;
        check(
            self.crashed.as_slice().starts_with(log),
            "a crash left no beginning of the log",
        )?;
        check(self.model.is_durable(log), "a commit that was told is lost")
    }

    fn event(&mut self, goes_on: bool) -> Result<Event, Refusal> {
        if goes_on {
            self.chooser.useful(&self.model, &self.world)
        } else {
            self.chooser.any(&self.model, &self.world)
        }
    }

    /// Where the output tells something, the model tells the same.
    fn take(&mut self, alloc: Global, out: &Out) -> Result<(), Flaw> {
        self.counts.count(out, &self.model);
        if let Some(told) = self.model.tell(alloc, out)? {
            check(*out == told, "a client is told something else")?;
        }
        Ok(())
    }

    /// Settles the node. Where a device failed or memory was refused it goes on.
    pub fn settle(&mut self, alloc: Global) -> Result<(), Flaw> {
        for _ in 0..1000 {
            if self.play(alloc, None)? {
                return Ok(());
            }
        }
        Err(Flaw::Differs("the node doesn't settle"))
    }

    /// One time of three clients are served again.
    pub fn serve_sometimes(&mut self, alloc: Global) -> Result<(), Flaw> {
        if self.chooser.below(3) == 0 {
            self.serve(alloc)?;
        }
        Ok(())
    }

    /// The node settles until clients are served, where they aren't: losers may be left, and much else.
    pub fn serve(&mut self, alloc: Global) -> Result<(), Flaw> {
        for _ in 0..10_000 {
            if self.model.served().is_ok() {
                return Ok(());
            }
            self.play(alloc, Some(1))?;
        }
        Err(Flaw::Differs("nobody is served"))
    }

    /// So many rounds of settling at most, or until a device fails: whether none is left.
    fn play(&mut self, alloc: Global, most: Option<u64>) -> Result<bool, Flaw> {
        let mut outs = Vec::new(alloc);
        let is_dc_first = is_dc_down(&self.world);
        let came = settle_all(&mut self.world, most, &mut outs);
        self.take_all(alloc, &outs, is_dc_first)?;
        self.chooser.go_on_from(Out::Nothing);
        match came {
            Ok(is_settled) => Ok(is_settled),
            Err(Refusal::Device) => {
                check(
                    self.failures.happened_amid(),
                    "a device failed amid a settling",
                )?;
                Ok(false)
            }
            Err(Refusal::NoMemory) => Ok(false),
            Err(refusal) => Err(Flaw::Differs(refusal.name())),
        }
    }

    /// The outputs of settling. The data component is restarted first, where it was down.
    fn take_all(&mut self, alloc: Global, outs: &[Out], is_dc_first: bool) -> Result<(), Flaw> {
        for (place, out) in outs.iter().enumerate() {
            if place > 0 || !is_dc_first {
                self.reopened(alloc, out)?;
            }
            self.take(alloc, out)?;
        }
        Ok(())
    }

    /// No client of the settled node waits, and its records are those of the plain table.
    pub fn check_settled(&self, alloc: Global) -> Result<(), Flaw> {
        check(self.model.is_at_rest(), "somebody waits in a settled node")?;
        let table = self.model.table(alloc)?;
        check(
            rows(&self.world)?.as_slice() == table.rows(),
            "a settled node has other records",
        )
    }

    /// The settled node is renewed, just where no client's transaction is open.
    pub fn check_renewals(&self, alloc: Global) -> Result<(), Flaw> {
        check_renewals(alloc, &self.world, self.model.open.is_empty())
    }

    /// The transaction component crashes and loses whoever is open.
    pub fn crash(&mut self, alloc: Global) -> Result<(), Flaw> {
        let event = Event::CrashTc {
            frames: 0,
            bytes: 0,
        };
        let out = self.compared(alloc, &event)?;
        self.take(alloc, &out)
    }

    /// The records of the log, the oldest first.
    pub fn log(&self, alloc: Global) -> Result<Vec<Record>, Flaw> {
        let mut log = Vec::new(alloc);
        for before in 0..records(&self.world)? {
            if let Some(item) = record(&self.world, before + 1)? {
                log.push(item)?;
            }
        }
        Ok(log)
    }

    /// The settled node has the rows of its log's history.
    pub fn check_history(&self, alloc: Global) -> Result<(), Flaw> {
        let table = plain_history(alloc, &self.log(alloc)?)?;
        check(
            rows(&self.world)?.as_slice() == table.rows(),
            "a settled node has other records than its log's history",
        )
    }
}

/// The model had no memory for the call.
fn is_no_memory(answer: &Option<Out>) -> bool {
    matches!(answer, Some(Out::Refused(Refusal::NoMemory)))
}

/// The event is one of a component that is down, and no client's call.
fn is_of_down(world: &World, event: &Event) -> bool {
    is_dc_down(world) && is_of_dc(event) || is_tc_down(world) && is_of_tc(event)
}

fn is_of_tc(event: &Event) -> bool {
    matches!(
        event,
        Event::Reconnect
            | Event::Recover
            | Event::Force
            | Event::Send { .. }
            | Event::Undo { .. }
            | Event::LowWater { .. }
            | Event::Checkpoint
            | Event::Reply { .. }
    )
}

fn is_of_dc(event: &Event) -> bool {
    matches!(
        event,
        Event::Split { .. }
            | Event::Merge { .. }
            | Event::Tend
            | Event::Flush { .. }
            | Event::Request { .. }
    )
}

/// The number of the next record. There is none where the transaction component is down.
fn next_number(world: &World) -> u64 {
    match world.records() {
        Ok(count) => count.saturating_add(1),
        Err(_) => 0,
    }
}

/// A transaction or a session went on by it, and not a message alone.
fn is_step(out: &Out) -> bool {
    !matches!(
        out,
        Out::Nothing
            | Out::Noted
            | Out::Refused(_)
            | Out::Sent(_)
            | Out::Replied(_)
            | Out::Stable { .. }
    )
}
