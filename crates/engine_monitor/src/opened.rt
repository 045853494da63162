//! What an engine is made of before it has a name.
ghost use Rattle.std.specs.Prelude.{◌≡◌, ◌<◌, ◌≤◌, ◌+◌, [], All, length, Err, IfOk, IfErr};
ghost use Rattle.std.specs.List.{AllByRecursion};
ghost use Rattle.engine_marks.specs.Seen.{raiser, reader};
ghost use Rattle.engine_guarded.specs.engine_history.specs.Steps.{node_at};
ghost use Rattle.engine_guarded.specs.engine_history.specs.node_laws.specs.Forgetting.{without_messages};
ghost use Rattle.engine_guarded.specs.engine_history.specs.node_laws.specs.Node.{fresh_node};
ghost use Rattle.engine_monitor.specs.Opened.{ReadsMarks};

use boxcar::Vec as Entries;
use engine_agreement::{FarEnd, Mark};
use engine_guarded::Entry;
use engine_marks::{Marks, Seat};
use node_world::World;
use record_key::Refusal;
use stable::{CrashLog, CrashPages, MemLog, MemPages};
use std::alloc::{AllocError, Global};
use std::marker::Model;

/// The most sessions that an engine has.
const MOST: usize = 8;

/// Both ends of an agreement. Contracts see its name.
#[derive(Drop)]
pub(crate) struct Ends {
    far_end: FarEnd,
    mark: Mark,
}

impl Model for Ends {
    ghost use Rattle.std.specs.Prelude.{◌≡◌, ℕ};

    ghost Value = { ℕ };

    ghost view = { λ e. e.far_end.name };

    ghost invariant = { λ e. (e.far_end.number ≡ 0) × (e.mark ≡ e.far_end) };
}

impl Ends {
    fn open() -> Ends {
        let (far_end, mark) = FarEnd::open();
        Ends { far_end, mark }
    }

    /// The two ends, at this number.
    pub(crate) fn at(self, number: u64) -> (FarEnd, Mark)
        ensures name { result.0.name ≡ self }
        ensures number { result.0.number ≡ number }
        ensures mark { result.1 ≡ result.0 }
    {
        let Ends {
            mut far_end,
            mut mark,
        } = self;
        far_end.set(&mut mark, number);
        (far_end, mark)
    }
}

/// What a session is made of: its agreement, and its seat at the marks.
#[derive(Drop)]
pub(crate) struct SessionStart {
    pub(crate) ends: Ends,
    pub(crate) seat: Seat,
}

/// No entries, marks that nobody has raised, and what each session begins with.
#[derive(Drop)]
struct Seats {
    entries: Entries<Entry>,
    marks: Marks,
    seat: Seat,
    session_starts: Vec<SessionStart>,
}

impl Seats {
    /// For so many sessions, at most 8. Refused Full, NoMemory.
    fn new(alloc: Global, sessions: usize) -> Result<Seats, Refusal>
        ensures raises { IfOk result (λ seats. seats.seat ≡ raiser seats.marks 0 0) }
        ensures reads { IfOk result (λ seats. AllByRecursion (ReadsMarks seats.marks) seats.session_starts.items) }
        ensures count { IfOk result (λ seats. length seats.session_starts.items ≡ sessions) }
        ensures within { IfOk result (λ seats. sessions ≤ 8) }
        ensures full { 8 < sessions → result ≡ Err Refusal.Full }
        ensures memory { sessions ≤ 8 → IfErr result (λ refusal. refusal ≡ Refusal.NoMemory) }
    {
        if sessions > MOST {
            return Err(Refusal::Full);
        }
        let entries = Entries::new(alloc)?;
        let (marks, seat, readers) = Marks::new(alloc, sessions)?;
        let session_starts = session_starts(alloc, &marks, readers)?;
        Ok(Seats {
            entries,
            marks,
            seat,
            session_starts,
        })
    }
}

/// A node at its start, no entries, marks that nobody has raised, and an agreement for the engine itself.
#[derive(Drop)]
pub(crate) struct Start<D: CrashLog, P: CrashPages> {
    pub(crate) alloc: Global,
    pub(crate) entries: Entries<Entry>,
    pub(crate) marks: Marks,
    pub(crate) seat: Seat,
    pub(crate) own: Ends,
    pub(crate) world: Box<World<D, P>>,
    pub(crate) defers: bool,
}

/// What an engine is made of. Contracts see what it is known by.
#[derive(Drop)]
pub struct Opened<D: CrashLog = MemLog, P: CrashPages = MemPages> {
    pub(crate) start: Box<Start<D, P>>,
    pub(crate) session_starts: Vec<SessionStart>,
}

impl<D: CrashLog, P: CrashPages> Model for Opened<D, P> {
    ghost use Rattle.std.specs.Coded.{codes};
    ghost use Rattle.atomic_table.specs.Seated.{table_id_coded};
    ghost use Rattle.boxcar.specs.Table.{shelves_coded};
    ghost use Rattle.record_key.specs.Table.{table_code};
    ghost use Rattle.engine_guarded.specs.dc_store.specs.SystemView.{pages_code};
    ghost use Rattle.engine_monitor.specs.Opened.{OpenedView, opened_as, IsOpenedWith};

    ghost Value = { OpenedView };

    ghost coded = { Prim.hlevel (codes, shelves_coded, table_id_coded, table_code, pages_code) };

    ghost view = { λ o. opened_as o.start.value.world.value o.start.value.entries o.start.value.marks o.start.value.own
        o.session_starts.items };

    ghost invariant = { λ o. IsOpenedWith o.start.value.marks o.start.value.seat o.session_starts.items
        o.start.value.world.value };
}

impl Opened<MemLog, MemPages> {
    /// For so many sessions, at most 8, over a new node with devices in memory. Refused Full, NoMemory.
    pub fn new(alloc: Global, sessions: usize) -> Result<Opened, Refusal>
        ensures start { IfOk result (λ opened. node_at opened.start ≡ fresh_node) }
        ensures count { IfOk result (λ opened. length opened.sessions ≡ sessions) }
        ensures within { IfOk result (λ opened. sessions ≤ 8) }
        ensures full { 8 < sessions → result ≡ Err Refusal.Full }
        ensures memory { sessions ≤ 8 → IfErr result (λ refusal. refusal ≡ Refusal.NoMemory) }
    {
        if sessions > MOST {
            return Err(Refusal::Full);
        }
        Opened::over(alloc, World::new(alloc)?, sessions, false)
    }
}

impl<D: CrashLog + Drop, P: CrashPages + Drop> Opened<D, P> {
    /// For so many sessions, at most 8, over a node, whose messages are let go. Where commits share forces, a commit gives
    /// the node back before its record is made stable, so that those that come meanwhile are made stable with it: for a log
    /// on a device that is slow. Refused Full, NoMemory.
    pub fn over(
        alloc: Global,
        world: World<D, P>,
        sessions: usize,
        shares_forces: bool,
    ) -> Result<Opened<D, P>, Refusal>
        ensures start { IfOk result (λ opened. node_at opened.start ≡ without_messages world) }
        ensures count { IfOk result (λ opened. length opened.sessions ≡ sessions) }
        ensures within { IfOk result (λ opened. sessions ≤ 8) }
        ensures full { 8 < sessions → result ≡ Err Refusal.Full }
        ensures memory { sessions ≤ 8 → IfErr result (λ refusal. refusal ≡ Refusal.NoMemory) }
    {
        match Seats::new(alloc, sessions) {
            Ok(seats) => Ok(Opened::of(alloc, world, seats, shares_forces)?),
            Err(refusal) => Err(refusal),
        }
    }

    // Over the node, with these seats.
    fn of(
        alloc: Global,
        world: World<D, P>,
        seats: Seats,
        defers: bool,
    ) -> Result<Opened<D, P>, AllocError>
        requires raises { seats.seat ≡ raiser seats.marks 0 0 }
        requires reads { AllByRecursion (ReadsMarks seats.marks) seats.session_starts.items }
        ensures start { IfOk result (λ opened. node_at opened.start ≡ without_messages world) }
        ensures count { IfOk result (λ opened. length opened.sessions ≡ length seats.session_starts.items) }
    {
        let mut world = Box::new(alloc, world)?;
        world.forget();
        let Seats {
            entries,
            marks,
            seat,
            session_starts,
        } = seats;
        let start = Start {
            alloc,
            entries,
            marks,
            seat,
            own: Ends::open(),
            world,
            defers,
        };
        Ok(Opened {
            start: Box::new(alloc, start)?,
            session_starts,
        })
    }
}

// What a session begins with, for each seat.
fn session_starts(
    alloc: Global,
    marks: &Marks,
    readers: Vec<Seat>,
) -> Result<Vec<SessionStart>, AllocError>
    requires { All (λ seat. seat ≡ reader marks.now 0 0) readers.items }
    ensures count { IfOk result (λ session_starts. length session_starts.items ≡ length readers.items) }
    ensures readers { IfOk result (λ session_starts. AllByRecursion (ReadsMarks marks.now) session_starts.items) }
{
    let _ = marks;
    let mut session_starts = Vec::with_capacity(alloc, readers.len())?;
    for seat in readers {
        session_starts.push(SessionStart {
            ends: Ends::open(),
            seat,
        })?;
    }
    Ok(session_starts)
}
