//! What an engine is made of before it has a name.
ghost use Rattle.std.specs.Prelude.{◌≡◌, ◌<◌, ◌≤◌, [], All, length, map, vec_len, Err, IfOk, IfErr};
ghost use Rattle.std.specs.List.{AllByRecursion};
ghost use Rattle.engine_marks.specs.Seen.{raiser, reader};
ghost use Rattle.node_world.specs.node_laws.specs.Forgetting.{without_messages};
ghost use Rattle.node_world.specs.node_laws.specs.Node.{fresh_node};
ghost use Rattle.engine_sessions.specs.engine_history.specs.Steps.{node_at};
ghost use Rattle.engine_workers.specs.Opened.{ReadsMarks};

use boxcar::Vec as Entries;
use engine_agreement::{FarEnd, Mark};
use engine_marks::{Marks, Seat};
use engine_sessions::engine_history::Entry;
use node_world::World;
use node_world::node_sides::{DcSide, TcSide};
use record_key::Refusal;
use stable::{CrashLog, CrashPages, MemLog, MemPages};
use std::alloc::{AllocError, Global};
use std::marker::Model;

/// The most sessions that an engine has.
const MOST: usize = 8;

/// Both ends of an agreement. Contracts see its name.
#[derive(Drop)]
pub(crate) struct Ends {
    far_end: FarEnd,
    mark: Mark,
}

impl Model for Ends {
    ghost use Rattle.std.specs.Prelude.{◌≡◌, ℕ};

    ghost Value = { ℕ };

    ghost view = { λ e. e.far_end.name };

    ghost invariant = { λ e. (e.far_end.number ≡ 0) × (e.mark ≡ e.far_end) };
}

impl Ends {
    fn open() -> Ends {
        let (far_end, mark) = FarEnd::open();
        Ends { far_end, mark }
    }

    /// The two ends.
    pub(crate) fn parted(self) -> (FarEnd, Mark)
        ensures name { result.0.name ≡ self }
        ensures start { result.0.number ≡ 0 }
        ensures mark { result.1 ≡ result.0 }
    {
        let Ends { far_end, mark } = self;
        (far_end, mark)
    }
}

/// What a session is made of: its agreement, and its seat at the marks.
#[derive(Drop)]
pub(crate) struct SessionStart {
    pub(crate) ends: Ends,
    pub(crate) seat: Seat,
}

/// No entries, marks that nobody has raised, and what each session begins with.
#[derive(Drop)]
struct Seats {
    entries: Entries<Entry>,
    marks: Marks,
    seat: Seat,
    session_starts: Vec<SessionStart>,
}

impl Seats {
    /// For so many sessions, at most 8. Refused Full, NoMemory.
    fn new(alloc: Global, sessions: usize) -> Result<Seats, Refusal>
        ensures raises { IfOk result (λ seats. seats.seat ≡ raiser seats.marks 0 0) }
        ensures reads { IfOk result (λ seats. AllByRecursion (ReadsMarks seats.marks) seats.session_starts.items) }
        ensures count { IfOk result (λ seats. length seats.session_starts.items ≡ sessions) }
        ensures within { IfOk result (λ seats. sessions ≤ 8) }
        ensures full { 8 < sessions → result ≡ Err Refusal.Full }
        ensures memory { sessions ≤ 8 → IfErr result (λ refusal. refusal ≡ Refusal.NoMemory) }
    {
        if sessions > MOST {
            return Err(Refusal::Full);
        }
        let entries = Entries::new(alloc)?;
        let (marks, seat, readers) = Marks::new(alloc, sessions)?;
        let session_starts = session_starts(alloc, &marks, readers)?;
        Ok(Seats {
            entries,
            marks,
            seat,
            session_starts,
        })
    }
}

/// Both components at their start, no entries, marks that nobody has raised, and an agreement for each component and
/// for the engine itself.
#[derive(Drop)]
pub(crate) struct Start<D: CrashLog, P: CrashPages> {
    pub(crate) alloc: Global,
    pub(crate) entries: Entries<Entry>,
    pub(crate) marks: Marks,
    pub(crate) seat: Seat,
    pub(crate) tc: Ends,
    pub(crate) dc: Ends,
    pub(crate) own: Ends,
    pub(crate) transactions: TcSide<D>,
    pub(crate) data: DcSide<D, P>,
}

/// What an engine is made of. Contracts see what it is known by. The components stand behind a pointer, since whoever has
/// something large by value is dear to check; and what the sessions begin with beside it, since each of that is taken
/// apart before those are.
#[derive(Drop)]
pub struct Opened<D: CrashLog = MemLog, P: CrashPages = MemPages> {
    pub(crate) start: Box<Start<D, P>>,
    pub(crate) session_starts: Vec<SessionStart>,
}

impl<D: CrashLog, P: CrashPages> Model for Opened<D, P> {
    ghost use Rattle.std.specs.Coded.{codes};
    ghost use Rattle.atomic_table.specs.Seated.{table_id_coded};
    ghost use Rattle.boxcar.specs.Table.{shelves_coded};
    ghost use Rattle.record_key.specs.Table.{table_code};
    ghost use Rattle.node_world.specs.dc_store.specs.SystemView.{pages_code};
    ghost use Rattle.engine_workers.specs.Opened.{OpenedView, opened_as, IsOpenedWith};

    ghost Value = { OpenedView };

    ghost coded = { Prim.hlevel (codes, shelves_coded, table_id_coded, table_code, pages_code) };

    ghost view = { λ o. opened_as (record { tc = o.start.value.transactions; dc = o.start.value.data })
        o.start.value.entries o.start.value.marks o.start.value.tc o.start.value.dc o.start.value.own o.session_starts.items };

    ghost invariant = { λ o. IsOpenedWith o.start.value.marks o.start.value.seat o.session_starts.items
        (record { tc = o.start.value.transactions; dc = o.start.value.data }) };
}

impl Opened<MemLog, MemPages> {
    /// For so many sessions, at most 8, over a new node with devices in memory. Refused Full, NoMemory.
    pub fn new(alloc: Global, sessions: usize) -> Result<Opened, Refusal>
        ensures start { IfOk result (λ opened. node_at opened.start ≡ fresh_node) }
        ensures count { IfOk result (λ opened. length opened.sessions ≡ sessions) }
        ensures within { IfOk result (λ opened. sessions ≤ 8) }
        ensures full { 8 < sessions → result ≡ Err Refusal.Full }
        ensures memory { sessions ≤ 8 → IfErr result (λ refusal. refusal ≡ Refusal.NoMemory) }
    {
        if sessions > MOST {
            return Err(Refusal::Full);
        }
        Opened::over(alloc, World::new(alloc)?, sessions)
    }
}

impl<D: CrashLog + Drop, P: CrashPages + Drop> Opened<D, P> {
    /// For so many sessions, at most 8, over a node, whose messages are let go. Refused Full, NoMemory.
    pub fn over(alloc: Global, world: World<D, P>, sessions: usize) -> Result<Opened<D, P>, Refusal>
        ensures start { IfOk result (λ opened. node_at opened.start ≡ without_messages world) }
        ensures count { IfOk result (λ opened. length opened.sessions ≡ sessions) }
        ensures within { IfOk result (λ opened. sessions ≤ 8) }
        ensures full { 8 < sessions → result ≡ Err Refusal.Full }
        ensures memory { sessions ≤ 8 → IfErr result (λ refusal. refusal ≡ Refusal.NoMemory) }
    {
        // (each way out on which a node is dropped is dear to check)
        match Seats::new(alloc, sessions) {
            Ok(seats) => Ok(Opened::of(alloc, world, seats)?),
            Err(refusal) => Err(refusal),
        }
    }

    /// Over the node, with these seats.
    fn of(alloc: Global, world: World<D, P>, seats: Seats) -> Result<Opened<D, P>, AllocError>
        requires raises { seats.seat ≡ raiser seats.marks 0 0 }
        requires reads { AllByRecursion (ReadsMarks seats.marks) seats.session_starts.items }
        ensures start { IfOk result (λ opened. node_at opened.start ≡ without_messages world) }
        ensures count { IfOk result (λ opened. length opened.sessions ≡ length seats.session_starts.items) }
    {
        let (transactions, data) = world.parted();
        let Seats {
            entries,
            marks,
            seat,
            session_starts,
        } = seats;
        let start = Start {
            alloc,
            entries,
            marks,
            seat,
            tc: Ends::open(),
            dc: Ends::open(),
            own: Ends::open(),
            transactions,
            data,
        };
        Ok(Opened {
            start: Box::new(alloc, start)?,
            session_starts,
        })
    }
}

// What a session begins with, for each seat.
fn session_starts(
    alloc: Global,
    marks: &Marks,
    readers: Vec<Seat>,
) -> Result<Vec<SessionStart>, AllocError>
    requires { All (λ seat. seat ≡ reader marks.now 0 0) readers.items }
    ensures count { IfOk result (λ session_starts. length session_starts.items ≡ length readers.items) }
    ensures readers { IfOk result (λ session_starts. AllByRecursion (ReadsMarks marks.now) session_starts.items) }
{
    let _ = marks;
    let mut session_starts = Vec::with_capacity(alloc, readers.len())?;
    for seat in readers {
        session_starts.push(SessionStart {
            ends: Ends::open(),
            seat,
        })?;
    }
    Ok(session_starts)
}
