//! A node alone: a client begins, writes, goes back to a savepoint, commits and reads, without the shell.
//!
//! Each call is an event of the node. What it comes to later (an answer, the end of a rollback, a commit) is told by
//! `settle`, which exchanges messages and forces the log until nothing is left to do. A program with messages of its
//! own would give the events `Send`, `Request` and `Reply` itself.
use node_world::{Event, Out, World, settle};
use record_key::{Key, Op, Refusal, Value};

/// A client's two transactions.
pub fn run(rt: &HostRuntime) -> Result<(), Refusal> {
    let mut world = World::new(rt.alloc())?;
    work(rt, &mut world)
}

/// Two transactions, one after the other. The node is lent: who owns it has one place where it goes.
fn work(rt: &HostRuntime, world: &mut World) -> Result<(), Refusal> {
    settled(rt, world)?;
    let txn = begun(rt, world)?;
    write_and_go_back(rt, world, txn)?;
    call(rt, world, &Event::Commit { txn })?;
    let txn = begun(rt, world)?;
    let key = key()?;
    call(rt, world, &Event::Get { txn, key })?;
    call(rt, world, &Event::Commit { txn })?;
    Ok(())
}

/// The number of a new transaction.
fn begun(rt: &HostRuntime, world: &mut World) -> Result<u64, Refusal> {
    match call(rt, world, &Event::Begin)? {
        Out::Begun(txn) => Ok(txn),
        _ => Err(Refusal::NotOpen),
    }
}

/// The first value stays; the second is undone by going back to the savepoint between them.
fn write_and_go_back(rt: &HostRuntime, world: &mut World, txn: u64) -> Result<(), Refusal> {
    let op = Op::Insert(key()?, Value::new(b"ten")?);
    call(rt, world, &Event::Act { txn, op })?;
    call(rt, world, &Event::Save { txn })?;
    let op = Op::Update(key()?, Value::new(b"twenty")?);
    call(rt, world, &Event::Act { txn, op })?;
    let savepoint = 1;
    call(rt, world, &Event::GoBack { txn, savepoint })?;
    Ok(())
}

fn key() -> Result<Key, Refusal> {
    Key::new(b"apples")
}

/// One call of the client, and all that it comes to.
fn call(rt: &HostRuntime, world: &mut World, event: &Event) -> Result<Out, Refusal> {
    let out = world.step(event);
    print(rt, "call", &out);
    if let Out::Refused(refusal) = out {
        return Err(refusal);
    }
    settled(rt, world)?;
    Ok(out)
}

/// Plays rounds until none is left, and prints what clients are told. Then no message is on its way, and all are let go.
fn settled(rt: &HostRuntime, world: &mut World) -> Result<(), Refusal> {
    let mut outs = Vec::new(rt.alloc());
    settle(world, None, &mut outs)?;
    world.forget();
    for out in &outs {
        if is_told(out) {
            print(rt, "  told", out);
        }
    }
    Ok(())
}

fn is_told(out: &Out) -> bool {
    match out {
        Out::Answered { .. }
        | Out::Row { .. }
        | Out::Rows { .. }
        | Out::Back { .. }
        | Out::RolledBack(_)
        | Out::Lost(_) => true,
        Out::Stable { committed, .. } => !committed.as_slice().is_empty(),
        _ => false,
    }
}

fn print(rt: &HostRuntime, what: &str, out: &Out) {
    // (a reader that is gone is no fault of the node)
    let _ = println!(rt; "{what} {out:?}");
}
