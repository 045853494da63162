//! A list of events at once, beside the same events one by one; and each event again where memory is refused.
use crate::calls::{new_world, step};
use crate::flaw::{Flaw, check};
use node_laws::{Event, Out};
use node_world::{World, drive};
use record_key::{Answer, Key, Op, Refusal, Value};
use std::alloc::Global;

/// An event that sends the request of this number, the request's delivery, and that of its reply.
fn exchange(events: &mut Vec<Event>, event: Event, number: u64) -> Result<(), Flaw> {
    events.push(event)?;
    events.push(Event::Request { number })?;
    events.push(Event::Reply { number })?;
    Ok(())
}

fn insert(txn: u64) -> Result<Event, Refusal> {
    let op = Op::Insert(Key::new(b"k")?, Value::new(b"v")?);
    Ok(Event::Act { txn, op })
}

/// The node connects and its redo ends, which takes two exchanges.
fn connect(events: &mut Vec<Event>) -> Result<(), Flaw> {
    exchange(events, Event::Reconnect, 1)?;
    exchange(events, Event::Recover, 2)
}

/// An insert is sent once and reaches the data component three times; of its replies the last arrives before the first.
fn insert_thrice(events: &mut Vec<Event>) -> Result<(), Flaw> {
    events.push(Event::Begin)?;
    events.push(insert(2)?)?;
    events.push(Event::Force)?;
    events.push(Event::Send { txn: 2 })?;
    for _ in 0..3 {
        events.push(Event::Request { number: 3 })?;
    }
    events.push(Event::Reply { number: 5 })?;
    events.push(Event::Reply { number: 3 })?;
    Ok(())
}

fn late_messages(alloc: Global) -> Result<Vec<Event>, Flaw> {
    let mut events = Vec::new(alloc);
    connect(&mut events)?;
    insert_thrice(&mut events)?;
    Ok(events)
}

/// What the insert comes to is told once.
fn is_told(outs: &[Out]) -> bool {
    let txn = 2;
    let answer = Answer::Inserted;
    outs.contains(&Out::Begun(2))
        && outs.contains(&Out::Logged(3))
        && outs.contains(&Out::Replied(5))
        && outs.ends_with(&[Out::Answered { txn, answer }, Out::Nothing])
}

fn driven(alloc: Global, world: &mut World, events: &[Event]) -> Result<Vec<Out>, Refusal> {
    drive(alloc, world, events)
}

/// Each event by itself has the same output.
fn check_same(other: &mut World, events: &[Event], outs: &[Out]) -> Result<(), Flaw> {
    check(
        outs.len() == events.len(),
        "there are as many outputs as events",
    )?;
    for (event, out) in events.iter().zip(outs) {
        let is_same = step(other, event) == *out;
        check(is_same, "an event by itself comes to something else")?;
    }
    Ok(())
}

fn driven_beside(
    alloc: Global,
    world: &mut World,
    other: &mut World,
    events: &[Event],
) -> Result<(), Flaw> {
    let outs = driven(alloc, world, events)?;
    check_same(other, events, &outs)?;
    check(is_told(&outs), "the insert isn't told")
}

/// The other node does the events one by one.
fn beside_another(alloc: Global, world: &mut World) -> Result<(), Flaw> {
    let events = late_messages(alloc)?;
    let mut other = new_world(alloc)?;
    driven_beside(alloc, world, &mut other, &events)
}

/// A list of events at once.
pub fn at_once(alloc: Global) -> Result<(), Flaw> {
    let mut world = new_world(alloc)?;
    beside_another(alloc, &mut world)
}

/// The event once more where memory is refused: nothing has changed then.
pub fn step_again(world: &mut World, event: &Event) -> Out {
    match step(world, event) {
        Out::Refused(Refusal::NoMemory) => step(world, event),
        out => out,
    }
}

fn check_alike(world: &mut World, other: &mut World, events: &[Event]) -> Result<(), Flaw> {
    for event in events {
        let is_same = step_again(world, event) == step_again(other, event);
        check(
            is_same,
            "an event that is given again comes to something else",
        )?;
    }
    Ok(())
}

fn alike_beside(alloc: Global, world: &mut World) -> Result<(), Flaw> {
    let events = late_messages(alloc)?;
    let mut other = new_world(alloc)?;
    check_alike(world, &mut other, &events)
}

/// Two nodes answer alike. One growth may be refused in the run of the program.
pub fn again(alloc: Global) -> Result<(), Flaw> {
    let mut world = new_world(alloc)?;
    alike_beside(alloc, &mut world)
}
