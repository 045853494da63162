//! Batches, which the engine under one lock has alone: each is answered as a whole, and leaves nothing where it is refused.
ghost use Rattle.engine_monitor.specs.Opened.{IsNamed};

use engine_monitor::{BatchRefused, Engine, Naming, Opened, RefusedAct, Session};
use record_key::{Answer, Key, Op, Refusal, Value};
use std::alloc::Global;
use std::marker::Brand;
use std::sync::Wait;
use test_pool_cases::{Verdict, both};

/// Whether the batches of one session are answered so beside another's transaction.
pub fn run_batches<R: Wait>(rt: &R, alloc: Global) -> Verdict {
    let opened = Opened::new(alloc, 2)?;
    batch_opened::<Brand, R>(rt, alloc, opened)
}

// The same with what an engine is made of.
fn batch_opened<J, R>(rt: &R, alloc: Global, opened: Opened) -> Verdict
where
    J: Naming + Drop,
    R: Wait,
    requires named { IsNamed opened J.start J.entries J.marks J.names J.sessions }
{
    let (engine, mut sessions) = Engine::<J>::new(rt, opened)?;
    let agrees = match sessions.as_mut_slice().split_first_mut() {
        Some((one, others)) => batch_beside(rt, alloc, one, others),
        None => Ok(false),
    };
    engine.close(rt, sessions)?;
    agrees
}

fn batch_beside<J: Naming, R: Wait>(
    rt: &R,
    alloc: Global,
    one: &mut Session<J>,
    others: &mut [Session<J>],
) -> Verdict {
    let Some(other) = others.first_mut() else {
        return Ok(false);
    };
    both(
        is_answered(rt, alloc, one),
        both(
            is_refused(rt, alloc, one, other),
            both(is_second(rt, alloc, one), has_two(rt, one)),
        ),
    )
}

fn insert(key: &[u8]) -> Result<Op, Refusal> {
    Ok(Op::Insert(Key::new(key)?, Value::new(b"1")?))
}

// Each operation is answered, also one that does nothing.
fn is_answered<J: Naming, R: Wait>(rt: &R, alloc: Global, one: &mut Session<J>) -> Verdict {
    let ops = [insert(b"a")?, insert(b"b")?, insert(b"a")?];
    match one.batch(rt, alloc, ops.as_slice()) {
        Ok(answers) => {
            let told = [Answer::Inserted, Answer::Inserted, Answer::Exists];
            Ok(answers.as_slice() == told.as_slice())
        }
        Err(BatchRefused::Begin(refusal) | BatchRefused::Commit(refusal)) => Err(refusal),
        Err(BatchRefused::Act(act)) => Err(act.refusal),
    }
}

// The third operation is on a key that another's transaction has locked.
fn is_refused<J: Naming, R: Wait>(
    rt: &R,
    alloc: Global,
    one: &mut Session<J>,
    other: &mut Session<J>,
) -> Verdict {
    let txn = other.begin(rt)?;
    other.act(rt, &insert(b"e")?)?;
    let ops = [insert(b"c")?, insert(b"d")?, insert(b"e")?, insert(b"f")?];
    let refused = one.batch(rt, alloc, ops.as_slice());
    other.rollback(rt)?;
    let busy = RefusedAct {
        index: 2,
        refusal: Refusal::Busy(txn),
        rollback: None,
    };
    match refused {
        Err(BatchRefused::Act(act)) => Ok(act == busy),
        Err(BatchRefused::Begin(refusal)) => Err(refusal),
        _ => Ok(false),
    }
}

// A session has one transaction at a time.
fn is_second<J: Naming, R: Wait>(rt: &R, alloc: Global, one: &mut Session<J>) -> Verdict {
    one.begin(rt)?;
    let refused = one.batch(rt, alloc, &[]);
    one.rollback(rt)?;
    match refused {
        Err(BatchRefused::Begin(refusal)) => Ok(refusal == Refusal::Full),
        _ => Ok(false),
    }
}

// What the first batch did is there, and nothing else.
fn has_two<J: Naming, R: Wait>(rt: &R, one: &mut Session<J>) -> Verdict {
    one.begin(rt)?;
    let rows = one.scan(rt, &Key::new(b"a")?, &None)?;
    one.commit(rt)?;
    Ok(rows.len() == 2)
}
