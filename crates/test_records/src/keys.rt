//! Keys and values by their lengths and their order, refusals by number and name, and inverses.
use inverse::inverse;
use record_key::{Answer, Key, Op, Refusal, order_of_texts};
use std::alloc::Global;
use std::cmp::Ordering;
use std::fmt::Write;
use test_lines::{OUTSIDE, Subject, Words, put_answer, put_inverse, put_op, put_text};

/// Calls that leave nothing behind.
#[derive(Drop)]
pub struct Keys {
    pub alloc: Global,
}

impl Subject for Keys {
    fn call(&mut self, call: &str, answer: &mut String) -> Result<(), Refusal> {
        let mut words = Words::new(self.alloc, call);
        match words.word() {
            "key" => read_key(&mut words, answer),
            "value" => read_value(&mut words, answer),
            "order" => compare_keys(&mut words, answer),
            "pairs" => compare_pairs(self.alloc, &mut words, answer),
            "inverse" => invert(&mut words, answer),
            "copy" => copy(&mut words, answer),
            "copyop" => copy_op(&mut words, answer),
            "refusals" => put_names(answer),
            _ => Err(OUTSIDE),
        }
    }
}

fn read_key(words: &mut Words<'_>, answer: &mut String) -> Result<(), Refusal> {
    let key = words.key()?;
    put_text(answer, key.as_bytes())
}

fn read_value(words: &mut Words<'_>, answer: &mut String) -> Result<(), Refusal> {
    let value = words.value()?;
    put_text(answer, value.as_bytes())
}

fn copy(words: &mut Words<'_>, answer: &mut String) -> Result<(), Refusal> {
    let given = words.answer()?;
    put_copy(&given, answer)
}

fn put_copy(given: &Answer, answer: &mut String) -> Result<(), Refusal> {
    put_answer(answer, &given.copied())
}

fn copy_op(words: &mut Words<'_>, answer: &mut String) -> Result<(), Refusal> {
    let op = words.op()?;
    put_op_copy(&op, answer)
}

fn put_op_copy(op: &Op, answer: &mut String) -> Result<(), Refusal> {
    put_op(answer, &op.copied())
}

fn compare_keys(words: &mut Words<'_>, answer: &mut String) -> Result<(), Refusal> {
    let key = words.key()?;
    compare_with(&key, words, answer)
}

fn compare_with(key: &Key, words: &mut Words<'_>, answer: &mut String) -> Result<(), Refusal> {
    let other = words.key()?;
    let name = match key.cmp(&other) {
        Ordering::Less => "less",
        Ordering::Equal => "equal",
        Ordering::Greater => "greater",
    };
    Ok(answer.push_str(name)?)
}

/// What undoes an operation, behind which its answer stands.
fn invert(words: &mut Words<'_>, answer: &mut String) -> Result<(), Refusal> {
    let op = words.op()?;
    invert_with(&op, words, answer)
}

fn invert_with(op: &Op, words: &mut Words<'_>, answer: &mut String) -> Result<(), Refusal> {
    if words.word() != "answered" {
        return Err(OUTSIDE);
    }
    let given = words.answer()?;
    put_undo(op, &given, answer)
}

fn put_undo(op: &Op, given: &Answer, answer: &mut String) -> Result<(), Refusal> {
    put_inverse(answer, &inverse(op, given))
}

/// How many pairs of keys stand in the order of their bytes.
fn compare_pairs(alloc: Global, words: &mut Words<'_>, answer: &mut String) -> Result<(), Refusal> {
    let mut keys = Vec::new(alloc);
    for _ in 0..64 {
        if words.is_empty() {
            break;
        }
        keys.push(words.key()?)?;
    }
    write!(answer, "{}", count_pairs(&keys))?;
    Ok(())
}

fn count_pairs(keys: &[Key]) -> u64 {
    let mut count: u64 = 0;
    for one in keys {
        for other in keys {
            if is_in_order(one, other) {
                count = count.saturating_add(1);
            }
        }
    }
    count
}

/// Two keys are compared as their bytes are.
fn is_in_order(one: &Key, other: &Key) -> bool {
    let order = one.as_bytes().cmp(other.as_bytes());
    one.cmp(other) == order
        && one.partial_cmp(other) == Some(order)
        && order_of_texts(one.as_bytes(), other.as_bytes()) == order
        && (one == other) == (one.as_bytes() == other.as_bytes())
}

const REFUSALS: [Refusal; 20] = [
    Refusal::NoMemory,
    Refusal::Busy(7),
    Refusal::NotOpen,
    Refusal::Unanswered,
    Refusal::RollingBack,
    Refusal::Redoing,
    Refusal::BadSavepoint,
    Refusal::Stale,
    Refusal::NotConnected,
    Refusal::Device,
    Refusal::EmptyKey,
    Refusal::TooLong,
    Refusal::BadRange,
    Refusal::Full,
    Refusal::BeyondStable,
    Refusal::Unsent,
    Refusal::BadScript(2),
    Refusal::NotNow,
    Refusal::BadBytes(2),
    Refusal::NumbersSpent,
];

/// Each refusal's number and name.
fn put_names(answer: &mut String) -> Result<(), Refusal> {
    for refusal in &REFUSALS {
        let (number, name) = (refusal.number(), refusal.name());
        write!(answer, "{number} {name} ")?;
    }
    Ok(())
}
