//! The records of a leaf, in key order: where a key stands, and what an operation does there.
ghost use Rattle.std.specs.Prelude.{◌≡◌, ◌<◌, ◌≤◌, ◌+◌, ◌++◌, [], not, length, get_or, filter, OnOk, OnErr, IfOk, IfErr};
ghost use Rattle.std.specs.FinMap.{get};
ghost use Rattle.record_key.specs.Table.{answer_at as answer_to};
ghost use Rattle.record_key.specs.Lent.{op_lent, answer_lent};
ghost use Rattle.record_key.specs.Amounts.{summed};
ghost use Rattle.record_key.specs.Order.{is_below};
ghost use Rattle.record_key.specs.Rows.{IsPlaceOf, AreInOrder, table_of};
ghost use Rattle.dc_leaf.specs.Places.{IsStartFor, room_for, rows_after, rows_with_sum};

use codec::{LentRows, RowBuffer};
use record_key::{AnswerRef, Change, Key, OpRef, Refusal, Value, ValueRef};

/// The value at a key whose place is known.
pub fn value_at<'a>(
    rows: &LentRows<'a>,
    key: &Key,
    place: Result<usize, usize>,
) -> Option<ValueRef<'a>>
    requires ordered { AreInOrder rows.now }
    requires place { IsPlaceOf key.now rows.now place }
    requires within { IfOk place (λ at. at < length rows.now) }
    ensures { result ≡ get (table_of rows.now) key.now }
{
    match place {
        Ok(at) => Some(rows.value(at)),
        Err(_) => None,
    }
}

/// What the operation is answered, where this is the value at its key.
pub fn answer_at<'a>(op: &OpRef<'_>, old: Option<ValueRef<'a>>) -> AnswerRef<'a>
    ensures { answer_lent result ≡ answer_to (op_lent op.now) old.entry }
{
    match (&op.change, old) {
        (Change::Insert(_), None) => AnswerRef::Inserted,
        (Change::Insert(_), Some(_)) => AnswerRef::Exists,
        (Change::Update(_), Some(old)) => AnswerRef::Updated(old),
        (Change::Upsert(_), Some(old)) => AnswerRef::Was(Some(old)),
        (Change::Upsert(_), None) => AnswerRef::Was(None),
        (Change::Delete, Some(old)) => AnswerRef::Deleted(old),
        (Change::Add(amount), Some(old)) => match old.owned().plus(*amount) {
            Some(_) => AnswerRef::Added(*amount),
            None => AnswerRef::NotNumber,
        },
        (Change::Update(_), None) => AnswerRef::NoRecord,
        (Change::Delete, None) => AnswerRef::NoRecord,
        (Change::Add(_), None) => AnswerRef::NoRecord,
    }
}

/// The rows whose keys are at or above this one.
pub fn rows_from<'a>(rows: &LentRows<'a>, key: &Key) -> LentRows<'a>
    requires { AreInOrder rows.now }
    ensures rows { result ≡ filter (λ row. not (is_below row.0 key.now)) rows.now }
    ensures ordered { AreInOrder result }
{
    rows.from(start_of(rows, key))
}

/// The rows whose keys are below this one.
pub fn rows_below<'a>(rows: &LentRows<'a>, key: &Key) -> LentRows<'a>
    requires { AreInOrder rows.now }
    ensures { result ≡ filter (λ row. is_below row.0 key.now) rows.now }
{
    let under = rows.before(start_of(rows, key));
    under
}

/// Drops the rows whose keys are at or above this one. Takes no memory.
pub fn drop_rows_from(rows: &mut RowBuffer, key: &Key)
    requires { AreInOrder rows.old.rows }
    ensures { rows.new.rows ≡ filter (λ row. is_below row.0 key.now) rows.old.rows }
{
    let start = start_of(&rows.lent(), key);
    rows.truncate(start);
}

/// Puts copies of the rows at the end. Refused NoMemory, and unchanged then.
pub fn add_rows(rows: &mut Vec<(Key, Value)>, more: &LentRows<'_>) -> Result<(), Refusal>
    ensures added { OnOk result (rows.new.items ≡ rows.old.items ++ more.now) }
    ensures unchanged { OnErr result (rows.new.items ≡ rows.old.items) }
    ensures refused { IfErr result (λ refusal. refusal ≡ Refusal.NoMemory) }
{
    rows.reserve(more.len())?;
    let mut rest = more.again();
    while let Some(row) = rest.next() {
        rows.push_reserved(row);
    }
    Ok(())
}

/// How many rows have keys below this one.
fn start_of(rows: &LentRows<'_>, key: &Key) -> usize
    requires { AreInOrder rows.now }
    ensures start { IsStartFor key.now rows.now result }
    ensures within { result ≤ length rows.now }
{
    match rows.place_of(key) {
        Ok(at) => at,
        Err(gap) => gap,
    }
}

/// How many bytes the operation may add.
pub fn room_for(op: &OpRef<'_>) -> usize
    ensures { result ≡ room_for (op_lent op.now) }
{
    match &op.change {
        Change::Insert(value) | Change::Update(value) | Change::Upsert(value) => {
            2 + op.key.as_bytes().len() + value.as_bytes().len()
        }
        Change::Delete => 0,
        Change::Add(_) => 2 + op.key.as_bytes().len() + 8,
    }
}

/// Does the operation, where its key's place is known and there is room. Takes no memory.
pub fn write_at(rows: &mut RowBuffer, op: &OpRef<'_>, place: Result<usize, usize>)
    requires within { IfOk place (λ at. at < length rows.old.rows) }
    requires bounded { IfErr place (λ gap. gap ≤ length rows.old.rows) }
    requires room { room_for (op_lent op.now) ≤ rows.old.room }
    ensures { rows.new.rows ≡ rows_after (op_lent op.now) place rows.old.rows }
{
    match (&op.change, place) {
        (Change::Insert(value), Err(gap)) => rows.insert(gap, op.key, value),
        (Change::Insert(_), Ok(_)) => {}
        (Change::Update(value), Ok(at)) => rows.set(at, op.key, value),
        (Change::Update(_), Err(_)) => {}
        (Change::Upsert(value), Ok(at)) => rows.set(at, op.key, value),
        (Change::Upsert(value), Err(gap)) => rows.insert(gap, op.key, value),
        (Change::Delete, Ok(at)) => rows.remove(at),
        (Change::Delete, Err(_)) => {}
        (Change::Add(amount), Ok(at)) => put_sum(rows, at, op.key, *amount),
        (Change::Add(_), Err(_)) => {}
    }
}

/// Adds to the number at a place, where one is there.
fn put_sum(rows: &mut RowBuffer, at: usize, key: &Key, amount: u64)
    requires place { at < length rows.old.rows }
    requires room { 10 + length key.now ≤ rows.old.room }
    ensures { rows.new.rows
        ≡ rows_with_sum rows.old.rows at key.now (summed (get_or rows.old.rows at ([], [])).1 amount) }
{
    if let Some(sum) = rows.lent().value(at).owned().plus(amount) {
        rows.set(at, key, &sum.lent());
    }
}
