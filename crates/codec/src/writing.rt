//! The writers of a frame's parts, at the end of a vector that has room for them.
ghost use Rattle.codec.specs.Fields.{number, text, optional, op_bytes, answer_bytes};
ghost use Rattle.codec.specs.Writing.{HasRoom, Puts};
ghost use Rattle.record_key.specs.Lent.{answer_lent};
ghost use Rattle.std.specs.Option.{option_copied};
ghost use Rattle.std.specs.Prelude.{◌∷◌, [], ◌<◌, ◌++◌, length};

use byteorder::{BigEndian, ByteOrder};
use record_key::{Answer, AnswerRef, Key, Op, Value, ValueRef};

pub(crate) fn put_bytes(out: &mut Vec<u8>, bytes: &[u8])
    requires { HasRoom out.old bytes.now }
    ensures { Puts out.old out.new bytes.now }
{
    match out.extend_from_slice(bytes) {
        Ok(()) => {}
        Err(_) => unreachable!(),
    }
}

/// The same byte by byte, for the one or two of a head: a call that copies them costs more.
pub(crate) fn put_few(out: &mut Vec<u8>, bytes: &[u8])
    requires { HasRoom out.old bytes.now }
    ensures { Puts out.old out.new bytes.now }
{
    for byte in bytes {
        put_byte(out, *byte);
    }
}

/// A kind, a flag or a length.
pub(crate) fn put_byte(out: &mut Vec<u8>, byte: u8)
    requires { HasRoom out.old (byte ∷ []) }
    ensures { Puts out.old out.new (byte ∷ []) }
{
    out.push_reserved(byte);
}

/// Its eight bytes are copied at once: that is one store, where each byte by itself takes three instructions.
#[tactic(auto, unfolding(crate::specs::Fields::number))]
pub(crate) fn put_number(out: &mut Vec<u8>, n: u64)
    requires { HasRoom out.old (number n) }
    ensures { Puts out.old out.new (number n) }
{
    let mut bytes = [0; 8];
    BigEndian::write_u64(&mut bytes, n);
    put_bytes(out, &bytes);
}

/// A kind, then a number.
pub(crate) fn put_head(out: &mut Vec<u8>, kind: u8, n: u64)
    requires { HasRoom out.old (kind ∷ number n) }
    ensures { Puts out.old out.new (kind ∷ number n) }
{
    put_byte(out, kind);
    put_number(out, n);
}

/// A kind, then two numbers.
pub(crate) fn put_long_head(out: &mut Vec<u8>, kind: u8, n: u64, m: u64)
    requires { HasRoom out.old (kind ∷ number n ++ number m) }
    ensures { Puts out.old out.new (kind ∷ number n ++ number m) }
{
    put_head(out, kind, n);
    put_number(out, m);
}

/// A frame's length, a kind and a number. They are copied at once, from an array.
pub(crate) fn put_start(out: &mut Vec<u8>, length: usize, kind: u8, n: u64)
    requires { HasRoom out.old (number length ++ (kind ∷ number n)) }
    ensures { Puts out.old out.new (number length ++ (kind ∷ number n)) }
{
    let mut bytes = [0; 17];
    BigEndian::write_u64(&mut bytes, length as u64);
    bytes[8] = kind;
    BigEndian::write_u64(&mut bytes[9..], n);
    put_bytes(out, &bytes);
}

/// The same with two numbers.
pub(crate) fn put_long_start(out: &mut Vec<u8>, length: usize, kind: u8, n: u64, m: u64)
    requires { HasRoom out.old (number length ++ (kind ∷ number n ++ number m)) }
    ensures { Puts out.old out.new (number length ++ (kind ∷ number n ++ number m)) }
{
    let mut bytes = [0; 25];
    BigEndian::write_u64(&mut bytes, length as u64);
    bytes[8] = kind;
    BigEndian::write_u64(&mut bytes[9..], n);
    BigEndian::write_u64(&mut bytes[17..], m);
    put_bytes(out, &bytes);
}

/// The same with three numbers.
pub(crate) fn put_longer_start(out: &mut Vec<u8>, length: usize, kind: u8, n: u64, m: u64, k: u64)
    requires { HasRoom out.old (number length ++ (kind ∷ number n ++ (number m ++ number k))) }
    ensures { Puts out.old out.new (number length ++ (kind ∷ number n ++ (number m ++ number k))) }
{
    let mut bytes = [0; 33];
    BigEndian::write_u64(&mut bytes, length as u64);
    bytes[8] = kind;
    BigEndian::write_u64(&mut bytes[9..], n);
    BigEndian::write_u64(&mut bytes[17..], m);
    BigEndian::write_u64(&mut bytes[25..], k);
    put_bytes(out, &bytes);
}

/// The text of a key or a value, behind its length.
pub(crate) fn put_text(out: &mut Vec<u8>, bytes: &[u8])
    requires room { HasRoom out.old (text bytes.now) }
    requires short { length bytes.now < 256 }
    ensures { Puts out.old out.new (text bytes.now) }
{
    put_byte(out, bytes.len() as u8);
    put_bytes(out, bytes);
}

/// A key, then a value.
pub(crate) fn put_row(out: &mut Vec<u8>, key: &Key, value: &Value)
    requires { HasRoom out.old (text key.now ++ text value.now) }
    ensures { Puts out.old out.new (text key.now ++ text value.now) }
{
    put_text(out, key.as_bytes());
    put_text(out, value.as_bytes());
}

#[tactic(auto, unfolding(crate::specs::Fields::op_bytes))]
pub(crate) fn put_op(out: &mut Vec<u8>, op: &Op)
    requires { HasRoom out.old (op_bytes op.now) }
    ensures { Puts out.old out.new (op_bytes op.now) }
{
    match op {
        Op::Insert(key, value) => {
            put_byte(out, 1);
            put_row(out, key, value);
        }
        Op::Update(key, value) => {
            put_byte(out, 2);
            put_row(out, key, value);
        }
        Op::Upsert(key, value) => {
            put_byte(out, 3);
            put_row(out, key, value);
        }
        Op::Delete(key) => {
            put_byte(out, 4);
            put_text(out, key.as_bytes());
        }
        Op::Add(key, amount) => {
            put_byte(out, 5);
            put_text(out, key.as_bytes());
            put_number(out, *amount);
        }
    }
}

pub(crate) fn put_optional_key(out: &mut Vec<u8>, key: Option<&Key>)
    requires { HasRoom out.old (optional text (option_copied key)) }
    ensures { Puts out.old out.new (optional text (option_copied key.entry)) }
{
    match key {
        None => put_byte(out, 0),
        Some(key) => {
            put_byte(out, 1);
            put_text(out, key.as_bytes());
        }
    }
}

pub(crate) fn put_optional_op(out: &mut Vec<u8>, op: &Option<Op>)
    requires { HasRoom out.old (optional op_bytes op.now) }
    ensures { Puts out.old out.new (optional op_bytes op.now) }
{
    match op {
        None => put_byte(out, 0),
        Some(op) => {
            put_byte(out, 1);
            put_op(out, op);
        }
    }
}

#[tactic(auto, unfolding(crate::specs::Fields::answer_bytes))]
pub(crate) fn put_answer(out: &mut Vec<u8>, answer: &AnswerRef<'_>)
    requires { HasRoom out.old (answer_bytes (answer_lent answer.now)) }
    ensures { Puts out.old out.new (answer_bytes (answer_lent answer.now)) }
{
    match answer {
        AnswerRef::Inserted => put_byte(out, 1),
        AnswerRef::Updated(value) => {
            put_byte(out, 2);
            put_text(out, value.as_bytes());
        }
        AnswerRef::Was(None) => put_byte(out, 3),
        AnswerRef::Was(Some(value)) => {
            put_byte(out, 4);
            put_text(out, value.as_bytes());
        }
        AnswerRef::Deleted(value) => {
            put_byte(out, 5);
            put_text(out, value.as_bytes());
        }
        AnswerRef::Exists => put_byte(out, 6),
        AnswerRef::NoRecord => put_byte(out, 7),
        AnswerRef::NotNumber => put_byte(out, 8),
        AnswerRef::Added(amount) => put_head(out, 9, *amount),
    }
}

pub(crate) fn put_optional_value(out: &mut Vec<u8>, value: Option<&ValueRef<'_>>)
    requires { HasRoom out.old (optional text (option_copied value)) }
    ensures { Puts out.old out.new (optional text (option_copied value.entry)) }
{
    match value {
        None => put_byte(out, 0),
        Some(value) => {
            put_byte(out, 1);
            put_text(out, value.as_bytes());
        }
    }
}

pub(crate) fn put_optional_answer(out: &mut Vec<u8>, answer: &Option<Answer>)
    requires { HasRoom out.old (optional answer_bytes answer.now) }
    ensures { Puts out.old out.new (optional answer_bytes answer.now) }
{
    match answer {
        None => put_byte(out, 0),
        Some(answer) => {
            put_byte(out, 1);
            put_answer(out, &answer.lent());
        }
    }
}
