//! What C is given of keys, values and names: bytes of a fixed room, each with how many of them there are.
ghost use Rattle.std.specs.Option.{option_copied};
ghost use Rattle.jakumshe.specs.Records.{HoldsKey, HoldsValue, HoldsRow};

use log_blocks::HEAD_LEN;
use record_key::{Key, Value};

const NAME_ROOM: usize = 16;

/// A value.
#[repr(C)]
#[derive(Drop)]
pub struct ValueBytes {
    length: u8,
    bytes: [u8; Value::MAX_LEN],
}

impl ValueBytes {
    pub(crate) fn put(&mut self, value: &Value)
        ensures { HoldsValue self.new value.now }
    {
        let bytes = value.as_bytes();
        self.length = bytes.len() as u8;
        self.bytes[..bytes.len()].copy_from_slice(bytes);
    }
}

/// A key, or none where its length is 0.
#[repr(C)]
#[derive(Drop)]
pub struct KeyBytes {
    length: u8,
    bytes: [u8; Key::MAX_LEN],
}

impl KeyBytes {
    pub(crate) fn put(&mut self, key: Option<&Key>)
        ensures { HoldsKey self.new (option_copied key.entry) }
    {
        let Some(key) = key else {
            self.length = 0;
            return;
        };
        let bytes = key.as_bytes();
        self.length = bytes.len() as u8;
        self.bytes[..bytes.len()].copy_from_slice(bytes);
    }
}

/// A record: its key and its value.
#[repr(C)]
#[derive(Drop)]
pub struct RowBytes {
    key_length: u8,
    value_length: u8,
    key: [u8; Key::MAX_LEN],
    value: [u8; Value::MAX_LEN],
}

impl RowBytes {
    pub(crate) fn put(&mut self, key: &Key, value: &Value)
        ensures { HoldsRow self.new key.now value.now }
    {
        let key = key.as_bytes();
        let value = value.as_bytes();
        self.key_length = key.len() as u8;
        self.key[..key.len()].copy_from_slice(key);
        self.value_length = value.len() as u8;
        self.value[..value.len()].copy_from_slice(value);
    }
}

/// The head of a block of a store's log.
#[repr(C)]
#[derive(Drop)]
pub struct HeadBytes {
    bytes: [u8; HEAD_LEN],
}

impl HeadBytes {
    pub(crate) fn put(&mut self, head: [u8; HEAD_LEN]) {
        self.bytes = head;
    }
}

/// The name of a status, ended by a 0.
#[repr(C)]
#[derive(Drop)]
pub struct NameText {
    text: [u8; NAME_ROOM],
}

impl NameText {
    /// Puts the name, or what there is room for of it.
    pub(crate) fn put(&mut self, name: &str) {
        self.text = [0; NAME_ROOM];
        let bytes = name.as_bytes();
        let len = bytes.len().min(NAME_ROOM - 1);
        self.text[..len].copy_from_slice(&bytes[..len]);
    }
}
