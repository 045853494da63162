//! How keys, values, operations, answers and refusals are spelled.
use crate::text::Text;
use codec::LentRows;
use record_key::{Answer, Key, Op, Refusal, Value, ValueRef};

impl Text {
    /// A value, or none: `-`.
    pub fn put_found(&mut self, value: Option<&Value>) {
        match value {
            Some(value) => self.put_bytes(value.as_bytes()),
            None => self.put("-"),
        }
    }

    /// A value that is lent, or none: `-`.
    pub fn put_lent(&mut self, value: Option<ValueRef<'_>>) {
        match value {
            Some(value) => self.put_bytes(value.as_bytes()),
            None => self.put("-"),
        }
    }

    pub fn put_answer(&mut self, answer: &Answer) {
        match answer {
            Answer::Inserted => self.put("inserted"),
            Answer::Updated(old) => self.put_with_value("updated", old),
            Answer::Was(old) => {
                self.put("was");
                self.put_found(old.as_ref());
            }
            Answer::Deleted(old) => self.put_with_value("deleted", old),
            Answer::Exists => self.put("exists"),
            Answer::NoRecord => self.put("missing"),
            Answer::NotNumber => self.put("notnumber"),
            Answer::Added(amount) => {
                self.put("added");
                self.put_number(*amount);
            }
        }
    }

    fn put_with_value(&mut self, word: &str, value: &Value) {
        self.put(word);
        self.put_bytes(value.as_bytes());
    }

    pub fn put_op(&mut self, op: &Op) {
        match op {
            Op::Insert(key, value) => self.put_row_op("insert", key, value),
            Op::Update(key, value) => self.put_row_op("update", key, value),
            Op::Upsert(key, value) => self.put_row_op("upsert", key, value),
            Op::Delete(key) => {
                self.put("delete");
                self.put_bytes(key.as_bytes());
            }
            Op::Add(key, amount) => {
                self.put("add");
                self.put_bytes(key.as_bytes());
                self.put_number(*amount);
            }
        }
    }

    fn put_row_op(&mut self, word: &str, key: &Key, value: &Value) {
        self.put(word);
        self.put_bytes(key.as_bytes());
        self.put_bytes(value.as_bytes());
    }

    /// `a=1`.
    pub fn put_row(&mut self, key: &Key, value: &Value) {
        self.put_texts(key.as_bytes(), value.as_bytes());
    }

    fn put_texts(&mut self, key: &[u8], value: &[u8]) {
        self.put_bytes(key);
        self.push("=");
        self.push_bytes(value);
    }

    pub fn put_rows(&mut self, rows: &[(Key, Value)]) {
        for row in rows {
            self.put_row(&row.0, &row.1);
        }
    }

    /// Rows that are lent, as `put_rows` puts them.
    pub fn put_lent_rows(&mut self, rows: &LentRows<'_>) {
        let mut rest = rows.again();
        for _ in 0..rows.len() {
            if let Some((key, value)) = rest.next_texts() {
                self.put_texts(key, value);
            }
        }
    }

    /// The refusal's name, behind it the holder or the place.
    pub fn put_refusal(&mut self, refusal: Refusal) {
        self.put(refusal.name());
        match refusal {
            Refusal::Busy(number) | Refusal::BadBytes(number) => self.put_number(number),
            _ => {}
        }
    }
}
