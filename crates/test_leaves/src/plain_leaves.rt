//! A slow program that can't be wrong, to compare leaves with.
use crate::calls::Outcome;
use dc_leaf::Done;
use record_key::{Answer, Key, Op, PlainTable, Refusal, Value};
use std::alloc::Global;

/// All records in one table, the keys at which all leaves but the first begin, and every answer.
#[derive(Drop)]
pub struct PlainLeaves {
    table: PlainTable,
    fences: Vec<Key>,
    answers: Vec<(u64, Answer)>,
    low: u64,
}

impl PlainLeaves {
    pub fn new(alloc: Global) -> PlainLeaves {
        PlainLeaves {
            table: PlainTable::new(alloc),
            fences: Vec::new(alloc),
            answers: Vec::new(alloc),
            low: 0,
        }
    }

    /// A refused one changes nothing.
    pub fn perform(&mut self, number: u64, op: &Op) -> Result<Outcome, Refusal> {
        if number <= self.low {
            return Ok((Done::Repeated, None));
        }
        for (earlier, answer) in &self.answers {
            if *earlier == number {
                return Ok((Done::Repeated, Some(answer.copied())));
            }
        }
        self.answers.reserve(1)?;
        let answer = self.table.apply(op)?;
        self.answers.push((number, answer.copied()))?;
        Ok((Done::Performed, Some(answer)))
    }

    pub fn raise(&mut self, low: u64) {
        self.low = self.low.max(low);
        self.answers.retain(|answer| answer.0 > low);
    }

    pub fn get(&self, key: &Key) -> Option<&Value> {
        self.table.get(key)
    }

    /// The rows in key order.
    pub fn rows(&self) -> &[(Key, Value)] {
        self.table.rows()
    }

    /// The keys at which all leaves but the first begin, in key order.
    pub fn fences(&self) -> &[Key] {
        self.fences.as_slice()
    }

    /// The key at which the leaf at a place begins, none at the first.
    pub fn fence(&self, place: usize) -> Option<&Key> {
        if place == 0 {
            return None;
        }
        self.fences.get(place.wrapping_sub(1))
    }

    /// How many leaves begin at the key or below it, the first one aside.
    pub fn place_of(&self, key: &Key) -> usize {
        let mut place = 0usize;
        for fence in &self.fences {
            if !key.cmp(fence).is_lt() {
                place = place.wrapping_add(1);
            }
        }
        place
    }

    pub fn count(&self, place: usize) -> usize {
        let mut count = 0usize;
        for row in self.table.rows() {
            if self.place_of(&row.0) == place {
                count = count.wrapping_add(1);
            }
        }
        count
    }

    /// Parts the leaf of the key in its middle, where that may be. A refused one changes nothing.
    pub fn split(&mut self, key: &Key) -> Result<bool, Refusal> {
        let place = self.place_of(key);
        let count = self.count(place);
        if count < 2 {
            return Ok(false);
        }
        if let Some(cut) = self.nth_key(place, count / 2) {
            self.fences.push(cut)?;
            self.fences.sort_unstable();
        }
        Ok(true)
    }

    /// The key of the leaf's row of this number, from 0.
    fn nth_key(&self, place: usize, n: usize) -> Option<Key> {
        let mut before = n;
        for row in self.table.rows() {
            if self.place_of(&row.0) == place {
                if before == 0 {
                    return Some(row.0.copied());
                }
                before = before.wrapping_sub(1);
            }
        }
        None
    }

    /// Joins the leaf of the key with the one after it, where that may be.
    pub fn merge(&mut self, key: &Key) -> bool {
        let place = self.place_of(key);
        let left = self.count(place);
        let both = left.wrapping_add(self.count(place.wrapping_add(1)));
        if place >= self.fences.len() || left >= 3 || both > 6 {
            return false;
        }
        self.fences.remove(place);
        true
    }
}
