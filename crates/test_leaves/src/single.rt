//! The calls that lines spell, on one leaf and the one that is cut off it.
use crate::calls::Outcome;
use crate::shown::{add_leaf, put_leaf, put_outcome};
use dc_leaf::Leaf;
use record_key::{Op, Refusal};
use std::alloc::Global;
use test_calls::{Digest, Fault, Subject, Text, UNREADABLE, Words};

#[derive(Drop)]
pub struct Single {
    alloc: Global,
    leaf: Leaf,
    upper: Option<Leaf>,
}

impl Single {
    pub fn new(alloc: Global) -> Single {
        Single {
            alloc,
            leaf: Leaf::first(alloc),
            upper: None,
        }
    }

    /// `perform N OP`.
    fn perform(&mut self, words: &mut Words, answer: &mut Text) -> Result<(), Refusal> {
        let number = words.number()?;
        let outcome = on_whole(&mut self.leaf, number, &words.op()?)?;
        put_outcome(answer, &outcome);
        Ok(())
    }

    /// `cut KEY ID LAST`.
    fn cut(&mut self, words: &mut Words) -> Result<(), Refusal> {
        let key = words.key()?;
        let id = words.number()?;
        self.upper = Some(self.leaf.cut(&key, id, words.number()?)?);
        Ok(())
    }

    /// `scan LOW HIGH`.
    fn scan(&self, words: &mut Words, answer: &mut Text) -> Result<(), Refusal> {
        let low = words.key()?;
        let high = words.end()?;
        answer.put("rows");
        answer.put_lent_rows(&self.leaf.scan(&low, high.as_ref()));
        Ok(())
    }

    fn read(&self, name: &str, words: &mut Words, answer: &mut Text) -> Result<(), Refusal> {
        match name {
            "get" => answer.put_lent(self.leaf.get(&words.key()?)),
            "show" => put_leaf(answer, &self.leaf),
            "upper" => match &self.upper {
                Some(upper) => put_leaf(answer, upper),
                None => return Err(UNREADABLE),
            },
            "captures" => answer.put(if self.leaf.captures(words.number()?) {
                "yes"
            } else {
                "no"
            }),
            _ => return Err(UNREADABLE),
        }
        Ok(())
    }
}

/// Performs on a leaf without fences.
fn on_whole(leaf: &mut Leaf, number: u64, op: &Op) -> Result<Outcome, Refusal> {
    if leaf.low_fence().is_some() || leaf.high_fence().is_some() {
        return Err(Refusal::NotNow);
    }
    let mut answer = None;
    let done = leaf.perform(number, &op.lent(), 0, &mut answer)?;
    Ok((done, answer))
}

impl Subject for Single {
    fn renew(&mut self, _fault: Fault) -> Result<(), Refusal> {
        *self = Single::new(self.alloc);
        Ok(())
    }

    fn call(&mut self, words: &mut Words, answer: &mut Text) -> Result<(), Refusal> {
        match words.word() {
            "perform" => self.perform(words, answer),
            "cut" => self.cut(words),
            "scan" => self.scan(words, answer),
            "raise" => {
                self.leaf.raise(words.number()?);
                Ok(())
            }
            "back" => self.leaf.take_back(words.number()?),
            name => self.read(name, words, answer),
        }
    }

    fn digest(&self) -> u64 {
        let mut digest = Digest::new();
        add_leaf(&mut digest, &self.leaf);
        digest.number()
    }

    fn may_leave(&self, _name: &str, _refusal: Refusal) -> bool {
        false
    }
}
