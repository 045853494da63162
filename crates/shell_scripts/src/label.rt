//! Labels of transactions, the numbers that they stand for, and how the rows are told that those ask for.
ghost use Rattle.std.specs.Prelude.{◌≡◌, ◌||◌, ℕ, List, Some, None, refl, OnOk, IsSome};
ghost use Rattle.std.specs.Ordering.{nat_cmp};
ghost use Rattle.std.specs.Cmp.Lexicographic.{slice_cmp, nat_list_cmp_total, texts_po, texts_ties};
ghost use Rattle.std.specs.List.{list_all};
ghost use Rattle.std.specs.Char.{is_ascii_lowercase, is_ascii_digit};
ghost use Rattle.std.specs.BTreeMap.{get};
ghost use Rattle.shell_scripts.specs.Words.{is_label, label_in};

use crate::line::Look;
use crate::looks::Looks;
use arrayvec::ArrayVec;
use std::alloc::{AllocError, Global};
use std::cmp::Ordering;
use std::collections::BTreeMap;
use std::marker::Model;

/// A label: 1 to 8 lower case letters or digits, kept inline.
#[derive(Clone, PartialEq, Eq, Drop)]
pub struct Label {
    bytes: ArrayVec<u8, 8>,
}

impl Model for Label {
    ghost use Rattle.std.specs.Prelude.{List, ℕ, ◌≤◌, length};
    ghost use Rattle.std.specs.Coded.{coded_ℕ, coded_list};

    ghost Value = { List ℕ };

    ghost coded = { coded_list coded_ℕ };

    ghost view = { λ l. l.bytes.items };

    ghost invariant = { λ l. length l.bytes.items ≤ 8 };

    ghost inverse = { λ bytes. record { bytes = record { items = bytes } } };
}

impl Label {
    /// The label that this word is, if it is one.
    pub fn new(word: &[u8]) -> Option<Label>
        ensures { result ≡ label_in word.now }
    {
        if !is_label(word) {
            return None;
        }
        match ArrayVec::try_from(word) {
            Ok(bytes) => Some(Label { bytes }),
            Err(_) => None,
        }
    }

    /// The same label again. Takes no memory.
    fn copied(&self) -> Label
        ensures { result ≡ self.now }
    {
        self.clone().unwrap()
    }
}

/// Whether the word is 1 to 8 lower case letters or digits.
fn is_label(word: &[u8]) -> bool
    ensures { result ≡ is_label word.now }
{
    !word.is_empty() && word.len() <= 8 && is_lower_case(word)
}

fn is_lower_case(word: &[u8]) -> bool
    ensures { result ≡ list_all (λ b. is_ascii_lowercase b || is_ascii_digit b) word.now }
{
    word.iter()
        .all(|byte| byte.is_ascii_lowercase() || byte.is_ascii_digit())
}

impl PartialOrd for Label {
    ghost partial_cmp = { λ a b. Some (slice_cmp nat_cmp a b) };

    ghost laws = { texts_po };

    fn partial_cmp(&self, other: &Self) -> Option<Ordering> {
        Some(self.cmp(other))
    }
}

impl Ord for Label {
    ghost cmp = { λ a b. slice_cmp nat_cmp a b };

    ghost total = { nat_list_cmp_total };

    ghost matches_partial_cmp = { λ a b. refl };

    ghost matches_eq = { λ a b. texts_ties a b };

    fn cmp(&self, other: &Self) -> Ordering {
        self.bytes.cmp(&other.bytes)
    }
}

/// What each label stands for: 0, which is no transaction's number, until it is bound; and how rows are told.
#[derive(Drop)]
pub struct Labels {
    numbers: BTreeMap<Label, u64>,
    pub looks: Looks,
}

impl Labels {
    ghost use Rattle.shell_scripts.specs.Labels.{bindings, unbound, AreSameBindings, IsBound, IsNoted};

    /// No label is bound.
    pub fn new(alloc: Global) -> Labels
        ensures { AreSameBindings unbound (bindings result) }
    {
        Labels {
            numbers: BTreeMap::new(alloc),
            looks: Looks::new(),
        }
    }

    /// The number that the label stands for.
    pub fn number(&self, label: &Label) -> u64
        ensures { result ≡ (bindings self.now).number label.now }
    {
        match self.numbers.get(label) {
            Some(number) => *number,
            None => 0,
        }
    }

    /// Makes room for the label's binding, and binds nothing.
    pub fn make_room(&mut self, label: &Label) -> Result<(), AllocError>
        ensures same { AreSameBindings (bindings self.old) (bindings self.new) }
        ensures room { OnOk result (IsSome (get (slice_cmp nat_cmp) self.new.numbers label.now)) }
    {
        if !self.numbers.contains_key(label) {
            self.numbers.insert(label.copied(), 0)?;
        }
        Ok(())
    }

    /// Binds the label, for which there is room.
    pub fn bind(&mut self, label: &Label, number: u64)
        requires { IsSome (get (slice_cmp nat_cmp) self.old.numbers label.now) }
        ensures { IsBound (bindings self.old) (bindings self.new) label.now number }
    {
        // A key that is there takes no memory.
        let _ = self.numbers.insert(label.copied(), number);
    }

    /// The same of one for which there may be no room: it is left as it is then.
    pub fn rebind(&mut self, label: &Label, number: u64)
        ensures bound { IsSome (get (slice_cmp nat_cmp) self.old.numbers label.now)
            → IsBound (bindings self.old) (bindings self.new) label.now number }
        ensures same { get (slice_cmp nat_cmp) self.old.numbers label.now ≡ None → self.new ≡ self.old }
    {
        if self.numbers.contains_key(label) {
            self.bind(label, number);
        }
    }

    /// How rows are told.
    pub fn looks(&self) -> &Looks
        ensures { result.now ≡ self.now.looks }
    {
        &self.looks
    }

    /// The transaction has asked for rows, which are to be told so.
    pub fn note(&mut self, txn: u64, look: Look)
        ensures { IsNoted (bindings self.old) (bindings self.new) txn look }
    {
        self.looks.note(txn, look);
    }
}
