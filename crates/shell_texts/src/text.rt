//! A text that is written bit by bit.
use history::Record;
use record_key::{Key, Refusal};
use shell_story::node_world::Out;
use shell_story::shell_scripts::{Piece, print, print_record, print_refusal, print_told, put};
use std::io;

/// A text on its way to a writer. Once a write has failed nothing more is written, and the text's end tells that.
#[derive(Drop)]
pub struct Text<'a, W> {
    writer: &'a mut W,
    is_cut: bool,
}

impl<'a, W: io::Write> Text<'a, W> {
    /// A text of which nothing is written yet.
    pub fn new(writer: &'a mut W) -> Text<'a, W> {
        Text {
            writer,
            is_cut: false,
        }
    }

    /// Whether all of it was written.
    pub fn is_whole(&self) -> bool {
        !self.is_cut
    }

    /// Words as they are.
    pub fn say(&mut self, words: &str) -> &mut Self {
        self.bytes(words.as_bytes())
    }

    /// Bytes as they are.
    pub fn bytes(&mut self, bytes: &[u8]) -> &mut Self {
        if !self.is_cut {
            self.is_cut = put(self.writer, bytes).is_err();
        }
        self
    }

    /// A key.
    pub fn key(&mut self, key: &Key) -> &mut Self {
        self.piece(Piece::Key(key))
    }

    /// A place as a picture names it: how far right, a space, and how far down, in pixels.
    pub fn place(&mut self, right: u64, down: u64) -> &mut Self {
        self.number(right).say(" ").number(down)
    }

    /// A number in digits of base ten.
    pub fn number(&mut self, number: u64) -> &mut Self {
        self.piece(Piece::Number(number))
    }

    fn piece(&mut self, piece: Piece<'_>) -> &mut Self {
        if !self.is_cut {
            self.is_cut = print(self.writer, &[piece]).is_err();
        }
        self
    }

    /// The line of a refusal.
    pub fn refusal(&mut self, refusal: Refusal) {
        if !self.is_cut {
            self.is_cut = print_refusal(self.writer, refusal).is_err();
        }
    }

    /// What clients are told by an output.
    pub fn told(&mut self, out: &Out) {
        if !self.is_cut {
            self.is_cut = print_told(self.writer, out).is_err();
        }
    }

    /// The line of a record.
    pub fn record(&mut self, number: u64, record: &Record) {
        if !self.is_cut {
            self.is_cut = print_record(self.writer, number, record).is_err();
        }
    }
}
