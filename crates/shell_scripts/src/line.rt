//! The lines of a script that are run.
use crate::label::Label;
use node_world::Event;
use record_key::Value;

/// What a write does at its key.
#[derive(Clone, Copy)]
pub enum Kind {
    Insert,
    Update,
    Upsert,
    /// Takes no value: an empty one stands for it.
    Delete,
}

/// What happens to a label's transaction.
#[derive(Clone, Copy)]
pub enum Call {
    Save,
    Back { savepoint: u64 },
    Rollback,
    Commit,
    Send,
    /// One step of its rollback.
    Undo,
}

/// What happens to the leaf that has a key.
#[derive(Clone, Copy)]
pub enum LeafCall {
    Split,
    /// It is joined with the leaf after it.
    Merge,
    Flush,
}

/// What may crash and be restarted.
#[derive(Clone, Copy)]
pub enum Component {
    /// The transaction component.
    Tc,
    /// The data component.
    Dc,
}

/// What may be set to fail.
#[derive(Clone, Copy)]
pub enum Device {
    /// That of the transaction component's log.
    TcLog,
    /// That of the data component's log.
    DcLog,
    /// That of the leaves' pages.
    Pages,
}

/// What is printed of the node as it is.
#[derive(Clone, Copy)]
pub enum Part {
    Log,
    Leaves,
}

/// How the rows of a scan are told.
#[derive(Clone, Copy, Default)]
pub enum Look {
    /// All of them, in the order of their keys.
    #[default]
    All,
    /// All of them, in the other order.
    Back,
    /// So many at most, from the first one on.
    First { most: u64 },
    /// So many at most, from the last one down.
    Last { most: u64 },
    /// Just how many they are.
    Count,
}

/// A key or a value as a line gives it.
#[derive(Drop)]
pub enum Written<'a> {
    /// The script's own bytes, of any length.
    Text(&'a [u8]),
    /// Bytes that were written as digits.
    Bytes(Value),
}

impl Written<'_> {
    ghost use Rattle.std.specs.Prelude.{◌≡◌};
    ghost use Rattle.shell_scripts.specs.Script.{written_bytes};

    /// The bytes that it has.
    pub fn as_bytes(&self) -> &[u8]
        ensures { result.now ≡ written_bytes self.now }
    {
        match self {
            Written::Text(text) => text,
            Written::Bytes(value) => value.as_bytes(),
        }
    }
}

/// A line that is run. Its keys have any length.
#[derive(Drop)]
pub enum Line<'a> {
    Begin(Label),
    Write {
        label: Label,
        kind: Kind,
        key: Written<'a>,
        value: Written<'a>,
    },
    /// An amount is added to the number at a key.
    Add {
        label: Label,
        key: Written<'a>,
        amount: u64,
    },
    Get {
        label: Label,
        key: Written<'a>,
    },
    /// The keys from `low` on, below `high` where there is one.
    Scan {
        label: Label,
        low: Written<'a>,
        high: Option<Written<'a>>,
        look: Look,
    },
    /// The keys that begin with `text`.
    Prefix {
        label: Label,
        text: Written<'a>,
        look: Look,
    },
    Call {
        label: Label,
        call: Call,
    },
    Leaf {
        call: LeafCall,
        key: Written<'a>,
    },
    Step(Event),
    /// The node works, for so many rounds at most where there is a number.
    Settle(Option<u64>),
    /// The records are printed.
    Table,
    /// Every message is let go.
    Forget,
    Show(Part),
}
