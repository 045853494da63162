//! What is measured.

/// A kind of work. Unless it says otherwise, transactions are of ten operations, on rows that were loaded before, and
/// leaves are tended after each operation.
#[derive(Clone, Copy, PartialEq, Eq)]
pub enum Workload {
    /// The load alone.
    Base,
    /// Upserts.
    Commits,
    /// The same, each operation sent before it is stable: the log is forced at the commit, and the data component told.
    EarlyCommits,
    /// As `Commits`, each transaction rolled back.
    Rollbacks,
    /// Updates, of which a savepoint undoes the first five.
    Savepoints,
    /// Updates, a hundred a transaction, a savepoint before each ten, of which every second ten is undone.
    ManySavepoints,
    /// Reads of one key.
    Reads,
    /// Rows read a hundred at a time, each hundred in a transaction.
    Scans,
    /// Inserts of rising keys into no rows.
    Rising,
    /// The same of scattered keys.
    Scattered,
    /// After as many operations as `Commits` and a transaction of a thousand that is left open: from a crash of both
    /// components, of which all that was logged is found, until the open transaction is undone and a row is read.
    Reopening,
    /// The same with no open transaction.
    CleanReopening,
    /// As `Reopening`, with a checkpoint just before the crash.
    CheckedReopening,
    /// One open transaction has so many inserts, all before a checkpoint: from a crash of the transaction component
    /// until a new insert is answered.
    FirstInsert,
    /// The same until the node is settled.
    Undo,
    /// Eight clients that add to one record, in transactions of ten.
    HotAdds,
    /// Eight clients that update one record, in transactions of ten; each waits until no other holds it.
    HotUpdates,
}

impl Workload {
    /// The workload of this name. Those of one letter are named as other programs name theirs.
    pub fn named(name: &str) -> Option<Workload> {
        Some(match name.as_bytes() {
            b"base" => Workload::Base,
            b"a" => Workload::Commits,
            b"early" => Workload::EarlyCommits,
            b"b" => Workload::Rollbacks,
            b"c" => Workload::Savepoints,
            b"d" => Workload::Reads,
            b"e" => Workload::Scans,
            b"f" => Workload::Reopening,
            b"f0" => Workload::CleanReopening,
            b"checked" => Workload::CheckedReopening,
            b"savepoints" => Workload::ManySavepoints,
            b"rising" => Workload::Rising,
            b"scattered" => Workload::Scattered,
            b"first" => Workload::FirstInsert,
            b"undo" => Workload::Undo,
            b"adds" => Workload::HotAdds,
            b"updates" => Workload::HotUpdates,
            _ => return None,
        })
    }

    /// What its draws begin from.
    pub fn letter(self) -> u8 {
        match self {
            Workload::Rollbacks => b'b',
            Workload::Savepoints => b'c',
            Workload::Reads => b'd',
            Workload::Scans => b'e',
            Workload::ManySavepoints => b's',
            _ => b'a',
        }
    }

    /// The place in its transaction of the operation at a place of the whole work.
    pub fn place_in_transaction(self, place: u64) -> u64 {
        match self {
            Workload::ManySavepoints => place % 100,
            _ => place % 10,
        }
    }

    /// Whether transactions change rows: only then are there answers that a low number lets go.
    pub fn writes(self) -> bool {
        self != Workload::Reads
    }

    /// Whether rows are loaded first.
    pub fn has_rows(self) -> bool {
        !matches!(
            self,
            Workload::Rising
                | Workload::Scattered
                | Workload::FirstInsert
                | Workload::Undo
                | Workload::HotAdds
                | Workload::HotUpdates
        )
    }
}
