//! Short runs of the list machine, line by line, beside wrong versions of them.
ghost use Rattle.history.specs.ListMachine.{IsRun};
ghost use Rattle.worked_runs.specs.Rows.{insert_rolled_back, never_rolling_back, number_twice, insert_twice, inserted_twice, commit_stays, numbers_again, committed_again, commit_falls, told_commit_falls, end_is_lost, nobody_is_lost, key_stays_held, held_key_is_taken, insert_again, crossed_is_seen, read_is_busy, held_key_is_read, increment_undone, old_value_restored, add_refused, stale_value_added};

/// A transaction inserts, is answered and rolls back. It isn't told so before it asks for it, and nobody gets its
/// number again.
pub fn rolled_back_run()
    ensures is_run { IsRun insert_rolled_back }
    ensures is_none { IsRun never_rolling_back → ⊥ }
    ensures no_number_twice { IsRun number_twice → ⊥ }
{}

/// A second insert of one key is answered Exists, and nothing else.
pub fn second_insert_run()
    ensures is_run { IsRun insert_twice }
    ensures is_none { IsRun inserted_twice → ⊥ }
{}

/// A crash amid a commit leaves it, or takes it back; but a told commit it leaves.
pub fn commit_crash_run()
    ensures stays { IsRun commit_stays }
    ensures falls { IsRun commit_falls }
    ensures is_none { IsRun told_commit_falls → ⊥ }
{}

/// A crash may lose all of a transaction that was answered, and then its numbers are given again; but none of one that
/// was told that it committed.
pub fn numbers_again_run()
    ensures is_run { IsRun numbers_again }
    ensures is_none { IsRun committed_again → ⊥ }
{}

/// A transaction that was rolled back may be lost in a crash, but none that never began.
pub fn rollback_crash_run()
    ensures is_run { IsRun end_is_lost }
    ensures is_none { IsRun nobody_is_lost → ⊥ }
{}

/// A crash amid an operation may leave its key held, and as long as it does nobody else takes it.
pub fn held_key_run()
    ensures is_run { IsRun key_stays_held }
    ensures is_none { IsRun held_key_is_taken → ⊥ }
{}

/// What was taken back to a savepoint isn't seen any more.
pub fn savepoint_run()
    ensures is_run { IsRun insert_again }
    ensures is_none { IsRun crossed_is_seen → ⊥ }
{}

/// A read of a key that another inserts is refused, and not asked.
pub fn busy_read_run()
    ensures is_run { IsRun read_is_busy }
    ensures is_none { IsRun held_key_is_read → ⊥ }
{}

/// Two transactions add to one counter at a time. Where one is taken back, what the other added stands, and the
/// counter isn't what the first found.
pub fn increment_undone_run()
    ensures is_run { IsRun increment_undone }
    ensures is_none { IsRun old_value_restored → ⊥ }
{}

/// An increment is answered by the value that stands, and not by one that stood before.
pub fn increment_refused_run()
    ensures is_run { IsRun add_refused }
    ensures is_none { IsRun stale_value_added → ⊥ }
{}
