//! Entries whose numbers rise: what goes and what comes.
ghost use Rattle.std.specs.Prelude.{◌≡◌, OnErr, OnOk, IfOk, IfErr};
ghost use Rattle.record_key.specs.Entries.{RiseAbove};
ghost use Rattle.dc_ab_lsn.specs.AbLsn.{raised};
ghost use Rattle.dc_ab_lsn.specs.Parting.{is_from, entries_with, placed_above, placed_all};

use record_key::{Entries, Entry, Key, Refusal};
use std::alloc::Global;

/// Drops the entries whose numbers are at most the second one, where it is the greater, and gives the greater.
pub fn keep_above(entries: &mut Entries, low: u64, least: u64) -> u64
    ensures low { result ≡ (raised (record { low = low; entries = entries.old }) least).low }
    ensures kept { entries.new ≡ (raised (record { low = low; entries = entries.old }) least).entries }
{
    if least <= low {
        return low;
    }
    entries.drop_to(least);
    least
}

/// Copies of the entries whose keys aren't below this one.
pub fn copied_from(alloc: Global, entries: &Entries, key: &Key) -> Result<Entries, Refusal>
    ensures copied { IfOk result (λ copied. copied ≡ entries_with (is_from key.now) entries.now) }
    ensures memory { IfErr result (λ refusal. refusal ≡ Refusal.NoMemory) }
{
    let mut copied = Entries::new(alloc);
    for at in 0..entries.len() {
        let entry = entries.entry(at);
        if entry.key >= *key {
            copied.push(&entry)?;
        }
    }
    Ok(copied)
}

/// Puts copies of the entries above the low number each at its place, those whose numbers stand there already
/// aside. Where memory is refused some may have come.
pub fn place_all(entries: &mut Entries, low: u64, more: &Entries) -> Result<(), Refusal>
    requires { RiseAbove low entries.old }
    ensures placed { OnOk result (entries.new ≡ placed_all low more.now entries.old) }
    ensures rising { RiseAbove low entries.new }
    ensures memory { IfErr result (λ refusal. refusal ≡ Refusal.NoMemory) }
{
    for at in 0..more.len() {
        place_above(entries, low, &more.entry(at))?;
    }
    Ok(())
}

/// Puts a copy of the entry at its place, if it is above the low number and its own doesn't stand there yet.
fn place_above(entries: &mut Entries, low: u64, entry: &Entry) -> Result<(), Refusal>
    requires { RiseAbove low entries.old }
    ensures placed { OnOk result (entries.new ≡ placed_above low entry.now entries.old) }
    ensures unchanged { OnErr result (entries.new ≡ entries.old) }
    ensures memory { IfErr result (λ refusal. refusal ≡ Refusal.NoMemory) }
{
    if entry.number <= low {
        return Ok(());
    }
    match entries.place_of(entry.number) {
        Ok(_) => {}
        Err(gap) => entries.insert(gap, entry.number, &entry.key, &entry.answer.lent())?,
    }
    Ok(())
}
