//! How much of a log a crash keeps.
ghost use Rattle.std.specs.Prelude.{◌≡◌, ◌≤◌, ◌+◌, length};
ghost use Rattle.node_laws.specs.Component.{lesser, bytes_left, tc_size, dc_size, LeavesBytes};

use node_laws::dc_core::Dc;
use node_laws::tc_core::Tc;
use stable::{LogDevice, PageDevice};

/// How many bytes of the data component's log are kept where of the records that aren't stable the first stay, so many,
/// and of the next one so many bytes, or all of it.
pub fn kept_of<D: LogDevice, P: PageDevice>(dc: &Dc<D, P>, frames: u64, bytes: u64) -> usize
    ensures { result ≡ bytes_left (dc_size dc.now.system.log) dc.now.system.stable (length dc.now.system.log)
        frames bytes }
{
    let records = dc.records();
    let whole = whole_of(dc.stable_end(), frames, records);
    let end = dc.end_of(whole);
    with_part(end, dc.end_of(after(whole, records)), bytes)
}

/// The same of the transaction component's log.
pub fn bytes_kept_of<D: LogDevice>(tc: &Tc<D>, frames: u64, bytes: u64) -> usize
    ensures { result ≡ bytes_left (tc_size tc.now.log) tc.now.stable (length tc.now.log) frames bytes }
{
    let records = tc.records();
    let whole = whole_of(tc.stable_end(), frames, records);
    let end = tc.end_of(whole);
    with_part(end, tc.end_of(after(whole, records)), bytes)
}

/// What a crash is to be asked for, so that the first bytes of what isn't stable of the log are left, so many, or all of
/// it: how many whole records, and how many bytes of the next one.
pub fn cut_after<D: LogDevice>(tc: &Tc<D>, kept: u64) -> (u64, u64)
    ensures { LeavesBytes tc.now kept result.0 result.1 }
{
    tc.kept();
    let (stable, records) = (tc.stable_end(), tc.records());
    let start = tc.end_of(stable);
    let (mut number, mut end) = (stable, start);
    while number < records {
        let next = tc.end_of(number + 1);
        if kept < (next - start) as u64 {
            return (number - stable, kept - (end - start) as u64);
        }
        number += 1;
        end = next;
    }
    (number - stable, kept - (end - start) as u64)
}

/// How many whole records are kept.
fn whole_of(stable: u64, frames: u64, records: u64) -> u64
    ensures within { result ≤ records }
    ensures least { result ≡ lesser (stable + frames) records }
{
    if records <= stable || records - stable <= frames {
        records
    } else {
        stable + frames
    }
}

/// The number of the next record, or of the last.
fn after(whole: u64, records: u64) -> u64
    requires { whole ≤ records }
    ensures within { result ≤ records }
    ensures next { whole ≤ result }
    ensures least { result ≡ lesser (whole + 1) records }
{
    if whole < records { whole + 1 } else { records }
}

/// Where what is kept ends: after so many bytes of the record that ends at `next`.
fn with_part(end: usize, next: usize, bytes: u64) -> usize
    requires { end ≤ next }
    ensures { result ≡ lesser (end + bytes) next }
{
    if bytes < (next - end) as u64 {
        end + bytes as usize
    } else {
        next
    }
}
