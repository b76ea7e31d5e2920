// The non-zero counts of a DCPI sample file as entries for the writer of profile.db. Nothing is written before the last refusal is excluded.
#![tactic(auto)]

ghost use Rattle.std.specs.Prelude.{List, ◌++◌, ◌≡◌, ℕ, ◌+◌, ◌-◌, ◌*◌, ◌%◌, ◌^◌, ◌≤◌, ◌<◌, length};
ghost use Rattle.refusal.specs.Check.{Passed};
ghost use Rattle.buffer.specs.Over.{over};
ghost use Rattle.dcpi.specs.Samples.{spacing, counts_from, sample_counts, non_zero};
ghost use Rattle.dcpi.specs.Check.{samples_check};
ghost use Rattle.dcpi_entries.specs.Entries.{entry_bytes, entries_of, list_answer, list_entries};

use dcpi::SPACING;
use refusal::Refusal;

// What the entries have in common.
#[derive(Clone, Copy)]
struct Series {
    profile: u32,
    metric: u16,
}

// One entry.
fn put_entry(entries: &mut [u8], at: usize, series: Series, offset: u32, count: u32)
    requires { at + 24 ≤ length entries.old }
    ensures { entries.new ≡ over entries.old at (entry_bytes series.profile series.metric (record { offset = offset; count = count })) }
{
    put::store_u32(entries, at, series.profile);
    put::store_u32(entries, at + 4, offset);
    put::store_u64(entries, at + 8, series.metric as u64);
    put::store_u64(entries, at + 16, float::of_u32(count));
}

// Those of n counts that are not zero, for an offset and on from there: where the next entry goes. All entries end at `end`; the entry of
// a zero is written too, and the next one over it, so that no branch hangs on the counts.
fn put_counts(
    entries: &mut [u8],
    at: usize,
    end: usize,
    series: Series,
    samples: &[u8],
    place: usize,
    offset: u64,
    n: usize,
) -> usize
    requires n_in_bounds { place + n * 4 ≤ length samples.now }
    requires spacing_bound { offset + n * spacing < 2 ^ 32 + spacing }
    requires n_bound { at + length (non_zero (counts_from samples.now place offset n)) * 24 ≤ end }
    requires at_value { (end - at) % 24 ≡ 0 }
    requires end_in_bounds { end ≤ length entries.old }
    ensures next { result ≡ at + length (non_zero (counts_from samples.now place offset n)) * 24 }
    ensures bytes { (rest : List ℕ) → result + length rest ≡ end → over entries.new result rest ≡ over entries.old at (entries_of series.profile series.metric (non_zero (counts_from samples.now place offset n)) ++ rest) }
{
    let mut next = at;
    for i in 0..n {
        if next == end {
            return next;
        }
        let count = le::load_u32(samples, place + i * 4);
        let here = offset + i as u64 * SPACING;
        put_entry(entries, next, series, here as u32, count);
        let listed = count != 0;
        if listed {
            next += 24;
        }
    }
    next
}

// Those of all chunks, `count` of them, of a section that keeps the rules.
fn put_chunks(entries: &mut [u8], series: Series, samples: &[u8], count: u64)
    requires samples_value { samples_check samples.now ≡ Passed }
    requires count_value { count ≡ length (non_zero (sample_counts samples.now)) }
    requires count_in_bounds { count * 24 ≤ length entries.old }
    ensures { entries.new ≡ over entries.old 0 (entries_of series.profile series.metric (non_zero (sample_counts samples.now))) }
{
    let totals = samples.len() - 8;
    let end = count as usize * 24;
    let mut p: usize = 0;
    let mut next: usize = 0;
    while p < totals {
        let offset = le::load_u32(samples, p) as u64;
        let size = le::load_u32(samples, p + 4) as usize;
        next = put_counts(entries, next, end, series, samples, p + 8, offset, size);
        p = p + 8 + size * 4;
    }
}

// The non-zero counts as entries, how many there are: 1, 7, 11, 20, and then 17.
pub fn list(samples: &[u8], profile: u32, metric: u16, entries: &mut [u8]) -> Result<u64, Refusal>
    ensures answer { result ≡ list_answer samples.now (length entries.old) }
    ensures bytes { entries.new ≡ list_entries samples.now profile metric entries.old }
{
    let count = dcpi::totals(samples)?.offsets;
    if (entries.len() as u64 / 24) < count {
        return Err(Refusal::Room);
    }
    put_chunks(entries, Series { profile, metric }, samples, count);
    Ok(count)
}
