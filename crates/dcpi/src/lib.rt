// Old DCPI sample files: the binary section, validated in one pass before anything is answered.
#![tactic(auto)]

ghost use Rattle.std.specs.Prelude.{◌≡◌, ℕ, ◌+◌, ◌*◌, ◌^◌, ◌≤◌, ◌<◌, length, Ok, Err, MatchResult};
ghost use Rattle.refusal.specs.Check.{Passed};
ghost use Rattle.dcpi.specs.Samples.{total_offsets, total_samples, chunk_at, chunks, counts_from, sample_counts, non_zero, sum_of};
ghost use Rattle.dcpi.specs.Check.{chunk_rule, chunks_check, samples_check};
ghost use Rattle.dcpi.specs.Answers.{count_for, sample_lookup, sample_totals, given_sample_totals};

use refusal::Refusal;

// The counts of a chunk are for offsets so far apart.
pub const SPACING: u64 = 1;

// How many counts are not zero, and their sum.
#[derive(Clone, Copy, Debug, PartialEq, Eq)]
pub struct SampleTotals {
    pub offsets: u64,
    pub samples: u64,
}

// Of some counts, a chunk's or all: how many are not zero, and their sum.
#[derive(Clone, Copy)]
struct Sums {
    nonzero: u64,
    sum: u64,
}

// Those of a chunk.
fn chunk_sums(samples: &[u8], at: usize, n: usize) -> Sums
    requires n_in_bounds { at + n * 4 ≤ length samples.now }
    requires n_bound { n < 2 ^ 32 }
    ensures nonzero { (offset : ℕ) → result.nonzero ≡ length (non_zero (counts_from samples.now at offset n)) }
    ensures sum { (offset : ℕ) → result.sum ≡ sum_of (counts_from samples.now at offset n) }
    ensures few { result.nonzero ≤ n }
    ensures small { result.sum ≤ n * 0xffff_ffff }
{
    let mut zeros: u32 = 0;
    let mut sum: u64 = 0;
    for i in 0..n {
        let count = le::load_u32(samples, at + i * 4);
        if count == 0 {
            zeros += 1;
        }
        sum += count as u64;
    }
    let nonzero = n as u64 - zeros as u64;
    Sums { nonzero, sum }
}

// 7, of the chunk at p.
fn chunk_rule(samples: &[u8], p: usize) -> bool
    requires { p + 8 < length samples.now }
    ensures { result ≡ chunk_rule samples.now (chunk_at samples.now p) }
{
    let offset = le::load_u32(samples, p) as u64;
    let size = le::load_u32(samples, p + 4) as u64;
    let room = (samples.len() - 8 - p) as u64;
    ((8 + size * 4 <= room) & (1 <= size)) & (offset + size * SPACING < 0x1_0000_0000 + SPACING)
}

// One pass over the chunks, and over the counts of those that keep the rules.
fn pass_chunks(samples: &[u8]) -> Result<Sums, Refusal>
    requires { 8 ≤ length samples.now }
    ensures { MatchResult result (λ s. (chunks_check samples.now 0 (chunks samples.now) ≡ Passed)
        × (s.nonzero ≡ length (non_zero (sample_counts samples.now))) × (s.sum ≡ sum_of (sample_counts samples.now)))
        (λ r. chunks_check samples.now 0 (chunks samples.now) ≡ Err r) }
{
    let end = samples.len() - 8;
    let mut p: usize = 0;
    let mut least: u64 = 0;
    let mut nonzero: u64 = 0;
    let mut sum: u64 = 0;
    while p < end {
        if !chunk_rule(samples, p) {
            return Err(Refusal::Array);
        }
        let offset = le::load_u32(samples, p) as u64;
        if offset < least {
            return Err(Refusal::Order);
        }
        let size = le::load_u32(samples, p + 4) as usize;
        let chunk = chunk_sums(samples, p + 8, size);
        nonzero += chunk.nonzero;
        sum += chunk.sum;
        least = offset + (size as u64 - 1) * SPACING + 1;
        p = p + 8 + size * 4;
    }
    Ok(Sums { nonzero, sum })
}

// 1; 7 and 11, chunk by chunk; 20.
pub fn check(samples: &[u8]) -> Result<(), Refusal>
    ensures { result ≡ samples_check samples.now }
{
    if samples.len() < 8 {
        return Err(Refusal::Short);
    }
    let end = samples.len() - 8;
    let seen = pass_chunks(samples)?;
    let nonzero = le::load_u32(samples, end) as u64;
    let sum = le::load_u32(samples, end + 4) as u64;
    refusal::rule(
        (nonzero == seen.nonzero) & (sum == seen.sum),
        Refusal::Total,
    )
}

// The count for an offset: chunk by chunk, as long as the offset may be in one.
fn find(samples: &[u8], offset: u64) -> Option<u64>
    requires { samples_check samples.now ≡ Passed }
    ensures { result ≡ count_for offset (sample_counts samples.now) }
{
    let end = samples.len() - 8;
    let mut p: usize = 0;
    while p < end {
        let first = le::load_u32(samples, p) as u64;
        let size = le::load_u32(samples, p + 4) as u64;
        if offset < first {
            return None;
        }
        let i = (offset - first) / SPACING;
        if (i < size) & ((offset - first) % SPACING == 0) {
            return Some(le::load_u32(samples, p + 8 + i as usize * 4) as u64);
        }
        p = p + 8 + size as usize * 4;
    }
    None
}

// The count for an offset, or absent: 1, 7, 11 and 20 first.
pub fn lookup(samples: &[u8], offset: u64) -> Result<Option<u64>, Refusal>
    ensures { result ≡ sample_lookup samples.now offset }
{
    check(samples)?;
    Ok(find(samples, offset))
}

fn stored_totals(samples: &[u8]) -> SampleTotals
    requires { 8 ≤ length samples.now }
    ensures { Ok result ≡ given_sample_totals (total_offsets samples.now) (total_samples samples.now) }
{
    let end = samples.len() - 8;
    SampleTotals {
        offsets: le::load_u32(samples, end) as u64,
        samples: le::load_u32(samples, end + 4) as u64,
    }
}

// The two totals: 1, 7, 11 and 20 first.
pub fn totals(samples: &[u8]) -> Result<SampleTotals, Refusal>
    ensures { result ≡ sample_totals samples.now }
{
    check(samples)?;
    Ok(stored_totals(samples))
}
