// The lists that a profile.db is written from, as they are lent, and their check: everything is decided here before a byte is written.
#![tactic(auto)]

ghost use Rattle.std.specs.Prelude.{◌≡◌, ℕ, suc, ◌+◌, ◌*◌, ◌^◌, ◌≤◌, ◌<◌, min, leb, ltb, length};
ghost use Rattle.layout.specs.Many.{many};
ghost use Rattle.refusal.specs.declared.Refusal.TheVariants as No;
ghost use Rattle.refusal.specs.Check as Rules;
ghost use Rattle.seq.specs.Sequence.{every, sum};
ghost use Rattle.block_file.specs.Pairs.{leads, groups_of};
ghost use Rattle.profile_file.specs.Survey.{Ascending, run_start, pairs_of};
ghost use Rattle.profile_file.specs.File.{block_bytes};
ghost use Rattle.profile_file.specs.Check.{entries_listed, before_rule, sorted_rule, contexts_fit, sizes_check};
ghost use Rattle.profile_lists.specs.Lists.{word_of, entries_in, survey_of, lists_check};

use refusal::Refusal;

// What entry k says.
pub fn profile_of(entries: &[u8], k: usize) -> u32
    requires { k < (entries_in entries.now).count }
    ensures { result ≡ (entries_in entries.now).profile k }
{
    le::load_u32(entries, k * 24)
}

pub fn context_of(entries: &[u8], k: usize) -> u32
    requires { k < (entries_in entries.now).count }
    ensures { result ≡ (entries_in entries.now).context k }
{
    le::load_u32(entries, k * 24 + 4)
}

pub fn metric_of(entries: &[u8], k: usize) -> u16
    requires { k < (entries_in entries.now).count }
    ensures { result ≡ (entries_in entries.now).metric k }
{
    le::load_u16(entries, k * 24 + 8)
}

pub fn bits_of(entries: &[u8], k: usize) -> u64
    requires { k < (entries_in entries.now).count }
    ensures { result ≡ (entries_in entries.now).bits k }
{
    le::load_u64(entries, k * 24 + 16)
}

// Whether entry k comes before the next.
fn in_order(entries: &[u8], k: usize) -> bool
    requires { k + 1 < (entries_in entries.now).count }
    ensures { result ≡ before_rule (entries_in entries.now) k (suc k) }
{
    let p = profile_of(entries, k);
    let q = profile_of(entries, k + 1);
    let c = context_of(entries, k);
    let d = context_of(entries, k + 1);
    let m = metric_of(entries, k);
    let n = metric_of(entries, k + 1);
    (p < q) | ((p == q) & ((c < d) | ((c == d) & (m < n))))
}

// 15 and 11 of the entries, in one pass.
fn check_entries(entries: &[u8], profiles: usize) -> Result<(), Refusal>
    ensures { result ≡ Rules.first (Rules.rule (entries_listed (entries_in entries.now) profiles) No.Index) (Rules.rule (sorted_rule (entries_in entries.now)) No.Order) }
{
    let n = entries.len() / 24;
    if n == 0 {
        return Ok(());
    }
    let mut listed = (profile_of(entries, 0) as usize) < profiles;
    let mut sorted = true;
    for k in 0..n - 1 {
        sorted = sorted & in_order(entries, k);
        listed = listed & ((profile_of(entries, k + 1) as usize) < profiles);
    }
    refusal::rule(listed, Refusal::Index)?;
    refusal::rule(sorted, Refusal::Order)
}

// Whether the words are all below a limit: the tuples of the profiles, or the sizes of the tuples.
fn all_below(words: &[u64], limit: u64) -> bool
    ensures { result ≡ every (λ (k : ℕ). ltb (word_of words.now k) limit) (length words.now) }
{
    words.iter().all(|w| *w < limit)
}

// How many identifications the tuples claim together; one more than `most` where they are more.
fn claimed(tuples: &[u64], most: u64) -> u64
    requires { most + 1 < 2 ^ 64 }
    ensures { result ≡ min (sum (word_of tuples.now) (length tuples.now)) (most + 1) }
{
    let mut total = 0;
    for size in tuples {
        if *size > most - total {
            return most + 1;
        }
        total += *size;
    }
    total
}

// The run of a profile: where it ends, and how many contexts it has.
#[derive(Clone, Copy)]
pub struct Run {
    pub end: usize,
    pub contexts: u64,
}

// Whether the entry is of another context than the one before it, or the first of its run.
pub fn leads_at(entries: &[u8], start: usize, k: usize) -> bool
    requires { start + k < (entries_in entries.now).count }
    ensures { result ≡ leads (λ (j : ℕ). (entries_in entries.now).context (start + j)) k }
{
    if k == 0 {
        return true;
    }
    context_of(entries, start + k - 1) != context_of(entries, start + k)
}

fn run_at(entries: &[u8], p: usize, start: usize) -> Run
    requires ascending { Ascending (entries_in entries.now) }
    requires start_value { start ≡ run_start (entries_in entries.now) p }
    ensures end { result.end ≡ run_start (entries_in entries.now) (p + 1) }
    ensures contexts { result.contexts ≡ groups_of (pairs_of (entries_in entries.now) p) }
{
    let n = entries.len() / 24;
    let mut contexts = 0;
    for k in 0..n - start {
        if profile_of(entries, start + k) as usize != p {
            let end = start + k;
            return Run { end, contexts };
        }
        if leads_at(entries, start, k) {
            contexts += 1;
        }
    }
    Run { end: n, contexts }
}

// How many bytes the blocks of the profiles have, or 7 if one has too many contexts.
fn measure(entries: &[u8], profiles: usize) -> Result<u64, Refusal>
    requires ascending { Ascending (entries_in entries.now) }
    requires profiles_bound { profiles < 2 ^ 63 }
    ensures { result ≡ Rules.first (Rules.rule (contexts_fit (entries_in entries.now) profiles) No.Array)
        (Ok (length (many (block_bytes (entries_in entries.now)) profiles))) }
{
    let mut start = 0;
    let mut bytes = 0;
    for p in 0..profiles {
        let run = run_at(entries, p, start);
        refusal::rule(run.contexts < 0x1_0000_0000, Refusal::Array)?;
        let held = (run.end - start) as u64;
        bytes = bytes + held * 10 + 2 * (held % 2) + run.contexts * 12;
        start = run.end;
    }
    Ok(bytes)
}

// Whether the file has room: header, profiles and footer, then the tuples, then the blocks, each taken from what is left.
fn has_room(room: usize, profiles: usize, tuples: u64, blocks: u64) -> bool
    requires { profiles < 2 ^ 32 }
    ensures { result ≡ leb (72 + profiles * 40 + tuples + blocks) room }
{
    let front = 72 + profiles as u64 * 40;
    let room = room as u64;
    if room < front {
        return false;
    }
    if room - front < tuples {
        return false;
    }
    blocks <= room - front - tuples
}

// 7 and 17 of lists that keep 15 and 11.
fn check_sizes(
    profiles: &[u64],
    tuples: &[u64],
    identifiers: &[u8],
    entries: &[u8],
    identifications: u64,
    room: usize,
) -> Result<(), Refusal>
    requires ascending { Ascending (entries_in entries.now) }
    requires identifications_value { identifications ≡ sum (word_of tuples.now) (length tuples.now) }
    requires identifications_in_bounds { identifications * 16 ≤ length identifiers.now }
    ensures { result ≡ sizes_check (survey_of profiles.now tuples.now identifiers.now entries.now) room }
{
    if profiles.len() >= 0x1_0000_0000 {
        return Err(Refusal::Array);
    }
    if !all_below(tuples, 0x1_0000) {
        return Err(Refusal::Array);
    }
    let blocks = measure(entries, profiles.len())?;
    let bytes = tuples.len() as u64 * 8 + identifications * 16;
    refusal::rule(has_room(room, profiles.len(), bytes, blocks), Refusal::Room)
}

// The whole check: 15, 11, 7 and 17.
pub fn check(
    profiles: &[u64],
    tuples: &[u64],
    identifiers: &[u8],
    entries: &[u8],
    room: usize,
) -> Result<(), Refusal>
    ensures { result ≡ lists_check profiles.now tuples.now identifiers.now entries.now room }
{
    let most = identifiers.len() as u64 / 16;
    let identifications = claimed(tuples, most);
    if !(all_below(profiles, tuples.len() as u64) & (identifications <= most)) {
        return Err(Refusal::Index);
    }
    check_entries(entries, profiles.len())?;
    check_sizes(
        profiles,
        tuples,
        identifiers,
        entries,
        identifications,
        room,
    )
}
