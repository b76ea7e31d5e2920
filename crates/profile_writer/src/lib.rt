// A profile.db, written from lent lists. Nothing is written before the last refusal is excluded.
#![tactic(auto)]

ghost use Rattle.std.specs.Prelude.{true, [], ◌∷◌, ◌++◌, ◌≡◌, ℕ, ◌+◌, ◌*◌, ◌^◌, ◌≤◌, ◌<◌, length};
ghost use Rattle.le.specs.Number.{number};
ghost use Rattle.refusal.specs.Check.{Passed};
ghost use Rattle.layout.specs.Bytes.{fields, ◌is◌};
ghost use Rattle.layout.specs.Many.{many, to_four, zeros};
ghost use Rattle.layout.specs.Stands.{Stands};
ghost use Rattle.buffer.specs.Over.{over};
ghost use Rattle.seq.specs.Sequence.{sum};
ghost use Rattle.open.specs.Format as Format;
ghost use Rattle.open.specs.Opening.{place_for};
ghost use Rattle.block.specs.Block.{profile_shape};
ghost use Rattle.block_file.specs.Pairs.{groups, index_element, value_array, groups_of};
ghost use Rattle.profile_file.specs.Survey.{Ascending, run_start, run_length, pairs_of};
ghost use Rattle.profile_file.specs.File.{identification_bytes, tuple_bytes, block_bytes, tuples_from, tuples_size, info_bytes, profile_file};
ghost use Rattle.profile_file.specs.Check.{sizes_fit};
ghost use Rattle.profile_lists.specs.Lists.{word_of, entries_in, tuples_in, survey_of, lists_check};
ghost use Rattle.profile_writer.specs.Table.{places_of};
ghost use Rattle.profile_writer.specs.Write.{write_answer, write_file};

use profile_lists::Run;
use refusal::Refusal;

// ---- blocks

fn put_value(file: &mut [u8], at: usize, metric: u16, bits: u64)
    requires { at + 10 ≤ length file.old }
    ensures { file.new ≡ over file.old at (fields (2 is metric ∷ 8 is bits ∷ [])) }
{
    put::store_u16(file, at, metric);
    put::store_u64(file, at + 2, bits);
}

fn put_index(file: &mut [u8], at: usize, context: u32, start: u64)
    requires { at + 12 ≤ length file.old }
    ensures { file.new ≡ over file.old at (fields (4 is context ∷ 8 is start ∷ [])) }
{
    put::store_u32(file, at, context);
    put::store_u64(file, at + 4, start);
}

// The values of profile p, whose run starts at an entry: where its run ends.
fn put_values(file: &mut [u8], at: usize, entries: &[u8], p: usize, start: usize) -> usize
    requires ascending { Ascending (entries_in entries.now) }
    requires start_value { start ≡ run_start (entries_in entries.now) p }
    requires p_in_bounds { at + run_length (entries_in entries.now) p * 10 ≤ length file.old }
    ensures end { result ≡ run_start (entries_in entries.now) (p + 1) }
    ensures bytes { file.new ≡ over file.old at (value_array profile_shape (pairs_of (entries_in entries.now) p)) }
{
    let n = entries.len() / 24;
    for k in 0..n - start {
        if profile_lists::profile_of(entries, start + k) as usize != p {
            return start + k;
        }
        let metric = profile_lists::metric_of(entries, start + k);
        let bits = profile_lists::bits_of(entries, start + k);
        put_value(file, at + k * 10, metric, bits);
    }
    n
}

// The indices of some entries: how many there are.
fn put_indices(file: &mut [u8], at: usize, entries: &[u8], start: usize, held: usize) -> u64
    requires held_bound { start + held ≤ (entries_in entries.now).count }
    requires held_in_bounds { at + groups (λ (k : ℕ). (entries_in entries.now).context (start + k)) held * 12 ≤ length file.old }
    ensures contexts { result ≡ groups (λ (k : ℕ). (entries_in entries.now).context (start + k)) held }
    ensures bytes { file.new ≡ over file.old at (many (index_element 4 (λ (k : ℕ). (entries_in entries.now).context (start + k))) held) }
{
    let mut count = 0;
    for k in 0..held {
        if profile_lists::leads_at(entries, start, k) {
            let context = profile_lists::context_of(entries, start + k);
            put_index(file, at + count * 12, context, k as u64);
            count += 1;
        }
    }
    count as u64
}

// Two zeros behind an odd number of values: how many.
fn put_padding(file: &mut [u8], at: usize, held: usize) -> usize
    requires { at + to_four (held * 10) ≤ length file.old }
    ensures count { result ≡ to_four (held * 10) }
    ensures bytes { file.new ≡ over file.old at (zeros (to_four (held * 10))) }
{
    if held % 2 == 0 {
        return 0;
    }
    put::store_u16(file, at, 0);
    2
}

// The block of profile p: where its run ends, and how many contexts it has.
fn put_block(file: &mut [u8], at: usize, entries: &[u8], p: usize, start: usize) -> Run
    requires ascending { Ascending (entries_in entries.now) }
    requires start_value { start ≡ run_start (entries_in entries.now) p }
    requires p_in_bounds { at + length (block_bytes (entries_in entries.now) p) ≤ length file.old }
    ensures end { result.end ≡ run_start (entries_in entries.now) (p + 1) }
    ensures contexts { result.contexts ≡ groups_of (pairs_of (entries_in entries.now) p) }
    ensures bytes { file.new ≡ over file.old at (block_bytes (entries_in entries.now) p) }
{
    let end = put_values(file, at, entries, p, start);
    let held = end - start;
    let zeros = put_padding(file, at + held * 10, held);
    let contexts = put_indices(file, at + held * 10 + zeros, entries, start, held);
    Run { end, contexts }
}

// ---- profiles

// A pointer, which is 0 where it is ignored.
fn place_for(size: u64, pointer: u64) -> u64
    ensures { result ≡ place_for size pointer }
{
    if size == 0 { 0 } else { pointer }
}

fn put_info(
    file: &mut [u8],
    at: usize,
    total: u64,
    values: u64,
    count: u32,
    indices: u64,
    tuple: u64,
)
    requires { at + 40 ≤ length file.old }
    ensures { file.new ≡ over file.old at (fields (8 is total ∷ 8 is values ∷ 4 is count ∷ 4 is 0 ∷ 8 is indices ∷ 8 is tuple ∷ [])) }
{
    put::store_u64(file, at, total);
    put::store_u64(file, at + 8, values);
    put::store_u32(file, at + 16, count);
    put::store_u32(file, at + 20, 0);
    put::store_u64(file, at + 24, indices);
    put::store_u64(file, at + 32, tuple);
}

// The profiles' structures and their blocks, with the places of the tuples standing where the tuples will be: where the blocks end.
fn put_profiles(
    file: &mut [u8],
    profiles: &[u64],
    tuples: &[u64],
    identifiers: &[u8],
    entries: &[u8],
    table: usize,
    blocks: usize,
) -> usize
    requires file_value { lists_check profiles.now tuples.now identifiers.now entries.now (length file.old) ≡ Passed }
    requires stands { Stands file.old table (places_of tuples.now table (length tuples.now)) }
    requires table_value { table ≡ tuples_from (survey_of profiles.now tuples.now identifiers.now entries.now) }
    requires blocks_value { blocks ≡ table + tuples_size (survey_of profiles.now tuples.now identifiers.now entries.now) }
    ensures end { result ≡ blocks + length (many (block_bytes (entries_in entries.now)) (length profiles.now)) }
    ensures bytes { file.new ≡ over (over file.old 64 (many (info_bytes (survey_of profiles.now tuples.now identifiers.now entries.now)) (length profiles.now))) blocks (many (block_bytes (entries_in entries.now)) (length profiles.now)) }
{
    let mut start = 0;
    let mut at = blocks;
    for (p, named) in profiles.iter().enumerate() {
        let run = put_block(file, at, entries, p, start);
        let held = (run.end - start) as u64;
        let indices = at as u64 + held * 10 + 2 * (held % 2);
        let tuple = le::load_u64(file, table + *named as usize * 8);
        put_info(
            file,
            64 + p * 40,
            held,
            place_for(held, at as u64),
            run.contexts as u32,
            place_for(held, indices),
            tuple,
        );
        at = indices as usize + run.contexts as usize * 12;
        start = run.end;
    }
    at
}

// ---- tuples

// The places of the tuples, where the tuples will be: where the tuples will end.
fn put_places(file: &mut [u8], at: usize, tuples: &[u64]) -> usize
    requires { at + length tuples.now * 8 + sum (word_of tuples.now) (length tuples.now) * 16 ≤ length file.old }
    ensures end { result ≡ at + length tuples.now * 8 + sum (word_of tuples.now) (length tuples.now) * 16 }
    ensures bytes { file.new ≡ over file.old at (places_of tuples.now at (length tuples.now)) }
{
    let mut place = at;
    for (t, size) in tuples.iter().enumerate() {
        put::store_u64(file, at + t * 8, place as u64);
        place = place + 8 + *size as usize * 16;
    }
    place
}

// Identification at a place; the byte behind its kind is 0.
fn put_identification(file: &mut [u8], at: usize, identifiers: &[u8], from: usize)
    requires at_in_bounds { at + 16 ≤ length file.old }
    requires from_in_bounds { from + 16 ≤ length identifiers.now }
    ensures { file.new ≡ over file.old at (fields (1 is number 1 identifiers.now from ∷ 1 is 0 ∷ 2 is number 2 identifiers.now (from + 2) ∷ 4 is number 4 identifiers.now (from + 4) ∷ 8 is number 8 identifiers.now (from + 8) ∷ [])) }
{
    put::store_u16(file, at, le::load_u8(identifiers, from) as u16);
    put::store_u16(file, at + 2, le::load_u16(identifiers, from + 2));
    put::store_u32(file, at + 4, le::load_u32(identifiers, from + 4));
    put::store_u64(file, at + 8, le::load_u64(identifiers, from + 8));
}

// Some identifications, from one of those of all tuples on.
fn put_identifications(
    file: &mut [u8],
    at: usize,
    tuples: &[u64],
    identifiers: &[u8],
    t: usize,
    first: usize,
)
    requires first_value { first ≡ sum (word_of tuples.now) t }
    requires t_in_bounds { at + word_of tuples.now t * 16 ≤ length file.old }
    requires t_in_bounds_2 { (first + word_of tuples.now t) * 16 ≤ length identifiers.now }
    requires t_in_bounds_3 { t < length tuples.now }
    ensures { file.new ≡ over file.old at (many (identification_bytes (tuples_in tuples.now identifiers.now) t) (word_of tuples.now t)) }
{
    let n = tuples[t] as usize;
    for j in 0..n {
        put_identification(file, at + j * 16, identifiers, (first + j) * 16);
    }
}

fn put_tuples(file: &mut [u8], at: usize, tuples: &[u64], identifiers: &[u8])
    requires tuples_in_bounds { at + length (many (tuple_bytes (tuples_in tuples.now identifiers.now)) (length tuples.now)) ≤ length file.old }
    requires tuples_in_bounds_2 { sum (word_of tuples.now) (length tuples.now) * 16 ≤ length identifiers.now }
    requires identifiers_value { sizes_fit (tuples_in tuples.now identifiers.now) ≡ true }
    ensures { file.new ≡ over file.old at (many (tuple_bytes (tuples_in tuples.now identifiers.now)) (length tuples.now)) }
{
    let mut first = 0;
    let mut place = at;
    for (t, size) in tuples.iter().enumerate() {
        let n = *size as usize;
        put::store_u64(file, place, *size);
        put_identifications(file, place + 8, tuples, identifiers, t, first);
        place = place + 8 + n * 16;
        first += n;
    }
}

// ---- the file

// Version 4.0, and size and pointer of each section.
fn put_header(file: &mut [u8], profiles: u64, size: u64)
    requires in_bounds { 64 ≤ length file.old }
    requires profiles_bound { profiles < 2 ^ 32 }
    ensures { file.new ≡ over file.old 0 ((Format.profile).magic ++ fields (1 is 4 ∷ 1 is 0 ∷ 8 is (16 + profiles * 40) ∷ 8 is 48 ∷ 8 is size ∷ 8 is place_for size (64 + profiles * 40) ∷ [])) }
{
    put::text(file, 0, &open::PROFILE);
    put::store_u16(file, 14, 4);
    put::store_u64(file, 16, 16 + profiles * 40);
    put::store_u64(file, 24, 48);
    put::store_u64(file, 32, size);
    put::store_u64(file, 40, place_for(size, 64 + profiles * 40));
}

// The header of the profiles' section.
fn put_infos_header(file: &mut [u8], profiles: u64)
    requires in_bounds { 64 ≤ length file.old }
    requires profiles_bound { profiles < 2 ^ 32 }
    ensures { file.new ≡ over file.old 48 (fields (8 is place_for profiles 64 ∷ 4 is profiles ∷ 1 is 40 ∷ 3 is 0 ∷ [])) }
{
    put::store_u64(file, 48, place_for(profiles, 64));
    put::store_u32(file, 56, profiles as u32);
    put::store_u32(file, 60, 40);
}

// The file of lists that were checked: its length.
fn put_file(
    file: &mut [u8],
    profiles: &[u64],
    tuples: &[u64],
    identifiers: &[u8],
    entries: &[u8],
) -> usize
    requires { lists_check profiles.now tuples.now identifiers.now entries.now (length file.old) ≡ Passed }
    ensures end { result ≡ length (profile_file (survey_of profiles.now tuples.now identifiers.now entries.now)) }
    ensures bytes { file.new ≡ over file.old 0 (profile_file (survey_of profiles.now tuples.now identifiers.now entries.now)) }
{
    let table = 64 + profiles.len() * 40;
    let blocks = put_places(file, table, tuples);
    let end = put_profiles(file, profiles, tuples, identifiers, entries, table, blocks);
    put_tuples(file, table, tuples, identifiers);
    put_header(file, profiles.len() as u64, (blocks - table) as u64);
    put_infos_header(file, profiles.len() as u64);
    put::text(file, end, &open::PROFILE_FOOTER);
    end + 8
}

// Request 2026-02: the file's length, or the refusal, after which nothing is written.
pub fn write(
    profiles: &[u64],
    tuples: &[u64],
    identifiers: &[u8],
    entries: &[u8],
    file: &mut [u8],
) -> Result<u64, Refusal>
    ensures answer { result ≡ write_answer profiles.now tuples.now identifiers.now entries.now (length file.old) }
    ensures bytes { file.new ≡ write_file profiles.now tuples.now identifiers.now entries.now file.old }
{
    profile_lists::check(profiles, tuples, identifiers, entries, file.len())?;
    Ok(put_file(file, profiles, tuples, identifiers, entries) as u64)
}
