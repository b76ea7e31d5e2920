// The library as C programs call it: every entry point, with the answer's number as the result and its values in lent words. Nothing is
// written where the number is not 0, but for the number of contexts that a walk listed.
#![tactic(auto)]

ghost use Rattle.std.specs.Prelude.{[], ◌∷◌, ◌≡◌, not, ◌≤◌, eqb, length};
ghost use Rattle.refusal.specs.Check.{code_of};
ghost use Rattle.refusal.specs.Words.{code_in};
ghost use Rattle.open.specs.Format as Format;
ghost use Rattle.text.specs.String.{text_words};
ghost use Rattle.meta.specs.Names.{title_at, description_at, kind_at, module_at, source_at, source_words};
ghost use Rattle.metric.specs.Levels.{metric_at, scope_at, summary_at, metric_words, scope_words, summary_words};
ghost use Rattle.function.specs.Function.{function_at, function_words};
ghost use Rattle.traversal.specs.Walk.{walked_words, slices, slices_with_mark, marks_with, LeavesFrom, Leaves};
ghost use Rattle.count.specs.Count.{count_of, count_words};
ghost use Rattle.tuple.specs.Tuple.{tuple_at, identifier_at, tuple_words, identifier_words};
ghost use Rattle.trace.specs.Trace.{line_at, sample_at, last_at, line_words, sample_words, last_words};
ghost use Rattle.total.specs.Totals.{totals_words};
ghost use Rattle.cct.specs.Totals.{cct_totals};
ghost use Rattle.block.specs.Block.{lookup_words};
ghost use Rattle.lookup.specs.Lookup.{profile_lookup, cct_lookup};
ghost use Rattle.batch.specs.Batch.{profile_batch, cct_batch};
ghost use Rattle.profile_writer.specs.Write.{write_answer, write_file, written_words};
ghost use Rattle.dcpi.specs.Answers.{sample_lookup, sample_totals, sample_count_words, sample_totals_words};
ghost use Rattle.dcpi_entries.specs.Entries.{list_answer, list_entries, entry_count_words};
ghost use Rattle.hot_path.specs.HotPath.{question, path_slices, LeavesPath, hot_path_of, hot_path_words, hot_path_code};
ghost use Rattle.words.specs.Convention.{words_in, sections_words, counts_words};
ghost use Rattle.hpcdb.specs.Value.{value_in, value_code, value_bytes};

use open::{
    CONTEXT, FILES, FUNCTIONS, GENERAL, ID_NAMES, ID_TUPLES, INFOS, METRICS, MODULES, STRINGS,
};
use refusal::Refusal;

// ---- meta.db

// Place and size of each section, in header order.
#[unsafe(no_mangle)]
pub extern "C" fn hpcdb_meta_open(file: &[u8], out: &mut [u64; 16]) -> u32
    ensures value { result ≡ code_in (sections_words Format.meta file.now) }
    ensures out_after { out.new ≡ words_in out.old (sections_words Format.meta file.now) }
{
    match open::open_meta(file) {
        Ok(s) => {
            *out = [
                s[GENERAL][0],
                s[GENERAL][1],
                s[ID_NAMES][0],
                s[ID_NAMES][1],
                s[METRICS][0],
                s[METRICS][1],
                s[CONTEXT][0],
                s[CONTEXT][1],
                s[STRINGS][0],
                s[STRINGS][1],
                s[MODULES][0],
                s[MODULES][1],
                s[FILES][0],
                s[FILES][1],
                s[FUNCTIONS][0],
                s[FUNCTIONS][1],
            ];
            0
        }
        Err(r) => u32::from(r),
    }
}

// How many identifier kinds, metrics, modules, files and functions there are.
#[unsafe(no_mangle)]
pub extern "C" fn hpcdb_meta_counts(file: &[u8], out: &mut [u64; 5]) -> u32
    ensures value { result ≡ code_in (counts_words file.now) }
    ensures out_after { out.new ≡ words_in out.old (counts_words file.now) }
{
    match meta::counts(file) {
        Ok(counts) => {
            *out = counts;
            0
        }
        Err(r) => u32::from(r),
    }
}

// Place and length of a string.
#[unsafe(no_mangle)]
pub extern "C" fn hpcdb_meta_title(file: &[u8], out: &mut [u64; 2]) -> u32
    ensures value { result ≡ code_in (text_words (title_at file.now)) }
    ensures out_after { out.new ≡ words_in out.old (text_words (title_at file.now)) }
{
    words::put(meta::title_at(file), out)
}

#[unsafe(no_mangle)]
pub extern "C" fn hpcdb_meta_description(file: &[u8], out: &mut [u64; 2]) -> u32
    ensures value { result ≡ code_in (text_words (description_at file.now)) }
    ensures out_after { out.new ≡ words_in out.old (text_words (description_at file.now)) }
{
    words::put(meta::description_at(file), out)
}

#[unsafe(no_mangle)]
pub extern "C" fn hpcdb_meta_id_name(file: &[u8], kind: u64, out: &mut [u64; 2]) -> u32
    ensures value { result ≡ code_in (text_words (kind_at file.now kind)) }
    ensures out_after { out.new ≡ words_in out.old (text_words (kind_at file.now kind)) }
{
    words::put(meta::kind_at(file, kind), out)
}

// Place and length of a metric's name, and the number of its scopes.
#[unsafe(no_mangle)]
pub extern "C" fn hpcdb_meta_metric(file: &[u8], i: u64, out: &mut [u64; 3]) -> u32
    ensures value { result ≡ code_in (metric_words (metric_at file.now i)) }
    ensures out_after { out.new ≡ words_in out.old (metric_words (metric_at file.now i)) }
{
    words::put(metric::metric_at(file, i), out)
}

// Place and length of a scope's name, the number of its summaries, and propMetricId.
#[unsafe(no_mangle)]
pub extern "C" fn hpcdb_meta_scope(file: &[u8], i: u64, j: u64, out: &mut [u64; 4]) -> u32
    ensures value { result ≡ code_in (scope_words (scope_at file.now i j)) }
    ensures out_after { out.new ≡ words_in out.old (scope_words (scope_at file.now i j)) }
{
    words::put(metric::scope_at(file, i, j), out)
}

// Place and length of a summary's formula, combine, and statMetricId.
#[unsafe(no_mangle)]
pub extern "C" fn hpcdb_meta_summary(file: &[u8], i: u64, j: u64, k: u64, out: &mut [u64; 4]) -> u32
    ensures value { result ≡ code_in (summary_words (summary_at file.now i j k)) }
    ensures out_after { out.new ≡ words_in out.old (summary_words (summary_at file.now i j k)) }
{
    words::put(metric::summary_at(file, i, j, k), out)
}

#[unsafe(no_mangle)]
pub extern "C" fn hpcdb_meta_module(file: &[u8], i: u64, out: &mut [u64; 2]) -> u32
    ensures value { result ≡ code_in (text_words (module_at file.now i)) }
    ensures out_after { out.new ≡ words_in out.old (text_words (module_at file.now i)) }
{
    words::put(meta::module_at(file, i), out)
}

// Place and length of a file's path, and 1 if it was copied.
#[unsafe(no_mangle)]
pub extern "C" fn hpcdb_meta_file(file: &[u8], i: u64, out: &mut [u64; 3]) -> u32
    ensures value { result ≡ code_in (source_words (source_at file.now i)) }
    ensures out_after { out.new ≡ words_in out.old (source_words (source_at file.now i)) }
{
    words::put(meta::source_file(file, i), out)
}

// 1 if a function has no name; place and length of the name, module, offset, file and line.
#[unsafe(no_mangle)]
pub extern "C" fn hpcdb_meta_function(file: &[u8], i: u64, out: &mut [u64; 7]) -> u32
    ensures value { result ≡ code_in (function_words (function_at file.now i)) }
    ensures out_after { out.new ≡ words_in out.old (function_words (function_at file.now i)) }
{
    words::put(function::function_at(file, i), out)
}

// The walk of the contexts. The number listed is written whatever the end: 0 whole, 101 cut, else the refusal's number.
#[unsafe(no_mangle)]
pub extern "C" fn hpcdb_meta_walk(
    file: &[u8],
    listing: &mut [u64],
    table: &mut [u64],
    out: &mut [u64; 1],
) -> u32
    ensures { Leaves walked_words file.now (slices listing.old table.old [])
        (result ∷ out.new) (slices listing.new table.new []) }
{
    words::put_walked(resume::walk(file, listing, table), out)
}

// The same walk, with the records of the listed contexts.
#[unsafe(no_mangle)]
pub extern "C" fn hpcdb_meta_records(
    file: &[u8],
    listing: &mut [u64],
    table: &mut [u64],
    records: &mut [u64],
    out: &mut [u64; 1],
) -> u32
    ensures { Leaves walked_words file.now (slices listing.old table.old records.old)
        (result ∷ out.new) (slices listing.new table.new records.new) }
{
    words::put_walked(resume::records(file, listing, table, records), out)
}

// The same walk from a mark on, with a new mark where `asks` is not 0.
#[unsafe(no_mangle)]
pub extern "C" fn hpcdb_meta_walk_from(
    file: &[u8],
    mark: &[u8],
    asks: u64,
    listing: &mut [u64],
    table: &mut [u64],
    records: &mut [u64],
    new_mark: &mut [u8],
    out: &mut [u64; 1],
) -> u32
    ensures { LeavesFrom walked_words file.now (marks_with mark.now (not (eqb asks 0)))
        (slices_with_mark listing.old table.old records.old new_mark.old)
        (result ∷ out.new) (slices_with_mark listing.new table.new records.new new_mark.new) }
{
    words::put_walked(
        resume::walk_from(file, mark, asks != 0, listing, table, records, new_mark),
        out,
    )
}

// ---- profile.db, cct.db and trace.db

// How many profiles there are.
#[unsafe(no_mangle)]
pub extern "C" fn hpcdb_profile_open(file: &[u8], out: &mut [u64; 1]) -> u32
    ensures value { result ≡ code_in (count_words (count_of Format.profile file.now)) }
    ensures out_after { out.new ≡ words_in out.old (count_words (count_of Format.profile file.now)) }
{
    words::put(count::profiles(file), out)
}

// How many contexts there are.
#[unsafe(no_mangle)]
pub extern "C" fn hpcdb_cct_open(file: &[u8], out: &mut [u64; 1]) -> u32
    ensures value { result ≡ code_in (count_words (count_of Format.cct file.now)) }
    ensures out_after { out.new ≡ words_in out.old (count_words (count_of Format.cct file.now)) }
{
    words::put(count::contexts(file), out)
}

// How many lines there are.
#[unsafe(no_mangle)]
pub extern "C" fn hpcdb_trace_open(file: &[u8], out: &mut [u64; 1]) -> u32
    ensures value { result ≡ code_in (count_words (count_of Format.trace file.now)) }
    ensures out_after { out.new ≡ words_in out.old (count_words (count_of Format.trace file.now)) }
{
    words::put(count::lines(file), out)
}

// Place and size of each section.
#[unsafe(no_mangle)]
pub extern "C" fn hpcdb_profile_sections(file: &[u8], out: &mut [u64; 4]) -> u32
    ensures value { result ≡ code_in (sections_words Format.profile file.now) }
    ensures out_after { out.new ≡ words_in out.old (sections_words Format.profile file.now) }
{
    match open::open_profile(file) {
        Ok(s) => {
            *out = [s[INFOS][0], s[INFOS][1], s[ID_TUPLES][0], s[ID_TUPLES][1]];
            0
        }
        Err(r) => u32::from(r),
    }
}

#[unsafe(no_mangle)]
pub extern "C" fn hpcdb_cct_sections(file: &[u8], out: &mut [u64; 2]) -> u32
    ensures value { result ≡ code_in (sections_words Format.cct file.now) }
    ensures out_after { out.new ≡ words_in out.old (sections_words Format.cct file.now) }
{
    match open::open_cct(file) {
        Ok(s) => {
            *out = [s[INFOS][0], s[INFOS][1]];
            0
        }
        Err(r) => u32::from(r),
    }
}

#[unsafe(no_mangle)]
pub extern "C" fn hpcdb_trace_sections(file: &[u8], out: &mut [u64; 2]) -> u32
    ensures value { result ≡ code_in (sections_words Format.trace file.now) }
    ensures out_after { out.new ≡ words_in out.old (sections_words Format.trace file.now) }
{
    match open::open_trace(file) {
        Ok(s) => {
            *out = [s[INFOS][0], s[INFOS][1]];
            0
        }
        Err(r) => u32::from(r),
    }
}

// How many identifications a profile's tuple has.
#[unsafe(no_mangle)]
pub extern "C" fn hpcdb_profile_tuple(file: &[u8], profile: u64, out: &mut [u64; 1]) -> u32
    ensures value { result ≡ code_in (tuple_words (tuple_at file.now profile)) }
    ensures out_after { out.new ≡ words_in out.old (tuple_words (tuple_at file.now profile)) }
{
    words::put(tuple::tuple_at(file, profile), out)
}

// Kind, flags, logicalId and physicalId.
#[unsafe(no_mangle)]
pub extern "C" fn hpcdb_profile_identifier(
    file: &[u8],
    profile: u64,
    k: u64,
    out: &mut [u64; 4],
) -> u32
    ensures value { result ≡ code_in (identifier_words (identifier_at file.now profile k)) }
    ensures out_after { out.new ≡ words_in out.old (identifier_words (identifier_at file.now profile k)) }
{
    words::put(tuple::identifier_at(file, profile, k), out)
}

// Count; profile and bits of the smallest value, and of the greatest; bits of the sum.
#[unsafe(no_mangle)]
pub extern "C" fn hpcdb_cct_totals(
    file: &[u8],
    context: u64,
    metric: u64,
    out: &mut [u64; 6],
) -> u32
    ensures value { result ≡ code_in (totals_words (cct_totals file.now context metric)) }
    ensures out_after { out.new ≡ words_in out.old (totals_words (cct_totals file.now context metric)) }
{
    words::put_found(cct::totals(file, context, metric), out)
}

// The line's profile, and the number of its samples.
#[unsafe(no_mangle)]
pub extern "C" fn hpcdb_trace_line(file: &[u8], i: u64, out: &mut [u64; 2]) -> u32
    ensures value { result ≡ code_in (line_words (line_at file.now i)) }
    ensures out_after { out.new ≡ words_in out.old (line_words (line_at file.now i)) }
{
    words::put(trace::line_at(file, i), out)
}

// Timestamp and context.
#[unsafe(no_mangle)]
pub extern "C" fn hpcdb_trace_sample(file: &[u8], i: u64, k: u64, out: &mut [u64; 2]) -> u32
    ensures value { result ≡ code_in (sample_words (sample_at file.now i k)) }
    ensures out_after { out.new ≡ words_in out.old (sample_words (sample_at file.now i k)) }
{
    words::put(trace::sample_at(file, i, k), out)
}

// Position, timestamp and context of the last sample not later.
#[unsafe(no_mangle)]
pub extern "C" fn hpcdb_trace_at(file: &[u8], i: u64, time: u64, out: &mut [u64; 3]) -> u32
    ensures value { result ≡ code_in (last_words (last_at file.now i time)) }
    ensures out_after { out.new ≡ words_in out.old (last_words (last_at file.now i time)) }
{
    words::put_found(trace::last_at(file, i, time), out)
}

// ---- a new profile.db

// Request 2026-02: the file's length.
#[unsafe(no_mangle)]
pub extern "C" fn hpcdb_profile_write(
    profiles: &[u64],
    tuples: &[u64],
    identifiers: &[u8],
    entries: &[u8],
    file: &mut [u8],
    out: &mut [u64; 1],
) -> u32
    ensures code { result ≡ code_in (written_words (write_answer profiles.now tuples.now identifiers.now entries.now (length file.old))) }
    ensures words { out.new ≡ words_in out.old (written_words (write_answer profiles.now tuples.now identifiers.now entries.now (length file.old))) }
    ensures bytes { file.new ≡ write_file profiles.now tuples.now identifiers.now entries.now file.old }
{
    words::put(
        profile_writer::write(profiles, tuples, identifiers, entries, file),
        out,
    )
}

// ---- meta.db and profile.db

// The hot path of a profile and metric: its places in the first words of `hot`, and their number.
#[unsafe(no_mangle)]
pub extern "C" fn hpcdb_hot_path(
    meta_db: &[u8],
    profile_db: &[u8],
    profile: u64,
    metric: u64,
    listing: &mut [u64],
    table: &mut [u64],
    hot: &mut [u64],
    out: &mut [u64; 1],
) -> u32
    ensures code { LeavesPath hot_path_code (question meta_db.now profile_db.now profile metric)
        (path_slices listing.old table.old hot.old)
        result (path_slices listing.new table.new hot.new) }
    ensures words { out.new ≡ words_in out.old (hot_path_words (hot_path_of
        (question meta_db.now profile_db.now profile metric)
        (path_slices listing.old table.old hot.old))) }
{
    words::put(
        hot_path::find(meta_db, profile_db, profile, metric, listing, table, hot),
        out,
    )
}

// ---- lookups

// The code, and the value in the first eight bytes.
fn put_value(answer: Result<Option<u64>, Refusal>, out: &mut [u8]) -> u32
    requires { 8 ≤ length out.old }
    ensures value { result ≡ code_in (lookup_words answer) }
    ensures out_after { out.new ≡ value_in out.old answer }
{
    match answer {
        Ok(Some(bits)) => {
            put::store_u64(out, 0, bits);
            0
        }
        Ok(None) => 100,
        Err(r) => u32::from(r),
    }
}

// The value of a metric in a context of a profile: 0 found, 100 absent, else the refusal number.
#[unsafe(no_mangle)]
pub extern "C" fn hpcdb_profile_lookup(
    file: &[u8],
    profile: u64,
    context: u64,
    metric: u64,
    out: &mut [u8],
) -> u32
    ensures value { result ≡ value_code out.old (profile_lookup file.now profile context metric) }
    ensures out_after { out.new ≡ value_bytes out.old (profile_lookup file.now profile context metric) }
{
    if out.len() < 8 {
        return 17;
    }
    put_value(lookup::profile_lookup(file, profile, context, metric), out)
}

#[unsafe(no_mangle)]
pub extern "C" fn hpcdb_cct_lookup(
    file: &[u8],
    profile: u64,
    context: u64,
    metric: u64,
    out: &mut [u8],
) -> u32
    ensures value { result ≡ value_code out.old (cct_lookup file.now profile context metric) }
    ensures out_after { out.new ≡ value_bytes out.old (cct_lookup file.now profile context metric) }
{
    if out.len() < 8 {
        return 17;
    }
    put_value(lookup::cct_lookup(file, profile, context, metric), out)
}

// Many values of one block, by pairs of contexts and metrics: two words for each, 0 and the bits, or 100 and 0.
#[unsafe(no_mangle)]
pub extern "C" fn hpcdb_profile_lookup_many(
    file: &[u8],
    profile: u64,
    asked: &[u64],
    answers: &mut [u64],
) -> u32
    ensures value { result ≡ code_of (profile_batch file.now profile asked.now answers.old).check }
    ensures answers_after { answers.new ≡ (profile_batch file.now profile asked.now answers.old).answers }
{
    refusal::code(&batch::profile_lookups(file, profile, asked, answers))
}

// Many values of one block, by pairs of metrics and profiles: two words for each, 0 and the bits, or 100 and 0.
#[unsafe(no_mangle)]
pub extern "C" fn hpcdb_cct_lookup_many(
    file: &[u8],
    context: u64,
    asked: &[u64],
    answers: &mut [u64],
) -> u32
    ensures value { result ≡ code_of (cct_batch file.now context asked.now answers.old).check }
    ensures answers_after { answers.new ≡ (cct_batch file.now context asked.now answers.old).answers }
{
    refusal::code(&batch::cct_lookups(file, context, asked, answers))
}

// ---- old DCPI sample files

// The two totals: how many counts are not zero, and their sum.
#[unsafe(no_mangle)]
pub extern "C" fn hpcdb_dcpi_totals(samples: &[u8], out: &mut [u64; 2]) -> u32
    ensures value { result ≡ code_in (sample_totals_words (sample_totals samples.now)) }
    ensures out_after { out.new ≡ words_in out.old (sample_totals_words (sample_totals samples.now)) }
{
    words::put(dcpi::totals(samples), out)
}

// The count for an offset.
#[unsafe(no_mangle)]
pub extern "C" fn hpcdb_dcpi_lookup(samples: &[u8], offset: u64, out: &mut [u64; 1]) -> u32
    ensures value { result ≡ code_in (sample_count_words (sample_lookup samples.now offset)) }
    ensures out_after { out.new ≡ words_in out.old (sample_count_words (sample_lookup samples.now offset)) }
{
    words::put_found(dcpi::lookup(samples, offset), out)
}

// The counts that are not zero, as entries for hpcdb_profile_write: how many there are.
#[unsafe(no_mangle)]
pub extern "C" fn hpcdb_dcpi_entries(
    samples: &[u8],
    profile: u32,
    metric: u16,
    entries: &mut [u8],
    out: &mut [u64; 1],
) -> u32
    ensures code { result ≡ code_in (entry_count_words (list_answer samples.now (length entries.old))) }
    ensures words { out.new ≡ words_in out.old (entry_count_words (list_answer samples.now (length entries.old))) }
    ensures bytes { entries.new ≡ list_entries samples.now profile metric entries.old }
{
    words::put(dcpi_entries::list(samples, profile, metric, entries), out)
}
