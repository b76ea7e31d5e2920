// Opening the four files. The rules go in groups, front, sections and headers; one is looked at after those before it have passed, so
// that what it reads is known to lie in the file.
#![tactic(auto)]

ghost use Rattle.std.specs.Prelude.{◌≡◌, [], ◌∷◌, ◌+◌, ◌-◌, ◌≤◌, length, get_or};
ghost use Rattle.refusal.specs.Check.{Passed, rule, first};
ghost use Rattle.refusal.specs.declared.Refusal.TheVariants as No;
ghost use Rattle.layout.specs.Stands.{stands};
ghost use Rattle.open.specs.Format.{meta, profile, cct, trace, infos_section, specs_section, id_names_section, metrics_section, context_section};
ghost use Rattle.open.specs.Opening.{section_rule, stride_rule, array_rule, contexts_rule, header_rule, front_rules, in_order, section_check, header_check, pair_at, pairs_read, opening_with, opened};

use refusal::Refusal;

// Positions of sections in the header: of meta.db,
pub const GENERAL: usize = 0;

pub const ID_NAMES: usize = 1;

pub const METRICS: usize = 2;

pub const CONTEXT: usize = 3;

pub const STRINGS: usize = 4;

pub const MODULES: usize = 5;

pub const FILES: usize = 6;

pub const FUNCTIONS: usize = 7;

// of the other files: the one with their array of profiles, contexts or traces;
pub const INFOS: usize = 0;

// of profile.db.
pub const ID_TUPLES: usize = 1;

const META: [u8; 14] = *b"HPCTOOLKITmeta";

pub const PROFILE: [u8; 14] = *b"HPCTOOLKITprof";

const CCT: [u8; 14] = *b"HPCTOOLKITctxt";

const TRACE: [u8; 14] = *b"HPCTOOLKITtrce";

const META_FOOTER: [u8; 8] = *b"_meta.db";

pub const PROFILE_FOOTER: [u8; 8] = *b"_prof.db";

const CCT_FOOTER: [u8; 8] = *b"__ctx.db";

// 6, of one stride.
fn stride_rule(least: u64, n: u64) -> bool
    ensures { result ≡ stride_rule least n }
{
    (least <= n) & range::multiple(n, 8)
}

// 7, of an array in a section of `size` bytes at `at`, whose header has `end` bytes.
pub fn array_rule(at: u64, end: u64, size: u64, place: u64, count: u64, stride: u64) -> bool
    ensures { result ≡ array_rule at end size place count stride }
{
    (count == 0)
        | (range::in_section(at, end, size, place, count, stride) & range::multiple(place, 8))
}

// 7, of roots or children.
pub fn contexts_rule(at: u64, end: u64, size: u64, place: u64, bytes: u64) -> bool
    ensures { result ≡ contexts_rule at end size place bytes }
{
    if bytes == 0 {
        return place == 0;
    }
    (place != 0) & (range::in_section(at, end, size, place, bytes, 1) & range::multiple(place, 8))
}

// Place and size of the section whose entry in the header stands at a place.
fn pair_at(file: &[u8], entry: usize) -> [u64; 2]
    requires { entry + 16 ≤ length file.now }
    ensures { result ≡ pair_at file.now entry }
{
    let size = le::load_u64(file, entry);
    if size == 0 {
        return [0, size];
    }
    [le::load_u64(file, entry + 8), size]
}

// 1 to 3.
fn head(file: &[u8], magic: &[u8; 14], header: u64) -> Result<(), Refusal>
    requires le_header { 7 ≤ header }
    requires header_bound { header ≤ 144 }
    ensures { result ≡ front_rules magic.now [] header file.now }
{
    if (file.len() as u64) < header + 8 {
        return Err(Refusal::Short);
    }
    if !layout::has_fourteen(file, 0, magic) {
        return Err(Refusal::Magic);
    }
    refusal::rule(le::load_u8(file, 14) == 4, Refusal::Version)
}

// 4.
fn foot(file: &[u8], footer: &[u8; 8]) -> Result<(), Refusal>
    requires { 8 ≤ length file.now }
    ensures { result ≡ rule (stands file.now (length file.now - 8) footer.now) No.Footer }
{
    let stands = layout::has_eight(file, file.len() - 8, footer);
    refusal::rule(stands, Refusal::Footer)
}

// 1 to 4.
fn front(file: &[u8], magic: &[u8; 14], footer: &[u8; 8], header: u64) -> Result<(), Refusal>
    requires le_header { 7 ≤ header }
    requires header_bound { header ≤ 144 }
    ensures { result ≡ front_rules magic.now footer.now header file.now }
{
    head(file, magic, header)?;
    foot(file, footer)
}

// The start of the last eight bytes.
pub fn last_eight(file: &[u8]) -> u64
    ensures { result ≡ length file.now - 8 }
{
    let n = file.len() as u64;
    if n < 8 { 0 } else { n - 8 }
}

// 5, of one section.
fn section_rule(file: &[u8], header: u64, end: u64, align: u64, section: [u64; 2]) -> bool
    ensures { result ≡ section_rule header (length file.now - 8) end align (get_or section 0 0) (get_or section 1 0) }
{
    let place = section[0];
    let size = section[1];
    let lies = range::within(header, last_eight(file), place, size, 1)
        & range::multiple(place, align);
    (end <= size) & ((size == 0) | lies)
}

// 6 before 7.
fn strides_then_array(strides: bool, array: bool) -> Result<(), Refusal>
    ensures { result ≡ first (rule strides No.Stride) (rule array No.Array) }
{
    let stride = refusal::rule(strides, Refusal::Stride);
    let range = refusal::rule(array, Refusal::Array);
    stride.and(range)
}

// 6 and 7, of a header whose array has a stride of one byte, at 12.
fn infos_header(file: &[u8], least: u64, section: [u64; 2]) -> Result<(), Refusal>
    requires { get_or section 0 0 + 13 ≤ length file.now }
    ensures { result ≡ header_rule file.now (infos_section least) (get_or section 0 0) (get_or section 1 0) }
{
    let at = section[0];
    let from = at as usize;
    let place = le::load_u64(file, from);
    let count = le::load_u32(file, from + 8) as u64;
    let stride = le::load_u8(file, from + 12) as u64;
    if !stride_rule(least, stride) {
        return Err(Refusal::Stride);
    }
    let array = array_rule(at, 13, section[1], place, count, stride);
    refusal::rule(array, Refusal::Array)
}

// The same with a stride of two bytes.
fn specs_header(file: &[u8], least: u64, section: [u64; 2]) -> Result<(), Refusal>
    requires { get_or section 0 0 + 14 ≤ length file.now }
    ensures { result ≡ header_rule file.now (specs_section least) (get_or section 0 0) (get_or section 1 0) }
{
    let at = section[0];
    let from = at as usize;
    let place = le::load_u64(file, from);
    let count = le::load_u32(file, from + 8) as u64;
    let stride = le::load_u16(file, from + 12) as u64;
    let strides = stride_rule(least, stride);
    let array = array_rule(at, 14, section[1], place, count, stride);
    strides_then_array(strides, array)
}

// 7, of the names of identifier kinds.
fn names_header(file: &[u8], section: [u64; 2]) -> Result<(), Refusal>
    requires { get_or section 0 0 + 9 ≤ length file.now }
    ensures { result ≡ header_rule file.now id_names_section (get_or section 0 0) (get_or section 1 0) }
{
    let at = section[0];
    let from = at as usize;
    let place = le::load_u64(file, from);
    let count = le::load_u8(file, from + 8) as u64;
    refusal::rule(
        array_rule(at, 9, section[1], place, count, 8),
        Refusal::Array,
    )
}

// 6 and 7, of the metrics.
fn metrics_header(file: &[u8], section: [u64; 2]) -> Result<(), Refusal>
    requires { get_or section 0 0 + 15 ≤ length file.now }
    ensures { result ≡ header_rule file.now metrics_section (get_or section 0 0) (get_or section 1 0) }
{
    let at = section[0];
    let from = at as usize;
    let place = le::load_u64(file, from);
    let count = le::load_u32(file, from + 8) as u64;
    let metric = le::load_u8(file, from + 12) as u64;
    let scope = le::load_u8(file, from + 13) as u64;
    let summary = le::load_u8(file, from + 14) as u64;
    let strides = stride_rule(24, metric) & (stride_rule(24, scope) & stride_rule(16, summary));
    let array = array_rule(at, 15, section[1], place, count, metric);
    strides_then_array(strides, array)
}

// 7, of the roots.
fn contexts_header(file: &[u8], section: [u64; 2]) -> Result<(), Refusal>
    requires { get_or section 0 0 + 16 ≤ length file.now }
    ensures { result ≡ header_rule file.now context_section (get_or section 0 0) (get_or section 1 0) }
{
    let at = section[0];
    let from = at as usize;
    let bytes = le::load_u64(file, from);
    let place = le::load_u64(file, from + 8);
    refusal::rule(
        contexts_rule(at, 16, section[1], place, bytes),
        Refusal::Array,
    )
}

// Places and sizes of the sections as the header has them, opened or not.
pub fn meta_sections(file: &[u8]) -> [[u64; 2]; 8]
    ensures { result ≡ pairs_read meta file.now }
{
    if file.len() < 144 {
        return [[0; 2]; 8];
    }
    [
        pair_at(file, 16),
        pair_at(file, 32),
        pair_at(file, 48),
        pair_at(file, 64),
        pair_at(file, 80),
        pair_at(file, 96),
        pair_at(file, 112),
        pair_at(file, 128),
    ]
}

pub fn profile_sections(file: &[u8]) -> [[u64; 2]; 2]
    ensures { result ≡ pairs_read profile file.now }
{
    if file.len() < 48 {
        return [[0; 2]; 2];
    }
    [pair_at(file, 16), pair_at(file, 32)]
}

// The one section of cct.db or trace.db.
pub fn single_section(file: &[u8]) -> [[u64; 2]; 1]
    ensures value { result ≡ pairs_read cct file.now }
    ensures value_2 { result ≡ pairs_read trace file.now }
{
    if file.len() < 32 {
        return [[0; 2]; 1];
    }
    [pair_at(file, 16)]
}

// 5, of the eight sections of meta.db.
fn meta_section_rules(file: &[u8], s: &[[u64; 2]; 8]) -> bool
    ensures { rule result No.Section ≡ in_order (section_check 144 file.now s.now) 0 meta.sections }
{
    let general = section_rule(file, 144, 16, 8, s[GENERAL]);
    let names = section_rule(file, 144, 9, 8, s[ID_NAMES]);
    let metrics = section_rule(file, 144, 15, 8, s[METRICS]);
    let contexts = section_rule(file, 144, 16, 8, s[CONTEXT]);
    let strings = section_rule(file, 144, 0, 1, s[STRINGS]);
    let modules = section_rule(file, 144, 14, 8, s[MODULES]);
    let files = section_rule(file, 144, 14, 8, s[FILES]);
    let functions = section_rule(file, 144, 14, 8, s[FUNCTIONS]);
    let last = contexts & (strings & (modules & (files & functions)));
    general & (names & (metrics & last))
}

// 6 and 7, of their headers. General and Strings have none to check.
fn meta_header_checks(file: &[u8], s: &[[u64; 2]; 8]) -> Result<(), Refusal>
    requires { in_order (section_check 144 file.now s.now) 0 meta.sections ≡ Passed }
    ensures { result ≡ in_order (header_check file.now s.now) 0 meta.sections }
{
    let names = names_header(file, s[ID_NAMES]);
    let metrics = metrics_header(file, s[METRICS]);
    let contexts = contexts_header(file, s[CONTEXT]);
    let modules = specs_header(file, 16, s[MODULES]);
    let files = specs_header(file, 16, s[FILES]);
    let functions = specs_header(file, 40, s[FUNCTIONS]);
    let last = modules.and(files.and(functions));
    names.and(metrics.and(contexts.and(last)))
}

// 5 to 7, each after those before it.
fn meta_rules(file: &[u8], s: &[[u64; 2]; 8]) -> Result<(), Refusal>
    ensures { result ≡ first (in_order (section_check 144 file.now s.now) 0 meta.sections) (in_order (header_check file.now s.now) 0 meta.sections) }
{
    if meta_section_rules(file, s) {
        return meta_header_checks(file, s);
    }
    Err(Refusal::Section)
}

fn profile_rules(file: &[u8], s: [[u64; 2]; 2]) -> Result<(), Refusal>
    ensures { result ≡ first (in_order (section_check 48 file.now s) 0 profile.sections) (in_order (header_check file.now s) 0 profile.sections) }
{
    let infos = section_rule(file, 48, 13, 8, s[INFOS]);
    let tuples = section_rule(file, 48, 0, 8, s[ID_TUPLES]);
    if infos & tuples {
        return infos_header(file, 40, s[INFOS]);
    }
    Err(Refusal::Section)
}

fn single_rules(file: &[u8], least: u64, s: [[u64; 2]; 1]) -> Result<(), Refusal>
    ensures { result ≡ first (in_order (section_check 32 file.now s) 0 (infos_section least ∷ [])) (in_order (header_check file.now s) 0 (infos_section least ∷ [])) }
{
    if section_rule(file, 32, 13, 8, s[INFOS]) {
        return infos_header(file, least, s[INFOS]);
    }
    Err(Refusal::Section)
}

// The opening rules of each file, with the places and sizes that its header has.
pub fn check_meta(file: &[u8], sections: &[[u64; 2]; 8]) -> Result<(), Refusal>
    ensures { result ≡ opening_with meta file.now sections.now }
{
    front(file, &META, &META_FOOTER, 144)?;
    meta_rules(file, sections)
}

pub fn check_profile(file: &[u8], sections: [[u64; 2]; 2]) -> Result<(), Refusal>
    ensures { result ≡ opening_with profile file.now sections }
{
    front(file, &PROFILE, &PROFILE_FOOTER, 48)?;
    profile_rules(file, sections)
}

pub fn check_cct(file: &[u8], sections: [[u64; 2]; 1]) -> Result<(), Refusal>
    ensures { result ≡ opening_with cct file.now sections }
{
    front(file, &CCT, &CCT_FOOTER, 32)?;
    single_rules(file, 32, sections)
}

// No footer is compared.
pub fn check_trace(file: &[u8], sections: [[u64; 2]; 1]) -> Result<(), Refusal>
    ensures { result ≡ opening_with trace file.now sections }
{
    head(file, &TRACE, 32)?;
    single_rules(file, 24, sections)
}

// The entry points: the sections of a file that opens.
// The first two are inlined, so that their pairs are not copied twice on their way to the caller.
#[inline(always)]
pub fn open_meta(file: &[u8]) -> Result<[[u64; 2]; 8], Refusal>
    ensures { result ≡ opened meta file.now }
{
    let sections = meta_sections(file);
    check_meta(file, &sections)?;
    Ok(sections)
}

#[inline(always)]
pub fn open_profile(file: &[u8]) -> Result<[[u64; 2]; 2], Refusal>
    ensures { result ≡ opened profile file.now }
{
    let sections = profile_sections(file);
    check_profile(file, sections)?;
    Ok(sections)
}

pub fn open_cct(file: &[u8]) -> Result<[[u64; 2]; 1], Refusal>
    ensures { result ≡ opened cct file.now }
{
    let sections = single_section(file);
    check_cct(file, sections)?;
    Ok(sections)
}

pub fn open_trace(file: &[u8]) -> Result<[[u64; 2]; 1], Refusal>
    ensures { result ≡ opened trace file.now }
{
    let sections = single_section(file);
    check_trace(file, sections)?;
    Ok(sections)
}
