// One context of meta.db: its rules, its fields.
#![tactic(auto)]

ghost use Rattle.std.specs.Prelude.{true, ◌≡◌, ◌+◌, ◌*◌, ◌≤◌, ◌<◌, length};
ghost use Rattle.le.specs.Number.{number};
ghost use Rattle.refusal.specs.Check.{either};
ghost use Rattle.open.specs.Format.{meta};
ghost use Rattle.open.specs.Kept.{Sections};
ghost use Rattle.flex.specs.Names as Flex;
ghost use Rattle.flex.specs.Packing.{is_present, place, words};
ghost use Rattle.context.specs.Context.{extent, context_rule, link_rule, links_rule, children_rule, targets_of};
ghost use Rattle.context.specs.Sound.{array_in_words, targets_in, Readable, WordsOf};

use array::Array;

// Offsets of a context's fields behind the size and place of its children, and the bytes before its flex words.
pub const CTX_ID: usize = 16;

const FLAGS: usize = 20;

const RELATION: usize = 21;

const LEXICAL_TYPE: usize = 22;

const FLEX_WORDS: usize = 23;

const FLEX: usize = 24;

// How many words a record has; the last is the parent's place.
pub const RECORD: usize = 12;

pub const PARENT: usize = 11;

// What the pointers of contexts may lead to, in words: place and size of the Context section; then place, count and stride of the
// functions, files and modules.
pub const TARGETS: usize = 11;

const SECTION: usize = 0;

const SECTION_SIZE: usize = 1;

const FUNCTIONS: usize = 2;

const FILES: usize = 5;

const MODULES: usize = 8;

pub fn targets_of(file: &[u8], sections: &[[u64; 2]; 8]) -> [u64; TARGETS]
    requires { Sections meta file.now sections.now }
    ensures { targets_in result ≡ targets_of file.now sections.now }
{
    let functions = array::of_specs(file, sections[open::FUNCTIONS][0]);
    let files = array::of_specs(file, sections[open::FILES][0]);
    let modules = array::of_specs(file, sections[open::MODULES][0]);
    [
        sections[open::CONTEXT][0],
        sections[open::CONTEXT][1],
        functions.place,
        functions.count,
        functions.stride,
        files.place,
        files.count,
        files.stride,
        modules.place,
        modules.count,
        modules.stride,
    ]
}

// The array in the words from k on.
fn array_in(targets: &[u64; TARGETS], k: usize) -> Array
    requires { k ≤ 8 }
    ensures { result ≡ array_in_words targets.now k }
{
    Array {
        place: targets[k],
        count: targets[k + 1],
        stride: targets[k + 2],
    }
}

// The bytes that a context takes.
pub fn extent(file: &[u8], p: usize) -> usize
    requires { p + 24 ≤ length file.now }
    ensures { result ≡ extent file.now p }
{
    FLEX + 8 * (le::load_u8(file, p + FLEX_WORDS) as usize)
}

// 10, of the context at `p` in an array that ends at `stop`.
pub fn context_rule(file: &[u8], p: usize, stop: usize) -> bool
    requires { (p ≤ stop) × (stop ≤ length file.now) }
    ensures { result ≡ context_rule file.now p stop }
{
    if stop - p < FLEX {
        return false;
    }
    let needed = flex::words(le::load_u8(file, p + FLAGS));
    let held = le::load_u8(file, p + FLEX_WORDS) as usize;
    (extent(file, p) <= stop - p) & (needed <= held)
}

// Flex field j, which is present, eight bytes wide.
fn present_word(file: &[u8], p: usize, flags: u8, j: u64) -> u64
    requires flags_in_bounds { p + 24 + 8 * words flags ≤ length file.now }
    requires j_value { is_present flags j ≡ true }
    ensures { result ≡ number 8 file.now (p + 24 + place flags j) }
{
    le::load_u64(file, p + FLEX + flex::place(flags, j))
}

// Flex field j; 0 where it is not present.
fn flex_word(file: &[u8], p: usize, flags: u8, present: bool, j: u64) -> u64
    requires flags_in_bounds { p + 24 + 8 * words flags ≤ length file.now }
    requires present_value { present ≡ is_present flags j }
    ensures { result ≡ either (is_present flags j) (number 8 file.now (p + 24 + place flags j)) 0 }
{
    if present {
        return present_word(file, p, flags, j);
    }
    0
}

// The line, four bytes wide.
fn line(file: &[u8], p: usize, flags: u8) -> u64
    requires { p + 24 + 8 * words flags ≤ length file.now }
    ensures { result ≡ either (is_present flags Flex.line) (number 4 file.now (p + 24 + place flags Flex.line)) 0 }
{
    if flex::has_source(flags) {
        return le::load_u32(file, p + FLEX + flex::place(flags, flex::LINE)) as u64;
    }
    0
}

// 9, of the link in flex field j.
fn link_rule(file: &[u8], p: usize, flags: u8, present: bool, j: u64, a: Array) -> bool
    requires flags_in_bounds { p + 24 + 8 * words flags ≤ length file.now }
    requires present_value { present ≡ is_present flags j }
    ensures { result ≡ link_rule (is_present flags j) a (either (is_present flags j) (number 8 file.now (p + 24 + place flags j)) 0) }
{
    if present {
        let link = present_word(file, p, flags, j);
        return (link != 0) & array::is_element(a, link);
    }
    true
}

// 9.
pub fn links_rule(file: &[u8], targets: &[u64; TARGETS], p: usize) -> bool
    requires { Readable file.now p }
    ensures { result ≡ links_rule (targets_in targets.now) file.now p }
{
    let flags = le::load_u8(file, p + FLAGS);
    let has_function = flex::has_function(flags);
    let has_source = flex::has_source(flags);
    let has_point = flex::has_point(flags);
    let functions = array_in(targets, FUNCTIONS);
    let files = array_in(targets, FILES);
    let modules = array_in(targets, MODULES);
    link_rule(file, p, flags, has_function, flex::FUNCTION, functions)
        & (link_rule(file, p, flags, has_source, flex::FILE, files)
            & link_rule(file, p, flags, has_point, flex::MODULE, modules))
}

// 7.
pub fn children_rule(file: &[u8], targets: &[u64; TARGETS], p: usize) -> bool
    requires { Readable file.now p }
    ensures { result ≡ children_rule (targets_in targets.now) file.now p }
{
    let bytes = le::load_u64(file, p);
    let place = le::load_u64(file, p + 8);
    open::contexts_rule(targets[SECTION], 16, targets[SECTION_SIZE], place, bytes)
}

// What is handed out of a context, with its depth and its parent's place.
pub fn entry_words(file: &[u8], p: usize, depth: u64, parent: u64) -> [u64; RECORD]
    requires { Readable file.now p }
    ensures { WordsOf file.now p depth parent result }
{
    let flags = le::load_u8(file, p + FLAGS);
    let has_source = flex::has_source(flags);
    let has_point = flex::has_point(flags);
    let function = flex_word(file, p, flags, flex::has_function(flags), flex::FUNCTION);
    let source = flex_word(file, p, flags, has_source, flex::FILE);
    let line = line(file, p, flags);
    let load_module = flex_word(file, p, flags, has_point, flex::MODULE);
    let offset = flex_word(file, p, flags, has_point, flex::OFFSET);
    let ctx_id = le::load_u32(file, p + CTX_ID) as u64;
    let relation = le::load_u8(file, p + RELATION) as u64;
    let lexical_type = le::load_u8(file, p + LEXICAL_TYPE) as u64;
    [
        p as u64,
        depth,
        ctx_id,
        relation,
        lexical_type,
        (flags % 8) as u64,
        function,
        source,
        line,
        load_module,
        offset,
        parent,
    ]
}
