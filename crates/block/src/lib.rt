// Sparse blocks of profile.db and cct.db: validated in one pass, searched by halving.
#![tactic(auto)]

ghost use Rattle.std.specs.Prelude.{true, [], ◌∷◌, ◌≡◌, ℕ, ◌+◌, ◌*◌, ◌-◌, ◌≤◌, ◌<◌, length, Some};
ghost use Rattle.le.specs.Number.{number};
ghost use Rattle.seq.specs.Sequence.{rises, position, Sorted, Window};
ghost use Rattle.block.specs.Block.{profile_shape, cct_shape, block_at, id_at, word_at, range_rule, start_of, end_of, order_rule, block_check, index_of, in_part, lookup_in, part_at};
ghost use Rattle.block.specs.Sound.{IdWidth, Widths, ElementsInside, ArraysInside, SoundBlock, SoundPart};
ghost use Rattle.block.specs.OnePass.{part_rule};

use refusal::Refusal;

// A hint that is past every array.
const NO_HINT: u64 = 0xffff_ffff_ffff_ffff;

// Bytes of outer and inner ids, the least inner id, and where the file's header ends.
#[derive(Clone, Copy)]
pub struct Shape {
    pub outer: u64,
    pub inner: u64,
    pub least: u64,
    pub header: u64,
}

// Numbers of values and indices, and where they stand, as the file has them.
#[derive(Clone, Copy)]
pub struct Block {
    pub total: u64,
    pub values: u64,
    pub count: u64,
    pub indices: u64,
}

// The values of a sub-array.
#[derive(Clone, Copy)]
pub struct Part {
    pub place: u64,
    pub length: u64,
}

pub fn profile_shape() -> Shape
    ensures { result ≡ profile_shape }
{
    Shape {
        outer: 4,
        inner: 2,
        least: 0,
        header: 48,
    }
}

pub fn cct_shape() -> Shape
    ensures { result ≡ cct_shape }
{
    Shape {
        outer: 2,
        inner: 4,
        least: 1,
        header: 32,
    }
}

// The block whose header stands at a place.
pub fn block_at(file: &[u8], h: Shape, at: u64) -> Block
    requires { Widths h }
    ensures { result ≡ block_at file.now h at }
{
    let total = le::u64_at(file, at, 0);
    let values = le::u64_at(file, at, 8);
    let indices = le::u64_at(file, at, 24);
    let count = count_at(file, h.outer, at);
    Block {
        total,
        values,
        count,
        indices,
    }
}

// The number of indices.
fn count_at(file: &[u8], w: u64, at: u64) -> u64
    requires { IdWidth w }
    ensures { result ≡ number w file.now (at + 16) }
{
    if w == 2 {
        le::u16_at(file, at, 16) as u64
    } else {
        le::u32_at(file, at, 16) as u64
    }
}

// 7, in a file with these sections. Where there is one, the other has size 0.
fn range_rule(file: &[u8], h: Shape, one: [u64; 2], other: [u64; 2], b: Block) -> bool
    requires { Widths h }
    ensures { result ≡ range_rule file.now h (one ∷ other ∷ []) b }
{
    let value = h.inner + 8;
    let index = h.outer + 8;
    let aligned = range::multiple(b.values, 2) & range::multiple(b.indices, 4);
    let values = outside::lies(file, h.header, one, other, b.values, b.total, value);
    let indices = outside::lies(file, h.header, one, other, b.indices, b.count, index);
    let ordered = range::ends_by(b.values, b.total, value, b.indices);
    aligned & ((values & indices) & (ordered & (1 <= b.total)))
}

// The place of element k of an array of n.
fn element(file: &[u8], at: u64, w: u64, n: u64, k: u64) -> usize
    requires elements_inside { ElementsInside file.now at w n }
    requires k_lt_n { k < n }
    ensures value { result ≡ at + k * (w + 8) }
    ensures w_in_bounds { result + (w + 8) ≤ length file.now }
{
    (at + k * (w + 8)) as usize
}

// Its id, and its word.
pub fn id_at(file: &[u8], at: u64, w: u64, n: u64, k: u64) -> u64
    requires elements_inside { ElementsInside file.now at w n }
    requires k_lt_n { k < n }
    ensures value { result ≡ id_at w file.now at k }
    ensures upper_bound { result < 4294967296 }
{
    let p = element(file, at, w, n, k);
    if w == 2 {
        le::load_u16(file, p) as u64
    } else {
        le::load_u32(file, p) as u64
    }
}

pub fn word_at(file: &[u8], at: u64, w: u64, n: u64, k: u64) -> u64
    requires elements_inside { ElementsInside file.now at w n }
    requires k_lt_n { k < n }
    ensures { result ≡ word_at w file.now at k }
{
    le::load_u64(file, element(file, at, w, n, k) + w as usize)
}

// Whether n ids are at least `least` and increase.
fn ids_rise(file: &[u8], at: u64, w: u64, n: u64, least: u64) -> bool
    requires { ElementsInside file.now at w n }
    ensures { result ≡ rises least 1 (id_at w file.now at) n }
{
    let id = |k|
        requires elements_inside { ElementsInside file.now at w n }
        requires k_lt_n { k < n }
        ensures { result ≡ id_at w file.entry.now at k }
    { id_at(file, at, w, n, k) };
    seq::rises(id, n, least, 1)
}

// Where sub-array i starts, and where it ends, in a block whose outer ids have w bytes.
fn start_of(file: &[u8], w: u64, b: Block, i: u64) -> u64
    requires elements_inside { ElementsInside file.now b.indices w b.count }
    requires i_lt_count { i < b.count }
    ensures { (h : Shape) → h.outer ≡ w → result ≡ start_of file.now h b i }
{
    word_at(file, b.indices, w, b.count, i)
}

fn end_of(file: &[u8], w: u64, b: Block, i: u64) -> u64
    requires elements_inside { ElementsInside file.now b.indices w b.count }
    requires i_lt_count { i < b.count }
    ensures { (h : Shape) → h.outer ≡ w → result ≡ end_of file.now h b i }
{
    if i + 1 < b.count {
        start_of(file, w, b, i + 1)
    } else {
        b.total
    }
}

// Whether a sub-array from a start to an end has values, ends within them all, and its ids, of w bytes, increase from the least on.
fn part_rule(file: &[u8], w: u64, least: u64, b: Block, start: u64, end: u64) -> bool
    requires { ElementsInside file.now b.values w b.total }
    ensures { (h : Shape) (i : ℕ) → h.inner ≡ w → h.least ≡ least → start ≡ start_of file.now h b i → end ≡ end_of file.now h b i
        → result ≡ part_rule file.now h b i }
{
    if end <= start {
        return false;
    }
    if b.total < end {
        return false;
    }
    let at = element(file, b.values, w, b.total, start) as u64;
    ids_rise(file, at, w, end - start, least)
}

// Whether a block with ids of these widths keeps 11, in one pass. Where one sub-array ends, the next starts.
// Not inlined: inside a caller its loop runs short of registers.
#[inline(never)]
fn keeps_order<const OUTER: u64, const INNER: u64>(file: &[u8], least: u64, b: Block) -> bool
    requires indices { ElementsInside file.now b.indices OUTER b.count }
    requires values { ElementsInside file.now b.values INNER b.total }
    requires some_index { 0 < b.count }
    ensures { (h : Shape) → h.outer ≡ OUTER → h.inner ≡ INNER → h.least ≡ least → result ≡ order_rule file.now h b }
{
    if start_of(file, OUTER, b, 0) != 0 {
        return false;
    }
    let n = b.count;
    let mut low = 0;
    let mut start = 0;
    for i in 0..n {
        let id = id_at(file, b.indices, OUTER, n, i);
        if id < low {
            return false;
        }
        let end = end_of(file, OUTER, b, i);
        if !part_rule(file, INNER, least, b, start, end) {
            return false;
        }
        low = id + 1;
        start = end;
    }
    true
}

// 11. Each pair of widths is a loop of its own, whose strides are constants.
fn order_rule(file: &[u8], h: Shape, b: Block) -> bool
    requires { ArraysInside file.now h b }
    ensures { result ≡ order_rule file.now h b }
{
    match (h.outer, h.inner) {
        (2, 2) => keeps_order::<2, 2>(file, h.least, b),
        (2, _) => keeps_order::<2, 4>(file, h.least, b),
        (_, 2) => keeps_order::<4, 2>(file, h.least, b),
        _ => keeps_order::<4, 4>(file, h.least, b),
    }
}

// 7, then 11. Where the file has one section, the other has size 0.
pub fn check(file: &[u8], h: Shape, one: [u64; 2], other: [u64; 2], b: Block) -> Result<(), Refusal>
    requires { Widths h }
    ensures { result ≡ block_check file.now h (one ∷ other ∷ []) b }
{
    if b.count == 0 {
        return refusal::rule(b.total == 0, Refusal::Array);
    }
    if !range_rule(file, h, one, other, b) {
        return Err(Refusal::Array);
    }
    refusal::rule(order_rule(file, h, b), Refusal::Order)
}

// `half` if an id is below a key, and else 0. The quotient is 1 or 0: no branch decides, since none could be foretold.
fn skipped(id: u64, key: u64, half: u64) -> u64
    requires id_bound { id < 4294967296 }
    requires key_bound { key < 4294967296 }
    ensures { (id < key → result ≡ half) × (key ≤ id → result ≡ 0) }
{
    half * ((key + 0xffff_ffff - id) / 0x1_0000_0000)
}

// Where a key is among n ids: if anywhere, among `count` from a place on, which are halved until one is left.
fn halve(file: &[u8], at: u64, w: u64, n: u64, key: u64, from: u64, count: u64) -> Option<u64>
    requires elements_inside { ElementsInside file.now at w n }
    requires sorted { Sorted (id_at w file.now at) n }
    requires key_bound { key < 4294967296 }
    requires window { Window (id_at w file.now at) n key from count }
    ensures { result ≡ position (id_at w file.now at) key n }
{
    let mut low = from;
    let mut left = count;
    while 1 < left {
        let half = left / 2;
        let id = id_at(file, at, w, n, low + half - 1);
        low += skipped(id, key, half);
        left -= half;
    }
    if id_at(file, at, w, n, low) == key {
        Some(low)
    } else {
        None
    }
}

// The same. Each width is a loop of its own, whose stride is a constant.
fn narrow(file: &[u8], at: u64, w: u64, n: u64, key: u64, from: u64, count: u64) -> Option<u64>
    requires elements_inside { ElementsInside file.now at w n }
    requires sorted { Sorted (id_at w file.now at) n }
    requires key_bound { key < 4294967296 }
    requires window { Window (id_at w file.now at) n key from count }
    ensures { result ≡ position (id_at w file.now at) key n }
{
    if w == 2 {
        return halve(file, at, 2, n, key, from, count);
    }
    halve(file, at, 4, n, key, from, count)
}

// Whether a key is where a hint says.
fn is_at(file: &[u8], at: u64, w: u64, n: u64, key: u64, hint: u64) -> bool
    requires { ElementsInside file.now at w n }
    ensures { result ≡ true → (hint < n) × (id_at w file.now at hint ≡ key) }
{
    if n <= hint {
        return false;
    }
    id_at(file, at, w, n, hint) == key
}

// Whether it is, if anywhere, among the eight ids from there on.
fn is_near(file: &[u8], at: u64, w: u64, n: u64, key: u64, hint: u64) -> bool
    requires elements_inside { ElementsInside file.now at w n }
    requires sorted { Sorted (id_at w file.now at) n }
    ensures { result ≡ true → (key < 4294967296) × Window (id_at w file.now at) n key hint 8 }
{
    if n <= hint {
        return false;
    }
    if n - hint <= 8 {
        return false;
    }
    let first = id_at(file, at, w, n, hint);
    let last = id_at(file, at, w, n, hint + 8);
    (first <= key) & (key < last)
}

// Where a key is among n ids. The hint, where it may be, can be any number, and changes only how long it takes.
fn search(file: &[u8], at: u64, w: u64, n: u64, key: u64, hint: u64) -> Option<u64>
    requires elements_inside { ElementsInside file.now at w n }
    requires sorted { Sorted (id_at w file.now at) n }
    ensures { result ≡ position (id_at w file.now at) key n }
{
    if is_at(file, at, w, n, key, hint) {
        return Some(hint);
    }
    if is_near(file, at, w, n, key, hint) {
        return narrow(file, at, w, n, key, hint, 8);
    }
    if (n == 0) | (0xffff_ffff < key) {
        return None;
    }
    narrow(file, at, w, n, key, 0, n)
}

// Where the index of an outer id is, with a hint.
fn index_near(file: &[u8], h: Shape, b: Block, outer: u64, hint: u64) -> Option<u64>
    requires { SoundBlock file.now h b }
    ensures { result ≡ index_of file.now h b outer }
{
    if b.count == 0 {
        return None;
    }
    search(file, b.indices, h.outer, b.count, outer, hint)
}

// The same without one.
pub fn index_of(file: &[u8], h: Shape, b: Block, outer: u64) -> Option<u64>
    requires { SoundBlock file.now h b }
    ensures { result ≡ index_of file.now h b outer }
{
    index_near(file, h, b, outer, NO_HINT)
}

// Sub-array i.
pub fn part_at(file: &[u8], h: Shape, b: Block, i: u64) -> Part
    requires sound_block { SoundBlock file.now h b }
    requires i_lt_count { i < b.count }
    ensures value { result ≡ part_at file.now h b i }
    ensures sound_part { SoundPart file.now h result }
{
    let start = start_of(file, h.outer, b, i);
    let length = end_of(file, h.outer, b, i) - start;
    let place = element(file, b.values, h.inner, b.total, start) as u64;
    Part { place, length }
}

// What sub-array i holds of an inner id. The hint is set to where it was.
fn find_in(file: &[u8], h: Shape, b: Block, i: u64, inner: u64, hint: &mut u64) -> Option<u64>
    requires sound_block { SoundBlock file.now h b }
    requires i_lt_count { i < b.count }
    ensures { result ≡ in_part file.now h b inner (Some i) }
{
    let part = part_at(file, h, b, i);
    let k = search(file, part.place, h.inner, part.length, inner, *hint)?;
    *hint = k;
    Some(word_at(file, part.place, h.inner, part.length, k))
}

// What a checked block holds of two ids. The hints, where the index and the value may be, can be any numbers; they are set to where
// those were, for the next question.
pub fn find_near(
    file: &[u8],
    h: Shape,
    b: Block,
    outer: u64,
    inner: u64,
    index: &mut u64,
    value: &mut u64,
) -> Option<u64>
    requires { SoundBlock file.now h b }
    ensures { result ≡ lookup_in file.now h b outer inner }
{
    let i = index_near(file, h, b, outer, *index)?;
    if i != *index {
        *value = NO_HINT;
    }
    *index = i;
    find_in(file, h, b, i, inner, value)
}

// The same of one question alone.
pub fn find(file: &[u8], h: Shape, b: Block, outer: u64, inner: u64) -> Option<u64>
    requires { SoundBlock file.now h b }
    ensures { result ≡ lookup_in file.now h b outer inner }
{
    let mut index = NO_HINT;
    let mut value = NO_HINT;
    find_near(file, h, b, outer, inner, &mut index, &mut value)
}
