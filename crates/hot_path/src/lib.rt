// The hot path of two files: from the roots down, always to the child with the greatest value.
#![tactic(auto)]

ghost use Rattle.std.specs.Prelude.{true, List, ◌≡◌, ◌+◌, ◌≤◌, length, IfSome};
ghost use Rattle.float.specs.Float.{finite};
ghost use Rattle.refusal.specs.Check.{Passed};
ghost use Rattle.open.specs.Format as Format;
ghost use Rattle.open.specs.Opening.{opening};
ghost use Rattle.block.specs.Block.{profile_shape};
ghost use Rattle.block.specs.Sound.{SoundBlock};
ghost use Rattle.lookup.specs.Lookup.{profile_block};
ghost use Rattle.context.specs.Entry.{Entry};
ghost use Rattle.traversal.specs.Traversal.{depth_limit};
ghost use Rattle.traversal.specs.Children.{ArrayInside, roots_header, Children};
ghost use Rattle.hot_path.specs.HotPath.{hottest_of, hot_answer, path_after, question, path_slices, the_answer, LeavesPath};
ghost use Rattle.hot_path.specs.State.{block_value, candidates_at, descent_by, lead_with, descent_in, WordsFor};

use block::Block;
use context::CTX_ID;
use open::CONTEXT;
use refusal::Refusal;
use traversal::Walked;

// As many levels as a walk goes down.
const LEVELS: usize = 200;

// The first greatest of some contexts with a value, by its place and bits.
#[derive(Clone, Copy)]
pub struct Lead {
    pub place: u64,
    pub bits: u64,
}

// One context more.
fn lead_with(lead: Option<Lead>, place: u64, bits: u64) -> Option<Lead>
    requires lead_value { IfSome lead (λ t. finite t.bits ≡ true) }
    requires bits_value { finite bits ≡ true }
    ensures { result ≡ lead_with lead place bits }
{
    let Some(t) = lead else {
        return Some(Lead { place, bits });
    };
    let greater = f64::from_bits(t.bits) < f64::from_bits(bits);
    if greater {
        return Some(Lead { place, bits });
    }
    lead
}

// The hottest context of the array whose size and place stand at `at`. The hints, for the block's search, may be any numbers.
fn hottest_at(
    meta: &[u8],
    at: usize,
    db: &[u8],
    b: Block,
    metric: u64,
    index_hint: &mut u64,
    value_hint: &mut u64,
) -> Result<Option<u64>, Refusal>
    requires array_inside { ArrayInside meta.now at }
    requires sound_block { SoundBlock db.now profile_shape b }
    ensures { result ≡ hottest_of (candidates_at meta.now (block_value db.now b metric) at) }
{
    let h = block::profile_shape();
    let bytes = le::load_u64(meta, at) as usize;
    let mut p = le::load_u64(meta, at + 8) as usize;
    let stop = p + bytes;
    let mut lead = None;
    while p < stop {
        let id = le::load_u32(meta, p + CTX_ID) as u64;
        let found = block::find_near(db, h, b, id, metric, index_hint, value_hint);
        if let Some(bits) = found {
            if !float::is_finite(bits) {
                return Err(Refusal::NotFinite);
            }
            lead = lead_with(lead, p as u64, bits);
        }
        p += context::extent(meta, p);
    }
    let Some(t) = lead else {
        return Ok(None);
    };
    Ok(Some(t.place))
}

// The way down from the roots: the places go to the first words, and their number is the answer.
fn descend(
    meta: &[u8],
    roots: usize,
    db: &[u8],
    b: Block,
    metric: u64,
    places: &mut [u64],
) -> Result<usize, Refusal>
    requires roots_value { roots ≡ roots_header meta.now }
    requires depth_limit_in_bounds { depth_limit ≤ length places.old }
    requires children { (l : List Entry) × Children meta.now l }
    requires sound_block { SoundBlock db.now profile_shape b }
    ensures l_value { (l : List Entry) → Children meta.now l → descent_by db.now b metric l ≡ descent_in result places.new }
    ensures words_for { WordsFor result places.new }
{
    let mut index_hint = 0;
    let mut value_hint = 0;
    let mut at = roots;
    for n in 0..LEVELS {
        let hottest = hottest_at(meta, at, db, b, metric, &mut index_hint, &mut value_hint)?;
        let Some(place) = hottest else {
            return Ok(n);
        };
        places[n] = place;
        at = place as usize;
    }
    Ok(LEVELS)
}

// With a meta.db that was walked to its end, and a checked block of the profile: the path goes to the first words, if there is room.
fn write_path(
    meta: &[u8],
    db: &[u8],
    b: Block,
    metric: u64,
    path: &mut [u64],
) -> Result<u64, Refusal>
    requires children { (l : List Entry) × Children meta.now l }
    requires meta_value { opening Format.meta meta.now ≡ Passed }
    requires sound_block { SoundBlock db.now profile_shape b }
    ensures answer { (l : List Entry) → Children meta.now l → result ≡ hot_answer (length path.old) (descent_by db.now b metric l) }
    ensures words { (l : List Entry) → Children meta.now l → path.new ≡ path_after path.old (descent_by db.now b metric l) }
{
    let sections = open::meta_sections(meta);
    let mut places = [0u64; LEVELS];
    let roots = sections[CONTEXT][0] as usize;
    let n = descend(meta, roots, db, b, metric, &mut places)?;
    if path.len() < n {
        return Err(Refusal::Room);
    }
    buffer::store(path, 0, &places[..n]);
    Ok(n as u64)
}

// The path of a profile and metric: the walk's refusals, with 17 for a cut one; the profile's; 16; 17.
pub fn find(
    meta: &[u8],
    db: &[u8],
    profile: u64,
    metric: u64,
    listing: &mut [u64],
    table: &mut [u64],
    path: &mut [u64],
) -> Result<u64, Refusal>
    ensures { LeavesPath the_answer (question meta.now db.now profile metric)
        (path_slices listing.old table.old path.old)
        result (path_slices listing.new table.new path.new) }
{
    match resume::walk(meta, listing, table) {
        Walked::Complete(_) => {
            let b = lookup::profile_block(db, profile)?;
            write_path(meta, db, b, metric, path)
        }
        Walked::Truncated(_) => Err(Refusal::Room),
        Walked::Refused(r, _) => Err(r),
    }
}
