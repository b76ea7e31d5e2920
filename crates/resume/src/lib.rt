// Walks, from a mark on or from the first root: a loop that keeps its way down in words, by which it comes back up, and which gives a
// record its parent and the new mark its numbers. What is counted on the way are the marks passed from the given one on, itself among them, so
// that 0 says that it is not passed yet; the numbers in the answers of `visit_answer`, `contexts` and `walk_in` are these.
#![tactic(auto)]

ghost use Rattle.std.specs.Prelude.{true, ◌||◌, not, [], ◌≡◌, suc, ◌+◌, ◌≤◌, ◌<◌, eqb, leb, length, set, replicate};
ghost use Rattle.refusal.specs.Check.{either};
ghost use Rattle.open.specs.Format.{meta};
ghost use Rattle.open.specs.Kept.{Sections};
ghost use Rattle.open.specs.Opening.{field};
ghost use Rattle.context.specs.Context.{ctx_id};
ghost use Rattle.context.specs.Sound.{targets_in, Readable};
ghost use Rattle.mark.specs.Mark.{mark_room, decode, is_named, path_in};
ghost use Rattle.traversal.specs.Walk.{slices, slices_with_mark, marks_with, LeavesFrom, Leaves, itself};
ghost use Rattle.resume.specs.Way.{end_below, parent_below, back_to, on_from, Lies, LiesBelow, NumberOf, Leads, MarkPut};
ghost use Rattle.resume.specs.State.{RootsDone, AllDone, visit_answer, progress_more, listing_more, RecordMore, marks_in, answer_of};

use context::{CTX_ID, TARGETS};
use open::CONTEXT;
use refusal::Refusal;
use seek::Seek;
use traversal::Walked;

// The depth of the last context visited, and a place for each level.
const WAY: usize = 201;

// A place of the walk: below `up` contexts of the way, at `p` in an array that ends at `end`.
#[derive(Clone, Copy)]
struct Cursor {
    up: usize,
    p: usize,
    end: usize,
}

// Whether the walk goes on to list or pass the context there: Complete, or how it ends.
fn visit_answer(
    file: &[u8],
    targets: &[u64; TARGETS],
    here: Cursor,
    table: &[u64],
    words: usize,
    k: usize,
) -> Walked
    requires { (here.up < 201) × (here.p ≤ here.end) × (here.end ≤ length file.now) }
    ensures { result ≡ visit_answer file.now (targets_in targets.now) here table.now words k }
{
    if !context::context_rule(file, here.p, here.end) {
        return Walked::Refused(Refusal::Context, k);
    }
    let depth = here.up as u64 + 1;
    let check = visit::visit_check(file, targets, depth, here.p, table);
    if let Err(r) = check {
        return Walked::Refused(r, k);
    }
    if words < k {
        return Walked::Truncated(k);
    }
    Walked::Complete(k)
}

// The context there has its slot, and the way leads to it.
fn store_visit(file: &[u8], here: Cursor, table: &mut [u64], way: &mut [u64; WAY])
    requires p_in_bounds { here.p + 24 ≤ length file.now }
    requires ctx_id_in_bounds { (field file.now here.p ctx_id < length table.old) × (here.up < 200) }
    ensures table_after { table.new ≡ set table.old (field file.now here.p ctx_id) here.p }
    ensures way_after { way.new ≡ set (set way.old 0 (here.up + 1)) (here.up + 1) here.p }
{
    let id = le::load_u32(file, here.p + CTX_ID) as usize;
    let depth = here.up + 1;
    table[id] = here.p as u64;
    way[0] = depth as u64;
    way[depth] = here.p as u64;
}

// How many marks are passed, and while there are none, how far the given one is found.
#[derive(Clone, Copy)]
struct Progress {
    marks: usize,
    seek: Seek,
}

// The parent of the contexts that lie below `up` contexts of the way: the last of these; the roots have none.
fn parent_of(way: &[u64; WAY], up: usize) -> u64
    requires { up < 201 }
    ensures { result ≡ parent_below way.now up }
{
    if up == 0 { 0 } else { way[up] }
}

// The context there is listed if the mark is passed, and else it is passed over.
fn list_or_pass(
    file: &[u8],
    mark: &[u8],
    way: &[u64; WAY],
    here: Cursor,
    listing: &mut [u64],
    records: &mut [u64],
    so_far: Progress,
) -> Progress
    requires readable { Readable file.now here.p × (here.up < 200) }
    requires mark_value { is_named (decode mark.now) ≡ true }
    requires so_far_in_bounds { so_far.marks ≤ length listing.old }
    requires so_far_in_bounds_2 { so_far.marks ≡ 0 → so_far.seek.matched < length (path_in (decode mark.now)) }
    ensures value { result ≡ progress_more (path_in (decode mark.now)) so_far.marks so_far.seek here.up }
    ensures listing_after { listing.new ≡ listing_more so_far.marks here.p listing.old }
    ensures record_more { RecordMore file.now here.p (here.up + 1) (parent_below way.now here.up) so_far.marks records.old records.new }
{
    let k = so_far.marks;
    let seek = so_far.seek;
    if k == 0 {
        let next = seek::step(mark, seek, here.up);
        let found = next.matched == mark::depth(mark);
        return Progress {
            marks: if found { 1 } else { 0 },
            seek: next,
        };
    }
    listing[k - 1] = here.p as u64;
    let depth = here.up as u64 + 1;
    let parent = parent_of(way, here.up);
    visit::put_record(file, here.p, depth, parent, records, k - 1);
    Progress { marks: k + 1, seek }
}

// Where the array ends that lies below `up` contexts of the way.
fn end_of(file: &[u8], stop: usize, way: &[u64; WAY], up: usize) -> usize
    requires up_bound { up < 201 }
    requires lies_below { LiesBelow file.now way.now up }
    ensures { result ≡ end_below file.now stop way.now up }
{
    if up == 0 {
        return stop;
    }
    let q = way[up] as usize;
    le::load_u64(file, q + 8) as usize + le::load_u64(file, q) as usize
}

// Back up: behind the context on the way below `up` others, in its array.
fn back_to(file: &[u8], stop: usize, way: &[u64; WAY], up: usize) -> Cursor
    requires up_bound { up + 1 < 201 }
    requires lies_below { LiesBelow file.now way.now up }
    requires lies_below_2 { LiesBelow file.now way.now (suc up) }
    ensures { result ≡ back_to file.now stop way.now up }
{
    let q = way[up + 1] as usize;
    Cursor {
        up,
        p: q + context::extent(file, q),
        end: end_of(file, stop, way, up),
    }
}

// On from the context there: into its children, or behind it where it has none.
fn on_from(file: &[u8], here: Cursor) -> Cursor
    requires up_bound { here.up < 201 }
    requires lies { Lies file.now here.p }
    ensures { result ≡ on_from file.now here }
{
    let bytes = le::load_u64(file, here.p) as usize;
    if bytes == 0 {
        return Cursor {
            up: here.up,
            p: here.p + context::extent(file, here.p),
            end: here.end,
        };
    }
    let place = le::load_u64(file, here.p + 8) as usize;
    Cursor {
        up: here.up + 1,
        p: place,
        end: place + bytes,
    }
}

// Depth 0 is passed before the first context.
fn first_mark(marked: usize) -> usize
    ensures { result ≡ either (eqb marked 0) 1 0 }
{
    if marked == 0 { 1 } else { 0 }
}

// The contexts from `at` to `stop`, the roots, with all below them.
fn contexts(
    file: &[u8],
    targets: &[u64; TARGETS],
    mark: &[u8],
    at: usize,
    stop: usize,
    listing: &mut [u64],
    table: &mut [u64],
    records: &mut [u64],
    way: &mut [u64; WAY],
) -> Walked
    requires at_nonzero { (0 < at) × (stop ≤ length file.now) × ((targets_in targets.now).at + (targets_in targets.now).size ≤ length file.now) }
    requires mark_value { is_named (decode mark.now) ≡ true }
    requires table_value { (table.old ≡ replicate (length table.old) 0) × (way.old ≡ replicate 201 0) }
    ensures { RootsDone file.now (targets_in targets.now) (path_in (decode mark.now)) at stop (slices listing.old table.old records.old)
        result (slices listing.new table.new records.new) way.new }
{
    let mut here = Cursor {
        up: 0,
        p: at,
        end: stop,
    };
    let mut so_far = Progress {
        marks: first_mark(mark::depth(mark)),
        seek: Seek {
            matched: 0,
            seen: 0,
        },
    };
    loop {
        if here.p < here.end {
            let goes = visit_answer(file, targets, here, table, listing.len(), so_far.marks);
            let Walked::Complete(_) = goes else {
                return goes;
            };
            store_visit(file, here, table, way);
            so_far = list_or_pass(file, mark, way, here, listing, records, so_far);
            here = on_from(file, here);
        } else {
            if here.up == 0 {
                return Walked::Complete(so_far.marks);
            }
            here = back_to(file, stop, way, here.up - 1);
        }
    }
}

// Of an opened file.
fn walk_in(
    file: &[u8],
    sections: &[[u64; 2]; 8],
    mark: &[u8],
    listing: &mut [u64],
    table: &mut [u64],
    records: &mut [u64],
    way: &mut [u64; WAY],
) -> Walked
    requires sections { Sections meta file.now sections.now }
    requires mark_value { is_named (decode mark.now) ≡ true }
    requires way_value { way.old ≡ replicate 201 0 }
    ensures { AllDone file.now sections.now (path_in (decode mark.now)) (slices listing.old table.old records.old)
        result (slices listing.new table.new records.new) way.new }
{
    let targets = context::targets_of(file, sections);
    let at = sections[CONTEXT][0] as usize;
    let bytes = le::load_u64(file, at) as usize;
    let place = le::load_u64(file, at + 8) as usize;
    buffer::clear(table);
    if bytes == 0 {
        return Walked::Complete(first_mark(mark::depth(mark)));
    }
    let end = place + bytes;
    contexts(
        file, &targets, mark, place, end, listing, table, records, way,
    )
}

// The number among its siblings of the context at `p`, in an array that starts at `start`.
fn number_of(file: &[u8], start: usize, p: usize) -> u64
    requires { p + 24 ≤ length file.now }
    ensures { NumberOf file.now start p result }
{
    let mut q = start;
    let mut n: u64 = 0;
    while q < p {
        q += context::extent(file, q);
        n += 1;
    }
    n
}

// The mark of the context that the way leads to, from the roots at `start` on.
fn put_mark(file: &[u8], start: usize, way: &[u64; WAY], out: &mut [u8])
    requires leads { Leads file.now start way.now }
    requires mark_room_in_bounds { mark_room ≤ length out.old }
    ensures { MarkPut file.now start way.now out.old out.new }
{
    let depth = way[0] as usize;
    mark::put_head(out, depth);
    let mut from = start;
    for d in 0..depth {
        let p = way[d + 1] as usize;
        let n = number_of(file, from, p);
        mark::put_number(out, d, (n % 0x1_0000_0000) as u32);
        from = le::load_u64(file, p + 8) as usize;
    }
}

fn marks_in(walked: Walked) -> usize
    ensures { result ≡ marks_in walked }
{
    match walked {
        Walked::Complete(k) => k,
        Walked::Truncated(k) => k,
        Walked::Refused(_, k) => k,
    }
}

// The answer, with the contexts listed; where the mark was not passed, 18 or the refusal that came first.
fn answer_of(walked: Walked) -> Walked
    ensures { result ≡ answer_of walked }
{
    let k = marks_in(walked);
    let n = if k == 0 { 0 } else { k - 1 };
    match walked {
        Walked::Complete(_) => {
            if k == 0 {
                return Walked::Refused(Refusal::Mark, 0);
            }
            Walked::Complete(n)
        }
        Walked::Truncated(_) => Walked::Truncated(n),
        Walked::Refused(r, _) => Walked::Refused(r, n),
    }
}

// Of an opened file from a mark that is well formed, with room for a new one where it is asked for.
fn walk_opened(
    file: &[u8],
    sections: &[[u64; 2]; 8],
    mark: &[u8],
    asks: bool,
    listing: &mut [u64],
    table: &mut [u64],
    records: &mut [u64],
    new_mark: &mut [u8],
) -> Walked
    requires sections { Sections meta file.now sections.now }
    requires mark_value { is_named (decode mark.now) ≡ true }
    requires new_mark_value { not asks || leb mark_room (length new_mark.old) ≡ true }
    ensures { LeavesFrom itself file.now (marks_with mark.now asks)
        (slices_with_mark listing.old table.old records.old new_mark.old)
        result (slices_with_mark listing.new table.new records.new new_mark.new) }
{
    let mut way = [0u64; WAY];
    let walked = walk_in(file, sections, mark, listing, table, records, &mut way);
    let k = marks_in(walked);
    if k == 0 {
        buffer::clear(table);
        return answer_of(walked);
    }
    if asks {
        let at = sections[CONTEXT][0] as usize;
        let start = le::load_u64(file, at + 8) as usize;
        put_mark(file, start, &way, new_mark);
        return answer_of(walked);
    }
    answer_of(walked)
}

// From a mark on, with records; and the mark of the last context listed, where it is asked for.
pub fn walk_from(
    file: &[u8],
    mark: &[u8],
    asks: bool,
    listing: &mut [u64],
    table: &mut [u64],
    records: &mut [u64],
    new_mark: &mut [u8],
) -> Walked
    ensures { LeavesFrom itself file.now (marks_with mark.now asks)
        (slices_with_mark listing.old table.old records.old new_mark.old)
        result (slices_with_mark listing.new table.new records.new new_mark.new) }
{
    if asks & (new_mark.len() < mark::ROOM) {
        return Walked::Refused(Refusal::Room, 0);
    }
    let sections = match open::open_meta(file) {
        Ok(sections) => sections,
        Err(r) => return Walked::Refused(r, 0),
    };
    if !mark::well_formed(mark) {
        return Walked::Refused(Refusal::Mark, 0);
    }
    walk_opened(
        file, &sections, mark, asks, listing, table, records, new_mark,
    )
}

// From no mark, and without a new one.
pub fn records(file: &[u8], listing: &mut [u64], table: &mut [u64], records: &mut [u64]) -> Walked
    ensures { Leaves itself file.now (slices listing.old table.old records.old)
        result (slices listing.new table.new records.new) }
{
    let mut no_mark = [0u8; 1];
    walk_from(file, b"", false, listing, table, records, &mut no_mark)
}

// And without records.
pub fn walk(file: &[u8], listing: &mut [u64], table: &mut [u64]) -> Walked
    ensures { Leaves itself file.now (slices listing.old table.old []) result (slices listing.new table.new []) }
{
    let mut none = [0u64; 1];
    records(file, listing, table, &mut none)
}
