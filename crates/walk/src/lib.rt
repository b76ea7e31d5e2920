// The walk of a file's contexts: a context leads into its array of children, and an array into its contexts.
#![tactic(auto)]

ghost use Rattle.std.specs.Prelude.{true, [], ◌≡◌, suc, ◌+◌, ◌≤◌, ◌<◌, length};
ghost use Rattle.open.specs.Format.{meta};
ghost use Rattle.open.specs.Kept.{Sections};
ghost use Rattle.context.specs.Context.{context_rule};
ghost use Rattle.context.specs.Sound.{targets_in};
ghost use Rattle.traversal.specs.Traversal.{depth_limit};
ghost use Rattle.traversal.specs.Walk.{slices, Leaves, itself};
ghost use Rattle.walk.specs.State.{ArrayDoes, ContextDoes};

use context::{CTX_ID, TARGETS};
use open::CONTEXT;
use refusal::Refusal;
use traversal::Walked;

// The contexts from `at` to `stop`, at a depth, with all below them: children of the context at `parent`, which is 0 for the roots.
// `count` are listed before.
#[cycle(array_visit)]
fn array(
    file: &[u8],
    targets: &[u64; TARGETS],
    depth: u64,
    parent: u64,
    at: usize,
    stop: usize,
    listing: &mut [u64],
    table: &mut [u64],
    records: &mut [u64],
    count: usize,
) -> Walked
    requires { (0 < at) × (stop ≤ length file.now) × ((targets_in targets.now).at + (targets_in targets.now).size ≤ length file.now) × (depth ≤ suc depth_limit) }
    ensures { ArrayDoes file.now (targets_in targets.now) depth parent at stop count (slices listing.old table.old records.old)
        result (slices listing.new table.new records.new) }
{
    let mut p = at;
    let mut n = count;
    while p < stop {
        if !context::context_rule(file, p, stop) {
            return Walked::Refused(Refusal::Context, n);
        }
        let walked = visit(
            file, targets, depth, parent, p, stop, listing, table, records, n,
        );
        let Walked::Complete(k) = walked else {
            return walked;
        };
        n = k;
        p += context::extent(file, p);
    }
    Walked::Complete(n)
}

// The context at `p`, which ends by `stop`, with all below it.
#[cycle(array_visit)]
fn visit(
    file: &[u8],
    targets: &[u64; TARGETS],
    depth: u64,
    parent: u64,
    p: usize,
    stop: usize,
    listing: &mut [u64],
    table: &mut [u64],
    records: &mut [u64],
    n: usize,
) -> Walked
    requires { (0 < p) × (context_rule file.now p stop ≡ true) × (stop ≤ length file.now) × ((targets_in targets.now).at + (targets_in targets.now).size ≤ length file.now) × (depth ≤ suc depth_limit) }
    ensures { ContextDoes file.now (targets_in targets.now) depth parent p stop n (slices listing.old table.old records.old)
        result (slices listing.new table.new records.new) }
{
    let check = visit::visit_check(file, targets, depth, p, table);
    if let Err(r) = check {
        return Walked::Refused(r, n);
    }
    if listing.len() <= n {
        return Walked::Truncated(n);
    }
    let id = le::load_u32(file, p + CTX_ID) as usize;
    listing[n] = p as u64;
    table[id] = p as u64;
    visit::put_record(file, p, depth, parent, records, n);
    let bytes = le::load_u64(file, p) as usize;
    if bytes == 0 {
        return Walked::Complete(n + 1);
    }
    let place = le::load_u64(file, p + 8) as usize;
    let end = place + bytes;
    array(
        file,
        targets,
        depth + 1,
        p as u64,
        place,
        end,
        listing,
        table,
        records,
        n + 1,
    )
}

// Of an opened file.
fn walk_in(
    file: &[u8],
    sections: &[[u64; 2]; 8],
    listing: &mut [u64],
    table: &mut [u64],
    records: &mut [u64],
) -> Walked
    requires { Sections meta file.now sections.now }
    ensures { Leaves itself file.now (slices listing.old table.old records.old)
        result (slices listing.new table.new records.new) }
{
    let targets = context::targets_of(file, sections);
    let at = sections[CONTEXT][0];
    let bytes = le::u64_at(file, at, 0) as usize;
    let place = le::u64_at(file, at, 8) as usize;
    buffer::clear(table);
    if bytes == 0 {
        return Walked::Complete(0);
    }
    let end = place + bytes;
    array(file, &targets, 1, 0, place, end, listing, table, records, 0)
}

// The entry point with records: words of the listed contexts, as far as there is room for whole ones.
pub fn records(file: &[u8], listing: &mut [u64], table: &mut [u64], records: &mut [u64]) -> Walked
    ensures { Leaves itself file.now (slices listing.old table.old records.old)
        result (slices listing.new table.new records.new) }
{
    match open::open_meta(file) {
        Ok(sections) => walk_in(file, &sections, listing, table, records),
        Err(r) => Walked::Refused(r, 0),
    }
}

// The walk alone.
pub fn walk(file: &[u8], listing: &mut [u64], table: &mut [u64]) -> Walked
    ensures { Leaves itself file.now (slices listing.old table.old []) result (slices listing.new table.new []) }
{
    let mut none = [0u64; 1];
    records(file, listing, table, &mut none)
}
