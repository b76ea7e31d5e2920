// One context of a walk: the checks of a visit, and its record.
#![tactic(auto)]

ghost use Rattle.std.specs.Prelude.{◌≡◌, length};
ghost use Rattle.context.specs.Sound.{targets_in, Readable};
ghost use Rattle.traversal.specs.Traversal.{slot_check};
ghost use Rattle.visit.specs.Visit.{taken, checks_after10, RecordPut};

use context::{CTX_ID, RECORD, TARGETS};
use refusal::Refusal;

const DEPTH_LIMIT: u64 = 200;

// 12, 13, 14.
fn slot_check(table: &[u64], depth: u64, id: usize) -> Result<(), Refusal>
    ensures { result ≡ slot_check depth id (length table.now) (taken table.now id) }
{
    if DEPTH_LIMIT < depth {
        return Err(Refusal::Deep);
    }
    if table.len() <= id {
        return Err(Refusal::Slot);
    }
    refusal::rule(table[id] == 0, Refusal::Twice)
}

// 9; 7; 12, 13, 14.
pub fn visit_check(
    file: &[u8],
    targets: &[u64; TARGETS],
    depth: u64,
    p: usize,
    table: &[u64],
) -> Result<(), Refusal>
    requires { Readable file.now p }
    ensures { result ≡ checks_after10 file.now (targets_in targets.now) depth p table.now }
{
    if !context::links_rule(file, targets, p) {
        return Err(Refusal::Link);
    }
    if !context::children_rule(file, targets, p) {
        return Err(Refusal::Array);
    }
    let id = le::load_u32(file, p + CTX_ID) as usize;
    slot_check(table, depth, id)
}

// The n-th record, where there is room for all of it.
pub fn put_record(file: &[u8], p: usize, depth: u64, parent: u64, records: &mut [u64], n: usize)
    requires { Readable file.now p }
    ensures { RecordPut file.now p depth parent n records.old records.new }
{
    if records.len() / RECORD <= n {
        return;
    }
    let words = context::entry_words(file, p, depth, parent);
    buffer::store(records, n * RECORD, &words);
}
