// Prints walks of meta.db, as the listing program does. What is printed, no contract can say; what is answered and left in memory, they
// do.
#![tactic(auto)]

ghost use Rattle.std.specs.Prelude.{true, ◌≡◌, ℕ, ltb, length, IfOk, OnErr};
ghost use Rattle.traversal.specs.Walk.{number_listed, slices, Leaves};

use context::{PARENT, RECORD};
use std::io;
use traversal::Walked;

// The longest file that the listing program takes.
const LONGEST: usize = 32768;

// Place, depth, id, type, relation and parent of a context.
fn context(rt: &impl Print, record: &[u64; RECORD]) -> io::Result<()> {
    let [place, depth, id, relation, kind, ..] = *record;
    let parent = record[PARENT];
    println!(rt; "{place} {depth} {id} {kind} {relation} {parent}")
}

// The first n contexts, as far as their records are there.
fn contexts(rt: &impl Print, records: &[u64], n: usize) -> io::Result<()> {
    let (records, _) = records.as_chunks::<RECORD>();
    records
        .iter()
        .take(n)
        .try_for_each(|record| context(rt, record))
}

// How many contexts a walk listed.
fn listed(walked: Walked) -> usize
    ensures { result ≡ number_listed walked }
{
    match walked {
        Walked::Complete(n) | Walked::Truncated(n) | Walked::Refused(_, n) => n,
    }
}

fn end(rt: &impl Print, walked: Walked) -> io::Result<()> {
    match walked {
        Walked::Complete(n) => println!(rt; "whole {n}"),
        Walked::Truncated(n) => println!(rt; "cut {n}"),
        Walked::Refused(r, n) => println!(rt; "refused {} {n}", u32::from(r)),
    }
}

// Walks a file with these slices, prints a heading, each context whose record there is room for, and the end; gives the number listed.
// Where printing fails, the slices are as the walk left them.
pub fn show(
    rt: &impl Print,
    file: &[u8],
    listing: &mut [u64],
    table: &mut [u64],
    records: &mut [u64],
) -> io::Result<usize>
    ensures ok { IfOk result (λ n. Leaves number_listed file.now (slices listing.old table.old records.old)
        n (slices listing.new table.new records.new)) }
    ensures err { OnErr result ((n : ℕ) × Leaves number_listed file.now (slices listing.old table.old records.old)
        n (slices listing.new table.new records.new)) }
{
    let walked = walk::records(file, listing, table, records);
    println!(rt; "place depth id type relation parent")?;
    contexts(rt, records, listed(walked))?;
    end(rt, walked)?;
    Ok(listed(walked))
}

// Whether a file is too long for the listing program, which then says so. Only that can fail.
pub fn too_long(rt: &impl Print, file: &[u8]) -> io::Result<bool>
    ensures ok { IfOk result (λ b. b ≡ ltb 32768 (length file.now)) }
    ensures err { OnErr result (ltb 32768 (length file.now) ≡ true) }
{
    if LONGEST < file.len() {
        println!(rt; "too long")?;
        return Ok(true);
    }
    Ok(false)
}
