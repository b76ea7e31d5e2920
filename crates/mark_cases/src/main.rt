// Goes on with walks of meta.db from marks, as each line of `list` says. Prints the line, the answer, every word of the listing, the table
// and the records, and the bytes lent for a new mark, up to the last that is not as it was.
#![tactic(auto)]

ghost use Rattle.std.specs.Prelude.{◌≡◌, ◌≤◌, length, take};

use script::{Hexadecimal, Spaced};
use std::io;
use std::rt::Files;
use traversal::Walked;

// What lent words and bytes hold before a walk; no mark of these files ends with such a byte.
const BEFORE: u64 = 7;

const BYTE_BEFORE: u8 = 255;

// The most words and bytes that are lent of each.
const MOST: usize = 1024;

// The bytes up to the last that is not as it was.
fn changed(bytes: &[u8]) -> &[u8]
    ensures bound { length result.now ≤ length bytes.now }
    ensures part { result.now ≡ take (length result.now) bytes.now }
{
    match bytes.iter().rposition(|byte| *byte != BYTE_BEFORE) {
        Some(last) => &bytes[..=last],
        None => &[],
    }
}

fn show(rt: &impl Print, walked: Walked) -> io::Result<()> {
    match walked {
        Walked::Complete(n) => println!(rt; "whole {n}"),
        Walked::Truncated(n) => println!(rt; "cut {n}"),
        Walked::Refused(r, n) => println!(rt; "refused {} {n}", u32::from(r)),
    }
}

// A line: the names of a file and of a mark, whether a new mark is asked for (0 or 1), the words of listing, table and records, and the
// bytes for a new mark.
fn row(rt: &(impl Files + Print + Eprint), line: &[u8]) -> io::Result<()> {
    script::heading(&mut io::writer(rt), line)?;
    let mut words = script::words(line);
    let mut buffer = [0; 32769];
    let Some(file) = script::read_file(rt, words.next_or_empty(), &mut buffer)? else {
        return Ok(());
    };
    let mut buffer = [0; 2048];
    let Some(mark) = script::read_file(rt, words.next_or_empty(), &mut buffer)? else {
        return Ok(());
    };
    let asks = words.number() != 0;
    let mut listing = [BEFORE; MOST];
    let listing = &mut listing[..words.size(MOST)];
    let mut table = [BEFORE; MOST];
    let table = &mut table[..words.size(MOST)];
    let mut records = [BEFORE; MOST];
    let records = &mut records[..words.size(MOST)];
    let mut new_mark = [BYTE_BEFORE; MOST];
    let new_mark = &mut new_mark[..words.size(MOST)];
    show(
        rt,
        resume::walk_from(file, mark, asks, listing, table, records, new_mark),
    )?;
    println!(rt; "listing{}", Spaced(listing))?;
    println!(rt; "table{}", Spaced(table))?;
    println!(rt; "records{}", Spaced(records))?;
    println!(rt; "mark {}", Hexadecimal(changed(new_mark)))
}

fn main(rt: HostRuntime) -> io::Result<()> {
    let mut buffer = [0; 65536];
    let Some(list) = script::read_file(&rt, b"list", &mut buffer)? else {
        return Ok(());
    };
    script::lines(list).try_for_each(|line| row(&rt, line))
}
