// Walks each meta.db that a line of `list` names, with a listing and a table of as many words as the line says, and prints what the
// listing program prints, the flex fields of the listed contexts that have some, and the table's slots that are not 0.
#![tactic(auto)]

use context::{PARENT, RECORD};
use script::Spaced;
use std::io;
use std::rt::Files;

// What lent words hold before a walk.
const BEFORE: u64 = 7;

// The most words of a listing and of a table.
const MOST: usize = 1024;

// Place, flags, function, file, line, module and offset of a context that has some: the words before its parent.
fn flex(rt: &impl Print, record: &[u64; RECORD]) -> io::Result<()> {
    let fields = &record[5..PARENT];
    if fields[0] == 0 {
        return Ok(());
    }
    println!(rt; "flex {}{}", record[0], Spaced(fields))
}

fn each_flex(rt: &impl Print, records: &[u64], n: usize) -> io::Result<()> {
    let (records, _) = records.as_chunks::<RECORD>();
    records
        .iter()
        .take(n)
        .try_for_each(|record| flex(rt, record))
}

fn filled(rt: &impl Print, table: &[u64]) -> io::Result<()> {
    print!(rt; "table")?;
    for (i, word) in table.iter().enumerate() {
        if *word != 0 {
            print!(rt; " {i} {word}")?;
        }
    }
    println!(rt)
}

fn slots(rt: &impl Print, file: &[u8], table: &[u64]) -> io::Result<()> {
    if open::open_meta(file).is_ok() {
        return filled(rt, table);
    }
    if table.iter().all(|word| *word == BEFORE) {
        println!(rt; "table untouched")
    } else {
        println!(rt; "table changed")
    }
}

fn walk(rt: &impl Print, file: &[u8], listing: &mut [u64], table: &mut [u64]) -> io::Result<()> {
    let mut records = [BEFORE; MOST * RECORD];
    let n = report::show(rt, file, listing, table, &mut records)?;
    each_flex(rt, &records, n)?;
    slots(rt, file, table)
}

// A line: a file's name, and the words of the listing and of the table.
fn row(rt: &(impl Files + Print + Eprint), line: &[u8]) -> io::Result<()> {
    script::heading(&mut io::writer(rt), line)?;
    let mut words = script::words(line);
    let mut buffer = [0; 32769];
    let Some(file) = script::read_file(rt, words.next_or_empty(), &mut buffer)? else {
        return Ok(());
    };
    if report::too_long(rt, file)? {
        return Ok(());
    }
    let mut listing = [BEFORE; MOST];
    let listing = &mut listing[..words.size(MOST)];
    let mut table = [BEFORE; MOST];
    let table = &mut table[..words.size(MOST)];
    walk(rt, file, listing, table)
}

fn main(rt: HostRuntime) -> io::Result<()> {
    let mut buffer = [0; 65536];
    let Some(list) = script::read_file(&rt, b"list", &mut buffer)? else {
        return Ok(());
    };
    script::lines(list).try_for_each(|line| row(&rt, line))
}
