// Looks for hot paths, as each line of `list` says. Prints the line, the answer, and every word of the path, the listing and the table.
#![tactic(auto)]

use refusal::Refusal;
use script::Spaced;
use std::io;
use std::rt::Files;

// What lent words hold before a search.
const BEFORE: u64 = 7;

// The most words that are lent of each.
const MOST: usize = 1024;

fn show(rt: &impl Print, found: Result<u64, Refusal>) -> io::Result<()> {
    match found {
        Ok(n) => println!(rt; "path {n}"),
        Err(r) => println!(rt; "refused {}", u32::from(r)),
    }
}

// A line: the names of a meta.db and of a profile.db, the profile, the metric, and the words of listing, table and path.
fn row(rt: &(impl Files + Print + Eprint), line: &[u8]) -> io::Result<()> {
    script::heading(&mut io::writer(rt), line)?;
    let mut words = script::words(line);
    let mut buffer = [0; 32769];
    let Some(meta) = script::read_file(rt, words.next_or_empty(), &mut buffer)? else {
        return Ok(());
    };
    let mut buffer = [0; 32769];
    let Some(db) = script::read_file(rt, words.next_or_empty(), &mut buffer)? else {
        return Ok(());
    };
    let profile = words.number();
    let metric = words.number();
    let [mut listing, mut table, mut path] = [[BEFORE; MOST]; 3];
    let listing = &mut listing[..words.size(MOST)];
    let table = &mut table[..words.size(MOST)];
    let path = &mut path[..words.size(MOST)];
    show(
        rt,
        hot_path::find(meta, db, profile, metric, listing, table, path),
    )?;
    println!(rt; "hot{}", Spaced(path))?;
    println!(rt; "listing{}", Spaced(listing))?;
    println!(rt; "table{}", Spaced(table))
}

fn main(rt: HostRuntime) -> io::Result<()> {
    let mut buffer = [0; 65536];
    let Some(list) = script::read_file(&rt, b"list", &mut buffer)? else {
        return Ok(());
    };
    script::lines(list).try_for_each(|line| row(&rt, line))
}
