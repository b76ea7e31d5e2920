// Opens the meta.db on standard input and prints its sections with their places and sizes, or the refusal's number.
#![tactic(auto)]

use std::io;

const MOST: usize = 32768;

// In the header's order.
const NAMES: [&str; 8] = [
    "General",
    "IdNames",
    "Metrics",
    "Context",
    "Strings",
    "Modules",
    "Files",
    "Functions",
];

fn show(rt: &impl Print, file: &[u8]) -> io::Result<()> {
    let sections = match open::open_meta(file) {
        Ok(sections) => sections,
        Err(r) => return println!(rt; "refused {}", u32::from(r)),
    };
    for (name, [place, size]) in NAMES.iter().zip(&sections) {
        println!(rt; "{name} {place} {size}")?;
    }
    Ok(())
}

fn main(rt: HostRuntime) -> io::Result<()> {
    let mut buffer = [0; MOST + 1];
    let file = script::read_full(&mut rt.stdin(), &mut buffer)?;
    if MOST < file.len() {
        return println!(rt; "too long");
    }
    show(&rt, file)
}
