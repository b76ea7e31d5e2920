// Writes a profile.db from the lists of each case of `list`, into bytes that are 255 before, and prints the case, the answer and the lent
// bytes, in rows of 32 with their places; rows of zeros are left out. A case has three lines: the name of a file of identifications, how
// many bytes of them are lent (behind the file's own they are 0), the name of a file of entries and how many bytes are lent to be written;
// the number of each profile's tuple; how many identifications each tuple has.
#![tactic(auto)]

ghost use Rattle.std.specs.Prelude.{◌≡◌, length};

use refusal::Refusal;
use script::{Hexadecimal, Parts};
use std::io;
use std::rt::Files;

// What the lent bytes hold before.
const BEFORE: u8 = 255;

// The bytes of 65,536 identifications, and those of a file with a tuple of 65,535.
const IDENTIFIERS: usize = 1048576;

const LONGEST: usize = 1049000;

// The most numbers that are read of a line.
const WORDS: usize = 64;

const WIDTH: usize = 32;

// The three lines of a case.
#[derive(Clone, Copy)]
struct Case<'a> {
    files: &'a [u8],
    profiles: &'a [u8],
    tuples: &'a [u8],
}

// The cases of a list, by its lines. Lines that its last case lacks are empty.
#[derive(Drop)]
struct Cases<'a>(Parts<'a>);

impl<'a> Iterator for Cases<'a> {
    ghost use Rattle.std.specs.Iterator.{item_count};

    type Item = Case<'a>;

    ghost remaining = { λ s. item_count (λ lines. lines) s.0 };

    fn next(&mut self) -> Option<Case<'a>> {
        Some(Case {
            files: self.0.next()?,
            profiles: self.0.next_or_empty(),
            tuples: self.0.next_or_empty(),
        })
    }
}

// The decimal numbers of a line, as many as there are words for.
fn numbers<'a>(line: &[u8], words: &'a mut [u64; WORDS]) -> &'a [u64] {
    let texts = script::words(line);
    for (word, text) in words.iter_mut().zip(texts) {
        *word = script::decimal(text);
    }
    let n = script::words(line).take(WORDS).count();
    words.get(..n).unwrap_or_default()
}

// Zeros, of a length that a caller knows without counting them.
fn no_identifiers() -> [u8; IDENTIFIERS]
    ensures { 1048576 ≡ length result }
{
    [0; IDENTIFIERS]
}

fn show(rt: &impl Print, answer: Result<u64, Refusal>) -> io::Result<()> {
    match answer {
        Ok(length) => println!(rt; "written {length}"),
        Err(r) => println!(rt; "refused {}", u32::from(r)),
    }
}

fn rows(rt: &impl Print, file: &[u8]) -> io::Result<()> {
    for (at, row) in (0..file.len()).step_by(WIDTH).zip(file.chunks(WIDTH)) {
        if row.iter().any(|byte| *byte != 0) {
            println!(rt; "{at} {}", Hexadecimal(row))?;
        }
    }
    Ok(())
}

impl Case<'_> {
    fn heading(&self, rt: &impl Print) -> io::Result<()> {
        script::heading(&mut io::writer(rt), self.files)?;
        rt.write_all(self.profiles)?;
        println!(rt)?;
        rt.write_all(self.tuples)?;
        println!(rt)
    }

    fn write(&self, rt: &(impl Files + Print + Eprint)) -> io::Result<()> {
        let mut words = script::words(self.files);
        let mut buffer = no_identifiers();
        let Some(_) = script::read_file(rt, words.next_or_empty(), &mut buffer)? else {
            return Ok(());
        };
        let identifiers = buffer.get(..words.size(usize::MAX)).unwrap_or_default();
        let mut buffer = [0; 65536];
        let Some(entries) = script::read_file(rt, words.next_or_empty(), &mut buffer)? else {
            return Ok(());
        };
        let mut file = [BEFORE; LONGEST];
        let Some(file) = file.get_mut(..words.size(usize::MAX)) else {
            return Ok(());
        };
        let mut profiles = [0; WORDS];
        let profiles = numbers(self.profiles, &mut profiles);
        let mut tuples = [0; WORDS];
        let tuples = numbers(self.tuples, &mut tuples);
        show(
            rt,
            profile_writer::write(profiles, tuples, identifiers, entries, file),
        )?;
        rows(rt, file)
    }
}

fn main(rt: HostRuntime) -> io::Result<()> {
    let mut buffer = [0; 65536];
    let Some(list) = script::read_file(&rt, b"list", &mut buffer)? else {
        return Ok(());
    };
    for case in Cases(script::lines(list)) {
        case.heading(&rt)?;
        case.write(&rt)?;
    }
    Ok(())
}
