// Asks the DCPI samples that each line of `list` names for their totals, for the count of an offset or for their entries, and prints the
// line and the answer. A line has the name of a file, and then `totals`, or `lookup` and an offset, or `entries`, a profile, a metric and
// how many bytes are lent. Those are 255 before, and are printed in rows of an entry's size, each with its place.
#![tactic(auto)]

use dcpi::SampleTotals;
use refusal::Refusal;
use script::{Hexadecimal, Parts};
use std::io;
use std::rt::Files;

// What the lent bytes hold before.
const BEFORE: u8 = 255;

const WIDTH: usize = 24;

// What a line asks of samples.
#[derive(Clone, Copy)]
enum Question {
    Totals,
    Lookup {
        offset: u64,
    },
    Entries {
        profile: u32,
        metric: u16,
        room: usize,
    },
}

impl Question {
    // By the first letter of the kind; none of a line with no kind.
    fn read(words: &mut Parts) -> Option<Question> {
        match *words.next_or_empty().first()? {
            b't' => Some(Question::Totals),
            b'l' => Some(Question::Lookup {
                offset: words.number(),
            }),
            _ => Some(Question::Entries {
                profile: u32::try_from(words.number()).unwrap_or(u32::MAX),
                metric: u16::try_from(words.number()).unwrap_or(u16::MAX),
                room: words.size(usize::MAX),
            }),
        }
    }

    fn ask(self, rt: &impl Print, samples: &[u8]) -> io::Result<()> {
        match self {
            Question::Totals => show_totals(rt, dcpi::totals(samples)),
            Question::Lookup { offset } => show_count(rt, dcpi::lookup(samples, offset)),
            Question::Entries {
                profile,
                metric,
                room,
            } => list(rt, samples, profile, metric, room),
        }
    }
}

fn show_totals(rt: &impl Print, answer: Result<SampleTotals, Refusal>) -> io::Result<()> {
    match answer {
        Ok(t) => println!(rt; "totals {} {}", t.offsets, t.samples),
        Err(r) => println!(rt; "refused {}", u32::from(r)),
    }
}

fn show_count(rt: &impl Print, answer: Result<Option<u64>, Refusal>) -> io::Result<()> {
    match answer {
        Ok(Some(n)) => println!(rt; "found {n}"),
        Ok(None) => println!(rt; "absent"),
        Err(r) => println!(rt; "refused {}", u32::from(r)),
    }
}

fn show_entry_count(rt: &impl Print, answer: Result<u64, Refusal>) -> io::Result<()> {
    match answer {
        Ok(n) => println!(rt; "listed {n}"),
        Err(r) => println!(rt; "refused {}", u32::from(r)),
    }
}

// With as many bytes for entries, if there are.
fn list(rt: &impl Print, samples: &[u8], profile: u32, metric: u16, room: usize) -> io::Result<()> {
    let mut lent = [BEFORE; 8192];
    let Some(entries) = lent.get_mut(..room) else {
        return Ok(());
    };
    show_entry_count(rt, dcpi_entries::list(samples, profile, metric, entries))?;
    for (at, row) in (0..room).step_by(WIDTH).zip(entries.chunks(WIDTH)) {
        println!(rt; "{at} {}", Hexadecimal(row))?;
    }
    Ok(())
}

fn row(rt: &(impl Files + Print + Eprint), line: &[u8]) -> io::Result<()> {
    script::heading(&mut io::writer(rt), line)?;
    let mut words = script::words(line);
    let name = words.next_or_empty();
    let Some(question) = Question::read(&mut words) else {
        return Ok(());
    };
    let mut buffer = [0; 65536];
    match script::read_file(rt, name, &mut buffer)? {
        Some(samples) => question.ask(rt, samples),
        None => Ok(()),
    }
}

fn main(rt: HostRuntime) -> io::Result<()> {
    let mut buffer = [0; 65536];
    let Some(list) = script::read_file(&rt, b"list", &mut buffer)? else {
        return Ok(());
    };
    script::lines(list).try_for_each(|line| row(&rt, line))
}
