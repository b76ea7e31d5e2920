// Asks each file that a line of `list` names for a value or for totals, and prints the line with the answer. A line has the kind
// (profile, cct or totals), the file's name, and three numbers: profile, context and metric; or context, metric and one unused.
#![tactic(auto)]

use refusal::Refusal;
use script::Parts;
use std::io;
use std::rt::Files;
use total::Totals;

// What a line asks of a file.
#[derive(Clone, Copy)]
enum Question {
    Profile {
        profile: u64,
        context: u64,
        metric: u64,
    },
    Cct {
        profile: u64,
        context: u64,
        metric: u64,
    },
    Totals {
        context: u64,
        metric: u64,
    },
}

impl Question {
    // By the first letter of the kind; none of a line with no kind.
    fn read(kind: &[u8], numbers: &mut Parts) -> Option<Question> {
        match *kind.first()? {
            b'p' => Some(Question::Profile {
                profile: numbers.number(),
                context: numbers.number(),
                metric: numbers.number(),
            }),
            b'c' => Some(Question::Cct {
                profile: numbers.number(),
                context: numbers.number(),
                metric: numbers.number(),
            }),
            _ => Some(Question::Totals {
                context: numbers.number(),
                metric: numbers.number(),
            }),
        }
    }

    fn ask(self, rt: &impl Print, file: &[u8]) -> io::Result<()> {
        match self {
            Question::Profile {
                profile,
                context,
                metric,
            } => show_lookup(rt, lookup::profile_lookup(file, profile, context, metric)),
            Question::Cct {
                profile,
                context,
                metric,
            } => show_lookup(rt, lookup::cct_lookup(file, profile, context, metric)),
            Question::Totals { context, metric } => {
                show_totals(rt, cct::totals(file, context, metric))
            }
        }
    }
}

fn show_lookup(rt: &impl Print, answer: Result<Option<u64>, Refusal>) -> io::Result<()> {
    match answer {
        Ok(Some(bits)) => print!(rt; " found {bits}"),
        Ok(None) => print!(rt; " absent"),
        Err(r) => print!(rt; " refused {}", u32::from(r)),
    }
}

fn show_totals(rt: &impl Print, answer: Result<Option<Totals>, Refusal>) -> io::Result<()> {
    match answer {
        Ok(Some(t)) => {
            print!(rt;
                " totals {} {} {} {} {} {}",
                t.count, t.least_of, t.least, t.greatest_of, t.greatest, t.sum
            )
        }
        Ok(None) => print!(rt; " absent"),
        Err(r) => print!(rt; " refused {}", u32::from(r)),
    }
}

fn case(rt: &(impl Files + Print + Eprint), name: &[u8], question: Question) -> io::Result<()> {
    let mut buffer = [0; 32769];
    match script::read_file(rt, name, &mut buffer)? {
        Some(file) => question.ask(rt, file),
        None => Ok(()),
    }
}

fn row(rt: &(impl Files + Print + Eprint), line: &[u8]) -> io::Result<()> {
    rt.write_all(line)?;
    let mut words = script::words(line);
    let kind = words.next_or_empty();
    let name = words.next_or_empty();
    if let Some(question) = Question::read(kind, &mut words) {
        case(rt, name, question)?;
    }
    println!(rt)
}

fn main(rt: HostRuntime) -> io::Result<()> {
    let mut buffer = [0; 65536];
    let Some(list) = script::read_file(&rt, b"list", &mut buffer)? else {
        return Ok(());
    };
    script::lines(list).try_for_each(|line| row(&rt, line))
}
