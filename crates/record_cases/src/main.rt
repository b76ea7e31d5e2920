// Asks each file that a line of `list` names for a count, a tuple or a trace line, and prints the line with the answer. A line has the
// kind (profiles, contexts, lines, tuple, identifier, header, sample or at), the file's name, and two numbers, 0 where not used.
#![tactic(auto)]

use array::Array;
use refusal::Refusal;
use script::Parts;
use std::io;
use std::rt::Files;
use trace::{Line, Sample};
use tuple::Identifier;

// What a line asks of a file.
#[derive(Clone, Copy)]
enum Question {
    Profiles,
    Contexts,
    Lines,
    Tuple { profile: u64 },
    Identifier { profile: u64, number: u64 },
    Header { line: u64 },
    Sample { line: u64, number: u64 },
    At { line: u64, time: u64 },
}

impl Question {
    // By the first letter of the kind; none of a line with no kind.
    fn read(kind: &[u8], numbers: &mut Parts) -> Option<Question> {
        let letter = *kind.first()?;
        let first = numbers.number();
        let second = numbers.number();
        Some(match letter {
            b'p' => Question::Profiles,
            b'c' => Question::Contexts,
            b'l' => Question::Lines,
            b't' => Question::Tuple { profile: first },
            b'i' => Question::Identifier {
                profile: first,
                number: second,
            },
            b'h' => Question::Header { line: first },
            b's' => Question::Sample {
                line: first,
                number: second,
            },
            _ => Question::At {
                line: first,
                time: second,
            },
        })
    }

    fn ask(self, rt: &impl Print, file: &[u8]) -> io::Result<()> {
        match self {
            Question::Profiles => show_count(rt, count::profiles(file)),
            Question::Contexts => show_count(rt, count::contexts(file)),
            Question::Lines => show_count(rt, count::lines(file)),
            Question::Tuple { profile } => show_tuple(rt, tuple::tuple_at(file, profile)),
            Question::Identifier { profile, number } => {
                show_identifier(rt, tuple::identifier_at(file, profile, number))
            }
            Question::Header { line } => show_line(rt, trace::line_at(file, line)),
            Question::Sample { line, number } => {
                show_sample(rt, trace::sample_at(file, line, number).map(Some))
            }
            Question::At { line, time } => show_sample(rt, trace::last_at(file, line, time)),
        }
    }
}

fn show_count(rt: &impl Print, answer: Result<u64, Refusal>) -> io::Result<()> {
    match answer {
        Ok(n) => print!(rt; " count {n}"),
        Err(r) => print!(rt; " refused {}", u32::from(r)),
    }
}

fn show_tuple(rt: &impl Print, answer: Result<Array, Refusal>) -> io::Result<()> {
    match answer {
        Ok(array) => print!(rt; " tuple {}", array.count),
        Err(r) => print!(rt; " refused {}", u32::from(r)),
    }
}

fn show_identifier(rt: &impl Print, answer: Result<Identifier, Refusal>) -> io::Result<()> {
    match answer {
        Ok(i) => print!(rt;
            " identifier {} {} {} {}",
            i.kind, i.flags, i.logical, i.physical
        ),
        Err(r) => print!(rt; " refused {}", u32::from(r)),
    }
}

fn show_line(rt: &impl Print, answer: Result<Line, Refusal>) -> io::Result<()> {
    match answer {
        Ok(line) => print!(rt; " line {} {}", line.profile, line.samples),
        Err(r) => print!(rt; " refused {}", u32::from(r)),
    }
}

fn show_sample(rt: &impl Print, answer: Result<Option<Sample>, Refusal>) -> io::Result<()> {
    match answer {
        Ok(Some(s)) => print!(rt; " sample {} {} {}", s.position, s.time, s.context),
        Ok(None) => print!(rt; " absent"),
        Err(r) => print!(rt; " refused {}", u32::from(r)),
    }
}

fn case(rt: &(impl Files + Print + Eprint), name: &[u8], question: Question) -> io::Result<()> {
    let mut buffer = [0; 32769];
    match script::read_file(rt, name, &mut buffer)? {
        Some(file) => question.ask(rt, file),
        None => Ok(()),
    }
}

fn row(rt: &(impl Files + Print + Eprint), line: &[u8]) -> io::Result<()> {
    rt.write_all(line)?;
    let mut words = script::words(line);
    let kind = words.next_or_empty();
    let name = words.next_or_empty();
    if let Some(question) = Question::read(kind, &mut words) {
        case(rt, name, question)?;
    }
    println!(rt)
}

fn main(rt: HostRuntime) -> io::Result<()> {
    let mut buffer = [0; 65536];
    let Some(list) = script::read_file(&rt, b"list", &mut buffer)? else {
        return Ok(());
    };
    script::lines(list).try_for_each(|line| row(&rt, line))
}
