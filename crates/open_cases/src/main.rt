// Opens each file that `list` names, by the kind that its name starts with, and prints what opening answers: the number, then
// place and size of each section.
#![tactic(auto)]

use refusal::Refusal;
use std::io;
use std::rt::Files;

enum Kind {
    Meta,
    Profile,
    Cct,
    Trace,
}

impl From<u8> for Kind {
    // By the first letter of a file's name.
    fn from(letter: u8) -> Kind {
        match letter {
            b'm' => Kind::Meta,
            b'p' => Kind::Profile,
            b'c' => Kind::Cct,
            _ => Kind::Trace,
        }
    }
}

// Where opening refuses, zeros stand for the sections.
fn answer<const N: usize>(
    rt: &impl Print,
    opened: Result<[[u64; 2]; N], Refusal>,
) -> io::Result<()> {
    print!(rt; " {}", refusal::code(&opened))?;
    for [place, size] in opened.unwrap_or([[0; 2]; N]) {
        print!(rt; "  {place} {size}")?;
    }
    println!(rt)
}

fn show(rt: &impl Print, kind: Kind, file: &[u8]) -> io::Result<()> {
    match kind {
        Kind::Meta => answer(rt, open::open_meta(file)),
        Kind::Profile => answer(rt, open::open_profile(file)),
        Kind::Cct => answer(rt, open::open_cct(file)),
        Kind::Trace => answer(rt, open::open_trace(file)),
    }
}

fn case(rt: &(impl Files + Print + Eprint), name: &[u8]) -> io::Result<()> {
    let mut buffer = [0; 4096];
    let Some(file) = script::read_file(rt, name, &mut buffer)? else {
        return Ok(());
    };
    let Some(letter) = name.first() else {
        return Ok(());
    };
    rt.write_all(name)?;
    show(rt, Kind::from(*letter), file)
}

fn main(rt: HostRuntime) -> io::Result<()> {
    let mut buffer = [0; 65536];
    let Some(list) = script::read_file(&rt, b"list", &mut buffer)? else {
        return Ok(());
    };
    script::lines(list).try_for_each(|name| case(&rt, name))
}
