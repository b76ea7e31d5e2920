// Strings in a section of a file.
#![tactic(auto)]

ghost use Rattle.std.specs.Prelude.{◌≡◌, length, take, drop, IfOk};
ghost use Rattle.refusal.specs.Check.{code_of};
ghost use Rattle.text.specs.String.{bytes_from, string_at, text_code, text_bytes};

use refusal::Refusal;
use utf8::Fault;

// Where a string stands, without its NUL.
#[derive(Clone, Copy, Debug, PartialEq, Eq)]
pub struct Text {
    pub place: u64,
    pub length: u64,
}

// How many bytes a section has from a place on.
fn count_from(file: &[u8], section: [u64; 2], place: u64) -> usize
    ensures { result ≡ length (bytes_from file.now section place) }
{
    let start = section[0];
    let size = section[1];
    let n = file.len() as u64;
    if place < start {
        return 0;
    }
    if n <= place {
        return 0;
    }
    if size <= place - start {
        return 0;
    }
    let in_section = size - (place - start);
    if in_section < n - place {
        in_section as usize
    } else {
        (n - place) as usize
    }
}

// The string at a place of a section: 8, then 19.
pub fn find(file: &[u8], section: [u64; 2], place: u64) -> Result<Text, Refusal>
    ensures { result ≡ string_at file.now section place }
{
    let n = count_from(file, section, place);
    if n == 0 {
        return Err(Refusal::String);
    }
    let from = place as usize;
    let to = from + n;
    match utf8::check(&file[from..to]) {
        Ok(length) => Ok(Text {
            place,
            length: length as u64,
        }),
        Err(Fault::Invalid) => Err(Refusal::Spelling),
        Err(Fault::Unterminated) => Err(Refusal::String),
    }
}

// The bytes of an answer, as a part of the file.
pub fn bytes<'a>(file: &'a [u8], text: Result<Text, Refusal>) -> Result<&'a [u8], Refusal>
    ensures bytes { IfOk result (λ part. part.now ≡ text_bytes file.now text) }
    ensures code { code_of result ≡ text_code text }
{
    let at = text?;
    Ok(part(file, at.place, at.length))
}

// Some bytes from a place on, as far as the file has them.
pub fn part<'a>(file: &'a [u8], place: u64, n: u64) -> &'a [u8]
    ensures { result.now ≡ take n (drop place file.now) }
{
    let size = file.len() as u64;
    if size <= place {
        return &file[..0];
    }
    let from = place as usize;
    if size - place <= n {
        return &file[from..];
    }
    let to = from + n as usize;
    &file[from..to]
}
