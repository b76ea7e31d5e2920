// The files that a program reads, into bytes that it lends.
ghost use Rattle.std.specs.Prelude.{◌≡◌, ◌≤◌, length, IfOk, IfSome, IsSome, None, Ok, MatchResult};
ghost use Rattle.std.specs.Io.KnownBytes.{Consumes};
ghost use Rattle.script.specs.File.{Fills};

use std::io::{Read, Write};
use std::rt::Files;
use std::{fs, io, str};

/// Reads until the buffer is full or the source ends; gives the bytes that were read.
pub fn read_full<'a, R: Read>(source: &mut R, buffer: &'a mut [u8]) -> io::Result<&'a [u8]>
    ensures bound { IfOk result (λ bytes. length bytes.now ≤ length buffer.old) }
    ensures known { IfOk result (λ bytes. Fills (length buffer.old) (R.remaining source.old) bytes.now) }
    ensures consumed { IfOk result (λ bytes. Consumes (R.remaining source.old) (R.remaining source.new) bytes.now) }
{
    // `read_exact` would fail at the end, and `read_to_end` wants a `Vec`.
    let mut done = 0;
    while done < buffer.len() {
        let n = source.read(&mut buffer[done..])?;
        if n == 0 {
            break;
        }
        done += n;
    }
    Ok(&buffer[..done])
}

fn open<R: Files>(rt: &R, name: &[u8]) -> io::Result<R::File> {
    let Ok(path) = str::from_utf8(name) else {
        return Err(io::Error::from(io::ErrorKind::InvalidFilename));
    };
    fs::open(rt, path)
}

// Says on standard error what failed, in the system's words, without the number that `Display` puts behind them.
fn fail(rt: &impl Eprint, name: &[u8], error: io::Error) -> io::Result<()> {
    // `format!` would want an allocator of all that read.
    let mut buffer = [0u8; 256];
    write!(&mut buffer[..], "{error}")?;
    let text = str::from_utf8(&buffer).unwrap_or("").trim_end_matches('\0');
    let words = text
        .split_once(" (os error ")
        .map_or(text, |(words, _)| words);
    eprintln!(rt; "{}: {words}", name.escape_ascii())
}

// The bytes of a file that was opened; none where it was not, which standard error then says.
fn read_opened<'a, F: Read + Drop>(
    rt: &impl Eprint,
    name: &[u8],
    opened: io::Result<F>,
    buffer: &'a mut [u8],
) -> io::Result<Option<&'a [u8]>>
    ensures bound { IfOk result (λ found. IfSome found (λ bytes. length bytes.now ≤ length buffer.old)) }
    ensures variant { IfOk result (λ found. MatchResult opened (λ _. IsSome found) (λ _. found ≡ None)) }
    ensures known { IfOk result (λ found. IfOk opened (λ file. IfSome found (λ bytes. Fills (length buffer.old) (F.remaining file) bytes.now))) }
{
    match opened {
        Ok(mut file) => Ok(Some(read_full(&mut file, buffer)?)),
        Err(e) => {
            fail(rt, name, e)?;
            Ok(None)
        }
    }
}

/// Reads a file from its start on until the buffer is full or the file ends, and gives the bytes that were read; none where it can't be
/// opened, which standard error then says.
pub fn read_file<'a>(
    rt: &(impl Files + Eprint),
    name: &[u8],
    buffer: &'a mut [u8],
) -> io::Result<Option<&'a [u8]>>
    ensures { IfOk result (λ found. IfSome found (λ bytes. length bytes.now ≤ length buffer.old)) }
{
    read_opened(rt, name, open(rt, name), buffer)
}
