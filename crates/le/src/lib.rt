// Little-endian numbers at a place of a file.
#![tactic(auto, using(crate::proofs::Laws::words))]

ghost use Rattle.std.specs.Prelude.{true, ◌≡◌, ◌+◌, ◌≤◌, ◌<◌, min, length};
ghost use Rattle.le.specs.Number.{number};

// The N bytes at a place.
fn bytes<const N: usize>(file: &[u8], at: usize) -> [u8; N]
    requires { at + N ≤ length file.now }
    ensures { number N result 0 ≡ number N file.now at }
{
    let mut bytes = [0; N];
    bytes.copy_from_slice(&file[at..at + N]);
    bytes
}

// Numbers that stand inside the file: each compiles to one load.
pub fn load_u8(file: &[u8], at: usize) -> u8
    requires { at + 1 ≤ length file.now }
    ensures { result ≡ number 1 file.now at }
{
    file[at]
}

pub fn load_u16(file: &[u8], at: usize) -> u16
    requires { at + 2 ≤ length file.now }
    ensures { result ≡ number 2 file.now at }
{
    u16::from_le_bytes(bytes(file, at))
}

pub fn load_u32(file: &[u8], at: usize) -> u32
    requires { at + 4 ≤ length file.now }
    ensures { result ≡ number 4 file.now at }
{
    u32::from_le_bytes(bytes(file, at))
}

#[tactic(auto, using(crate::proofs::Laws::words, crate::proofs::Laws::halves))]
pub fn load_u64(file: &[u8], at: usize) -> u64
    requires { at + 8 ≤ length file.now }
    ensures { result ≡ number 8 file.now at }
{
    u64::from_le_bytes(bytes(file, at))
}

// A place and an offset from it, which together may be past what a u64 holds: past the end one place reads as another.
fn place_in(file: &[u8], at: u64, offset: u64) -> usize
    ensures { result ≡ min (at + offset) (length file.now) }
{
    at.saturating_add(offset).min(file.len() as u64) as usize
}

// The N bytes at an offset from any place, as many as the file has, and 0 for each that is past its end.
fn cut<const N: usize>(file: &[u8], at: u64, offset: u64) -> [u8; N]
    ensures { number N result 0 ≡ number N file.now (at + offset) }
{
    let from = place_in(file, at, offset);
    let n = N.min(file.len() - from);
    let mut bytes = [0; N];
    bytes[..n].copy_from_slice(&file[from..from + n]);
    bytes
}

// Says of a number at a small offset whether the file has all of it; of a larger offset, nothing. With a constant offset, two tests.
fn inside(file: &[u8], at: u64, offset: u64, w: u64) -> bool
    requires { w ≤ 8 }
    ensures { result ≡ true → at + offset + w ≤ length file.now }
{
    let n = file.len() as u64;
    if 0x1_0000 <= offset {
        return false;
    }
    if n < offset + w {
        return false;
    }
    at <= n - (offset + w)
}

// The N bytes at an offset from any place at all. What is past the end counts as 0.
fn bytes_at<const N: usize>(file: &[u8], at: u64, offset: u64) -> [u8; N]
    requires { N ≤ 8 }
    ensures { number N result 0 ≡ number N file.now (at + offset) }
{
    if inside(file, at, offset, N as u64) {
        return bytes(file, (at + offset) as usize);
    }
    cut(file, at, offset)
}

// Numbers at an offset from any place at all. What is past the end counts as 0.
pub fn u8_at(file: &[u8], at: u64, offset: u64) -> u8
    ensures { result ≡ number 1 file.now (at + offset) }
{
    u8::from_le_bytes(bytes_at(file, at, offset))
}

pub fn u16_at(file: &[u8], at: u64, offset: u64) -> u16
    ensures { result ≡ number 2 file.now (at + offset) }
{
    u16::from_le_bytes(bytes_at(file, at, offset))
}

pub fn u32_at(file: &[u8], at: u64, offset: u64) -> u32
    ensures { result ≡ number 4 file.now (at + offset) }
{
    u32::from_le_bytes(bytes_at(file, at, offset))
}

pub fn u64_at(file: &[u8], at: u64, offset: u64) -> u64
    ensures { result ≡ number 8 file.now (at + offset) }
{
    u64::from_le_bytes(bytes_at(file, at, offset))
}
