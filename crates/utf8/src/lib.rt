// Text in UTF-8, up to its NUL.
#![tactic(auto)]

ghost use Rattle.std.specs.Prelude.{◌≡◌, true, [], ◌∷◌, ◌+◌, ◌≤◌, ◌<◌, length, drop};
ghost use Rattle.std.specs.List.{list_all};
ghost use Rattle.utf8.specs.Grammar.{◌to◌, continuation, multibyte, in_range, size_if, char_size};
ghost use Rattle.utf8.specs.Terminated.{terminated};
ghost use Rattle.utf8.specs.Progress.{second_low, second_high, is_plain, Spans, PlainSpan, CharsEnd};

// Why bytes begin with no string.
#[derive(Clone, Copy, Debug, PartialEq, Eq, Hash)]
pub enum Fault {
    Invalid,
    Unterminated,
}

fn in_range(x: u8, low: u8, high: u8) -> bool
    ensures { result ≡ in_range (low to high) x }
{
    (low <= x) & (x <= high)
}

// What the second byte may be, after a first byte of E0 or more.
#[tactic(auto, unfolding(crate::specs::Progress::second_low, refusal::specs::Check::either))]
fn second_low(b: u8) -> u8
    ensures { result ≡ second_low b }
{
    match b {
        0xE0 => 0xA0,
        0xF0 => 0x90,
        _ => 0x80,
    }
}

#[tactic(auto, unfolding(crate::specs::Progress::second_high, refusal::specs::Check::either))]
fn second_high(b: u8) -> u8
    ensures { result ≡ second_high b }
{
    match b {
        0xED => 0x9F,
        0xF4 => 0x8F,
        _ => 0xBF,
    }
}

// The size of a character of two, three or four bytes, by those after the first; 0 if they do not match.
fn two(s: &[u8]) -> usize
    ensures { result ≡ size_if (continuation ∷ []) (drop 1 s.now) }
{
    match s {
        [_, b, ..] if in_range(*b, 0x80, 0xBF) => 2,
        _ => 0,
    }
}

fn three(s: &[u8], low: u8, high: u8) -> usize
    ensures { result ≡ size_if (low to high ∷ continuation ∷ []) (drop 1 s.now) }
{
    match s {
        [_, b, c, ..] if in_range(*b, low, high) & in_range(*c, 0x80, 0xBF) => 3,
        _ => 0,
    }
}

fn four(s: &[u8], low: u8, high: u8) -> usize
    ensures { result ≡ size_if (low to high ∷ continuation ∷ continuation ∷ []) (drop 1 s.now) }
{
    match s {
        [_, b, c, d, ..]
            if in_range(*b, low, high) & (in_range(*c, 0x80, 0xBF) & in_range(*d, 0x80, 0xBF)) => 4,
        _ => 0,
    }
}

// The size of the character of several bytes that the bytes begin with; 0 if they begin with none.
fn multibyte_size(s: &[u8]) -> usize
    ensures { result ≡ char_size multibyte s.now }
{
    match s {
        [b, ..] if in_range(*b, 0xC2, 0xDF) => two(s),
        [b @ 0xE0..=0xEF, ..] => three(s, second_low(*b), second_high(*b)),
        [b @ 0xF0..=0xF4, ..] => four(s, second_low(*b), second_high(*b)),
        _ => 0,
    }
}

// Whether a byte is ASCII and not NUL.
fn is_plain(x: u8) -> bool
    ensures { result ≡ is_plain x }
{
    (1 <= x) & (x < 0x80)
}

// Whether sixteen bytes are all plain. By `&`, so that one vector comparison serves.
fn plain_sixteen(group: &[u8; 16]) -> bool
    ensures { result ≡ list_all is_plain group.now }
{
    group.iter().fold(true, |plain, x| plain & is_plain(*x))
}

// A place up to which groups of sixteen bytes are plain.
fn skip_groups(bytes: &[u8], from: usize) -> usize
    requires { from ≤ length bytes.now }
    ensures { Spans bytes.now from result }
{
    let mut i = from;
    while let Some(group) = bytes[i..].first_chunk()
        && plain_sixteen(group)
    {
        i += 16;
    }
    i
}

// The first place that is not plain.
fn plain_end(bytes: &[u8], from: usize) -> usize
    requires { from < length bytes.now }
    ensures { PlainSpan bytes.now from result }
{
    if !is_plain(bytes[from]) {
        return from;
    }
    let at = skip_groups(bytes, from + 1);
    at + bytes[at..].iter().take_while(|x| is_plain(**x)).count()
}

// A place before the first NUL where no character begins. By place: a step is as long as the characters that it passes.
fn chars_end(bytes: &[u8]) -> usize
    ensures { CharsEnd bytes.now result }
{
    let mut i = 0;
    while i < bytes.len() {
        let at = plain_end(bytes, i);
        if bytes.len() <= at {
            return at;
        }
        let n = multibyte_size(&bytes[at..]);
        if n == 0 {
            return at;
        }
        i = at + n;
    }
    i
}

// The length of the string that the first NUL ends, where it is UTF-8; in one pass.
pub fn check(bytes: &[u8]) -> Result<usize, Fault>
    ensures { result ≡ terminated bytes.now }
{
    let i = chars_end(bytes);
    if bytes.len() <= i {
        return Err(Fault::Unterminated);
    }
    if bytes[i] == 0 {
        return Ok(i);
    }
    let rest = bytes.len() - i;
    if scan::until(0, &bytes[i..]) < rest {
        Err(Fault::Invalid)
    } else {
        Err(Fault::Unterminated)
    }
}
