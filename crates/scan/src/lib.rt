// The search for a byte.
#![tactic(auto)]

ghost use Rattle.std.specs.Prelude.{◌+◌, ◌≤◌, ◌≡◌, ltb, length, drop};
ghost use Rattle.scan.specs.Until.{until};

// Whether `stop` is among sixteen bytes. By `|`, so that one vector comparison serves.
fn among(stop: u8, group: &[u8; 16]) -> bool
    ensures { result ≡ ltb (until stop group.now) 16 }
{
    group.iter().fold(false, |found, b| found | (*b == stop))
}

// A place before which no byte is `stop`, as far as groups of sixteen tell.
fn skip(stop: u8, bytes: &[u8]) -> usize
    ensures upper_bound { result ≤ length bytes.now }
    ensures bytes_value { result + until stop (drop result bytes.now) ≡ until stop bytes.now }
{
    let (groups, _) = bytes.as_chunks();
    let whole = groups.iter().position(|group| among(stop, group));
    16 * whole.unwrap_or(groups.len())
}

// How many bytes stand before the first that is `stop`; all where none is.
pub fn until(stop: u8, bytes: &[u8]) -> usize
    ensures { result ≡ until stop bytes.now }
{
    let at = skip(stop, bytes);
    at + bytes[at..].iter().take_while(|b| **b != stop).count()
}
