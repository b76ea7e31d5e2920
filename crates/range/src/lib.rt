// Ranges of bytes and multiples. The definitions are on exact numbers; the code makes no sum and no product that could wrap.
#![tactic(auto)]

ghost use Rattle.std.specs.Prelude.{◌≡◌, ◌+◌, ◌*◌, leb};
ghost use Rattle.range.specs.Range.{within, multiple};

// The product of two smaller numbers is a u64. (A quotient or `checked_mul`, which serve for all, take longer.)
const HALF: u64 = 0x1_0000_0000;

// Whether count elements, a stride apart from a place on, end at or before another place.
pub fn ends_by(place: u64, count: u64, stride: u64, to: u64) -> bool
    ensures { result ≡ leb (place + count * stride) to }
{
    if to < place {
        return false;
    }
    if (count < HALF) & (stride < HALF) {
        return count * stride <= to - place;
    }
    if stride == 0 {
        return true;
    }
    count <= (to - place) / stride
}

// Whether they lie between two places.
pub fn within(from: u64, to: u64, place: u64, count: u64, stride: u64) -> bool
    ensures { result ≡ within from to place (count * stride) }
{
    (from <= place) & ends_by(place, count, stride, to)
}

// Whether they lie in a section of some size at some place, after its header, which ends at head.
pub fn in_section(at: u64, head: u64, size: u64, place: u64, count: u64, stride: u64) -> bool
    ensures { result ≡ within (at + head) (at + size) place (count * stride) }
{
    if place < at {
        return false;
    }
    within(head, size, place - at, count, stride)
}

// Whether n is a multiple of step; of 0 only 0 is.
pub fn multiple(n: u64, step: u64) -> bool
    ensures { result ≡ multiple n step }
{
    if step == 0 {
        return n == 0;
    }
    n % step == 0
}
