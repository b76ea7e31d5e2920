// Data that lies outside the sections of a file.
#![tactic(auto)]

ghost use Rattle.std.specs.Prelude.{[], ◌∷◌, ◌≡◌, ◌*◌, get_or};
ghost use Rattle.outside.specs.Outside.{apart, lies};

// Whether n elements, a stride apart from a place on, share no byte with a section.
fn is_apart(at: u64, n: u64, stride: u64, section: [u64; 2]) -> bool
    ensures { result ≡ apart at (n * stride) (get_or section 0 0) (get_or section 1 0) }
{
    let place = section[0];
    let size = section[1];
    let none = (n == 0) | (stride == 0);
    let before = range::ends_by(at, n, stride, place);
    let after = range::ends_by(place, size, 1, at);
    ((size == 0) | none) | (before | after)
}

// Whether they lie between the header and the last eight bytes, and share no byte with two sections; one of size 0 has none.
pub fn lies(
    file: &[u8],
    header: u64,
    one: [u64; 2],
    other: [u64; 2],
    at: u64,
    n: u64,
    stride: u64,
) -> bool
    ensures { result ≡ lies file.now header (one ∷ other ∷ []) at (n * stride) }
{
    let apart = is_apart(at, n, stride, one) & is_apart(at, n, stride, other);
    range::within(header, open::last_eight(file), at, n, stride) & apart
}
