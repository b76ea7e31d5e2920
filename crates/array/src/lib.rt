// Arrays in a file: elements by position, links by place.
#![tactic(auto)]

ghost use Rattle.std.specs.Prelude.{◌≡◌, ◌+◌, ◌≤◌, length};
ghost use Rattle.open.specs.Format.{specs_array, infos_array, names_array};
ghost use Rattle.array.specs.Element.{element_at, linked, Bounded};
ghost use Rattle.array.specs.Stored.{array_of};

use refusal::Refusal;

// `count` elements, a stride apart from a place on.
#[derive(Clone, Copy)]
pub struct Array {
    pub place: u64,
    pub count: u64,
    pub stride: u64,
}

// The place of element i; 15 where there is none.
pub fn nth(a: Array, i: u64) -> Result<u64, Refusal>
    requires { Bounded a }
    ensures { result ≡ element_at a i }
{
    if i < a.count {
        Ok(a.place + i * a.stride)
    } else {
        Err(Refusal::Index)
    }
}

// Whether an element stands at a place, in constant time.
pub fn is_element(a: Array, place: u64) -> bool
    ensures { result ≡ linked a place }
{
    if place < a.place {
        return false;
    }
    let distance = place - a.place;
    if a.stride == 0 {
        return (distance == 0) & (0 < a.count);
    }
    (distance % a.stride == 0) & (distance / a.stride < a.count)
}

// The arrays of section headers that stand in the file: of modules, files and functions;
pub fn of_specs(file: &[u8], at: u64) -> Array
    requires { at + 14 ≤ length file.now }
    ensures { result ≡ array_of file.now at specs_array }
{
    let from = at as usize;
    let place = le::load_u64(file, from);
    let count = le::load_u32(file, from + 8) as u64;
    let spacing = le::load_u16(file, from + 12) as u64;
    Array {
        place,
        count,
        stride: spacing,
    }
}

// of metrics, profiles, cct entries and traces;
pub fn of_infos(file: &[u8], at: u64) -> Array
    requires { at + 13 ≤ length file.now }
    ensures { result ≡ array_of file.now at infos_array }
{
    let from = at as usize;
    let place = le::load_u64(file, from);
    let count = le::load_u32(file, from + 8) as u64;
    let stride = le::load_u8(file, from + 12) as u64;
    Array {
        place,
        count,
        stride,
    }
}

// of the names of identifier kinds.
pub fn of_names(file: &[u8], at: u64) -> Array
    requires { at + 9 ≤ length file.now }
    ensures { result ≡ array_of file.now at names_array }
{
    let from = at as usize;
    let place = le::load_u64(file, from);
    let count = le::load_u8(file, from + 8) as u64;
    Array {
        place,
        count,
        stride: 8,
    }
}
