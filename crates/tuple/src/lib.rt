// Identifier tuples of profile.db.
#![tactic(auto)]

ghost use Rattle.std.specs.Prelude.{[], ◌∷◌, ◌≡◌, ◌+◌, ◌≤◌, length, get_or, Ok};
ghost use Rattle.open.specs.Format.{infos_array};
ghost use Rattle.array.specs.Element.{Bounded};
ghost use Rattle.array.specs.Stored.{array_of};
ghost use Rattle.tuple.specs.Tuple.{tuple_of, tuple_in, tuple_at, identifier_of, identifier_in, identifier_at};
ghost use Rattle.tuple.specs.Sound.{SectionInside};

use array::Array;
use open::{ID_TUPLES, INFOS};
use refusal::Refusal;

// One identification. Bit 0 of the flags is `isPhysical`.
#[derive(Clone, Copy, Debug, PartialEq, Eq)]
pub struct Identifier {
    pub kind: u64,
    pub flags: u64,
    pub logical: u64,
    pub physical: u64,
}

// The tuple at a place, as the array of its identifications: 7.
fn tuple_of(file: &[u8], section: [u64; 2], at: u64) -> Result<Array, Refusal>
    requires { SectionInside file.now section }
    ensures { result ≡ tuple_of file.now (get_or section 0 0) (get_or section 1 0) at }
{
    let n = le::u16_at(file, at, 0) as u64;
    let fits = range::in_section(section[0], 0, section[1], at, 8 + 16 * n, 1);
    if !(range::multiple(at, 8) & fits) {
        return Err(Refusal::Array);
    }
    Ok(Array {
        place: at + 8,
        count: n,
        stride: 16,
    })
}

// The tuple of a profile: 15, then 7.
fn tuple_in(file: &[u8], infos: [u64; 2], tuples: [u64; 2], profile: u64) -> Result<Array, Refusal>
    requires bounded { Bounded (array_of file.now (get_or infos 0 0) infos_array) }
    requires section_inside { SectionInside file.now tuples }
    requires infos_in_bounds { get_or infos 0 0 + 13 ≤ length file.now }
    ensures { result ≡ tuple_in file.now (infos ∷ tuples ∷ []) profile }
{
    let profiles = array::of_infos(file, infos[0]);
    let at = array::nth(profiles, profile)?;
    tuple_of(file, tuples, le::u64_at(file, at, 32))
}

pub fn tuple_at(file: &[u8], profile: u64) -> Result<Array, Refusal>
    ensures { result ≡ tuple_at file.now profile }
{
    let sections = open::open_profile(file)?;
    tuple_in(file, sections[INFOS], sections[ID_TUPLES], profile)
}

// The identification at a place.
fn identifier_of(file: &[u8], at: u64) -> Identifier
    ensures { Ok result ≡ identifier_of file.now at }
{
    Identifier {
        kind: le::u8_at(file, at, 0) as u64,
        flags: le::u16_at(file, at, 2) as u64,
        logical: le::u32_at(file, at, 4) as u64,
        physical: le::u64_at(file, at, 8),
    }
}

// Identification k of an array of them: 15.
fn identifier_in(file: &[u8], a: Array, k: u64) -> Result<Identifier, Refusal>
    requires { Bounded a }
    ensures { result ≡ identifier_in file.now a k }
{
    let at = array::nth(a, k)?;
    Ok(identifier_of(file, at))
}

// Identification k of a profile's tuple: 15 after the tuple's own rules.
pub fn identifier_at(file: &[u8], profile: u64, k: u64) -> Result<Identifier, Refusal>
    ensures { result ≡ identifier_at file.now profile k }
{
    let a = tuple_at(file, profile)?;
    identifier_in(file, a, k)
}
