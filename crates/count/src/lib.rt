// How many elements a file has.
#![tactic(auto)]

ghost use Rattle.std.specs.Prelude.{◌≡◌, ◌+◌, ◌≤◌, length};
ghost use Rattle.open.specs.Format.{profile, cct, trace, infos_array};
ghost use Rattle.array.specs.Stored.{array_of};
ghost use Rattle.count.specs.Count.{count_of};

use open::INFOS;
use refusal::Refusal;

// Elements of the array whose section header stands at a place.
fn elements(file: &[u8], at: u64) -> u64
    requires { at + 13 ≤ length file.now }
    ensures { result ≡ (array_of file.now at infos_array).count }
{
    le::load_u32(file, at as usize + 8) as u64
}

// Profiles of profile.db.
pub fn profiles(file: &[u8]) -> Result<u64, Refusal>
    ensures { result ≡ count_of profile file.now }
{
    let sections = open::open_profile(file)?;
    Ok(elements(file, sections[INFOS][0]))
}

// Contexts of cct.db.
pub fn contexts(file: &[u8]) -> Result<u64, Refusal>
    ensures { result ≡ count_of cct file.now }
{
    let sections = open::open_cct(file)?;
    Ok(elements(file, sections[INFOS][0]))
}

// Lines of trace.db.
pub fn lines(file: &[u8]) -> Result<u64, Refusal>
    ensures { result ≡ count_of trace file.now }
{
    let sections = open::open_trace(file)?;
    Ok(elements(file, sections[INFOS][0]))
}
