// Lookups in profile.db and cct.db.
#![tactic(auto)]

ghost use Rattle.std.specs.Prelude.{[], ◌∷◌, ◌≡◌, ◌+◌, ◌≤◌, length, get_or};
ghost use Rattle.open.specs.Format.{infos_array};
ghost use Rattle.array.specs.Element.{Bounded};
ghost use Rattle.array.specs.Stored.{array_of};
ghost use Rattle.block.specs.Block.{block_at};
ghost use Rattle.block.specs.Sound.{Widths};
ghost use Rattle.lookup.specs.Lookup.{checked_block, checked_at, profile_block, cct_block, profile_lookup, cct_lookup};

use block::{Block, Shape};
use open::{ID_TUPLES, INFOS};
use refusal::Refusal;

// A block that keeps the rules.
fn checked_block(
    file: &[u8],
    h: Shape,
    one: [u64; 2],
    other: [u64; 2],
    at: u64,
) -> Result<Block, Refusal>
    requires { Widths h }
    ensures { result ≡ checked_block file.now h (one ∷ other ∷ []) (block_at file.now h at) }
{
    let b = block::block_at(file, h, at);
    block::check(file, h, one, other, b)?;
    Ok(b)
}

// The block of element i of the array in the first of two sections; the other may have size 0.
fn checked_at(
    file: &[u8],
    h: Shape,
    one: [u64; 2],
    other: [u64; 2],
    i: u64,
) -> Result<Block, Refusal>
    requires widths { Widths h }
    requires bounded { Bounded (array_of file.now (get_or one 0 0) infos_array) }
    requires one_in_bounds { get_or one 0 0 + 13 ≤ length file.now }
    ensures { result ≡ checked_at file.now h (one ∷ other ∷ []) i }
{
    let infos = array::of_infos(file, one[0]);
    let at = array::nth(infos, i)?;
    checked_block(file, h, one, other, at)
}

// The block of a profile of profile.db.
pub fn profile_block(file: &[u8], profile: u64) -> Result<Block, Refusal>
    ensures { result ≡ profile_block file.now profile }
{
    let sections = open::open_profile(file)?;
    let h = block::profile_shape();
    checked_at(file, h, sections[INFOS], sections[ID_TUPLES], profile)
}

// The block of a context of cct.db. Inlined, so that it is not copied on its way to the caller.
#[inline(always)]
pub fn cct_block(file: &[u8], context: u64) -> Result<Block, Refusal>
    ensures { result ≡ cct_block file.now context }
{
    let sections = open::open_cct(file)?;
    let h = block::cct_shape();
    checked_at(file, h, sections[INFOS], [0; 2], context)
}

// The value of a metric in a context of a profile.
pub fn profile_lookup(
    file: &[u8],
    profile: u64,
    context: u64,
    metric: u64,
) -> Result<Option<u64>, Refusal>
    ensures { result ≡ profile_lookup file.now profile context metric }
{
    let b = profile_block(file, profile)?;
    let h = block::profile_shape();
    Ok(block::find(file, h, b, context, metric))
}

pub fn cct_lookup(
    file: &[u8],
    profile: u64,
    context: u64,
    metric: u64,
) -> Result<Option<u64>, Refusal>
    ensures { result ≡ cct_lookup file.now profile context metric }
{
    let b = cct_block(file, context)?;
    let h = block::cct_shape();
    Ok(block::find(file, h, b, metric, profile))
}
