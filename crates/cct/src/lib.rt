// Totals over one context and metric of cct.db.
#![tactic(auto)]

ghost use Rattle.std.specs.Prelude.{◌≡◌};
ghost use Rattle.block.specs.Sound.{SoundBlock, SoundPart};
ghost use Rattle.cct.specs.Totals.{part_totals, totals_in, cct_totals};

use block::{Block, Part, Shape};
use refusal::Refusal;
use total::Totals;

// Of the values of a sub-array, in stored order. An id is read only for a new least or greatest.
fn part_totals(file: &[u8], h: Shape, p: Part) -> Result<Option<Totals>, Refusal>
    requires { SoundPart file.now h p }
    ensures { result ≡ part_totals file.now h p }
{
    let first = block::word_at(file, p.place, h.inner, p.length, 0);
    if !float::is_finite(first) {
        return Err(Refusal::NotFinite);
    }
    let mut t = total::start(block::id_at(file, p.place, h.inner, p.length, 0), first);
    // the least and the greatest as floats too: only the value compared with them is converted
    let mut low = f64::from_bits(first);
    let mut high = low;
    for k in 1..p.length {
        let bits = block::word_at(file, p.place, h.inner, p.length, k);
        if !float::is_finite(bits) {
            return Err(Refusal::NotFinite);
        }
        let x = f64::from_bits(bits);
        let above = high < x;
        if above {
            t = total::raise(t, block::id_at(file, p.place, h.inner, p.length, k), bits);
            high = x;
        } else if x < low {
            t = total::lower(t, block::id_at(file, p.place, h.inner, p.length, k), bits);
            low = x;
        } else {
            t = total::add(t, bits);
        }
    }
    Ok(Some(total::finish(p.length, t)))
}

// Of an outer id of a checked block.
fn totals_in(file: &[u8], h: Shape, b: Block, outer: u64) -> Result<Option<Totals>, Refusal>
    requires { SoundBlock file.now h b }
    ensures { result ≡ totals_in file.now h b outer }
{
    let Some(i) = block::index_of(file, h, b, outer) else {
        return Ok(None);
    };
    part_totals(file, h, block::part_at(file, h, b, i))
}

// Over one context and metric.
pub fn totals(file: &[u8], context: u64, metric: u64) -> Result<Option<Totals>, Refusal>
    ensures { result ≡ cct_totals file.now context metric }
{
    let b = lookup::cct_block(file, context)?;
    let h = block::cct_shape();
    totals_in(file, h, b, metric)
}
