// Many lookups in one block: one check of it, and then two searches for each pair of ids.
#![tactic(auto)]

ghost use Rattle.std.specs.Prelude.{◌≡◌, ◌+◌, ◌*◌, ◌/◌, ◌≤◌, length};
ghost use Rattle.buffer.specs.Over.{over};
ghost use Rattle.block.specs.Block.{found_words};
ghost use Rattle.block.specs.Sound.{SoundBlock};
ghost use Rattle.batch.specs.Batch.{pairs_in, answers_in, batch_in, profile_batch, cct_batch};
ghost use Rattle.batch.specs.Sound.{SoundIn};

use block::{Block, Shape};
use refusal::Refusal;

// What was found, in two words from a place on.
fn put_found(found: Option<u64>, out: &mut [u64], at: usize)
    requires { at + 2 ≤ length out.old }
    ensures { out.new ≡ over out.old at (found_words found) }
{
    match found {
        Some(bits) => buffer::store(out, at, &[0, bits]),
        None => buffer::store(out, at, &[100, 0]),
    }
}

// The answers to all pairs, in a checked block: each is looked for first where the last one was.
fn find_all(file: &[u8], h: Shape, b: Block, asked: &[u64], answers: &mut [u64])
    requires sound_block { SoundBlock file.now h b }
    requires asked_in_bounds { 2 * pairs_in asked.now ≤ length answers.old }
    ensures { answers.new ≡ answers_in file.now h b asked.now answers.old }
{
    let mut index = 0;
    let mut value = 0;
    // the answers by their place: a proof knows nothing of what is written through `chunks_exact_mut`
    for (k, pair) in asked.chunks_exact(2).enumerate() {
        let found = block::find_near(file, h, b, pair[0], pair[1], &mut index, &mut value);
        put_found(found, answers, 2 * k);
    }
}

// The same, or the refusal of the block.
fn answer_all(
    file: &[u8],
    h: Shape,
    checked: Result<Block, Refusal>,
    asked: &[u64],
    answers: &mut [u64],
) -> Result<(), Refusal>
    requires sound_in { SoundIn file.now h checked }
    requires asked_in_bounds { 2 * pairs_in asked.now ≤ length answers.old }
    ensures value { result ≡ (batch_in file.now h checked asked.now answers.old).check }
    ensures answers_after { answers.new ≡ (batch_in file.now h checked asked.now answers.old).answers }
{
    find_all(file, h, checked?, asked, answers);
    Ok(())
}

// The values of contexts and metrics in a profile: 17, then as a lookup is refused.
pub fn profile_lookups(
    file: &[u8],
    profile: u64,
    asked: &[u64],
    answers: &mut [u64],
) -> Result<(), Refusal>
    ensures value { result ≡ (profile_batch file.now profile asked.now answers.old).check }
    ensures answers_after { answers.new ≡ (profile_batch file.now profile asked.now answers.old).answers }
{
    if answers.len() / 2 < asked.len() / 2 {
        return Err(Refusal::Room);
    }
    let h = block::profile_shape();
    let checked = lookup::profile_block(file, profile);
    answer_all(file, h, checked, asked, answers)
}

// The values of metrics and profiles in a context.
pub fn cct_lookups(
    file: &[u8],
    context: u64,
    asked: &[u64],
    answers: &mut [u64],
) -> Result<(), Refusal>
    ensures value { result ≡ (cct_batch file.now context asked.now answers.old).check }
    ensures answers_after { answers.new ≡ (cct_batch file.now context asked.now answers.old).answers }
{
    if answers.len() / 2 < asked.len() / 2 {
        return Err(Refusal::Room);
    }
    let h = block::cct_shape();
    let checked = lookup::cct_block(file, context);
    answer_all(file, h, checked, asked, answers)
}
