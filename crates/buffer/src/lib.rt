// Words written to lent slices.
#![tactic(auto)]

ghost use Rattle.std.specs.Prelude.{◌≡◌, ◌+◌, ◌≤◌, length, replicate};
ghost use Rattle.buffer.specs.Over.{over};

// Every word is 0.
pub fn clear(out: &mut [u64])
    ensures { out.new ≡ replicate (length out.old) 0 }
{
    out.fill(0);
}

// Some words from a place on.
pub fn store(out: &mut [u64], at: usize, words: &[u64])
    requires { at + length words.now ≤ length out.old }
    ensures { out.new ≡ over out.old at words.now }
{
    out[at..at + words.len()].copy_from_slice(words);
}
