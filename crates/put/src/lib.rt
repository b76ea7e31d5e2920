// Numbers and texts written to lent bytes.
#![tactic(auto)]

ghost use Rattle.std.specs.Prelude.{◌≡◌, ◌+◌, ◌≤◌, length};
ghost use Rattle.layout.specs.Bytes.{bytes};
ghost use Rattle.buffer.specs.Over.{over};

// Numbers, the lowest byte first: each compiles to one store.
pub fn store_u16(out: &mut [u8], at: usize, x: u16)
    requires { at + 2 ≤ length out.old }
    ensures { out.new ≡ over out.old at (bytes 2 x) }
{
    out[at..at + 2].copy_from_slice(&x.to_le_bytes());
}

pub fn store_u32(out: &mut [u8], at: usize, x: u32)
    requires { at + 4 ≤ length out.old }
    ensures { out.new ≡ over out.old at (bytes 4 x) }
{
    out[at..at + 4].copy_from_slice(&x.to_le_bytes());
}

pub fn store_u64(out: &mut [u8], at: usize, x: u64)
    requires { at + 8 ≤ length out.old }
    ensures { out.new ≡ over out.old at (bytes 8 x) }
{
    out[at..at + 8].copy_from_slice(&x.to_le_bytes());
}

// A text as it is.
pub fn text(out: &mut [u8], at: usize, text: &[u8])
    requires { at + length text.now ≤ length out.old }
    ensures { out.new ≡ over out.old at text.now }
{
    out[at..at + text.len()].copy_from_slice(text);
}
