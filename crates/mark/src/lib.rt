// Marks of a walk, read and written.
#![tactic(auto)]

ghost use Rattle.std.specs.Prelude.{true, ◌≡◌, ◌+◌, ◌*◌, ◌≤◌, ◌<◌, length, get_or};
ghost use Rattle.layout.specs.Bytes.{bytes, fields};
ghost use Rattle.buffer.specs.Over.{over};
ghost use Rattle.mark.specs.Mark.{deepest, head_fields, decode, is_named, path_in};

// Room for every mark.
pub const ROOM: usize = 805;

const KIND: u16 = 1;

const DEEPEST: usize = 200;

// The bytes before the numbers, and those of a number.
const HEAD: usize = 5;

const NUMBER: usize = 4;

// Whether there are no bytes, or those of a well-formed mark.
pub fn well_formed(mark: &[u8]) -> bool
    ensures { result ≡ is_named (decode mark.now) }
{
    if mark.len() == 0 {
        return true;
    }
    let size = le::u16_at(mark, 0, 0) as usize;
    let kind = le::u16_at(mark, 0, 2);
    let depth = le::u8_at(mark, 0, 4) as usize;
    (size == mark.len()) & (size == HEAD + NUMBER * depth) & (kind == KIND) & (depth <= DEEPEST)
}

// The depth of its context.
pub fn depth(mark: &[u8]) -> usize
    requires { is_named (decode mark.now) ≡ true }
    ensures { result ≡ length (path_in (decode mark.now)) }
{
    if mark.len() == 0 {
        return 0;
    }
    le::load_u8(mark, 4) as usize
}

// The number among its siblings of its context's forebear, or its own, with k levels above.
pub fn number_at(mark: &[u8], k: usize) -> u32
    requires mark_value { is_named (decode mark.now) ≡ true }
    requires k_in_bounds { k < length (path_in (decode mark.now)) }
    ensures { result ≡ get_or (path_in (decode mark.now)) k 0 }
{
    le::load_u32(mark, HEAD + NUMBER * k)
}

// What stands before the numbers.
pub fn put_head(out: &mut [u8], depth: usize)
    requires depth_le_deepest { depth ≤ deepest }
    requires in_bounds { 5 ≤ length out.old }
    ensures { out.new ≡ over out.old 0 (fields (head_fields depth)) }
{
    put::store_u16(out, 0, (HEAD + NUMBER * depth) as u16);
    put::store_u16(out, 2, KIND);
    out[4] = depth as u8;
}

// The number of the level that has k above it.
pub fn put_number(out: &mut [u8], k: usize, number: u32)
    requires { 5 + 4 * k + 4 ≤ length out.old }
    ensures { out.new ≡ over out.old (5 + 4 * k) (bytes 4 number) }
{
    put::store_u32(out, HEAD + NUMBER * k, number);
}
