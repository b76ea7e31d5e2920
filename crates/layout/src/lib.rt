// Fixed bytes at a place of a file.
#![tactic(auto)]

ghost use Rattle.std.specs.Prelude.{◌≡◌, ◌+◌, ◌≤◌, length, take, drop};
ghost use Rattle.layout.specs.Stands.{stands};

// Whether eight bytes of a text, from i on, stand in the file at a place. As numbers, since a comparison of slices is a call.
fn same_eight(file: &[u8], at: usize, text: &[u8], i: usize) -> bool
    requires at_in_bounds { at + 8 ≤ length file.now }
    requires i_in_bounds { i + 8 ≤ length text.now }
    ensures { result ≡ stands file.now at (take 8 (drop i text.now)) }
{
    le::load_u64(file, at) == le::load_u64(text, i)
}

// The fourteen bytes of a magic, by two loads that overlap, and the eight of a footer.
pub fn has_fourteen(file: &[u8], at: usize, text: &[u8; 14]) -> bool
    requires { at + 14 ≤ length file.now }
    ensures { result ≡ stands file.now at text.now }
{
    same_eight(file, at, text, 0) & same_eight(file, at + 6, text, 6)
}

pub fn has_eight(file: &[u8], at: usize, text: &[u8; 8]) -> bool
    requires { at + 8 ≤ length file.now }
    ensures { result ≡ stands file.now at text.now }
{
    same_eight(file, at, text, 0)
}
