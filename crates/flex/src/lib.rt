// Flex words: which fields are present, and where.
#![tactic(auto)]

ghost use Rattle.std.specs.Prelude.{◌≡◌, ◌<◌};
ghost use Rattle.flex.specs.Names as Flex;
ghost use Rattle.flex.specs.Packing.{bit, is_present, before, place, words};

// The fields, in packing order.
pub const FUNCTION: u64 = 0;

pub const FILE: u64 = 1;

pub const LINE: u64 = 2;

pub const MODULE: u64 = 3;

pub const OFFSET: u64 = 4;

// How many they are.
const FIELDS: u64 = 5;

#[tactic(auto, unfolding(crate::specs::Packing::bit))]
fn bit(flags: u8, b: u32) -> bool
    requires { b < 8 }
    ensures { result ≡ bit flags b }
{
    (flags >> b) % 2 == 1
}

// Bit 0 brings the function.
#[tactic(auto, unfolding(crate::specs::Packing::is_present, crate::specs::Packing::presence))]
pub fn has_function(flags: u8) -> bool
    ensures { result ≡ is_present flags Flex.function }
{
    bit(flags, 0)
}

// Bit 1 brings file and line.
#[tactic(auto, unfolding(crate::specs::Packing::is_present, crate::specs::Packing::presence))]
pub fn has_source(flags: u8) -> bool
    ensures { (result ≡ is_present flags Flex.file) × (result ≡ is_present flags Flex.line) }
{
    bit(flags, 1)
}

// Bit 2 brings module and offset.
#[tactic(auto, unfolding(crate::specs::Packing::is_present, crate::specs::Packing::presence))]
pub fn has_point(flags: u8) -> bool
    ensures { (result ≡ is_present flags Flex.load_module) × (result ≡ is_present flags Flex.offset) }
{
    bit(flags, 2)
}

// How many present fields stand before one. By sums of bits: a count over a table of the packing stays a loop.
fn before(flags: u8, field: u64) -> usize
    ensures { result ≡ before flags field }
{
    let function = (flags % 2) as usize;
    let source = (flags / 2 % 2) as usize;
    let point = (flags / 4 % 2) as usize;
    match field {
        FUNCTION => 0,
        FILE => function,
        LINE => function + source,
        MODULE => function + 2 * source,
        OFFSET => function + 2 * source + point,
        _ => function + 2 * source + 2 * point,
    }
}

// Where a present field starts, in bytes from the start of flex.
pub fn place(flags: u8, field: u64) -> usize
    ensures { result ≡ place flags field }
{
    8 * before(flags, field)
}

// How many words the flags need.
pub fn words(flags: u8) -> usize
    ensures { result ≡ words flags }
{
    before(flags, FIELDS)
}
