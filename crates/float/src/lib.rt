// Floats by their 64 bits.
#![tactic(auto)]

ghost use Rattle.std.specs.Prelude.{◌≡◌};
ghost use Rattle.float.specs.Float.{finite, integer_bits};

// Whether bits are neither an infinity's nor a NaN's: below the infinity's, the sign put aside.
pub fn is_finite(bits: u64) -> bool
    ensures { result ≡ finite bits }
{
    bits % 0x8000_0000_0000_0000 < 0x7ff0_0000_0000_0000
}

// The bits of a number as a float, which has each number of 32 bits exactly.
pub fn of_u32(n: u32) -> u64
    ensures { result ≡ integer_bits n }
{
    f64::to_bits(n as f64)
}
