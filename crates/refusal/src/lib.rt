// Refusals and their numbers, and the check of one rule.
#![tactic(auto)]

ghost use Rattle.std.specs.Prelude.{◌≡◌};
ghost use Rattle.refusal.specs.Number.{number_of};
ghost use Rattle.refusal.specs.Check.{code_of, rule};

// Each with its number.
#[derive(Clone, Copy, Debug, PartialEq, Eq, Hash)]
pub enum Refusal {
    Short = 1,
    Magic = 2,
    Version = 3,
    Footer = 4,
    Section = 5,
    Stride = 6,
    Array = 7,
    String = 8,
    Link = 9,
    Context = 10,
    Order = 11,
    Deep = 12,
    Slot = 13,
    Twice = 14,
    Index = 15,
    NotFinite = 16,
    Room = 17,
    Mark = 18,
    Spelling = 19,
    Total = 20,
}

impl From<Refusal> for u32 {
    ghost from_gives = { λ r n. n ≡ number_of r };

    fn from(r: Refusal) -> u32 {
        r as u32
    }
}

// 0 for an answer that is given, and else the refusal's number.
pub fn code<T>(answer: &Result<T, Refusal>) -> u32
    ensures { result ≡ code_of answer.now }
{
    match answer {
        Ok(_) => 0,
        Err(r) => u32::from(*r),
    }
}

// The check of one rule.
pub fn rule(holds: bool, r: Refusal) -> Result<(), Refusal>
    ensures { result ≡ rule holds r }
{
    if holds { Ok(()) } else { Err(r) }
}
