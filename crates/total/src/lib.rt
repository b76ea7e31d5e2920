// Totals over entries in order, one entry at a time.
#![tactic(auto)]

ghost use Rattle.std.specs.Prelude.{◌≡◌, true, false, ℕ};
ghost use Rattle.std.specs.Float.{binary64};
ghost use Rattle.std.specs.Float.Ieee.{of_bits, add};
ghost use Rattle.refusal.specs.Check.{Found};
ghost use Rattle.float.specs.Float.{finite, less};
ghost use Rattle.total.specs.Totals.{start_of, step_of, finish, Good};

// Of the entries so far: the first smallest and the first greatest, each by its identifier and bits, and the sum.
#[derive(Clone, Copy)]
pub struct Tally {
    pub least_of: u64,
    pub least: u64,
    pub greatest_of: u64,
    pub greatest: u64,
    pub sum: f64,
}

// Of all entries.
#[derive(Clone, Copy, Debug, PartialEq, Eq)]
pub struct Totals {
    pub count: u64,
    pub least_of: u64,
    pub least: u64,
    pub greatest_of: u64,
    pub greatest: u64,
    pub sum: u64,
}

// The first entry alone.
pub fn start(id: u64, bits: u64) -> Tally
    requires { finite bits ≡ true }
    ensures value { result ≡ start_of id bits }
    ensures good { Good result }
{
    Tally {
        least_of: id,
        least: bits,
        greatest_of: id,
        greatest: bits,
        sum: f64::from_bits(bits),
    }
}

// The sum with one value more.
fn plus(t: Tally, bits: u64) -> f64
    requires { finite bits ≡ true }
    ensures { result ≡ add binary64 t.sum (of_bits binary64 bits) }
{
    t.sum + f64::from_bits(bits)
}

// One entry more, a new greatest.
pub fn raise(t: Tally, id: u64, bits: u64) -> Tally
    requires bits_value { finite bits ≡ true }
    requires good { Good t }
    requires bits_value_2 { less t.greatest bits ≡ true }
    requires least_value { less bits t.least ≡ false }
    ensures value { result ≡ step_of t id bits }
    ensures good_2 { Good result }
{
    Tally {
        least_of: t.least_of,
        least: t.least,
        greatest_of: id,
        greatest: bits,
        sum: plus(t, bits),
    }
}

// One entry more, a new least.
pub fn lower(t: Tally, id: u64, bits: u64) -> Tally
    requires bits_value { finite bits ≡ true }
    requires good { Good t }
    requires bits_value_2 { less t.greatest bits ≡ false }
    requires least_value { less bits t.least ≡ true }
    ensures value { result ≡ step_of t id bits }
    ensures good_2 { Good result }
{
    Tally {
        least_of: id,
        least: bits,
        greatest_of: t.greatest_of,
        greatest: t.greatest,
        sum: plus(t, bits),
    }
}

// One entry more, neither: only the sum grows, whatever its id is.
pub fn add(t: Tally, bits: u64) -> Tally
    requires bits_value { finite bits ≡ true }
    requires good { Good t }
    requires bits_value_2 { less t.greatest bits ≡ false }
    requires least_value { less bits t.least ≡ false }
    ensures by_index { (id : ℕ) → result ≡ step_of t id bits }
    ensures good_2 { Good result }
{
    Tally {
        least_of: t.least_of,
        least: t.least,
        greatest_of: t.greatest_of,
        greatest: t.greatest,
        sum: plus(t, bits),
    }
}

// The totals after n entries.
pub fn finish(n: u64, t: Tally) -> Totals
    requires { Good t }
    ensures { Found result ≡ finish n t }
{
    Totals {
        count: n,
        least_of: t.least_of,
        least: t.least,
        greatest_of: t.greatest_of,
        greatest: t.greatest,
        sum: f64::to_bits(t.sum),
    }
}
