// Whether the numbers that a function reads rise.
ghost use Rattle.std.specs.Prelude.{true, ◌≡◌, ℕ, ◌+◌, ◌*◌, ◌^◌, ◌≤◌, ◌<◌, leb};
ghost use Rattle.seq.specs.Sequence.{rises, Gives};

// Whether a number is at least a gap above another, for any gap. No sum is made: a number may be the greatest u64.
fn follows(number: u64, last: u64, gap: u64) -> bool
    ensures { result ≡ leb (last + gap) number }
{
    if number < last {
        return false;
    }
    gap <= number - last
}

// Whether the first n numbers rise, where the first is not too low.
fn rise_singly<F: Fn(u64) -> u64>(number: &F, n: u64, gap: u64) -> bool
    requires n_nonzero { 0 < n }
    requires read { (k : ℕ) → k < n → F.pre number.now k }
    ensures { (least : ℕ) (f : ℕ → ℕ) → Gives (F.post number.now) f n → least ≤ f 0 → result ≡ rises least gap f n }
{
    for k in 1..n {
        if !follows(number(k), number(k - 1), gap) {
            return false;
        }
    }
    true
}

// Whether each of the four numbers after number k is at least a gap above the one before it: one branch for the four.
fn four_rise<F: Fn(u64) -> u64>(number: &F, gap: u64, k: u64) -> bool
    requires k_bound { k + 4 < 2 ^ 64 }
    requires read { (j : ℕ) → j < k + 5 → F.pre number.now j }
    ensures { (least : ℕ) (f : ℕ → ℕ) → Gives (F.post number.now) f (k + 5) → rises least gap f (k + 1) ≡ true → result ≡ rises least gap f (k + 5) }
{
    let before = number(k);
    let one = number(k + 1);
    let two = number(k + 2);
    let three = number(k + 3);
    let four = number(k + 4);
    (follows(one, before, gap) & follows(two, one, gap))
        & (follows(three, two, gap) & follows(four, three, gap))
}

// Whether the numbers behind number `last` rise, so many fours of them, where those up to it do.
fn rise_by_fours<F: Fn(u64) -> u64>(number: &F, last: u64, fours: u64, gap: u64) -> bool
    requires in_bounds { last + fours * 4 < 2 ^ 64 }
    requires read { (k : ℕ) → k < last + fours * 4 + 1 → F.pre number.now k }
    ensures { (least : ℕ) (f : ℕ → ℕ) → Gives (F.post number.now) f (last + fours * 4 + 1) → rises least gap f (last + 1) ≡ true
        → result ≡ rises least gap f (last + fours * 4 + 1) }
{
    for four in 0..fours {
        if !four_rise(number, gap, last + four * 4) {
            return false;
        }
    }
    true
}

// Whether n numbers are at least `least`, and each is at least a gap above the one before it. What reads a number may be called more than once.
pub fn rises<F: Fn(u64) -> u64 + Drop>(number: F, n: u64, least: u64, gap: u64) -> bool
    requires read { (k : ℕ) → k < n → F.pre number k }
    ensures { (f : ℕ → ℕ) → Gives (F.post number) f n → result ≡ rises least gap f n }
{
    if n == 0 {
        return true;
    }
    if number(0) < least {
        return false;
    }
    // what is no four comes first: short sequences are no more than that
    let singly = (n - 1) % 4;
    rise_singly(&number, singly + 1, gap) && rise_by_fours(&number, singly, (n - 1) / 4, gap)
}
