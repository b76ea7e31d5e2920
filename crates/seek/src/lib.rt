// Finds the context of a mark on a traversal, without its path at hand: by how many levels of the mark's path the way down is on, and how
// many siblings of the next level were visited, counted up to one more than the mark's number there.
#![tactic(auto)]

ghost use Rattle.std.specs.Prelude.{true, ◌≡◌, ◌<◌, length};
ghost use Rattle.mark.specs.Mark.{decode, is_named, path_in};
ghost use Rattle.seek.specs.Seek.{stepped};

#[derive(Clone, Copy)]
pub struct Seek {
    pub matched: usize,
    pub seen: u64,
}

// The two numbers after the next context, which is below `up` others. Where all levels match then, it is the mark's.
pub fn step(mark: &[u8], seek: Seek, up: usize) -> Seek
    requires mark_value { is_named (decode mark.now) ≡ true }
    requires matched_in_bounds { seek.matched < length (path_in (decode mark.now)) }
    ensures { result ≡ stepped (path_in (decode mark.now)) seek up }
{
    if seek.matched < up {
        return seek;
    }
    let number = mark::number_at(mark, up) as u64;
    if (seek.matched == up) & (seek.seen == number) {
        return Seek {
            matched: up + 1,
            seen: 0,
        };
    }
    if (seek.matched == up) & (seek.seen < number) {
        return Seek {
            matched: up,
            seen: seek.seen + 1,
        };
    }
    Seek {
        matched: up,
        seen: number + 1,
    }
}
