// How a walk ends, with the number of contexts listed.
#![tactic(auto)]

#[derive(Clone, Copy)]
pub enum Walked {
    Complete(usize),
    Truncated(usize),
    Refused(refusal::Refusal, usize),
}
