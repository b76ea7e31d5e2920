// What the programs that run cases read their lists and files with, and what they print numbers and bytes with.
#![tactic(auto)]

mod file;
mod show;

ghost use Rattle.std.specs.Prelude.{◌≡◌, ℕ, ◌-◌, ◌≤◌, min, drop, length, slice_index_or, List, []};
ghost use Rattle.std.specs.Iterator.{YieldsFirstRef, item_count};
ghost use Rattle.script.specs.Line.{part_at, decimal, parts};

pub use file::{read_file, read_full};
pub use show::{Hexadecimal, Spaced, heading};
use std::marker::Model;

// A text from a place on.
fn rest_from(text: &[u8], at: usize) -> &[u8]
    ensures { result.now ≡ drop at text.now }
{
    text.get(at..).unwrap_or_default()
}

// The part of a text from a place to just before the next stop byte.
fn part(stop: u8, text: &[u8], at: usize) -> &[u8]
    ensures result_value { result.now ≡ part_at stop text.now at }
    ensures result_in_bounds { length result.now ≤ length text.now - at }
{
    let rest = rest_from(text, at);
    &rest[..scan::until(stop, rest)]
}

/// The line from a place on, without its newline; `lines` gives one after the other.
pub fn line(list: &[u8], at: usize) -> &[u8]
    ensures result_value { result.now ≡ part_at 10 list.now at }
    ensures result_in_bounds { length result.now ≤ length list.now - at }
{
    part(b'\n', list, at)
}

/// The word from a place on, without the space after it; `words` gives one after the other.
pub fn word(list: &[u8], at: usize) -> &[u8]
    ensures result_value { result.now ≡ part_at 32 list.now at }
    ensures result_in_bounds { length result.now ≤ length list.now - at }
{
    part(b' ', list, at)
}

/// The number that decimal digits write, or the greatest.
pub fn decimal(text: &[u8]) -> u64
    ensures { result ≡ decimal text.now }
{
    text.iter().fold(0, |n: u64, byte| {
        n.saturating_mul(10).saturating_add(u64::from(*byte % 16))
    })
}

/// The parts of a text, each without the stop byte that ends it.
#[derive(Drop)]
pub struct Parts<'a> {
    stop: u8,
    rest: &'a [u8],
}

impl<'a> Model for Parts<'a> {
    // The parts still to come.
    ghost Value = { List (List ℕ) };

    ghost view = { λ p. parts p.stop p.rest.now };
}

impl<'a> Iterator for Parts<'a> {
    type Item = &'a [u8];

    ghost next_gives = { YieldsFirstRef (λ s. s) };

    ghost remaining = { item_count (λ s. s) };

    fn next(&mut self) -> Option<&'a [u8]> {
        if self.rest.is_empty() {
            return None;
        }
        let part = part(self.stop, self.rest, 0);
        self.rest = rest_from(self.rest, part.len() + 1);
        Some(part)
    }
}

impl<'a> Parts<'a> {
    /// The next part, or an empty one behind the last.
    pub fn next_or_empty(&mut self) -> &'a [u8]
        ensures part { result.now ≡ slice_index_or self.old 0 [] }
        ensures rest { self.new ≡ drop 1 self.old }
    {
        self.next().unwrap_or_default()
    }

    /// The number that the next part writes in decimal; 0 behind the last.
    pub fn number(&mut self) -> u64
        ensures value { result ≡ decimal (slice_index_or self.old 0 []) }
        ensures rest { self.new ≡ drop 1 self.old }
    {
        decimal(self.next_or_empty())
    }

    /// The same for a size, which is no greater than `most`.
    pub fn size(&mut self, most: usize) -> usize
        ensures value { result ≡ min (decimal (slice_index_or self.old 0 [])) most }
        ensures rest { self.new ≡ drop 1 self.old }
    {
        self.number().min(most as u64) as usize
    }
}

/// The lines of a text. A newline at its end begins no other.
pub fn lines(text: &[u8]) -> Parts<'_>
    ensures { result ≡ parts 10 text.now }
{
    Parts {
        stop: b'\n',
        rest: text,
    }
}

/// The words of a line, with one space between two. A space at its end begins no other.
pub fn words(line: &[u8]) -> Parts<'_>
    ensures { result ≡ parts 32 line.now }
{
    Parts {
        stop: b' ',
        rest: line,
    }
}
