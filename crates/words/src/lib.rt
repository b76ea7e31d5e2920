// Answers as C programs take them: the number as the result, and the values in lent words where the number is 0.
#![tactic(auto)]

ghost use Rattle.std.specs.Prelude.{List, [], ◌∷◌, ◌≡◌, ℕ, refl, Ok, Err, Option, Some, None};
ghost use Rattle.refusal.specs.declared.Refusal.{Refusal};
ghost use Rattle.refusal.specs.Check.{Answer};
ghost use Rattle.refusal.specs.Words.{refused_words, code_in, number_words};
ghost use Rattle.function.specs.Function.{function_words};
ghost use Rattle.text.specs.String.{text_words};
ghost use Rattle.meta.specs.Names.{source_words};
ghost use Rattle.metric.specs.Levels.{metric_words, scope_words, summary_words};
ghost use Rattle.traversal.specs.Walk.{walked_words};
ghost use Rattle.tuple.specs.Tuple.{tuple_words, identifier_words};
ghost use Rattle.trace.specs.Trace.{line_words, sample_words, last_words};
ghost use Rattle.total.specs.Totals.{totals_words};
ghost use Rattle.dcpi.specs.Answers.{sample_count_words, sample_totals_words};
ghost use Rattle.words.specs.Convention.{words_in};

use array::Array;
use dcpi::SampleTotals;
use function::Function;
use meta::SourceFile;
use metric::{Metric, Scope, Summary};
use refusal::Refusal;
use text::Text;
use total::Totals;
use trace::{Line, Sample};
use traversal::Walked;
use tuple::Identifier;

// What an answer of a type is in words, and the words of its values.
pub trait Words<const N: usize> {
    ghost in_words: { Answer Self → List ℕ };

    fn words(self) -> [u64; N]
        ensures { 0 ∷ result ≡ in_words (Ok self) };

    ghost refuses: { (r : Refusal) → in_words (Err r) ≡ refused_words r };
}

// The same of an answer that may be missing.
pub trait FoundWords<const N: usize> {
    ghost in_words: { Answer (Option Self) → List ℕ };

    fn words(self) -> [u64; N]
        ensures { 0 ∷ result ≡ in_words (Ok (Some self)) };

    ghost misses: { in_words (Ok None) ≡ 100 ∷ [] };

    ghost refuses: { (r : Refusal) → in_words (Err r) ≡ refused_words r };
}

// Place and length.
impl Words<2> for Text {
    ghost in_words = { text_words };

    fn words(self) -> [u64; 2] {
        [self.place, self.length]
    }

    ghost refuses = { λ r. refl };
}

// Place and length of its path, and 1 if it was copied.
impl Words<3> for SourceFile {
    ghost in_words = { source_words };

    fn words(self) -> [u64; 3] {
        [self.path.place, self.path.length, u64::from(self.copied)]
    }

    ghost refuses = { λ r. refl };
}

// Place and length of its name, and the number of its scopes.
impl Words<3> for Metric {
    ghost in_words = { metric_words };

    fn words(self) -> [u64; 3] {
        [self.name.place, self.name.length, self.scopes]
    }

    ghost refuses = { λ r. refl };
}

// The same with the number of its summaries, and its metric id.
impl Words<4> for Scope {
    ghost in_words = { scope_words };

    fn words(self) -> [u64; 4] {
        [
            self.name.place,
            self.name.length,
            self.summaries,
            self.prop_metric_id,
        ]
    }

    ghost refuses = { λ r. refl };
}

// Place and length of its formula, how it combines, and its metric id.
impl Words<4> for Summary {
    ghost in_words = { summary_words };

    fn words(self) -> [u64; 4] {
        [
            self.formula.place,
            self.formula.length,
            self.combine,
            self.stat_metric_id,
        ]
    }

    ghost refuses = { λ r. refl };
}

// 1 if it has no name, place and length of the name, module, offset, file and line.
impl Words<7> for Function {
    ghost in_words = { function_words };

    fn words(self) -> [u64; 7] {
        [
            u64::from(self.name.place == 0),
            self.name.place,
            self.name.length,
            self.load_module,
            self.offset,
            self.file,
            self.line,
        ]
    }

    ghost refuses = { λ r. refl };
}

// A count, or a length.
impl Words<1> for u64 {
    ghost in_words = { number_words };

    fn words(self) -> [u64; 1] {
        [self]
    }

    ghost refuses = { λ r. refl };
}

// Of a tuple the number of its identifications.
impl Words<1> for Array {
    ghost in_words = { tuple_words };

    fn words(self) -> [u64; 1] {
        [self.count]
    }

    ghost refuses = { λ r. refl };
}

impl Words<4> for Identifier {
    ghost in_words = { identifier_words };

    fn words(self) -> [u64; 4] {
        [self.kind, self.flags, self.logical, self.physical]
    }

    ghost refuses = { λ r. refl };
}

// Its profile, and the number of its samples.
impl Words<2> for Line {
    ghost in_words = { line_words };

    fn words(self) -> [u64; 2] {
        [self.profile, self.samples]
    }

    ghost refuses = { λ r. refl };
}

// Timestamp and context.
impl Words<2> for Sample {
    ghost in_words = { sample_words };

    fn words(self) -> [u64; 2] {
        [self.time, self.context]
    }

    ghost refuses = { λ r. refl };
}

// How many counts are not zero, and their sum.
impl Words<2> for SampleTotals {
    ghost in_words = { sample_totals_words };

    fn words(self) -> [u64; 2] {
        [self.offsets, self.samples]
    }

    ghost refuses = { λ r. refl };
}

// Its position, timestamp and context.
impl FoundWords<3> for Sample {
    ghost in_words = { last_words };

    fn words(self) -> [u64; 3] {
        [self.position, self.time, self.context]
    }

    ghost misses = { refl };

    ghost refuses = { λ r. refl };
}

// Count; profile and bits of the smallest, and of the greatest; bits of the sum.
impl FoundWords<6> for Totals {
    ghost in_words = { totals_words };

    fn words(self) -> [u64; 6] {
        [
            self.count,
            self.least_of,
            self.least,
            self.greatest_of,
            self.greatest,
            self.sum,
        ]
    }

    ghost misses = { refl };

    ghost refuses = { λ r. refl };
}

// The count for an offset.
impl FoundWords<1> for u64 {
    ghost in_words = { sample_count_words };

    fn words(self) -> [u64; 1] {
        [self]
    }

    ghost misses = { refl };

    ghost refuses = { λ r. refl };
}

// An answer: 0 and its values, or the refusal's number, with no word written.
pub fn put<const N: usize, T: Words<N>>(answer: Result<T, Refusal>, out: &mut [u64; N]) -> u32
    ensures value { result ≡ code_in (T.in_words answer) }
    ensures out_after { out.new ≡ words_in out.old (T.in_words answer) }
{
    match answer {
        Ok(values) => {
            *out = values.words();
            0
        }
        Err(r) => u32::from(r),
    }
}

// The same of one that may be missing: 100 then.
pub fn put_found<const N: usize, T: FoundWords<N>>(
    answer: Result<Option<T>, Refusal>,
    out: &mut [u64; N],
) -> u32
    ensures value { result ≡ code_in (T.in_words answer) }
    ensures out_after { out.new ≡ words_in out.old (T.in_words answer) }
{
    match answer {
        Ok(Some(values)) => {
            *out = values.words();
            0
        }
        Ok(None) => 100,
        Err(r) => u32::from(r),
    }
}

// The number listed is written whatever the end: 0 whole, 101 cut, else the refusal's number.
pub fn put_walked(answer: Walked, out: &mut [u64; 1]) -> u32
    ensures { (result ∷ out.new) ≡ walked_words answer }
{
    match answer {
        Walked::Complete(n) => {
            *out = [n as u64];
            0
        }
        Walked::Truncated(n) => {
            *out = [n as u64];
            101
        }
        Walked::Refused(r, n) => {
            *out = [n as u64];
            u32::from(r)
        }
    }
}
