// meta.db: metrics, their scopes, and the scopes' summaries.
#![tactic(auto)]

ghost use Rattle.std.specs.Prelude.{◌≡◌, IfOk};
ghost use Rattle.refusal.specs.Check.{code_of};
ghost use Rattle.open.specs.Format.{meta};
ghost use Rattle.open.specs.Kept.{Sections};
ghost use Rattle.text.specs.String.{text_bytes, text_code};
ghost use Rattle.array.specs.Element.{Bounded};
ghost use Rattle.metric.specs.Levels.{nested_of, nested_at, metric_nested, scope_nested, metric_found, scope_found, summary_found, metric_at, scope_at, summary_at, metric_text, scope_text, summary_text, BoundedIn};

use array::Array;
use open::METRICS;
use refusal::Refusal;
use text::Text;

// Of the section's header: its end, and where the strides of scopes and summaries stand.
const HEADER_END: u64 = 15;

const SCOPE_STRIDE: u64 = 13;

const SUMMARY_STRIDE: u64 = 14;

// A metric or a scope: its place, and the array of its scopes or summaries.
#[derive(Clone, Copy)]
struct Nested {
    at: u64,
    inner: Array,
}

// Each answer has the string, and the element's numbers.
#[derive(Clone, Copy)]
pub struct Metric {
    pub name: Text,
    pub scopes: u64,
}

#[derive(Clone, Copy)]
pub struct Scope {
    pub name: Text,
    pub summaries: u64,
    pub prop_metric_id: u64,
}

#[derive(Clone, Copy)]
pub struct Summary {
    pub formula: Text,
    pub combine: u64,
    pub stat_metric_id: u64,
}

// The inner array of the element at a place: 7.
fn nested_of(file: &[u8], section: [u64; 2], at: u64, stride: u64) -> Result<Nested, Refusal>
    ensures { result ≡ nested_of file.now section at stride }
{
    let place = le::u64_at(file, at, 16);
    let count = le::u16_at(file, at, 8) as u64;
    if open::array_rule(section[0], HEADER_END, section[1], place, count, stride) {
        let inner = Array {
            place,
            count,
            stride,
        };
        Ok(Nested { at, inner })
    } else {
        Err(Refusal::Array)
    }
}

// Element i of an array, with its inner array: 15, then 7.
fn nested_at(
    file: &[u8],
    section: [u64; 2],
    outer: Array,
    i: u64,
    stride: u64,
) -> Result<Nested, Refusal>
    requires { Bounded outer }
    ensures { result ≡ nested_at file.now section outer i stride }
{
    let place = array::nth(outer, i)?;
    nested_of(file, section, place, stride)
}

fn metric_nested(file: &[u8], sections: &[[u64; 2]; 8], m: u64) -> Result<Nested, Refusal>
    requires { Sections meta file.now sections.now }
    ensures value { result ≡ metric_nested file.now sections.now m }
    ensures bounded_in { BoundedIn result }
{
    let at = sections[METRICS][0];
    let metrics = array::of_infos(file, at);
    let stride = le::u8_at(file, at, SCOPE_STRIDE) as u64;
    nested_at(file, sections[METRICS], metrics, m, stride)
}

fn scope_nested(file: &[u8], sections: &[[u64; 2]; 8], m: u64, s: u64) -> Result<Nested, Refusal>
    requires { Sections meta file.now sections.now }
    ensures value { result ≡ scope_nested file.now sections.now m s }
    ensures bounded_in { BoundedIn result }
{
    let metric = metric_nested(file, sections, m)?;
    let stride = le::u8_at(file, sections[METRICS][0], SUMMARY_STRIDE) as u64;
    nested_at(file, sections[METRICS], metric.inner, s, stride)
}

// What is answered of each level's element: its string (8, then 19) and its numbers.
fn metric_found(file: &[u8], section: [u64; 2], at: u64, scopes: u64) -> Result<Metric, Refusal>
    ensures { result ≡ metric_found file.now section at scopes }
{
    let name = meta::string_of(file, section, at, 0)?;
    Ok(Metric { name, scopes })
}

fn scope_found(file: &[u8], section: [u64; 2], at: u64, summaries: u64) -> Result<Scope, Refusal>
    ensures { result ≡ scope_found file.now section at summaries }
{
    let prop_metric_id = le::u16_at(file, at, 10) as u64;
    let name = meta::string_of(file, section, at, 0)?;
    Ok(Scope {
        name,
        summaries,
        prop_metric_id,
    })
}

fn summary_found(file: &[u8], section: [u64; 2], at: u64) -> Result<Summary, Refusal>
    ensures { result ≡ summary_found file.now section at }
{
    let combine = le::u8_at(file, at, 8) as u64;
    let stat_metric_id = le::u16_at(file, at, 10) as u64;
    let formula = meta::string_of(file, section, at, 0)?;
    Ok(Summary {
        formula,
        combine,
        stat_metric_id,
    })
}

pub fn metric_at(file: &[u8], m: u64) -> Result<Metric, Refusal>
    ensures { result ≡ metric_at file.now m }
{
    let sections = open::open_meta(file)?;
    let metric = metric_nested(file, &sections, m)?;
    metric_found(file, sections[METRICS], metric.at, metric.inner.count)
}

pub fn scope_at(file: &[u8], m: u64, s: u64) -> Result<Scope, Refusal>
    ensures { result ≡ scope_at file.now m s }
{
    let sections = open::open_meta(file)?;
    let scope = scope_nested(file, &sections, m, s)?;
    scope_found(file, sections[METRICS], scope.at, scope.inner.count)
}

pub fn summary_at(file: &[u8], m: u64, s: u64, k: u64) -> Result<Summary, Refusal>
    ensures { result ≡ summary_at file.now m s k }
{
    let sections = open::open_meta(file)?;
    let scope = scope_nested(file, &sections, m, s)?;
    let place = array::nth(scope.inner, k)?;
    summary_found(file, sections[METRICS], place)
}

// The strings of the answers, as parts of the file.
fn metric_text(answer: Result<Metric, Refusal>) -> Result<Text, Refusal>
    ensures { result ≡ metric_text answer }
{
    Ok(answer?.name)
}

fn scope_text(answer: Result<Scope, Refusal>) -> Result<Text, Refusal>
    ensures { result ≡ scope_text answer }
{
    Ok(answer?.name)
}

fn summary_text(answer: Result<Summary, Refusal>) -> Result<Text, Refusal>
    ensures { result ≡ summary_text answer }
{
    Ok(answer?.formula)
}

pub fn metric_name<'a>(file: &'a [u8], m: u64) -> Result<&'a [u8], Refusal>
    ensures bytes { IfOk result (λ part. part.now ≡ text_bytes file.now (metric_text (metric_at file.now m))) }
    ensures code { code_of result ≡ text_code (metric_text (metric_at file.now m)) }
{
    text::bytes(file, metric_text(metric_at(file, m)))
}

pub fn scope_name<'a>(file: &'a [u8], m: u64, s: u64) -> Result<&'a [u8], Refusal>
    ensures bytes { IfOk result (λ part. part.now ≡ text_bytes file.now (scope_text (scope_at file.now m s))) }
    ensures code { code_of result ≡ text_code (scope_text (scope_at file.now m s)) }
{
    text::bytes(file, scope_text(scope_at(file, m, s)))
}

pub fn summary_formula<'a>(file: &'a [u8], m: u64, s: u64, k: u64) -> Result<&'a [u8], Refusal>
    ensures bytes { IfOk result (λ part. part.now ≡ text_bytes file.now (summary_text (summary_at file.now m s k))) }
    ensures code { code_of result ≡ text_code (summary_text (summary_at file.now m s k)) }
{
    text::bytes(file, summary_text(summary_at(file, m, s, k)))
}
