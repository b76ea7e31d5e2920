// Reads all of each meta.db that `list` names but its contexts, and prints every name and number. Each array is asked for one position
// more than it has. A line has what was asked, the answer's number, its values, and its string; after a refusal values are 0.
#![tactic(auto)]

use function::Name;
use refusal::Refusal;
use std::io;
use std::rt::Files;

// No UTF-8: it is handed back whole all the same.
const PLACEHOLDER: [u8; 1] = [0xFF];

// A string, which ends a line.
fn end(rt: &impl Print, bytes: &[u8]) -> io::Result<()> {
    print!(rt; " ")?;
    rt.write_all(bytes)?;
    println!(rt)
}

// The answer's number, and the string; none where it is refused.
fn string(rt: &impl Print, text: Result<&[u8], Refusal>) -> io::Result<()> {
    print!(rt; " {}", refusal::code(&text))?;
    end(rt, text.unwrap_or_default())
}

fn general(rt: &impl Print, file: &[u8]) -> io::Result<()> {
    print!(rt; "title")?;
    string(rt, meta::title(file))?;
    print!(rt; "description")?;
    string(rt, meta::description(file))
}

fn kind(rt: &impl Print, file: &[u8], i: u64) -> io::Result<()> {
    print!(rt; "kind {i}")?;
    string(rt, meta::kind_name(file, i))
}

fn module(rt: &impl Print, file: &[u8], i: u64) -> io::Result<()> {
    print!(rt; "module {i}")?;
    string(rt, meta::module_path(file, i))
}

fn source(rt: &impl Print, file: &[u8], i: u64) -> io::Result<()> {
    let path = meta::source_path(file, i);
    let copied = meta::source_file(file, i).is_ok_and(|source| source.copied);
    print!(rt; "source {i} {} {}", refusal::code(&path), u8::from(copied))?;
    end(rt, path.unwrap_or_default())
}

fn function(rt: &impl Print, file: &[u8], i: u64) -> io::Result<()> {
    print!(rt; "function {i}")?;
    match function::function_at(file, i) {
        Ok(f) => print!(rt; " 0 {} {} {} {}", f.load_module, f.offset, f.file, f.line)?,
        Err(r) => print!(rt; " {} 0 0 0 0", u32::from(r))?,
    }
    let (which, name): (u32, &[u8]) = match function::function_name(file, &PLACEHOLDER, i) {
        Ok(Name::Stored(name)) => (0, name),
        Ok(Name::Placeholder(name)) => (100, name),
        Err(r) => (u32::from(r), &[]),
    };
    print!(rt; " {which}")?;
    end(rt, name)
}

fn summary(rt: &impl Print, file: &[u8], m: u64, s: u64, k: u64) -> io::Result<()> {
    let formula = metric::summary_formula(file, m, s, k);
    let (combine, id) = metric::summary_at(file, m, s, k).map_or((0, 0), |summary| {
        (summary.combine, summary.stat_metric_id)
    });
    print!(rt;
        "summary {m} {s} {k} {} {combine} {id}",
        refusal::code(&formula)
    )?;
    end(rt, formula.unwrap_or_default())
}

fn scope(rt: &impl Print, file: &[u8], m: u64, s: u64) -> io::Result<()> {
    let name = metric::scope_name(file, m, s);
    let (summaries, id) = metric::scope_at(file, m, s).map_or(
        (0, 0),
        |scope| (scope.summaries, scope.prop_metric_id),
    );
    print!(rt; "scope {m} {s} {} {summaries} {id}", refusal::code(&name))?;
    end(rt, name.unwrap_or_default())?;
    (0..=summaries).try_for_each(|k| summary(rt, file, m, s, k))
}

fn metric(rt: &impl Print, file: &[u8], m: u64) -> io::Result<()> {
    let name = metric::metric_name(file, m);
    let scopes = metric::metric_at(file, m).map_or(0, |metric| metric.scopes);
    print!(rt; "metric {m} {} {scopes}", refusal::code(&name))?;
    end(rt, name.unwrap_or_default())?;
    (0..=scopes).try_for_each(|s| scope(rt, file, m, s))
}

fn show(rt: &impl Print, name: &[u8], file: &[u8]) -> io::Result<()> {
    print!(rt; "file")?;
    end(rt, name)?;
    general(rt, file)?;
    let counts = meta::counts(file);
    let code = refusal::code(&counts);
    let [kinds, metrics, modules, sources, functions] = counts.unwrap_or([0; 5]);
    println!(rt; "counts {code} {kinds} {metrics} {modules} {sources} {functions}")?;
    (0..=kinds).try_for_each(|i| kind(rt, file, i))?;
    (0..=modules).try_for_each(|i| module(rt, file, i))?;
    (0..=sources).try_for_each(|i| source(rt, file, i))?;
    (0..=functions).try_for_each(|i| function(rt, file, i))?;
    (0..=metrics).try_for_each(|m| metric(rt, file, m))
}

fn case(rt: &(impl Files + Print + Eprint), name: &[u8]) -> io::Result<()> {
    let mut buffer = [0; 4096];
    match script::read_file(rt, name, &mut buffer)? {
        Some(file) => show(rt, name, file),
        None => Ok(()),
    }
}

fn main(rt: HostRuntime) -> io::Result<()> {
    let mut buffer = [0; 4096];
    let Some(list) = script::read_file(&rt, b"list", &mut buffer)? else {
        return Ok(());
    };
    script::lines(list).try_for_each(|name| case(&rt, name))
}
