// meta.db: title and description, identifier kinds, modules, source files, and the counts of all arrays.
#![tactic(auto)]

ghost use Rattle.std.specs.Prelude.{◌≡◌, IfOk, Err};
ghost use Rattle.refusal.specs.Check.{code_of, on_answer};
ghost use Rattle.text.specs.String.{text_bytes, text_code};
ghost use Rattle.array.specs.Element.{element_at, Bounded};
ghost use Rattle.meta.specs.Names.{string_of, element_text, general_text, title_at, description_at, kind_at, module_at, source_of, source_at, source_text, counts};

use array::Array;
use open::{FILES, FUNCTIONS, GENERAL, ID_NAMES, METRICS, MODULES, STRINGS};
use refusal::Refusal;
use text::Text;

// A source file: its path, and whether it was copied into the database.
#[derive(Clone, Copy)]
pub struct SourceFile {
    pub path: Text,
    pub copied: bool,
}

// The string whose place stands at an offset of a structure, inside a section.
pub fn string_of(file: &[u8], section: [u64; 2], at: u64, offset: u64) -> Result<Text, Refusal>
    ensures { result ≡ string_of file.now section at offset }
{
    text::find(file, section, le::u64_at(file, at, offset))
}

// The same of element i of an array: 15, then 8, then 19.
fn element_text(
    file: &[u8],
    section: [u64; 2],
    a: Array,
    i: u64,
    offset: u64,
) -> Result<Text, Refusal>
    requires { Bounded a }
    ensures { result ≡ element_text file.now section a i offset }
{
    let place = array::nth(a, i)?;
    string_of(file, section, place, offset)
}

fn general_text(file: &[u8], offset: u64) -> Result<Text, Refusal>
    ensures { result ≡ general_text file.now offset }
{
    let sections = open::open_meta(file)?;
    string_of(file, sections[GENERAL], sections[GENERAL][0], offset)
}

pub fn title_at(file: &[u8]) -> Result<Text, Refusal>
    ensures { result ≡ title_at file.now }
{
    general_text(file, 0)
}

pub fn description_at(file: &[u8]) -> Result<Text, Refusal>
    ensures { result ≡ description_at file.now }
{
    general_text(file, 8)
}

pub fn kind_at(file: &[u8], kind: u64) -> Result<Text, Refusal>
    ensures { result ≡ kind_at file.now kind }
{
    let sections = open::open_meta(file)?;
    let names = array::of_names(file, sections[ID_NAMES][0]);
    element_text(file, sections[ID_NAMES], names, kind, 0)
}

pub fn module_at(file: &[u8], i: u64) -> Result<Text, Refusal>
    ensures { result ≡ module_at file.now i }
{
    let sections = open::open_meta(file)?;
    let modules = array::of_specs(file, sections[MODULES][0]);
    element_text(file, sections[STRINGS], modules, i, 8)
}

fn source_of(file: &[u8], section: [u64; 2], at: u64) -> Result<SourceFile, Refusal>
    ensures { result ≡ source_of file.now section at }
{
    let copied = le::u32_at(file, at, 0) % 2 == 1;
    let path = string_of(file, section, at, 8)?;
    Ok(SourceFile { path, copied })
}

fn source_in(file: &[u8], section: [u64; 2], a: Array, i: u64) -> Result<SourceFile, Refusal>
    requires { Bounded a }
    ensures { result ≡ on_answer Err (element_at a i) (λ p. source_of file.now section p) }
{
    let place = array::nth(a, i)?;
    source_of(file, section, place)
}

pub fn source_file(file: &[u8], i: u64) -> Result<SourceFile, Refusal>
    ensures { result ≡ source_at file.now i }
{
    let sections = open::open_meta(file)?;
    let files = array::of_specs(file, sections[FILES][0]);
    source_in(file, sections[STRINGS], files, i)
}

// How many identifier kinds, metrics, modules, files and functions there are.
pub fn counts(file: &[u8]) -> Result<[u64; 5], Refusal>
    ensures { result ≡ counts file.now }
{
    let sections = open::open_meta(file)?;
    Ok([
        le::u8_at(file, sections[ID_NAMES][0], 8) as u64,
        le::u32_at(file, sections[METRICS][0], 8) as u64,
        le::u32_at(file, sections[MODULES][0], 8) as u64,
        le::u32_at(file, sections[FILES][0], 8) as u64,
        le::u32_at(file, sections[FUNCTIONS][0], 8) as u64,
    ])
}

// The strings as parts of the file.
pub fn title<'a>(file: &'a [u8]) -> Result<&'a [u8], Refusal>
    ensures bytes { IfOk result (λ part. part.now ≡ text_bytes file.now (title_at file.now)) }
    ensures code { code_of result ≡ text_code (title_at file.now) }
{
    text::bytes(file, title_at(file))
}

pub fn description<'a>(file: &'a [u8]) -> Result<&'a [u8], Refusal>
    ensures bytes { IfOk result (λ part. part.now ≡ text_bytes file.now (description_at file.now)) }
    ensures code { code_of result ≡ text_code (description_at file.now) }
{
    text::bytes(file, description_at(file))
}

pub fn kind_name<'a>(file: &'a [u8], kind: u64) -> Result<&'a [u8], Refusal>
    ensures bytes { IfOk result (λ part. part.now ≡ text_bytes file.now (kind_at file.now kind)) }
    ensures code { code_of result ≡ text_code (kind_at file.now kind) }
{
    text::bytes(file, kind_at(file, kind))
}

pub fn module_path<'a>(file: &'a [u8], i: u64) -> Result<&'a [u8], Refusal>
    ensures bytes { IfOk result (λ part. part.now ≡ text_bytes file.now (module_at file.now i)) }
    ensures code { code_of result ≡ text_code (module_at file.now i) }
{
    text::bytes(file, module_at(file, i))
}

fn source_text(answer: Result<SourceFile, Refusal>) -> Result<Text, Refusal>
    ensures { result ≡ source_text answer }
{
    Ok(answer?.path)
}

pub fn source_path<'a>(file: &'a [u8], i: u64) -> Result<&'a [u8], Refusal>
    ensures bytes { IfOk result (λ part. part.now ≡ text_bytes file.now (source_text (source_at file.now i))) }
    ensures code { code_of result ≡ text_code (source_text (source_at file.now i)) }
{
    text::bytes(file, source_text(source_file(file, i)))
}
