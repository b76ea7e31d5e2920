// meta.db: functions.
#![tactic(auto)]

ghost use Rattle.std.specs.Prelude.{◌≡◌, ◌+◌, IfOk};
ghost use Rattle.le.specs.Number.{number};
ghost use Rattle.open.specs.Format.{meta};
ghost use Rattle.open.specs.Kept.{Sections};
ghost use Rattle.function.specs.Function.{links_kept, name_text, function_of, function_in, function_at, name_bytes, name_which, bytes_of, which_of};

use array::Array;
use open::{FILES, FUNCTIONS, MODULES, STRINGS};
use refusal::Refusal;
use text::Text;

// A function. Its name's place is 0 exactly if it has none; a link is 0 or the place of a module or file.
#[derive(Clone, Copy)]
pub struct Function {
    pub name: Text,
    pub load_module: u64,
    pub offset: u64,
    pub file: u64,
    pub line: u64,
}

// Its name: a part of the file, or where it has none the placeholder.
#[derive(Clone, Copy)]
pub enum Name<'a> {
    Stored(&'a [u8]),
    Placeholder(&'a [u8]),
}

// 9, of the links.
fn links_kept(modules: Array, files: Array, name: u64, module_link: u64, file_link: u64) -> bool
    ensures { result ≡ links_kept modules files name module_link file_link }
{
    let none = (name == 0) & ((module_link == 0) & (file_link == 0));
    let module_kept = (module_link == 0) | array::is_element(modules, module_link);
    let file_kept = (file_link == 0) | array::is_element(files, file_link);
    !none & (module_kept & file_kept)
}

// 8, then 19, of a name that is there. Its place is read again, by the function that every other string goes through: one caller of
// `text::find` is what lets the compiler put it in.
fn name_text(file: &[u8], strings: [u64; 2], at: u64) -> Result<Text, Refusal>
    ensures { result ≡ name_text file.now strings (number 8 file.now (at + 0)) }
{
    if le::u64_at(file, at, 0) == 0 {
        return Ok(Text {
            place: 0,
            length: 0,
        });
    }
    meta::string_of(file, strings, at, 0)
}

// The function at a place: its links, then its name.
fn function_of(
    file: &[u8],
    strings: [u64; 2],
    modules: Array,
    files: Array,
    at: u64,
) -> Result<Function, Refusal>
    ensures { result ≡ function_of file.now strings modules files at }
{
    let name = le::u64_at(file, at, 0);
    let module_link = le::u64_at(file, at, 8);
    let offset = le::u64_at(file, at, 16);
    let file_link = le::u64_at(file, at, 24);
    let line = le::u32_at(file, at, 32) as u64;
    if !links_kept(modules, files, name, module_link, file_link) {
        return Err(Refusal::Link);
    }
    Ok(Function {
        name: name_text(file, strings, at)?,
        load_module: module_link,
        offset,
        file: file_link,
        line,
    })
}

fn function_in(file: &[u8], sections: &[[u64; 2]; 8], i: u64) -> Result<Function, Refusal>
    requires { Sections meta file.now sections.now }
    ensures { result ≡ function_in file.now sections.now i }
{
    let modules = array::of_specs(file, sections[MODULES][0]);
    let files = array::of_specs(file, sections[FILES][0]);
    let functions = array::of_specs(file, sections[FUNCTIONS][0]);
    let at = array::nth(functions, i)?;
    function_of(file, sections[STRINGS], modules, files, at)
}

pub fn function_at(file: &[u8], i: u64) -> Result<Function, Refusal>
    ensures { result ≡ function_at file.now i }
{
    let sections = open::open_meta(file)?;
    function_in(file, &sections, i)
}

// The name of an answer, from one of two slices: the placeholder, whole, where there is none.
fn name_of<'a>(
    file: &'a [u8],
    placeholder: &'a [u8],
    answer: Result<Function, Refusal>,
) -> Result<Name<'a>, Refusal>
    ensures bytes { IfOk result (λ name. bytes_of name ≡ name_bytes file.now placeholder.now answer) }
    ensures which { which_of result ≡ name_which answer }
{
    let name = answer?.name;
    if name.place == 0 {
        return Ok(Name::Placeholder(placeholder));
    }
    Ok(Name::Stored(text::part(file, name.place, name.length)))
}

pub fn function_name<'a>(file: &'a [u8], placeholder: &'a [u8], i: u64) -> Result<Name<'a>, Refusal>
    ensures bytes { IfOk result (λ name. bytes_of name ≡ name_bytes file.now placeholder.now (function_at file.now i)) }
    ensures which { which_of result ≡ name_which (function_at file.now i) }
{
    name_of(file, placeholder, function_at(file, i))
}
