// Lists the contexts of the meta.db on standard input, up to 32,768 bytes, with room for 1,024.
#![tactic(auto)]

use std::io;

fn list(rt: &impl Print, file: &[u8]) -> io::Result<()> {
    let mut listing = [0; 1024];
    let mut table = [0; 1024];
    let mut records = [0; 1024 * context::RECORD];
    report::show(rt, file, &mut listing, &mut table, &mut records)?;
    Ok(())
}

fn main(rt: HostRuntime) -> io::Result<()> {
    let mut buffer = [0; 32769];
    let file = script::read_full(&mut rt.stdin(), &mut buffer)?;
    if report::too_long(&rt, file)? {
        return Ok(());
    }
    list(&rt, file)
}
