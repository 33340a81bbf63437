#![tactic(auto)]
// Prints the list of the file on standard input.
use std::io;

fn main(rt: HostRuntime) -> io::Result<()> {
    // What stands on standard output is a verdict, and there is none.
    if !listing::shell::print(&mut rt.stdin(), &mut io::writer(&rt))? {
        eprintln!(rt; "cannot read")?;
    }
    Ok(())
}
