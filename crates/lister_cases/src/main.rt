#![tactic(auto)]
// Prints the list of each file that the arguments name, under the file's name.
use std::fs::File;
use std::rt::Files;
use std::{env, io};

fn one(rt: &(impl Files + Print), path: &str) -> io::Result<()> {
    println!(rt; "{path}:")?;
    let Ok(mut file) = File::open(rt, path) else {
        return println!(rt; "no such file");
    };
    if !listing::shell::print(&mut file, &mut io::writer(rt))? {
        println!(rt; "cannot read")?;
    }
    Ok(())
}

fn main(rt: HostRuntime) -> io::Result<()> {
    for path in env::args(&rt)?.skip(1) {
        one(&rt, path.as_str())?;
    }
    Ok(())
}
