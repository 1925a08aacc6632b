// Tells from the memory image of a drawer what it holds for each head: whether a box count closes.
#![tactic(auto)]

use audit_report::count::read_count;
use audit_report::line::Refusal;
use audit_report::report::report;
use drawer_image::size::check_count;
use std::{env, fs, io};

fn main(rt: HostRuntime) -> io::Result<()> {
    let mut words = env::args(&rt).or_else(|error| cannot_read(&rt, "the arguments", error))?;
    let _program = words.next();
    match (words.next(), words.next(), words.next()) {
        (Some(count), Some(file), None) => audit(&rt, count.as_str(), file.as_str()),
        _ => help(&rt),
    }
}

fn help(rt: &HostRuntime) -> io::Result<()> {
    println!(rt; "usage: audit K FILE")?;
    println!(rt;
        "Prints what the drawer image FILE, with K fields for bills in each section, holds for each head,"
    )?;
    println!(rt;
        "or the number of the refusal, and with 28 the place of the first byte that is wrong."
    )
}

// Tells what cannot be read, and gives its error back.
fn cannot_read<T>(rt: &HostRuntime, what: &str, error: io::Error) -> io::Result<T> {
    eprintln!(rt; "audit: cannot read {what}: {error}")?;
    Err(error)
}

fn audit(rt: &HostRuntime, count: &str, file: &str) -> io::Result<()> {
    let Some(bills) = read_count(count.as_bytes()) else {
        eprintln!(rt; "audit: K is not decimal digits without leading zeros: {count}")?;
        return Err(io::Error::from(io::ErrorKind::InvalidInput));
    };
    if let Err(fault) = check_count(bills) {
        let refusal = Refusal(fault);
        return println!(rt; "{refusal}");
    }
    let image = fs::read(rt, file).or_else(|error| cannot_read(rt, file, error))?;
    let text = report(rt.alloc(), image.as_slice(), bills)?;
    print!(rt; "{text}")
}
