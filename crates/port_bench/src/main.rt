//! Repeats one drawing through a port, or on bits, for `bench/ports.py` to time: the operation's name with the bits of a pixel, and
//! how often.
#![tactic(auto)]

mod on_bits;
mod operations;

use operations::repeated;
use std::process::ExitCode;
use std::{env, io};

/// Prints a number that depends on what was drawn.
fn run(rt: &HostRuntime) -> io::Result<()> {
    let mut words = env::args(rt)?.skip(1);
    let (Some(name), Some(count)) = (words.next(), words.next()) else {
        return println!(rt; "usage: port_bench OPERATION COUNT");
    };
    let count = count.as_str().parse::<u32>().unwrap_or(0);
    match repeated(rt.alloc(), name.as_str(), count) {
        Ok(Some(sum)) => println!(rt; "{name} {count} {sum}"),
        Ok(None) => println!(rt; "no operation {name}"),
        Err(_) => println!(rt; "no memory"),
    }
}

fn main(rt: HostRuntime) -> ExitCode {
    if run(&rt).is_err() {
        return ExitCode::FAILURE;
    }
    ExitCode::SUCCESS
}
