//! gdi: draws a script on a configured desktop, and writes the values of its pixels.
#![tactic(auto)]

use ddi_driver::DriverPort;
use desk_io::{StdSink, StdSource};
use desk_run::{Status, run_desktop};
use dev_ports::MemLinear;
use drv_linear::LinearDriver;
use std::io::ErrorKind;
use std::process::ExitCode;
use std::{env, io};

/// The words after the program's name. A word that isn't text is in no form of the words, and neither is an empty list.
fn words_after_name(rt: &HostRuntime) -> io::Result<Vec<String>> {
    let mut words = Vec::new(rt.alloc());
    match env::args(rt) {
        Ok(args) => {
            for word in args.skip(1) {
                words.push(word)?;
            }
        }
        Err(error) if error.kind() == ErrorKind::OutOfMemory => return Err(error),
        Err(_) => {}
    }
    Ok(words)
}

/// How many linear drivers stand on the shelf.
const DRIVERS: usize = 4;

fn main(rt: HostRuntime) -> ExitCode {
    let alloc = rt.alloc();
    let no_memory = ExitCode::from(Status::NoMemory.exit());
    let Ok(words) = words_after_name(&rt) else {
        return no_memory;
    };
    let mut shelf = Vec::new(alloc);
    for _ in 0..DRIVERS {
        let Ok(driver) = Box::new(alloc, LinearDriver::new(alloc, MemLinear::new(alloc))) else {
            return no_memory;
        };
        if shelf.push(DriverPort::new(driver)).is_err() {
            return no_memory;
        }
    }
    let mut source = StdSource::new(rt.reader());
    let mut sink = StdSink::new(io::writer(&rt));
    let status = run_desktop(alloc, &words, &mut source, &mut shelf, &mut sink);
    ExitCode::from(status.exit())
}
