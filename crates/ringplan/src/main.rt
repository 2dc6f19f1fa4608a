//! Reads a plan sheet from standard input, and prints which keys each group owns, or what is wrong
//! with the sheet.
#![tactic(auto)]

use plan_program::{Request, run};
use std::io::{ErrorKind, IsTerminal};
use std::process::ExitCode;
use std::{env, io};

// What the arguments ask for; one that is not UTF-8 is none that the program knows.
fn request(rt: &HostRuntime) -> io::Result<Request> {
    match env::args(rt) {
        Ok(arguments) => {
            let arguments: Vec<String> = arguments.collect(rt.alloc())?;
            Ok(Request::of(&arguments, rt.stdin().is_terminal()))
        }
        Err(error) if error.kind() == ErrorKind::InvalidData => Ok(Request::Unknown),
        Err(error) => Err(error),
    }
}

fn main(rt: HostRuntime) -> io::Result<ExitCode> {
    let outcome = run(
        rt.alloc(),
        request(&rt)?,
        &mut rt.stdin(),
        &mut rt.stdout(),
        &mut rt.stderr(),
    )?;
    Ok(ExitCode::from(outcome))
}
