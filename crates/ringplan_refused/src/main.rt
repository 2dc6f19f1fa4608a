//! `ringplan` again, without arguments, so that the gate also sees a sheet refused and the status
//! that tells it.
#![tactic(auto)]

use plan_program::{Request, run};
use std::io;
use std::process::ExitCode;

fn main(rt: HostRuntime) -> io::Result<ExitCode> {
    let sheet = Request::Ranges { typed: false };
    let (mut input, mut output, mut errors) = (rt.stdin(), rt.stdout(), rt.stderr());
    let outcome = run(rt.alloc(), sheet, &mut input, &mut output, &mut errors)?;
    Ok(outcome.into())
}
