// One task from beginning to end: reads a plan sheet from standard input, deals the plan, and prints what was dealt.
#![tactic(auto)]

mod deals;

use anyhow::anyhow;
use deals::Example;
use plan_sheet::{MOST_BYTES, read};
use std::env;
use std::io::Read;

const HELP: &str = "usage: signing_day < PLAN_SHEET

Reads a plan sheet, deals its keys from an example seed among trustees with example
pad keys, and prints the root, the sizes and the SHA-256 of the public table. The
progress goes to standard error. A sheet that is no plan is refused with its number,
line and field, and the program ends with status 1.";

// The plan on standard input, dealt.
fn run(rt: &HostRuntime) -> anyhow::Result<()> {
    let mut sheet = Vec::new(rt.alloc());
    rt.stdin()
        .take(MOST_BYTES as u64 + 1)
        .read_to_end(&mut sheet)?;
    let plan = match read(&sheet) {
        Ok(plan) => plan,
        Err(refusal) => {
            let number = refusal.number();
            let line = refusal.line();
            let field = refusal.field();
            println!(rt; "refusal {number}, line {line}, field {field}")?;
            return Err(anyhow!("the sheet is no plan"));
        }
    };
    let example = Example::new(rt.alloc(), plan)?;
    example.show(rt)?;
    example.deal(rt)
}

fn main(rt: HostRuntime) -> anyhow::Result<()> {
    let mut args = env::args(&rt)?;
    let _program = args.next();
    if let Some(word) = args.next()
        && word.as_str() == "--help"
    {
        rt.println(HELP)?;
        return Ok(());
    }
    run(&rt)
}
