// Runs every vector file that it knows and finds in a folder, and compares.
#![tactic(auto)]

mod hashes;
mod pads_and_books;
mod plans;
mod signatures;
mod tapes;

use hashes::{Digests, Macs};
use pads_and_books::{Books, HmacSources};
use plans::PlanSheets;
use signatures::{Digits, Signatures, Verdicts};
use tapes::Tapes;
use vector_files::{Folder, Program, Waiting, run_program};

struct Vectors;

impl Program for Vectors {
    const HELP: &'static str = "usage: vectors [FOLDER]

Runs every vector file that it knows and finds in FOLDER, and prints a line a file
with its number of cases and of wrong ones; each wrong case is named above it.
Without FOLDER it looks in the folder that it is run in, and, if there is none there,
in crates/vectors/data. It ends with status 1 if a case is wrong, if no file is found,
or if it does not know a file whose name ends in .txt, or a name in a file.";

    const DATA: &'static str = "crates/vectors/data";

    const WAITING: Waiting = Waiting::NOTHING;

    const ELSEWHERE: &'static [&'static str] = &[
        "split-",
        "tables.txt",
        "refusals.txt",
        "rounds.txt",
        "shifts.txt",
    ];

    fn run_all(folder: &mut Folder) -> anyhow::Result<()> {
        folder.run("plans.txt", PlanSheets)?;
        folder.run("hash.txt", Digests)?;
        folder.run("hmac.txt", Macs)?;
        folder.run("digits.txt", Digits)?;
        folder.run("lms-published.txt", Signatures::default())?;
        folder.run("lms-rfc8554.txt", Signatures::default())?;
        folder.run("lms-sha256.txt", Signatures::default())?;
        folder.run("lms-shake256.txt", Signatures::default())?;
        folder.run("lms-long-messages.txt", Signatures::default())?;
        folder.run("verify-published.txt", Verdicts)?;
        folder.run("verify-nist.txt", Verdicts)?;
        folder.run("verify.txt", Verdicts)?;
        folder.run("tape.txt", Tapes)?;
        folder.run("pads.txt", HmacSources)?;
        folder.run("book.txt", Books::default())?;
        Ok(())
    }
}

fn main(rt: HostRuntime) -> anyhow::Result<()> {
    run_program::<Vectors>(&rt)
}
