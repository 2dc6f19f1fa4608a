// Runs every vector file on dealt keys that it knows and finds in a folder, and compares.
#![tactic(auto)]

use ring_suites::{Refusals, Splits, Tables, WAITING};
use vector_files::{Folder, Program, Waiting, run_program};

struct RingVectors;

impl Program for RingVectors {
    const HELP: &'static str = "usage: ring_vectors [FOLDER]

Runs every vector file on dealt keys that it knows and finds in FOLDER, and prints a line a file
with its number of cases and of wrong ones; each wrong case is named above it, and so
is how many cases wait for calls that are not there yet and were passed over.
Without FOLDER it looks in the folder that it is run in, and, if there is none there,
in crates/ring_vectors/data. It ends with status 1 if a case is wrong, if no file is found,
or if it does not know a file whose name ends in .txt, or a name in a file.";

    const DATA: &'static str = "crates/ring_vectors/data";

    const WAITING: Waiting = WAITING;

    const ELSEWHERE: &'static [&'static str] = &[
        "plans.txt",
        "hash.txt",
        "hmac.txt",
        "digits.txt",
        "lms-",
        "verify",
        "tape.txt",
        "pads.txt",
        "book.txt",
    ];

    fn run_all(folder: &mut Folder) -> anyhow::Result<()> {
        run_splits(folder)?;
        folder.run("tables.txt", Tables::default())?;
        folder.run("refusals.txt", Refusals)?;
        Ok(())
    }
}

// The files of one key each, by hash, height and width.
fn run_splits(folder: &mut Folder) -> anyhow::Result<()> {
    for hash in ["sha256", "shake256"] {
        for height in [5u32, 10] {
            for width in [1u32, 2, 4, 8] {
                let name = format!(in folder.rt().alloc(); "split-{hash}-h{height}-w{width}.txt")?;
                folder.run(name.as_str(), Splits::default())?;
            }
        }
    }
    Ok(())
}

fn main(rt: HostRuntime) -> anyhow::Result<()> {
    run_program::<RingVectors>(&rt)
}
