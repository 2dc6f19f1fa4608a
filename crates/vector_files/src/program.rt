// What the programs over vector files have in common.
use crate::folder::Folder;
use crate::waiting::Waiting;
use anyhow::anyhow;
use std::env;

/// A program that runs every file that it knows and finds in a folder.
pub trait Program {
    /// What `--help` prints.
    const HELP: &'static str;

    /// Where its own files are, from the project's root.
    const DATA: &'static str;

    /// What it passes over.
    const WAITING: Waiting;

    /// How the names of the files begin that lie beside its own and are another program's.
    const ELSEWHERE: &'static [&'static str];

    /// Runs every file that it knows.
    fn run_all(folder: &mut Folder) -> anyhow::Result<()>;
}

/// Runs the files of the folder that the first argument names, or prints the help. Without an argument
/// it looks in the folder that it is run in, and, if no file is there, in that of its own files. It is
/// an error if no file was run, if a case is wrong, or if a file of the folder is not known.
pub fn run_program<P: Program>(rt: &HostRuntime) -> anyhow::Result<()> {
    match env::args(rt)?.nth(1) {
        None => {
            let here = run_folder::<P>(rt, ".")?;
            if here.files() == 0 {
                return conclude::<P>(&run_folder::<P>(rt, P::DATA)?);
            }
            conclude::<P>(&here)
        }
        Some(word) if word.as_str() == "--help" => {
            rt.println(P::HELP)?;
            Ok(())
        }
        Some(path) => conclude::<P>(&run_folder::<P>(rt, path.as_str())?),
    }
}

fn run_folder<'a, P: Program>(rt: &'a HostRuntime, path: &'a str) -> anyhow::Result<Folder<'a>> {
    let mut folder = Folder::open(rt, path, P::WAITING)?;
    P::run_all(&mut folder)?;
    for file in P::WAITING.files {
        folder.pass_over(file)?;
    }
    Ok(folder)
}

fn conclude<P: Program>(folder: &Folder) -> anyhow::Result<()> {
    folder.finish()?.accept()?;
    match folder.unknown(P::ELSEWHERE) {
        None => Ok(()),
        Some(name) => Err(anyhow!("no program knows the file {name}")),
    }
}
