// A folder of vector files, and the count over those that were run.
ghost use Rattle.std.specs.Prelude.{◌≡◌, not, None, IfOk, OnOk, OnErr, IsOk, MatchOption};
ghost use Rattle.std.specs.List.{find};
ghost use Rattle.std.specs.Option.{option_map};
ghost use Rattle.vector_files.specs.Folders.{IsNew, IsRun, IsPassed, place_of, verdict_of};
ghost use Rattle.vector_files.specs.Names.{begins, texts};
ghost use Rattle.vector_files.specs.Cases.{plus};

use crate::count::Count;
use crate::names::begins;
use crate::run::Run;
use crate::suite::Suite;
use crate::text::count_blocks;
use crate::verdict::Verdict;
use crate::waiting::Waiting;
use anyhow::Context;
use std::marker::Model;
use std::{fs, io};

/// A folder of vector files: those whose names end in `.txt`. Calls take its files one by one, and
/// what is left at the end no call has taken.
#[derive(Drop)]
pub struct Folder<'a> {
    rt: &'a HostRuntime,
    path: &'a str,
    waiting: Waiting,
    left: Vec<String>,
    files: usize,
    count: Count,
}

impl<'a> Model for Folder<'a> {
    ghost use Rattle.std.specs.Prelude.{map, string_bytes};
    ghost use Rattle.vector_files.specs.Standing.{Standing};

    ghost Value = { Standing };

    ghost view = { λ f. record {
      path = f.path.now;
      waiting = f.waiting;
      left = map string_bytes f.left.items;
      files = f.files;
      count = f.count;
    } };
}

impl<'a> Folder<'a> {
    /// The folder at a path, of which no file is taken yet. It is an error if it cannot be read. What
    /// has a name that is not UTF-8 is passed over.
    pub fn open(rt: &'a HostRuntime, path: &'a str, waiting: Waiting) -> anyhow::Result<Folder<'a>>
        ensures { IfOk result (λ folder. IsNew folder path.now waiting) }
    {
        let mut left = Vec::new(rt.alloc());
        for entry in fs::read_dir(rt, path).context(path)? {
            let entry = match entry {
                Ok(entry) => entry,
                // No call can ask for a file whose name is no text.
                Err(error) if error.kind() == io::ErrorKind::InvalidFilename => continue,
                Err(error) => return Err(error.into()),
            };
            let name = entry.file_name();
            if name.ends_with(".txt") {
                left.push(String::from_str(rt.alloc(), name)?)?;
            }
        }
        Ok(Folder {
            rt,
            path,
            waiting,
            left,
            files: 0,
            count: Count::default(),
        })
    }

    /// The runtime that it was opened with.
    pub fn rt(&self) -> &'a HostRuntime {
        self.rt
    }

    /// How many files were run.
    pub fn files(&self) -> usize
        ensures { result ≡ self.now.files }
    {
        self.files
    }

    /// Runs a file, if it is there and no call has taken it, and prints its count. Each wrong case is
    /// named before. It is an error, and nothing is counted, if the file cannot be read, if a line is
    /// none of those that a vector file may have, or if a block has a name twice or one that is not
    /// known; the error names file, block and line.
    pub fn run<S: Suite + Drop>(&mut self, name: &str, suite: S) -> anyhow::Result<()>
        ensures absent { place_of self.old.left name.now ≡ None → IsOk result }
        ensures ok { OnOk result (MatchOption (place_of self.old.left name.now)
            (self.new ≡ self.old)
            (IsRun S.answers S.line_answers S.values S.cases suite self.old self.new)) }
        ensures err { OnErr result (self.new ≡ self.old) }
    {
        let Some(place) = self.place(name) else {
            return Ok(());
        };
        let text = self.read(name)?;
        let count = Run::new(self.rt, name, self.waiting, suite).text(text.as_str())?;
        report(self.rt, name, count)?;
        let total = self.total(count)?;
        let files = self
            .files
            .checked_add(1)
            .context("there are more files than can be counted")?;
        drop(self.left.remove(place));
        self.files = files;
        self.count = total;
        Ok(())
    }

    /// Passes over a file that waits, if it is there and no call has taken it: each of its blocks is
    /// counted as a case that waits, and how many they are is printed.
    pub fn pass_over(&mut self, name: &str) -> anyhow::Result<()>
        ensures absent { place_of self.old.left name.now ≡ None → IsOk result }
        ensures ok { OnOk result (MatchOption (place_of self.old.left name.now)
            (self.new ≡ self.old)
            (IsPassed self.old self.new)) }
        ensures err { OnErr result (self.new ≡ self.old) }
    {
        let Some(place) = self.place(name) else {
            return Ok(());
        };
        let text = self.read(name)?;
        let waiting = count_blocks(self.rt.alloc(), text.as_str()).context(name)?;
        report_waiting(self.rt, name, waiting)?;
        let total = self.total(Count {
            cases: 0,
            wrong: 0,
            waiting,
        })?;
        drop(self.left.remove(place));
        self.count = total;
        Ok(())
    }

    /// The first of the files that no call has taken whose name begins with none of some words.
    pub fn unknown(&self, elsewhere: &[&str]) -> Option<&str>
        ensures { option_map (λ name. name.now) result
            ≡ find (λ name. not (begins (texts elsewhere.now) name)) self.now.left }
    {
        self.left
            .iter()
            .find(|file| !begins(elsewhere, file.as_str()))
            .map(String::as_str)
    }

    /// Prints the count over all files, and gives the verdict.
    pub fn finish(&self) -> io::Result<Verdict>
        ensures { IfOk result (λ verdict. verdict ≡ verdict_of self.now) }
    {
        report(self.rt, "total", self.count)?;
        Ok(if self.files == 0 {
            Verdict::NoFile
        } else if self.count.wrong == 0 {
            Verdict::Good
        } else {
            Verdict::Wrong
        })
    }

    /// The place of a file among those that no call has taken.
    fn place(&self, name: &str) -> Option<usize>
        ensures { result ≡ place_of self.now.left name.now }
    {
        self.left.iter().position(|file| file.as_str() == name)
    }

    fn read(&self, name: &str) -> anyhow::Result<String> {
        let path = self.path;
        let file = format!(in self.rt.alloc(); "{path}/{name}")?;
        fs::read_to_string(self.rt, file.as_str()).context(name)
    }

    /// The count with some more.
    fn total(&self, more: Count) -> anyhow::Result<Count>
        ensures { IfOk result (λ total. total ≡ plus self.now.count more) }
    {
        self.count
            .plus(more)
            .context("there are more cases than can be counted")
    }
}

fn report_waiting(rt: &HostRuntime, name: &str, waiting: usize) -> io::Result<()> {
    println!(rt; "{name}: {waiting} cases wait for calls that are not there yet")
}

fn report(rt: &HostRuntime, name: &str, count: Count) -> io::Result<()> {
    if count.waiting > 0 {
        report_waiting(rt, name, count.waiting)?;
    }
    println!(rt; "{name}: {count}")
}
