// One file, block by block.
ghost use Rattle.std.specs.Prelude.{◌≡◌, ◌∷◌, [], List, IfOk, OnOk, MatchBool, ⊤, All, IsTrue};
ghost use Rattle.std.specs.Prelude.{option_to_list};
ghost use Rattle.std.specs.List.{flat_map};
ghost use Rattle.vector_files.specs.Cases.{Question, questions, questions_of, Comes, IsAsked, counted, plus};
ghost use Rattle.vector_files.specs.Cases.{is_known, IsKnown};
ghost use Rattle.vector_files.specs.Cases.Question.{Line};
ghost use Rattle.vector_files.specs.declared.count.Outcome.{Outcome};
ghost use Rattle.vector_files.specs.Texts.{blocks_of, IsVectorText};

use crate::blocks::{Block, Field};
use crate::count::{Count, Outcome};
use crate::names::{has, is_remark};
use crate::suite::Suite;
use crate::text::Cut;
use crate::waiting::Waiting;
use anyhow::{Context, anyhow, ensure};

/// A suite on its way through a file.
#[derive(Drop)]
pub(crate) struct Run<'a, S> {
    rt: &'a HostRuntime,
    file: &'a str,
    waiting: Waiting,
    suite: S,
    count: Count,
}

impl<'a, S: Suite + Drop> Run<'a, S> {
    pub(crate) fn new(rt: &'a HostRuntime, file: &'a str, waiting: Waiting, suite: S) -> Run<'a, S>
        ensures waiting { result.waiting ≡ waiting }
        ensures suite { result.suite ≡ suite }
        ensures count { result.count ≡ counted [] }
    {
        Run {
            rt,
            file,
            waiting,
            suite,
            count: Count::default(),
        }
    }

    /// Whether the blocks may have a name.
    fn knows(&self, name: &str) -> bool
        ensures { result ≡ is_known S.values S.cases self.now.waiting name.now }
    {
        let names = S::names();
        is_remark(name)
            || has(names.values, name)
            || has(names.cases, name)
            || self.waiting.has_line(name)
    }

    /// What comes of the question about a line.
    fn line(&mut self, block: &Block, field: &Field) -> anyhow::Result<Outcome>
        ensures waiting { self.new.waiting ≡ self.old.waiting }
        ensures count { self.new.count ≡ self.old.count }
        ensures comes { IfOk result (λ outcome. Comes S.answers S.line_answers S.cases self.old.waiting
            self.old.suite (Line block.now field.now) outcome self.new.suite) }
    {
        let name = field.name();
        if self.waiting.has_line(name) {
            return Ok(Outcome::Waits);
        }
        if has(S::names().cases, name) {
            return Ok(Outcome::verdict(self.suite.check_line(block, name)?));
        }
        Ok(Outcome::NoCase)
    }

    /// Counts what came of a question, and names the line if a case is wrong.
    fn add(&mut self, line: usize, outcome: Outcome) -> anyhow::Result<()>
        ensures waiting { self.new.waiting ≡ self.old.waiting }
        ensures suite { self.new.suite ≡ self.old.suite }
        ensures count { OnOk result (self.new.count ≡ plus self.old.count (counted (outcome ∷ []))) }
    {
        if outcome == Outcome::Wrong {
            let file = self.file;
            println!(self.rt; "{file}: the case at line {line} is wrong")?;
        }
        self.count = self
            .count
            .plus(Count::of(outcome))
            .context("there are more cases than can be counted")?;
        Ok(())
    }

    /// It is an error if the blocks may not have the name of some line.
    fn check_names(&self, block: &Block) -> anyhow::Result<()>
        ensures { OnOk result (All (λ line. IsTrue (is_known S.values S.cases self.now.waiting line.name)) block.now) }
    {
        for field in block.fields() {
            let (name, line) = (field.name(), field.line());
            ensure!(
                self.knows(name),
                "line {line}: the name {name} is not known"
            );
        }
        Ok(())
    }

    /// The questions about a block.
    fn block(&mut self, block: &Block) -> anyhow::Result<()>
        ensures waiting { OnOk result (self.new.waiting ≡ self.old.waiting) }
        ensures known { OnOk result (IsKnown S.values S.cases self.old.waiting block.now) }
        ensures asked { OnOk result (IsAsked S.answers S.line_answers S.cases self.old.waiting
            (questions self.old.waiting block.now) self.old.suite self.old.count self.new.suite self.new.count) }
    {
        if self.waiting.has_block(block) {
            return self.add(block.line(), Outcome::Waits);
        }
        self.check_names(block)?;
        let answer = self.suite.check(block)?;
        self.add(block.line(), Outcome::of(answer))?;
        for field in block.fields() {
            let outcome = self.line(block, field)?;
            self.add(field.line(), outcome)?;
        }
        Ok(())
    }

    /// The questions about a block that ended, if one did; an error names file and block.
    fn ended(&mut self, block: Option<Block>) -> anyhow::Result<()>
        ensures waiting { OnOk result (self.new.waiting ≡ self.old.waiting) }
        ensures known { OnOk result
            (All (IsKnown S.values S.cases self.old.waiting) (option_to_list block.entry)) }
        ensures asked { OnOk result (IsAsked S.answers S.line_answers S.cases self.old.waiting
            (flat_map (questions self.old.waiting) (option_to_list block.entry))
            self.old.suite self.old.count self.new.suite self.new.count) }
    {
        let Some(block) = block else {
            return Ok(());
        };
        let (file, first) = (self.file, block.line());
        self.block(&block)
            .context(format_args!("{file}: the block at line {first}"))?;
        Ok(())
    }

    /// The count over a text. Each block is asked about before a line behind it is read.
    pub(crate) fn text(mut self, text: &str) -> anyhow::Result<Count>
        ensures known { OnOk result (All (IsKnown S.values S.cases self.entry.waiting) (blocks_of text.now)) }
        ensures sound { OnOk result (IsVectorText text.now) }
        ensures counted { IfOk result (λ count. (after : S) × IsAsked S.answers S.line_answers S.cases self.entry.waiting
            (questions_of self.entry.waiting text.now) self.entry.suite self.entry.count after count) }
    {
        let mut cut = Cut::new(self.rt.alloc());
        for line in text.lines() {
            let block = cut.take(line).context(self.file)?;
            self.ended(block)?;
        }
        self.ended(cut.end())?;
        Ok(self.count)
    }
}
