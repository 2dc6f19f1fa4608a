// A vector file's text, cut into blocks.
ghost use Rattle.std.specs.Prelude.{◌≡◌, ◌+◌, ◌++◌, [], IfOk, OnOk, length, option_to_list};
ghost use Rattle.vector_files.specs.Texts.{is_blank, is_comment, is_silent, blocks_of};
ghost use Rattle.vector_files.specs.Texts.{IsVectorText, ended, IsTaken};

use crate::blocks::Block;
use anyhow::Context;
use std::alloc::{AllocError, Global};
use std::mem;

/// A line of a text.
#[derive(Clone, Copy)]
struct Line<'t> {
    /// Counted from 1.
    number: usize,
    text: &'t str,
}

impl<'t> Line<'t> {
    fn is_blank(&self) -> bool
        ensures { result ≡ is_blank (self.now.number, self.now.text.now) }
    {
        self.text.is_empty()
    }

    fn is_comment(&self) -> bool
        ensures { result ≡ is_comment (self.now.number, self.now.text.now) }
    {
        self.text.starts_with('#')
    }

    /// Whether it is a comment, or white space alone.
    fn is_silent(&self) -> bool
        ensures { result ≡ is_silent (self.now.number, self.now.text.now) }
    {
        self.is_comment() || self.text.trim().is_empty()
    }
}

/// A text on its way into blocks. It takes in the lines one after the other, and has one block at a
/// time.
#[derive(Drop)]
pub(crate) struct Cut<'t> {
    /// What the lines behind the last blank one say.
    block: Block<'t>,
    /// How many lines it has taken in.
    number: usize,
}

impl<'t> Cut<'t> {
    pub(crate) fn new(heap: Global) -> Cut<'t>
        ensures block { result.block ≡ [] }
        ensures number { result.number ≡ 0 }
    {
        Cut {
            block: Block::new(heap),
            number: 0,
        }
    }

    /// Takes in the next line, and gives the block that it ends, if it ends one. It is an error if
    /// the line is none of those that a text may have; the error says on which line.
    pub(crate) fn take(&mut self, text: &'t str) -> anyhow::Result<Option<Block<'t>>>
        ensures number { OnOk result (self.new.number ≡ self.old.number + 1) }
        ensures taken { IfOk result
            (IsTaken self.old.block (self.old.number + 1, text.now) self.new.block) }
    {
        let number = self
            .number
            .checked_add(1)
            .context("there are more lines than can be counted")?;
        self.number = number;
        let line = Line { number, text };
        if line.is_blank() {
            return Ok(self.end());
        }
        if line.is_silent() {
            return Ok(None);
        }
        self.block
            .add(text, number)
            .context(format_args!("line {number}"))?;
        Ok(None)
    }

    /// The block that ends here, if its lines say something.
    pub(crate) fn end(&mut self) -> Option<Block<'t>>
        ensures number { self.new.number ≡ self.old.number }
        ensures block { self.new.block ≡ [] }
        ensures ended { result ≡ ended self.old.block }
    {
        let heap = self.block.heap();
        let block = mem::replace(&mut self.block, Block::new(heap));
        if block.fields().is_empty() {
            None
        } else {
            Some(block)
        }
    }
}

/// How many blocks a text has. It is an error where `blocks_of` gives one.
pub(crate) fn count_blocks(heap: Global, text: &str) -> anyhow::Result<usize>
    ensures counted { IfOk result (λ count. count ≡ length (blocks_of text.now)) }
    ensures sound { OnOk result (IsVectorText text.now) }
{
    let mut cut = Cut::new(heap);
    let mut count = 0;
    for line in text.lines() {
        count = with_ended(count, cut.take(line)?)?;
    }
    with_ended(count, cut.end())
}

/// A count of blocks, and one more if a block ended.
fn with_ended(count: usize, block: Option<Block>) -> anyhow::Result<usize>
    ensures { IfOk result (λ more. more ≡ count + length (option_to_list block.entry)) }
{
    if block.is_none() {
        return Ok(count);
    }
    count
        .checked_add(1)
        .context("there are more cases than can be counted")
}

/// The blocks of a text, in their order: what stands between its empty lines, unless it is nothing,
/// or comments and lines of white space alone, which say nothing. It is an error if some other line
/// has no equals sign, or if a block has a name twice; the error says on which line.
pub fn blocks_of<'t>(heap: Global, text: &'t str) -> anyhow::Result<Vec<Block<'t>>>
    ensures cut { IfOk result (λ blocks. blocks.items ≡ blocks_of text.now) }
    ensures sound { IfOk result (λ _. IsVectorText text.now) }
{
    let mut cut = Cut::new(heap);
    let mut blocks = Vec::new(heap);
    for line in text.lines() {
        push_ended(&mut blocks, cut.take(line)?)?;
    }
    push_ended(&mut blocks, cut.end())?;
    Ok(blocks)
}

/// Adds a block that ended, if one did.
fn push_ended<'t>(blocks: &mut Vec<Block<'t>>, block: Option<Block<'t>>) -> Result<(), AllocError>
    ensures { OnOk result (blocks.new.items ≡ blocks.old.items ++ option_to_list block.entry) }
{
    let Some(block) = block else {
        return Ok(());
    };
    blocks.push(block)?;
    Ok(())
}
