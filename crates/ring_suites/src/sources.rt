// The trustees' pad sources.
use anyhow::Context;
use either::{Either, Left, Right};
use hash::Hash;
use pads::{Book, HmacPads};
use plan::Plan;
use rows::Row;
use sha256::Hasher;
use std::alloc::{AllocError, Global};
use vector_files::{Block, decode};

// A source by HMAC for each key.
pub(crate) fn hmac_sources<H: Hash>(
    heap: Global,
    keys: &[Row],
) -> Result<Vec<HmacPads<H>>, AllocError> {
    keys.iter().map(|key| HmacPads::new(key)).collect(heap)
}

// A source by HMAC, or a book.
pub(crate) type Source = Either<HmacPads<Hasher>, Book<'static>>;

// The source that a word names: a key in hexadecimal, or none, which is a book without pages, since that holds no key.
fn source_of(heap: Global, plan: &Plan, word: &str) -> anyhow::Result<Source> {
    if word == "none" {
        let book = Book::new(&[], 0, plan.height(), plan.width(), &[0x99; 32]);
        return Ok(Right(book));
    }
    let bytes = decode(heap, word)?.context("a pad key is not hexadecimal")?;
    let key = bytes.as_array().context("a pad key has not 32 bytes")?;
    Ok(Left(HmacPads::new(key)))
}

// The sources that a block names, however many.
pub(crate) fn named_sources(plan: &Plan, block: &Block) -> anyhow::Result<Vec<Source>> {
    let mut sources = Vec::new(block.heap());
    for word in block.required("pad_keys")?.split_whitespace() {
        sources.push(source_of(block.heap(), plan, word)?)?;
    }
    Ok(sources)
}
