// Pads and check pads, by HMAC and of books.
ghost use Rattle.std.specs.Prelude.{map};
ghost use Rattle.vectors.specs.declared.pads_and_books.TheConstants.{PAD_VALUES, BOOK_VALUES};

use crate::signatures::{height_of, width_of};
use anyhow::Context;
use hash::Hash;
use pads::{Book, HmacPads, Label, Pads};
use rows::Row;
use sha256::sha256;
use sizes::{Height, Width};
use std::array::from_fn;
use vector_files::{Block, HashName, Names, Suite, over_hash};

fn label_of(block: &Block) -> anyhow::Result<Label> {
    Ok(Label {
        kind: block.required("kind")?.parse::<u8>()?,
        key: block.number("key")?,
        i: block.required("i")?.parse::<u16>()?,
        j: block.required("j")?.parse::<u8>()?,
    })
}

// Whether a source gives eight labels, of which this is the first, the pads that each has alone.
fn gives_eight<P: Pads>(source: &P, label: Label) -> bool {
    let labels: [Label; 8] = from_fn(|n| Label {
        i: label.i.wrapping_add(n as u16),
        ..label
    });
    source.pads(&labels) == labels.map(|label| source.pad(label))
}

// Whether a source answers as a block says: with a check pad if it has a prefix, otherwise with a pad, asked for alone and among eight.
fn answers<P: Pads>(source: &P, block: &Block) -> anyhow::Result<bool> {
    if block.text("prefix").is_some() {
        let prefix = block.array("prefix")?;
        let check = source.check_pad(block.number("key")?, &prefix);
        return Ok(check == block.array::<32>("check_pad")?);
    }
    let label = label_of(block)?;
    let pad: Row = block.array("pad")?;
    Ok(source.pad(label) == pad && gives_eight(source, label))
}

// Whether the HMAC source of a key answers so.
fn keyed_answers<H: Hash>(key: &[u8; 32], block: &Block) -> anyhow::Result<bool> {
    answers(&HmacPads::<H>::new(key), block)
}

// The bytes that are hashed for a block: a label's 8, or, if it has a prefix, those of kind 10 and the prefix.
fn label_bytes(block: &Block) -> anyhow::Result<Vec<u8>> {
    let mut bytes = Vec::new(block.heap());
    if block.text("prefix").is_some() {
        let label = Label {
            kind: 10,
            key: block.number("key")?,
            i: 0,
            j: 0,
        };
        bytes.extend_from_slice(&label.bytes())?;
        bytes.extend_from_slice(&block.array::<32>("prefix")?)?;
    } else {
        bytes.extend_from_slice(&label_of(block)?.bytes())?;
    }
    Ok(bytes)
}

const PAD_VALUES: &[&str] = &[
    "hash",
    "key_bytes",
    "key",
    "kind",
    "i",
    "j",
    "pad",
    "prefix",
    "check_pad",
    "label",
];

#[derive(Drop)]
pub(crate) struct HmacSources;

impl Suite for HmacSources {
    ghost values = { map (λ name. name.now) PAD_VALUES.now };

    fn names() -> Names {
        Names {
            values: PAD_VALUES,
            cases: &[],
        }
    }

    fn check(&mut self, block: &Block) -> anyhow::Result<Option<bool>> {
        let key = block.array("key_bytes")?;
        let answered = over_hash!(HashName::of(block)?, keyed_answers(&key, block))?;
        Ok(Some(answered && label_bytes(block)? == block.bytes("label")?))
    }
}

// A book with all that it stands on.
#[derive(Drop)]
struct OwnedBook {
    bytes: Vec<u8>,
    first: u32,
    height: Height,
    width: Width,
    check: Row,
}

impl OwnedBook {
    fn of(block: &Block) -> anyhow::Result<OwnedBook> {
        let first = block.number("first_key")?;
        let height = height_of(block)?;
        let width = width_of(block)?;
        let check = block.array("check_key")?;
        let salt = block.bytes("salt")?;
        // The rows come last, so that nothing is hashed where one of these values is refused.
        Ok(OwnedBook {
            bytes: rows_of_book(block, block.number("book_bytes")?, &salt)?,
            first,
            height,
            width,
            check,
        })
    }

    fn book(&self) -> Book<'_> {
        self.book_on(&self.bytes)
    }

    fn book_on<'a>(&self, bytes: &'a [u8]) -> Book<'a> {
        Book::new(bytes, self.first, self.height, self.width, &self.check)
    }

    // Whether a key has so many rows: in as many bytes the first key is held, and in one fewer it is not.
    fn has_rows_a_key(&self, rows: u32) -> bool {
        let Some(whole) = self.bytes.get(..32 * rows as usize) else {
            return true;
        };
        let Some((_, cut)) = whole.split_last() else {
            return false;
        };
        let holds = |bytes| self.book_on(bytes).holds(self.first);
        holds(whole) && !holds(cut)
    }

    // Whether it holds just the keys that are listed.
    fn holds_just(&self, held: &[u32]) -> bool {
        let book = self.book();
        (0..2 * self.height.keys()).all(|key| book.holds(key) == held.contains(&key))
            && !book.holds(u32::MAX)
    }
}

// As many bytes of rows as asked for: row r is the digest of r in four bytes and the salt.
fn rows_of_book(block: &Block, length: u32, salt: &[u8]) -> anyhow::Result<Vec<u8>> {
    let mut bytes = Vec::new(block.heap());
    for number in 0..length / 32 + 1 {
        let mut text = Vec::new(block.heap());
        text.extend_from_slice(&number.to_be_bytes())?;
        text.extend_from_slice(salt)?;
        bytes.extend_from_slice(&sha256(&text))?;
    }
    bytes.truncate(length as usize);
    Ok(bytes)
}

const BOOK_VALUES: &[&str] = &[
    "book_bytes",
    "salt",
    "first_key",
    "h",
    "w",
    "check_key",
    "keys_held",
    "rows_a_key",
    "key",
    "kind",
    "i",
    "j",
    "pad",
    "prefix",
    "check_pad",
];

// The book that the questions behind it are put to.
#[derive(Drop, Default)]
pub(crate) struct Books {
    book: Option<OwnedBook>,
}

impl Suite for Books {
    ghost values = { map (λ name. name.now) BOOK_VALUES.now };

    fn names() -> Names {
        Names {
            values: BOOK_VALUES,
            cases: &[],
        }
    }

    // The case of a new book is which keys it holds.
    fn check(&mut self, block: &Block) -> anyhow::Result<Option<bool>> {
        if block.text("book_bytes").is_some() {
            let book = OwnedBook::of(block)?;
            let held = block.numbers("keys_held")?;
            let right = book.holds_just(&held) && book.has_rows_a_key(block.number("rows_a_key")?);
            self.book = Some(book);
            return Ok(Some(right));
        }
        let book = self
            .book
            .as_ref()
            .context("a question comes before its book")?;
        Ok(Some(answers(&book.book(), block)?))
    }
}
