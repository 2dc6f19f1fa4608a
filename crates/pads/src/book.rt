// A book: pads on borrowed bytes, for consecutive keys from a stated first one.
ghost use Rattle.std.specs.Prelude.{◌≡◌, ◌≤◌};
ghost use Rattle.sizes.specs.Sizes.{levels, bits};
ghost use Rattle.hash.specs.Rfc2104.{hmac_of};
ghost use Rattle.sha256.specs.Fips180.{sha256 as standard};
ghost use Rattle.sha256.specs.State.{fed, closed};
ghost use Rattle.sha256.specs.View.{viewed};
ghost use Rattle.sha256.specs.Laws.{closed_long_law, closed_bytes_law};
ghost use Rattle.pads.specs.Row.{AllRows, AllRows-prop};
ghost use Rattle.pads.specs.Source.{mac_under};
ghost use Rattle.pads.specs.Labelled.{row_of};
ghost use Rattle.pads.specs.Books.{rows_of_key, book_pad, of_book};
ghost use Rattle.pads.specs.Laws.{Booking};

use crate::hmac_pads::HmacPads;
use crate::interface::Pads;
use crate::label::{CHAIN, CHECK_ROW, Label, PATH, PREFIX};
use lms::scheme;
use rows::{Row, row_at};
use sha256::Hasher;
use sizes::{Height, Width};

// A book has check rows for as many members as a group may have, whatever the size of a group.
const CHECK_ROWS: usize = 8;

/// Pads that were written down: rows of consecutive keys on borrowed bytes, key by key.
///
/// A key has a row of 32 bytes for its prefix, 8 for check rows, one for each level of the path,
/// and one for each position of each chain. Check pads are HMAC-SHA-256 (RFC 2104) under a key of
/// the book's own.
#[derive(Clone, Copy)]
pub struct Book<'a> {
    bytes: &'a [u8],
    first: u32,
    height: Height,
    width: Width,
    check: HmacPads<Hasher>,
    // Every label's pad is a row, also that of a label which has none in the book.
    ghost rows: { AllRows (book_pad (levels height) (bits width) first bytes.now) } by { AllRows-prop _ },
}

impl<'a> Book<'a> {
    /// The book on these bytes, for a tree of this height and width. It begins with the rows of the
    /// key `first`. A key whose rows are cut, and one from 2^h on, is not held. `check` is the key
    /// of its check pads.
    #[tactic(auto, using(crate::proofs::Booked::booking))]
    pub fn new(
        bytes: &'a [u8],
        first: u32,
        height: Height,
        width: Width,
        check: &[u8; 32],
    ) -> Book<'a>
        ensures means { ⟦<Book<'a> as Pads>⟧.source result
            ≡ of_book (levels height) (bits width) first bytes.now (hmac_of standard 64 check.now) }
        ensures laws { Booking }
    {
        Book {
            bytes,
            first,
            height,
            width,
            check: HmacPads::new(check),
        }
    }

    // How many rows each key has.
    fn rows_of_key(&self) -> usize
        ensures value { result ≡ rows_of_key (levels self.now.height) (bits self.now.width) }
        ensures bounds { (1 ≤ result) × (result ≤ 100000) }
    {
        1 + CHECK_ROWS
            + self.height.levels()
            + scheme::components(self.width) * scheme::positions(self.width)
    }

    // Which of a key's rows a label has, if any.
    fn row_of(&self, label: &Label) -> Option<usize>
        ensures { result ≡ row_of 8 (levels self.now.height) (bits self.now.width) label.now }
    {
        let levels = self.height.levels();
        let components = scheme::components(self.width);
        let positions = scheme::positions(self.width);
        match (label.kind, label.i as usize, label.j as usize) {
            (PREFIX, 0, 0) => Some(0),
            (CHECK_ROW, i, 0) if i < CHECK_ROWS => Some(1 + i),
            (PATH, i, 0) if i < levels => Some(1 + CHECK_ROWS + i),
            (CHAIN, i, j) if i < components && j < positions => Some(
                1 + CHECK_ROWS + levels + i * positions + j,
            ),
            _ => None,
        }
    }
}

impl Pads for Book<'_> {
    ghost source = { λ b. of_book (levels b.height) (bits b.width) b.first b.bytes.now
        (mac_under viewed fed closed b.check.key) };

    ghost pads_are_rows = { λ b. b.rows };

    ghost check_pads_are_rows = { λ b key prefix.
        record { long = closed_long_law _; bytes = closed_bytes_law _ } };

    fn holds(&self, key: u32) -> bool {
        self.first <= key
            && key < self.height.keys()
            && ((key - self.first) as usize) < self.bytes.len() / (32 * self.rows_of_key())
    }

    fn pad(&self, label: Label) -> Row {
        if !self.holds(label.key) {
            return [0; 32];
        }
        let Some(row) = self.row_of(&label) else {
            return [0; 32];
        };
        let index = (label.key - self.first) as usize;
        row_at(self.bytes, 32 * (self.rows_of_key() * index + row))
    }

    fn check_pad(&self, key: u32, prefix: &Row) -> Row {
        self.check.check_pad(key, prefix)
    }
}
