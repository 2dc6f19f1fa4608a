// Rows that are kept.
ghost use Rattle.std.specs.Prelude.{◌≡◌};
ghost use Rattle.helper.specs.Entries.{is_of, lookup};

use rows::Row;

// A row with the key and the index that it was read at.
#[derive(Clone, Copy)]
pub(crate) struct Entry {
    pub(crate) key: u32,
    pub(crate) index: usize,
    pub(crate) row: Row,
}

impl Entry {
    fn is_of(&self, key: u32, index: usize) -> bool
        ensures { result ≡ is_of key index self.now }
    {
        self.key == key && self.index == index
    }
}

// The row of the first entry of that key and index.
pub(crate) fn look_up(entries: &[Option<Entry>], key: u32, index: usize) -> Option<Row>
    ensures { result ≡ lookup entries.now key index }
{
    let entry = entries
        .iter()
        .flatten()
        .find(|entry| entry.is_of(key, index))?;
    Some(entry.row)
}
