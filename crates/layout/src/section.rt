// The parts of one group, which lie together in the public table.
ghost use Rattle.std.specs.Prelude.{◌≡◌};
ghost use Rattle.plan.specs.Keys.{in_range};
ghost use Rattle.layout.specs.Table.{place_in};

/// The parts of one group's keys, which lie together: the keys from `first` on, `count` many, have
/// parts of `rows` rows each, and `start` rows of the table lie before the first of them.
#[derive(Clone, Copy, PartialEq, Eq, Debug, Default)]
pub struct Section {
    pub first: u32,
    pub count: u32,
    pub rows: u16,
    pub start: u32,
}

impl Section {
    /// Whether a key is one of the section's.
    pub fn has(&self, key: u32) -> bool
        ensures { result ≡ in_range self.now.first self.now.count key }
    {
        // A group's test, by the same definition: one function for both would take three numbers.
        self.first <= key && key - self.first < self.count
    }

    /// How many rows of the table lie before a key's part; a key below the section's counts as its
    /// first.
    pub fn place(&self, key: u32) -> usize
        ensures { result ≡ place_in self.now key }
    {
        self.start as usize + key.saturating_sub(self.first) as usize * self.rows as usize
    }
}
