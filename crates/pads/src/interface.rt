// What every source of pads is.
ghost use Rattle.std.specs.Prelude.{◌≡◌, ℕ, ◌<◌, List, [], slice_index_or};
ghost use Rattle.pads.specs.declared.label.Label.{Label as Name};
ghost use Rattle.pads.specs.Row.{IsRow, AllRows};
ghost use Rattle.pads.specs.Source.{Source, nothing};

use crate::label::Label;
use rows::Row;

/// A source of pads, the rows of 32 bytes that hide the rows of a trustee's keys.
///
/// All that is known of a source is its meaning: the keys that it holds, a pad for each label of
/// a held key, and a check pad for each key and prefix. Asking alters nothing.
pub trait Pads {
    ghost source: { Self → Source };

    /// Whether it holds a key, and so has a pad for each label of the key.
    fn holds(&self, key: u32) -> bool
        ensures { result ≡ (source self.now).held key };

    /// The pad of a label; it is asked for where the key is held.
    fn pad(&self, label: Label) -> Row
        ensures { result ≡ (source self.now).pad label };

    /// The check pad of a key, held or not, and a prefix.
    fn check_pad(&self, key: u32, prefix: &Row) -> Row
        ensures { result ≡ (source self.now).check key prefix.now };

    /// The pads of eight labels, which a source may compute at once.
    fn pads(&self, labels: &[Label; 8]) -> [Row; 8]
        ensures { (n : ℕ) → n < 8 →
            slice_index_or result n []
            ≡ (source self.now).pad (slice_index_or labels.now n nothing) }
    {
        labels.map(
            |label| -> Row
                ensures { result ≡ (source self.entry.now).pad label }
            { self.pad(label) },
        )
    }

    // Every pad is a row, whether or not the label is one of a key and the key is held.
    ghost pads_are_rows: { (p : Self) → AllRows (source p).pad };

    ghost check_pads_are_rows: { (p : Self) (key : ℕ) → AllRows ((source p).check key) };
}
