// The lines of a tape, read one after the other.
ghost use Rattle.std.specs.Prelude.{◌≡◌, length};
ghost use Rattle.std.specs.Iterator.{at_most};
ghost use Rattle.tape.specs.Lines.{lines, line_key, lists, blanks, all_unused, fresh_key, sound, Reads};

use crate::line::{is_unused, key_in};

// The whole lines at the front of some bytes. A line is told by a pattern that names six bytes and
// the rest; what is left when none is there, none to five bytes, stays in it to be looked at.
#[derive(Drop)]
pub(crate) struct Lines<'a>(pub(crate) &'a [u8]);

impl Iterator for Lines<'_> {
    type Item = [u8; 6];

    ghost next_gives = { λ s r t. Reads s.0.now r t.0.now };

    ghost remaining = { λ s. at_most (length s.0.now) };

    fn next(&mut self) -> Option<[u8; 6]> {
        let [a, b, c, d, e, f, rest @ ..] = self.0 else {
            return None;
        };
        self.0 = rest;
        Some([*a, *b, *c, *d, *e, *f])
    }
}

// Whether a key is listed.
pub(crate) fn is_listed(bytes: &[u8], key: u32) -> bool
    ensures { result ≡ lists (lines bytes.now) key }
{
    Lines(bytes).filter_map(key_in).any(|listed| listed == key)
}

// How many lines are unused.
pub(crate) fn unused_lines(bytes: &[u8]) -> usize
    ensures { result ≡ blanks (lines bytes.now) }
{
    Lines(bytes).filter(|line| is_unused(*line)).count()
}

// Whether all lines are unused, and nothing is left over.
fn are_unused(bytes: &[u8]) -> bool
    ensures { result ≡ all_unused (lines bytes.now) }
{
    let mut lines = Lines(bytes);
    while let Some(line) = lines.next() {
        if !is_unused(line) {
            return false;
        }
    }
    lines.0.is_empty()
}

// Whether a line lists a key below a limit that no later line lists.
fn is_fresh(line: [u8; 6], limit: u32, rest: &[u8]) -> bool
    ensures { result ≡ fresh_key limit (line_key line) (lines rest.now) }
{
    key_in(line).is_some_and(|key| key < limit && !is_listed(rest, key))
}

// Whether the lines are used ones with distinct keys below a limit, and then unused ones.
pub(crate) fn are_sound(bytes: &[u8], limit: u32) -> bool
    ensures { result ≡ sound limit (lines bytes.now) }
{
    // A chain would give each line, and not the bytes behind it, which are needed too.
    let mut left = Lines(bytes);
    while let Some(line) = left.next() {
        if is_unused(line) {
            return are_unused(left.0);
        }
        if !is_fresh(line, limit, left.0) {
            return false;
        }
    }
    left.0.is_empty()
}
