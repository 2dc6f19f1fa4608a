// How every string that is hashed for a tree begins.
ghost use Rattle.std.specs.Prelude.{◌≡◌, ◌++◌};
ghost use Rattle.rows.specs.Bytes.{u16str, u32str};

use hash::Hash;
use rows::Identifier;

/// A hash that has taken in an identifier, the number of a key or node, and two bytes that mark
/// what follows: D_PBLK, D_MESG, D_LEAF or D_INTR of RFC 8554, or a chain's number.
pub fn opened<H: Hash>(id: Identifier, number: u32, mark: u16) -> H
    ensures { H.state result ≡ H.fed H.first (id.bytes ++ u32str number ++ u16str mark) }
{
    let mut hash = H::start();
    hash.feed(&id.bytes());
    hash.feed(&number.to_be_bytes());
    hash.feed(&mark.to_be_bytes());
    hash
}
