// A spend on the tapes of two owners.
ghost use Rattle.std.specs.Prelude.{◌≡◌, OnOk, OnErr};
ghost use Rattle.std.specs.Result.{result_err};
ghost use Rattle.checks.specs.Checks.{first_refusal};
ghost use Rattle.ledger.specs.Standing.{both};
ghost use Rattle.ledger.specs.Spend.{checks};
ghost use Rattle.tape.specs.Lines.{OneLine};
ghost use Rattle.tape.specs.Tapes.{standing_on};

use crate::tapes::Tape;
use ledger::{Refusal, spend_on_both};
use sizes::Height;

/// Spends a key on the tapes of two owners, who lend their bytes for this one spend: on both, or on
/// neither.
///
/// An accepted spend writes the key's line over the first unused one of each tape, and no other
/// byte. A refused one alters no byte of either: it is `Spent` if the key is spent on one of them,
/// as all keys are on a damaged tape, and otherwise `NoRoom` if one of them has no unused line.
pub fn spend_on_two(
    first: &mut [u8],
    second: &mut [u8],
    height: Height,
    key: u32,
) -> Result<(), Refusal>
    ensures answer { result_err result ≡ first_refusal
        (checks (both (standing_on height first.old) (standing_on height second.old)) key) }

    ensures first_line { OnOk result (OneLine first.old key first.new) }
    ensures second_line { OnOk result (OneLine second.old key second.new) }

    ensures first_unaltered { OnErr result (first.new ≡ first.old) }
    ensures second_unaltered { OnErr result (second.new ≡ second.old) }
{
    let mut first_tape = Tape::open(first, height);
    let mut second_tape = Tape::open(second, height);
    spend_on_both(&mut first_tape, &mut second_tape, key)
}
