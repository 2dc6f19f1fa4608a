// Spends on ledgers of any kind.
ghost use Rattle.std.specs.Prelude.{◌≡◌, ◌<◌, ◌≤◌, length, take, if◌then◌else◌, fold, is_ok, IsSome, OnOk, slice_index};
ghost use Rattle.std.specs.Result.{result_err};
ghost use Rattle.checks.specs.Checks.{first_refusal};
ghost use Rattle.ledger.specs.Standing.{both};
ghost use Rattle.ledger.specs.Spend.{checks, Spends};
ghost use Rattle.ledger.specs.Runs.{RunsHold, Run};

use crate::interface::Ledger;
use crate::mirror::Mirror;
use crate::refusal::Refusal;

/// Spends a key, for a caller that does not know the ledger's kind.
///
/// It hands on what the interface says, so such a caller too knows the whole ledger afterwards,
/// with each byte of memory that it borrows.
pub fn spend_on<L: Ledger>(ledger: &mut L, key: u32) -> Result<(), Refusal>
    ensures answer { result_err result ≡ first_refusal (checks (L.standing ledger.old) key) }
    ensures spends { OnOk result (Spends (L.standing ledger.old) key (L.standing ledger.new)) }
    ensures value { ledger.new ≡
        (if is_ok result then L.after_spend ledger.old key else ledger.old) }
{
    ledger.spend(key)
}

/// Spends a key on two ledgers of any kinds: on both, or on neither.
///
/// It is refused as `Spent` if the key is spent on either, and otherwise as `NoRoom` if one of
/// them has no room.
pub fn spend_on_both<A: Ledger, B: Ledger>(
    first: &mut A,
    second: &mut B,
    key: u32,
) -> Result<(), Refusal>
    ensures answer { result_err result ≡
        first_refusal (checks (both (A.standing first.old) (B.standing second.old)) key) }

    ensures first_spends { OnOk result (Spends (A.standing first.old) key (A.standing first.new)) }
    ensures second_spends { OnOk result
        (Spends (B.standing second.old) key (B.standing second.new)) }

    ensures first_value { first.new ≡
        (if is_ok result then A.after_spend first.old key else first.old) }
    ensures second_value { second.new ≡
        (if is_ok result then B.after_spend second.old key else second.old) }
{
    let mut mirror = Mirror { first, second };
    mirror.spend(key)
}

/// Spends keys one after the other, up to the first that is refused, and tells how many were
/// accepted.
///
/// The law says what holds of a ledger over every list of spends.
#[tactic(auto, using(crate::proofs::Running::runs_hold))]
pub fn spend_all<L: Ledger>(ledger: &mut L, keys: &[u32]) -> usize
    ensures within { result ≤ length keys.now }
    ensures run { Run (L.standing ledger.old) (take result keys.now) (L.standing ledger.new) }
    ensures value { ledger.new ≡ fold L.after_spend ledger.old (take result keys.now) }

    // It stops short of the end only at a key that is refused.
    ensures stopped { result < length keys.now →
        IsSome (first_refusal (checks (L.standing ledger.new) (slice_index keys.now result))) }

    ensures law { RunsHold }
{
    for (done, key) in keys.iter().enumerate() {
        if ledger.spend(*key).is_err() {
            return done;
        }
    }
    keys.len()
}
