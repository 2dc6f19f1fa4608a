// The digits that are signed: those of a digest, and behind them those of its checksum.
ghost use Rattle.std.specs.Prelude.{◌≡◌, ℕ, ◌+◌, ◌-◌, ◌*◌, ◌/◌, ◌^◌, ◌<◌, ◌≤◌, ◌++◌, length, slice_index};
ghost use Rattle.rows.specs.Bytes.{u16str};
ghost use Rattle.sizes.specs.Sizes.{bits};
ghost use Rattle.lmots.specs.LmOts.{coef, checksum, digit, ls, p, u};

use rows::{Row, put};
use sizes::Width;
use std::array;

/// The number of chains of a key, p in RFC 8554, 4.1.
pub fn chain_count(width: Width) -> usize
    ensures value { result ≡ p (bits width) }
    ensures few { result ≤ 265 }
{
    match width {
        Width::One => 265,
        Width::Two => 133,
        Width::Four => 67,
        Width::Eight => 34,
    }
}

/// The number of positions on a chain, 2^w.
pub fn position_count(width: Width) -> usize
    ensures value { result ≡ 2 ^ bits width }
    ensures few { result ≤ 256 }
{
    1 << width.bits()
}

// The last position of a chain.
pub(crate) fn last_position(width: Width) -> u8
    ensures { result ≡ 2 ^ bits width - 1 }
{
    (position_count(width) - 1) as u8
}

// By how many bits a checksum is shifted to the left, as RFC 8554 lists it.
fn checksum_shift(width: Width) -> u32
    ensures { result ≡ ls (bits width) }
{
    match width {
        Width::One => 7,
        Width::Two => 6,
        Width::Four => 4,
        Width::Eight => 0,
    }
}

// Digit i of a string.
fn digit_at(width: Width, s: &[u8], i: usize) -> u8
    requires small { i < 1000 }
    requires inside { i * bits width / 8 < length s.now }
    ensures { result ≡ coef (bits width) s.now i }
{
    let w = width.bits();
    let byte = s[i * w / 8] as usize;
    (last_position(width) as usize & (byte >> (8 - (w * (i % (8 / w)) + w)))) as u8
}

// What digit i of a digest lacks of the largest.
fn lacking(width: Width, digest: &Row, i: usize) -> u16
    requires { i < u (bits width) }
    ensures { result ≡ 2 ^ bits width - 1 - coef (bits width) digest.now i }
{
    (last_position(width) - digit_at(width, digest, i)) as u16
}

// A digest with its checksum behind it: the string whose digits are signed.
fn with_checksum(width: Width, digest: &Row) -> [u8; 34]
    ensures { result ≡ digest.now ++ u16str (checksum (bits width) digest.now) }
{
    let sum: u16 = (0..256 / width.bits())
        .map(|i| lacking(width, digest, i))
        .sum();
    let bytes = (sum << checksum_shift(width)).to_be_bytes();
    let mut s = [0; 34];
    put(&mut s, 0, digest);
    put(&mut s, 32, &bytes);
    s
}

// Digit i of the string that is signed; behind its end it is 0.
fn digit_or_zero(width: Width, digits: &[u8; 34], i: usize) -> u8
    ensures { result ≡ coef (bits width) digits.now i }
{
    if i >= 272 / width.bits() {
        return 0;
    }
    digit_at(width, digits, i)
}

/// The position that a digest selects on chain i, from 0. Who needs more than one asks `selection`.
pub fn position(width: Width, digest: &Row, i: usize) -> u8
    ensures { result ≡ digit (bits width) digest.now i }
{
    // Tested before the checksum is made, which takes a step for each digit.
    if i >= 272 / width.bits() {
        return 0;
    }
    digit_or_zero(width, &with_checksum(width, digest), i)
}

/// The positions that a digest selects, chain by chain, with the checksum computed once. There is
/// room for the 265 chains of the longest key; what stands behind a key's last chain selects none.
pub fn selection(width: Width, digest: &Row) -> [u8; 265]
    ensures value { (i : ℕ) → i < 265 → slice_index result i ≡ digit (bits width) digest.now i }
    ensures inside { (i : ℕ) → slice_index result i < 2 ^ bits width }
{
    let digits = with_checksum(width, digest);
    array::from_fn(|i| digit_or_zero(width, &digits, i))
}
