// The steps and rounds, over words or rows of words.
ghost use Rattle.std.specs.Prelude.{◌≡◌, ℕ, ◌+◌, ◌*◌, ◌/◌, ◌%◌, ◌<◌, List, map, bit_and, bit_xor, slice_index};
ghost use Rattle.keccak.specs.Fips202.{column as column_of, parity, theta as theta_of, rho as rho_of, pi as pi_of, chi as chi_of, turned, complement, permuted};

use crate::constants::ROUNDS;
use crate::word::Word;
use std::array;

// The sum of column x.
fn column<W: Word>(a: &[W; 25], x: usize) -> W
    requires { x < 5 }
    ensures { (i : ℕ) → i < W.count → W.at i result ≡ column_of (map (W.at i) a.now) x }
{
    a[x].xor(a[5 + x])
        .xor(a[10 + x])
        .xor(a[15 + x])
        .xor(a[20 + x])
}

fn columns<W: Word>(a: &[W; 25]) -> [W; 5]
    ensures { (i x : ℕ) → i < W.count → x < 5 → slice_index (map (W.at i) result) x ≡ column_of (map (W.at i) a.now) x }
{
    array::from_fn(
        |x: usize| -> W
            requires { x < 5 }
            ensures { (i : ℕ) → i < W.count → W.at i result ≡ column_of (map (W.at i) a.entry.now) x }
        { column(a, x) },
    )
}

// What theta adds to the lanes of column x.
fn parities<W: Word>(columns: &[W; 5]) -> [W; 5]
    ensures { (i x : ℕ) → i < W.count → x < 5 → slice_index (map (W.at i) result) x
        ≡ bit_xor (slice_index (map (W.at i) columns.now) ((x + 4) % 5)) (turned 1 (slice_index (map (W.at i) columns.now) ((x + 1) % 5))) }
{
    array::from_fn(
        |x: usize| -> W
            requires { x < 5 }
            ensures { (i : ℕ) → i < W.count → W.at i result
                ≡ bit_xor (slice_index (map (W.at i) columns.entry.now) ((x + 4) % 5)) (turned 1 (slice_index (map (W.at i) columns.entry.now) ((x + 1) % 5))) }
        { columns[(x + 4) % 5].xor(columns[(x + 1) % 5].rotate(1)) },
    )
}

// Lane k after theta. Inlined, since k is a constant at each call.
#[inline(always)]
fn added<W: Word>(a: &[W; 25], sums: &[W; 5], k: usize) -> W
    requires { k < 25 }
    ensures { (i : ℕ) → i < W.count → W.at i result ≡ bit_xor (slice_index (map (W.at i) a.now) k) (slice_index (map (W.at i) sums.now) (k % 5)) }
{
    a[k].xor(sums[k % 5])
}

// Here and in chi the lanes are listed: made by `from_fn` over k, whose loop is not unrolled,
// they give 245 thousand hashes of SHAKE256 a second in place of 1357.
fn theta<W: Word>(a: &[W; 25]) -> [W; 25]
    ensures { (i : ℕ) → i < W.count → map (W.at i) result ≡ theta_of (map (W.at i) a.now) }
{
    let sums = parities(&columns(a));
    [
        added(a, &sums, 0),
        added(a, &sums, 1),
        added(a, &sums, 2),
        added(a, &sums, 3),
        added(a, &sums, 4),
        added(a, &sums, 5),
        added(a, &sums, 6),
        added(a, &sums, 7),
        added(a, &sums, 8),
        added(a, &sums, 9),
        added(a, &sums, 10),
        added(a, &sums, 11),
        added(a, &sums, 12),
        added(a, &sums, 13),
        added(a, &sums, 14),
        added(a, &sums, 15),
        added(a, &sums, 16),
        added(a, &sums, 17),
        added(a, &sums, 18),
        added(a, &sums, 19),
        added(a, &sums, 20),
        added(a, &sums, 21),
        added(a, &sums, 22),
        added(a, &sums, 23),
        added(a, &sums, 24),
    ]
}

// Each lane comes from another place, and is turned by an offset of its own.
fn rho_pi<W: Word>(a: &[W; 25]) -> [W; 25]
    ensures { (i : ℕ) → i < W.count → map (W.at i) result ≡ pi_of (rho_of (map (W.at i) a.now)) }
{
    [
        a[0],
        a[6].rotate(44),
        a[12].rotate(43),
        a[18].rotate(21),
        a[24].rotate(14),
        a[3].rotate(28),
        a[9].rotate(20),
        a[10].rotate(3),
        a[16].rotate(45),
        a[22].rotate(61),
        a[1].rotate(1),
        a[7].rotate(6),
        a[13].rotate(25),
        a[19].rotate(8),
        a[20].rotate(18),
        a[4].rotate(27),
        a[5].rotate(36),
        a[11].rotate(10),
        a[17].rotate(15),
        a[23].rotate(56),
        a[2].rotate(62),
        a[8].rotate(55),
        a[14].rotate(39),
        a[15].rotate(41),
        a[21].rotate(2),
    ]
}

// Lane k after chi. Inlined, since k is a constant at each call.
#[inline(always)]
fn bent<W: Word>(a: &[W; 25], k: usize) -> W
    requires { k < 25 }
    ensures { (i : ℕ) → i < W.count → W.at i result
        ≡ bit_xor (slice_index (map (W.at i) a.now) k) (bit_and (complement (slice_index (map (W.at i) a.now) (k / 5 * 5 + (k + 1) % 5))) (slice_index (map (W.at i) a.now) (k / 5 * 5 + (k + 2) % 5))) }
{
    let row = k / 5 * 5;
    a[k].xor(a[row + (k + 1) % 5].not().and(a[row + (k + 2) % 5]))
}

fn chi<W: Word>(a: &[W; 25]) -> [W; 25]
    ensures { (i : ℕ) → i < W.count → map (W.at i) result ≡ chi_of (map (W.at i) a.now) }
{
    [
        bent(a, 0),
        bent(a, 1),
        bent(a, 2),
        bent(a, 3),
        bent(a, 4),
        bent(a, 5),
        bent(a, 6),
        bent(a, 7),
        bent(a, 8),
        bent(a, 9),
        bent(a, 10),
        bent(a, 11),
        bent(a, 12),
        bent(a, 13),
        bent(a, 14),
        bent(a, 15),
        bent(a, 16),
        bent(a, 17),
        bent(a, 18),
        bent(a, 19),
        bent(a, 20),
        bent(a, 21),
        bent(a, 22),
        bent(a, 23),
        bent(a, 24),
    ]
}

pub(crate) fn permute<W: Word>(a: &mut [W; 25])
    ensures { (i : ℕ) → i < W.count → map (W.at i) a.new ≡ permuted (map (W.at i) a.old) }
{
    for constant in &ROUNDS {
        *a = chi(&rho_pi(&theta(a)));
        a[0] = a[0].xor(W::splat(*constant));
    }
}
