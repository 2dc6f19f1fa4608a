// The schedule and the rounds, over words or rows of words.
ghost use Rattle.std.specs.Prelude.{◌≡◌, ℕ, ◌<◌, List, map, slice_index};
ghost use Rattle.sha256_block.specs.Fips180.{word, scheduled, turn, vars, summed, compressed};

use crate::constants::ROUNDS;
use crate::word::{Word, big_sigma0, big_sigma1, choose, majority, small_sigma0, small_sigma1};

// Word t of the schedule, from those before it.
fn next_word<W: Word>(words: &[W; 64], t: usize) -> W
    requires { (15 < t) × (t < 64) }
    ensures { (i : ℕ) → i < W.count → W.at i result ≡ scheduled (map (W.at i) words.now) t }
{
    small_sigma1(words[t - 2])
        .add(words[t - 7])
        .add(small_sigma0(words[t - 15]))
        .add(words[t - 16])
}

// One round over the eight working variables.
fn round<W: Word>(variables: [W; 8], constant: u32, word: W) -> [W; 8]
    ensures { (i : ℕ) → i < W.count → vars (map (W.at i) result) ≡ turn constant (W.at i word) (vars (map (W.at i) variables)) }
{
    let [a, b, c, d, e, f, g, h] = variables;
    let t1 = h
        .add(big_sigma1(e))
        .add(choose(e, f, g))
        .add(W::splat(constant))
        .add(word);
    let t2 = big_sigma0(a).add(majority(a, b, c));
    [t1.add(t2), a, b, c, d.add(t1), e, f, g]
}

// The next hash value: each working variable added to its word of the hash value. The eight sums are listed, since the check
// finds them alone; made by `from_fn` they need a clause and a proof.
fn sum<W: Word>(variables: &[W; 8], hash: &[W; 8]) -> [W; 8]
    ensures { (i : ℕ) → i < W.count → map (W.at i) result ≡ summed (map (W.at i) hash.now) (vars (map (W.at i) variables.now)) }
{
    [
        variables[0].add(hash[0]),
        variables[1].add(hash[1]),
        variables[2].add(hash[2]),
        variables[3].add(hash[3]),
        variables[4].add(hash[4]),
        variables[5].add(hash[5]),
        variables[6].add(hash[6]),
        variables[7].add(hash[7]),
    ]
}

// Takes a block into the hash value. `words` begins with the words of the block; the rest is room
// for the schedule, of which each of the first 48 rounds makes a word. One loop over all rounds,
// with a test in it, takes in 176 MB a second where these two take in 185.
pub(crate) fn compress<W: Word>(hash: &mut [W; 8], words: &mut [W; 64])
    ensures { (i : ℕ) (b : List ℕ) → i < W.count → ((t : ℕ) → t < 16 → slice_index (map (W.at i) words.old) t ≡ word b t) → map (W.at i) hash.new ≡ compressed (map (W.at i) hash.old) b }
{
    let (early, late) = ROUNDS.split_at(48);
    let mut variables = *hash;
    for (t, constant) in early.iter().enumerate() {
        variables = round(variables, *constant, words[t]);
        words[t + 16] = next_word(words, t + 16);
    }
    for (t, constant) in late.iter().enumerate() {
        variables = round(variables, *constant, words[48 + t]);
    }
    *hash = sum(&variables, hash);
}
