// What the rounds compute on: a word, or a row of words, one to a lane of the vector. SHA-256 has a trait of its own, which would be no plainer
// as one with this: its words are half as long, are added and shifted too, and turn the other way.
ghost use Rattle.std.specs.Prelude.{◌≡◌, ℕ, ◌<◌, bit_and, bit_xor};
ghost use Rattle.keccak.specs.Fips202.{complement, turned};

pub(crate) trait Word: Copy {
    // How many words there are in a row.
    ghost count: { ℕ };

    // The word at a place of the row.
    ghost at: { ℕ → Self → ℕ };

    // The same word at each place.
    fn splat(x: u64) -> Self
        ensures { (i : ℕ) → i < count → at i result ≡ x };

    fn xor(self, other: Self) -> Self
        ensures { (i : ℕ) → i < count → at i result ≡ bit_xor (at i self) (at i other) };

    fn and(self, other: Self) -> Self
        ensures { (i : ℕ) → i < count → at i result ≡ bit_and (at i self) (at i other) };

    fn not(self) -> Self
        ensures { (i : ℕ) → i < count → at i result ≡ complement (at i self) };

    // A rotation to the left.
    fn rotate(self, n: u32) -> Self
        requires { (0 < n) × (n < 64) }
        ensures { (i : ℕ) → i < count → at i result ≡ turned n (at i self) };
}
