// What the rounds compute on: a word, or a row of words, one to a lane.
ghost use Rattle.std.specs.Prelude.{◌≡◌, ℕ, ◌<◌, bit_and, bit_xor};
ghost use Rattle.sha256_block.specs.Fips180.{add as plus, complement, rotr, shr, ch, maj, big_sigma0, big_sigma1, sigma0, sigma1};

pub(crate) trait Word: Copy {
    // How many lanes there are.
    ghost count: { ℕ };

    // The word in a lane.
    ghost at: { ℕ → Self → ℕ };

    // The same word in each lane.
    fn splat(x: u32) -> Self
        ensures { (i : ℕ) → i < count → at i result ≡ x };

    fn add(self, other: Self) -> Self
        ensures { (i : ℕ) → i < count → at i result ≡ plus (at i self) (at i other) };

    fn xor(self, other: Self) -> Self
        ensures { (i : ℕ) → i < count → at i result ≡ bit_xor (at i self) (at i other) };

    fn and(self, other: Self) -> Self
        ensures { (i : ℕ) → i < count → at i result ≡ bit_and (at i self) (at i other) };

    fn not(self) -> Self
        ensures { (i : ℕ) → i < count → at i result ≡ complement (at i self) };

    fn rotate(self, n: u32) -> Self
        requires { (0 < n) × (n < 32) }
        ensures { (i : ℕ) → i < count → at i result ≡ rotr n (at i self) };

    fn shift(self, n: u32) -> Self
        requires { n < 32 }
        ensures { (i : ℕ) → i < count → at i result ≡ shr n (at i self) };
}

pub(crate) fn big_sigma0<W: Word>(x: W) -> W
    ensures { (i : ℕ) → i < W.count → W.at i result ≡ big_sigma0 (W.at i x) }
{
    x.rotate(2).xor(x.rotate(13)).xor(x.rotate(22))
}

pub(crate) fn big_sigma1<W: Word>(x: W) -> W
    ensures { (i : ℕ) → i < W.count → W.at i result ≡ big_sigma1 (W.at i x) }
{
    x.rotate(6).xor(x.rotate(11)).xor(x.rotate(25))
}

pub(crate) fn small_sigma0<W: Word>(x: W) -> W
    ensures { (i : ℕ) → i < W.count → W.at i result ≡ sigma0 (W.at i x) }
{
    x.rotate(7).xor(x.rotate(18)).xor(x.shift(3))
}

pub(crate) fn small_sigma1<W: Word>(x: W) -> W
    ensures { (i : ℕ) → i < W.count → W.at i result ≡ sigma1 (W.at i x) }
{
    x.rotate(17).xor(x.rotate(19)).xor(x.shift(10))
}

pub(crate) fn choose<W: Word>(x: W, y: W, z: W) -> W
    ensures { (i : ℕ) → i < W.count → W.at i result ≡ ch (W.at i x) (W.at i y) (W.at i z) }
{
    x.and(y).xor(x.not().and(z))
}

pub(crate) fn majority<W: Word>(x: W, y: W, z: W) -> W
    ensures { (i : ℕ) → i < W.count → W.at i result ≡ maj (W.at i x) (W.at i y) (W.at i z) }
{
    x.and(y).xor(x.and(z)).xor(y.and(z))
}
