// Strings of a fixed length.
ghost use Rattle.std.specs.Prelude.{◌≡◌};

/// A string of N bytes.
#[derive(Clone, Copy)]
pub struct Fixed<const N: usize> {
    bytes: [u8; N],
}

/// The 16 bytes by which a tree is told from every other, I in RFC 8554.
pub type Identifier = Fixed<16>;

/// The 32 secret bytes from which all of a tree's rows come, SEED in RFC 8554, Appendix A.
pub type Seed = Fixed<32>;

impl<const N: usize> Fixed<N> {
    /// The string of these bytes.
    pub fn new(bytes: [u8; N]) -> Fixed<N>
        ensures { result.bytes ≡ bytes.entry }
    {
        Fixed { bytes }
    }

    /// Its bytes.
    pub fn bytes(self) -> [u8; N]
        ensures { result ≡ self.entry.bytes }
    {
        self.bytes
    }
}
