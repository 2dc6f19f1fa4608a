// What is printed of one hash: digests to standard output, and measures to standard error.
ghost use Rattle.std.specs.Prelude.{ℕ};

use measuring::per_second;
use std::str;
use std::time::Instant;

// Where the lines go, and the hash's name, with which each begins.
#[derive(Clone, Copy)]
pub(crate) struct Report<'r> {
    pub(crate) rt: &'r HostRuntime,
    pub(crate) hash: &'r str,
}

impl<'r> Report<'r> {
    // Prints the digest of what was computed.
    pub(crate) fn digest(&self, measure: &str, digest: &[u8; 32]) -> anyhow::Result<()> {
        // Into an array, so that no memory is asked for.
        let mut text = [0u8; 64];
        hex::encode_to_slice(digest, &mut text)?;
        let text = str::from_utf8(&text)?;
        println!(self.rt; "{} {measure} {text}", self.hash)?;
        Ok(())
    }

    // Prints how many microseconds it took since `start`.
    pub(crate) fn micros(&self, measure: &str, start: &Instant) -> anyhow::Result<()> {
        let micros = start.elapsed(self.rt)?.as_micros();
        eprintln!(self.rt; "{} {measure} {micros}", self.hash)?;
        Ok(())
    }

    // Prints how many a second that is, of `count` done since `start`.
    pub(crate) fn rate(&self, measure: &str, start: &Instant, count: u64) -> anyhow::Result<()> {
        let figure = per_second(count, start.elapsed(self.rt)?.as_micros());
        eprintln!(self.rt; "{} {measure} {figure}", self.hash)?;
        Ok(())
    }

    // Runs some work, which does a measure `count` times, and prints its rate and its digest.
    pub(crate) fn timed<F: FnOnce() -> [u8; 32]>(
        &self,
        measure: &str,
        count: u64,
        work: F,
    ) -> anyhow::Result<()>
        requires { F.IsAlwaysCallable work }
    {
        let start = Instant::now(self.rt)?;
        let digest = work();
        self.rate(measure, &start, count)?;
        self.digest(measure, &digest)
    }
}
