// Tapes that are checked and made.
ghost use Rattle.std.specs.Prelude.{◌≡◌, None};
ghost use Rattle.std.specs.Result.{result_err};
ghost use Rattle.sizes.specs.Sizes.{levels};
ghost use Rattle.checks.specs.Checks.{first_refusal};
ghost use Rattle.ledger.specs.Standing.{Fresh};
ghost use Rattle.tape.specs.Tapes.{checks, new_checks, opened, made, standing_of};
ghost use Rattle.tape.specs.Laws.{TapesHold};

use crate::lines::are_sound;
use crate::refusal::Refusal;
use sizes::Height;

/// A ledger on borrowed bytes, in lines of six: one for each key that was spent, and then unused
/// ones, which are its room.
///
/// A used line is the key's number, right-justified in 5 columns, and a line feed; an unused one is
/// six spaces. A tape made of damaged bytes leaves them as they are: every key is spent on it, and
/// there is no room.
// Whether it is intact is a flag, since such a tape has its bytes and its tree too: an enum would
// name the same two fields twice.
#[derive(Drop)]
pub struct Tape<'a> {
    pub(crate) bytes: &'a mut [u8],
    pub(crate) height: Height,
    pub(crate) intact: bool,
}

impl<'a> Tape<'a> {
    /// Checks the bytes of a tape for a tree: their length, and then their lines. They are damaged
    /// unless they are whole lines, used ones with distinct keys of the tree and then unused ones.
    ///
    /// The law says what holds of every tape.
    #[tactic(auto, using(crate::proofs::Reopened::tapes_hold))]
    pub fn check(bytes: &[u8], height: Height) -> Result<(), Refusal>
        ensures answer { result_err result ≡ first_refusal (checks (levels height) bytes.now) }
        ensures law { TapesHold }
    {
        Tape::check_new(bytes)?;
        if !are_sound(bytes, height.keys()) {
            return Err(Refusal::Damaged);
        }
        Ok(())
    }

    /// Checks bytes that are to become a new tape: their length alone. They are damaged unless they
    /// are whole lines; no bytes at all are a tape with no room.
    pub fn check_new(bytes: &[u8]) -> Result<(), Refusal>
        ensures { result_err result ≡ first_refusal (new_checks bytes.now) }
    {
        if bytes.len() % 6 == 0 {
            return Ok(());
        }
        Err(Refusal::Damaged)
    }

    /// The tape on these bytes, which it checks by itself; it alters none of them.
    pub fn open(bytes: &'a mut [u8], height: Height) -> Tape<'a>
        ensures { result ≡ opened bytes.entry height }
    {
        let intact = Tape::check(bytes, height).is_ok();
        Tape {
            bytes,
            height,
            intact,
        }
    }

    /// A new tape on these bytes, all spaces, with every key of the tree free. Bytes that are not
    /// whole lines are left as they are, and the tape is a damaged one.
    pub fn make(bytes: &'a mut [u8], height: Height) -> Tape<'a>
        ensures value { result ≡ made bytes.entry height }
        ensures fresh { first_refusal (new_checks bytes.old) ≡ None →
            Fresh (levels height) (standing_of result) }
    {
        let intact = Tape::check_new(bytes).is_ok();
        if intact {
            bytes.fill(b' ');
        }
        Tape {
            bytes,
            height,
            intact,
        }
    }
}
