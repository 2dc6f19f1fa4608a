// How the program ends.
ghost use Rattle.std.specs.Prelude.{◌≡◌};
ghost use Rattle.std.specs.Process.{exit_status};
ghost use Rattle.plan_program.specs.Outcomes.{status_of};

use std::process::ExitCode;

/// How the program ended; each case has an exit status of its own.
#[derive(Clone, Copy, PartialEq, Eq, Debug)]
pub enum Outcome {
    /// What was asked for is printed: status 0.
    Done = 0,
    /// The sheet is refused, and the refusal is printed: status 1.
    Refused = 1,
    /// The arguments ask for nothing that the program does: status 2.
    Misused = 2,
}

/// The exit status that tells it.
impl From<Outcome> for ExitCode {
    ghost from_gives = { λ outcome code. exit_status code ≡ status_of outcome };

    fn from(outcome: Outcome) -> ExitCode {
        ExitCode::from(outcome as u8)
    }
}
