// How many cases there are, how many of them are wrong, and how many wait.
ghost use Rattle.std.specs.Prelude.{◌≡◌, ◌∷◌, [], IfSome, OnSome, IsSome, ◌+◌, ◌<◌, ◌^◌, true};
ghost use Rattle.vector_files.specs.Cases.{counted, plus, verdict, outcome_of};

use std::fmt;

/// What comes of a question that is put to a suite.
#[derive(Clone, Copy, PartialEq, Eq)]
pub(crate) enum Outcome {
    Right,
    Wrong,
    /// There is no case.
    NoCase,
    /// The case waits for a call that is not there yet.
    Waits,
}

impl Outcome {
    pub(crate) fn verdict(right: bool) -> Outcome
        ensures { result ≡ verdict right }
    {
        if right {
            Outcome::Right
        } else {
            Outcome::Wrong
        }
    }

    pub(crate) fn of(answer: Option<bool>) -> Outcome
        ensures { result ≡ outcome_of answer }
    {
        answer.map_or(Outcome::NoCase, Outcome::verdict)
    }
}

/// A count of cases.
#[derive(Clone, Copy, Default)]
pub struct Count {
    /// Cases that were tried.
    pub cases: usize,
    /// Those of them that are wrong.
    pub wrong: usize,
    /// Cases beside them that wait for calls that are not there yet.
    pub waiting: usize,
}

impl Count {
    /// The count of one question.
    pub(crate) fn of(outcome: Outcome) -> Count
        ensures { result ≡ counted (outcome ∷ []) }
    {
        match outcome {
            Outcome::Right => Count {
                cases: 1,
                ..Count::default()
            },
            Outcome::Wrong => Count {
                cases: 1,
                wrong: 1,
                ..Count::default()
            },
            Outcome::NoCase => Count::default(),
            Outcome::Waits => Count {
                waiting: 1,
                ..Count::default()
            },
        }
    }

    /// The sum of two counts; none where a number of it would not fit.
    pub(crate) fn plus(self, more: Count) -> Option<Count>
        ensures some { IfSome result (λ sum. sum ≡ plus self more) }
        ensures fits { self.cases + more.cases < 2 ^ 64 → self.wrong + more.wrong < 2 ^ 64
            → self.waiting + more.waiting < 2 ^ 64 → IsSome result }
    {
        Some(Count {
            cases: self.cases.checked_add(more.cases)?,
            wrong: self.wrong.checked_add(more.wrong)?,
            waiting: self.waiting.checked_add(more.waiting)?,
        })
    }
}

impl fmt::Display for Count {
    fn fmt<W: fmt::Write>(&self, f: &mut fmt::Formatter<W>) -> fmt::Result {
        write!(f, "{} cases, {} wrong", self.cases, self.wrong)
    }
}
