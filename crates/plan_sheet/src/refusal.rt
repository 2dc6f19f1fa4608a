// What is wrong with a plan sheet. Line and field are no struct of their own, since a case may have
// a line alone.
ghost use Rattle.std.specs.Prelude.{◌≡◌, Some};
ghost use Rattle.plan_sheet.specs.Refusals.{number_of, line_of, field_of, places};

use std::error::Error;
use std::fmt;

/// What is wrong with a plan sheet, and where: lines and fields count from 1. Its cases are exactly
/// those that the reader can give.
#[derive(Clone, Copy, PartialEq, Eq, Debug)]
pub enum Refusal {
    /// 1: the length is not that of whole lines of 25 bytes, there are fewer than two, or a line
    /// lacks its line feed.
    Layout,
    /// 2: a field that is no number.
    NoNumber { line: usize, field: usize },
    /// 3: a number outside its range.
    OutOfRange { line: usize, field: usize },
    /// 4: members that do not rise, a gap among them, none at all, or a mask that is not above that
    /// of the line before.
    Members { line: usize },
    /// 5: more or fewer group lines than the heading says, or more groups than keys.
    Groups,
}

impl Refusal {
    /// The public number, which users and other implementations see.
    pub fn number(&self) -> usize
        ensures { result ≡ number_of self.now }
    {
        // By a match, since the cases carry values and so have no numbers of their own.
        match self {
            Refusal::Layout => 1,
            Refusal::NoNumber { .. } => 2,
            Refusal::OutOfRange { .. } => 3,
            Refusal::Members { .. } => 4,
            Refusal::Groups => 5,
        }
    }

    /// The line at fault from 1, or 0 where the whole sheet is.
    pub fn line(&self) -> usize
        ensures { result ≡ line_of self.now }
    {
        match self {
            Refusal::Layout => 0,
            Refusal::NoNumber { line, .. }
            | Refusal::OutOfRange { line, .. }
            | Refusal::Members { line } => *line,
            Refusal::Groups => 1,
        }
    }

    /// The field at fault from 1, or 0 where a whole line or the whole sheet is.
    pub fn field(&self) -> usize
        ensures { result ≡ field_of self.now }
    {
        match self {
            Refusal::Layout | Refusal::Members { .. } => 0,
            Refusal::NoNumber { field, .. } | Refusal::OutOfRange { field, .. } => *field,
            Refusal::Groups => 4,
        }
    }
}

/// Prints its number, line and field, each in six columns.
impl fmt::Display for Refusal {
    ghost output = { λ e. Some (places e) };

    fn fmt<W: fmt::Write>(&self, f: &mut fmt::Formatter<W>) -> fmt::Result {
        write!(
            f,
            "{:>6}{:>6}{:>6}",
            self.number(),
            self.line(),
            self.field()
        )
    }
}

impl Error for Refusal {}
