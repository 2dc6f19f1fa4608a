// What is printed of an input, from its bytes to the text. A report is no Result, since a refusal is
// printed as well, and a `Result<Result<String, String>, AllocError>` would be no plainer.
ghost use Rattle.std.specs.Prelude.{◌≡◌, false, is_none, IfOk};
ghost use Rattle.checks.specs.Checks.{first_refusal};
ghost use Rattle.plan_sheet.specs.Prints.{answer, input_checks, refused, text_of, has_ranges};

use crate::refusal::Refusal;
use crate::{prints, reader};
use std::alloc::{AllocError, Global};

/// More bytes of input than this are refused with 1, whatever they are.
pub const MOST_BYTES: usize = 4096;

/// What is printed: the key ranges of a plan, or a refusal.
#[derive(Drop)]
pub enum Report {
    Ranges(String),
    Refused(String),
}

impl Report {
    /// The text to print, lines of fields of six columns, each with its line feed.
    pub fn text(&self) -> &str
        ensures { result.now ≡ text_of self.now }
    {
        match self {
            Report::Ranges(text) | Report::Refused(text) => text.as_str(),
        }
    }
}

/// The key ranges of the plan whose sheet the input is, or its refusal: 1 if it has more than
/// `MOST_BYTES`, and otherwise that of the first check that fails.
pub fn report_on(heap: Global, input: &[u8]) -> Result<Report, AllocError>
    ensures text { IfOk result (λ t. text_of t ≡ answer input.now) }
    ensures ranges { IfOk result (λ t.
        has_ranges t ≡ is_none (first_refusal (input_checks input.now))) }
{
    if input.len() > MOST_BYTES {
        return refused(heap, &Refusal::Layout);
    }
    match reader::read(input) {
        Ok(plan) => Ok(Report::Ranges(prints::ranges(heap, &plan)?)),
        Err(refusal) => refused(heap, &refusal),
    }
}

// A refusal's line.
fn refused(heap: Global, refusal: &Refusal) -> Result<Report, AllocError>
    ensures text { IfOk result (λ t. text_of t ≡ refused refusal.now) }
    ensures ranges { IfOk result (λ t. has_ranges t ≡ false) }
{
    Ok(Report::Refused(prints::refusal(heap, refusal)?))
}
