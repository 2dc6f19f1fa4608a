// The program's whole job.
ghost use Rattle.std.specs.Prelude.{◌≡◌, if◌then◌else◌, [], IfOk, IfSome, OnOk, OnErr};
ghost use Rattle.std.specs.Io.KnownBytes.{Appends};
ghost use Rattle.plan_sheet.specs.Prints.{answer, text_of};
ghost use Rattle.plan_program.specs.Parts.{AppendsFront, ConsumesAtMost, ConsumesFront};
ghost use Rattle.plan_program.specs.Outcomes.{outcome_by, outcome_of, outcome_in};
ghost use Rattle.plan_program.specs.Program.{printed_by, told_by, most_read, usage, awaited};

use crate::outcome::Outcome;
use crate::request::Request;
use crate::streams::{fill, write_whole};
use plan_sheet::{MOST_BYTES, Report, report_on};
use std::alloc::Global;
use std::io;
use std::io::{Read, Write};

const USAGE: &[u8] =
    b"usage: ringplan < PLAN_SHEET    prints which keys each group of the plan owns\n";

const AWAITED: &[u8] = b"ringplan: type a plan sheet, and then the end of input (Ctrl-D)\n";

/// Does what is asked for. For key ranges it reads a plan sheet from `input`, and prints them or
/// the sheet's refusal on `output`; of more than 4,096 bytes of input it reads one more than 4,096,
/// and refuses them with 1. Where the sheet is to be typed, it says so on `errors` first.
///
/// It fails where a stream or memory fails, and then it has written a front of what it would have
/// written, which may be nothing or all, and has read no more than it would have read.
pub fn run<R: Read, W: Write, E: Write>(
    heap: Global,
    request: Request,
    input: &mut R,
    output: &mut W,
    errors: &mut E,
) -> io::Result<Outcome>
    ensures printed { OnOk result (IfSome (printed_by request (R.remaining input.old))
        (Appends (W.contents output.old) (W.contents output.new))) }
    ensures told { OnOk result
        (Appends (E.contents errors.old) (E.contents errors.new) (told_by request)) }
    ensures outcome { IfOk result (λ outcome.
        IfSome (outcome_by request (R.remaining input.old)) (λ expected. outcome ≡ expected)) }
    ensures taken { OnOk result
        (ConsumesFront (most_read request) (R.remaining input.old) (R.remaining input.new)) }

    // after an error
    ensures printed_front { OnErr result (IfSome (printed_by request (R.remaining input.old))
        (AppendsFront (W.contents output.old) (W.contents output.new))) }
    ensures told_front { OnErr result
        (AppendsFront (E.contents errors.old) (E.contents errors.new) (told_by request)) }
    ensures taken_front { OnErr result
        (ConsumesAtMost (most_read request) (R.remaining input.old) (R.remaining input.new)) }
{
    match request {
        Request::Ranges { typed } => {
            write_whole(errors, announcement(typed))?;
            put_ranges(heap, input, output)
        }
        Request::Usage => {
            write_whole(output, USAGE)?;
            Ok(Outcome::Done)
        }
        Request::Unknown => {
            write_whole(errors, USAGE)?;
            Ok(Outcome::Misused)
        }
    }
}

// What is said before a sheet is read.
fn announcement(typed: bool) -> &'static [u8]
    ensures { result.now ≡ (if typed then awaited else []) }
{
    if typed { AWAITED } else { b"" }
}

// The key ranges of the plan whose sheet the input is, or the sheet's refusal.
fn put_ranges<R: Read, W: Write>(heap: Global, input: &mut R, output: &mut W) -> io::Result<Outcome>
    ensures printed { OnOk result (IfSome (R.remaining input.old) (λ bytes.
        Appends (W.contents output.old) (W.contents output.new) (answer bytes))) }
    ensures outcome { IfOk result (λ outcome.
        IfSome (R.remaining input.old) (λ bytes. outcome ≡ outcome_of bytes)) }
    ensures taken { OnOk result
        (ConsumesFront 4097 (R.remaining input.old) (R.remaining input.new)) }
    ensures printed_front { OnErr result (IfSome (R.remaining input.old) (λ bytes.
        AppendsFront (W.contents output.old) (W.contents output.new) (answer bytes))) }
    ensures taken_front { OnErr result
        (ConsumesAtMost 4097 (R.remaining input.old) (R.remaining input.new)) }
{
    let report = report_of(heap, input)?;
    write_whole(output, report.text().as_bytes())?;
    Ok(outcome(&report))
}

// What is to be printed, by the first 4,097 bytes of the input.
fn report_of<R: Read>(heap: Global, input: &mut R) -> io::Result<Report>
    ensures text { IfOk result (λ report.
        IfSome (R.remaining input.old) (λ bytes. text_of report ≡ answer bytes)) }
    ensures outcome { IfOk result (λ report.
        IfSome (R.remaining input.old) (λ bytes. outcome_in report ≡ outcome_of bytes)) }
    ensures taken { OnOk result
        (ConsumesFront 4097 (R.remaining input.old) (R.remaining input.new)) }
    ensures taken_front { OnErr result
        (ConsumesAtMost 4097 (R.remaining input.old) (R.remaining input.new)) }
{
    let mut buffer = [0u8; MOST_BYTES + 1];
    let length = fill(input, &mut buffer)?;
    Ok(report_on(heap, &buffer[..length])?)
}

// How a report is told by the exit status.
fn outcome(report: &Report) -> Outcome
    ensures { result ≡ outcome_in report.now }
{
    match report {
        Report::Ranges(_) => Outcome::Done,
        Report::Refused(_) => Outcome::Refused,
    }
}
