// Shows a tape made, spent on, opened again and refused when damaged; a mirror of a tape and a
// bitmap, and a mirror over a mirror; ledgers of two kinds in one slice; and tapes whose bytes are
// lent for one spend.
#![tactic(auto)]

ghost use Rattle.std.specs.Prelude.{◌≡◌, if◌then◌else◌, is_ok};
ghost use Rattle.tape.specs.Lines.{with_line};

use either::Either;
use ledger::{Bitmap, Ledger, Mirror, Refusal, next_free, spend_on_both};
use sizes::Height;
use std::{io, str};
use tape::{Tape, spend_on_two};

// What is printed of an answer: 0, or the number of the refusal.
fn number_of(answer: Result<(), Refusal>) -> usize {
    answer.err().map_or(0, |refusal| refusal.number())
}

// Spends a key and prints the answer.
fn spend<L: Ledger>(rt: &HostRuntime, ledger: &mut L, key: u32) -> io::Result<()> {
    let answer = number_of(ledger.spend(key));
    let room = ledger.room();
    println!(rt; "spend {key}: {answer}, room {room}")?;
    Ok(())
}

// Prints what the check of a tape's bytes answers, 0 or the number of its refusal, and the bytes.
fn check(rt: &HostRuntime, bytes: &[u8]) -> io::Result<()> {
    let refused = Tape::check(bytes, Height::Five).err();
    let answer = refused.map_or(0, |refusal| refusal.number());
    println!(rt; "check: {answer}")?;
    if let Ok(lines) = str::from_utf8(bytes) {
        println!(rt; "{lines}")?;
    }
    Ok(())
}

// A tape of three lines: two keys are spent, and one of them a second time, which is refused.
fn show_tape(rt: &HostRuntime, bytes: &mut [u8]) -> io::Result<()> {
    let mut tape = Tape::make(bytes, Height::Five);
    let room = tape.room();
    println!(rt; "a new tape: room {room}")?;
    spend(rt, &mut tape, 7)?;
    spend(rt, &mut tape, 7)?;
    spend(rt, &mut tape, 0)?;
    Ok(())
}

// The same tape opened again, and beside it a bitmap in which another key is spent.
fn show_mirror(rt: &HostRuntime, bytes: &mut [u8]) -> io::Result<()> {
    let mut bitmap = Bitmap::new(Height::Five);
    println!(rt; "a bitmap beside it")?;
    spend(rt, &mut bitmap, 1)?;
    let tape = Tape::open(bytes, Height::Five);
    let mut mirror = Mirror {
        first: tape,
        second: bitmap,
    };
    let free = next_free(&mirror, 0, 32);
    println!(rt; "a mirror of both: next free key {free:?}")?;
    spend(rt, &mut mirror, 1)?;
    spend(rt, &mut mirror, 31)?;
    spend(rt, &mut mirror, 2)?;
    Ok(())
}

// Two tapes and a bitmap in a pile of mirrors: a spend is on both tapes, and the shorter one's room
// is the pile's.
fn show_pile(rt: &HostRuntime) -> io::Result<()> {
    let (mut short, mut long) = ([0u8; 6], [0u8; 12]);
    let mut pile = Mirror {
        first: Mirror {
            first: Tape::make(&mut short, Height::Five),
            second: Bitmap::new(Height::Five),
        },
        second: Tape::make(&mut long, Height::Five),
    };
    println!(rt;
        "a mirror over a mirror: a tape of one line and a bitmap, and a tape of two lines"
    )?;
    spend(rt, &mut pile, 4)?;
    spend(rt, &mut pile, 5)?;
    check(rt, &short)?;
    check(rt, &long)?;
    Ok(())
}

// Ledgers of two kinds in one slice. (A vector, since an array of enums that hold a `&mut` is not
// possible yet.)
fn show_kinds(rt: &HostRuntime) -> io::Result<()> {
    let mut line = [b' '; 6];
    let mut ledgers = Vec::new(rt.alloc());
    ledgers.push(Either::Left(Tape::open(&mut line, Height::Five)))?;
    ledgers.push(Either::Right(Bitmap::new(Height::Five)))?;
    println!(rt; "a tape of one line and a bitmap in one slice")?;
    for ledger in &mut ledgers {
        spend(rt, ledger, 3)?;
        spend(rt, ledger, 4)?;
    }
    Ok(())
}

// Spends a key on bytes that are lent to a tape for this alone. Afterwards their owner knows each of
// them: the key's line is written over the first unused one, or nothing is altered.
fn spend_on(bytes: &mut [u8], key: u32) -> Result<(), Refusal>
    ensures { bytes.new ≡ (if is_ok result then with_line bytes.old key else bytes.old) }
{
    let mut tape = Tape::open(bytes, Height::Five);
    tape.spend(key)
}

// The same with the tapes of two owners and a bitmap, in a mirror over a mirror of ledgers that are
// lent: both owners know their bytes afterwards.
fn spend_on_pile(first: &mut [u8], second: &mut [u8], key: u32) -> Result<(), Refusal>
    ensures first { first.new ≡ (if is_ok result then with_line first.old key else first.old) }
    ensures second { second.new ≡ (if is_ok result then with_line second.old key else second.old) }
{
    let mut first_tape = Tape::open(first, Height::Five);
    let mut second_tape = Tape::open(second, Height::Five);
    let mut inner = Mirror {
        first: &mut first_tape,
        second: Bitmap::new(Height::Five),
    };
    spend_on_both(&mut inner, &mut second_tape, key)
}

// Two owners' tapes, of two lines and of one, lent for one spend at a time: one key is spent on both,
// and the next on neither, since the shorter one has no room left.
fn show_two_owners(rt: &HostRuntime) -> io::Result<()> {
    let (mut long, mut short) = ([b' '; 12], [b' '; 6]);
    println!(rt; "the bytes of two owners, lent for one spend at a time")?;
    let both = number_of(spend_on_two(&mut long, &mut short, Height::Five, 8));
    let neither = number_of(spend_on_pile(&mut long, &mut short, 9));
    println!(rt; "spend 8: {both}, spend 9 with a bitmap between them: {neither}")?;
    check(rt, &long)?;
    check(rt, &short)
}

fn main(rt: HostRuntime) -> io::Result<()> {
    let mut bytes = [0u8; 18];
    show_tape(&rt, &mut bytes)?;
    check(&rt, &bytes)?;
    show_mirror(&rt, &mut bytes)?;
    check(&rt, &bytes)?;
    println!(rt; "the 0 in it becomes a 7, so that a key is listed twice")?;
    bytes[10] = b'7';
    check(&rt, &bytes)?;
    let mut damaged = Tape::open(&mut bytes, Height::Five);
    spend(&rt, &mut damaged, 9)?;
    show_pile(&rt)?;
    show_kinds(&rt)?;
    let mut lent = [b' '; 6];
    let refused = spend_on(&mut lent, 3).is_err();
    println!(rt; "bytes that were lent for one spend: refused {refused}")?;
    check(&rt, &lent)?;
    show_two_owners(&rt)
}
