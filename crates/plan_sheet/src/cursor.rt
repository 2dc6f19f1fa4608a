// A cursor over a plan sheet, whose methods yield fields with their place.
ghost use Rattle.std.specs.Prelude.{◌≡◌, ◌+◌, ◌-◌, ◌*◌, ◌^◌, ◌<◌, ◌≤◌, true, ◌&&◌, length, is_some, Some, None, MatchResult, ◌==◌, nat_le, nat_lt};
ghost use Rattle.std.specs.Option.{unwrap_or};
ghost use Rattle.columns.specs.Number.{number, blank};
ghost use Rattle.checks.specs.Checks.{first_refusal};
ghost use Rattle.plan_sheet.specs.Checks.{Gives, field_at, worth, entry_checks, quantity_checks, heading_checks, Headed, n_of};
ghost use Rattle.plan_sheet.specs.Checks.{line_checks, mask_at, above_at, Lined};
ghost use Rattle.std.specs.List.{range_with_len, flat_map};
ghost use Rattle.sizes.specs.Sizes.{levels, bits};

use crate::quantities::{Quantity, UpTo};
use crate::refusal::Refusal;
use crate::tally::Tally;
use sizes::{Height, Width};

// Line and field are counted up by hand, since that is what a cursor is for. They count from 1: the
// line is one of the sheet's, and the field is at most one behind its last.
#[derive(Drop)]
pub(crate) struct Cursor<'s> {
    sheet: &'s [u8],
    line: usize,
    field: usize,
    ghost line_in: { (1 ≤ line) × (25 * line ≤ length sheet.now) },
    ghost field_in: { (1 ≤ field) × (field ≤ 9) },
}

// A field with its place.
#[derive(Clone, Copy)]
pub(crate) struct Field<'s> {
    bytes: &'s [u8],
    line: usize,
    field: usize,
    ghost short: { length bytes.now ≤ 9 },
}

impl Field<'_> {
    // The number in it.
    pub(crate) fn number(&self) -> Result<u32, Refusal>
        ensures { MatchResult result
            (λ v. number self.now.bytes.now ≡ Some v)
            (λ e. (number self.now.bytes.now ≡ None)
            × (e ≡ Refusal.NoNumber self.now.line self.now.field)) }
    {
        columns::number_in(self.bytes).ok_or(Refusal::NoNumber {
            line: self.line,
            field: self.field,
        })
    }

    pub(crate) fn is_blank(&self) -> bool
        ensures { result ≡ blank self.now.bytes.now }
    {
        columns::is_blank(self.bytes)
    }

    pub(crate) fn out_of_range(&self) -> Refusal
        ensures { result ≡ Refusal.OutOfRange self.now.line self.now.field }
    {
        Refusal::OutOfRange {
            line: self.line,
            field: self.field,
        }
    }

    // The quantity in it, of a heading.
    pub(crate) fn quantity<Q: Quantity>(&self) -> Result<Q, Refusal>
        ensures { Gives
            (quantity_checks Q.allowed self.now.line self.now.field self.now.bytes.now)
            (λ q. (Q.amount q ≡ worth self.now.bytes.now) × (Q.allowed (Q.amount q) ≡ true))
            result }
    {
        let number = self.number()?;
        Q::of(number).ok_or(self.out_of_range())
    }

    // The trustee in it, or none where it is blank.
    pub(crate) fn trustee(&self, trustees: u8) -> Result<Option<u8>, Refusal>
        ensures { Gives
            (entry_checks trustees self.now.line self.now.field self.now.bytes.now)
            (λ t. (unwrap_or t 0 ≡ worth self.now.bytes.now) × (unwrap_or t 0 ≤ trustees)
            × (is_some t ≡ nat_lt 0 (unwrap_or t 0)))
            result }
    {
        if self.is_blank() {
            return Ok(None);
        }
        let value = self.number()?;
        if !(1..=trustees as u32).contains(&value) {
            return Err(self.out_of_range());
        }
        Ok(Some(value as u8))
    }
}

impl<'s> Cursor<'s> {
    pub(crate) fn new(sheet: &'s [u8]) -> Cursor<'s>
        requires { 25 ≤ length sheet.now }
        ensures { (result.sheet.now ≡ sheet.now) × (result.line ≡ 1) × (result.field ≡ 1) }
    {
        Cursor {
            sheet,
            line: 1,
            field: 1,
        }
    }

    // The next field of some columns.
    pub(crate) fn next(&mut self, columns: usize) -> Field<'s>
        requires short { columns ≤ 9 }
        requires field { (columns * self.old.field ≤ 24) × (self.old.field ≤ 8) }
        ensures bytes { result.bytes.now
            ≡ field_at columns self.old.sheet.now self.old.line self.old.field }
        ensures len { length result.bytes.now ≡ columns }
        ensures place { (result.line ≡ self.old.line) × (result.field ≡ self.old.field) }
        ensures moved { (self.new.sheet.now ≡ self.old.sheet.now)
            × (self.new.line ≡ self.old.line) × (self.new.field ≡ self.old.field + 1) }
    {
        let at = 25 * (self.line - 1) + columns * (self.field - 1);
        let sheet = self.sheet;
        let field = Field {
            bytes: &sheet[at..at + columns],
            line: self.line,
            field: self.field,
        };
        self.field += 1;
        field
    }

    pub(crate) fn next_line(&mut self)
        requires { 25 * (self.old.line + 1) ≤ length self.old.sheet.now }
        ensures { (self.new.sheet.now ≡ self.old.sheet.now)
            × (self.new.line ≡ self.old.line + 1) × (self.new.field ≡ 1) }
    {
        self.line += 1;
        self.field = 1;
    }

    // The next quantity of the heading.
    pub(crate) fn quantity<Q: Quantity>(&mut self) -> Result<Q, Refusal>
        requires { self.old.field ≤ 4 }
        ensures value { let bytes = field_at 6 self.old.sheet.now self.old.line self.old.field in
            Gives
            (quantity_checks Q.allowed self.old.line self.old.field bytes)
            (λ q. (Q.amount q ≡ worth bytes) × (Q.allowed (Q.amount q) ≡ true))
            result }
        ensures moved { (self.new.sheet.now ≡ self.old.sheet.now)
            × (self.new.line ≡ self.old.line) × (self.new.field ≡ self.old.field + 1) }
    {
        self.next(6).quantity()
    }

    pub(crate) fn heading(&mut self) -> Result<Heading, Refusal>
        requires line { self.old.line ≡ 1 }
        requires field { self.old.field ≡ 1 }
        ensures value { MatchResult result
            (λ h. Headed self.old.sheet.now h.trustees (levels h.height) (bits h.width) h.groups)
            (λ e. first_refusal (heading_checks self.old.sheet.now) ≡ Some e) }
        ensures moved { (self.new.sheet.now ≡ self.old.sheet.now)
            × (self.new.line ≡ self.old.line) }
    {
        let trustees: UpTo<8> = self.quantity()?;
        let height: Height = self.quantity()?;
        let width: Width = self.quantity()?;
        let groups: UpTo<70> = self.quantity()?;
        Ok(Heading {
            trustees: trustees.0 as u8,
            height,
            width,
            groups: groups.0 as usize,
        })
    }
}

impl Cursor<'_> {
    // The mask of a group line, above that of the line before.
    pub(crate) fn group(&mut self, trustees: u8, above: u8) -> Result<u8, Refusal>
        requires field { self.old.field ≡ 1 }
        requires trustees { (trustees ≤ 8) × (trustees ≡ n_of self.old.sheet.now) }
        requires above { above ≡ above_at self.old.sheet.now self.old.line }
        ensures value { Gives
            (line_checks self.old.sheet.now self.old.line)
            (λ m. (m ≡ mask_at self.old.sheet.now self.old.line) × (above < m) × (m < 2 ^ trustees))
            result }
        ensures moved { (self.new.sheet.now ≡ self.old.sheet.now)
            × (self.new.line ≡ self.old.line) }
    {
        let mut tally = Tally::new();
        for _ in 0..8usize {
            let trustee = self.next(3).trustee(trustees)?;
            tally = tally.with(trustee);
        }
        tally
            .above(above)
            .ok_or(Refusal::Members { line: self.line })
    }
}

impl Cursor<'_> {
    // The masks of all group lines, at the front of an array, since reading a sheet needs no heap.
    pub(crate) fn groups(&mut self, trustees: u8, groups: usize) -> Result<[u8; 70], Refusal>
        requires place { (self.old.line ≡ 1)
            × ((25 * (groups + 1) ≤ length self.old.sheet.now) × (groups ≤ 70)) }
        requires trustees { (trustees ≤ 8) × (trustees ≡ n_of self.old.sheet.now) }
        ensures { MatchResult result
            (λ masks. Lined self.old.sheet.now trustees groups masks)
            (λ e. let lines = flat_map (line_checks self.old.sheet.now) (range_with_len 2 groups) in
            first_refusal lines ≡ Some e) }
    {
        let mut masks = [0u8; 70];
        let mut above = 0;
        for mask in &mut masks[0..groups] {
            self.next_line();
            above = self.group(trustees, above)?;
            *mask = above;
        }
        Ok(masks)
    }
}

// The four numbers of the heading.
#[derive(Clone, Copy)]
pub(crate) struct Heading {
    pub(crate) trustees: u8,
    pub(crate) height: Height,
    pub(crate) width: Width,
    pub(crate) groups: usize,
}

impl Heading {
    // Whether it fits a sheet of some lines.
    pub(crate) fn fits(&self, lines: usize) -> bool
        requires { self.now.groups ≤ 70 }
        ensures { result ≡ (self.now.groups + 1 == lines
            && nat_le self.now.groups (2 ^ levels self.now.height)) }
    {
        self.groups + 1 == lines && self.groups <= self.height.keys() as usize
    }
}
