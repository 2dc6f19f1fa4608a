// Numbers in a field.
ghost use Rattle.std.specs.Prelude.{◌≡◌, ◌≤◌, true, length};
ghost use Rattle.std.specs.Str.{all_ascii_digits};
ghost use Rattle.columns.specs.Number.{unpadded, number_in, blank, plain, read_on};
ghost use Rattle.columns.specs.Laws.{Fields};

// What stands behind the leading spaces.
fn unpadded(field: &[u8]) -> &[u8]
    ensures value { result.now ≡ unpadded field.now }
    ensures len { length result.now ≤ length field.now }
{
    let blanks = field
        .iter()
        .position(|column| *column != b' ')
        .unwrap_or(field.len());
    &field[blanks..]
}

fn all_digits(columns: &[u8]) -> bool
    ensures { result ≡ all_ascii_digits columns.now }
{
    columns.iter().all(|column| column.is_ascii_digit())
}

// Whether these are digits, at least one, with no leading zero.
fn plain(columns: &[u8]) -> bool
    ensures { result ≡ plain columns.now }
{
    match columns {
        [] => false,
        [b'0', _, ..] => false,
        _ => all_digits(columns),
    }
}

// The number that digits write.
fn value(digits: &[u8]) -> u32
    requires digits { all_ascii_digits digits.now ≡ true }
    requires few { length digits.now ≤ 9 }
    ensures { result ≡ read_on 0 digits.now }
{
    digits
        .iter()
        .fold(0, |number, digit| number * 10 + (*digit - b'0') as u32)
}

// The number in a field of at most nine columns, if it is one.
#[tactic(auto, using(crate::proofs::Telling::fields))]
pub fn number_in(field: &[u8]) -> Option<u32>
    ensures value { result ≡ number_in field.now }
    ensures laws { Fields }
{
    if field.len() > 9 {
        return None;
    }
    let digits = unpadded(field);
    if !plain(digits) {
        return None;
    }
    Some(value(digits))
}

// Whether a field has nothing but spaces.
#[tactic(auto, using(crate::proofs::Telling::fields))]
pub fn is_blank(field: &[u8]) -> bool
    ensures value { result ≡ blank field.now }
    ensures laws { Fields }
{
    unpadded(field).is_empty()
}
