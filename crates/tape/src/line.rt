// One line of a tape: six bytes.
ghost use Rattle.std.specs.Prelude.{◌≡◌, ◌<◌};
ghost use Rattle.tape.specs.Lines.{line_of, line_key, unused, column_of};

// The key that a line lists, if it is a used line.
pub(crate) fn key_in(line: [u8; 6]) -> Option<u32>
    ensures { result ≡ line_key line }
{
    if line[5] != b'\n' {
        return None;
    }
    columns::number_in(&line[0..5])
}

// Whether a line is unused: six spaces.
pub(crate) fn is_unused(line: [u8; 6]) -> bool
    ensures { result ≡ unused line }
{
    columns::is_blank(&line)
}

// The line of a key.
pub(crate) fn line_of(key: u32) -> [u8; 6]
    requires { key < 1024 }
    ensures { result ≡ line_of key }
{
    [
        b' ',
        column(key, 1000),
        column(key, 100),
        column(key, 10),
        (key % 10) as u8 + b'0',
        b'\n',
    ]
}

// The digit of a key at a power of ten, or a space where the key is smaller.
fn column(key: u32, unit: u32) -> u8
    requires { 0 < unit }
    ensures { result ≡ column_of key unit }
{
    if key < unit {
        b' '
    } else {
        (key / unit % 10) as u8 + b'0'
    }
}
