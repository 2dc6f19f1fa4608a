// Bytes in hexadecimal, as vectors have it: in small letters alone. (The library's `hex` takes capitals too.)
ghost use Rattle.std.specs.Prelude.{◌≡◌, vec_items, IfOk};
ghost use Rattle.std.specs.Option.{option_map};
ghost use Rattle.vector_files.specs.Hex.{decoded, digit, pair};

use std::alloc::{AllocError, Global};

fn digit(character: u8) -> Option<u8>
    ensures { result ≡ digit character }
{
    match character {
        b'0'..=b'9' => Some(character - b'0'),
        b'a'..=b'f' => Some(character - b'a' + 10),
        _ => None,
    }
}

// The byte of two digits.
fn pair(high: u8, low: u8) -> Option<u8>
    ensures { result ≡ pair high low }
{
    let high = digit(high)?;
    let low = digit(low)?;
    Some(high * 16 + low)
}

// The bytes that a text writes, or none where it is not pairs of hexadecimal digits.
pub fn decode(heap: Global, text: &str) -> Result<Option<Vec<u8>>, AllocError>
    ensures { IfOk result (λ answer. option_map vec_items answer ≡ decoded text.now) }
{
    let mut bytes = Vec::new(heap);
    let mut left = text.as_bytes();
    // The pattern names both digits, and leaves a lone one to the test behind the loop.
    while let [high, low, rest @ ..] = left {
        let Some(byte) = pair(*high, *low) else {
            return Ok(None);
        };
        bytes.push(byte)?;
        left = rest;
    }
    if left.is_empty() {
        Ok(Some(bytes))
    } else {
        Ok(None)
    }
}
