// Byte strings as hexadecimal text.
#![tactic(auto)]

ghost use Rattle.std.specs.Prelude.{◌≡◌, ◌<◌, IfOk, IfSome, Some, vec_items, string_bytes};
ghost use Rattle.std.specs.Option.{option_map};
ghost use Rattle.hexadecimal.specs.Digits.{digit_of, glyph_of, pair_of};
ghost use Rattle.hexadecimal.specs.Texts.{bytes_of, text_of};

use std::alloc::{AllocError, Global};

fn digit(c: u8) -> Option<u8>
    ensures value { result ≡ digit_of c }
    ensures small { IfSome result (λ n. n < 16) }
{
    if c.is_ascii_digit() {
        Some(c - b'0')
    } else if (b'a'..=b'f').contains(&c) {
        Some(c - b'a' + 10)
    } else if (b'A'..=b'F').contains(&c) {
        Some(c - b'A' + 10)
    } else {
        None
    }
}

// The byte that two digits stand for.
fn pair(high: u8, low: u8) -> Option<u8>
    ensures { result ≡ pair_of high low }
{
    Some(16 * digit(high)? + digit(low)?)
}

// The bytes that hexadecimal text stands for, two digits a byte, in either case; nothing where the text is no such thing.
pub fn decode(heap: Global, text: &[u8]) -> Result<Option<Vec<u8>>, AllocError>
    ensures { IfOk result (λ o. option_map vec_items o ≡ bytes_of text.now) }
{
    let (pairs, rest) = text.as_chunks::<2>();
    if !rest.is_empty() {
        return Ok(None);
    }
    let mut bytes = Vec::new(heap);
    for [high, low] in pairs {
        let Some(b) = pair(*high, *low) else {
            return Ok(None);
        };
        bytes.push(b)?;
    }
    Ok(Some(bytes))
}

// The digit of a value below 16.
fn glyph(n: u8) -> char
    requires { n < 16 }
    ensures { result ≡ glyph_of n }
{
    char::from_digit(u32::from(n), 16).unwrap()
}

// The hexadecimal text of bytes, two lower-case digits each. Decoded, it gives the same bytes again.
pub fn encode(heap: Global, bytes: &[u8]) -> Result<String, AllocError>
    ensures text { IfOk result (λ s. string_bytes s ≡ text_of bytes.now) }
    ensures again { IfOk result (λ s. bytes_of (string_bytes s) ≡ Some bytes.now) }
{
    let mut text = String::new(heap);
    for b in bytes {
        text.push(glyph(b / 16))?;
        text.push(glyph(b % 16))?;
    }
    Ok(text)
}
