// Words of a line: where the first one ends, the number that a word gives, and what a hex digit is worth. They are read here: this library
// uses no crate of the parser, and its numbers have 64 bits.
ghost use Rattle.std.specs.Prelude.{◌≡◌, ◌+◌, ◌<◌, length, IfSome};

// What stands before the first space of a line, and what stands after it.
pub fn split_first_word(line: &[u8]) -> Option<(&[u8], &[u8])>
    ensures { IfSome result (λ parts. length parts.0.now + 1 + length parts.1.now ≡ length line.now) }
{
    let end = line.iter().position(|byte| *byte == b' ')?;
    Some((&line[..end], &line[end + 1..]))
}

// What a decimal digit is worth.
fn digit_worth(b: u8) -> Option<u8>
    ensures { IfSome result (λ worth. worth < 10) }
{
    match b {
        b'0'..=b'9' => Some(b - b'0'),
        _ => None,
    }
}

// What a hex digit, a capital, is worth.
pub fn hex_worth(b: u8) -> Option<u8>
    ensures { IfSome result (λ worth. worth < 16) }
{
    match b {
        b'A'..=b'F' => Some(b - b'A' + 10),
        _ => digit_worth(b),
    }
}

// The number of a word: digits alone, with no needless leading zero, and at most 64 bits.
pub fn number(word: &[u8]) -> Option<u64>
    ensures { IfSome result (λ _. 0 < length word.now) }
{
    if word.is_empty() || (word.len() > 1 && word.starts_with(b"0")) {
        return None;
    }
    let mut value: u64 = 0;
    for digit in word {
        value = value
            .checked_mul(10)?
            .checked_add(u64::from(digit_worth(*digit)?))?;
    }
    Some(value)
}
