// The digits of numbers.

// The digit that a byte is.
fn digit(c: u8) -> Option<u8> {
    match c {
        b'0'..=b'9' => Some(c - b'0'),
        b'a'..=b'f' => Some(c - b'a' + 10),
        _ => None,
    }
}

// A number with the digit more that the byte is, if it is a digit of the base and a u64 holds the number.
pub fn longer(number: u64, base: u64, c: u8) -> Option<u64> {
    let d = digit(c)? as u64;
    if base <= d {
        return None;
    }
    number.checked_mul(base)?.checked_add(d)
}

// Whether a number may end before this byte: a space, a bar, or 0, which is the end.
pub fn ends(c: u8) -> bool {
    matches!(c, b' ' | b'|' | 0)
}
