//! The numbers of a text.

ghost use Rattle.std.specs.Prelude.{◌≡◌, ◌+◌, length, ◌≤◌, ◌<◌, IfSome};
ghost use Rattle.std.specs.Char.{is_ascii_digit, is_ascii_hexdigit, digit_value};
ghost use Rattle.sdf_tokens.specs.Numbers.{begins_with, goes_on_word, run, magnitude, hexadecimal};
ghost use Rattle.sdf_tokens.specs.Numbers.{behind_sign, behind_exponent, behind_mantissa};
ghost use Rattle.sdf_tokens.specs.Numbers.{is_fraction, decimal, is_hexadecimal, goes_on_number};
ghost use Rattle.sdf_tokens.specs.Numbers.{with_sign, unsigned, number, passes, sees, sees_rest};

/// A class of bytes.
#[derive(Clone, Copy)]
pub enum Class {
    Digit,
    HexDigit,
    Word,
    /// All bytes but the newline.
    Line,
    /// All bytes but the quote.
    Text,
}

fn has(class: Class, byte: u8) -> bool
    ensures { result ≡ passes class byte }
{
    match class {
        Class::Digit => byte.is_ascii_digit(),
        Class::HexDigit => byte.is_ascii_hexdigit(),
        Class::Word => byte.is_ascii_alphanumeric() || byte == b'_',
        Class::Line => byte != b'\n',
        Class::Text => byte != b'"',
    }
}

/// The bytes at the front that are of a class, and those behind them.
pub fn run(class: Class, bytes: &[u8]) -> (&[u8], &[u8])
    ensures exact { (result.0.now, result.1.now) ≡ run (passes class) bytes.now }
    ensures parts { length result.0.now + length result.1.now ≡ length bytes.now }
{
    let mut len = 0;
    while len < bytes.len() && has(class, bytes[len]) {
        len += 1;
    }
    bytes.split_at(len)
}

pub fn begins_with(byte: u8, bytes: &[u8]) -> bool
    ensures { result ≡ begins_with byte bytes.now }
{
    match bytes {
        [] => false,
        [first, ..] => *first == byte,
    }
}

fn digit_value(byte: u8) -> u8
    ensures value { result ≡ digit_value byte }
    ensures bound { result ≤ 36 }
{
    match byte {
        b'0'..=b'9' => byte - b'0',
        b'A'..=b'Z' => byte - 55,
        b'a'..=b'z' => byte - 87,
        _ => 36,
    }
}

fn magnitude(radix: u8, digits: &[u8]) -> Option<u64>
    requires { 1 ≤ radix }
    ensures { result ≡ magnitude radix digits.now }
{
    let mut value = 0u128;
    for digit in digits {
        value = value * u128::from(radix) + u128::from(digit_value(*digit));
        if value > u128::from(u64::MAX) {
            return None;
        }
    }
    Some(value as u64)
}

#[tactic(auto, unfolding(crate::specs::Numbers::hexadecimal))]
fn hexadecimal(bytes: &[u8]) -> Option<(Option<u64>, &[u8])>
    ensures exact { sees result ≡ hexadecimal bytes.now }
    ensures shorter { IfSome result (λ x. length x.1.now < length bytes.now) }
{
    let (digits, rest) = run(Class::HexDigit, bytes);
    let value = magnitude(16, digits)?;
    if digits.is_empty() {
        return None;
    }
    Some((Some(value), rest))
}

fn behind_sign(bytes: &[u8]) -> &[u8]
    ensures exact { result.now ≡ behind_sign bytes.now }
    ensures shorter { length result.now ≤ length bytes.now }
{
    match bytes {
        [b'+' | b'-', rest @ ..] => rest,
        _ => bytes,
    }
}

#[tactic(auto, unfolding(crate::specs::Numbers::behind_exponent))]
fn behind_exponent(bytes: &[u8]) -> Option<&[u8]>
    ensures exact { sees_rest result ≡ behind_exponent bytes.now }
    ensures shorter { IfSome result (λ rest. length rest.now ≤ length bytes.now) }
{
    if !begins_with(b'e', bytes) && !begins_with(b'E', bytes) {
        return Some(bytes);
    }
    let (digits, rest) = run(Class::Digit, behind_sign(&bytes[1..]));
    if digits.is_empty() {
        return None;
    }
    Some(rest)
}

#[tactic(auto, unfolding(crate::specs::Numbers::behind_mantissa))]
fn behind_mantissa(bytes: &[u8]) -> Option<&[u8]>
    ensures exact { sees_rest result ≡ behind_mantissa bytes.now }
    ensures shorter { IfSome result (λ rest. length rest.now < length bytes.now) }
{
    let (front, rest) = run(Class::Digit, bytes);
    if begins_with(b'.', rest) {
        let (back, rest) = run(Class::Digit, &rest[1..]);
        if front.is_empty() && back.is_empty() {
            return None;
        }
        return Some(rest);
    }
    if front.is_empty() {
        return None;
    }
    Some(rest)
}

fn is_fraction(bytes: &[u8]) -> bool
    ensures { result ≡ is_fraction bytes.now }
{
    begins_with(b'.', bytes) || begins_with(b'e', bytes) || begins_with(b'E', bytes)
}

#[tactic(auto, unfolding(crate::specs::Numbers::decimal))]
fn decimal(bytes: &[u8]) -> Option<(Option<u64>, &[u8])>
    ensures exact { sees result ≡ decimal bytes.now }
    ensures shorter { IfSome result (λ x. length x.1.now < length bytes.now) }
{
    let after = behind_mantissa(bytes)?;
    let rest = behind_exponent(after)?;
    let (digits, behind) = run(Class::Digit, bytes);
    if is_fraction(behind) {
        return Some((None, rest));
    }
    let value = magnitude(10, digits)?;
    Some((Some(value), rest))
}

fn is_hexadecimal(bytes: &[u8]) -> bool
    ensures { result ≡ is_hexadecimal bytes.now }
{
    match bytes {
        [b'0', b'x' | b'X', ..] => true,
        _ => false,
    }
}

fn goes_on_number(bytes: &[u8]) -> bool
    ensures { result ≡ goes_on_number bytes.now }
{
    match bytes {
        [] => false,
        [first, ..] => has(Class::Word, *first) || *first == b'.',
    }
}

#[tactic(auto, unfolding(crate::specs::Numbers::with_sign))]
fn with_sign(negative: bool, size: Option<u64>) -> Option<Option<i128>>
    ensures { result ≡ with_sign negative size }
{
    match size {
        None => Some(None),
        Some(size) => {
            if negative {
                if size > 1 << 63 {
                    return None;
                }
                Some(Some(-i128::from(size)))
            } else {
                Some(Some(i128::from(size)))
            }
        }
    }
}

/// The number at the front, which has no sign.
fn unsigned(bytes: &[u8]) -> Option<(Option<u64>, &[u8])>
    ensures exact { sees result ≡ unsigned bytes.now }
    ensures shorter { IfSome result (λ x. length x.1.now < length bytes.now) }
{
    if is_hexadecimal(bytes) {
        hexadecimal(&bytes[2..])
    } else {
        decimal(bytes)
    }
}

/// The number at the front, with its value where it is whole, and what is behind it.
#[tactic(auto, unfolding(crate::specs::Numbers::number))]
pub fn number(bytes: &[u8]) -> Option<(Option<i128>, &[u8])>
    ensures exact { sees result ≡ number bytes.now }
    ensures shorter { IfSome result (λ x. length x.1.now < length bytes.now) }
{
    let (size, rest) = unsigned(behind_sign(bytes))?;
    let value = with_sign(begins_with(b'-', bytes), size)?;
    if goes_on_number(rest) {
        return None;
    }
    Some((value, rest))
}
