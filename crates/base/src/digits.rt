//! Numbers from digits, and digits of numbers.
ghost use Rattle.std.specs.Prelude.{◌≡◌, ◌<◌, ◌≤◌, ◌^◌, true, length, IfSome};
ghost use Rattle.std.specs.Char.{digit_value};
ghost use Rattle.std.specs.Fmt.{digit_glyph};
ghost use Rattle.base.specs.Digits.{digits_number, within_cap, byte_digits, index_digits, identifier_digits};

/// The value of each byte as a digit, letters in any case, and 36 where it is neither digit nor letter.
const DIGIT_VALUES: [u8; 256] = [
    36, 36, 36, 36, 36, 36, 36, 36, 36, 36, 36, 36, 36, 36, 36, 36, 36, 36, 36, 36, 36, 36, 36, 36,
    36, 36, 36, 36, 36, 36, 36, 36, 36, 36, 36, 36, 36, 36, 36, 36, 36, 36, 36, 36, 36, 36, 36, 36,
    0, 1, 2, 3, 4, 5, 6, 7, 8, 9, 36, 36, 36, 36, 36, 36, 36, 10, 11, 12, 13, 14, 15, 16, 17, 18,
    19, 20, 21, 22, 23, 24, 25, 26, 27, 28, 29, 30, 31, 32, 33, 34, 35, 36, 36, 36, 36, 36, 36, 10,
    11, 12, 13, 14, 15, 16, 17, 18, 19, 20, 21, 22, 23, 24, 25, 26, 27, 28, 29, 30, 31, 32, 33, 34,
    35, 36, 36, 36, 36, 36, 36, 36, 36, 36, 36, 36, 36, 36, 36, 36, 36, 36, 36, 36, 36, 36, 36, 36,
    36, 36, 36, 36, 36, 36, 36, 36, 36, 36, 36, 36, 36, 36, 36, 36, 36, 36, 36, 36, 36, 36, 36, 36,
    36, 36, 36, 36, 36, 36, 36, 36, 36, 36, 36, 36, 36, 36, 36, 36, 36, 36, 36, 36, 36, 36, 36, 36,
    36, 36, 36, 36, 36, 36, 36, 36, 36, 36, 36, 36, 36, 36, 36, 36, 36, 36, 36, 36, 36, 36, 36, 36,
    36, 36, 36, 36, 36, 36, 36, 36, 36, 36, 36, 36, 36, 36, 36, 36, 36, 36, 36, 36, 36, 36, 36, 36,
    36, 36, 36, 36, 36, 36, 36, 36, 36, 36, 36, 36, 36, 36,
];

/// The value of a byte as a digit, from 0 for `0` to 35 for `Z` and `z`, and 36 for any other byte.
fn digit_value(byte: u8) -> u8
    ensures { result ≡ digit_value byte }
{
    DIGIT_VALUES[byte as usize]
}

/// So many digits write a number below 2^60 to every base up to 16.
const SHORT: usize = 15;

/// The number that at most 15 digits write to a base from 2 to 16.
fn read_short(base: u32, text: &[u8]) -> Option<u64>
    requires low { 2 ≤ base }
    requires high { base ≤ 16 }
    requires some { 0 < length text.now }
    requires few { length text.now ≤ 15 }
    ensures { result ≡ within_cap (digits_number base text.now) }
{
    let mut number: u64 = 0;
    for byte in text {
        let digit = u32::from(digit_value(*byte));
        if digit >= base {
            return None;
        }
        number = number * u64::from(base) + u64::from(digit);
    }
    Some(number)
}

/// 2^64, where the numbers that are read are cut.
const LIMIT: u128 = 0x1_0000_0000_0000_0000;

/// The number that digits write to a base from 2 to 16, cut at 2^64.
fn read_long(base: u32, text: &[u8]) -> Option<u128>
    requires low { 2 ≤ base }
    requires high { base ≤ 16 }
    requires some { 0 < length text.now }
    ensures { result ≡ within_cap (digits_number base text.now) }
{
    let mut number: u128 = 0;
    for byte in text {
        let digit = u32::from(digit_value(*byte));
        if digit >= base {
            return None;
        }
        number = (number * u128::from(base) + u128::from(digit)).min(LIMIT);
    }
    Some(number)
}

/// The number that digits write to a base from 2 to 16, letters in any case, cut at 2^64. `None`
/// where a byte is no digit or there is none. Takes time linear in the text.
pub fn read_digits(base: u32, text: &[u8]) -> Option<u128>
    requires low { 2 ≤ base }
    requires high { base ≤ 16 }
    ensures number { result ≡ within_cap (digits_number base text.now) }
    ensures exact { length text.now ≤ 15 → result ≡ digits_number base text.now }
    ensures bound { IfSome result (λ n. n < base ^ length text.now) }
{
    if text.is_empty() {
        return None;
    }
    if text.len() > SHORT {
        return read_long(base, text);
    }
    let number = read_short(base, text)?;
    Some(u128::from(number))
}

/// The upper-case hexadecimal digit of a number below 16.
pub fn upper_digit(number: u8) -> u8
    requires { number < 16 }
    ensures { result ≡ digit_glyph true number }
{
    if number < 10 {
        b'0' + number
    } else {
        b'A' - 10 + number
    }
}

/// A byte as two upper-case hexadecimal digits.
pub fn byte_digits(byte: u8) -> [u8; 2]
    ensures { result ≡ byte_digits byte }
{
    [upper_digit(byte / 16), upper_digit(byte % 16)]
}

/// An index as four upper-case hexadecimal digits.
pub fn index_digits(index: u16) -> [u8; 4]
    ensures { result ≡ index_digits index }
{
    [
        upper_digit((index / 4096) as u8),
        upper_digit((index / 256 % 16) as u8),
        upper_digit((index / 16 % 16) as u8),
        upper_digit((index % 16) as u8),
    ]
}

/// An identifier of at most 12 bits as three upper-case hexadecimal digits.
pub fn identifier_digits(identifier: u16) -> [u8; 3]
    requires { identifier < 4096 }
    ensures { result ≡ identifier_digits identifier }
{
    [
        upper_digit((identifier / 256) as u8),
        upper_digit((identifier / 16 % 16) as u8),
        upper_digit((identifier % 16) as u8),
    ]
}
