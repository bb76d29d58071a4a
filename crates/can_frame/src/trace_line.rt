//! The line of a frame in a trace.
ghost use Rattle.std.specs.Prelude.{◌≡◌, ◌<◌, ◌≤◌, ◌+◌, ◌*◌, ◌++◌, ◌∷◌, length, take, IfOk, OnOk};
ghost use Rattle.std.specs.Str.{byte};
ghost use Rattle.base.specs.Digits.{identifier_digits};
ghost use Rattle.can_frame.specs.TraceLines.{byte_count, frame_line, spaced_bytes, ten_digits};

use crate::frame::Frame;
use base::{byte_digits, identifier_digits, upper_digit};
use std::alloc::{AllocError, Global};

/// That of a frame of 8 bytes has as many bytes.
const LONGEST_LINE: usize = 42;

/// The line of a frame that is delivered at a time in microseconds: the time in ten digits, the
/// identifier, the number of bytes, and each byte; it has no line feed.
pub fn line(alloc: Global, time: u32, frame: &Frame) -> Result<Vec<u8>, AllocError>
    ensures { IfOk result (λ line. line.items ≡ frame_line time frame.now) }
{
    let mut out = Vec::with_capacity(alloc, LONGEST_LINE)?;
    write_line(&mut out, time, frame)?;
    Ok(out)
}

/// Writes the same line at the end of what was written.
pub fn write_line(out: &mut Vec<u8>, time: u32, frame: &Frame) -> Result<(), AllocError>
    ensures { OnOk result (out.new.items ≡ out.old.items ++ frame_line time frame.now) }
{
    out.extend_from_slice(&head(time, frame))?;
    write_bytes(out, frame.bytes())
}

/// The decimal digit of a number below ten.
fn decimal_digit(number: u32) -> u8
    requires { number < 10 }
    ensures { result ≡ 48 + number }
{
    b'0' + number as u8
}

/// A time in ten digits, the highest first.
fn ten_digits(time: u32) -> [u8; 10]
    ensures { result ≡ ten_digits time }
{
    [
        decimal_digit(time / 1_000_000_000),
        decimal_digit(time / 100_000_000 % 10),
        decimal_digit(time / 10_000_000 % 10),
        decimal_digit(time / 1_000_000 % 10),
        decimal_digit(time / 100_000 % 10),
        decimal_digit(time / 10_000 % 10),
        decimal_digit(time / 1_000 % 10),
        decimal_digit(time / 100 % 10),
        decimal_digit(time / 10 % 10),
        decimal_digit(time % 10),
    ]
}

/// Writes a time in ten digits.
pub fn write_time(out: &mut Vec<u8>, time: u32) -> Result<(), AllocError>
    ensures { OnOk result (out.new.items ≡ out.old.items ++ ten_digits time) }
{
    out.extend_from_slice(&ten_digits(time))
}

/// What stands before the bytes: the time in ten digits, the identifier, and the number of bytes
/// in brackets.
fn head(time: u32, frame: &Frame) -> [u8; 18]
    ensures { result ≡ ten_digits time ++ (byte " " ∷ identifier_digits frame.now.id ++ byte_count (length frame.now.bytes)) }
{
    let [
        first,
        second,
        third,
        fourth,
        fifth,
        sixth,
        seventh,
        eighth,
        ninth,
        tenth,
    ] = ten_digits(time);
    let [high, middle, low] = identifier_digits(frame.id());
    let count = upper_digit(frame.bytes().len() as u8);
    [
        first, second, third, fourth, fifth, sixth, seventh, eighth, ninth, tenth, b' ', high,
        middle, low, b' ', b'[', count, b']',
    ]
}

/// At most eight bytes, each as a space and two digits, from the front of 24 places.
fn spaced(bytes: &[u8]) -> [u8; 24]
    requires { length bytes.now ≤ 8 }
    ensures { take (3 * length bytes.now) result ≡ spaced_bytes bytes.now }
{
    let mut spaced = [0; 24];
    for (place, byte) in bytes.iter().enumerate() {
        let [high, low] = byte_digits(*byte);
        spaced[3 * place] = b' ';
        spaced[3 * place + 1] = high;
        spaced[3 * place + 2] = low;
    }
    spaced
}

/// Writes each byte of a frame as a space and two digits.
fn write_bytes(out: &mut Vec<u8>, bytes: &[u8]) -> Result<(), AllocError>
    requires { length bytes.now ≤ 8 }
    ensures { OnOk result (out.new.items ≡ out.old.items ++ spaced_bytes bytes.now) }
{
    out.extend_from_slice(&spaced(bytes)[..3 * bytes.len()])
}
