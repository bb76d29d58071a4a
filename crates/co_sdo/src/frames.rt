//! The frames of SDO transfers.

ghost use Rattle.std.specs.Prelude.{◌≡◌, ◌≤◌, ◌<◌, get_or, length, []};
ghost use Rattle.byteorder.specs.Endian.{little_bytes};
ghost use Rattle.co_sdo.specs.Frames as frames;

use byteorder::{ByteOrder, LittleEndian};
use co_dict::Abort;

/// The byte at a place, or 0 where there is none.
fn byte(bytes: &[u8], i: usize) -> u8
    ensures { result ≡ get_or bytes.now i 0 }
{
    match bytes.get(i) {
        Some(byte) => *byte,
        None => 0,
    }
}

/// A frame that names an entry: a command byte, the index and sub, and up to four bytes.
#[tactic(auto, using(crate::proofs::FrameLemmas::four_padded))]
fn entry_frame(command: u8, place: (u16, u8), bytes: &[u8]) -> [u8; 8]
    requires { length bytes.now ≤ 4 }
    ensures { result ≡ frames.entry_frame command place bytes.now }
{
    let mut index = [0, 0];
    LittleEndian::write_u16(&mut index, place.0);
    [
        command,
        index[0],
        index[1],
        place.1,
        byte(bytes, 0),
        byte(bytes, 1),
        byte(bytes, 2),
        byte(bytes, 3),
    ]
}

/// The bytes of a number, the lowest first.
fn four_bytes(number: u32) -> [u8; 4]
    ensures { result ≡ little_bytes 4 number }
{
    let mut bytes = [0; 4];
    LittleEndian::write_u32(&mut bytes, number);
    bytes
}

/// Whether a value travels in the initiate frame itself: it has one to four bytes.
pub fn is_expedited(value: &[u8]) -> bool
    ensures { result ≡ frames.is_expedited value.now }
{
    1 <= value.len() && value.len() <= 4
}

/// A download with the value, of one to four bytes.
pub fn expedited_download(place: (u16, u8), value: &[u8]) -> [u8; 8]
    requires { length value.now ≤ 4 }
    ensures { result ≡ frames.expedited_download place value.now }
{
    entry_frame(0x23 + 4 * (4 - value.len() as u8), place, value)
}

/// A download with the size of the value, whose segments follow.
pub fn segmented_download(place: (u16, u8), size: u32) -> [u8; 8]
    ensures { result ≡ frames.segmented_download place size }
{
    entry_frame(0x21, place, &four_bytes(size))
}

/// The answer to the initiate of a download, and to the whole of an expedited one.
pub fn download_confirmed(place: (u16, u8)) -> [u8; 8]
    ensures { result ≡ frames.download_confirmed place }
{
    entry_frame(0x60, place, &[])
}

/// An upload request.
pub fn upload_request(place: (u16, u8)) -> [u8; 8]
    ensures { result ≡ frames.upload_request place }
{
    entry_frame(0x40, place, &[])
}

/// The answer to an upload request with the value, of one to four bytes.
pub fn expedited_upload(place: (u16, u8), value: &[u8]) -> [u8; 8]
    requires { length value.now ≤ 4 }
    ensures { result ≡ frames.expedited_upload place value.now }
{
    entry_frame(0x43 + 4 * (4 - value.len() as u8), place, value)
}

/// The answer to an upload request with the size of the value, whose segments follow.
pub fn segmented_upload(place: (u16, u8), size: u32) -> [u8; 8]
    ensures { result ≡ frames.segmented_upload place size }
{
    entry_frame(0x41, place, &four_bytes(size))
}

/// An abort, of the server or the client.
pub fn abort_frame(place: (u16, u8), abort: Abort) -> [u8; 8]
    ensures { result ≡ frames.abort_frame place abort }
{
    entry_frame(0x80, place, &four_bytes(abort.code()))
}

/// The toggle bit in a command byte.
pub fn toggle_bit(toggle: bool) -> u8
    ensures bit { result ≡ frames.toggle_bit toggle }
    ensures below { result ≤ 16 }
{
    if toggle { 0x10 } else { 0 }
}

/// A frame with nothing but a command byte.
fn command_alone(command: u8) -> [u8; 8]
    ensures { result ≡ frames.command_frame command [] }
{
    [command, 0, 0, 0, 0, 0, 0, 0]
}

/// The answer to a segment of a download.
pub fn segment_confirmed(toggle: bool) -> [u8; 8]
    ensures { result ≡ frames.segment_confirmed toggle }
{
    command_alone(0x20 + toggle_bit(toggle))
}

/// The request of a segment of an upload.
pub fn segment_request(toggle: bool) -> [u8; 8]
    ensures { result ≡ frames.segment_request toggle }
{
    command_alone(0x60 + toggle_bit(toggle))
}

/// A segment.
#[tactic(auto, using(crate::proofs::FrameLemmas::seven_padded))]
fn segment(toggle: bool, is_last: bool, piece: &[u8]) -> [u8; 8]
    requires { length piece.now ≤ 7 }
    ensures { result ≡ frames.segment toggle is_last piece.now }
{
    let last = if is_last { 1 } else { 0 };
    [
        toggle_bit(toggle) + 2 * (7 - piece.len() as u8) + last,
        byte(piece, 0),
        byte(piece, 1),
        byte(piece, 2),
        byte(piece, 3),
        byte(piece, 4),
        byte(piece, 5),
        byte(piece, 6),
    ]
}

/// Whether the bytes that are left of a value fit into one segment.
pub fn is_last_piece(rest: &[u8]) -> bool
    ensures { result ≡ frames.is_last_piece rest.now }
{
    rest.len() <= 7
}

/// The next segment of a value of which these bytes are left.
pub fn next_segment(toggle: bool, rest: &[u8]) -> [u8; 8]
    ensures { result ≡ frames.next_segment toggle rest.now }
{
    segment(toggle, is_last_piece(rest), &rest[..rest.len().min(7)])
}

/// The entry that a frame names.
pub fn place_named(frame: &[u8; 8]) -> (u16, u8)
    ensures { result ≡ frames.place_named frame.now }
{
    (LittleEndian::read_u16(&frame[1..]), frame[3])
}

/// Whether a frame names an entry.
pub fn names(place: (u16, u8), frame: &[u8; 8]) -> bool
    ensures { result ≡ frames.names place frame.now }
{
    let named = place_named(frame);
    named.0 == place.0 && named.1 == place.1
}

/// The size of a segmented value, or the code of an abort.
pub fn number_told(frame: &[u8; 8]) -> u32
    ensures { result ≡ frames.number_told frame.now }
{
    LittleEndian::read_u32(&frame[4..])
}

/// Whether a segment has the toggle.
pub fn has_toggle(toggle: bool, frame: &[u8; 8]) -> bool
    ensures { result ≡ frames.has_toggle toggle frame.now }
{
    frame[0] / 16 * 16 == toggle_bit(toggle)
}

/// The bytes of a segment.
pub fn piece(frame: &[u8; 8]) -> &[u8]
    ensures { result.now ≡ frames.piece frame.now }
{
    let unused = (frame[0] / 2 % 8) as usize;
    &frame[1..8 - unused]
}

/// Whether a segment is the last.
pub fn is_last(frame: &[u8; 8]) -> bool
    ensures { result ≡ frames.is_last frame.now }
{
    frame[0] % 2 == 1
}

/// Whether more bytes came than the size, or fewer after the last segment.
pub fn is_wrong_length(size: u32, came: usize, is_last: bool) -> bool
    ensures { result ≡ frames.is_wrong_length size came is_last }
{
    let size = size as usize;
    size < came || (is_last && came < size)
}
