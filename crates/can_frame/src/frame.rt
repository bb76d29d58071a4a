//! A frame.
ghost use Rattle.std.specs.Prelude.{◌≡◌, ◌<◌, ◌≤◌, ◌↔◌, length, IfSome, IsTrue};
ghost use Rattle.can_frame.specs.Frames.{frame_of, IsFrame};

use std::marker::Model;

const LONGEST: usize = 8;

const IDENTIFIERS: u16 = 0x800;

/// A base frame (ISO 11898-1): an identifier of 11 bits, and at most 8 bytes.
#[derive(Clone, Copy, Debug)]
pub struct Frame {
    id: u16,
    bytes: [u8; LONGEST],
    count: u8,
}

impl Model for Frame {
    ghost use Rattle.std.specs.Prelude.{length, take};
    ghost use Rattle.can_frame.specs.Frames.{BaseFrame, IsStored};
    ghost use Rattle.base.specs.Bytes.{filled_up};

    ghost Value = { BaseFrame };

    ghost view = { λ f. record { id = f.id; bytes = take f.count f.bytes } };

    ghost invariant = { λ f. IsStored (record { id = f.id; bytes = take f.count f.bytes }) f.bytes f.count };

    ghost inverse = { λ v. record { id = v.id; bytes = filled_up v.bytes; count = length v.bytes } };
}

impl Frame {
    /// The frame of an identifier from 0 to 7FFh and at most 8 bytes.
    pub fn of(id: u16, bytes: &[u8]) -> Frame
        requires identifier { id < 0x800 }
        requires short { length bytes.now ≤ 8 }
        ensures { result ≡ record { id = id; bytes = bytes.now } }
    {
        let mut stored = [0; LONGEST];
        stored[..bytes.len()].copy_from_slice(bytes);
        Frame {
            id,
            bytes: stored,
            count: bytes.len() as u8,
        }
    }

    /// The frame of an identifier and bytes. `None` where the identifier is over 7FFh or there are
    /// over 8 bytes.
    pub fn new(id: u16, bytes: &[u8]) -> Option<Frame>
        ensures { result ≡ frame_of id bytes.now }
    {
        if id < IDENTIFIERS && bytes.len() <= LONGEST {
            Some(Frame::of(id, bytes))
        } else {
            None
        }
    }

    /// The identifier, 0 to 7FFh.
    pub fn id(&self) -> u16
        ensures id { result ≡ self.now.id }
        ensures frame { IsFrame self.now }
    {
        self.id
    }

    /// The bytes, at most 8.
    pub fn bytes(&self) -> &[u8]
        ensures bytes { result.now ≡ self.now.bytes }
        ensures frame { IsFrame self.now }
    {
        &self.bytes[..usize::from(self.count)]
    }

    /// The bytes of a frame that has eight of them.
    pub fn eight(&self) -> [u8; 8]
        requires { length self.now.bytes ≡ 8 }
        ensures { result ≡ self.now.bytes }
    {
        let mut copy = [0; LONGEST];
        copy.copy_from_slice(self.bytes());
        copy
    }

    /// Whether two frames have the same identifier and the same bytes.
    pub fn same(&self, other: &Frame) -> bool
        ensures { IsTrue result ↔ (self.now ≡ other.now) }
    {
        self.id == other.id && self.bytes() == other.bytes()
    }
}
