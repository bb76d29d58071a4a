//! The only way of a bus to an image.

ghost use Rattle.std.specs.Prelude.{◌≡◌, ◌+◌, ◌-◌, ◌^◌, [], min, IfOk, IfSome, OnOk};
ghost use Rattle.image_parts.specs.Asking.{after_ask};
ghost use Rattle.image_parts.specs.Record.{Lasts};
ghost use Rattle.image_parts.specs.Contents.{EventsAre, RosterIs};
ghost use Rattle.image_parts.specs.Images.{AreInOrder, IsRoster, IsWithin};
ghost use Rattle.image_parts.specs.Shared.{value_behind};
ghost use Rattle.std.specs.List.{AllByRecursion};

use device_objects::Shapes;
use image_parts::{Part, Read, Roster, Window};
use node_boot::Boots;
use std::alloc::AllocError;
use std::rc::Rc;

/// Hands out the parts of an image, and records what was asked.
pub trait Parts: Shapes + Boots {
    /// Bit rate, manager and nodes of the network, or none: numbers within their limits.
    fn roster(&mut self) -> Result<Option<Rc<Roster>>, AllocError>
        ensures value { IfOk result (λ r. (Self.seen self.old).image Part.Roster ≡ RosterIs (value_behind r)) }
        ensures fits { IfOk result (λ r. IfSome (value_behind r) IsRoster) }
        ensures noted { OnOk result (Self.seen self.new ≡ after_ask Part.Roster (Self.seen self.old)) }
        ensures counted { Self.asks self.new ≡ min (Self.asks self.old + 1) (2 ^ 64 - 1) }
        ensures lasts { Lasts (Self.seen self.old) (Self.seen self.new) };

    /// The events of window i, or none, by time and then by number: each has its time there, and sets no object of
    /// a PDO and no value of more than 512 bytes.
    fn events(&mut self, i: u32) -> Result<Option<Rc<Window>>, AllocError>
        ensures value { IfOk result (λ r. (Self.seen self.old).image (Part.Events i) ≡ EventsAre (value_behind r)) }
        ensures fits { IfOk result (λ r. IfSome (value_behind r) (AllByRecursion (IsWithin i))) }
        ensures ordered { IfOk result (λ r. IfSome (value_behind r) AreInOrder) }
        ensures noted { OnOk result (Self.seen self.new ≡ after_ask (Part.Events i) (Self.seen self.old)) }
        ensures counted { Self.asks self.new ≡ min (Self.asks self.old + 1) (2 ^ 64 - 1) }
        ensures lasts { Lasts (Self.seen self.old) (Self.seen self.new) };

    /// Hands the record of what was asked over, and empties it.
    fn take_asked(&mut self) -> Vec<Read>
        ensures taken { result.items ≡ (Self.seen self.old).asked }
        ensures emptied { (Self.seen self.new).asked ≡ [] }
        ensures image { (Self.seen self.new).image ≡ (Self.seen self.old).image }
        ensures asks { Self.asks self.new ≡ Self.asks self.old };

    /// The number of calls that asked, as far as it can be counted.
    fn asks(&self) -> u64
        ensures { result ≡ Self.asks self.now };
}
