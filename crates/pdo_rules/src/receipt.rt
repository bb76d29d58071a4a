//! What becomes of a frame that an RPDO receives.

ghost use Rattle.std.specs.Prelude.{◌≡◌};
ghost use Rattle.pdo_rules.specs.Rpdo.{frame_receipt as receipt_of_frame};

use cia301::TransmissionType;

/// What becomes of a frame that a working RPDO receives (CiA 301).
#[derive(Clone, Copy, Debug, PartialEq, Eq)]
pub enum Receipt {
    /// It has fewer bytes than the mapping begins: it is dropped, and an emergency object tells so.
    Short,
    /// It is kept until the next SYNC.
    Kept,
    /// Its values are taken at once.
    AtOnce,
    /// Nothing.
    Ignored,
}

/// What becomes of a frame of so many bytes at a working RPDO of a transmission type, where its
/// mapping begins `mapped` bytes. `Short` where the frame has fewer, whatever the type is; else `Kept`
/// for the synchronous types, `AtOnce` for the event-driven one, and `Ignored` for others and none.
#[tactic(auto, unfolding(crate::specs::Rpdo::frame_receipt))]
pub fn received(transmission: Option<TransmissionType>, mapped: usize, count: usize) -> Receipt
    ensures { result ≡ receipt_of_frame transmission mapped count }
{
    if count < mapped {
        return Receipt::Short;
    }
    match transmission {
        Some(TransmissionType::Acyclic | TransmissionType::Cyclic(_)) => Receipt::Kept,
        Some(TransmissionType::EventDriven) => Receipt::AtOnce,
        Some(TransmissionType::Reserved | TransmissionType::OnRequest) | None => Receipt::Ignored,
    }
}
