//! The transmission type of a PDO.

ghost use Rattle.std.specs.Prelude.{◌≡◌};
ghost use Rattle.cia301.specs.TransmissionTypes.{type_of_byte, is_synchronous as is_of_sync};
ghost use Rattle.cia301.specs.TransmissionTypes.{is_event_driven as is_of_events, is_on_request as is_of_request};
ghost use Rattle.cia301.specs.TransmissionTypes.{is_reserved as is_of_none};

/// The transmission type of a PDO (CiA 301): when a TPDO is sent, and when an RPDO takes its frames.
#[derive(Clone, Copy, Debug, PartialEq, Eq)]
pub enum TransmissionType {
    /// 0, acyclic synchronous: at a SYNC, and a TPDO only where its bytes differ.
    Acyclic,
    /// The number n from 1 to 240, cyclic synchronous: at a SYNC, and a TPDO at each n-th.
    Cyclic(u8),
    /// 241 to 251: reserved.
    Reserved,
    /// 252 and 253: on remote request alone.
    OnRequest,
    /// 254 and 255, event-driven: at once.
    EventDriven,
}

impl TransmissionType {
    /// That of a byte.
    #[tactic(auto, unfolding(crate::specs::TransmissionTypes::type_of_byte))]
    pub fn of(byte: u8) -> TransmissionType
        ensures { result ≡ type_of_byte byte }
    {
        match byte {
            0 => TransmissionType::Acyclic,
            1..=240 => TransmissionType::Cyclic(byte),
            241..=251 => TransmissionType::Reserved,
            252..=253 => TransmissionType::OnRequest,
            254..=255 => TransmissionType::EventDriven,
        }
    }

    /// Whether it goes by SYNC: it is that of 0 to 240.
    pub fn is_synchronous(self) -> bool
        ensures { result ≡ is_of_sync self }
    {
        matches!(
            self,
            TransmissionType::Acyclic | TransmissionType::Cyclic(_)
        )
    }

    /// Whether it is reserved: that of 241 to 251.
    pub fn is_reserved(self) -> bool
        ensures { result ≡ is_of_none self }
    {
        matches!(self, TransmissionType::Reserved)
    }

    /// Whether it is on remote request alone: that of 252 and 253.
    pub fn is_on_request(self) -> bool
        ensures { result ≡ is_of_request self }
    {
        matches!(self, TransmissionType::OnRequest)
    }

    /// Whether it is event-driven: that of 254 and 255.
    pub fn is_event_driven(self) -> bool
        ensures { result ≡ is_of_events self }
    {
        matches!(self, TransmissionType::EventDriven)
    }
}
