//! Why a message can't be sent.

/// Why a message isn't clean. A message has each fault that holds of it.
#[derive(Clone, Copy, Debug, PartialEq, Eq)]
pub enum MessageFault {
    /// An entry that the writes of the sender's TPDO name isn't there, of its type or writable.
    NoObjects,
    /// A clean message before it has the sender's TPDO.
    TpdoTaken,
    /// The sources have over 64 bits.
    TooManyBits,
    /// A source or sink isn't there or can't be mapped in its direction, or a sink is on the sender.
    NotMappable,
    /// A sink has no source at its position, or one of another width.
    Mismatched,
    /// A consumer has no free RPDO with the entries that its writes name.
    NoRpdo,
    /// A dummy is needed that the consumer doesn't allow, or that has 64 bits.
    NoDummy,
    /// The explicit identifier is below 181h, restricted, or had by a clean message before it.
    BadIdentifier,
    /// The identifier is automatic, and none is free.
    NoIdentifier,
    /// The transmission type is 241 to 251.
    ReservedType,
}
