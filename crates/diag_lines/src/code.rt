//! The code of a diagnostic.
ghost use Rattle.std.specs.Prelude.{◌≡◌, nat_eq};
ghost use Rattle.std.proofs.Common.{rules};
ghost use Rattle.std.specs.Cmp as Cmp;
ghost use Rattle.std.specs.Cmp.Rules.{comparing};
ghost use Rattle.std.specs.Ordering.{nat_cmp, on, as_partial_cmp};
ghost use Rattle.diag_lines.specs.Codes.{is_error, number_of};

use std::cmp::Ordering;

/// What is wrong (CiA 301 and 306 say what may be; the codes are this profile's own), in the order
/// of the numbers. Those of up to 16 are errors, and 26; the others are warnings.
#[derive(Clone, Copy, Debug)]
pub enum Code {
    /// 1: a parameter or an event sets an entry that the node's device doesn't have.
    NoEntry,
    /// 2: the text of a parameter, of an event or of a default spells no value of its entry's type.
    Unreadable,
    /// 3: the value of a parameter is below its entry's low limit or above the high one.
    OutsideLimits,
    /// 4: a parameter is of an entry that is read-only or constant.
    NotWritable,
    /// 5: an entry that the writes of a message's TPDO name isn't there, of its type or writable.
    NoObjects,
    /// 6: a clean message before it has a message's TPDO.
    TpdoTaken,
    /// 7: the sources of a message have over 64 bits.
    TooManyBits,
    /// 8: a source or sink of a message isn't there or can't be mapped, or a sink is on the sender.
    NotMappable,
    /// 9: a sink of a message has no source at its position, or one of another width.
    Mismatched,
    /// 10: a consumer of a message has no free RPDO with the entries that its writes name.
    NoRpdo,
    /// 11: a message needs a dummy that its consumer doesn't allow, or one of 64 bits.
    NoDummy,
    /// 12: the explicit identifier of a message is below 181h, restricted, or had by a clean message
    /// before it.
    BadIdentifier,
    /// 13: the identifier of a message is automatic, and none is free.
    NoIdentifier,
    /// 14: the transmission type of a message is 241 to 251.
    ReservedType,
    /// 15: two or more TPDOs are on with one identifier.
    SharedIdentifier,
    /// 16: a parameter or an event sets an entry of a type that is not modelled.
    NotModelled,
    /// 17: the transmission type of a message, 252 or 253, asks for remote frames.
    RemoteType,
    /// 18: the transmission type of a message waits for a SYNC, and the manager sends none.
    NoSync,
    /// 19: a heartbeat consumer waits for a node that isn't there, or whose heartbeat doesn't come
    /// in time.
    UnfitConsumer,
    /// 20: a line of the text of an EDS isn't used.
    SkippedLine,
    /// 21: the synchronous counter overflow value (1019h) of a node isn't that of the network's SYNC.
    OtherCounter,
    /// 22: the transmission type of a message counts SYNCs, and the counter of the network's SYNC doesn't
    /// reach the message's SYNC start value.
    UnreachedStart,
    /// 23: a TPDO that no message uses is on by default and can't be switched off: it is sent beside the plan.
    UnplannedTpdo,
    /// 24: an RPDO that no message uses is on by default and can't be switched off, and takes a message.
    UnplannedRpdo,
    /// 25: an event does nothing: it switches the power of the device that the manager runs in, or sets its producer
    /// heartbeat time (1017h).
    IdleEvent,
    /// 26: a write that the plan gives a node is below its entry's low limit or above the high one.
    BesideLimits,
    /// 27: the producer heartbeat time (1017h) of the device that the manager runs in isn't the manager's.
    OtherHeartbeat,
    /// 28: a receive is of a node that doesn't take its message, or of an event time that its RPDO can't have.
    UselessReceive,
}

impl Code {
    /// Its number, from 1 to 28.
    #[tactic(auto, unfolding(crate::specs::Codes::number_of))]
    pub fn number(self) -> u8
        ensures { result ≡ number_of self }
    {
        match self {
            Code::NoEntry => 1,
            Code::Unreadable => 2,
            Code::OutsideLimits => 3,
            Code::NotWritable => 4,
            Code::NoObjects => 5,
            Code::TpdoTaken => 6,
            Code::TooManyBits => 7,
            Code::NotMappable => 8,
            Code::Mismatched => 9,
            Code::NoRpdo => 10,
            Code::NoDummy => 11,
            Code::BadIdentifier => 12,
            Code::NoIdentifier => 13,
            Code::ReservedType => 14,
            Code::SharedIdentifier => 15,
            Code::NotModelled => 16,
            Code::RemoteType => 17,
            Code::NoSync => 18,
            Code::UnfitConsumer => 19,
            Code::SkippedLine => 20,
            Code::OtherCounter => 21,
            Code::UnreachedStart => 22,
            Code::UnplannedTpdo => 23,
            Code::UnplannedRpdo => 24,
            Code::IdleEvent => 25,
            Code::BesideLimits => 26,
            Code::OtherHeartbeat => 27,
            Code::UselessReceive => 28,
        }
    }

    /// Whether it is an error and not a warning.
    pub fn is_error(self) -> bool
        ensures { result ≡ is_error self }
    {
        self.number() <= 16 || self.number() == 26
    }
}

impl PartialEq for Code {
    ghost eq = { on number_of nat_eq };

    ghost laws = { Prim.search (comparing, rules) };

    fn eq(&self, other: &Code) -> bool {
        self.number() == other.number()
    }
}

impl Eq for Code {
    ghost laws = { Prim.search (comparing, rules) };
}

impl PartialOrd for Code {
    ghost partial_cmp = { as_partial_cmp (on number_of nat_cmp) };

    ghost laws = { Cmp.partial_order_from_own_ties (Prim.search (comparing, rules)) (Prim.search (comparing, rules)) };

    fn partial_cmp(&self, other: &Code) -> Option<Ordering> {
        Some(self.cmp(other))
    }
}

impl Ord for Code {
    ghost cmp = { on number_of nat_cmp };

    ghost total = { Prim.search (comparing, rules) };

    ghost matches_partial_cmp = { Prim.search (comparing, rules) };

    ghost matches_eq = { Prim.search (comparing, rules) };

    fn cmp(&self, other: &Code) -> Ordering {
        self.number().cmp(&other.number())
    }
}
