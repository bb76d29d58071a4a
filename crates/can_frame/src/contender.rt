//! A waiting frame as it contends for the bus.
ghost use Rattle.std.specs.Prelude.{◌≡◌, ◌↔◌, IsTrue};
ghost use Rattle.can_frame.specs.Winner.{is_below as below, lower as lower_of};

/// A waiting frame as it contends for the bus: what is least by identifier, then sender, then place
/// wins.
#[derive(Clone, Copy, Debug)]
pub struct Contender {
    /// The identifier of the frame.
    pub id: u16,
    /// Who sends it: `device_sender` or `manager_sender` of a number.
    pub sender: u16,
    /// Its place in the list of that sender.
    pub place: usize,
}

impl Contender {
    /// Whether the other one is the same.
    pub fn same(&self, other: &Contender) -> bool
        ensures { IsTrue result ↔ (self.now ≡ other.now) }
    {
        self.id == other.id && self.sender == other.sender && self.place == other.place
    }

    /// Whether this one is below another.
    pub fn is_below(&self, other: &Contender) -> bool
        ensures { result ≡ below self.now other.now }
    {
        if self.id != other.id {
            return self.id < other.id;
        }
        if self.sender != other.sender {
            return self.sender < other.sender;
        }
        self.place < other.place
    }

    /// The lower of two, where there are two.
    pub fn lower(one: Option<Contender>, other: Option<Contender>) -> Option<Contender>
        ensures { result ≡ lower_of one other }
    {
        match (one, other) {
            (None, _) => other,
            (Some(_), None) => one,
            (Some(first), Some(second)) => {
                if second.is_below(&first) {
                    Some(second)
                } else {
                    Some(first)
                }
            }
        }
    }
}
