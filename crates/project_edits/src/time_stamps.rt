//! The manager's time stamps.
ghost use Rattle.std.specs.Prelude.{◌≡◌};
ghost use Rattle.project_edits.specs.Stamps as rules;

/// The time stamp messages of the manager (CiA 301, TIME).
#[derive(Clone, Copy, Debug, PartialEq, Eq)]
pub struct TimeStamps {
    /// The time between two of them in microseconds, 1,000 to 10,000,000.
    pub period_us: u32,
    /// The day at whose midnight the network is switched on.
    pub first_day: u16,
}

impl TimeStamps {
    /// Those of a period and a first day: a period of 0 asks for none.
    pub fn new(period_us: u32, first_day: u16) -> Option<TimeStamps>
        ensures { result ≡ rules.stamps_of period_us first_day }
    {
        if period_us == 0 {
            return None;
        }
        Some(TimeStamps {
            period_us,
            first_day,
        })
    }

    /// The time between two of them in microseconds; 0 where there are none.
    pub fn period_of(stamps: Option<TimeStamps>) -> u32
        ensures { result ≡ rules.period_of stamps }
    {
        match stamps {
            None => 0,
            Some(stamps) => stamps.period_us,
        }
    }

    /// The day at whose midnight the network is switched on; 0 where there are none.
    pub fn first_day_of(stamps: Option<TimeStamps>) -> u16
        ensures { result ≡ rules.first_day_of stamps }
    {
        match stamps {
            None => 0,
            Some(stamps) => stamps.first_day,
        }
    }
}
