//! Moments, in microseconds from a start, which may be there or not.

ghost use Rattle.std.specs.Prelude.{◌≡◌, ◌+◌, ◌<◌, ◌^◌};
ghost use Rattle.base.specs.Moments.{is_ahead as lies_ahead, is_due as is_now, has_come as is_past_or_now};
ghost use Rattle.base.specs.Moments.{moment_after as after};

/// Whether a moment is there and is the moment t.
pub fn is_due(t: u64, moment: Option<u64>) -> bool
    ensures { result ≡ is_now t moment }
{
    moment == Some(t)
}

/// Whether a moment is there that has come at t: it is t, or lies before it.
pub fn has_come(t: u64, moment: Option<u64>) -> bool
    ensures { result ≡ is_past_or_now t moment }
{
    match moment {
        Some(moment) => moment <= t,
        None => false,
    }
}

/// Whether a moment is there that lies ahead of t.
pub fn is_ahead(t: u64, moment: Option<u64>) -> bool
    ensures { result ≡ lies_ahead t moment }
{
    match moment {
        Some(moment) => t < moment,
        None => false,
    }
}

/// The moment a time after the moment t; none where the time is 0.
pub fn moment_after(t: u64, time: u64) -> Option<u64>
    requires { t + time < 2 ^ 64 }
    ensures { result ≡ after t time }
{
    if time == 0 {
        return None;
    }
    Some(t + time)
}
