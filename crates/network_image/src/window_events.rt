//! The events of windows, as times and numbers.
ghost use Rattle.std.specs.Prelude.{◌≡◌, ◌≤◌, ◌+◌, ◌*◌, nat_lt};
ghost use Rattle.std.specs.List.{prefix_len};
ghost use Rattle.co_scenario.specs.Scenario.{events_between};

use co_scenario::Script;
use image_parts::WINDOW;

/// The last microsecond of the last window in which events can lie: window 1000, that of the greatest time
/// of an event, 10,000,000 microseconds.
pub const LAST_TIME: u32 = 10_009_999;

/// How many of these come before a time, up to the first that doesn't.
fn count_before(moments: &[(u32, u16)], time: u32) -> usize
    ensures { result ≡ prefix_len (λ m. nat_lt m.0 time) moments.now }
{
    moments.iter().take_while(|moment| moment.0 < time).count()
}

/// The events of window i, of those of a script from its start on, and those after it. Takes time by the
/// number of the window's events.
pub fn window_split<'a>(
    script: &Script,
    moments: &'a [(u32, u16)],
    i: u32,
) -> (&'a [(u32, u16)], &'a [(u32, u16)])
    requires number { i ≤ 1000 }
    requires moments { moments.now ≡ events_between (10000 * i) 10009999 script.now }
    ensures window { result.0.now ≡ events_between (10000 * i) (10000 * i + 9999) script.now }
    ensures after { result.1.now ≡ events_between (10000 * (i + 1)) 10009999 script.now }
{
    let _ = script;
    moments.split_at(count_before(moments, WINDOW as u32 * (i + 1)))
}
