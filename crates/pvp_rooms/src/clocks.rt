//! The test A2: clocks rise.
ghost use Rattle.std.specs.Prelude.{◌≡◌, ℕ, ◌+◌, ◌<◌, OnOk, IfErr, length, take};
ghost use Rattle.pvp_rooms.specs.Histories.{IsRising, stamp_clock};

use crate::Recorded;
use pvp_wire::Stamp;

/// Tests that each clock is above the one before and above its stamp's. An `Err` is the place of the first that isn't.
pub fn check_clocks<E, O>(history: &[Recorded<E, O>]) -> Result<(), usize>
    ensures ok { OnOk result (IsRising history.now 0) }
    ensures err { IfErr result (λ at. (at < length history.now) × IsRising (take at history.now) 0
        × ¬ IsRising (take (at + 1) history.now) 0) }
{
    let mut last = 0;
    let mut at = 0;
    while at < history.len() {
        let r = &history[at];
        if r.clock <= last || r.clock <= clock_of(r.stamp) {
            return Err(at);
        }
        last = r.clock;
        at += 1;
    }
    Ok(())
}

fn clock_of(stamp: Option<Stamp>) -> u64
    ensures { result ≡ stamp_clock stamp }
{
    match stamp {
        None => 0,
        Some(s) => s.clock,
    }
}
