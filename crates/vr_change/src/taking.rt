//! What a site does with STARTVIEW, and how it takes a log.
ghost use Rattle.std.specs.Prelude.{◌≡◌, ◌+◌, ◌≤◌, ◌++◌, ◌==◌, ◌&&◌, [], OnOk, length, take};
ghost use Rattle.vr_types.specs.Change.{on_start_view};
ghost use Rattle.vr_types.specs.Site.{is_normal};
ghost use Rattle.vr_types.specs.Step.{takes_log};
ghost use Rattle.vr_log.specs.Kept.{IsReady};
ghost use Rattle.vr_log.specs.Running.{StaysSound, FollowsChoice};
ghost use Rattle.vr_change.specs.Parts.{GivesUpCollected};

use crate::change::give_up_collected;
use std::alloc::{AllocError, Global};
use vr_log::Running;
use vr_log::send::{acknowledge_log, dropped, primary_of, runs_normally, silent};
use vr_types::{Config, MAX_ROWS, Machine, Outcome, RowsOf, StartViewOf, Status, Why};

/// STARTVIEW: the site takes the log with which the primary opened its view, and is normal in that view.
pub fn start_view<M: Machine>(
    alloc: Global,
    config: Config,
    running: &mut Running<M>,
    from: u16,
    msg: StartViewOf<M::Cmd>,
) -> Result<Outcome<M>, AllocError>
    requires { IsReady M.Machine running.old.kept }
    ensures sound { OnOk result (StaysSound M.Machine config.f running.old running.new) }
    ensures later { running.old.view ≤ running.new.view }
    ensures step { FollowsChoice M.Machine config running.old running.new result
        (λ choose site. on_start_view choose config.f config.me site from msg) }
{
    if primary_of(config, msg.view) != from {
        return Ok(dropped(alloc, Why::NotPrimary));
    }
    if msg.view < running.view {
        return Ok(dropped(alloc, Why::View));
    }
    if is_normal_in(running, msg.view) {
        return Ok(dropped(alloc, Why::Known));
    }
    let _len = msg.rows.len();
    take_log(alloc, config, running, msg.view, 0, msg.done, msg.rows)
}

/// Whether the site is normal in a view.
pub fn is_normal_in<M: Machine>(running: &Running<M>, view: u32) -> bool
    ensures { result ≡ (is_normal running.now.status && (view == running.now.view)) }
{
    runs_normally(running.status) && view == running.view
}

/// The site puts these rows after the first `base` of its log, and is normal in this view: what is committed is
/// executed, and the log is acknowledged if some of it is not executed yet. Rows that do not begin with those that the
/// site has executed are dropped.
pub fn take_log<M: Machine>(
    alloc: Global,
    config: Config,
    running: &mut Running<M>,
    view: u32,
    base: usize,
    done: u16,
    rows: RowsOf<M::Cmd>,
) -> Result<Outcome<M>, AllocError>
    requires ready { IsReady M.Machine running.old.kept }
    requires base { base ≤ length running.old.kept.log }
    requires few { base + length rows ≤ MAX_ROWS }
    requires later { running.old.view ≤ view }
    ensures sound { OnOk result (StaysSound M.Machine config.f running.old running.new) }
    ensures later { running.old.view ≤ running.new.view }
    ensures step { FollowsChoice M.Machine config running.old running.new result
        (λ choose site. takes_log choose config.f config.me site view done (take base
        running.old.kept.log ++ rows)) }
{
    if !running.kept.keeps_executed(base, &rows) {
        return Ok(dropped(alloc, Why::Stale));
    }
    running.kept.take_rows(base, rows)?;
    running.kept.advance(done)?;
    be_normal(running, view);
    let len = running.kept.log.len();
    if (running.kept.done as usize) < len {
        acknowledge_log(alloc, config, view, len as u16)
    } else {
        Ok(silent(alloc))
    }
}

/// The site is normal in a view, and gives up what it collected.
pub fn be_normal<M: Machine>(running: &mut Running<M>, view: u32)
    ensures { GivesUpCollected
        (record running.old { status = Status.Normal; view = view; last_normal = view })
        running.new }
{
    running.status = Status::Normal;
    running.view = view;
    running.last_normal = view;
    give_up_collected(running);
}
