//! What the primary of a view does with a client's REQUEST.
ghost use Rattle.std.specs.Prelude.{◌≡◌, OnOk, take};
ghost use Rattle.vr_types.specs.Normal.{on_request, appends, answers_again};
ghost use Rattle.vr_types.specs.Rows.{newest, last_of};
ghost use Rattle.vr_log.specs.Kept.{IsReady};
ghost use Rattle.vr_log.specs.Running.{StaysSound, FollowsRule};

use std::alloc::{AllocError, Global};
use vr_log::Running;
use vr_log::send::{News, dropped, mail_to_client, primary_of, runs_normally, sends_one, tell_all};
use vr_types::{
    Config, MAX_ROWS, Machine, MsgOf, Outcome, OutcomeOf, PrepareOf, ReplyOf, Row, Why,
};

/// REQUEST: a client's new request goes into the log and to all backups, and its newest is answered again if it is
/// executed.
pub fn request<M: Machine>(
    alloc: Global,
    config: Config,
    running: &mut Running<M>,
    row: Row<M>,
) -> Result<Outcome<M>, AllocError>
    requires { IsReady M.Machine running.old.kept }
    ensures sound { OnOk result (StaysSound M.Machine config.f running.old running.new) }
    ensures status { running.new.status ≡ running.old.status }
    ensures view { running.new.view ≡ running.old.view }
    ensures step { FollowsRule M.Machine config running.old running.new result
        (λ site. on_request config.f config.me site row) }
{
    if !runs_normally(running.status) {
        return Ok(dropped(alloc, Why::Status));
    }
    if primary_of(config, running.view) != config.me {
        return Ok(dropped(alloc, Why::NotPrimary));
    }
    if running.kept.clients.newest(row.client) < row.number {
        append(alloc, config, running, row)
    } else {
        answer_again(alloc, config, running, row.client, row.number)
    }
}

/// A new request goes to the log's end and to all backups, where there is room.
fn append<M: Machine>(
    alloc: Global,
    config: Config,
    running: &mut Running<M>,
    row: Row<M>,
) -> Result<Outcome<M>, AllocError>
    requires { IsReady M.Machine running.old.kept }
    ensures sound { OnOk result (StaysSound M.Machine config.f running.old running.new) }
    ensures status { running.new.status ≡ running.old.status }
    ensures view { running.new.view ≡ running.old.view }
    ensures step { FollowsRule M.Machine config running.old running.new result
        (λ site. appends config.f config.me site row) }
{
    let place = running.kept.log.len();
    if place == MAX_ROWS {
        return Ok(dropped(alloc, Why::Full));
    }
    let news = News::Prepare(PrepareOf {
        view: running.view,
        place: (place + 1) as u16,
        done: running.kept.done,
        row,
    });
    running.kept.append(row)?;
    let sent = tell_all(alloc, config, news)?;
    Ok(OutcomeOf {
        sent,
        dropped: None,
    })
}

/// A client's newest request is answered again, where its last executed row has that number.
fn answer_again<M: Machine>(
    alloc: Global,
    config: Config,
    running: &Running<M>,
    client: u16,
    number: u32,
) -> Result<Outcome<M>, AllocError>
    ensures { FollowsRule M.Machine config running.now running.now result
        (λ site. answers_again site number (newest running.now.kept.log client) (last_of (take
        running.now.kept.done running.now.kept.log) client)) }
{
    let Some(last) = running.kept.clients.reply(client) else {
        return Ok(dropped(alloc, Why::Known));
    };
    if number != running.kept.clients.newest(client) {
        return Ok(dropped(alloc, Why::Known));
    }
    if last.0 != number {
        return Ok(dropped(alloc, Why::Known));
    }
    let reply = MsgOf::Reply(ReplyOf {
        view: running.view,
        number,
        reply: last.1,
    });
    sends_one(alloc, mail_to_client(config, client, reply))
}
