//! The beat of a normal site.
ghost use Rattle.std.specs.Prelude.{◌≡◌, ◌++◌, OnOk, List, map, slice_get};
ghost use Rattle.vr_types.specs.declared.cell.Boot.{Boot};
ghost use Rattle.vr_types.specs.Handling.{order_to};
ghost use Rattle.vr_types.specs.Normal.{beats_normal, news as news_of};
ghost use Rattle.vr_types.specs.Site.{Ack};
ghost use Rattle.vr_log.specs.Kept.{IsReady};
ghost use Rattle.vr_log.specs.News.{news_msg};
ghost use Rattle.vr_log.specs.Running.{site_of, FollowsRule};

use std::alloc::{AllocError, Global};
use vr_log::Running;
use vr_log::send::{News, mail_to_client, primary_of, silent, tell_all};
use vr_types::{Commit, Config, Envelope, Machine, MsgOf, Outcome, OutcomeOf, PrepareOf};

/// Beat of a normal site: the primary sends its backups again what they may have missed, and sends each client its
/// open orders. A backup sends nothing.
pub fn beat<M: Machine>(
    alloc: Global,
    config: Config,
    running: &Running<M>,
) -> Result<Outcome<M>, AllocError>
    requires { IsReady M.Machine running.now.kept }
    ensures { FollowsRule M.Machine config running.now running.now result
        (λ site. beats_normal config.f config.me site) }
{
    if primary_of(config, running.view) != config.me {
        return Ok(silent(alloc));
    }
    let mut sent = tell_all(alloc, config, news(running))?;
    send_orders(config, &running.kept.machine, &mut sent)?;
    Ok(OutcomeOf {
        sent,
        dropped: None,
    })
}

/// The first row that is not executed, or else how many rows are executed.
fn news<M: Machine>(running: &Running<M>) -> News<M::Cmd>
    requires { IsReady M.Machine running.now.kept }
    ensures { (acks : List Ack) (cell : Boot) →
        news_msg {R = M.Reply} {O = M.Order} result ≡ news_of (site_of running.now acks cell)
        (slice_get running.now.kept.log running.now.kept.done) }
{
    let done = running.kept.done;
    let _len = running.kept.log.len();
    match running.kept.log.get(done as usize) {
        Some(row) => News::Prepare(PrepareOf {
            view: running.view,
            place: done + 1,
            done,
            row,
        }),
        None => News::Commit(Commit {
            view: running.view,
            done,
        }),
    }
}

/// Adds each open order of the machine, in order.
fn send_orders<M: Machine>(
    config: Config,
    machine: &M,
    sent: &mut Vec<Envelope<M>>,
) -> Result<(), AllocError>
    ensures { OnOk result (sent.new.items ≡ sent.old.items
        ++ map (order_to config.me) (M.orders machine.now)) }
{
    let mut at = 0;
    while let Some(due) = machine.open(at) {
        sent.push(mail_to_client(config, due.0, MsgOf::PayOrder(due.1)))?;
        at += 1;
    }
    Ok(())
}
