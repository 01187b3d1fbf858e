//! Which envelopes a site takes: those addressed to it, from actors that may send it such a message.
ghost use Rattle.std.specs.Prelude.{◌≡◌, ◌-◌};
ghost use Rattle.vr_types.specs.Group.{is_of_all as is_told_of_all, is_other_site as is_number_of_other, may_send as may_come, is_mine as is_addressed, site_of};

use vr_types::{Config, EnvelopeOf, FIRST_SITE, Known, MsgOf, is_client};

/// Whether an envelope is for this site, from an actor that may send it such a message.
pub(crate) fn is_mine<C, R, O>(config: Config, envelope: &EnvelopeOf<C, R, O>) -> bool
    ensures { result ≡ is_addressed config.f config.me envelope.now }
{
    envelope.to == FIRST_SITE + config.me && may_send(config, envelope.from, &envelope.msg)
}

/// Whether an actor may send a message of this kind to this site.
fn may_send<C, R, O>(config: Config, actor: u16, msg: &MsgOf<C, R, O>) -> bool
    ensures { result ≡ may_come config.f config.me actor msg.now }
{
    match msg {
        MsgOf::Request(_) => is_client(actor),
        MsgOf::Prepare(_) => is_other_site(config, actor),
        MsgOf::PrepareOk(_) => is_other_site(config, actor),
        MsgOf::Commit(_) => is_other_site(config, actor),
        MsgOf::StartViewChange(msg) => {
            is_other_site(config, actor) && is_of_all(config, &msg.known)
        }
        MsgOf::DoViewChange(msg) => {
            is_other_site(config, actor) && is_of_all(config, &msg.known)
        }
        MsgOf::StartView(_) => is_other_site(config, actor),
        MsgOf::GetState(_) => is_other_site(config, actor),
        MsgOf::NewState(_) => is_other_site(config, actor),
        MsgOf::Recovery(_) => is_other_site(config, actor),
        MsgOf::RecoveryResponse(msg) => {
            is_other_site(config, actor) && is_of_all(config, &msg.known)
        }
        MsgOf::Reply(_) => false,
        MsgOf::PayOrder(_) => false,
    }
}

/// Whether an actor is another site of the group.
fn is_other_site(config: Config, actor: u16) -> bool
    ensures { result ≡ is_number_of_other config.f config.me actor }
{
    FIRST_SITE <= actor && actor <= FIRST_SITE + 2 * config.f && actor != FIRST_SITE + config.me
}

/// Whether a list of boot numbers has one for each site of the group, and no other.
fn is_of_all(config: Config, known: &Known) -> bool
    ensures { result ≡ is_told_of_all config.f known.now }
{
    known.len() == 2 * config.f as usize + 1
}

/// The number of the site that an actor is.
pub(crate) fn site_number(actor: u16) -> u16
    ensures { result ≡ site_of actor }
{
    actor.saturating_sub(FIRST_SITE)
}
