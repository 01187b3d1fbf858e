//! The outcomes of a rule, and the messages that it sends.
ghost use Rattle.std.specs.Prelude.{◌≡◌, ℕ, ◌*◌, ◌≤◌, ◌==◌, ◌++◌, ◌∷◌, [], map, IfOk, OnOk};
ghost use Rattle.vr_types.specs.Site.{is_normal, is_change};
ghost use Rattle.vr_types.specs.Group.{primary, actor_of, mail, to_all};
ghost use Rattle.vr_log.specs.Kept.{reply_mail};
ghost use Rattle.vr_log.specs.Outcomes.{Sends, Drops};
ghost use Rattle.vr_log.specs.News.{news_msg};

use crate::kept::AnswerOf;
use std::alloc::{AllocError, Global};
use vr_types::{
    Commit, Config, EnvelopeOf, FIRST_SITE, MsgOf, OutcomeOf, PrepareOf, PrepareOk, Recovery,
    ReplyOf, StartViewChange, Status, Why,
};

/// What a site sends to all the others.
#[derive(Clone, Copy)]
pub enum News<C> {
    Prepare(PrepareOf<C>),
    Commit(Commit),
    StartViewChange(StartViewChange),
    Recovery(Recovery),
}

impl<C: Copy> News<C> {
    /// The message that carries it.
    fn msg<R, O>(self) -> MsgOf<C, R, O>
        ensures { result ≡ news_msg self }
    {
        match self {
            News::Prepare(prepare) => MsgOf::Prepare(prepare),
            News::Commit(commit) => MsgOf::Commit(commit),
            News::StartViewChange(change) => MsgOf::StartViewChange(change),
            News::Recovery(recovery) => MsgOf::Recovery(recovery),
        }
    }
}

/// The primary of a view.
pub fn primary_of(config: Config, view: u32) -> u16
    ensures site { result ≡ primary config.f view }
    ensures within { result ≤ 2 * config.f }
{
    (view % (2 * config.f as u32 + 1)) as u16
}

/// Whether a site is normal.
pub fn runs_normally(status: Status) -> bool
    ensures { result ≡ is_normal status }
{
    match status {
        Status::Normal => true,
        _ => false,
    }
}

/// Whether a site takes part in the change to its view.
pub fn changes_view(status: Status) -> bool
    ensures { result ≡ is_change status }
{
    match status {
        Status::Change => true,
        _ => false,
    }
}

/// The event is dropped. It takes no memory.
pub fn dropped<C, R, O>(alloc: Global, why: Why) -> OutcomeOf<C, R, O>
    ensures { Drops result why }
{
    OutcomeOf {
        sent: Vec::new(alloc),
        dropped: Some(why),
    }
}

/// The event is handled, and nothing is sent. It takes no memory.
pub fn silent<C, R, O>(alloc: Global) -> OutcomeOf<C, R, O>
    ensures { Sends result [] }
{
    OutcomeOf {
        sent: Vec::new(alloc),
        dropped: None,
    }
}

/// The event is handled, and one envelope is sent.
pub fn sends_one<C: Drop, R: Drop, O: Drop>(
    alloc: Global,
    envelope: EnvelopeOf<C, R, O>,
) -> Result<OutcomeOf<C, R, O>, AllocError>
    ensures { IfOk result (λ out. Sends out (envelope ∷ [])) }
{
    let mut sent = Vec::with_capacity(alloc, 1)?;
    sent.push_reserved(envelope);
    Ok(OutcomeOf {
        sent,
        dropped: None,
    })
}

/// A message from this site to a site.
pub fn mail_to<C, R, O>(config: Config, to: u16, msg: MsgOf<C, R, O>) -> EnvelopeOf<C, R, O>
    requires { to ≤ 2 * config.f }
    ensures { result ≡ mail config.me to msg }
{
    EnvelopeOf {
        from: FIRST_SITE + config.me,
        to: FIRST_SITE + to,
        msg,
    }
}

/// A message from this site to a client.
pub fn mail_to_client<C, R, O>(
    config: Config,
    client: u16,
    msg: MsgOf<C, R, O>,
) -> EnvelopeOf<C, R, O>
    ensures { result ≡ record { from = actor_of config.me; to = client; msg = msg } }
{
    EnvelopeOf {
        from: FIRST_SITE + config.me,
        to: client,
        msg,
    }
}

/// Messages to every other site, in ascending order.
pub fn tell_all<C: Copy, R: Drop, O: Drop>(
    alloc: Global,
    config: Config,
    news: News<C>,
) -> Result<Vec<EnvelopeOf<C, R, O>>, AllocError>
    ensures { IfOk result (λ sent. sent.items ≡ to_all config.f config.me (news_msg news)) }
{
    let mut sent = Vec::with_capacity(alloc, 2 * usize::from(config.f))?;
    for site in 0..2 * config.f + 1 {
        if site != config.me {
            sent.push(mail_to(config, site, news.msg()))?;
        }
    }
    Ok(sent)
}

/// PREPAREOK for the first rows, to the primary of a view.
pub fn acknowledge_log<C: Drop, R: Drop, O: Drop>(
    alloc: Global,
    config: Config,
    view: u32,
    place: u16,
) -> Result<OutcomeOf<C, R, O>, AllocError>
    ensures { IfOk result
        (λ out. Sends out (mail config.me (primary config.f view)
        (MsgOf.PrepareOk (record { view = view; place = place })) ∷ [])) }
{
    let msg = MsgOf::PrepareOk(PrepareOk { view, place });
    sends_one(alloc, mail_to(config, primary_of(config, view), msg))
}

/// Adds the replies of a view to these answers, in order.
pub fn send_replies<C: Drop, R: Copy, O: Drop>(
    config: Config,
    view: u32,
    answers: &[AnswerOf<R>],
    sent: &mut Vec<EnvelopeOf<C, R, O>>,
) -> Result<(), AllocError>
    ensures { OnOk result (sent.new.items ≡ sent.old.items
        ++ map (reply_mail config.me view) answers.now) }
{
    for answer in answers {
        let reply = MsgOf::Reply(ReplyOf {
            view,
            number: answer.number,
            reply: answer.reply,
        });
        sent.push(mail_to_client(config, answer.client, reply))?;
    }
    Ok(())
}
