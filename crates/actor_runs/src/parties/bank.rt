//! A request that goes through two of three sites, audited; and events that stray.
use crate::parties::common::{
    Place, add, after, are_judged, close_after, first_letter, let_go, without_last,
};
use fixtures::{Filed, Fresh};
use headline::ClientEvent;
use pvp_book::Book;
use pvp_links::Served;
use pvp_parties::{Party, PartyEvent, PartyOf, PartyOutcome};
use pvp_rooms::{Actor, AuditTest, Closed, Finding};
use pvp_types::{Cmd, Reply};
use pvp_wire::Stamp;
use rtgs_node::NodeEvent;
use std::alloc::Global;
use std::process::Abort;
use std::sync::Wait;
use std::test::Fail;
use vr_types::{Envelope, EventOf, MemCell, MsgOf};

/// What an event of an actor leads to: the clock at which it was taken, and how it came out.
type CameTo<A> = Result<(u64, <A as Actor>::Outcome), Fail>;

/// The operator, the primary and one backup.
#[derive(Drop)]
struct Three<A: Actor> {
    operator: Place<A>,
    primary: Place<A>,
    backup: Place<A>,
}

/// The three of a new bank.
fn open<C: Fresh>(alloc: Global) -> Result<Three<PartyOf<C>>, Fail> {
    Ok(Three {
        operator: Place::client(alloc)?,
        primary: Place::site(alloc, 0)?,
        backup: Place::site(alloc, 1)?,
    })
}

/// The operator asks for a settlement run.
fn asks() -> PartyEvent {
    PartyEvent::OfClient(ClientEvent::Submits(Cmd::Settle { most: 1 }))
}

/// A beat of a site.
fn beat() -> PartyEvent {
    PartyEvent::OfSite(EventOf::Beat)
}

impl<A: Served> Three<A> {
    /// The operator asks so, and the primary has a row of it.
    fn prepare<R: Wait + AllocGlobal>(&mut self, rt: &R, asks: A::Event) -> CameTo<A> {
        let request = self.operator.post(rt, asks, None);
        self.primary.deliver(rt, 0, request)
    }

    /// The backup agrees to the primary's row.
    fn agree<R: Wait + AllocGlobal>(&mut self, rt: &R, asks: A::Event) -> CameTo<A> {
        let prepare = self.prepare(rt, asks);
        self.backup.deliver(rt, 200, prepare)
    }

    /// The primary answers.
    fn reply<R: Wait + AllocGlobal>(&mut self, rt: &R, asks: A::Event) -> CameTo<A> {
        let agreed = self.agree(rt, asks);
        self.primary.deliver(rt, 201, agreed)
    }

    /// The letter that the primary answers with.
    fn letter<R: Wait + AllocGlobal>(
        &mut self,
        rt: &R,
        asks: A::Event,
    ) -> Result<(u64, Envelope<Book>), Fail> {
        let (clock, outcome) = self.reply(rt, asks)?;
        Ok((clock, first_letter::<A>(rt.alloc(), &outcome)?))
    }

    /// What the primary answers, once the operator has taken it.
    fn answer<R: Wait + AllocGlobal>(
        &mut self,
        rt: &R,
        asks: A::Event,
    ) -> Result<Option<(u16, Reply)>, Fail> {
        let (clock, letter) = self.letter(rt, asks)?;
        let answered = told(&letter);
        let stamp = Stamp {
            actor: 200,
            clock,
            index: 0,
        };
        let_go(self.operator.post(rt, A::deliver(letter), Some(stamp)))?;
        Ok(answered)
    }
}

/// What they leave: the operator, the primary and the backup.
fn left_by<A: Actor>(alloc: Global, three: Three<A>) -> Result<Vec<Closed<A>>, Fail> {
    let Three {
        operator,
        primary,
        backup,
    } = three;
    let mut closed = Vec::new(alloc);
    closed.push(operator.close()?)?;
    closed.push(primary.close()?)?;
    closed.push(backup.close()?)?;
    Ok(closed)
}

/// What they leave, once this had come to them.
fn left_after<A: Actor>(
    alloc: Global,
    came: Result<(), Fail>,
    three: Three<A>,
) -> Result<Vec<Closed<A>>, Fail> {
    came?;
    left_by(alloc, three)
}

/// Who gets an answer by an envelope.
fn told(letter: &Envelope<Book>) -> Option<(u16, Reply)> {
    match &letter.msg {
        MsgOf::Reply(msg) => Some((letter.to, msg.reply)),
        _ => None,
    }
}

/// The operator hears of a run that settled nothing.
fn is_answered<R: Abort + Wait + AllocGlobal, C: Fresh>(
    rt: &R,
    three: &mut Three<PartyOf<C>>,
) -> Result<(), Fail> {
    assert_eq!(rt; three.answer(rt, asks())?, Some((0, Reply::Settled(0))));
    Ok(())
}

/// What the three leave of whom the operator was answered.
pub fn answered<R: Abort + Wait + AllocGlobal, C: Fresh>(
    rt: &R,
) -> Result<Vec<Closed<PartyOf<C>>>, Fail> {
    let mut three = open(rt.alloc())?;
    let came = is_answered(rt, &mut three);
    left_after(rt.alloc(), came, three)
}

#[test]
fn a_run_is_audited(rt: HostRuntime) -> Result<(), Fail> {
    are_judged(&rt, answered::<_, MemCell>(&rt), Finding::Yes)?;
    are_judged(&rt, answered::<_, Filed>(&rt), Finding::Yes)
}

#[test]
fn a_missing_sender_is_told(rt: HostRuntime) -> Result<(), Fail> {
    let told = Finding::No {
        actor: 200,
        event: 2,
        why: AuditTest::Stamped,
    };
    are_judged(&rt, without_last(answered::<_, MemCell>(&rt)), told)?;
    are_judged(&rt, without_last(answered::<_, Filed>(&rt)), told)
}

/// An actor takes four beats of a site.
fn takes_beats<R: Wait + AllocGlobal, C: Fresh>(
    rt: &R,
    place: &mut Place<PartyOf<C>>,
) -> Result<(), Fail> {
    for _ in 0..4 {
        place.take(rt, beat())?;
    }
    Ok(())
}

/// The primary beats four times, takes what the operator asks, and beats four times more.
fn goes_unheard<R: Wait + AllocGlobal, C: Fresh>(
    rt: &R,
    three: &mut Three<PartyOf<C>>,
) -> Result<(), Fail> {
    takes_beats(rt, &mut three.primary)?;
    let_go(three.prepare(rt, asks()))?;
    takes_beats(rt, &mut three.primary)
}

/// What the three leave of whom the primary did so, and the backup took nothing.
pub fn unheard<R: Wait + AllocGlobal, C: Fresh>(rt: &R) -> Result<Vec<Closed<PartyOf<C>>>, Fail> {
    let mut three = open(rt.alloc())?;
    let came = goes_unheard(rt, &mut three);
    left_after(rt.alloc(), came, three)
}

/// The backup takes a beat of the primary under a stamp with a place that no envelope has.
fn mistakes<R: Wait + AllocGlobal, C: Fresh>(
    rt: &R,
    three: &mut Three<PartyOf<C>>,
) -> Result<(), Fail> {
    let beat = three.primary.post(rt, beat(), None);
    let_go(three.backup.deliver_as(rt, 200, beat, 9))
}

/// What the three leave of whom the backup did so.
fn mistaken<R: Wait + AllocGlobal, C: Fresh>(rt: &R) -> Result<Vec<Closed<PartyOf<C>>>, Fail> {
    let mut three = open(rt.alloc())?;
    let came = mistakes(rt, &mut three);
    left_after(rt.alloc(), came, three)
}

/// A beat of the primary sends two envelopes, so none has the place 9 among them.
#[test]
fn a_stamp_that_names_nothing_is_told(rt: HostRuntime) -> Result<(), Fail> {
    let told = Finding::No {
        actor: 201,
        event: 1,
        why: AuditTest::Stamped,
    };
    are_judged(&rt, mistaken::<_, MemCell>(&rt), told)?;
    are_judged(&rt, mistaken::<_, Filed>(&rt), told)
}

/// It came out as a stray.
fn is_stray<R: Abort>(rt: &R, came: Result<(u64, PartyOutcome), Fail>) -> Result<(), Fail> {
    let (_, outcome) = came?;
    assert!(rt; matches!(&outcome, PartyOutcome::Stray));
    Ok(())
}

/// It came out as what a node took.
fn is_of_node<R: Abort>(rt: &R, came: Result<(u64, PartyOutcome), Fail>) -> Result<(), Fail> {
    let (_, outcome) = came?;
    assert!(rt; matches!(&outcome, PartyOutcome::OfNode(Ok(_))));
    Ok(())
}

/// An actor takes this as a stray.
fn strays<R: Abort + Wait + AllocGlobal>(
    rt: &R,
    place: &mut Place<Party>,
    event: PartyEvent,
) -> Result<(), Fail> {
    is_stray(rt, place.post(rt, event, None))
}

/// A client's beat comes to a node as a stray, and then its own, which is none.
fn beat_node<R: Abort + Wait + AllocGlobal>(rt: &R, node: &mut Place<Party>) -> Result<(), Fail> {
    strays(rt, node, PartyEvent::OfClient(ClientEvent::Beats))?;
    is_of_node(
        rt,
        node.post(rt, PartyEvent::OfNode(NodeEvent::Beats), None),
    )
}

/// What the operator left to whom a site's timer came.
fn stray_operator<R: Abort + Wait + AllocGlobal>(rt: &R) -> Result<Closed<Party>, Fail> {
    let mut operator = Place::client(rt.alloc())?;
    let came = strays(rt, &mut operator, PartyEvent::OfSite(EventOf::Timer));
    close_after(came, operator)
}

/// What a node left to which a client's beat came, and then its own.
fn stray_node<R: Abort + Wait + AllocGlobal>(rt: &R) -> Result<Closed<Party>, Fail> {
    let mut node = Place::node(rt.alloc())?;
    let came = beat_node(rt, &mut node);
    close_after(came, node)
}

fn put_strays<R: Abort + Wait + AllocGlobal>(
    rt: &R,
    both: &mut Vec<Closed<Party>>,
) -> Result<(), Fail> {
    add(both, stray_operator(rt))?;
    add(both, stray_node(rt))
}

/// What both left.
fn stray_both<R: Abort + Wait + AllocGlobal>(rt: &R) -> Result<Vec<Closed<Party>>, Fail> {
    let mut both = Vec::new(rt.alloc());
    let came = put_strays(rt, &mut both);
    after(came, both)
}

#[test]
fn strays_do_nothing(rt: HostRuntime) -> Result<(), Fail> {
    are_judged(&rt, stray_both(&rt), Finding::Yes)
}

/// A beat of the primary comes to the operator, as a stray.
fn beat_strays<R: Abort + Wait + AllocGlobal>(
    rt: &R,
    three: &mut Three<Party>,
) -> Result<(), Fail> {
    let beat = three.primary.post(rt, beat(), None);
    is_stray(rt, three.operator.deliver(rt, 200, beat))
}

/// What the three leave of whom the operator took that.
fn strayed<R: Abort + Wait + AllocGlobal>(rt: &R) -> Result<Vec<Closed<Party>>, Fail> {
    let mut three = open(rt.alloc())?;
    let came = beat_strays(rt, &mut three);
    left_after(rt.alloc(), came, three)
}

/// A beat of the primary goes to a backup: at the operator it is a stray, and no delivery that a run has.
#[test]
fn an_envelope_to_a_site_comes_to_no_client(rt: HostRuntime) -> Result<(), Fail> {
    let told = Finding::No {
        actor: 0,
        event: 1,
        why: AuditTest::Stamped,
    };
    are_judged(&rt, strayed(&rt), told)
}

/// The envelope that an actor sent first.
fn letter_of<A: Served>(alloc: Global, came: CameTo<A>) -> Result<Envelope<Book>, Fail> {
    let (_, outcome) = came?;
    first_letter::<A>(alloc, &outcome)
}

/// The envelope that a node sends of a pay-in.
fn pays_in<R: Wait + AllocGlobal>(rt: &R, node: &mut Place<Party>) -> Result<Envelope<Book>, Fail> {
    let pays = NodeEvent::PaysIn { member: 1, amt: 5 };
    let paid = node.post(rt, PartyEvent::OfNode(pays), None);
    letter_of::<Party>(rt.alloc(), paid)
}

/// A node takes the envelope that it sent of a pay-in.
fn takes_its_own<R: Wait + AllocGlobal>(rt: &R, node: &mut Place<Party>) -> Result<(), Fail> {
    let envelope = pays_in(rt, node)?;
    node.take(rt, PartyEvent::OfNode(NodeEvent::Takes(envelope)))
}

fn node_takes_each<R: Wait + AllocGlobal>(rt: &R, node: &mut Place<Party>) -> Result<(), Fail> {
    takes_its_own(rt, node)?;
    node.take(rt, PartyEvent::OfNode(NodeEvent::Closes(1)))?;
    node.take(rt, PartyEvent::OfNode(NodeEvent::Beats))
}

/// Each kind of event is taken and recorded: a pay-in, an envelope, a closed account and a beat at a node.
#[test]
fn a_node_takes_each_kind_of_event(rt: HostRuntime) -> Result<(), Fail> {
    node_takes_each(&rt, &mut Place::node(rt.alloc())?)
}

fn site_takes_each<R: Wait + AllocGlobal>(rt: &R, site: &mut Place<Party>) -> Result<(), Fail> {
    site.take(rt, PartyEvent::OfSite(EventOf::Beat))?;
    site.take(rt, PartyEvent::OfSite(EventOf::Timer))?;
    site.take(rt, PartyEvent::OfSite(EventOf::Crash))?;
    site.take(rt, PartyEvent::OfSite(EventOf::Restart))
}

/// A new backup takes each.
fn backup_takes_each<R: Wait + AllocGlobal>(rt: &R) -> Result<(), Fail> {
    site_takes_each(rt, &mut Place::site(rt.alloc(), 1)?)
}

/// A new operator takes a beat.
fn operator_takes_each<R: Wait + AllocGlobal>(rt: &R) -> Result<(), Fail> {
    Place::<Party>::client(rt.alloc())?.take(rt, PartyEvent::OfClient(ClientEvent::Beats))
}

/// A beat, a timer, a crash and a restart at a site, and a beat of a client. Their envelopes and requests go in the runs above.
#[test]
fn a_site_and_a_client_take_each_kind_of_event(rt: HostRuntime) -> Result<(), Fail> {
    backup_takes_each(&rt)?;
    operator_takes_each(&rt)
}
