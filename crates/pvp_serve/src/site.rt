//! A site that is served.
ghost use Rattle.std.specs.Prelude.{◌≡◌, ◌+◌, ◌-◌, ◌^◌, ◌<◌, ◌&&◌, ◌||◌, if◌then◌else◌, length, min, not, None, IfOk, IfErr, OnOk};
ghost use Rattle.std.specs.List.{list_any};
ghost use Rattle.pvp_journal.specs.Rooms.{bank_texts};
ghost use Rattle.pvp_places.specs.declared.serving.ServeFault.TheVariants.{NoMemory};
ghost use Rattle.pvp_serve.specs.Admission.{flood_after, fresh_quota, quota_after};
ghost use Rattle.pvp_serve.specs.declared.inbox.Inbox.TheVariants.{Frame};
ghost use Rattle.pvp_serve.specs.Desks.{
  DoesOwn,
  IsElseAsAfter,
  after_envelope,
  asks_state,
  event_due,
  heard_actor,
  heard_from,
  is_end,
  is_outdated,
  is_passed_over,
  is_primary,
  lags,
  lanes_after,
  leads_now,
  log_len,
  look_in,
  look_of,
  missed_by,
  primary_of,
  serves_view,
  view_of,
};
ghost use Rattle.vr_types.specs.Actors.{id_of};
ghost use Rattle.vr_types.specs.Site.{is_running};
ghost use Rattle.pvp_serve.specs.Lanes.{is_stream, lanes_to_others, with_lane, without_lane};
ghost use Rattle.pvp_serve.specs.Serving.{Comes, lost_with, standing_in};
ghost use Rattle.pvp_serve.specs.Sifting.{sifted};
ghost use Rattle.pvp_serve.specs.Sites.{
  ComesUnless,
  DoesDue,
  IsTickedIf,
  KnowsTime,
  RoomTakes,
  SiteTakes,
  admission_in,
  after_meeting,
  flood_of_item,
  is_item_passed,
  is_passed_in,
  passed_with,
  quota_of_item,
  teller_after,
};
ghost use Rattle.pvp_serve.specs.Telling.{fresh_teller, stood_after};

use crate::admission::{Admission, Quota, admit, is_full_at};
use crate::host::Host;
use crate::inbox::Inbox;
use crate::lanes::{Lane, Lanes};
use crate::patience::{Due, Look, Patience};
use crate::serving::{Lost, Serving, Standing};
use crate::sifting::sift;
use crate::telling::Teller;
use pvp_book::Book;
use pvp_journal::Log;
use pvp_links::Arrival;
use pvp_parties::{PartyEvent, PartyOf};
use pvp_places::ServeFault;
use pvp_rooms::Actor;
use pvp_types::Setup;
use std::alloc::Global;
use vr_types::{ActorId, BootCell, Envelope, EventOf, Msg, MsgOf, Status};

/// What a site's loop keeps beside the site itself.
#[derive(Drop)]
pub struct SiteDesk {
    sites: u16,
    patience: Patience,
    teller: Teller,
    stays: bool,
    /// How many envelopes were lost as they were not admitted or out of date, or would have had it ask again for what may
    /// still come.
    passed: u64,
    /// What is counted of requests, and those that were lost in floods.
    quota: Quota,
    flood: Lost,
}

impl SiteDesk {
    /// That of a site of a bank of this setup with so many sites, which knows nothing of time yet but how long it waits.
    pub fn new(setup: Setup, sites: u16, patience: Patience, stays: bool) -> Self
        ensures { result ≡ record {
          sites = sites;
          patience = patience;
          teller = fresh_teller setup;
          stays = stays;
          passed = 0;
          quota = fresh_quota;
          flood = record { count = 0; last = None };
        } }
    {
        SiteDesk {
            sites,
            patience,
            teller: Teller::new(setup),
            stays,
            passed: 0,
            quota: Quota::new(),
            flood: Lost {
                count: 0,
                last: None,
            },
        }
    }

    /// Which of the items that wait are processed, for a site that was restarted so often.
    pub fn sift(
        &mut self,
        alloc: Global,
        nonce: u32,
        items: Vec<Inbox>,
    ) -> Result<Vec<Inbox>, ServeFault>
        ensures kept { IfOk result (λ kept. kept.items ≡ sifted nonce items.items) }
        ensures counts { IfOk result (λ kept. self.new ≡ record self.old {
          passed = min (self.old.passed + (length items.items - length kept.items)) (2 ^ 64 - 1);
        }) }
        ensures refused { IfErr result (λ fault. (fault ≡ NoMemory) × (self.new ≡ self.old)) }
    {
        let count = items.len();
        let Ok(kept) = sift(alloc, nonce, items) else {
            return Err(ServeFault::NoMemory);
        };
        let gone = count.saturating_sub(kept.len());
        self.passed = self.passed.saturating_add(gone as u64);
        Ok(kept)
    }

    /// Takes an envelope, unless it is passed over. Only what serves the view counts as heard of the primary: one that asks
    /// for what it lost does not serve it.
    fn take_frame<R: Host, C: BootCell, L: Log>(
        &mut self,
        rt: R,
        serving: &mut Serving<C, L, Lanes>,
        arrival: Arrival,
        latest: u64,
    ) -> Result<(), ServeFault>
        ensures comes { ComesUnless ⟦<PartyOf<C> as Actor>⟧ bank_texts L.seen
            (is_passed_in C.held self.old serving.old.me serving.old.room
            arrival.stamped.envelope) latest arrival.stamped
            serving.old.room serving.new.room result }
        ensures heard { self.new ≡ record self.old {
          patience = after_envelope self.old.sites (standing_in serving.old.room)
              arrival.stamped.envelope self.old.patience;
          passed = passed_with (is_passed_in C.held self.old serving.old.me serving.old.room
              arrival.stamped.envelope) self.old.passed;
          quota = quota_of_item C.held self.old serving.old.me serving.old.room
              (Frame arrival latest);
          flood = flood_of_item C.held self.old serving.old.me serving.old.room
              (Frame arrival latest);
        } }
        ensures rest { serving.new ≡ record serving.old {
          room = serving.new.room;
          lost = lost_with latest arrival.stamped.stamp serving.old.lost;
        } }
    {
        let admission = self.admits(rt, serving, &arrival);
        let standing = serving.standing();
        if self.attends(admission, standing, &arrival.stamped_envelope().envelope) {
            let _is_far = serving.counts(arrival.stamped_envelope().stamp, latest);
            return Ok(());
        }
        serving.take_frame(rt.alloc(), arrival, latest)
    }

    /// What becomes of an envelope at the door. Who comes into the reserve hears that the log is
    /// full before it has its answer, so that it asks for nothing that would wait for ever.
    fn admits<R: Host, C: BootCell, L: Log>(
        &self,
        rt: R,
        serving: &Serving<C, L, Lanes>,
        arrival: &Arrival,
    ) -> Admission
        ensures { result ≡ admission_in C.held self.now serving.now.me serving.now.room
            arrival.now.stamped.envelope }
    {
        let admission = self.admission(serving, &arrival.stamped_envelope().envelope);
        if admission == Admission::Late {
            serving.out().ping(&rt, rt.alloc(), arrival.peer());
        }
        admission
    }

    /// What becomes of an envelope at the door.
    fn admission<C: BootCell, L: Log>(
        &self,
        serving: &Serving<C, L, Lanes>,
        envelope: &Envelope<Book>,
    ) -> Admission
        ensures { result ≡ admission_in C.held self.now serving.now.me serving.now.room
            envelope.now }
    {
        let who = ActorId::of(envelope.from);
        if let ActorId::Site(_) = who {
            return Admission::Takes;
        }
        if !leads_now(self.sites, serving.me(), serving.standing()) {
            return Admission::Loses;
        }
        let (MsgOf::Request(request), Some(seen)) = (&envelope.msg, serving.seen_of(envelope.from))
        else {
            return Admission::Loses;
        };
        let counts = self.quota.counts(envelope.from);
        let members = self.teller.members();
        admit(who, members, seen, counts, request.number, request.cmd)
    }

    /// An envelope came, which is admitted or not. Answers whether it is passed over.
    fn attends(
        &mut self,
        admission: Admission,
        standing: Option<Standing>,
        envelope: &Envelope<Book>,
    ) -> bool
        ensures passes { result ≡ is_passed_over admission self.old.sites standing
            self.old.patience envelope.now }
        ensures after { self.new ≡ record self.old {
          patience = after_envelope self.old.sites standing envelope.now self.old.patience;
          passed = passed_with (is_passed_over admission self.old.sites standing
              self.old.patience envelope.now) self.old.passed;
          quota = quota_after admission envelope.now.from self.old.quota;
          flood = flood_after admission envelope.now.from self.old.flood;
        } }
    {
        self.quota.notes(admission, envelope.from);
        self.flood = admission.flood_after(envelope.from, self.flood);
        let asks = asks_state(self.sites, standing, envelope);
        let may_ask = self.patience.may_ask();
        self.regards(standing, envelope);
        if asks && may_ask {
            self.patience.asks(log_len(standing));
        }
        let passes = admission.is_shut()
            || is_outdated(standing, &envelope.msg)
            || asks && !may_ask;
        if passes {
            self.passed = self.passed.saturating_add(1);
        }
        passes
    }

    /// The sender of an envelope is heard, and a primary by which it serves its view.
    fn regards(&mut self, standing: Option<Standing>, envelope: &Envelope<Book>)
        ensures { self.new ≡ record self.old {
          patience = heard_from
              (serves_view envelope.now.msg
              && is_primary standing self.old.sites envelope.now.from)
              (heard_actor (id_of envelope.now.from) envelope.now.from self.old.patience);
        } }
    {
        if let ActorId::Site(_) = ActorId::of(envelope.from) {
            self.patience.hears_site(envelope.from);
        }
        if serves_view(&envelope.msg) && is_primary(standing, self.sites, envelope.from) {
            self.patience.hears();
        }
    }

    /// An actor serves its view.
    fn hears(&mut self, standing: Option<Standing>, peer: u16)
        ensures { self.new ≡ record self.old {
          patience = heard_from (is_primary standing self.old.sites peer)
              (heard_actor (id_of peer) peer self.old.patience);
        } }
    {
        if let ActorId::Site(_) = ActorId::of(peer) {
            self.patience.hears_site(peer);
        }
        if is_primary(standing, self.sites, peer) {
            self.patience.hears();
        }
    }

    /// A stream has ended.
    fn loses<C: BootCell, L: Log>(
        &mut self,
        serving: &mut Serving<C, L, Lanes>,
        peer: u16,
        stream: u64,
    )
        ensures lanes { serving.new.out.all.items
            ≡ without_lane peer stream serving.old.out.all.items }
        ensures serving { serving.new ≡ record serving.old { out = serving.new.out } }
        ensures patience { self.new ≡ record self.old {
          patience = missed_by
              (list_any (is_stream peer stream) serving.old.out.all.items
              && is_primary (standing_in serving.old.room) self.old.sites peer)
              self.old.patience;
        } }
    {
        let stood = serving.out_mut().loses(peer, stream);
        if stood && is_primary(serving.standing(), self.sites, peer) {
            self.patience.misses();
        }
    }

    /// The primary of a normal view reports a full log to clients and nodes, by a ping.
    fn tell_full<R: Host, C: BootCell, L: Log>(&self, rt: R, serving: &Serving<C, L, Lanes>) {
        let standing = serving.standing();
        if leads_now(self.sites, serving.me(), standing) && is_full_at(log_len(standing)) {
            serving.out().ping_others(&rt, rt.alloc());
        }
    }

    /// A tick goes by.
    fn tick<R: Host, C: BootCell, L: Log>(
        &mut self,
        rt: R,
        serving: &mut Serving<C, L, Lanes>,
    ) -> Result<(), ServeFault>
        ensures ticks { IsTickedIf (look_in C.held self.old.sites serving.old.me serving.old.room)
            self.old.patience self.new.patience }
        ensures does { DoesDue ⟦<PartyOf<C> as Actor>⟧ bank_texts L.seen
            (look_in C.held self.old.sites serving.old.me serving.old.room) self.old.patience
            serving.old.room serving.new.room result }
        ensures desk { self.new ≡ record self.old { patience = self.new.patience } }
        ensures rest { serving.new ≡ record serving.old { room = serving.new.room } }
    {
        let Some(look) = look_at(serving, self.sites) else {
            return Ok(());
        };
        let due = self.patience.tick(look);
        if due == Due::Timer {
            self.patience.draws(random_byte(rt));
        }
        do_due(rt, serving, due)
    }

    /// Takes what came.
    fn handle<R: Host, C: BootCell, L: Log>(
        &mut self,
        rt: R,
        serving: &mut Serving<C, L, Lanes>,
        item: Inbox,
    ) -> Result<(), ServeFault>
        ensures room { RoomTakes ⟦<PartyOf<C> as Actor>⟧ bank_texts L.seen C.held serving.old.me
            self.old item serving.old.room serving.new.room result }
        ensures time { KnowsTime C.held self.old.sites serving.old.me serving.old.room
            serving.old.out.all.items item self.old.patience self.new.patience }
        ensures streams { OnOk result (serving.new.out.all.items
            ≡ lanes_after item serving.old.out.all.items) }
        ensures desk { self.new ≡ record self.old {
          patience = self.new.patience;
          teller = teller_after item serving.old.lost self.old.flood self.old.teller;
          passed = passed_with (is_item_passed C.held self.old serving.old.me
              serving.old.room item) self.old.passed;
          quota = quota_of_item C.held self.old serving.old.me serving.old.room item;
          flood = flood_of_item C.held self.old serving.old.me serving.old.room item;
        } }
        ensures rest { IsElseAsAfter item serving.old serving.new }
    {
        match item {
            Inbox::Frame(arrival, latest) => self.take_frame(rt, serving, arrival, latest),
            Inbox::Tick => {
                self.teller
                    .ticks(rt, serving.me(), serving.lost(), self.flood, self.passed);
                self.quota.tick();
                self.tell_full(rt, serving);
                self.tick(rt, serving)
            }
            Inbox::Came(lane) => self.meets(serving, lane),
            Inbox::Ping(peer) => {
                self.hears(serving.standing(), peer);
                Ok(())
            }
            Inbox::Gone { peer, stream, end } => {
                self.teller.ends(rt, serving.me(), peer, end);
                self.loses(serving, peer, stream);
                Ok(())
            }
            Inbox::Away(who) => {
                self.teller.turns_away(who);
                Ok(())
            }
            Inbox::Line(text) => {
                self.answers(rt, serving, text.as_slice());
                Ok(())
            }
            Inbox::Unshown { peer, why } => {
                self.teller.tells_unshown(rt, serving.me(), peer, why);
                Ok(())
            }
            Inbox::Look(_) | Inbox::End => Ok(()),
        }
    }

    /// A line came, which may ask for the site's status.
    fn answers<R: Host, C: BootCell, L: Log>(
        &self,
        rt: R,
        serving: &Serving<C, L, Lanes>,
        line: &[u8],
    ) {
        if line == b"status".as_slice() {
            self.teller
                .answers(rt, serving.standing(), serving.out().all());
        }
    }

    /// A stream stands.
    fn meets<C: BootCell, L: Log>(
        &mut self,
        serving: &mut Serving<C, L, Lanes>,
        lane: Lane,
    ) -> Result<(), ServeFault>
        ensures lanes { OnOk result (serving.new.out.all.items
            ≡ with_lane lane serving.old.out.all.items) }
        ensures refused { IfErr result (λ fault. (fault ≡ NoMemory) × (serving.new.out.all.items
            ≡ lanes_to_others lane.peer serving.old.out.all.items)) }
        ensures patience { self.new
            ≡ record self.old { patience = after_meeting lane.peer self.old.patience } }
        ensures serving { serving.new ≡ record serving.old { out = serving.new.out } }
    {
        let is_site = matches!(ActorId::of(lane.peer), ActorId::Site(_));
        self.patience.meets(is_site);
        serving.out_mut().meets(lane)
    }

    /// Takes what came. `false` where the process is to end.
    pub fn take<R: Host, C: BootCell, L: Log>(
        &mut self,
        rt: R,
        serving: &mut Serving<C, L, Lanes>,
        item: Inbox,
    ) -> Result<bool, ServeFault>
        ensures takes { SiteTakes ⟦<PartyOf<C> as Actor>⟧ bank_texts L.seen C.held serving.old.me
            serving.old.out.all.items serving.old.lost item self.old self.new
            serving.old.room serving.new.room result }
        ensures streams { OnOk result (serving.new.out.all.items
            ≡ lanes_after item serving.old.out.all.items) }
        ensures rest { IsElseAsAfter item serving.old serving.new }
    {
        let goes_on = self.stays || !is_end(&item);
        self.handle(rt, serving, item)?;
        Ok(goes_on)
    }

    /// Reports the site's status on standard error, where it has changed.
    pub fn tell<R: Host>(&mut self, rt: R, me: u16, standing: Option<Standing>)
        ensures { self.new ≡ record self.old {
          teller = record self.old.teller {
            stood = stood_after standing self.old.teller.stood;
          };
        } }
    {
        self.teller.stands(rt, me, standing);
    }
}

/// Whether a site is the primary of a normal view.
fn leads_now(sites: u16, me: u16, standing: Option<Standing>) -> bool
    ensures { result ≡ leads_now sites me standing }
{
    match standing {
        Some(standing) => {
            matches!(standing.status, Status::Normal) && primary_of(standing.view, sites) == me
        }
        None => false,
    }
}

/// The view of which a message is, where it is of one.
fn view_of(msg: &Msg<Book>) -> Option<u32>
    ensures { result ≡ view_of msg.now }
{
    match msg {
        MsgOf::Prepare(prepare) => Some(prepare.view),
        MsgOf::PrepareOk(ok) => Some(ok.view),
        MsgOf::Commit(commit) => Some(commit.view),
        MsgOf::StartViewChange(change) => Some(change.view),
        MsgOf::DoViewChange(change) => Some(change.view),
        MsgOf::StartView(opening) => Some(opening.view),
        MsgOf::GetState(wanted) => Some(wanted.view),
        MsgOf::NewState(state) => Some(state.view),
        _ => None,
    }
}

/// Whether a message is out of date: of a view below that of a site that runs.
fn is_outdated(standing: Option<Standing>, msg: &Msg<Book>) -> bool
    ensures { result ≡ is_outdated standing msg.now }
{
    let (Some(standing), Some(view)) = (standing, view_of(msg)) else {
        return false;
    };
    is_running(standing.status) && view < standing.view
}

fn is_running(status: Status) -> bool
    ensures { result ≡ is_running status }
{
    matches!(status, Status::Normal | Status::Change)
}

/// Whether a message has a site ask for the state: by a PREPARE or a COMMIT it learns that it lags behind.
fn asks_state(sites: u16, standing: Option<Standing>, envelope: &Envelope<Book>) -> bool
    ensures { result ≡ asks_state sites standing envelope.now }
{
    let Some(standing) = standing else {
        return false;
    };
    match &envelope.msg {
        MsgOf::Prepare(prepare) => {
            let lacks = standing.log.saturating_add(1) < usize::from(prepare.place);
            lags(sites, standing, envelope.from, prepare.view, lacks)
        }
        MsgOf::Commit(commit) => {
            let lacks = standing.log < usize::from(commit.done);
            lags(sites, standing, envelope.from, commit.view, lacks)
        }
        _ => false,
    }
}

/// Whether a site that runs lags behind what an actor says of a view, whose primary it is: it is not in that view yet, or
/// lacks a row in it.
fn lags(sites: u16, standing: Standing, from: u16, view: u32, lacks: bool) -> bool
    ensures { result ≡ lags sites standing from view lacks }
{
    let is_behind = matches!(standing.status, Status::Change) || lacks;
    is_running(standing.status)
        && primary_of(view, sites) == from
        && (standing.view < view || view == standing.view && is_behind)
}

/// How many rows the log of a site has.
fn log_len(standing: Option<Standing>) -> usize
    ensures { result ≡ log_len standing }
{
    match standing {
        Some(standing) => standing.log,
        None => 0,
    }
}

/// Does what is due at a tick.
fn do_due<R: Host, C: BootCell, L: Log>(
    rt: R,
    serving: &mut Serving<C, L, Lanes>,
    due: Due,
) -> Result<(), ServeFault>
    ensures does { DoesOwn ⟦<PartyOf<C> as Actor>⟧ bank_texts L.seen (event_due due)
        serving.old.room serving.new.room result }
    ensures rest { serving.new ≡ record serving.old { room = serving.new.room } }
{
    match due {
        Due::Nothing => Ok(()),
        Due::Restart => serving.take_event(rt.alloc(), PartyEvent::OfSite(EventOf::Restart)),
        Due::Beat => serving.take_event(rt.alloc(), PartyEvent::OfSite(EventOf::Beat)),
        Due::Ping => {
            serving.out().ping_sites(&rt, rt.alloc());
            Ok(())
        }
        Due::Timer => serving.take_event(rt.alloc(), PartyEvent::OfSite(EventOf::Timer)),
    }
}

/// Whether a message is one by which a primary serves its view.
fn serves_view(msg: &Msg<Book>) -> bool
    ensures { result ≡ serves_view msg.now }
{
    matches!(
        msg,
        MsgOf::Prepare(_) | MsgOf::Commit(_) | MsgOf::StartView(_) | MsgOf::NewState(_)
    )
}

/// Whether the terminal has ended.
fn is_end(item: &Inbox) -> bool
    ensures { result ≡ is_end item.now }
{
    matches!(item, Inbox::End)
}

/// The site, as its timers see it.
fn look_at<C: BootCell, L: Log>(serving: &Serving<C, L, Lanes>, sites: u16) -> Option<Look>
    ensures { result ≡ look_in C.held sites serving.now.me serving.now.room }
{
    let Some(standing) = serving.standing() else {
        return None;
    };
    Some(look_of(serving.has_orders(), sites, serving.me(), standing))
}

/// A site of this number that stands so, and holds orders or not, as its timers see it.
fn look_of(has_orders: bool, sites: u16, me: u16, standing: Standing) -> Look
    ensures { result ≡ look_of has_orders sites me standing }
{
    let primary = primary_of(standing.view, sites);
    Look {
        status: standing.status,
        view: standing.view,
        primary,
        is_primary: primary == me,
        log: standing.log,
        done: standing.done,
        owes: has_orders || standing.log > standing.done,
    }
}

/// Whether an actor is the primary of the view in which a site stands.
fn is_primary(standing: Option<Standing>, sites: u16, actor: u16) -> bool
    ensures { result ≡ is_primary standing sites actor }
{
    match standing {
        Some(standing) => primary_of(standing.view, sites) == actor,
        None => false,
    }
}

/// The primary of a view, as an actor.
fn primary_of(view: u32, sites: u16) -> u16
    ensures { result ≡ primary_of view sites }
{
    match view.checked_rem(u32::from(sites)) {
        Some(site) => ActorId::Site(site as u16).number(),
        None => 0,
    }
}

/// A number from 0 to 255, drawn anew.
fn random_byte<R: Host>(rt: R) -> u8
    ensures { result < 256 }
{
    let mut bytes = [0u8; 1];
    let _drawn = rt.fill_bytes(&mut bytes);
    bytes[0]
}
