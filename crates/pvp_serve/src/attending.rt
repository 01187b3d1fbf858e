//! What a loop does with what comes.
ghost use Rattle.std.specs.Prelude.{◌≡◌, IfOk};
ghost use Rattle.pvp_journal.specs.Rooms.{bank_texts};
ghost use Rattle.pvp_serve.specs.Attending.{DeskTakes, sifted_for};
ghost use Rattle.pvp_serve.specs.Desks.{IsElseAsAfter};
ghost use Rattle.pvp_serve.specs.Serving.{IsSafeIn};

use crate::desk::TerminalDesk;
use crate::host::Host;
use crate::inbox::Inbox;
use crate::lanes::Lanes;
use crate::serving::{Serving, Standing};
use crate::site::SiteDesk;
use pvp_journal::Log;
use pvp_parties::PartyOf;
use pvp_places::ServeFault;
use pvp_rooms::Actor;
use std::alloc::Global;
use vr_types::BootCell;

/// What decides of each item what becomes of it, by the kind of the actor.
#[derive(Drop)]
pub enum Desk {
    Site(SiteDesk),
    /// Of a node or a client.
    Terminal(TerminalDesk),
}

impl Desk {
    /// Which of the items that wait are processed, which are for a site that was restarted so
    /// often, or for another actor.
    pub fn sift(
        &mut self,
        alloc: Global,
        nonce: u32,
        items: Vec<Inbox>,
    ) -> Result<Vec<Inbox>, ServeFault>
        ensures { IfOk result (λ kept. kept.items ≡ sifted_for self.old nonce items.items) }
    {
        match self {
            Desk::Site(desk) => desk.sift(alloc, nonce, items),
            Desk::Terminal(_) => Ok(items),
        }
    }

    /// Takes what came. `false` where the process is to end.
    pub fn take<R: Host, C: BootCell, L: Log>(
        &mut self,
        rt: R,
        serving: &mut Serving<C, L, Lanes>,
        item: Inbox,
    ) -> Result<bool, ServeFault>
        ensures takes { DeskTakes ⟦<PartyOf<C> as Actor>⟧ bank_texts L.seen
            (IsSafeIn L.seen L.synced serving.old.syncs) C.held serving.old.me
            serving.old.out.all.items serving.old.lost item self.old self.new
            serving.old.room serving.new.room result }
        ensures rest { IsElseAsAfter item serving.old serving.new }
    {
        match self {
            Desk::Site(desk) => desk.take(rt, serving, item),
            Desk::Terminal(desk) => desk.take(rt, serving, item),
        }
    }

    /// Reports a site's status, where it has changed. Others report at once, as things come.
    pub fn tell<R: Host>(&mut self, rt: R, me: u16, standing: Option<Standing>) {
        if let Desk::Site(desk) = self {
            desk.tell(rt, me, standing);
        }
    }
}
