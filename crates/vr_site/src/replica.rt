//! A site of a replicated machine, over its boot cell: the one call that handles an event, and what can be read of it.
ghost use Rattle.std.specs.Prelude.{◌≡◌, ◌≢◌, ◌+◌, ◌-◌, ◌==◌, ◌&&◌, not, ◌⊎◌, [], List, All, IfOk, OnOk, IfErr, OnErr, IsOk, IsErrOf, Some, None, true, length, slice_get, IsSome, IfSome, ◌↔◌, if◌then◌else◌, take};
ghost use Rattle.vr_types.specs.declared.cell.Boot.{Boot};
ghost use Rattle.vr_types.specs.declared.event.EventOf.{EventOf as AnyEvent};
ghost use Rattle.vr_types.specs.Choice.{Choice, IsRight};
ghost use Rattle.vr_types.specs.Handling.{machine_of};
ghost use Rattle.vr_types.specs.Cell.{HasRisen, max_number};
ghost use Rattle.vr_types.specs.Rows.{newest};
ghost use Rattle.vr_types.specs.Site.{Ack, boot_of, is_down, is_recovering, is_running, no_boots, over};
ghost use Rattle.vr_types.specs.Group.{is_mine as is_addressed};
ghost use Rattle.vr_log.specs.declared.running.Running.{Running as AnyRunning};
ghost use Rattle.vr_log.specs.Running.{IsSound, IsRunning, SumUp, site_of};
ghost use Rattle.vr_recover.specs.declared.recovering.RecoveringOf.{RecoveringOf};
ghost use Rattle.vr_recover.specs.Progress.{IsSoundProgress};
ghost use Rattle.vr_recover.specs.Recovering.{IsSoundRecovering};
ghost use Rattle.vr_site.specs.Life.{lost, awaiting, running_volatile};

use crate::addressing::is_mine;
use crate::life::Life;
use crate::serving;
use crate::waiting::await_state;
use std::alloc::{AllocError, Global};
use std::marker::Model;
use std::mem;
use vr_log::Running;
use vr_log::send::{dropped, silent};
use vr_recover::{Progress, Recovering, ask_all, regain, restarted};
use vr_types::{
    Boot, BootCell, Config, Envelope, Event, EventOf, Known, Machine, Outcome, Row, RowsOf,
    SiteFault, StateOf, Status, Why,
};

/// One site of a replicated machine, over a cell that outlives its crashes.
#[derive(Drop)]
pub struct Replica<M: Machine, C: BootCell> {
    config: Config,
    /// What the machine is made from, also after a restart.
    setup: M::Setup,
    cell: C,
    life: Life<M>,
}

impl<M: Machine, C: BootCell> Model for Replica<M, C> {
    ghost use Rattle.vr_site.specs.Life.{IsWell};
    ghost use Rattle.vr_site.specs.Replica.{ShownSite, shown};

    ghost Value = { ShownSite M.Cmd M.Setup C };

    ghost view = { λ a. shown a.config.f a.config.me a.setup a.cell a.life };

    ghost invariant = { λ a. M.admits a.setup × IsWell M.Machine
        (M.start a.setup) a.config.f a.life };
}

impl<M: Machine, C: BootCell> Replica<M, C> {
    ghost use Rattle.vr_types.specs.Handling.{refusal, site_step};
    ghost use Rattle.vr_types.specs.Saved.{IsSavedFor};
    ghost use Rattle.vr_types.specs.Site.{opening_site};
    ghost use Rattle.vr_types.specs.Step.{Dropped};
    ghost use Rattle.vr_site.specs.Replica.{site_shown, with_cell, KeepsPlace, Falls, Handles, Serves, Awaits};

    /// A site over a cell: over a new cell it is normal in view 0 with an empty log, over any other it is down. `Err`
    /// where memory is refused.
    pub fn new(alloc: Global, config: Config, setup: M::Setup, cell: C) -> Result<Self, AllocError>
        requires { M.admits setup }
        ensures parts { IfOk result (λ site. (site.f ≡ config.f) × (site.me ≡ config.me)
            × (site.setup ≡ setup) × (site.cell ≡ cell)) }
        ensures acked { IfOk result (λ site. SumUp site.volatile.acked []) }
        ensures site { IfOk result (λ site. site_shown C.held site []
            ≡ opening_site config.f (C.held cell)) }
    {
        if !cell.load().is_new() {
            return Ok(Replica {
                config,
                setup,
                cell,
                life: Life::Down,
            });
        }
        let running = Box::new(alloc, first(alloc, config, &setup)?)?;
        Ok(Replica {
            config,
            setup,
            cell,
            life: Life::Up(running),
        })
    }

    /// The same site over another cell, which holds what the present one holds.
    pub fn over<D: BootCell>(self, cell: D) -> Replica<M, D>
        requires { D.held cell ≡ C.held self.cell }
        ensures is { result ≡ with_cell self cell }
        ensures site { (acks : List Ack) →
            site_shown D.held result acks ≡ site_shown C.held self acks }
    {
        Replica {
            config: self.config,
            setup: self.setup,
            cell,
            life: self.life,
        }
    }

    /// Handles an event: takes the site's step, and answers the envelopes that it sends, in order, or why the event is
    /// dropped. The nonce of a RECOVERY was saved before it is sent.
    ///
    /// `NotUp`, `AlreadyUp`, `ViewsSpent`, `BootsSpent` and `NotMine` are answered exactly where the site refuses the
    /// event, which then changes nothing. `NoMemory` and `CellFault` leave the site down with nothing sent; the cell
    /// holds the old value, or the one that the event saves. A restart alone saves, once; after any other event the cell
    /// is as it was. A crash, and an event that is dropped, take no memory.
    pub fn handle(&mut self, alloc: Global, event: Event<M>) -> Result<Outcome<M>, SiteFault>
        // The step, the refusals and the falls.
        ensures handles { Handles M.Machine C.BootCell self.old self.new event result }
        // Its place in the group stays, and so does what it was made from.
        ensures place { KeepsPlace self.old self.new }
        // A crash takes no memory, nor does an event that is dropped.
        ensures crash { event ≡ AnyEvent.Crash → self.old.volatile.status ≢ Status.Down →
            IsOk result }
        ensures dropped { (choose : Choice M.Cmd) (acks : List Ack) (why : Why) →
            IsRight self.old.f choose → SumUp self.old.volatile.acked acks →
            (site_step choose self.old.f self.old.me (site_shown C.held self.old acks) event).ending
            ≡ Dropped why → IsOk result }
        // Only a restart saves.
        ensures only_restart { event ≢ AnyEvent.Restart → self.new.cell ≡ self.old.cell }
        // The nonce of a RECOVERY was saved before.
        ensures saved_first { IfOk result
            (λ out. All (λ envelope. IsSavedFor (C.held self.new.cell) envelope.msg)
            out.sent.items) }
        // A cell's fault has a cause, and a save that failed is reported.
        ensures cause { IsErrOf result SiteFault.CellFault →
            HasRisen (C.faults self.old.cell) (C.faults self.new.cell) }
        ensures counted { result ≢ Err SiteFault.CellFault →
            C.faults self.new.cell ≡ C.faults self.old.cell }
        ensures reliable { C.is_reliable self.old.cell →
            C.is_reliable self.new.cell × (result ≢ Err SiteFault.CellFault) }
    {
        // What the site shows is of a sound life.
        let _ = &self.config;
        match event {
            EventOf::Deliver(envelope) => self.deliver(alloc, envelope),
            EventOf::Timer => self.timer(alloc),
            EventOf::Beat => self.beat(alloc),
            EventOf::Crash => self.crash(alloc),
            EventOf::Restart => self.restart(alloc),
        }
    }

    /// Takes a message.
    fn deliver(&mut self, alloc: Global, envelope: Envelope<M>) -> Result<Outcome<M>, SiteFault>
        ensures handles { Handles M.Machine C.BootCell self.old self.new
            (EventOf.Deliver envelope) result }
        ensures place { KeepsPlace self.old self.new }
        ensures cell { self.new.cell ≡ self.old.cell }
        ensures no_cell_fault { result ≢ Err SiteFault.CellFault }
    {
        if !is_mine(self.config, &envelope) {
            return Err(self.turned_away());
        }
        match mem::replace(&mut self.life, Life::Down) {
            Life::Down => Err(SiteFault::NotUp),
            Life::Recovering(recovering) => self.take_as_recovering(alloc, recovering, envelope),
            Life::Up(running) => self.take_as_running(alloc, running, envelope),
        }
    }

    /// Why an envelope that is not for this site is refused.
    fn turned_away(&self) -> SiteFault
        ensures { result ≡ (if is_down self.now.volatile.status then SiteFault.NotUp
            else SiteFault.NotMine) }
    {
        match &self.life {
            Life::Down => SiteFault::NotUp,
            _ => SiteFault::NotMine,
        }
    }

    /// Takes a message as the site with this running state.
    fn take_as_running(
        &mut self,
        alloc: Global,
        mut running: Box<Running<M>>,
        envelope: Envelope<M>,
    ) -> Result<Outcome<M>, SiteFault>
        requires down { self.old.volatile ≡ lost }
        requires sound { IsSound M.Machine (M.start self.old.setup) self.old.f running.value }
        requires mine { is_addressed self.old.f self.old.me envelope ≡ true }
        ensures handles { Handles M.Machine C.BootCell
            (record self.old { volatile = running_volatile running.value }) self.new
            (EventOf.Deliver envelope) result }
        ensures place { KeepsPlace self.old self.new }
        ensures cell { self.new.cell ≡ self.old.cell }
        ensures no_cell_fault { result ≢ Err SiteFault.CellFault }
    {
        let done = serving::serve(
            alloc,
            self.config,
            &mut *running,
            envelope.from,
            envelope.msg,
        );
        self.finish(running, done)
    }

    /// Takes a message as the site that recovers with this.
    fn take_as_recovering(
        &mut self,
        alloc: Global,
        mut recovering: Recovering<M>,
        envelope: Envelope<M>,
    ) -> Result<Outcome<M>, SiteFault>
        requires down { self.old.volatile ≡ lost }
        requires sound { IsSoundRecovering self.old.f recovering }
        requires admits { M.admits self.old.setup }
        requires mine { is_addressed self.old.f self.old.me envelope ≡ true }
        ensures handles { Handles M.Machine C.BootCell
            (record self.old { volatile = awaiting recovering }) self.new
            (EventOf.Deliver envelope) result }
        ensures place { KeepsPlace self.old self.new }
        ensures cell { self.new.cell ≡ self.old.cell }
        ensures no_cell_fault { result ≢ Err SiteFault.CellFault }
    {
        let boot = self.cell.load();
        let progress = await_state(
            alloc,
            self.config,
            &self.setup,
            boot,
            &mut recovering,
            envelope.from,
            envelope.msg,
        );
        self.proceed(alloc, recovering, progress)
    }

    /// The site changes to the next view.
    fn timer(&mut self, alloc: Global) -> Result<Outcome<M>, SiteFault>
        ensures handles { Handles M.Machine C.BootCell self.old self.new EventOf.Timer result }
        ensures place { KeepsPlace self.old self.new }
        ensures cell { self.new.cell ≡ self.old.cell }
        ensures no_cell_fault { result ≢ Err SiteFault.CellFault }
    {
        match mem::replace(&mut self.life, Life::Down) {
            Life::Down => Err(SiteFault::NotUp),
            Life::Recovering(recovering) => {
                self.proceed(alloc, recovering, Ok(Progress::Dropped(Why::Status)))
            }
            Life::Up(mut running) => {
                if running.view == u32::MAX {
                    self.life = Life::Up(running);
                    return Err(SiteFault::ViewsSpent);
                }
                let done = vr_change::timer(alloc, self.config, &mut *running);
                self.finish(running, done)
            }
        }
    }

    /// Sends again what may have been lost.
    fn beat(&mut self, alloc: Global) -> Result<Outcome<M>, SiteFault>
        ensures handles { Handles M.Machine C.BootCell self.old self.new EventOf.Beat result }
        ensures place { KeepsPlace self.old self.new }
        ensures cell { self.new.cell ≡ self.old.cell }
        ensures no_cell_fault { result ≢ Err SiteFault.CellFault }
    {
        match mem::replace(&mut self.life, Life::Down) {
            Life::Down => Err(SiteFault::NotUp),
            Life::Recovering(recovering) => {
                let boot = self.cell.load();
                let Ok(out) = ask_all(alloc, self.config, boot.boots) else {
                    return Err(SiteFault::NoMemory);
                };
                self.life = Life::Recovering(recovering);
                Ok(out)
            }
            Life::Up(running) => {
                let done = serving::beat(alloc, self.config, &*running);
                self.finish(running, done)
            }
        }
    }

    /// Loses all but the cell.
    fn crash(&mut self, alloc: Global) -> Result<Outcome<M>, SiteFault>
        ensures handles { Handles M.Machine C.BootCell self.old self.new EventOf.Crash result }
        ensures place { KeepsPlace self.old self.new }
        ensures cell { self.new.cell ≡ self.old.cell }
        ensures up { self.old.volatile.status ≢ Status.Down → IsOk result }
        ensures no_cell_fault { result ≢ Err SiteFault.CellFault }
    {
        match mem::replace(&mut self.life, Life::Down) {
            Life::Down => Err(SiteFault::NotUp),
            _ => Ok(silent(alloc)),
        }
    }

    /// Comes up again, and asks all others for the state.
    fn restart(&mut self, alloc: Global) -> Result<Outcome<M>, SiteFault>
        ensures handles { Handles M.Machine C.BootCell self.old self.new EventOf.Restart result }
        ensures place { KeepsPlace self.old self.new }
        ensures cause { IsErrOf result SiteFault.CellFault →
            HasRisen (C.faults self.old.cell) (C.faults self.new.cell) }
        ensures counted { result ≢ Err SiteFault.CellFault →
            C.faults self.new.cell ≡ C.faults self.old.cell }
        ensures reliable { C.is_reliable self.old.cell →
            C.is_reliable self.new.cell × (result ≢ Err SiteFault.CellFault) }
    {
        match &self.life {
            Life::Down => {}
            _ => return Err(SiteFault::AlreadyUp),
        }
        let Some(boot) = self.cell.load().raised() else {
            return Err(SiteFault::BootsSpent);
        };
        save(&mut self.cell, boot)?;
        let Ok(out) = ask_all(alloc, self.config, boot.boots) else {
            return Err(SiteFault::NoMemory);
        };
        self.life = Life::Recovering(restarted(alloc, self.config, boot));
        Ok(out)
    }

    /// Why the site refuses an event, where it does: `NotUp`, `AlreadyUp`, `ViewsSpent`, `BootsSpent` or `NotMine`. It
    /// takes no memory.
    pub fn refuses(&self, event: &Event<M>) -> Option<SiteFault>
        ensures { result ≡ refusal self.now.f self.now.me
            (site_shown C.held self.now []) event.now }
    {
        match event {
            EventOf::Restart if !self.is_down() => Some(SiteFault::AlreadyUp),
            EventOf::Restart if self.boot().raised().is_none() => Some(SiteFault::BootsSpent),
            EventOf::Restart => None,
            _ if self.is_down() => Some(SiteFault::NotUp),
            EventOf::Deliver(envelope) if !is_mine(self.config, envelope) => {
                Some(SiteFault::NotMine)
            }
            EventOf::Timer if self.is_in_last_view() => Some(SiteFault::ViewsSpent),
            _ => None,
        }
    }

    /// Whether the site is in the greatest view; a recovering site never is.
    fn is_in_last_view(&self) -> bool
        ensures { result ≡ (not (is_recovering self.now.volatile.status)
            && (self.now.volatile.view == max_number)) }
    {
        match &self.life {
            Life::Up(running) => running.view == u32::MAX,
            _ => false,
        }
    }

    /// Whether the site is down.
    fn is_down(&self) -> bool
        ensures { result ≡ is_down self.now.volatile.status }
    {
        matches!(&self.life, Life::Down)
    }

    /// Falls, as a site does that lacks memory: all but the cell is lost. It takes no memory.
    pub fn fall(&mut self)
        ensures { self.new ≡ record self.old { volatile = lost } }
    {
        self.life = Life::Down;
    }

    /// The site runs on after what was done, or falls.
    fn finish(
        &mut self,
        running: Box<Running<M>>,
        done: Result<Outcome<M>, AllocError>,
    ) -> Result<Outcome<M>, SiteFault>
        requires down { self.old.volatile ≡ lost }
        requires sound { OnOk done
            (IsSound M.Machine (M.start self.old.setup) self.old.f running.value) }
        ensures handles { (before : AnyRunning M M.Cmd M.Reply M.Order M.Setup)
            (event : AnyEvent M.Cmd M.Reply M.Order) →
            Serves M.Machine (M.start self.old.setup) self.old.f self.old.me
            (C.held self.old.cell) before running.value done event →
            Handles M.Machine C.BootCell
            (record self.old { volatile = running_volatile before }) self.new event
            result }
        ensures place { KeepsPlace self.old self.new }
        ensures cell { self.new.cell ≡ self.old.cell }
        ensures no_cell_fault { result ≢ Err SiteFault.CellFault }
    {
        let Ok(out) = done else {
            return Err(SiteFault::NoMemory);
        };
        self.life = Life::Up(running);
        Ok(out)
    }

    /// The site is still recovering, or runs with what it regained, or falls.
    fn proceed(
        &mut self,
        alloc: Global,
        recovering: Recovering<M>,
        progress: Result<Progress<M>, AllocError>,
    ) -> Result<Outcome<M>, SiteFault>
        requires down { self.old.volatile ≡ lost }
        requires sound { IfOk progress (λ progress.
            IsSoundProgress M.Machine (M.start self.old.setup) self.old.f recovering progress) }
        ensures handles { (before : RecoveringOf M.Cmd) (event : AnyEvent M.Cmd M.Reply M.Order) →
            Awaits self.old.f self.old.me (C.held self.old.cell) before recovering progress event →
            Handles M.Machine C.BootCell (record self.old { volatile = awaiting before }) self.new
            event result }
        ensures place { KeepsPlace self.old self.new }
        ensures cell { self.new.cell ≡ self.old.cell }
        ensures no_cell_fault { result ≢ Err SiteFault.CellFault }
    {
        let Ok(progress) = progress else {
            return Err(SiteFault::NoMemory);
        };
        match progress {
            Progress::Dropped(why) => {
                self.life = Life::Recovering(recovering);
                Ok(dropped(alloc, why))
            }
            Progress::Waits => {
                self.life = Life::Recovering(recovering);
                Ok(silent(alloc))
            }
            Progress::Regained(running) => {
                let Ok(running) = Box::new(alloc, running) else {
                    return Err(SiteFault::NoMemory);
                };
                self.life = Life::Up(running);
                Ok(silent(alloc))
            }
        }
    }

    /// What the site is doing.
    pub fn status(&self) -> Status
        ensures { result ≡ self.now.volatile.status }
    {
        match &self.life {
            Life::Down => Status::Down,
            Life::Recovering(_) => Status::Recovering,
            Life::Up(running) => running.status,
        }
    }

    /// The view, 0 at a site that is down or recovers.
    pub fn view(&self) -> u32
        ensures { result ≡ self.now.volatile.view }
    {
        match &self.life {
            Life::Up(running) => running.view,
            _ => 0,
        }
    }

    /// How many rows its log has, 0 at a site that is down or recovers.
    pub fn log_len(&self) -> usize
        ensures { result ≡ length self.now.volatile.log }
    {
        match &self.life {
            Life::Up(running) => running.kept.log.len(),
            _ => 0,
        }
    }

    /// How many rows of the log are executed.
    pub fn done(&self) -> usize
        ensures { result ≡ self.now.volatile.done }
    {
        match &self.life {
            Life::Up(running) => running.kept.done as usize,
            _ => 0,
        }
    }

    /// The row at a place of the log, counted from 1.
    pub fn row(&self, place: usize) -> Option<Row<M>>
        ensures { result ≡ (if place == 0 then None
            else slice_get self.now.volatile.log (place - 1)) }
    {
        let at = place.checked_sub(1)?;
        match &self.life {
            Life::Up(running) => running.kept.log.get(at),
            _ => None,
        }
    }

    /// The number of a client's newest row, 0 for none.
    pub fn newest(&self, client: u16) -> u32
        ensures { result ≡ newest self.now.volatile.log client }
    {
        match &self.life {
            Life::Up(running) => running.kept.clients.newest(client),
            _ => 0,
        }
    }

    /// The number of a client's newest executed row, 0 for none: the one that may be answered again.
    pub fn answered(&self, client: u16) -> u32
        ensures { result ≡ newest (take self.now.volatile.done self.now.volatile.log) client }
    {
        let Life::Up(running) = &self.life else {
            return 0;
        };
        match running.kept.clients.reply(client) {
            Some(last) => last.0,
            None => 0,
        }
    }

    /// The machine of a site that is normal or in change: a fresh one that went through the executed rows.
    pub fn machine(&self) -> Option<&M>
        ensures there { IsSome result ↔ (is_running self.now.volatile.status ≡ true) }
        ensures fold { IfSome result (λ machine. machine.now
            ≡ machine_of M.Machine (M.start self.now.setup) (site_shown C.held self.now [])) }
    {
        match &self.life {
            Life::Up(running) => Some(&running.kept.machine),
            _ => None,
        }
    }

    /// The greatest boot number of a site that this one has heard of, 0 where it has heard of none.
    pub fn known(&self, site: u16) -> u32
        ensures { result ≡ boot_of self.now.volatile.known site }
    {
        match &self.life {
            Life::Down => 0,
            Life::Recovering(recovering) => recovering.known.get(site),
            Life::Up(running) => running.known.get(site),
        }
    }

    /// What the boot cell holds.
    pub fn boot(&self) -> Boot
        ensures { result ≡ C.held self.now.cell }
    {
        self.cell.load()
    }
}

/// Saves what a restart is to find. An `Err` leaves the old value or the new one.
fn save<C: BootCell>(cell: &mut C, boot: Boot) -> Result<(), SiteFault>
    ensures ok { OnOk result (C.held cell.new ≡ boot) }
    ensures err { OnErr result ((C.held cell.new ≡ C.held cell.old) ⊎ (C.held cell.new ≡ boot)) }
    ensures saves { C.saves cell.old boot cell.new }
    ensures fault { IfErr result (λ fault. fault ≡ SiteFault.CellFault) }
    ensures cause { OnErr result (HasRisen (C.faults cell.old) (C.faults cell.new)) }
    ensures count { OnOk result (C.faults cell.new ≡ C.faults cell.old) }
    ensures reliable { C.is_reliable cell.old → IsOk result × C.is_reliable cell.new }
{
    match cell.save(boot) {
        Ok(()) => Ok(()),
        Err(_) => Err(SiteFault::CellFault),
    }
}

/// The running state of a site at first, over a new cell: it is normal in view 0 with an empty log.
fn first<M: Machine>(
    alloc: Global,
    config: Config,
    setup: &M::Setup,
) -> Result<Running<M>, AllocError>
    requires { M.admits setup.now }
    ensures sound { IfOk result (λ running. IsRunning M.Machine
        (M.start setup.now) config.f running []) }
    ensures site { IfOk result (λ running. (cell : Boot) →
        site_of running [] cell ≡ record (over cell Status.Normal) { known = no_boots config.f }) }
{
    let empty = StateOf {
        done: 0,
        rows: RowsOf::new(alloc),
    };
    let running = regain(alloc, config, setup, 0, empty, Known::of_none(config.f))?;
    Ok(running)
}
