//! The player of a live script: it posts at each actor from a seat of its own.

ghost use Rattle.std.specs.Prelude.{◌≡◌, List, Some, option_copied};
ghost use Rattle.pvp_rooms.specs.Gates.{Hears};
ghost use Rattle.pvp_live.specs.Events as events;
ghost use Rattle.pvp_live.specs.Effects.{fault_of, line_effect};
ghost use Rattle.pvp_live.specs.Refusals.{refused_after};
ghost use Rattle.pvp_live.specs.Playing.{Answers, HandsOver, handed_on, keeps, place_of};

use crate::board::Board;
use crate::effects::{fault_of, line_effect};
use crate::events::{Post, statement_post};
use crate::notes::{tell_posted, tell_rest, tell_sites};
use crate::refusals::{Refused, refused_after};
use crate::sighting::look_at_sites;
use pvp_links::{Outbox, Player, Served};
use pvp_parties::{PartyCellOf, PartyOf, PartyOutcome, PartySeat};
use pvp_rooms::{Actor, Answer, Gate, Input, Room};
use pvp_text::script::{Line, Statement};
use pvp_types::Setup;
use std::alloc::Global;
use std::io::Write;
use std::sync::Wait;
use std::thread;
use std::time::{Clock, Duration};
use vr_types::{BootCell, is_site};

/// A gate that is always open.
#[derive(Drop)]
pub struct Open;

impl Gate for Open {
    ghost heard = { λ gate all. Unit {0} };

    fn enter<A: Actor>(&mut self, _actor: u16, _room: &Room<A>) {}

    fn leave<A: Actor>(&mut self, _actor: u16, _room: &Room<A>, _answer: &Answer<A::Outcome>) {}
}

/// Posts what the lines of a script say, one after another, and reports the outcome of each, and
/// the status of the sites.
#[derive(Drop)]
pub struct LinePlayer<'a, R, N, C: BootCell> {
    pub rt: &'a R,
    pub alloc: Global,
    pub setup: &'a Setup,
    pub notes: &'a mut N,
    pub cells: &'a [PartyCellOf<C>],
    /// By cell.
    pub seats: Vec<PartySeat>,
    pub lines: &'a [Line],
    /// What the workers count.
    pub board: &'a Board<'a>,
    /// Which lines were refused so far.
    pub refused: Option<Refused>,
}

impl<R: Wait + Clock, N: Write, C: BootCell> LinePlayer<'_, R, N, C> {
    /// Plays a line.
    fn line<O: Outbox>(&mut self, line: Line, out: &mut O)
        ensures posted { HandsOver self.old.cells.now line.number
            (events.statement_post line.statement)
            (keeps self.old.seats.items self.old.refused)
            (keeps self.new.seats.items self.new.refused)
            O.got out.old out.new }
        ensures cells { self.new.cells ≡ self.old.cells }
        ensures lines { self.new.lines ≡ self.old.lines }
    {
        match line.statement {
            Statement::Rest { milliseconds } => {
                tell_rest(self.notes, line.number, milliseconds);
                thread::sleep(self.rt, Duration::from_millis(u64::from(milliseconds)));
                self.tell(line.number);
            }
            statement => {
                if let Some(post) = statement_post(statement) {
                    self.post(line, post, out);
                }
            }
        }
    }

    /// Posts the event of a line, and hands on what that sends. Its outcome is reported before, and
    /// behind a line at a site the status of all sites, so that nothing of this depends on what is
    /// handed on.
    fn post<O: Outbox>(&mut self, line: Line, post: Post, out: &mut O)
        ensures posted { HandsOver self.old.cells.now line.number (Some post)
            (keeps self.old.seats.items self.old.refused)
            (keeps self.new.seats.items self.new.refused)
            O.got out.old out.new }
        ensures cells { self.new.cells ≡ self.old.cells }
        ensures lines { self.new.lines ≡ self.old.lines }
    {
        let actor = post.actor;
        let answer = self.answer_to(post);
        let told = answer.as_ref();
        self.note(line.number, actor, told);
        self.hand_on(actor, told, out);
    }

    /// Posts an event at its actor, from the seat there. `None` where there is no such actor.
    fn answer_to(&mut self, post: Post) -> Option<Answer<PartyOutcome>>
        ensures answers { Answers self.old.cells.now post self.old.seats.items
            self.new.seats.items result }
        ensures refused { self.new.refused ≡ self.old.refused }
        ensures cells { self.new.cells ≡ self.old.cells }
        ensures lines { self.new.lines ≡ self.old.lines }
    {
        let Post { actor, event } = post;
        let place = place_of(self.cells, actor)?;
        let cell = self.cells.get(place)?;
        let seat = self.seats.get_mut(place)?;
        let input = Input { event, stamp: None };
        Some(cell.post(self.rt, self.alloc, seat, input, &mut Open))
    }

    /// Reports the outcome of the event that a line posted, and behind one at a site the status of
    /// all sites. A line that was refused is counted.
    fn note(&mut self, line: u32, actor: u16, answer: Option<&Answer<PartyOutcome>>)
        ensures refused { self.new.refused
            ≡ refused_after self.old.refused line
            (fault_of (line_effect (option_copied answer.entry))) }
        ensures seats { self.new.seats ≡ self.old.seats }
        ensures cells { self.new.cells ≡ self.old.cells }
        ensures lines { self.new.lines ≡ self.old.lines }
    {
        tell_posted(self.alloc, self.notes, self.setup, line, actor, answer);
        self.refused = refused_after(self.refused, line, fault_of(line_effect(answer)));
        if answer.is_some() && is_site(actor) {
            self.tell(line);
        }
    }

    /// Hands on what an actor sent by the event of a line.
    fn hand_on<O: Outbox>(&mut self, actor: u16, answer: Option<&Answer<PartyOutcome>>, out: &mut O)
        ensures handed { Hears O.got out.old out.new
            (handed_on actor (option_copied answer.entry)) }
        ensures seats { self.new.seats ≡ self.old.seats }
        ensures refused { self.new.refused ≡ self.old.refused }
        ensures cells { self.new.cells ≡ self.old.cells }
        ensures lines { self.new.lines ≡ self.old.lines }
    {
        match answer {
            Some(Answer::Done { clock, outcome }) => {
                let sent = PartyOf::<C>::sent_envelopes(outcome);
                out.put(self.rt, self.alloc, actor, *clock, sent);
            }
            Some(Answer::NoMemory | Answer::ClockSpent) | None => {}
        }
    }

    /// Looks at the sites, and reports their status, and how many frames went over the streams.
    fn tell(&mut self, line: u32)
        ensures seats { self.new.seats ≡ self.old.seats }
        ensures refused { self.new.refused ≡ self.old.refused }
        ensures cells { self.new.cells ≡ self.old.cells }
        ensures lines { self.new.lines ≡ self.old.lines }
    {
        if let Ok(looks) = look_at_sites(self.rt, self.alloc, self.cells) {
            tell_sites(
                self.alloc,
                self.notes,
                self.setup,
                line,
                looks.as_slice(),
                self.board.frames(),
            );
        }
    }
}

impl<R: Wait + Clock, N: Write, C: BootCell> Player for LinePlayer<'_, R, N, C> {
    ghost use Rattle.pvp_live.specs.Playing.{Plays, keeps};

    ghost plays = { λ old new puts. Plays old.cells.now old.lines.now
        (keeps old.seats.items old.refused) (keeps new.seats.items new.refused) puts };

    fn play<O: Outbox>(&mut self, out: &mut O) {
        for line in self.lines {
            self.line(*line, out);
        }
    }
}

/// The place of the actor of a number.
pub fn place_of<C: BootCell>(cells: &[PartyCellOf<C>], number: u16) -> Option<usize>
    ensures { result ≡ place_of cells.now number }
{
    cells.iter().position(|cell| cell.number() == number)
}
