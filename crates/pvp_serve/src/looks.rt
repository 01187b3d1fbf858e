//! What the loop answers to those who look at its actor. Nothing here changes it: it is read through a `&`.
ghost use Rattle.std.specs.Prelude.{◌≡◌, option_copied, IfOk};
ghost use Rattle.pvp_types.specs.Setup.{IsValid};
ghost use Rattle.pvp_serve.specs.Looks.{IsShownBy, book_of, seen_of};

use crate::lanes::{Lane, Lanes};
use crate::serving::Serving;
use pvp_book::Book;
use pvp_journal::Log;
use pvp_parties::PartyOf;
use pvp_types::Setup;
use pvp_window::{ClientSeen, Look, NodeSeen, Seen, Shown, SiteSeen, Stream, View, show};
use std::alloc::{AllocError, Global};
use std::sync::Wait;
use vr_types::BootCell;

/// Answers those who look at an actor. A look for which memory is refused is dropped: its window says that the actor is busy.
pub fn answer_looks<T: Wait, C: BootCell, L: Log>(
    rt: &T,
    alloc: Global,
    setup: &Setup,
    serving: &Serving<C, L, Lanes>,
    looks: Vec<Look>,
)
    requires { IsValid setup.now }
{
    for look in looks {
        let Some(actor) = serving.actor() else {
            return;
        };
        let (me, dropped) = (serving.me(), serving.lost().count);
        let lanes = serving.out().all();
        if let Ok(shown) = show_actor(alloc, setup, me, dropped, actor, lanes, look.view) {
            let _told = look.to.send(rt, shown);
        }
    }
}

/// What an actor shows to a look. `Err` where memory is refused.
fn show_actor<C: BootCell>(
    alloc: Global,
    setup: &Setup,
    me: u16,
    dropped: u64,
    actor: &PartyOf<C>,
    lanes: &[Lane],
    view: View,
) -> Result<Shown, AllocError>
    requires { IsValid setup.now }
    ensures { IfOk result (λ shown.
        IsShownBy setup.now (seen_of C.held me dropped actor.now) (book_of C.held actor.now) view
        shown) }
{
    let streams = streams_of(alloc, lanes)?;
    let seen = seen_of(me, dropped, actor);
    show(alloc, setup, seen, streams.as_slice(), book_of(actor), view)
}

/// The streams that stand, and how many bytes wait for each.
fn streams_of(alloc: Global, lanes: &[Lane]) -> Result<Vec<Stream>, AllocError> {
    let mut streams = Vec::new(alloc);
    for lane in lanes {
        streams.push(Stream {
            peer: lane.peer,
            waiting: lane.waiting_bytes(),
        })?;
    }
    Ok(streams)
}

/// What is seen of an actor beside its book.
fn seen_of<C: BootCell>(me: u16, dropped: u64, actor: &PartyOf<C>) -> Seen
    ensures { result ≡ seen_of C.held me dropped actor.now }
{
    match actor {
        PartyOf::Site(party) => {
            let site = party.actor();
            Seen::Site(SiteSeen {
                actor: me,
                status: site.status(),
                view: site.view(),
                log: site.log_len(),
                done: site.done(),
                restarts: party.held_boot().boots,
                dropped,
            })
        }
        PartyOf::Node(party) => {
            let node = party.actor();
            Seen::Node(NodeSeen {
                actor: me,
                account: node.account(),
                pay_ins: node.pay_ins().len(),
                pay_outs: node.pay_outs().len(),
                unanswered: node.unanswered_count(),
            })
        }
        PartyOf::Client(party) => {
            let client = party.actor();
            Seen::Client(ClientSeen {
                actor: me,
                request: client.number(),
                answer: client.answer(),
            })
        }
    }
}

/// The book of a site that runs.
fn book_of<C: BootCell>(actor: &PartyOf<C>) -> Option<&Book>
    ensures { option_copied result ≡ book_of C.held actor.now }
{
    let PartyOf::Site(party) = actor else {
        return None;
    };
    match party.actor().machine() {
        Some(book) => Some(book),
        None => None,
    }
}
