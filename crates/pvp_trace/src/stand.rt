//! Where a site stands, and in words what a step changed of that.

ghost use Rattle.std.specs.Prelude.{◌≡◌, ◌++◌, ◌<◌, string_bytes, option_and_then, OnOk};
ghost use Rattle.pvp_trace.specs.Stands.{stand_at, site_of as site_of_step, status_text, turned_text, places_text, executed_text, changes_text};

use pvp_types::Step;
use pvp_world::World;
use std::alloc::AllocError;
use vr_types::{ActorId, BootCell, Status};

/// Where a site stands.
#[derive(Clone, Copy, Debug, PartialEq, Eq)]
pub struct Stand {
    pub site: u16,
    pub status: Status,
    pub view: u32,
    /// How many rows of its log it has executed.
    pub done: usize,
}

/// The number of the site whose turn a step is, where it is a site's.
pub fn site_of<C: BootCell>(world: &World<C>, step: Step) -> Option<u16>
    ensures { result ≡ site_of_step world.now.post step }
{
    match step {
        Step::Deliver(number) => {
            let envelope = world.envelope(number)?;
            ActorId::of(envelope.to).site()
        }
        Step::Beat(actor) => ActorId::of(actor).site(),
        Step::Timer(site) | Step::Crash(site) | Step::Restart(site) => Some(site),
        Step::PayIn { .. } | Step::Close { .. } | Step::Submit { .. } => None,
    }
}

/// Where the site of a number stands in a world, where there is one.
pub fn stand_at<C: BootCell>(world: &World<C>, number: Option<u16>) -> Option<Stand>
    ensures { result ≡ option_and_then (stand_at world.now) number }
{
    let number = number?;
    let site = world.site(number)?;
    Some(Stand {
        site: number,
        status: site.status(),
        view: site.view(),
        done: site.done(),
    })
}

/// Appends what a step changed of where its site stands: a line where its status or its view is another than before, and
/// one where it executed rows.
pub fn push_changes(
    text: &mut String,
    was: Option<Stand>,
    now: Option<Stand>,
) -> Result<(), AllocError>
    ensures { OnOk result (string_bytes text.new ≡ string_bytes text.old ++ changes_text was now) }
{
    let Some(was) = was else {
        return Ok(());
    };
    let Some(now) = now else {
        return Ok(());
    };
    push_turned(text, was, now)?;
    push_executed(text, was, now)
}

/// Appends what a site is, where its status or its view is another than before.
fn push_turned(text: &mut String, was: Stand, now: Stand) -> Result<(), AllocError>
    ensures { OnOk result (string_bytes text.new ≡ string_bytes text.old ++ turned_text was now) }
{
    if was.status == now.status && was.view == now.view {
        return Ok(());
    }
    let site = now.site;
    write!(text, "   s{site} is ")?;
    push_status(text, now.status, now.view)?;
    text.push_str("\n")
}

/// Appends a status, and of a site that has a log its view.
fn push_status(text: &mut String, status: Status, view: u32) -> Result<(), AllocError>
    ensures { OnOk result (string_bytes text.new ≡ string_bytes text.old
        ++ status_text status view) }
{
    match status {
        Status::Normal => write!(text, "normal in view {view}"),
        Status::Change => write!(text, "in change to view {view}"),
        Status::Recovering => text.push_str("recovering"),
        Status::Down => text.push_str("down"),
    }
}

/// Appends which rows a site executed, where it has executed more than before.
fn push_executed(text: &mut String, was: Stand, now: Stand) -> Result<(), AllocError>
    ensures { OnOk result (string_bytes text.new ≡ string_bytes text.old ++ executed_text was now) }
{
    if was.done >= now.done {
        return Ok(());
    }
    let site = now.site;
    write!(text, "   s{site} executes ")?;
    push_places(text, was.done, now.done)?;
    text.push_str("\n")
}

/// Appends the places of the rows after the first so many, up to the last.
fn push_places(text: &mut String, before: usize, last: usize) -> Result<(), AllocError>
    requires { before < last }
    ensures { OnOk result (string_bytes text.new ≡ string_bytes text.old
        ++ places_text before last) }
{
    let first = before + 1;
    if first == last {
        write!(text, "row {last}")
    } else {
        write!(text, "rows {first} to {last}")
    }
}
