//! What a recovering site keeps: the responses to its RECOVERY, and the state that they give.
ghost use Rattle.std.specs.Prelude.{◌≡◌, ◌<◌, ◌≤◌, ◌==◌, ◌&&◌, ◌++◌, ◌∷◌, [], ℕ, not, nat_le, nat_lt, filter, length, All, count_by, IfOk, IfSome, IfNone, OnOk, Some};
ghost use Rattle.std.specs.List.{list_any, position};
ghost use Rattle.vr_types.specs.Choice.{Regained, IsRegained};
ghost use Rattle.vr_types.specs.Group.{sites};
ghost use Rattle.vr_types.specs.Site.{has_response, restarted};
ghost use Rattle.vr_types.specs.Step.{greater, is_outdated};
ghost use Rattle.vr_recover.specs.Recovering.{response_of, responses_of, IsOneEach, IsSoundRecovering, recovering_site};

use std::alloc::{AllocError, Global};
use vr_log::send::primary_of;
use vr_types::{Boot, Config, Known, Machine, StateOf};

/// A response that a recovering site keeps: its sender, the sender's view, the state of that view if the sender is its
/// primary, and the boot numbers that the sender knew.
#[derive(Drop)]
pub struct ResponseOf<C> {
    pub from: u16,
    pub view: u32,
    pub state: Option<StateOf<C>>,
    pub known: Known,
}

/// What a recovering site keeps: the boot numbers that it knows, and for each site its response of the greatest view.
#[derive(Drop)]
pub struct RecoveringOf<C> {
    pub known: Known,
    pub responses: Vec<ResponseOf<C>>,
}

/// What a machine's recovering site keeps.
pub type Recovering<M> = RecoveringOf<<M as Machine>::Cmd>;

/// What a site keeps right after a restart that saved this cell: the only boot number that it knows is its own, and no
/// response has come.
pub fn restarted<C: Drop>(alloc: Global, config: Config, boot: Boot) -> RecoveringOf<C>
    ensures sound { IsSoundRecovering config.f result }
    ensures site { recovering_site result [] boot ≡ restarted config.f config.me boot }
{
    let mut known = Known::of_none(config.f);
    known.note(config.me, boot.boots);
    RecoveringOf {
        known,
        responses: Vec::new(alloc),
    }
}

/// Whether a response of the same sender is kept, of the new one's view or a later one, that the new one does not show
/// to be of an earlier boot.
pub(crate) fn has_as_late<C: Drop>(kept: &[ResponseOf<C>], new: &ResponseOf<C>) -> bool
    ensures { result ≡ list_any (λ old. (old.from == new.now.from) && nat_le new.now.view old.view
        && not (is_outdated new.now.known old.from old.known)) kept.now }
{
    kept.iter().any(|old| {
        old.from == new.from && new.view <= old.view && !new.known.is_outdated(old.from, &old.known)
    })
}

/// Learns what a sender knew, and gives up each response that this shows to be outdated.
pub(crate) fn learn<C: Drop>(recovering: &mut RecoveringOf<C>, told: &Known)
    requires { length told.now ≤ length recovering.old.known }
    ensures known { recovering.new.known ≡ greater recovering.old.known told.now }
    ensures current { recovering.new.responses.items ≡
        filter (λ old. not (is_outdated recovering.new.known old.from old.known))
        recovering.old.responses.items }
{
    recovering.known.learn(told);
    let known = &recovering.known;
    recovering
        .responses
        .retain(|old| !known.is_outdated(old.from, &old.known));
}

/// Keeps a response in place of an earlier one of its sender.
pub(crate) fn keep<C: Drop>(
    kept: &mut Vec<ResponseOf<C>>,
    new: ResponseOf<C>,
) -> Result<(), AllocError>
    ensures { OnOk result (kept.new.items ≡ filter (λ old. not (old.from == new.from))
        kept.old.items ++ new ∷ []) }
{
    let from = new.from;
    kept.retain(|old| old.from != from);
    kept.push(new)?;
    Ok(())
}

/// Whether a response of this site is kept.
fn has_of<C: Drop>(kept: &[ResponseOf<C>], site: u16) -> bool
    ensures { result ≡ list_any (λ response. response.from == site) kept.now }
{
    kept.iter().any(|response| response.from == site)
}

/// How many different sites have responded.
fn senders<C: Drop>(config: Config, kept: &[ResponseOf<C>]) -> usize
    ensures { result ≡ count_by (λ site. list_any (λ response. response.from == site) kept.now)
        (sites config.f) }
{
    (0..2 * config.f + 1)
        .filter(|site| has_of(kept, *site))
        .count()
}

/// The greatest view of the responses; 0 if there are none.
fn greatest_view<C: Drop>(kept: &[ResponseOf<C>]) -> u32
    ensures above { All (λ response. response.view ≤ result) kept.now }
    ensures least { (view : ℕ) → All (λ response. response.view ≤ view) kept.now → result ≤ view }
{
    let mut view: u32 = 0;
    for response in kept {
        view = view.max(response.view);
    }
    view
}

/// The index of a site's response of a view.
fn place_of<C: Drop>(kept: &[ResponseOf<C>], from: u16, view: u32) -> Option<usize>
    ensures { result ≡ position (λ response. (response.from == from) && (response.view == view))
        kept.now }
{
    kept.iter()
        .position(|response| response.from == from && response.view == view)
}

/// The view whose state is regained once its primary has answered with it: the greatest view of the responses, where
/// more than f sites have responded.
fn regained_view<C: Drop>(config: Config, kept: &[ResponseOf<C>]) -> Option<u32>
    ensures enough { IfSome result (λ view. config.f < count_by
        (has_response (responses_of kept.now)) (sites config.f)) }
    ensures greatest { IfSome result (λ view. All (λ response. response.view ≤ view) kept.now) }
    ensures only { (regained : Regained C) → IsRegained config.f (responses_of kept.now) regained →
        result ≡ Some regained.view }
{
    if senders(config, kept) <= config.f as usize {
        return None;
    }
    Some(greatest_view(kept))
}

/// Takes the regained state, with its view, out of the responses, where there is one.
pub(crate) fn take_regained<C: Drop>(
    config: Config,
    kept: &mut Vec<ResponseOf<C>>,
) -> Option<(u32, StateOf<C>)>
    requires { IsOneEach kept.old.items }
    ensures some { IfSome result (λ found. IsRegained config.f (responses_of kept.old.items)
        (record { view = found.0; state = found.1 })) }
    ensures none { IfNone result ((regained : Regained C) →
        ¬ IsRegained config.f (responses_of kept.old.items) regained) }
    ensures stays { IfNone result (kept.new.items ≡ kept.old.items) }
{
    let view = regained_view(config, kept.as_slice())?;
    let at = place_of(kept.as_slice(), primary_of(config, view), view)?;
    let state = kept[at].state.take()?;
    Some((view, state))
}
