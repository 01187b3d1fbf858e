//! What holds of the definitions of a site: functions that do nothing, whose contracts say it.

ghost use Rattle.std.specs.Prelude.{◌≡◌, ℕ, ◌≤◌, ◌↔◌, Bool, IsTrue, List, All};
ghost use Rattle.vr_types.specs.declared.event.EventOf.{EventOf};
ghost use Rattle.vr_types.specs.Site.{Ack, Vote, Response, Site};
ghost use Rattle.vr_types.specs.Choice.{IsCommitPlace, IsPick, IsMostDone, IsRegained, Regained, Choice, IsRight, OneEach};
ghost use Rattle.vr_types.specs.Handling.{site_step, envelopes};
ghost use Rattle.vr_types.specs.Saved.{IsSavedFor};

use crate::machine::Machine;

/// The choices that a step takes as given can be made, wherever it can be decided whether two commands are the same.
pub fn choices_exist<C>()
    ensures { (f : ℕ) (same : C → C → Bool) → 1 ≤ f → ((a b : C) → IsTrue (same a b) ↔ (a ≡ b)) →
        (choose : Choice C) × IsRight f choose }
{}

/// There is one right choice: one commit place; of votes that came from different sites one pick and one
/// commit-number; of answers that came from different sites at most one state that is regained.
pub fn choices_are_one<C>()
    ensures commit_place { (f me : ℕ) (acks : List Ack) (a b : ℕ) → IsCommitPlace f me acks a →
        IsCommitPlace f me acks b → a ≡ b }
    ensures pick { (votes : List (Vote C)) (a b : Vote C) → OneEach (λ vote. vote.from) votes →
        IsPick votes a → IsPick votes b → a ≡ b }
    ensures most_done { (votes : List (Vote C)) (a b : ℕ) → IsMostDone votes a →
        IsMostDone votes b → a ≡ b }
    ensures regained { (f : ℕ) (responses : List (Response C)) (a b : Regained C) →
        OneEach (λ response. response.from) responses →
        IsRegained f responses a → IsRegained f responses b → a ≡ b }
{}

/// What is sent of the boot cell was saved before: after each step the cell holds the count of restarts of each RECOVERY
/// that the step sends.
pub fn sent_is_saved<M: Machine>()
    ensures { (choose : Choice M.Cmd) (f me : ℕ) (x : Site M.Cmd)
        (event : EventOf M.Cmd M.Reply M.Order) (start : M) →
        let step = site_step choose f me x event in
        All (λ envelope. IsSavedFor step.site.cell envelope.msg)
        (envelopes M.Machine start me step) }
{}
