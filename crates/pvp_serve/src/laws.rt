//! Why a site may lose what is out of date, and what it does not admit: functions that do nothing, whose contracts say it.
ghost use Rattle.std.specs.Prelude.{◌≡◌, ◌<◌, ℕ, false, nat_lt, take, true, Some};
ghost use Rattle.pvp_types.specs.declared.command.Cmd.{Cmd};
ghost use Rattle.pvp_types.specs.declared.command.PayOrder.{PayOrder};
ghost use Rattle.pvp_types.specs.declared.command.Reply.{Reply};
ghost use Rattle.vr_types.specs.declared.message.MsgOf.TheVariants.{Request};
ghost use Rattle.vr_types.specs.declared.message.RequestOf.{RequestOf};
ghost use Rattle.vr_types.specs.Rows.{newest};
ghost use Rattle.vr_types.specs.Actors.{number_of};
ghost use Rattle.vr_types.specs.declared.actors.ActorId.TheVariants.{Node};
ghost use Rattle.vr_types.specs.declared.limits.TheConstants.{MOST_NODES};
ghost use Rattle.vr_types.specs.Choice.{Choice};
ghost use Rattle.vr_types.specs.Site.{Site};
ghost use Rattle.pvp_wire.specs.Layout.{BankMsg};
ghost use Rattle.pvp_serve.specs.Admission.{admission_of_known};
ghost use Rattle.pvp_serve.specs.declared.admission.Admission.TheVariants.{Known};
ghost use Rattle.pvp_serve.specs.declared.admission.Seen.{Seen};
ghost use Rattle.pvp_serve.specs.declared.admission.TheConstants.{PLACES};
ghost use Rattle.pvp_serve.specs.declared.serving.Standing.{Standing};
ghost use Rattle.pvp_serve.specs.Desks.{IsDropped, is_outdated};

/// A message that is out of date at a site that runs would change nothing there: whichever rule takes it drops it.
pub fn outdated_is_dropped()
    ensures { (choose : Choice Cmd) (f me actor : ℕ) (x : Site Cmd) (msg : BankMsg)
        (standing : Standing) → standing.status ≡ x.status → standing.view ≡ x.view →
        is_outdated (Some standing) msg ≡ true → IsDropped choose f me x actor msg }
{}

/// A known request that a primary loses, though it is its sender's first of late, would change nothing there, and would not be
/// answered: the rule for requests drops it.
pub fn lost_is_dropped()
    ensures { (choose : Choice Cmd) (f me actor : ℕ) (x : Site Cmd) (m : RequestOf Cmd)
        (seen : Seen) → seen.newest ≡ newest x.log actor →
        seen.answered ≡ newest (take x.done x.log) actor →
        nat_lt seen.newest m.number ≡ false → nat_lt 0 m.number ≡ true →
        admission_of_known seen 0 m.number ≡ Known →
        IsDropped {R = Reply} {O = PayOrder} choose f me x actor (Request m) }
{}

/// Each node has a place among those whose requests are counted, and so has each client, whose number is lower.
pub fn all_are_counted()
    ensures { (ccy : ℕ) → ccy < MOST_NODES → number_of (Node ccy) < PLACES }
{}
