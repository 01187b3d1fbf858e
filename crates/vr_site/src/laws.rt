//! What holds of any number of replicas, under every legal list of what may happen to them, for every machine, every
//! number of sites and every opening: functions that do nothing, whose contracts say it. The lists are made of the
//! same steps that a replica takes as it handles an event.
//!
//! A `LegalList` is any list of deliveries, losses, repeats, timers, beats, crashes, restarts and falls that may
//! happen to 2f+1 sites over boot cells of any value, with the world that it leads to; `Continued` is any continuation
//! of it. Each promise is defined in `Promises.antt` of the crate `agreement`.

ghost use Rattle.std.specs.Prelude.{◌≡◌, ℕ, ◌++◌, All};
ghost use Rattle.vr_types.specs.declared.cell.Boot.{Boot};
ghost use Rattle.vr_types.specs.Step.{Step};
ghost use Rattle.agreement.specs.Worlds.{World, fallen, LegalList, Continued};
ghost use Rattle.agreement.specs.Promises.{SitesAgree, FirstRowsAgree, NeverRestarts, LogsRise, CollectedAreFresh, UsedAreFresh, VotesBind};
ghost use Rattle.agreement.specs.Promises.{AnsweredRowsStay, RepliesAgree, AnswersAgree, AnswersAreRight};
ghost use Rattle.agreement.specs.Promises.{LogsWereAsked, MessagesWereAsked, RepliesWereSent, OrdersWereSent};
ghost use Rattle.agreement.specs.Promises.{replies_sent, orders_sent, all_sent, GrowsByStep, IsRightReply, IsOpenOrder};

use vr_types::Machine;

/// Where no site restarts, any two sites, at any two moments of one legal list, have executed the same row at each place
/// that both have.
pub fn agreement_running<M: Machine>()
    ensures { (f : ℕ) (early : LegalList M.Cmd M.Reply M.Order f) (late : Continued early) →
        NeverRestarts (early.events ++ late.events) → SitesAgree early.world late.world }
{
    agreement::agreement_running::<M::Cmd, M::Reply, M::Order>();
}

/// With restarts: any two sites, at any two moments of one legal list, have executed the same row at each place that
/// both have, and so the same first rows. In every log the numbers of each client rise. Every REPLY that was ever sent
/// for one request of a client is for the same place after the same rows, and carries the machine's answer there. The
/// rows up to one that was ever answered begin the log of every site that is normal in a later view.
pub fn agreement<M: Machine>()
    ensures rows { (f : ℕ) (early : LegalList M.Cmd M.Reply M.Order f) (late : Continued early) →
        SitesAgree early.world late.world }
    ensures first_rows { (f : ℕ) (early : LegalList M.Cmd M.Reply M.Order f) →
        (late : Continued early) → FirstRowsAgree early.world late.world }
    ensures rising { (f : ℕ) (list : LegalList M.Cmd M.Reply M.Order f) → LogsRise list.world }
    ensures one_place { (f : ℕ) (list : LegalList M.Cmd M.Reply M.Order f) →
        RepliesAgree list.world }
    ensures one_answer { (f : ℕ) (list : LegalList M.Cmd M.Reply M.Order f) (start : M) →
        AnswersAgree M.Machine start list.world }
    ensures right_answer { (f : ℕ) (early : LegalList M.Cmd M.Reply M.Order f) →
        (late : Continued early) (start : M) →
        AnswersAreRight M.Machine start early.world late.world }
    ensures lasting { (f : ℕ) (early : LegalList M.Cmd M.Reply M.Order f) (late : Continued early) →
        AnsweredRowsStay early.world late.world }
{
    agreement::agreement::<M::Cmd, M::Reply, M::Order>();
    agreement::rising::<M::Cmd, M::Reply, M::Order>();
    agreement::replies_agree::<M>();
    agreement::lasting::<M::Cmd, M::Reply, M::Order>();
}

/// A site that ever sent a DOVIEWCHANGE runs in no view below it, whether or not it restarted since. For any two
/// messages of one kind that a site collects for a view change or a recovery, the sender of one knew no later boot of
/// the sender of the other than the one that the other is of; the same holds of the messages by which a step opens a
/// view or regains a state.
pub fn binding<M: Machine>()
    ensures bind { (f : ℕ) (list : LegalList M.Cmd M.Reply M.Order f) → VotesBind list.world }
    ensures fresh { (f : ℕ) (list : LegalList M.Cmd M.Reply M.Order f) →
        CollectedAreFresh list.world }
    ensures used { (f : ℕ) (list : LegalList M.Cmd M.Reply M.Order f) → UsedAreFresh list }
{
    agreement::binding::<M::Cmd, M::Reply, M::Order>();
}

/// Nothing is invented: each row of every log, and of every message that was ever sent, came by a REQUEST of that
/// client with that number and command that was delivered before. Each REPLY that was ever sent carries the machine's
/// answer to a row that its sender had executed, and each order that was ever sent was open after the rows that its
/// sender had executed; the sender is a site of the list, as it was after the step that sent it. What was ever sent is
/// what the steps of sites send, and nothing else.
pub fn invented<M: Machine>()
    ensures logs { (f : ℕ) (list : LegalList M.Cmd M.Reply M.Order f) →
        LogsWereAsked list.events list.world }
    ensures messages { (f : ℕ) (list : LegalList M.Cmd M.Reply M.Order f) →
        MessagesWereAsked list.events list.world }
    ensures replies { (f : ℕ) (list : LegalList M.Cmd M.Reply M.Order f) (start : M) →
        All (IsRightReply M.Machine start list) (replies_sent M.Machine start list.world) }
    ensures orders { (f : ℕ) (list : LegalList M.Cmd M.Reply M.Order f) (start : M) →
        All (IsOpenOrder M.Machine start list) (orders_sent M.Machine start list.world) }
    ensures reply_steps { (f : ℕ) (list : LegalList M.Cmd M.Reply M.Order f) →
        RepliesWereSent list }
    ensures order_steps { (f : ℕ) (list : LegalList M.Cmd M.Reply M.Order f) →
        OrdersWereSent list }
    ensures steps { (world : World M.Cmd M.Reply M.Order) (site : ℕ) (start : M) →
        (step : Step M.Cmd M.Reply M.Order) → GrowsByStep M.Machine start world site step }
    ensures falls { (world : World M.Cmd M.Reply M.Order) (site : ℕ) (start : M) (cell : Boot) →
        all_sent M.Machine start (fallen world site cell) ≡ all_sent M.Machine start world }
{
    agreement::invented::<M::Cmd, M::Reply, M::Order>();
    agreement::told::<M>();
}

/// A list that is legal over these cells leads to one world, whatever right choices its steps take as given: a fall
/// names the value of its cell.
pub fn one_world<M: Machine>()
    ensures { (f : ℕ) (a b : LegalList M.Cmd M.Reply M.Order f) →
        a.cells ≡ b.cells → a.events ≡ b.events → a.world ≡ b.world }
{
    agreement::one_world::<M::Cmd, M::Reply, M::Order>();
}
