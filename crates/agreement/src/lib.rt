//! Sites that agree, whatever is lost, repeated or reordered, and whenever they fall: functions that do nothing, whose
//! contracts say what holds under every legal list of what may happen to sites alone, for every machine, every number
//! of sites and every opening.
//!
//! A `LegalList` is any list of deliveries, losses, repeats, timers, beats, crashes, restarts and falls that may
//! happen to 2f+1 sites over boot cells of any value, with the world that it leads to; `Continued` is any continuation
//! of it. Each promise is defined in `specs/Promises.antt`; those of how a list can go on, in `specs/Progress.antt`.
#![tactic(auto)]

ghost use Rattle.std.specs.Prelude.{◌≡◌, ℕ, ◌≤◌, ◌++◌, List, All};
ghost use Rattle.agreement.specs.Progress.{CanGoOn, Progresses, AreWorking, IsNew, Serves, IsNewest, Repeats};
ghost use Rattle.vr_types.specs.declared.row.RowOf.{RowOf};
ghost use Rattle.vr_types.specs.declared.cell.Boot.{Boot};
ghost use Rattle.vr_types.specs.Choice.{Choice};
ghost use Rattle.vr_types.specs.Step.{Step};
ghost use Rattle.agreement.specs.Worlds.{World, Happening, fallen, IsLegal, LegalList, Continued};
ghost use Rattle.agreement.specs.Promises.{SitesAgree, FirstRowsAgree, NeverRestarts, LogsRise, CollectedAreFresh, UsedAreFresh, VotesBind};
ghost use Rattle.agreement.specs.Promises.{AnsweredRowsStay, RepliesAgree, AnswersAgree, AnswersAreRight};
ghost use Rattle.agreement.specs.Promises.{LogsWereAsked, MessagesWereAsked, RepliesWereSent, OrdersWereSent};
ghost use Rattle.agreement.specs.Promises.{replies_sent, orders_sent, all_sent, GrowsByStep, IsRightReply, IsOpenOrder};

use vr_types::Machine;

/// Any two sites, at any two moments of one legal list, have executed the same row at each place that both have, and so
/// the same first rows.
pub fn agreement<C, R, O>()
    ensures rows { (f : ℕ) (early : LegalList C R O f) (late : Continued early) →
        SitesAgree early.world late.world }
    ensures first_rows { (f : ℕ) (early : LegalList C R O f) (late : Continued early) →
        FirstRowsAgree early.world late.world }
{}

/// The same where no site restarts.
pub fn agreement_running<C, R, O>()
    ensures { (f : ℕ) (early : LegalList C R O f) (late : Continued early) →
        NeverRestarts (early.events ++ late.events) → SitesAgree early.world late.world }
{}

/// In every log the numbers of each client rise.
pub fn rising<C, R, O>()
    ensures { (f : ℕ) (list : LegalList C R O f) → LogsRise list.world }
{}

/// A site that ever sent a DOVIEWCHANGE runs in no view below it, whether or not it restarted since. For any two
/// messages of one kind that a site collects for a view change or a recovery, the sender of one knew no later boot of
/// the sender of the other than the one that the other is of; the same holds of the messages by which a step opens a
/// view or regains a state.
pub fn binding<C, R, O>()
    ensures bind { (f : ℕ) (list : LegalList C R O f) → VotesBind list.world }
    ensures fresh { (f : ℕ) (list : LegalList C R O f) → CollectedAreFresh list.world }
    ensures used { (f : ℕ) (list : LegalList C R O f) → UsedAreFresh list }
{}

/// What was answered stays: the rows up to one that was ever answered in a view, as their sender had them, begin the log
/// of every site that is normal in a later view, at the same moment, before or after.
pub fn lasting<C, R, O>()
    ensures { (f : ℕ) (early : LegalList C R O f) (late : Continued early) →
        AnsweredRowsStay early.world late.world }
{}

/// Every REPLY that was ever sent for one request of a client is for the same place, after the same rows, and carries
/// the same answer: the machine's, at the place of that request's row in the executed rows of any site, at any moment.
pub fn replies_agree<M: Machine>()
    ensures one_place { (f : ℕ) (list : LegalList M.Cmd M.Reply M.Order f) →
        RepliesAgree list.world }
    ensures one_answer { (f : ℕ) (list : LegalList M.Cmd M.Reply M.Order f) (start : M) →
        AnswersAgree M.Machine start list.world }
    ensures right_answer { (f : ℕ) (early : LegalList M.Cmd M.Reply M.Order f) →
        (late : Continued early) (start : M) →
        AnswersAreRight M.Machine start early.world late.world }
{}

/// Nothing is invented: each row of every log, and of every message that was ever sent, came by a REQUEST of that
/// client with that number and command that was delivered before. Each REPLY was sent in a step that a site of the
/// list took, for a row that this site had executed by then. Open orders were only sent in a step of a site of the
/// list that is normal after it.
pub fn invented<C, R, O>()
    ensures logs { (f : ℕ) (list : LegalList C R O f) → LogsWereAsked list.events list.world }
    ensures messages { (f : ℕ) (list : LegalList C R O f) →
        MessagesWereAsked list.events list.world }
    ensures replies { (f : ℕ) (list : LegalList C R O f) → RepliesWereSent list }
    ensures orders { (f : ℕ) (list : LegalList C R O f) → OrdersWereSent list }
{}

/// What clients receive: every REPLY ever sent carries the machine's answer to a row that its sender had executed, and
/// every order ever sent was open after the rows that its sender had executed, the sender as it was after the step
/// that sent it. What was ever sent is what the steps of sites send, and nothing else.
pub fn told<M: Machine>()
    ensures replies { (f : ℕ) (list : LegalList M.Cmd M.Reply M.Order f) (start : M) →
        All (IsRightReply M.Machine start list) (replies_sent M.Machine start list.world) }
    ensures orders { (f : ℕ) (list : LegalList M.Cmd M.Reply M.Order f) (start : M) →
        All (IsOpenOrder M.Machine start list) (orders_sent M.Machine start list.world) }
    ensures steps { (world : World M.Cmd M.Reply M.Order) (site : ℕ) (start : M) →
        (step : Step M.Cmd M.Reply M.Order) → GrowsByStep M.Machine start world site step }
    ensures falls { (world : World M.Cmd M.Reply M.Order) (site : ℕ) (start : M) (cell : Boot) →
        all_sent M.Machine start (fallen world site cell) ≡ all_sent M.Machine start world }
{}

/// A list that is legal over these cells leads to one world, whatever right choices its steps take as given: a fall
/// names the value of its cell. For one given choice this holds whether it is right or not.
pub fn one_world<C, R, O>()
    ensures right_choices { (f : ℕ) (a b : LegalList C R O f) →
        a.cells ≡ b.cells → a.events ≡ b.events → a.world ≡ b.world }
    ensures one_choice { (choose : Choice C) (f : ℕ) (cells : List Boot) (a b : World C R O) →
        (events : List (Happening C R O)) → IsLegal choose f cells events a →
        IsLegal choose f cells events b → a ≡ b }
{}

/// For f above 0: a legal list in which f+1 sites run, and no view is near its end, can always go on without a crash,
/// by timers, beats, restarts and messages between sites that were sent, until every site that is not down for good
/// works in one view with one log, all of it executed, which begins with what any site had executed at any moment of
/// the list. Where sites work so, each new request can be executed by all that work and answered, one after another;
/// and the newest request of a client can be answered again.
pub fn progress<C, R, O>()
    ensures progress { (f : ℕ) → 1 ≤ f → (list : LegalList C R O f) →
        CanGoOn f list.world.sites → Progresses list }
    ensures serving { (f : ℕ) → 1 ≤ f → (list : LegalList C R O f) →
        (view : ℕ) (log : List (RowOf C)) (row : RowOf C) →
        AreWorking f view log list.world.sites → IsNew log row →
        Serves list.choose f list.world view log row }
    ensures repeating { (f : ℕ) → 1 ≤ f → (list : LegalList C R O f) →
        (view : ℕ) (log : List (RowOf C)) (row : RowOf C) →
        AreWorking f view log list.world.sites → IsNewest log row →
        Repeats list.choose f list.world view log row }
{}
