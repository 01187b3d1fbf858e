//! What holds of a node after any list of events.
ghost use Rattle.std.specs.Prelude.{◌≡◌, ℕ, List, pos};
ghost use Rattle.pvp_types.specs.declared.setup.Setup.{Setup};
ghost use Rattle.rtgs_node.specs.declared.event.NodeEvent.{NodeEvent};
ghost use Rattle.rtgs_node.specs.Laws.{node_after, all_accounts, all_deposits};

/// The bank's account and the members' accounts together hold what was deposited: a payment moves money, and nothing
/// creates or destroys it.
pub fn accounts_are_deposits()
    ensures { (setup : Setup) (f c : ℕ) (events : List NodeEvent) →
        all_accounts setup c (node_after setup f c events) ≡ pos (all_deposits setup c) }
{}
