//! What happens while the workers are at work.
ghost use Rattle.std.specs.Prelude.{List};
ghost use Rattle.pvp_links.specs.Puts.{Put};
ghost use Rattle.pvp_links.specs.Serving.{IsPlayed};

use crate::Outbox;

/// Posts at actors from seats of its own, and hands on what they send.
pub trait Player {
    /// Whether it may have played so, where what its actors sent meanwhile is this.
    ghost plays: { Self → Self → List Put → Type 0 };

    /// It runs while the workers do; once it returns, the writers are stopped. What its actors send it puts into the
    /// outbox. A stream that it holds itself it lets go before it returns, since a worker reads it to its end.
    fn play<O: Outbox>(&mut self, out: &mut O)
        ensures { IsPlayed plays O.got self.old self.new out.old out.new };
}
