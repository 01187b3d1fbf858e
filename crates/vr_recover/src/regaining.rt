//! How a site becomes normal with the state that it regained.
ghost use Rattle.std.specs.Prelude.{◌≡◌, ◌+◌, ◌*◌, [], length, List, IfOk};
ghost use Rattle.vr_types.specs.declared.cell.Boot.{Boot};
ghost use Rattle.vr_types.specs.Site.{Ack};
ghost use Rattle.vr_types.specs.Step.{executed_to, normal_in};
ghost use Rattle.vr_log.specs.Kept.{IsKept};
ghost use Rattle.vr_log.specs.Running.{IsRunning, site_of};
ghost use Rattle.vr_recover.specs.Recovering.{recovers_with};

use crate::recovering::ResponseOf;
use std::alloc::{AllocError, Global};
use vr_log::{ClientsOf, Kept, Running};
use vr_types::{Config, Known, Machine, RowsOf, StateOf, Status};

/// A site that is normal in a view with the state of its primary: a fresh machine executes as far as the primary had,
/// and no client is answered. The boot numbers that it knows stay. The log is moved, not copied.
pub fn regain<M: Machine>(
    alloc: Global,
    config: Config,
    setup: &M::Setup,
    view: u32,
    state: StateOf<M::Cmd>,
    known: Known,
) -> Result<Running<M>, AllocError>
    requires setup { M.admits setup.now }
    requires known { length known ≡ 2 * config.f + 1 }
    ensures running { IfOk result (λ running.
        IsRunning M.Machine (M.start setup.now) config.f running []) }
    ensures site { IfOk result (λ running. (kept : List (ResponseOf M.Cmd))
        (acks : List Ack) (cell : Boot) →
        executed_to state.done (normal_in view state.rows (recovers_with known kept acks cell))
        ≡ site_of running [] cell) }
{
    let mut kept = fresh::<M>(alloc, setup, state.rows)?;
    kept.advance(state.done)?;
    let acked = vec![in alloc; 0u16; 2 * config.f as usize + 1]?;
    Ok(Running {
        status: Status::Normal,
        view,
        last_normal: view,
        kept,
        known,
        acked,
        starts: Vec::new(alloc),
        voted: false,
        votes: Vec::new(alloc),
    })
}

/// A log of which nothing is executed yet.
fn fresh<M: Machine>(
    alloc: Global,
    setup: &M::Setup,
    log: RowsOf<M::Cmd>,
) -> Result<Kept<M>, AllocError>
    requires { M.admits setup.now }
    ensures kept { IfOk result (λ kept. IsKept M.Machine (M.start setup.now) kept) }
    ensures log { IfOk result (λ kept. kept.log ≡ log) }
    ensures done { IfOk result (λ kept. kept.done ≡ 0) }
{
    let mut clients = ClientsOf::new(alloc);
    clients.note_rows(&log)?;
    Ok(Kept {
        log,
        clients,
        machine: M::fresh(alloc, setup)?,
        done: 0,
    })
}
