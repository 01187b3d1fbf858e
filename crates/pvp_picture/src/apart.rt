//! What the lines of a play do apart from steps: whom they cut off, and which envelopes they pass over.

use crate::scene::{Cut, Passed};
use pvp_play::Player;
use pvp_text::script::Statement;
use std::alloc::{AllocError, Global};
use vr_types::MemCell;

/// An envelope that was passed over.
#[derive(Clone, Copy, Debug, PartialEq, Eq)]
pub struct Passing {
    /// Its number.
    pub number: usize,
    pub why: Passed,
}

/// What the lines of a play did apart from steps.
#[derive(Debug, Drop)]
pub struct Apart {
    pub cuts: Vec<Cut>,
    /// One after another; of an envelope that stands twice the last counts.
    pub passed: Vec<Passing>,
}

impl Apart {
    /// Nothing yet. It takes no memory.
    pub fn new(alloc: Global) -> Self {
        Apart {
            cuts: Vec::new(alloc),
            passed: Vec::new(alloc),
        }
    }

    /// Notes what a line did which was not refused, and before which the post was gone through up to `from`. `Err` where
    /// memory is refused.
    pub fn note(
        &mut self,
        alloc: Global,
        player: &Player<MemCell>,
        statement: Statement,
        from: usize,
    ) -> Result<(), AllocError> {
        let steps = player.notes().len();
        match statement {
            Statement::Cut { actor } => self.cut(actor, steps),
            Statement::Heal { actor } => {
                self.heal(actor, steps);
                Ok(())
            }
            Statement::Skip { .. } => self.skip(from, player.cursor()),
            Statement::Drain { .. } => self.hold(player.held_back(alloc, from)?.as_slice()),
            _ => Ok(()),
        }
    }

    /// Notes that an actor is cut off after so many steps, where it is not already.
    fn cut(&mut self, actor: u16, after: usize) -> Result<(), AllocError> {
        if self.cuts.iter().any(|cut| cut.is_open(actor)) {
            return Ok(());
        }
        self.cuts.push(Cut {
            actor,
            after,
            until: None,
        })?;
        Ok(())
    }

    /// Notes that an actor is cut off no longer after so many steps.
    fn heal(&mut self, actor: u16, until: usize) {
        for cut in self.cuts.as_mut_slice() {
            if cut.is_open(actor) {
                cut.until = Some(until);
            }
        }
    }

    /// Notes that the envelopes between two places of the post were skipped.
    fn skip(&mut self, from: usize, to: usize) -> Result<(), AllocError> {
        for place in from..to {
            self.passed.push(Passing {
                number: place.saturating_add(1),
                why: Passed::Skipped,
            })?;
        }
        Ok(())
    }

    /// Notes that cuts held up these envelopes.
    fn hold(&mut self, numbers: &[usize]) -> Result<(), AllocError> {
        for number in numbers {
            self.passed.push(Passing {
                number: *number,
                why: Passed::HeldBack,
            })?;
        }
        Ok(())
    }
}
