//! The boot cell of a site, which outlives a crash, and one in memory that can be made to fail.
ghost use Rattle.std.specs.Prelude.{◌≡◌, ℕ, ◌-◌, ◌⊎◌, ◌==◌, if◌then◌else◌, OnOk, OnErr, IsOk, IsErr, IsTrue, ◌↔◌, Some, None};
ghost use Rattle.vr_types.specs.declared.cell.Boot.{Boot};
ghost use Rattle.vr_types.specs.Cell.{HasRisen, new_cell};
ghost use Rattle.vr_types.specs.MemoryCell.{held_by, faults_of, saves_before_fault, keeps_at_fault, after_save, IsReliable};

/// What outlives a crash: how often the site was restarted.
#[derive(Clone, Copy, Debug, PartialEq, Eq)]
pub struct Boot {
    pub boots: u32,
}

impl Boot {
    ghost use Rattle.vr_types.specs.Cell.{is_new, raised, is_spent};

    /// The value of a cell that was never saved.
    pub fn new() -> Self
        ensures { result ≡ new_cell }
    {
        Boot { boots: 0 }
    }

    /// Whether it was never saved.
    pub fn is_new(self) -> bool
        ensures { result ≡ is_new self }
    {
        self.boots == 0
    }

    /// What a restart saves; `None` where the count of restarts is at its greatest.
    pub fn raised(self) -> Option<Self>
        ensures { result ≡ (if is_spent self then None else Some (raised self)) }
    {
        let boots = self.boots.checked_add(1)?;
        Some(Boot { boots })
    }
}

/// A save failed. The cell holds the old value or the new one.
#[derive(Clone, Copy, Debug, PartialEq, Eq)]
pub struct CellFault;

/// A cell that outlives a crash. A save that fails may leave the old value or the new one.
pub trait BootCell: Drop {
    /// What the cell holds.
    ghost held: { Self → Boot };

    /// How many saves have failed.
    ghost faults: { Self → ℕ };

    /// Holds of a cell whose saves never fail.
    ghost is_reliable: { Self → Type 0 };

    /// Holds of a cell, a value, and what one save of the value, failed or not, leaves of the cell.
    ghost saves: { Self → Boot → Self → Type 0 };

    /// What the cell holds.
    fn load(&self) -> Boot
        ensures { result ≡ held self.now };

    /// Saves a value. An `Err` leaves the old value or the new one.
    fn save(&mut self, boot: Boot) -> Result<(), CellFault>
        ensures ok { OnOk result (held self.new ≡ boot) }
        ensures err { OnErr result ((held self.new ≡ held self.old) ⊎ (held self.new ≡ boot)) }
        ensures saves { saves self.old boot self.new }
        ensures cause { OnErr result (HasRisen (faults self.old) (faults self.new)) }
        ensures count { OnOk result (faults self.new ≡ faults self.old) }
        ensures reliable { is_reliable self.old → IsOk result × is_reliable self.new };

    /// How many saves have failed.
    fn failures(&self) -> u64
        ensures { result ≡ faults self.now };
}

/// A cell in memory, at most one of whose saves fails.
#[derive(Drop)]
pub struct MemCell {
    boot: Boot,
    /// How many saves succeed before the one that is to fail; `None` where none is to fail.
    before_fault: Option<u64>,
    /// Whether the save that fails leaves the new value.
    keeps: bool,
    failures: u64,
}

impl MemCell {
    /// A cell whose saves never fail.
    pub fn new() -> Self
        ensures held { held_by result ≡ new_cell }
        ensures reliable { IsReliable result }
        ensures faults { faults_of result ≡ 0 }
    {
        MemCell::failing(0, false)
    }

    /// A cell that already holds this value, and whose saves never fail.
    pub fn of(boot: Boot) -> Self
        ensures held { held_by result ≡ boot }
        ensures reliable { IsReliable result }
        ensures faults { faults_of result ≡ 0 }
    {
        MemCell {
            boot,
            before_fault: None,
            keeps: false,
            failures: 0,
        }
    }

    /// A cell of which only the save of this number fails, counted from 1; at 0 none does. The failed save leaves the
    /// new value if `keep` is true, else the old one.
    pub fn failing(at: u64, keep: bool) -> Self
        ensures held { held_by result ≡ new_cell }
        ensures before_fault { saves_before_fault result
            ≡ (if at == 0 then None else Some (at - 1)) }
        ensures keeps { keeps_at_fault result ≡ keep }
        ensures faults { faults_of result ≡ 0 }
    {
        let mut cell = MemCell::of(Boot::new());
        cell.before_fault = at.checked_sub(1);
        cell.keeps = keep;
        cell
    }
}

impl BootCell for MemCell {
    ghost held = { held_by };

    ghost faults = { faults_of };

    ghost is_reliable = { IsReliable };

    ghost saves = { λ old boot new. new ≡ after_save old boot };

    fn load(&self) -> Boot {
        self.boot
    }

    fn save(&mut self, boot: Boot) -> Result<(), CellFault>
        ensures ok { OnOk result (held_by self.new ≡ boot) }
        ensures err { OnErr result ((held_by self.new ≡ held_by self.old)
            ⊎ (held_by self.new ≡ boot)) }
        ensures cause { OnErr result (HasRisen (faults_of self.old) (faults_of self.new)) }
        ensures count { OnOk result (faults_of self.new ≡ faults_of self.old) }
        ensures reliable { IsReliable self.old → IsOk result × IsReliable self.new }
        // Which save fails, and what it leaves.
        ensures fails { IsErr result ↔ (saves_before_fault self.old ≡ Some 0) }
        ensures saves { self.new ≡ after_save self.old boot }
    {
        match self.before_fault {
            Some(0) => {
                self.before_fault = None;
                self.failures = self.failures.saturating_add(1);
                if self.keeps {
                    self.boot = boot;
                }
                Err(CellFault)
            }
            Some(left) => {
                self.before_fault = Some(left - 1);
                self.boot = boot;
                Ok(())
            }
            None => {
                self.boot = boot;
                Ok(())
            }
        }
    }

    fn failures(&self) -> u64 {
        self.failures
    }
}
