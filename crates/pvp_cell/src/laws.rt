//! What holds of the definitions of a cell: functions that do nothing, whose contracts say it.

ghost use Rattle.std.specs.Prelude.{◌≡◌, ◌<◌, ◌≤◌, ℕ, List, All, Ok};
ghost use Rattle.vr_types.specs.declared.cell.Boot.{Boot};
ghost use Rattle.vr_types.specs.Cell.{max_number};
ghost use Rattle.pvp_cell.specs.Text.{cell_text, boot_told};
ghost use Rattle.pvp_cell.specs.Disk.{Disk, Has, HasOldOr, boot_in, IsOneOf};

/// The text of a boot reads as that boot, and no other text does.
pub fn a_boot_has_one_text()
    ensures reads { (boot : Boot) → boot.boots ≤ max_number → boot_told (cell_text boot) ≡ Ok boot }
    ensures one { (bytes : List ℕ) (boot : Boot) → All (λ byte. byte < 256) bytes →
        boot_told bytes ≡ Ok boot → bytes ≡ cell_text boot }
{}

/// Where the disk has the text of a boot, whatever a save of another leaves reads as one of the two, and so does what a
/// crash leaves of that.
pub fn a_save_leaves_a_cell()
    ensures { (held boot : Boot) (old new : Disk) → held.boots ≤ max_number →
        boot.boots ≤ max_number →
        Has (cell_text held) old → HasOldOr (cell_text boot) old new →
        IsOneOf held boot (boot_in new.shown) × IsOneOf held boot (boot_in new.kept) }
{}
