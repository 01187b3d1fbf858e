//! What two sites show of one row: a function that does nothing, whose contract says it.
ghost use Rattle.std.specs.Prelude.{◌≡◌, Contains, length};
ghost use Rattle.vr_types.specs.Site.{Site, executed_rows};
ghost use Rattle.vr_types.specs.Handling.{machine_of};
ghost use Rattle.pvp_types.specs.declared.command.Cmd.{Cmd};
ghost use Rattle.pvp_types.specs.declared.setup.Setup.{Setup};
ghost use Rattle.pvp_book.specs.Ledger.{opening};
ghost use Rattle.headline.specs.Bank.{Bank};
ghost use Rattle.headline.specs.Headline.{BooksAgree};
ghost use Rattle.headline.specs.Machine.{book};
ghost use Rattle.pvp_window.specs.declared.look.View.{View};
ghost use Rattle.pvp_window.specs.Readings.{behind_label};

/// What two sites, at any two moments of a bank, show of the book behind their labels is the same once both have executed as many
/// rows.
pub fn sites_show_the_same()
    ensures { (setup : Setup) (early late : Bank) (x y : Site Cmd) (looked : View) →
        BooksAgree setup early late → Contains early.sites x → Contains late.sites y →
        length (executed_rows x) ≡ length (executed_rows y) →
        behind_label (machine_of book (opening setup) x) looked
        ≡ behind_label (machine_of book (opening setup) y) looked }
{}
