//! What holds of every book that a history of commands leaves, whether they were accepted or refused: functions that
//! do nothing, whose contracts say it of the definitions.
ghost use Rattle.std.specs.Prelude.{ℕ, List, ◌++◌};
ghost use Rattle.pvp_types.specs.declared.setup.Setup.{Setup};
ghost use Rattle.pvp_book.specs.Answer.{Row, book_of};
ghost use Rattle.pvp_book.specs.Laws.{BothLegs, IsCovered, AreOrdered, PayInsOnce, Begins, IsOnePass};

/// Each settled pair is settled once, was instructed by both sides and not taken back by both, and posts all four of
/// its amounts: two in each of its two currencies, whose sum is 0. Every balance is pay-ins less pay-outs, with what
/// was returned, and these amounts; no other pair posts any.
pub fn both_legs()
    ensures { (setup : Setup) (history : List Row) → BothLegs setup (book_of setup history) }
{}

/// The bank's figure in a currency is what nodes paid in less what members had paid out, with what was returned, and
/// is never below 0: the bank pays out no more than it holds.
pub fn figure_is_funds_minus_pay_outs()
    ensures { (setup : Setup) (history : List Row) (c : ℕ) →
        IsCovered setup (book_of setup history) c }
{}

/// No two pay-ins of one currency have the same number.
pub fn pay_ins_count_once()
    ensures { (setup : Setup) (history : List Row) → PayInsOnce (book_of setup history) }
{}

/// The orders of a currency are numbered 1, 2, .. without a gap; each is paid or returned at most
/// once, and only after it was made.
pub fn orders_are_numbered()
    ensures { (setup : Setup) (history : List Row) (c : ℕ) → AreOrdered (book_of setup history) c }
{}

/// A book of a longer history begins with the book of the shorter.
pub fn books_grow()
    ensures { (setup : Setup) (first more : List Row) →
        Begins (book_of setup first) (book_of setup (first ++ more)) }
{}

/// A walk takes a candidate exactly if it has taken fewer than `most` earlier ones and both members of the candidate
/// pass with those and it settled. There is exactly one such list.
pub fn one_pass()
    ensures { (setup : Setup) (history : List Row) (most : ℕ) →
        IsOnePass setup (book_of setup history) most }
{}
