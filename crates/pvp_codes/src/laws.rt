//! What holds of the table and of explanations: functions that do nothing, whose contracts say it.
ghost use Rattle.pvp_codes.specs.Codes.{EachIsTold, NoneIsToldTwice};
ghost use Rattle.pvp_codes.specs.Explained.{IsLineCounted};
ghost use Rattle.pvp_codes.specs.Finding.{IsAWord, FindsWhereItFails, CountsWhereItFails, FindsAByte, FindsAPart, FindsNoPart};

/// The table has each code, but J3, which the program prints as `fault memory`, and none twice.
pub fn table()
    ensures each { EachIsTold }
    ensures once { NoneIsToldTwice }
{}

/// The line that an explanation quotes is the one that the reader of scripts counts so.
pub fn lines()
    ensures { IsLineCounted }
{}

/// The word that an explanation quotes is one of the line's, and one is found wherever the reader
/// of lines fails at a word; where it fails by the count of words, these are more or fewer than the
/// form that the explanation gives has.
pub fn words()
    ensures word { IsAWord }
    ensures finds { FindsWhereItFails }
    ensures counts { CountsWhereItFails }
{}

/// A byte that is no printed character is found wherever the reader of lines fails at one.
pub fn bytes()
    ensures { FindsAByte }
{}

/// A part of a setup is found wherever the reader of setups fails at one that is missing or of the wrong type, and none where it
/// reads the parts.
pub fn parts()
    ensures finds { FindsAPart }
    ensures no_other { FindsNoPart }
{}
