//! What holds of scripts as they are defined: a function that does nothing, whose contract says it.
ghost use Rattle.pvp_text.specs.ScriptSaid.{HaveTheirValues, MeanWhatTheySay};

/// The values of a line are those of its words, one of each word's kind; and what the line means is made of all of them.
pub fn lines_mean_what_they_say()
    ensures values { HaveTheirValues }
    ensures whole { MeanWhatTheySay }
{}
