//! What each line on standard error begins with: when it was reported, by whom, and how grave it is.
use jiff_core::civil::Date;
use pvp_trace::names::push_actor;
use pvp_types::Setup;
use std::alloc::Global;
use std::fmt;
use std::time::{Clock, SystemTime, UNIX_EPOCH};

/// How grave a line is.
#[derive(Clone, Copy, Debug, PartialEq, Eq)]
pub enum Level {
    /// All is as it should be.
    Info,
    /// Somebody should look; the process goes on.
    Warn,
}

/// The beginning of a line.
#[derive(Drop)]
pub struct Heading {
    /// Seconds since 1970, UTC, where the machine tells the time.
    at: Option<u64>,
    name: String,
    level: Level,
}

impl Heading {
    /// That of a line which is reported now of an actor of a bank of this setup.
    pub fn new<R: Clock>(rt: &R, alloc: Global, setup: &Setup, actor: u16, level: Level) -> Self {
        let mut name = String::new(alloc);
        let _named = push_actor(&mut name, setup, actor);
        Heading {
            at: seconds(rt),
            name,
            level,
        }
    }
}

/// Seconds since 1970, UTC; `None` where the machine does not tell the time.
fn seconds<R: Clock>(rt: &R) -> Option<u64> {
    let since = SystemTime::now(rt).ok()?.duration_since(UNIX_EPOCH).ok()?;
    Some(since.as_secs())
}

impl fmt::Display for Heading {
    fn fmt<W: fmt::Write>(&self, f: &mut fmt::Formatter<W>) -> fmt::Result {
        if let Some(at) = self.at
            && let Ok(day) = i64::try_from(at / 86_400)
            && let Ok(date) = Date::from_unix_epoch_day(day)
        {
            let (hour, minute, second) = (at / 3_600 % 24, at / 60 % 60, at % 60);
            write!(f, "{:04}-{:02}-{:02}T", date.year, date.month, date.day)?;
            write!(f, "{hour:02}:{minute:02}:{second:02}Z ")?;
        }
        let level = match self.level {
            Level::Info => "info",
            Level::Warn => "warn",
        };
        write!(f, "{} {level} ", self.name.as_str())
    }
}
