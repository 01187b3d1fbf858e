//! The parts of JSON. Names are letters and digits, and amounts digits, so nothing between quotes has to be written otherwise.
ghost use Rattle.std.specs.Prelude.{◌≡◌, ◌++◌, string_bytes, OnOk};
ghost use Rattle.std.specs.Fmt.{signed_decimal};
ghost use Rattle.pvp_window.specs.Json.{actor_name, comma, currency_name, quoted_actor, quoted_currency, quoted_text};

use pvp_trace::names::{push_actor, push_currency};
use pvp_types::Setup;
use std::alloc::AllocError;

/// Appends a comma before each item but the first.
#[tactic(auto, unfolding(crate::specs::Json::comma))]
pub fn push_comma(text: &mut String, at: usize) -> Result<(), AllocError>
    ensures { OnOk result (string_bytes text.new ≡ string_bytes text.old ++ comma at) }
{
    text.push_str(if at == 0 { "" } else { "," })
}

/// Appends a text between quotes.
#[tactic(auto, unfolding(crate::specs::Json::quoted_text))]
pub fn push_quoted(text: &mut String, word: &str) -> Result<(), AllocError>
    ensures { OnOk result (string_bytes text.new ≡ string_bytes text.old ++ quoted_text word.now) }
{
    text.push_str("\"")?;
    text.push_str(word)?;
    text.push_str("\"")
}

/// Appends a sum in minor units.
pub fn push_sum(text: &mut String, sum: i64) -> Result<(), AllocError>
    ensures { OnOk result (string_bytes text.new ≡ string_bytes text.old ++ signed_decimal sum) }
{
    write!(text, "{sum}")
}

/// Appends a member's value, in ten thousandths of the common unit.
pub fn push_value(text: &mut String, value: i128) -> Result<(), AllocError>
    ensures { OnOk result (string_bytes text.new ≡ string_bytes text.old ++ signed_decimal value) }
{
    write!(text, "{value}")
}

/// Appends an actor's name between quotes.
#[tactic(auto, unfolding(crate::specs::Json::quoted_actor))]
pub fn push_who(text: &mut String, setup: &Setup, actor: u16) -> Result<(), AllocError>
    ensures { OnOk result (string_bytes text.new
        ≡ string_bytes text.old ++ quoted_actor setup.now actor) }
{
    text.push_str("\"")?;
    push_name(text, setup, actor)?;
    text.push_str("\"")
}

/// Appends an actor's name.
#[tactic(auto, unfolding(crate::specs::Json::actor_name))]
pub fn push_name(text: &mut String, setup: &Setup, actor: u16) -> Result<(), AllocError>
    ensures { OnOk result (string_bytes text.new
        ≡ string_bytes text.old ++ actor_name setup.now actor) }
{
    push_actor(text, setup, actor)
}

/// Appends a currency's code between quotes.
#[tactic(auto, unfolding(crate::specs::Json::quoted_currency))]
pub fn push_code(text: &mut String, setup: &Setup, ccy: u8) -> Result<(), AllocError>
    ensures { OnOk result (string_bytes text.new
        ≡ string_bytes text.old ++ quoted_currency setup.now ccy) }
{
    text.push_str("\"")?;
    push_code_of(text, setup, ccy)?;
    text.push_str("\"")
}

/// Appends a currency's code.
#[tactic(auto, unfolding(crate::specs::Json::currency_name))]
pub fn push_code_of(text: &mut String, setup: &Setup, ccy: u8) -> Result<(), AllocError>
    ensures { OnOk result (string_bytes text.new
        ≡ string_bytes text.old ++ currency_name setup.now ccy) }
{
    push_currency(text, setup, ccy)
}
