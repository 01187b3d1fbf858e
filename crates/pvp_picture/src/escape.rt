//! Text inside XML: the signs that mean something there are spelled out.

ghost use Rattle.std.specs.Prelude.{◌≡◌, ◌++◌, chars, flat_map, OnOk, option_map, string_bytes};
ghost use Rattle.pvp_picture.specs.Escape.{name_of_sign, sign_text};

use std::alloc::AllocError;

/// Appends a text, with `&`, `<`, `>` and `"` spelled out and all else as it is. `Err` where memory is refused.
pub fn push_escaped(text: &mut String, plain: &str) -> Result<(), AllocError>
    ensures { OnOk result (string_bytes text.new ≡ string_bytes text.old
        ++ flat_map sign_text (chars plain.now)) }
{
    for sign in plain.chars() {
        push_sign(text, sign)?;
    }
    Ok(())
}

/// Appends one sign as XML has it inside text.
fn push_sign(text: &mut String, sign: char) -> Result<(), AllocError>
    ensures { OnOk result (string_bytes text.new ≡ string_bytes text.old ++ sign_text sign) }
{
    match name_of(sign) {
        Some(name) => text.push_str(name),
        None => text.push(sign),
    }
}

/// The name in XML of a sign that means something there.
fn name_of(sign: char) -> Option<&'static str>
    ensures { option_map (λ name. name.now) result ≡ name_of_sign sign }
{
    match sign {
        '&' => Some("&amp;"),
        '<' => Some("&lt;"),
        '>' => Some("&gt;"),
        '"' => Some("&quot;"),
        _ => None,
    }
}

/// Appends the first so many signs of a text, spelled out, and three dots where it has more.
pub fn push_cut(text: &mut String, plain: &str, most: usize) -> Result<(), AllocError> {
    let mut count: usize = 0;
    for sign in plain.chars() {
        if count >= most {
            return text.push_str("...");
        }
        push_sign(text, sign)?;
        count = count.saturating_add(1);
    }
    Ok(())
}
