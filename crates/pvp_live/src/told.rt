//! A verdict in words.
ghost use Rattle.std.specs.Prelude.{◌≡◌, ◌⊎◌, ◌++◌, Err, OnOk, IfErr, string_bytes};
ghost use Rattle.std.specs.Io.KnownBytes.{Appends};
ghost use Rattle.pvp_text.specs.declared.book.RunFault.TheVariants.{NoMemory, Output};
ghost use Rattle.pvp_live.specs.Told.{verdict_text};

use pvp_audit::Verdict;
use pvp_codes::Code;
use pvp_play::books::push_books;
use pvp_text::book::{RunFault, write_text};
use std::alloc::{AllocError, Global};
use std::io::Write;

/// Writes the books of a Yes and `audit yes`, or of a No the one line `audit no ACTOR EVENT CODE`.
/// Where memory is refused nothing is written; how much was written where the writer fails is not
/// said.
pub fn print_verdict<W: Write>(
    alloc: Global,
    verdict: &Verdict,
    writer: &mut W,
) -> Result<(), RunFault>
    ensures written { OnOk result
        (Appends (W.contents writer.old) (W.contents writer.new) (verdict_text verdict.now)) }
    ensures fault { IfErr result (λ fault. (fault ≡ NoMemory) ⊎ (fault ≡ Output)) }
    ensures no_memory { result ≡ Err NoMemory → writer.new ≡ writer.old }
{
    let mut text = String::new(alloc);
    push_verdict(&mut text, verdict)?;
    write_text(writer, text.as_str())
}

/// Appends a verdict.
pub(crate) fn push_verdict(text: &mut String, verdict: &Verdict) -> Result<(), AllocError>
    ensures { OnOk result (string_bytes text.new ≡ string_bytes text.old
        ++ verdict_text verdict.now) }
{
    match verdict {
        Verdict::Yes(world) => {
            push_books(text, world)?;
            text.push_str("audit yes\n")
        }
        Verdict::No { actor, event, why } => {
            let code = Code::Audit(*why);
            write!(text, "audit no {actor} {event} {code}\n")
        }
    }
}
