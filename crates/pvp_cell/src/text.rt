//! The text of a boot cell.
ghost use Rattle.std.specs.Prelude.{◌≡◌};
ghost use Rattle.pvp_cell.specs.Text.{cell_text, boot_told};

use crate::fault::OpenFault;
use vr_types::Boot;

/// How many bytes the text of a cell has.
pub const TEXT_SIZE: usize = 8;

/// The text of a cell: how often the site was restarted, the most significant byte first, and the complement of that.
pub fn text_of(boot: Boot) -> [u8; TEXT_SIZE]
    ensures { result ≡ cell_text boot }
{
    let [a, b, c, d] = boot.boots.to_be_bytes();
    let [e, f, g, h] = (u32::MAX - boot.boots).to_be_bytes();
    [a, b, c, d, e, f, g, h]
}

/// What a text says, or why it is none of a cell.
pub fn boot_of(bytes: &[u8]) -> Result<Boot, OpenFault>
    ensures { result ≡ boot_told bytes.now }
{
    let [a, b, c, d, e, f, g, h] = bytes else {
        return Err(OpenFault::Length);
    };
    let boots = u32::from_be_bytes([*a, *b, *c, *d]);
    let complement = u32::from_be_bytes([*e, *f, *g, *h]);
    if complement == u32::MAX - boots {
        Ok(Boot { boots })
    } else {
        Err(OpenFault::Damaged)
    }
}
