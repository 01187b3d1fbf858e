//! Texts that were worked by hand from the formats, and their tags by another program's HMAC: by a key of bytes 7, in the
//! bank whose id has bytes 1.

use pvp_links::Link;
use std::test::Fail;

/// The hello of site 0, which drew bytes 3.
pub const HELLO: [u8; 54] = [
    0, 0, 0, 50, 0, 200, 1, 1, 1, 1, 1, 1, 1, 1, 1, 1, 1, 1, 1, 1, 1, 1, 1, 1, 1, 1, 1, 1, 1, 1, 1,
    1, 1, 1, 1, 1, 1, 1, 3, 3, 3, 3, 3, 3, 3, 3, 3, 3, 3, 3, 3, 3, 3, 3,
];

pub const HELLO_TAG: [u8; 16] = [
    0x2f, 0xb5, 0xfc, 0xcf, 0xb2, 0x87, 0xdf, 0xff, 0x6a, 0xa0, 0x18, 0xb5, 0x14, 0xf3, 0x0a, 0x2f,
];

pub const PING: [u8; 4] = [0, 0, 0, 0];

/// The tag of the ping as the first text of site 0, and as the second.
pub const PING_TAG: [u8; 16] = [
    0xe2, 0x6c, 0x52, 0xd9, 0xf6, 0x25, 0x09, 0x4b, 0xac, 0xd8, 0xd4, 0x9a, 0x29, 0x8e, 0xcc, 0x6a,
];

pub const SECOND_PING_TAG: [u8; 16] = [
    0xd1, 0x7a, 0xb1, 0x04, 0xd0, 0x51, 0xd2, 0x9c, 0x13, 0x5c, 0x9b, 0xa6, 0x5f, 0xba, 0x67, 0x11,
];

/// COMMIT of view 0, 1 row executed, from site 0 to site 1, clock 5, index 0.
pub const COMMIT: [u8; 28] = [
    0, 0, 0, 24, 2, 4, 0, 200, 0, 0, 0, 0, 0, 0, 0, 5, 0, 0, 0, 0, 0, 201, 0, 0, 0, 0, 0, 1,
];

/// Its tag as the first text of site 0, and as the third.
pub const COMMIT_TAG: [u8; 16] = [
    0x81, 0xb9, 0xd7, 0x76, 0x1d, 0xbf, 0x2c, 0x54, 0xa6, 0x74, 0x4c, 0xd4, 0x85, 0x8d, 0x84, 0x56,
];

pub const THIRD_COMMIT_TAG: [u8; 16] = [
    0x01, 0x96, 0xd4, 0x31, 0xda, 0x07, 0x15, 0xc8, 0x03, 0x07, 0x5f, 0xcb, 0x84, 0x11, 0xa6, 0x0f,
];

/// What site 0 drew for the stream, which it opened, and what site 1 drew.
pub const NONCE: [u8; 16] = [3; 16];

pub const DRAWN: [u8; 32] = [
    3, 3, 3, 3, 3, 3, 3, 3, 3, 3, 3, 3, 3, 3, 3, 3, 4, 4, 4, 4, 4, 4, 4, 4, 4, 4, 4, 4, 4, 4, 4, 4,
];

/// The bank's id.
pub const BANK: [u8; 32] = [1; 32];

/// The key of site 0 and site 1.
pub const KEY: Option<[u8; 32]> = Some([7; 32]);

/// The link of two actors at the end of the first, over a stream for which these bytes were drawn.
pub fn link(me: u16, peer: u16, key: Option<[u8; 32]>) -> Result<Link, Fail> {
    match Link::new(me, peer, BANK, key) {
        Some(link) => Ok(link.over(&DRAWN)),
        None => Err(Fail::new("they do not talk")),
    }
}

/// The COMMIT with one byte in place of another.
pub fn altered(at: usize, byte: u8) -> [u8; 28] {
    let mut bytes = COMMIT;
    if at < 28 {
        bytes[at] = byte;
    }
    bytes
}
