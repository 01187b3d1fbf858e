//! The vectors of RFC 4231 for HMAC-SHA256, and keys and tags of another program's HMAC.

use pvp_tags::{hmac, key_of, tag_of};
use std::process::Abort;
use std::test::Fail;

/// A key, a message, and the HMAC of it.
type Vector = (&'static [u8], &'static [u8], &'static [u8]);

const VECTORS: &[Vector] = &[
    (
        &[0x0b; 20],
        b"Hi There",
        b"\xb0\x34\x4c\x61\xd8\xdb\x38\x53\x5c\xa8\xaf\xce\xaf\x0b\xf1\x2b\
          \x88\x1d\xc2\x00\xc9\x83\x3d\xa7\x26\xe9\x37\x6c\x2e\x32\xcf\xf7",
    ),
    (
        b"Jefe",
        b"what do ya want for nothing?",
        b"\x5b\xdc\xc1\x46\xbf\x60\x75\x4e\x6a\x04\x24\x26\x08\x95\x75\xc7\
          \x5a\x00\x3f\x08\x9d\x27\x39\x83\x9d\xec\x58\xb9\x64\xec\x38\x43",
    ),
    (
        &[0xaa; 20],
        &[0xdd; 50],
        b"\x77\x3e\xa9\x1e\x36\x80\x0e\x46\x85\x4d\xb8\xeb\xd0\x91\x81\xa7\
          \x29\x59\x09\x8b\x3e\xf8\xc1\x22\xd9\x63\x55\x14\xce\xd5\x65\xfe",
    ),
    (
        b"\x01\x02\x03\x04\x05\x06\x07\x08\x09\x0a\x0b\x0c\x0d\x0e\x0f\x10\
          \x11\x12\x13\x14\x15\x16\x17\x18\x19",
        &[0xcd; 50],
        b"\x82\x55\x8a\x38\x9a\x44\x3c\x0e\xa4\xcc\x81\x98\x99\xf2\x08\x3a\
          \x85\xf0\xfa\xa3\xe5\x78\xf8\x07\x7a\x2e\x3f\xf4\x67\x29\x66\x5b",
    ),
    (
        &[0x0c; 20],
        b"Test With Truncation",
        b"\xa3\xb6\x16\x74\x73\x10\x0e\xe0\x6e\x0c\x79\x6c\x29\x55\x55\x2b\
          \xfa\x6f\x7c\x0a\x6a\x8a\xef\x8b\x93\xf8\x60\xaa\xb0\xcd\x20\xc5",
    ),
    (
        &[0xaa; 131],
        b"Test Using Larger Than Block-Size Key - Hash Key First",
        b"\x60\xe4\x31\x59\x1e\xe0\xb6\x7f\x0d\x8a\x26\xaa\xcb\xf5\xb7\x7f\
          \x8e\x0b\xc6\x21\x37\x28\xc5\x14\x05\x46\x04\x0f\x0e\xe3\x7f\x54",
    ),
    (
        &[0xaa; 131],
        b"This is a test using a larger than block-size key and a larger than block-size data. The key needs to be hashed before being used by the HMAC algorithm.",
        b"\x9b\x09\xff\xa7\x1b\x94\x2f\xcb\x27\x63\x5f\xbc\xd5\xb0\xe9\x44\
          \xbf\xdc\x63\x64\x4f\x07\x13\x93\x8a\x7f\x51\x53\x5c\x3a\x35\xe2",
    ),
];

#[test]
fn vectors_of_the_standard(rt: HostRuntime) -> Result<(), Fail> {
    for vector in VECTORS {
        is_right(&rt, *vector)?;
    }
    Ok(())
}

/// The HMAC of a vector's message is as it says, of the message as one piece and of two: its first five bytes and the rest.
fn is_right<R: Abort>(rt: &R, (key, message, want): Vector) -> Result<(), Fail> {
    let Some((first, second)) = message.split_at_checked(5) else {
        return Err(Fail::new("the message is too short"));
    };
    is_hmac(rt, key, message, &[], want);
    is_hmac(rt, key, first, second, want);
    Ok(())
}

/// The HMAC of two pieces under a key is this.
fn is_hmac<R: Abort>(rt: &R, key: &[u8], first: &[u8], second: &[u8], want: &[u8]) {
    assert!(rt; hmac(key, first, second).as_slice() == want);
}

/// The key of sites 0 and 1 by the secret `secret`.
const OF_PAIR: &[u8] = b"\x75\x33\x01\xcf\xda\x34\x45\x2a\xf5\x30\xf0\xd5\x0a\xc4\x98\x55\
    \x73\xca\xa8\x7f\x34\x52\xf2\x96\x8a\xf7\xac\x2c\x8c\xf1\x0f\x7c";

#[test]
fn a_pair_has_one_key(rt: HostRuntime) -> Result<(), Fail> {
    is_of_pair(&rt, b"secret", 200, 201, true);
    is_of_pair(&rt, b"secret", 201, 200, true);
    is_of_pair(&rt, b"secret", 200, 202, false);
    is_of_pair(&rt, b"Secret", 200, 201, false);
    Ok(())
}

/// The key of two actors by a secret is `OF_PAIR`, or is not.
fn is_of_pair<R: Abort>(rt: &R, secret: &[u8], one: u16, other: u16, want: bool) {
    assert!(rt; (key_of(secret, one, other).as_slice() == OF_PAIR) == want);
}

/// The tag of `frame` by a key of bytes 7, in the bank whose id has bytes 1.
const OF_FRAME: &[u8] = b"\x67\x94\xcb\x41\x3f\x84\x6e\x47\x12\x8b\xde\xc4\x11\x61\x1a\xd0";

#[test]
fn a_tag_is_of_a_frame_and_a_bank(rt: HostRuntime) -> Result<(), Fail> {
    is_of_frame(&rt, 7, 1, b"frame", true);
    is_of_frame(&rt, 7, 2, b"frame", false);
    is_of_frame(&rt, 8, 1, b"frame", false);
    is_of_frame(&rt, 7, 1, b"frames", false);
    Ok(())
}

/// The tag of a frame, by a key and in a bank whose bytes are all these, is `OF_FRAME`, or is not.
fn is_of_frame<R: Abort>(rt: &R, key: u8, bank: u8, frame: &[u8], want: bool) {
    assert!(rt; (tag_of(&[key; 32], &[bank; 32], frame).as_slice() == OF_FRAME) == want);
}
