//! Frames that were worked by hand from the formats, and readers that give them in pieces.
use std::alloc::Global;
use std::io::{self, ErrorKind, Read};
use std::test::Fail;

/// COMMIT of view 0, 1 row executed, from site 0 to site 1, clock 5, index 0.
pub const COMMIT: [u8; 28] = [
    0, 0, 0, 24, 2, 4, 0, 200, 0, 0, 0, 0, 0, 0, 0, 5, 0, 0, 0, 0, 0, 201, 0, 0, 0, 0, 0, 1,
];

/// REQUEST 1 of USD's node: its pay-in 1 brought 1200 for member 1. To site 0, clock 1, index 0.
pub const REQUEST: [u8; 42] = [
    0, 0, 0, 38, 2, 1, 0, 102, 0, 0, 0, 0, 0, 0, 0, 1, 0, 0, 0, 0, 0, 200, 0, 0, 0, 1, 3, 1, 0, 0,
    0, 1, 0, 1, 0, 0, 0, 0, 0, 0, 4, 176,
];

/// PAYORDER 1 of USD: 200 for member 1. From site 0 to USD's node, clock 7, index 2.
pub const ORDER: [u8; 37] = [
    0, 0, 0, 33, 2, 13, 0, 200, 0, 0, 0, 0, 0, 0, 0, 7, 0, 0, 0, 2, 0, 102, 1, 0, 0, 0, 1, 0, 1, 0,
    0, 0, 0, 0, 0, 0, 200,
];

/// REPLY of view 0 to request 3 of member 1: refused, as the bank is short. From site 0, clock 7, index 0.
pub const ANSWER: [u8; 32] = [
    0, 0, 0, 28, 2, 12, 0, 200, 0, 0, 0, 0, 0, 0, 0, 7, 0, 0, 0, 0, 0, 1, 0, 0, 0, 0, 0, 0, 0, 3,
    5, 11,
];

/// STARTVIEWCHANGE of view 2, no boot known of any of three sites, from site 2 to site 1, clock 2, index 1.
pub const CHANGE: [u8; 39] = [
    0, 0, 0, 35, 2, 5, 0, 202, 0, 0, 0, 0, 0, 0, 0, 2, 0, 0, 0, 1, 0, 201, 0, 0, 0, 2, 3, 0, 0, 0,
    0, 0, 0, 0, 0, 0, 0, 0, 0,
];

/// DOVIEWCHANGE of view 2, last normal in view 1, nothing executed, boot 1 known of site 0, one row: a Settle of 8. From
/// site 2 to site 1, clock 3, index 0.
pub const VOTE: [u8; 58] = [
    0, 0, 0, 54, 2, 6, 0, 202, 0, 0, 0, 0, 0, 0, 0, 3, 0, 0, 0, 0, 0, 201, 0, 0, 0, 2, 0, 0, 0, 1,
    0, 0, 3, 0, 0, 0, 1, 0, 0, 0, 0, 0, 0, 0, 0, 0, 1, 0, 0, 0, 0, 0, 1, 4, 0, 0, 0, 8,
];

/// RECOVERYRESPONSE of view 2 to nonce 1, boot 1 known of site 2, with a state that has no row. From site 0 to site 2,
/// clock 4, index 1.
pub const REGAINED: [u8; 48] = [
    0, 0, 0, 44, 2, 11, 0, 200, 0, 0, 0, 0, 0, 0, 0, 4, 0, 0, 0, 1, 0, 202, 0, 0, 0, 2, 0, 0, 0, 1,
    3, 0, 0, 0, 0, 0, 0, 0, 0, 0, 0, 0, 1, 1, 0, 0, 0, 0,
];

/// Ten frames, some of them for site 1 and some for others. The bank sends none of them.
pub const STRANGE: [&[u8]; 10] = [
    &COMMIT, &CHANGE, &VOTE, &REQUEST, &REGAINED, &ORDER, &ANSWER, &COMMIT, &CHANGE, &COMMIT,
];

/// How many bytes each of them has.
pub const SIZES: [usize; 10] = [28, 39, 58, 42, 48, 37, 32, 28, 39, 28];

/// Ten frames for site 1 that the bank sends. REQUEST 1 of the operator, of clock 1 and index 1,
/// asks for a Settle of 1. Those of site 0 have index 0: a COMMIT of view 0, nothing executed, at
/// its clocks 1 to 4, and a PREPARE of view 0, place 1, nothing executed, the row of that request,
/// at its clocks 5 to 9.
pub const SENT: [&[u8]; 10] = [
    &[
        0, 0, 0, 27, 2, 1, 0, 0, 0, 0, 0, 0, 0, 0, 0, 1, 0, 0, 0, 1, 0, 201, 0, 0, 0, 1, 4, 0, 0,
        0, 1,
    ],
    &[
        0, 0, 0, 24, 2, 4, 0, 200, 0, 0, 0, 0, 0, 0, 0, 1, 0, 0, 0, 0, 0, 201, 0, 0, 0, 0, 0, 0,
    ],
    &[
        0, 0, 0, 24, 2, 4, 0, 200, 0, 0, 0, 0, 0, 0, 0, 2, 0, 0, 0, 0, 0, 201, 0, 0, 0, 0, 0, 0,
    ],
    &[
        0, 0, 0, 24, 2, 4, 0, 200, 0, 0, 0, 0, 0, 0, 0, 3, 0, 0, 0, 0, 0, 201, 0, 0, 0, 0, 0, 0,
    ],
    &[
        0, 0, 0, 24, 2, 4, 0, 200, 0, 0, 0, 0, 0, 0, 0, 4, 0, 0, 0, 0, 0, 201, 0, 0, 0, 0, 0, 0,
    ],
    &[
        0, 0, 0, 37, 2, 2, 0, 200, 0, 0, 0, 0, 0, 0, 0, 5, 0, 0, 0, 0, 0, 201, 0, 0, 0, 0, 0, 1, 0,
        0, 0, 0, 0, 0, 0, 1, 4, 0, 0, 0, 1,
    ],
    &[
        0, 0, 0, 37, 2, 2, 0, 200, 0, 0, 0, 0, 0, 0, 0, 6, 0, 0, 0, 0, 0, 201, 0, 0, 0, 0, 0, 1, 0,
        0, 0, 0, 0, 0, 0, 1, 4, 0, 0, 0, 1,
    ],
    &[
        0, 0, 0, 37, 2, 2, 0, 200, 0, 0, 0, 0, 0, 0, 0, 7, 0, 0, 0, 0, 0, 201, 0, 0, 0, 0, 0, 1, 0,
        0, 0, 0, 0, 0, 0, 1, 4, 0, 0, 0, 1,
    ],
    &[
        0, 0, 0, 37, 2, 2, 0, 200, 0, 0, 0, 0, 0, 0, 0, 8, 0, 0, 0, 0, 0, 201, 0, 0, 0, 0, 0, 1, 0,
        0, 0, 0, 0, 0, 0, 1, 4, 0, 0, 0, 1,
    ],
    &[
        0, 0, 0, 37, 2, 2, 0, 200, 0, 0, 0, 0, 0, 0, 0, 9, 0, 0, 0, 0, 0, 201, 0, 0, 0, 0, 0, 1, 0,
        0, 0, 0, 0, 0, 0, 1, 4, 0, 0, 0, 1,
    ],
];

/// How many bytes each of these has.
pub const SENT_SIZES: [usize; 10] = [31, 28, 28, 28, 28, 41, 41, 41, 41, 41];

/// Whether the bank sends this frame.
pub fn is_sent(frame: &[u8]) -> bool {
    SENT.iter().any(|sent| *sent == frame)
}

/// Frames one after the other.
pub fn joined(alloc: Global, frames: &[&[u8]]) -> Result<Vec<u8>, Fail> {
    let mut bytes = Vec::new(alloc);
    for frame in frames {
        bytes.extend_from_slice(frame)?;
    }
    Ok(bytes)
}

/// How many frames of these sizes are whole in so many bytes, and how many bytes come behind.
pub fn whole_frames(sizes: &[usize], count: usize) -> (usize, usize) {
    let mut left = count;
    for (frames, size) in sizes.iter().copied().enumerate() {
        if left < size {
            return (frames, left);
        }
        left -= size;
    }
    (sizes.len(), left)
}

/// The COMMIT with other bytes from a place on.
pub fn commit_with(at: usize, bytes: &[u8]) -> [u8; 28] {
    let mut frame = COMMIT;
    for (place, byte) in frame.iter_mut().skip(at).zip(bytes) {
        *place = *byte;
    }
    frame
}

/// A reader that gives bytes in pieces of a size, and fails after so many reads, if after any.
#[derive(Drop)]
pub struct Pieces<'a> {
    pub left: &'a [u8],
    pub size: usize,
    pub good: Option<usize>,
}

impl<'a> Pieces<'a> {
    /// A reader that gives all at once, and then ends.
    pub fn whole(left: &'a [u8]) -> Self {
        Pieces {
            left,
            size: 4096,
            good: None,
        }
    }
}

impl Read for Pieces<'_> {
    fn read(&mut self, buf: &mut [u8]) -> io::Result<usize> {
        if let Some(good) = self.good {
            if good == 0 {
                return Err(io::Error::from(ErrorKind::Other));
            }
            self.good = Some(good - 1);
        }
        let count = self.size.min(self.left.len()).min(buf.len());
        let (piece, left) = self.left.split_at(count);
        buf[..count].copy_from_slice(piece);
        self.left = left;
        Ok(count)
    }
}
