//! Sums of bytes, by which texts are compared that aren't kept.

/// How many bytes there were, and their hash (that of Fowler, Noll and Vo), which other bytes hardly have.
#[derive(Clone, Copy, PartialEq)]
pub struct Sum {
    /// How many bytes were summed.
    pub length: usize,
    hash: u64,
}

impl Sum {
    /// The sum of no bytes.
    pub const NONE: Sum = Sum {
        length: 0,
        hash: 0xcbf2_9ce4_8422_2325,
    };

    /// The sum of the bytes so far and then these.
    pub fn after(self, bytes: &[u8]) -> Sum {
        let mut hash = self.hash;
        for byte in bytes {
            hash = (hash ^ u64::from(*byte)).wrapping_mul(0x0100_0000_01b3);
        }
        Sum {
            length: self.length.saturating_add(bytes.len()),
            hash,
        }
    }
}
