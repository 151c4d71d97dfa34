//! A digest of all results.
use vortex_buffer::BitBufferView;

/// A sum of all results so far, and a sum that depends on their order.
#[derive(Clone, Copy)]
pub struct Digest {
    sum: u64,
    order: u64,
}

impl Digest {
    /// Returns the digest of no results.
    pub fn new() -> Self {
        Digest { sum: 0, order: 0 }
    }

    /// Returns the sum of the results.
    pub fn sum(&self) -> u64 {
        self.sum
    }

    /// Returns the sum that depends on their order.
    pub fn order(&self) -> u64 {
        self.order
    }

    /// Adds a number.
    #[inline(always)]
    pub fn add(&mut self, number: u64) {
        self.sum = self.sum.wrapping_add(number);
        self.order = self.order.wrapping_add(self.sum);
    }

    /// Adds a count or an index.
    #[inline(always)]
    pub fn add_place(&mut self, place: usize) {
        self.add(place as u64);
    }

    /// Adds an index, or `u64::MAX` if there is none.
    #[inline(always)]
    pub fn add_option(&mut self, place: Option<usize>) {
        match place {
            Some(place) => self.add_place(place),
            None => self.add(u64::MAX),
        }
    }

    /// Adds values and their number.
    pub fn add_values(&mut self, values: &[u32]) {
        let mut digest = *self;
        for value in values {
            digest.add(u64::from(*value));
        }
        digest.add_place(values.len());
        *self = digest;
    }

    /// Adds bytes and their number.
    pub fn add_bytes(&mut self, bytes: &[u8]) {
        let mut digest = *self;
        for byte in bytes {
            digest.add(u64::from(*byte));
        }
        digest.add_place(bytes.len());
        *self = digest;
    }

    /// Adds the words of bits and the number of bits.
    pub fn add_bits(&mut self, bits: BitBufferView<'_>) {
        for word in bits.chunks().iter_padded() {
            self.add(word);
        }
        self.add_place(bits.len());
    }
}
