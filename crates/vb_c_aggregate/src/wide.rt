//! Sums of 128 bits, in the layout that C receives.
ghost use Rattle.std.specs.Prelude.{◌≡◌, pos};
ghost use Rattle.vb_c_aggregate.specs.Wide.{unsigned_number, signed_number};

/// An unsigned number of 128 bits for C: `low + high * 2^64`.
#[repr(C)]
#[derive(Clone, Copy)]
pub struct Wide {
    /// Its lower 64 bits.
    pub low: u64,
    /// Its higher 64 bits.
    pub high: u64,
}

impl From<u128> for Wide {
    ghost from_gives = { λ number result. unsigned_number result ≡ pos number };

    fn from(number: u128) -> Self {
        Wide {
            low: (number % 0x1_0000_0000_0000_0000) as u64,
            high: (number / 0x1_0000_0000_0000_0000) as u64,
        }
    }
}

/// A signed number of 128 bits for C: `low + high * 2^64`.
#[repr(C)]
#[derive(Clone, Copy)]
pub struct SignedWide {
    /// Its lower 64 bits, which are not negative.
    pub low: u64,
    /// Its higher 64 bits, with the sign.
    pub high: i64,
}

impl From<i128> for SignedWide {
    ghost from_gives = { λ number result. signed_number result ≡ number };

    fn from(number: i128) -> Self {
        SignedWide {
            low: number.rem_euclid(0x1_0000_0000_0000_0000) as u64,
            high: number.div_euclid(0x1_0000_0000_0000_0000) as i64,
        }
    }
}
