// Written by tools/write-lists from tools/families/masked_sums.txt.
//! Values that may be missing, in the layout that C receives.
ghost use Rattle.std.specs.Prelude.{◌≡◌};
ghost use Rattle.vb_c_aggregate.specs.Optional.{optional_u8, optional_u16};
ghost use Rattle.vb_c_aggregate.specs.Optional.{optional_u32, optional_u64};
ghost use Rattle.vb_c_aggregate.specs.Optional.{optional_i8, optional_i16};
ghost use Rattle.vb_c_aggregate.specs.Optional.{optional_i32, optional_i64};
ghost use Rattle.vb_c_aggregate.specs.Optional.{optional_f32, optional_f64};

/// An `Option<u8>` for C.
#[repr(C)]
#[derive(Clone, Copy)]
pub struct OptionalU8 {
    /// Whether there is a value.
    pub has_value: bool,
    /// The value; meaningful only if `has_value` is true.
    pub value: u8,
}

impl From<Option<u8>> for OptionalU8 {
    ghost from_gives = { λ option result. optional_u8 result ≡ option };

    fn from(option: Option<u8>) -> Self {
        OptionalU8 {
            has_value: option.is_some(),
            value: option.unwrap_or(0),
        }
    }
}

/// An `Option<u16>` for C.
#[repr(C)]
#[derive(Clone, Copy)]
pub struct OptionalU16 {
    /// Whether there is a value.
    pub has_value: bool,
    /// The value; meaningful only if `has_value` is true.
    pub value: u16,
}

impl From<Option<u16>> for OptionalU16 {
    ghost from_gives = { λ option result. optional_u16 result ≡ option };

    fn from(option: Option<u16>) -> Self {
        OptionalU16 {
            has_value: option.is_some(),
            value: option.unwrap_or(0),
        }
    }
}

/// An `Option<u32>` for C.
#[repr(C)]
#[derive(Clone, Copy)]
pub struct OptionalU32 {
    /// Whether there is a value.
    pub has_value: bool,
    /// The value; meaningful only if `has_value` is true.
    pub value: u32,
}

impl From<Option<u32>> for OptionalU32 {
    ghost from_gives = { λ option result. optional_u32 result ≡ option };

    fn from(option: Option<u32>) -> Self {
        OptionalU32 {
            has_value: option.is_some(),
            value: option.unwrap_or(0),
        }
    }
}

/// An `Option<u64>` for C.
#[repr(C)]
#[derive(Clone, Copy)]
pub struct OptionalU64 {
    /// Whether there is a value.
    pub has_value: bool,
    /// The value; meaningful only if `has_value` is true.
    pub value: u64,
}

impl From<Option<u64>> for OptionalU64 {
    ghost from_gives = { λ option result. optional_u64 result ≡ option };

    fn from(option: Option<u64>) -> Self {
        OptionalU64 {
            has_value: option.is_some(),
            value: option.unwrap_or(0),
        }
    }
}

/// An `Option<i8>` for C.
#[repr(C)]
#[derive(Clone, Copy)]
pub struct OptionalI8 {
    /// Whether there is a value.
    pub has_value: bool,
    /// The value; meaningful only if `has_value` is true.
    pub value: i8,
}

impl From<Option<i8>> for OptionalI8 {
    ghost from_gives = { λ option result. optional_i8 result ≡ option };

    fn from(option: Option<i8>) -> Self {
        OptionalI8 {
            has_value: option.is_some(),
            value: option.unwrap_or(0),
        }
    }
}

/// An `Option<i16>` for C.
#[repr(C)]
#[derive(Clone, Copy)]
pub struct OptionalI16 {
    /// Whether there is a value.
    pub has_value: bool,
    /// The value; meaningful only if `has_value` is true.
    pub value: i16,
}

impl From<Option<i16>> for OptionalI16 {
    ghost from_gives = { λ option result. optional_i16 result ≡ option };

    fn from(option: Option<i16>) -> Self {
        OptionalI16 {
            has_value: option.is_some(),
            value: option.unwrap_or(0),
        }
    }
}

/// An `Option<i32>` for C.
#[repr(C)]
#[derive(Clone, Copy)]
pub struct OptionalI32 {
    /// Whether there is a value.
    pub has_value: bool,
    /// The value; meaningful only if `has_value` is true.
    pub value: i32,
}

impl From<Option<i32>> for OptionalI32 {
    ghost from_gives = { λ option result. optional_i32 result ≡ option };

    fn from(option: Option<i32>) -> Self {
        OptionalI32 {
            has_value: option.is_some(),
            value: option.unwrap_or(0),
        }
    }
}

/// An `Option<i64>` for C.
#[repr(C)]
#[derive(Clone, Copy)]
pub struct OptionalI64 {
    /// Whether there is a value.
    pub has_value: bool,
    /// The value; meaningful only if `has_value` is true.
    pub value: i64,
}

impl From<Option<i64>> for OptionalI64 {
    ghost from_gives = { λ option result. optional_i64 result ≡ option };

    fn from(option: Option<i64>) -> Self {
        OptionalI64 {
            has_value: option.is_some(),
            value: option.unwrap_or(0),
        }
    }
}

/// An `Option<f32>` for C.
#[repr(C)]
#[derive(Clone, Copy)]
pub struct OptionalF32 {
    /// Whether there is a value.
    pub has_value: bool,
    /// The value; meaningful only if `has_value` is true.
    pub value: f32,
}

impl From<Option<f32>> for OptionalF32 {
    ghost from_gives = { λ option result. optional_f32 result ≡ option };

    fn from(option: Option<f32>) -> Self {
        OptionalF32 {
            has_value: option.is_some(),
            value: option.unwrap_or(0.0),
        }
    }
}

/// An `Option<f64>` for C.
#[repr(C)]
#[derive(Clone, Copy)]
pub struct OptionalF64 {
    /// Whether there is a value.
    pub has_value: bool,
    /// The value; meaningful only if `has_value` is true.
    pub value: f64,
}

impl From<Option<f64>> for OptionalF64 {
    ghost from_gives = { λ option result. optional_f64 result ≡ option };

    fn from(option: Option<f64>) -> Self {
        OptionalF64 {
            has_value: option.is_some(),
            value: option.unwrap_or(0.0),
        }
    }
}
