//! The index of a bit, as C functions return it.
ghost use Rattle.std.specs.Prelude.{◌≡◌};
ghost use Rattle.vb_c_core.specs.Place.{answered_place};

/// The index of a bit: an `Option<usize>` for C. `index` is meaningful only if `found` is true.
#[repr(C)]
#[derive(Clone, Copy)]
pub struct Place {
    /// Whether there is such a bit.
    pub found: bool,
    /// The index, counted from 0; meaningful only if `found` is true.
    pub index: usize,
}

impl From<Option<usize>> for Place {
    ghost from_gives = { λ place result. answered_place result ≡ place };

    fn from(place: Option<usize>) -> Self {
        Place {
            found: place.is_some(),
            index: place.unwrap_or(0),
        }
    }
}
