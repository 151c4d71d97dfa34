//! The result of a take, and of a call by group, as C functions return it.
ghost use Rattle.std.specs.Prelude.{◌≡◌};
ghost use Rattle.vb_c_core.specs.Taken.{first_past};

/// The result of a take: the first position that counts and whose index is out of range. Also that
/// of a call by group: the first selected row whose code is out of range. An `Option<usize>` for C:
/// `position` is meaningful only if `out_of_range` is true.
#[repr(C)]
#[derive(Clone, Copy)]
pub struct Taken {
    /// Whether the index of a position that counts, or the code of a selected row, is out of range.
    pub out_of_range: bool,
    /// The first such position or row; meaningful only if `out_of_range` is true.
    pub position: usize,
}

impl From<Option<usize>> for Taken {
    ghost from_gives = { λ position result. first_past result ≡ position };

    fn from(position: Option<usize>) -> Self {
        Taken {
            out_of_range: position.is_some(),
            position: position.unwrap_or(0),
        }
    }
}
