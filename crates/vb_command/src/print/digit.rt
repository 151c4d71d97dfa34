//! A truth value as a binary digit.
ghost use Rattle.std.specs.Prelude.{◌≡◌};
ghost use Rattle.vb_command.specs.Printed.{digit_of};

/// Returns a truth value as a binary digit.
pub(crate) fn digit(bit: bool) -> &'static str
    ensures { result.now ≡ digit_of bit }
{
    if bit { "1" } else { "0" }
}
