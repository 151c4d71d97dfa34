// Written in part by tools/write-lists from tools/families/elements.txt.
//! The signed whole numbers as elements, in two's complement.
ghost use Rattle.std.specs.Prelude.{FitsSigned, pos};
ghost use Rattle.std.specs.Int.{w8, w16, w32, w64, w128, to_le_bytes, from_le_bytes, cast_signed};
ghost use Rattle.std.specs.Int.{cast_unsigned};
ghost use Rattle.vb_core.specs.ElementLaws.{signed_laws};

use crate::element::Element;

impl Element for i8 {
    const SIZE: usize = 1;

    const ALIGN: usize = 1;

    ghost SIZE = { 1 };

    ghost ALIGN = { 1 };

    ghost align_exponent = { 0 };

    ghost is_in_type = { FitsSigned w8 };

    ghost form = { λ x. to_le_bytes w8 (cast_unsigned w8 x) };

    ghost value_of = { λ bytes. cast_signed w8 (from_le_bytes w8 bytes) };

    ghost zero = { pos 0 };

    ghost lawful = { signed_laws w8 };

    fn zero() -> i8 {
        0
    }

    fn put(self, out: &mut [u8]) {
        out.copy_from_slice(&i8::to_le_bytes(self));
    }

    fn get(bytes: &[u8]) -> i8 {
        let mut form = [0; 1];
        form.copy_from_slice(bytes);
        i8::from_le_bytes(form)
    }

    fn is_value(self) -> bool {
        true
    }
}

impl Element for i16 {
    const SIZE: usize = 2;

    const ALIGN: usize = 2;

    ghost SIZE = { 2 };

    ghost ALIGN = { 2 };

    ghost align_exponent = { 1 };

    ghost is_in_type = { FitsSigned w16 };

    ghost form = { λ x. to_le_bytes w16 (cast_unsigned w16 x) };

    ghost value_of = { λ bytes. cast_signed w16 (from_le_bytes w16 bytes) };

    ghost zero = { pos 0 };

    ghost lawful = { signed_laws w16 };

    fn zero() -> i16 {
        0
    }

    fn put(self, out: &mut [u8]) {
        out.copy_from_slice(&i16::to_le_bytes(self));
    }

    fn get(bytes: &[u8]) -> i16 {
        let mut form = [0; 2];
        form.copy_from_slice(bytes);
        i16::from_le_bytes(form)
    }

    fn is_value(self) -> bool {
        true
    }
}

impl Element for i32 {
    const SIZE: usize = 4;

    const ALIGN: usize = 4;

    ghost SIZE = { 4 };

    ghost ALIGN = { 4 };

    ghost align_exponent = { 2 };

    ghost is_in_type = { FitsSigned w32 };

    ghost form = { λ x. to_le_bytes w32 (cast_unsigned w32 x) };

    ghost value_of = { λ bytes. cast_signed w32 (from_le_bytes w32 bytes) };

    ghost zero = { pos 0 };

    ghost lawful = { signed_laws w32 };

    fn zero() -> i32 {
        0
    }

    fn put(self, out: &mut [u8]) {
        out.copy_from_slice(&i32::to_le_bytes(self));
    }

    fn get(bytes: &[u8]) -> i32 {
        let mut form = [0; 4];
        form.copy_from_slice(bytes);
        i32::from_le_bytes(form)
    }

    fn is_value(self) -> bool {
        true
    }
}

impl Element for i64 {
    const SIZE: usize = 8;

    const ALIGN: usize = 8;

    ghost SIZE = { 8 };

    ghost ALIGN = { 8 };

    ghost align_exponent = { 3 };

    ghost is_in_type = { FitsSigned w64 };

    ghost form = { λ x. to_le_bytes w64 (cast_unsigned w64 x) };

    ghost value_of = { λ bytes. cast_signed w64 (from_le_bytes w64 bytes) };

    ghost zero = { pos 0 };

    ghost lawful = { signed_laws w64 };

    fn zero() -> i64 {
        0
    }

    fn put(self, out: &mut [u8]) {
        out.copy_from_slice(&i64::to_le_bytes(self));
    }

    fn get(bytes: &[u8]) -> i64 {
        let mut form = [0; 8];
        form.copy_from_slice(bytes);
        i64::from_le_bytes(form)
    }

    fn is_value(self) -> bool {
        true
    }
}

impl Element for i128 {
    const SIZE: usize = 16;

    const ALIGN: usize = 16;

    ghost SIZE = { 16 };

    ghost ALIGN = { 16 };

    ghost align_exponent = { 4 };

    ghost is_in_type = { FitsSigned w128 };

    ghost form = { λ x. to_le_bytes w128 (cast_unsigned w128 x) };

    ghost value_of = { λ bytes. cast_signed w128 (from_le_bytes w128 bytes) };

    ghost zero = { pos 0 };

    ghost lawful = { signed_laws w128 };

    fn zero() -> i128 {
        0
    }

    fn put(self, out: &mut [u8]) {
        out.copy_from_slice(&i128::to_le_bytes(self));
    }

    fn get(bytes: &[u8]) -> i128 {
        let mut form = [0; 16];
        form.copy_from_slice(bytes);
        i128::from_le_bytes(form)
    }

    fn is_value(self) -> bool {
        true
    }
}

impl Element for isize {
    const SIZE: usize = 8;

    const ALIGN: usize = 8;

    ghost SIZE = { 8 };

    ghost ALIGN = { 8 };

    ghost align_exponent = { 3 };

    ghost is_in_type = { FitsSigned w64 };

    ghost form = { λ x. to_le_bytes w64 (cast_unsigned w64 x) };

    ghost value_of = { λ bytes. cast_signed w64 (from_le_bytes w64 bytes) };

    ghost zero = { pos 0 };

    ghost lawful = { signed_laws w64 };

    fn zero() -> isize {
        0
    }

    fn put(self, out: &mut [u8]) {
        out.copy_from_slice(&isize::to_le_bytes(self));
    }

    fn get(bytes: &[u8]) -> isize {
        let mut form = [0; 8];
        form.copy_from_slice(bytes);
        isize::from_le_bytes(form)
    }

    fn is_value(self) -> bool {
        true
    }
}
