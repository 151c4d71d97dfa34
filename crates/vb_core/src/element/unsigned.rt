// Written in part by tools/write-lists from tools/families/elements.txt.
//! The unsigned whole numbers as elements.
ghost use Rattle.std.specs.Prelude.{◌^◌, ◌<◌};
ghost use Rattle.std.specs.Int.{w8, w16, w32, w64, w128, to_le_bytes, from_le_bytes};
ghost use Rattle.vb_core.specs.ElementLaws.{unsigned_laws};

use crate::element::Element;

impl Element for u8 {
    const SIZE: usize = 1;

    const ALIGN: usize = 1;

    ghost SIZE = { 1 };

    ghost ALIGN = { 1 };

    ghost align_exponent = { 0 };

    ghost is_in_type = { λ x. x < 2 ^ 8 };

    ghost form = { to_le_bytes w8 };

    ghost value_of = { from_le_bytes w8 };

    ghost zero = { 0 };

    ghost lawful = { unsigned_laws w8 };

    fn zero() -> u8 {
        0
    }

    fn put(self, out: &mut [u8]) {
        out.copy_from_slice(&u8::to_le_bytes(self));
    }

    fn get(bytes: &[u8]) -> u8 {
        let mut form = [0; 1];
        form.copy_from_slice(bytes);
        u8::from_le_bytes(form)
    }

    fn is_value(self) -> bool {
        true
    }
}

impl Element for u16 {
    const SIZE: usize = 2;

    const ALIGN: usize = 2;

    ghost SIZE = { 2 };

    ghost ALIGN = { 2 };

    ghost align_exponent = { 1 };

    ghost is_in_type = { λ x. x < 2 ^ 16 };

    ghost form = { to_le_bytes w16 };

    ghost value_of = { from_le_bytes w16 };

    ghost zero = { 0 };

    ghost lawful = { unsigned_laws w16 };

    fn zero() -> u16 {
        0
    }

    fn put(self, out: &mut [u8]) {
        out.copy_from_slice(&u16::to_le_bytes(self));
    }

    fn get(bytes: &[u8]) -> u16 {
        let mut form = [0; 2];
        form.copy_from_slice(bytes);
        u16::from_le_bytes(form)
    }

    fn is_value(self) -> bool {
        true
    }
}

impl Element for u32 {
    const SIZE: usize = 4;

    const ALIGN: usize = 4;

    ghost SIZE = { 4 };

    ghost ALIGN = { 4 };

    ghost align_exponent = { 2 };

    ghost is_in_type = { λ x. x < 2 ^ 32 };

    ghost form = { to_le_bytes w32 };

    ghost value_of = { from_le_bytes w32 };

    ghost zero = { 0 };

    ghost lawful = { unsigned_laws w32 };

    fn zero() -> u32 {
        0
    }

    fn put(self, out: &mut [u8]) {
        out.copy_from_slice(&u32::to_le_bytes(self));
    }

    fn get(bytes: &[u8]) -> u32 {
        let mut form = [0; 4];
        form.copy_from_slice(bytes);
        u32::from_le_bytes(form)
    }

    fn is_value(self) -> bool {
        true
    }
}

impl Element for u64 {
    const SIZE: usize = 8;

    const ALIGN: usize = 8;

    ghost SIZE = { 8 };

    ghost ALIGN = { 8 };

    ghost align_exponent = { 3 };

    ghost is_in_type = { λ x. x < 2 ^ 64 };

    ghost form = { to_le_bytes w64 };

    ghost value_of = { from_le_bytes w64 };

    ghost zero = { 0 };

    ghost lawful = { unsigned_laws w64 };

    fn zero() -> u64 {
        0
    }

    fn put(self, out: &mut [u8]) {
        out.copy_from_slice(&u64::to_le_bytes(self));
    }

    fn get(bytes: &[u8]) -> u64 {
        let mut form = [0; 8];
        form.copy_from_slice(bytes);
        u64::from_le_bytes(form)
    }

    fn is_value(self) -> bool {
        true
    }
}

impl Element for u128 {
    const SIZE: usize = 16;

    const ALIGN: usize = 16;

    ghost SIZE = { 16 };

    ghost ALIGN = { 16 };

    ghost align_exponent = { 4 };

    ghost is_in_type = { λ x. x < 2 ^ 128 };

    ghost form = { to_le_bytes w128 };

    ghost value_of = { from_le_bytes w128 };

    ghost zero = { 0 };

    ghost lawful = { unsigned_laws w128 };

    fn zero() -> u128 {
        0
    }

    fn put(self, out: &mut [u8]) {
        out.copy_from_slice(&u128::to_le_bytes(self));
    }

    fn get(bytes: &[u8]) -> u128 {
        let mut form = [0; 16];
        form.copy_from_slice(bytes);
        u128::from_le_bytes(form)
    }

    fn is_value(self) -> bool {
        true
    }
}

impl Element for usize {
    const SIZE: usize = 8;

    const ALIGN: usize = 8;

    ghost SIZE = { 8 };

    ghost ALIGN = { 8 };

    ghost align_exponent = { 3 };

    ghost is_in_type = { λ x. x < 2 ^ 64 };

    ghost form = { to_le_bytes w64 };

    ghost value_of = { from_le_bytes w64 };

    ghost zero = { 0 };

    ghost lawful = { unsigned_laws w64 };

    fn zero() -> usize {
        0
    }

    fn put(self, out: &mut [u8]) {
        out.copy_from_slice(&usize::to_le_bytes(self));
    }

    fn get(bytes: &[u8]) -> usize {
        let mut form = [0; 8];
        form.copy_from_slice(bytes);
        usize::from_le_bytes(form)
    }

    fn is_value(self) -> bool {
        true
    }
}
