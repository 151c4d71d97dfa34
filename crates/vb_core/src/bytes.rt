//! Converts lists of elements to bytes and back. The bytes of a list are the bytes of its elements,
//! one element after the other: [`Element::put`] writes them, and [`Element::get`] reads them.
ghost use Rattle.std.specs.Prelude.{◌≡◌, ◌≢◌, ◌+◌, ◌*◌, ◌%◌, ◌^◌, ◌<◌, ◌≤◌, [], ◌++◌};
ghost use Rattle.std.specs.Prelude.{length, vec_capacity, IfOk, IfErr, IsOk, IsErrOf};
ghost use Rattle.vb_core.specs.MakesBytes.{MakesBytes, ReadsBytes};
ghost use Rattle.vb_core.specs.ByteForm.{byteform, IsReadFrom};

use crate::Result;
use crate::element::Element;
use crate::error::BufferError;
use std::alloc::Allocator;

/// Returns the number of bytes of `items` items. Returns `TooManyBytes` exactly if the number
/// exceeds `usize::MAX`.
pub fn byte_count<T: Element>(items: usize) -> Result<usize>
    ensures fits { items * T.SIZE < 2 ^ 64 → result ≡ Ok (items * T.SIZE) }
    ensures too_many { 2 ^ 64 ≤ items * T.SIZE → IsErrOf result BufferError.TooManyBytes }
    ensures ok { IfOk result (λ bytes. bytes ≡ items * T.SIZE) }
    ensures err { IfErr result (λ e. (2 ^ 64 ≤ items * T.SIZE)
        × (e ≡ BufferError.TooManyBytes)) }
{
    items.checked_mul(T::SIZE).ok_or(BufferError::TooManyBytes)
}

/// Returns the number of items that `len` bytes hold. Returns `ByteLength` exactly if the size of
/// an item does not divide `len`.
pub fn item_count<T: Element>(len: usize) -> Result<usize>
    ensures items { IfOk result (λ items. items * T.SIZE ≡ len) }
    ensures whole { len % T.SIZE ≡ 0 → IsOk result }
    ensures uneven { len % T.SIZE ≢ 0 → IsErrOf result (BufferError.ByteLength len T.SIZE) }
{
    let size = T::SIZE;
    if len % size != 0 {
        return Err(BufferError::ByteLength { len, size });
    }
    Ok(len / size)
}

/// Appends the bytes of `items` to `bytes`. The caller must prove that the vector has capacity for
/// them. The capacity does not change. The loop compiles to block moves and writes each byte once.
pub fn push_bytes<T: Element, A: Allocator>(items: &[T], bytes: &mut Vec<u8, A>)
    requires { length bytes.old.items + length items.now * T.SIZE ≤ vec_capacity bytes.old }
    ensures form { bytes.new.items ≡ bytes.old.items ++ byteform T.form items.now }
    ensures capacity { vec_capacity bytes.new ≡ vec_capacity bytes.old }
{
    for item in items {
        push_form(*item, bytes);
    }
}

/// Appends the bytes of `item` to `bytes`. The caller must prove that the vector has capacity for
/// them. The compiler never stores the zeros, since it sees that `put` overwrites them.
fn push_form<T: Element, A: Allocator>(item: T, bytes: &mut Vec<u8, A>)
    requires { length bytes.old.items + T.SIZE ≤ vec_capacity bytes.old }
    ensures form { bytes.new.items ≡ bytes.old.items ++ T.form item }
    ensures len { length bytes.new.items ≡ length bytes.old.items + T.SIZE }
    ensures capacity { vec_capacity bytes.new ≡ vec_capacity bytes.old }
{
    let start = bytes.len();
    for _ in 0..T::SIZE {
        bytes.push_reserved(0);
    }
    item.put(&mut bytes[start..]);
}

/// Reads the items whose bytes are `bytes` into `items`, each item once. No other items have these
/// bytes. The loop compiles to block moves. The caller must prove that `items` is empty and has
/// capacity for them, and that the size of an item divides the number of bytes.
pub fn read_items<T: Element, A: Allocator>(bytes: &[u8], items: &mut Vec<T, A>)
    requires empty { items.old.items ≡ [] }
    requires whole { length bytes.now % T.SIZE ≡ 0 }
    requires room { length bytes.now ≤ vec_capacity items.old * T.SIZE }
    ensures { IsReadFrom T.SIZE T.form T.is_in_type bytes.now items.new.items }
{
    for chunk in bytes.chunks_exact(T::SIZE) {
        items.push_reserved(T::get(chunk));
    }
}

/// Returns the bytes of `items` in a new vector. Returns `TooManyBytes`, before it allocates, if
/// their number exceeds `usize::MAX`. Otherwise it returns `OutOfMemory` if memory runs out.
pub fn bytes_of<T: Element, A: Allocator + Clone>(alloc: &A, items: &[T]) -> Result<Vec<u8, A>>
    ensures { MakesBytes (length items.now * T.SIZE)
        (λ bytes. bytes.items ≡ byteform T.form items.now) result }
{
    let len = byte_count::<T>(items.len())?;
    let mut bytes = Vec::with_capacity(alloc.clone()?, len)?;
    push_bytes(items, &mut bytes);
    Ok(bytes)
}

/// Returns the items whose bytes are `bytes`, in a new vector. Returns `ByteLength`, before it
/// allocates, if the size of an item does not divide the number of bytes. Otherwise it returns
/// `OutOfMemory` if memory runs out.
pub fn items_of<T: Element, A: Allocator + Clone>(alloc: &A, bytes: &[u8]) -> Result<Vec<T, A>>
    ensures { ReadsBytes (length bytes.now) T.SIZE
        (λ items. IsReadFrom T.SIZE T.form T.is_in_type bytes.now items.items) result }
{
    let len = item_count::<T>(bytes.len())?;
    let mut items = Vec::with_capacity(alloc.clone()?, len)?;
    read_items(bytes, &mut items);
    Ok(items)
}
