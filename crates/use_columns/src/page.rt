//! A column, read from a page of a file.
ghost use Rattle.std.specs.Prelude.{◌≡◌, IfOk, IfErr};
ghost use Rattle.use_columns.specs.Page.{IsPage, IsNoPageOrMemory};

use crate::column::Column;
use std::alloc::Allocator;
use vortex_buffer::{Alignment, BitBuffer, Buffer, BufferError, ByteBuffer};

/// The reason why a page can't be read.
#[derive(Clone, Copy, Debug, PartialEq, Eq, thiserror::Error)]
pub enum PageError {
    /// The page doesn't have the number of bytes that its number of rows requires.
    #[error("page is cut short or too long")]
    Length,
    /// Memory ran out.
    #[error("{0}")]
    Buffer(BufferError),
}

impl From<BufferError> for PageError {
    ghost use Rattle.use_columns.specs.declared.page.PageError.TheVariants.{Buffer};

    ghost from_gives = { λ error read. read ≡ Buffer error };

    fn from(error: BufferError) -> PageError {
        PageError::Buffer(error)
    }
}

/// Returns the column of a page: the number of rows in one byte, then the mask, then the values in
/// four bytes each. The mask shares the page's storage, and the values are copied into new storage.
/// Returns `Length` exactly if the page has too few or too many bytes, and otherwise
/// `Buffer(OutOfMemory)` if memory runs out.
pub fn read_page<A: Allocator + Clone>(page: &ByteBuffer<A>) -> Result<Column<A>, PageError>
    ensures ok { IfOk result (IsPage page.now.list) }
    ensures err { IfErr result (IsNoPageOrMemory page.now.list) }
{
    let Some(first) = page.as_slice().first() else {
        return Err(PageError::Length);
    };
    let rows = usize::from(*first);
    let start = 1 + rows.div_ceil(8);
    if page.len() != start + 4 * rows {
        return Err(PageError::Length);
    }
    let alloc = page.allocator().clone().map_err(BufferError::from)?;
    let bytes = &page.as_slice()[start..];
    let values = Buffer::read_from(alloc, bytes, Alignment::of::<u32>())?;
    let mask = page.clone()?;
    let valid = BitBuffer::new_with_offset(mask, rows, 8);
    Ok(Column::new(values, valid))
}
