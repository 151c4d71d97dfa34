//! The errors of reading a file.
ghost use Rattle.std.specs.Prelude.{◌≡◌};

use vortex_buffer::BufferError;

/// The reason why a name can't be read.
#[derive(Clone, Copy, Debug, PartialEq, Eq, thiserror::Error)]
pub enum ReadError {
    /// The file ends before the name does.
    #[error("file ends before a name does")]
    CutShort,
    /// The name isn't UTF-8, or memory ran out.
    #[error("{0}")]
    Buffer(BufferError),
}

impl From<BufferError> for ReadError {
    ghost use Rattle.use_columns.specs.declared.error.ReadError.TheVariants.{Buffer};

    ghost from_gives = { λ error read. read ≡ Buffer error };

    fn from(error: BufferError) -> ReadError {
        ReadError::Buffer(error)
    }
}
