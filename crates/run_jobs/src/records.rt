//! Texts one after the other in a page of bytes.
use crate::digest::Digest;
use crate::random::Random;
use anyhow::Result;
use std::alloc::Global;
use std::hash::{FoldHasher, Hash, Hasher};
use vortex_buffer::{AlignedBuf, Alignment, BufferString, ByteBuffer, ByteBufferMut};

/// The number of texts in a page.
const TEXTS: usize = 3_000;

/// A page of texts, with the start of each and the end of the page.
#[derive(Drop)]
pub struct Records {
    page: ByteBuffer,
    starts: Vec<usize>,
}

impl Records {
    /// Returns texts of 10 to 1,010 bytes, some of which have letters that aren't ASCII.
    pub fn new(alloc: Global, random: &mut Random) -> Result<Self> {
        let mut page = ByteBufferMut::empty(alloc);
        let mut starts = Vec::new(alloc);
        for _ in 0..TEXTS {
            starts.push(page.len())?;
            push_text(&mut page, random)?;
        }
        starts.push(page.len())?;
        Ok(Records {
            page: page.freeze()?,
            starts,
        })
    }

    /// Adds the texts: first as shared parts of the page, compared and hashed, then as copies that
    /// are read from its front.
    pub fn read(&self, alloc: Global, digest: &mut Digest) -> Result<()> {
        let starts = self.starts.as_slice();
        self.parts(starts, digest)?;
        self.copies(alloc, starts, digest)
    }

    /// Adds the texts between these indices as parts of the page, each compared with the one
    /// before.
    fn parts(&self, starts: &[usize], digest: &mut Digest) -> Result<()> {
        let mut before = self.page.slice_unaligned(0..0)?;
        let mut at = 0;
        for start in starts {
            let end = (*start).min(self.page.len());
            if at <= end {
                let part = self.page.slice_unaligned(at..end)?;
                digest.add(u64::from(before < part));
                drop(before);
                before = part;
                at = end;
            }
            add_text(&before, digest)?;
        }
        drop(before);
        Ok(())
    }

    /// Adds copies of the texts between these indices, read from the front.
    fn copies(&self, alloc: Global, starts: &[usize], digest: &mut Digest) -> Result<()> {
        let mut rest = self.page.as_slice();
        let mut at = 0;
        for start in starts {
            let len = start.saturating_sub(at);
            if rest.can_advance(len) {
                let copy = rest.copy_to_aligned(alloc, len, Alignment::none())?;
                digest.add_bytes(copy.as_slice());
                drop(copy);
                at = *start;
            }
        }
        Ok(())
    }
}

/// Adds the hash of a text, and its length as UTF-8.
fn add_text(part: &ByteBuffer, digest: &mut Digest) -> Result<()> {
    let mut hasher = FoldHasher::default();
    part.hash(&mut hasher);
    digest.add(hasher.finish());
    let text = BufferString::try_from_buffer(part.clone()?)?;
    digest.add_place(text.as_str().len());
    drop(text);
    Ok(())
}

/// Parts of words.
const PARTS: &[&str] = &[
    "five ", "ver", "tex ", "col", "umn ", "ro", "w ", "in", "dex ", "mask ", "bit", "run ", "ß",
    "–", "ä ", "é",
];

/// Adds a text of 10 to 1,010 bytes. One in five may also have the last parts, which aren't ASCII.
fn push_text(page: &mut ByteBufferMut, random: &mut Random) -> Result<()> {
    let few = if random.below(5) == 0 { 16 } else { 12 };
    let most = if random.below(8) == 0 { 198 } else { 30 };
    for _ in 0..5 + random.below(most) {
        if let Some(part) = PARTS.get(random.below(few)) {
            page.extend_from_slice(part.as_bytes())?;
        }
    }
    Ok(())
}
