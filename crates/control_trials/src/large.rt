//! The large texts, which loops build.
use std::alloc::{AllocError, Global};

/// The head, and then the part so many times.
pub fn repeated(
    heap: Global,
    head: &[u8],
    part: &[u8],
    times: usize,
) -> Result<Vec<u8>, AllocError> {
    let mut text = head.to_vec(heap)?;
    for _ in 0..times {
        text.extend_from_slice(part)?;
    }
    Ok(text)
}

/// 64 components, each with the same lines behind its Package field.
pub fn components(heap: Global, lines: &[u8]) -> Result<Vec<u8>, AllocError> {
    let mut text = Vec::new(heap);
    for number in 0..64 {
        let name = format!(in heap; "\n\nPackage: c{number}")?;
        text.extend_from_slice(name.as_bytes())?;
        text.extend_from_slice(lines)?;
    }
    Ok(text)
}
