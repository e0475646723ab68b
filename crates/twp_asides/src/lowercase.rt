//! A text with its letters in lowercase.

use std::alloc::AllocError;
use std::simd::prelude::*;

/// How many bytes are put in lowercase together.
const LANES: usize = 16;

/// Copies a text, with its letters in lowercase, into an empty vector. std's own function takes one byte
/// after another. The last group of bytes may overlap the one before it, whose letters stay as they are.
pub(crate) fn copy_in_lowercase(text: &[u8], lower: &mut Vec<u8>) -> Result<(), AllocError> {
    lower.extend_from_slice(text)?;
    let bytes = lower.as_mut_slice();
    put_groups_in_lowercase(bytes);
    let size = bytes.len();
    if size >= LANES {
        let (_, last) = bytes.split_at_mut(size - LANES);
        put_groups_in_lowercase(last);
        return Ok(());
    }
    for byte in bytes {
        *byte = byte.to_ascii_lowercase();
    }
    Ok(())
}

/// Puts each whole group of bytes in lowercase. The bytes after them are left as they are.
#[inline(always)]
fn put_groups_in_lowercase(bytes: &mut [u8]) {
    let (groups, _) = bytes.as_chunks_mut::<LANES>();
    for group in groups {
        *group = lanes_in_lowercase(u8x16::from_array(*group)).to_array();
    }
}

/// Bytes with their letters in lowercase. In ASCII the two cases differ in one bit.
#[inline(always)]
fn lanes_in_lowercase(bytes: u8x16) -> u8x16 {
    let are_capitals = bytes.simd_ge(u8x16::splat(b'A')) & bytes.simd_le(u8x16::splat(b'Z'));
    are_capitals.select(bytes | u8x16::splat(0x20), bytes)
}
