use std::alloc::AllocError;

/// Appends numbers.
pub(crate) fn put(bytes: &mut Vec<u8>, words: &[u32]) -> Result<(), AllocError> {
    for word in words {
        bytes.extend_from_slice(&word.to_le_bytes())?;
    }
    Ok(())
}

/// Appends signed numbers.
pub(crate) fn put_signed(bytes: &mut Vec<u8>, words: &[i32]) -> Result<(), AllocError> {
    for word in words {
        bytes.extend_from_slice(&word.to_le_bytes())?;
    }
    Ok(())
}
