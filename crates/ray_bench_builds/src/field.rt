use crate::size::Size;
use std::alloc::{AllocError, Global};

/// A field of square cells of two triangles each, 8 to a side, with heights from 0 to 6: the bytes
/// of its vertices, three signed 32-bit numbers each, and of its indices, of 32 bits. (Own.)
#[derive(Drop)]
pub(crate) struct Field {
    size: Size,
    vertices: Vec<u8>,
    indices: Vec<u8>,
}

impl Field {
    /// The field of a size.
    pub(crate) fn new(alloc: Global, size: Size) -> Result<Field, AllocError> {
        Ok(Field {
            size,
            vertices: vertices(alloc, size)?,
            indices: indices(alloc, size)?,
        })
    }

    /// Its size.
    pub(crate) fn size(&self) -> Size {
        self.size
    }

    /// The bytes of its vertices.
    pub(crate) fn vertices(&self) -> &[u8] {
        self.vertices.as_slice()
    }

    /// The bytes of its indices.
    pub(crate) fn indices(&self) -> &[u8] {
        self.indices.as_slice()
    }
}

// The vertices of a field, row by row.
fn vertices(alloc: Global, size: Size) -> Result<Vec<u8>, AllocError> {
    let mut bytes = Vec::new(alloc);
    for j in 0..size.rows() + 1 {
        for i in 0..size.columns() + 1 {
            put(&mut bytes, 8 * i, 8 * j, (5 * i + 3 * j) % 7)?;
        }
    }
    Ok(bytes)
}

// The indices of its triangles, cell by cell.
fn indices(alloc: Global, size: Size) -> Result<Vec<u8>, AllocError> {
    let mut bytes = Vec::new(alloc);
    let columns = size.columns();
    let row = columns + 1;
    for j in 0..size.rows() {
        for i in 0..columns {
            let first = row * j + i;
            put(&mut bytes, first, first + 1, first + row + 1)?;
            put(&mut bytes, first, first + row + 1, first + row)?;
        }
    }
    Ok(bytes)
}

// Appends three numbers.
fn put(bytes: &mut Vec<u8>, a: u32, b: u32, c: u32) -> Result<(), AllocError> {
    bytes.extend_from_slice(&a.to_le_bytes())?;
    bytes.extend_from_slice(&b.to_le_bytes())?;
    bytes.extend_from_slice(&c.to_le_bytes())
}
