use ray_bytes::Format;
use ray_contents::Elements;
use ray_primitives::{KeptBox, KeptTriangle};

/// The primitives of a geometry, by its kind. (VkAccelerationStructureGeometryDataKHR)
#[derive(Drop)]
pub enum Shapes {
    /// Triangles, with the format of their vertices and the size of their indices in bytes: 0 where
    /// there are none, else 2 or 4.
    Triangles {
        format: Format,
        index_size: u8,
        triangles: Elements<KeptTriangle>,
    },
    /// Boxes.
    Boxes {
        boxes: Elements<KeptBox>,
    },
}
