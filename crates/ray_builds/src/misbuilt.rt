/// Of what a geometry is. (Vulkan: VkGeometryTypeKHR.)
#[derive(Clone, Copy, Debug)]
pub enum GeometryKind {
    /// Of triangles.
    Triangles,
    /// Of boxes.
    Boxes,
    /// Of instances.
    Instances,
}

/// What is wrong with the geometries of a top. Own.
#[derive(Clone, Copy, Debug)]
pub enum TopFlaw {
    /// There are so many, and not one.
    Count(usize),
    /// The one is of these, and not of instances.
    Of(GeometryKind),
}

/// The numbers of two geometries of a bottom. Own.
#[derive(Clone, Copy, Debug)]
pub struct Two {
    /// One of triangles.
    pub triangles: u32,
    /// One of boxes.
    pub boxes: u32,
}

/// What is wrong with the geometries of a bottom. Own.
#[derive(Clone, Copy, Debug)]
pub enum BottomFlaw {
    /// The one of this number is of instances.
    Instances(u32),
    /// They are of both kinds.
    Both(Two),
}

/// By which geometry or count a command breaks V8. Own.
#[derive(Clone, Copy, Debug)]
pub enum Misbuilt {
    /// The info of this number builds a top.
    Top(u32, TopFlaw),
    /// The info of this number builds a bottom.
    Bottom(u32, BottomFlaw),
    /// `sizes` of a top has so many counts, and not one.
    Counts(usize),
}
