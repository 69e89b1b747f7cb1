// On one axis, what is compared with the two planes of a box, as they are stored. Keys are counted
// from where the ray enters the root's box.
#[derive(Clone, Copy)]
pub(crate) enum Axis {
    // Greater planes are crossed later: at start and the high half of the plane's product with the
    // factor.
    Rising { factor: u32, start: i32 },
    // Lesser planes are crossed later: at start less the high half.
    Falling { factor: u32, start: i32 },
    // The ray stands still or nearly, and the planes have to overlap what lies from `from` to `to`.
    Flat { from: i32, to: i32 },
}
