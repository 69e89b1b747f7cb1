// On one axis, two numbers of a window: a number rounded down, or where the window begins, and the
// same rounded up, or where it ends.
#[derive(Clone, Copy)]
pub(crate) struct Side {
    pub(crate) lo: i32,
    pub(crate) hi: i32,
}
