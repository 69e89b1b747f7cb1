use ray_action::Form;
use ray_top::Top;

// A live structure: what it is, and what it holds if it is a built top structure. What bottom
// structures hold stands apart, by ids, where instances look it up.
#[derive(Drop)]
pub(crate) struct Structure {
    pub(crate) form: Form,
    pub(crate) top: Option<Top>,
}
