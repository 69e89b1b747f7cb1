ghost use Rattle.std.specs.Prelude.{◌≡◌, ◌+◌, ◌≤◌, length};
ghost use Rattle.ray_form.specs.Form.{lacks};

/// The text of the device, with which a form begins. (Own; the driver UUID of
/// VkAccelerationStructureVersionInfoKHR.)
pub const DEVICE: [u8; 16] = *b"vkray-software-1";

/// The text of form 1, which follows it. (Own; the compatibility UUID.)
pub const FORM: [u8; 16] = *b"vkray-form-00001";

/// The text of form 2, which follows it where a tree part follows the elements. (Own.)
pub const FORM_2: [u8; 16] = *b"vkray-form-00002";

// Whether a text isn't the one that stands at a place.
#[tactic(auto, unfolding(crate::specs::Form::lacks))]
pub(crate) fn lacks(text: &[u8; 16], at: usize, bytes: &[u8]) -> bool
    requires { at + 16 ≤ length bytes.now }
    ensures { result ≡ lacks text.now at bytes.now }
{
    let found = &bytes[at..at + 16];
    found != text.as_slice()
}
