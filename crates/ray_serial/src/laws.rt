ghost use Rattle.std.specs.Prelude.{◌≡◌, length, true};
ghost use Rattle.ray_form.specs.Form.{handle_count_in};
ghost use Rattle.ray_serial.specs.Meaning.{IsForm, is_top_form};
ghost use Rattle.ray_serial.specs.Replaced.{with_handles, IsReplaced};

use crate::view::SerialView;

/// The law of replaced handles: a form of a top structure whose handles are replaced by as many
/// others is a form, of the same payload; each number of a handle then stands for the new one.
/// (Own.)
pub fn replaced_law(_view: &SerialView<'_>, _handles: &[u64])
    requires { is_top_form _view.now ≡ true }
    ensures { length _handles.now ≡ handle_count_in _view.now →
        IsReplaced _view.now _handles.now (with_handles _view.now _handles.now) }
{
    replaced(_view.whole(), _handles);
}

// The same of bytes that are a form.
fn replaced(_bytes: &[u8], _handles: &[u64])
    requires form { IsForm _bytes.now }
    requires top { is_top_form _bytes.now ≡ true }
    ensures { length _handles.now ≡ handle_count_in _bytes.now →
        IsReplaced _bytes.now _handles.now (with_handles _bytes.now _handles.now) }
{}
