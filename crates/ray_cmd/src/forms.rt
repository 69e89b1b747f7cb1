ghost use Rattle.std.specs.Prelude.{◌≡◌};
ghost use Rattle.ray_cmd.specs.Copies.{is_form, is_form_2};

// Whether there is such a form.
pub(crate) fn is_form(form: Option<u32>) -> bool
    ensures { result ≡ is_form form }
{
    match form {
        Some(number) => number == 1 || number == 2,
        None => true,
    }
}

/// Whether a structure is to be serialized in form 2, and not in form 1, which none stands for.
pub fn is_form_2(form: Option<u32>) -> bool
    ensures { result ≡ is_form_2 form }
{
    match form {
        Some(number) => number == 2,
        None => false,
    }
}
