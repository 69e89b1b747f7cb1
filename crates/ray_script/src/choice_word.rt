// The word that says what a rule decides.
#[derive(Clone, Copy)]
pub(crate) enum ChoiceWord {
    Ignore,
    Confirm,
    Entry,
    Exit,
    At,
    Terminate,
    ConfirmTerminate,
}
