/// Why a value wasn't read as rules. Own.
#[derive(Clone, Copy, Debug, PartialEq, Eq)]
pub enum NotRules {
    /// The value isn't a list of rules.
    Shape,
    /// There was no memory to read it.
    NoMemory,
}
