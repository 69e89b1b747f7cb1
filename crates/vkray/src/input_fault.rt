use ray_cmd::Refusal;

/// What is wrong with an input. (Own.)
#[derive(Clone, Copy, Debug, PartialEq, Eq)]
pub enum InputFault {
    /// It is no JSON.
    NotJson,
    /// It is no object with exactly the members that the word reads.
    BadObject,
    /// The command of this number is the first that has no shape of a command.
    BadShape(u32),
    /// The entry of this number in `tables` is the first that is bad.
    BadTable(u32),
    /// The entry of this number in `submits` is the first that is bad.
    BadSubmits(u32),
    /// `certificates` is no list of strings, or not of as many as the traces have rays.
    BadCertificates,
    /// A command breaks a rule, and no lesser one does.
    Refused(Refusal),
}
