/// Why bytes are no input of a word that reads an object. Own.
#[derive(Clone, Copy, Debug, PartialEq, Eq)]
pub enum BadInput {
    /// They are no UTF-8 or no JSON.
    NotJson,
    /// They are no object with exactly the members that the word names.
    BadObject,
    /// This command of `commands` is the first that has no shape of a command, as in a recording.
    BadShape(u32),
    /// This entry of `tables` is the first that is bad, as `read_tables` of ray_pipe says it.
    BadTable(u32),
    /// This entry of `submits` is the first that is bad, as `read_queues` of ray_submits says it.
    BadSubmits(u32),
    /// `certificates` is no list of strings.
    BadCertificates,
    /// There was no memory to read them.
    NoMemory,
}
