/// What lines are as certificates of rays. Own.
#[derive(Clone, Copy, Debug, PartialEq, Eq)]
pub enum Verdict {
    /// Each certifies its ray.
    Certified,
    /// The ray of this number of this trace command is the first that isn't certified by its line.
    Uncertified {
        /// The number of the command.
        command: u32,
        /// The number of the ray in it.
        ray: u32,
    },
}
