use std::snapshot::Snapshot;

// A number that contracts alone can read. No value of it is kept at run time: each holds the one
// before as a snapshot.
#[derive(Drop)]
pub(crate) enum Count {
    Zero,
    Next(Snapshot<Count>),
}
