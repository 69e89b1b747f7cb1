/// Why bytes are no serialized form: the first line of faults that they break, from 1 to 8.
///
/// 1. They are fewer than 56.
/// 2. The first text isn't that of this device.
/// 3. The second text is neither that of form 1 nor that of form 2.
/// 4. The serialized size isn't the number of bytes.
/// 5. There are more than 65,536 handles, or no room for them.
/// 6. The payload isn't that of a structure: a word of a head is outside its table, a limit of
///    counts is broken, a bottom structure has handles, geometries of two kinds or instances, a top
///    structure hasn't one geometry of instances or is in form 2, both fast flags are set, or the
///    elements don't fill the bytes exactly, with a tree part after them in form 2 that has the
///    size that its two counts say.
/// 7. The deserialized size isn't that of the structure.
/// 8. An element stands for none: an active one is beyond the limits, an inactive one isn't written
///    as one, an index value doesn't fit its size, an instance forces both opacities, has a flag
///    that there isn't, or names a handle that there isn't.
///
/// (Own.)
#[derive(Clone, Copy, Debug, PartialEq, Eq)]
pub struct SerialFault(pub u8);
