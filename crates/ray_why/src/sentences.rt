use ray_cmd::Rule;

// A rule on the recording alone in one sentence, as docs/RECORDING.md has it. A data rule has none
// here, and no such rule is broken by a check.
pub(crate) fn sentence(rule: Rule) -> &'static str {
    match rule {
        Rule::V(number) => if number < 17 {
            early(number)
        } else {
            late(number)
        },
        Rule::X(_) => "a data rule",
    }
}

// Rules V1 to V16.
fn early(number: u8) -> &'static str {
    match number {
        1 => {
            "a buffer or structure that is named isn't live, or one that is made \
             already is"
        }
        2 => {
            "the size of a buffer or a structure is 0, the data of a buffer is longer \
             than it, or the sizes of all live buffers would pass 268435456"
        }
        3 => {
            "a buffer has no usage, `scratch` or `structure` with another usage or with \
             `data`, or lacks the usage that the command needs"
        }
        4 => { "bytes that the command reads or writes aren't whole within their buffer" }
        5 => { "an offset, a stride or a place misses its alignment" }
        6 => {
            "a structure's offset is no multiple of 256, its bytes aren't within its \
             buffer, or they overlap a live structure's"
        }
        7 => {
            "a structure is of the wrong kind for this use: bottom where a top is \
             wanted, or the other way round"
        }
        8 => {
            "a top is built of one geometry, of instances; a bottom of triangles or of \
             boxes, not of both"
        }
        9 => { "an info has both `prefer_fast_trace` and `prefer_fast_build`" }
        10 => { "a count or a list is above its limit" }
        11 => { "`dst` is smaller than its geometries need, or than `src`" }
        12 => { "the scratch memory of an info isn't within its buffer" }
        13 => { "`src` of an update isn't built, or its contents came by `deserialize`" }
        14 => { "`src` of an update was built without `allow_update`" }
        15 => { "an update differs from its source in more than what it may change" }
        16 => { "parts of this one command conflict with one another" }
        _ => "a rule",
    }
}

// Rules V17 to V32.
fn late(number: u8) -> &'static str {
    match number {
        17 => { "a structure that is read or used isn't built" }
        18 => {
            "a structure is compacted, or its compacted size asked, that was built \
             without `allow_compaction` or came by `deserialize`"
        }
        19 => { "`src` and `dst` of a copy are of two kinds, or are one structure" }
        20 => { "the traced `top` isn't built" }
        21 => {
            "an entry of `uses` of the traced top isn't a live built bottom, or was \
             written after the top was built"
        }
        22 => { "ray flags exclude one another" }
        23 => {
            "a rule of the script has a `den` of 0 or above 65536 or a `num` above \
             2^40, or there are more than 4096 rules"
        }
        24 => { "a barrier names an access that no stage of its side supports" }
        25 => {
            "the command reads what the earlier one wrote, and no barrier between them \
             makes it available and visible"
        }
        26 => {
            "the command writes what the earlier one wrote, and no barrier between them \
             makes it available"
        }
        27 => {
            "the command writes what the earlier one read, and no barrier between them \
             orders the two"
        }
        28 => {
            "the command buffer is in the wrong state for this command, or the \
             recording ends within it"
        }
        29 => { "`read` with a `submit` after the last `wait`" }
        30 => {
            "`destroy` with a `submit` after the last `wait`, or of a buffer that holds \
             a live structure"
        }
        31 => {
            "an offset or a size is no multiple of what this command needs, is 0, or is \
             too large"
        }
        32 => {
            "`read` of bytes that the earlier command wrote, and no barrier between \
             them makes them visible to the host"
        }
        _ => "a rule",
    }
}
