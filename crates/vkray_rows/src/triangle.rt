//! The triangle recording as text, and what it prints.

/// The triangle recording.
pub(crate) const RECORDING: &str = concat!(
    r#"[{"op":"buffer","id":0,"size":128,"usage":["input"],"data":"00000000000000000000000004"#,
    r#"00000000000000000000000000000004000000000000000000000000000000000000000000000000000000"#,
    r#"00000000000000000100000000000000000000000000000000000000010000000000000000000000000000"#,
    r#"00000000000100000000000000000000ff000000000001000000000000"},{"op":"buffer","id":1,"si"#,
    r#"ze":1024,"usage":["structure"]},{"op":"buffer","id":2,"size":512,"usage":["scratch"]},"#,
    r#"{"op":"buffer","id":3,"size":144,"usage":["storage"],"data":"0100000001000000050000000"#,
    r#"000000000000000ffffffff00000000000000000000000100000000"},{"op":"structure","id":0,"ki"#,
    r#"nd":"bottom","buffer":1,"offset":0,"size":512},{"op":"structure","id":1,"kind":"top",""#,
    r#"buffer":1,"offset":512,"size":512},{"op":"begin"},{"op":"build","infos":[{"mode":"buil"#,
    r#"d","dst":0,"flags":[],"scratch":{"buffer":2,"offset":0},"geometries":[{"kind":"triangl"#,
    r#"es","opaque":true,"format":"s32x3","vertex":{"buffer":0,"offset":0},"stride":12,"max_v"#,
    r#"ertex":2,"count":1,"primitive_offset":0,"first_vertex":0,"transform_offset":0}]}]},{"o"#,
    r#"p":"barrier","src_stages":["all"],"src_access":["memory_write"],"dst_stages":["all"],""#,
    r#"dst_access":["memory_read","memory_write"]},{"op":"build","infos":[{"mode":"build","ds"#,
    r#"t":1,"flags":[],"scratch":{"buffer":2,"offset":0},"geometries":[{"kind":"instances","d"#,
    r#"ata":{"buffer":0,"offset":64},"count":1,"primitive_offset":0}],"uses":[0]}]},{"op":"ba"#,
    r#"rrier","src_stages":["all"],"src_access":["memory_write"],"dst_stages":["all"],"dst_ac"#,
    r#"cess":["memory_read","memory_write"]},{"op":"trace","top":1,"rays":{"buffer":3,"offset"#,
    r#"":0},"count":1,"hits":{"buffer":3,"offset":64},"flags":[],"mask":255,"script":[]},{"op"#,
    r#"":"barrier","src_stages":["all"],"src_access":["memory_write"],"dst_stages":["host"],""#,
    r#"dst_access":["host_read"]},{"op":"end"},{"op":"submit"},{"op":"wait"},{"op":"read","bu"#,
    r#"ffer":3,"offset":64,"size":80,"form":"hits"}]"#,
);

/// The line of its hit.
pub(crate) const LINE: &str =
    "0 tri inst 0 custom 0 sbt 0 geom 0 prim 0 face 1 t 5/1 u 1/4 v 1/4\n";
