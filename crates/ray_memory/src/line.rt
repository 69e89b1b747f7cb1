ghost use Rattle.std.specs.Prelude.{◌≡◌, ◌≤◌, ◌+◌, ◌++◌, decimal, drop, length};
ghost use Rattle.ray_action.specs.Text.{hit_line, kind_word, numbers_text, place_text};
ghost use Rattle.ray_memory.specs.Lines.{IsPut};

use itoa::write_digits;
use ray_bytes::HitRecord;

// How many bytes the line of a hit has at most.
pub(crate) const MOST_LINE: usize = 480;

// Writes the line of hit number `k` so that it ends where the room does, which is long enough for
// any line. Gives where it begins.
pub(crate) fn put_line(room: &mut [u8], k: usize, hit: &HitRecord) -> usize
    requires { length room.old ≡ 480 }
    ensures written { drop result room.new ≡ hit_line k hit.now }
    ensures within { result ≤ 480 }
    ensures sized { length room.new ≡ length room.old }
{
    let end = room.len();
    if hit.kind == 0 {
        let end = put_word(room, end, b" none\n");
        return put_number(room, end, k as u64);
    }
    let end = put_word(room, end, b"\n");
    let end = put_numbers(room, end, hit);
    let end = put_word(room, end, b" ");
    let end = put_place(room, end, hit);
    let end = put_word(room, end, b" ");
    let end = put_word(room, end, kind_name(hit.kind).as_bytes());
    let end = put_word(room, end, b" ");
    put_number(room, end, k as u64)
}

// How far it is, and where in the primitive.
fn put_numbers(room: &mut [u8], end: usize, hit: &HitRecord) -> usize
    requires { (192 ≤ end) × (end ≤ length room.old) }
    ensures { IsPut (numbers_text hit.now) 192 end room.old room.new result }
{
    let (t, t_den) = hit.t;
    let (u, u_den) = hit.u;
    let (v, v_den) = hit.v;
    let end = put_field(room, end, b"/", v_den);
    let end = put_field(room, end, b" v ", v);
    let end = put_field(room, end, b"/", u_den);
    let end = put_field(room, end, b" u ", u);
    let end = put_field(room, end, b"/", t_den);
    put_field(room, end, b"t ", t)
}

// Where the hit is.
fn put_place(room: &mut [u8], end: usize, hit: &HitRecord) -> usize
    requires { (192 ≤ end) × (end ≤ length room.old) }
    ensures { IsPut (place_text hit.now) 192 end room.old room.new result }
{
    let HitRecord {
        instance,
        custom,
        sbt,
        geometry,
        primitive,
        face,
        ..
    } = *hit;
    let end = put_field(room, end, b" face ", u64::from(face));
    let end = put_field(room, end, b" prim ", u64::from(primitive));
    let end = put_field(room, end, b" geom ", u64::from(geometry));
    let end = put_field(room, end, b" sbt ", u64::from(sbt));
    let end = put_field(room, end, b" custom ", u64::from(custom));
    put_field(room, end, b"inst ", u64::from(instance))
}

// What a kind is called.
fn kind_name(kind: u32) -> &'static str
    ensures name { result.now ≡ kind_word kind }
    ensures short { length result.now ≤ 3 }
{
    match kind {
        1 => "tri",
        2 => "box",
        _ => "bad",
    }
}

// Writes a short word with a number behind it so that they end at a place. Gives where they begin.
#[inline(always)]
fn put_field(room: &mut [u8], end: usize, word: &[u8], number: u64) -> usize
    requires fits { (32 ≤ end) × (end ≤ length room.old) }
    requires short { length word.now ≤ 12 }
    ensures { IsPut (word.now ++ decimal number) 32 end room.old room.new result }
{
    let end = put_number(room, end, number);
    put_word(room, end, word)
}

// Writes a number so that it ends at a place. Gives where it begins.
#[inline(always)]
fn put_number(room: &mut [u8], end: usize, number: u64) -> usize
    requires { (20 ≤ end) × (end ≤ length room.old) }
    ensures { IsPut (decimal number) 20 end room.old room.new result }
{
    write_digits(number, room, end)
}

// Writes a word so that it ends at a place. Gives where it begins.
#[inline(always)]
fn put_word(room: &mut [u8], end: usize, word: &[u8]) -> usize
    requires { (length word.now ≤ end) × (end ≤ length room.old) }
    ensures { IsPut word.now (length word.now) end room.old room.new result }
{
    let begin = end - word.len();
    room[begin..end].copy_from_slice(word);
    begin
}
