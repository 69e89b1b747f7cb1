ghost use Rattle.std.specs.Prelude.{◌≡◌, ◌+◌, ◌++◌, ◌<◌, ◌≤◌, IfOk, OnOk};
ghost use Rattle.byteorder.specs.Endian.{little_bytes};
ghost use Rattle.hex.specs.Hex.{encode_lower};
ghost use Rattle.ray_scene.specs.Grid.{cell_words, hits_offset, index_offset, index_words, input_words, instance_offset, layer_words, padded, ray_words, rays_words, triangle_count, vertex_count, vertex_number, vertex_words, words_below};
ghost use Rattle.ray_scene.specs.Text.{digits_text};

use byteorder::{ByteOrder, LittleEndian};
use std::alloc::{AllocError as NoMemory, Global};

// How many vertices a layer has.
pub(crate) fn vertex_count(side: u32) -> u32
    requires { side ≤ 256 }
    ensures { result ≡ vertex_count side }
{
    (side + 1) * (side + 1)
}

// How many triangles a layer has.
pub(crate) fn triangle_count(side: u32) -> u32
    requires { side ≤ 256 }
    ensures { result ≡ triangle_count side }
{
    2 * (side * side)
}

// Where the indices stand.
pub(crate) fn index_offset(side: u32, layers: u32) -> u32
    requires side { side ≤ 256 }
    requires layers { layers ≤ 4 }
    ensures { result ≡ index_offset side layers }
{
    12 * (layers * vertex_count(side))
}

// Where the instance stands.
pub(crate) fn instance_offset(side: u32, layers: u32) -> u32
    requires side { side ≤ 256 }
    requires layers { layers ≤ 4 }
    ensures { result ≡ instance_offset side layers }
{
    (index_offset(side, layers) + 24 * (side * side)).next_multiple_of(16)
}

// Where the hits stand.
pub(crate) fn hits_offset(rays: u32) -> u32
    requires { rays ≤ 65536 }
    ensures { result ≡ hits_offset rays }
{
    (40 * rays).next_multiple_of(16)
}

// The words of what the builds read.
#[tactic(auto, unfolding(crate::specs::Grid::input_words))]
pub(crate) fn input_words(alloc: Global, side: u32, layers: u32) -> Result<Vec<u32>, NoMemory>
    requires side { 1 ≤ side }
    requires side_ends { side ≤ 256 }
    requires layers { layers ≤ 4 }
    ensures { IfOk result (λ words. words.items ≡ input_words side layers) }
{
    let mut words = Vec::new(alloc);
    add_layers(&mut words, side, layers)?;
    add_cells(&mut words, side)?;
    pad(&mut words, alloc)?;
    words.extend_from_slice(&[1, 0, 0, 0, 0, 1, 0, 0, 0, 0, 1, 0, 255 << 24, 0, 256, 0])?;
    Ok(words)
}

// The vertices of all layers.
fn add_layers(words: &mut Vec<u32>, side: u32, layers: u32) -> Result<(), NoMemory>
    requires side { side ≤ 256 }
    requires layers { layers ≤ 4 }
    ensures { OnOk result (words.new.items ≡ words.old.items ++ words_below (layer_words side) layers) }
{
    for layer in 0..layers {
        add_layer(words, side, layer)?;
    }
    Ok(())
}

// The vertices of a layer.
fn add_layer(words: &mut Vec<u32>, side: u32, layer: u32) -> Result<(), NoMemory>
    requires side { side ≤ 256 }
    requires layer { layer < 4 }
    ensures { OnOk result (words.new.items ≡ words.old.items ++ layer_words side layer) }
{
    for n in 0..vertex_count(side) {
        words.extend_from_slice(&vertex(side, layer, n))?;
    }
    Ok(())
}

// A vertex of a layer by its number.
fn vertex(side: u32, layer: u32, n: u32) -> [u32; 3]
    requires side { side ≤ 256 }
    requires layer { layer < 4 }
    requires number { n < vertex_count side }
    ensures { result ≡ vertex_words side layer n }
{
    let (i, j) = (n % (side + 1), n / (side + 1));
    [8 * i, 8 * j, 64 * layer + (5 * i + 3 * j) % 7]
}

// The indices of all cells.
fn add_cells(words: &mut Vec<u32>, side: u32) -> Result<(), NoMemory>
    requires begins { 1 ≤ side }
    requires ends { side ≤ 256 }
    ensures { OnOk result (words.new.items ≡ words.old.items ++ index_words side) }
{
    for n in 0..side * side {
        words.extend_from_slice(&cell(side, n))?;
    }
    Ok(())
}

// The vertices of the two triangles of a cell by its number.
fn cell(side: u32, n: u32) -> [u32; 6]
    requires begins { 1 ≤ side }
    requires ends { side ≤ 256 }
    requires number { n < 65536 }
    ensures { result ≡ cell_words side n }
{
    let (i, j) = (n % side, n / side);
    let first = vertex_number(side, i, j);
    let across = vertex_number(side, i + 1, j + 1);
    [
        first,
        vertex_number(side, i + 1, j),
        across,
        first,
        across,
        vertex_number(side, i, j + 1),
    ]
}

// The number of the vertex in a column and a row.
fn vertex_number(side: u32, i: u32, j: u32) -> u32
    requires side { side ≤ 256 }
    requires column { i ≤ 65536 }
    requires row { j ≤ 65536 }
    ensures { result ≡ vertex_number side i j }
{
    j * (side + 1) + i
}

// Zeros up to a multiple of 16 bytes.
fn pad(words: &mut Vec<u32>, alloc: Global) -> Result<(), NoMemory>
    ensures { OnOk result (words.new.items ≡ padded words.old.items) }
{
    let zeros = vec![in alloc; 0; (4 - words.len() % 4) % 4]?;
    words.extend_from_slice(zeros.as_slice())
}

// The words of all rays.
#[tactic(auto, unfolding(crate::specs::Grid::rays_words))]
pub(crate) fn rays_words(alloc: Global, side: u32, rays: u32) -> Result<Vec<u32>, NoMemory>
    requires side { side ≤ 256 }
    requires rays { rays ≤ 65536 }
    ensures { IfOk result (λ words. words.items ≡ rays_words side rays) }
{
    let mut words = Vec::new(alloc);
    for r in 0..rays {
        words.extend_from_slice(&ray(side, r))?;
    }
    Ok(words)
}

// A ray by its number.
fn ray(side: u32, r: u32) -> [u32; 10]
    requires side { side ≤ 256 }
    requires ray { r < 65536 }
    ensures { result ≡ ray_words side r }
{
    let width = 8 * side + 8;
    let (x, y) = ((37 * r + 3) % width, (53 * r + 1) % width);
    [x, y, 4096, 0, 0, u32::MAX, 0, 0, 1 << 29, 0]
}

// The hexadecimal digits of the bytes of words, after the text.
#[tactic(auto, using(crate::proofs::Words::more_digits))]
pub(crate) fn add_digits(text: &mut Vec<u8>, words: &[u32]) -> Result<(), NoMemory>
    ensures { OnOk result (text.new.items ≡ text.old.items ++ digits_text words.now) }
{
    for word in words {
        text.extend_from_slice(&digits(*word))?;
    }
    Ok(())
}

// The digits of the bytes of a word.
fn digits(word: u32) -> [u8; 8]
    ensures { result ≡ encode_lower (little_bytes 4 word) }
{
    let mut bytes = [0; 4];
    LittleEndian::write_u32(&mut bytes, word);
    let mut digits = [0; 8];
    let _written = hex::encode_to_slice(bytes, &mut digits);
    digits
}
