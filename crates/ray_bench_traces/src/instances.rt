use crate::bytes::{put, put_signed};
use crate::numbers::Numbers;
use ray_geom::Matrix;
use std::alloc::{AllocError, Global};

// The mark of a transform that leaves all where it is.
const IDENTITY: [i32; 12] = [1, 0, 0, 0, 0, 1, 0, 0, 0, 0, 1, 0];

/// The records of so many random instances of the structures 0 to 2, or of the first of these
/// alone.
pub(crate) fn records(
    alloc: Global,
    numbers: &mut Numbers,
    count: u32,
) -> Result<Vec<u8>, AllocError> {
    let mut bytes = Vec::new(alloc);
    let structures = 1 + numbers.below(3);
    for _ in 0..count {
        put_signed(&mut bytes, &transform(numbers))?;
        let custom = numbers.below(100);
        let (mask, flags) = (u32::from(mask(numbers)), u32::from(flags(numbers)));
        let reference = if numbers.is_one_of(12) {
            0
        } else {
            256 * (1 + numbers.below(structures))
        };
        put(
            &mut bytes,
            &[mask * (1 << 24) + custom, flags * (1 << 24) + 7],
        )?;
        put(&mut bytes, &[reference, 0])?;
    }
    Ok(bytes)
}

/// A random mask, mostly that of all.
pub(crate) fn mask(numbers: &mut Numbers) -> u8 {
    match numbers.below(10) {
        0 => 1,
        1 => 2,
        2 => 3,
        _ => 255,
    }
}

// Random flags, of which none forces both.
fn flags(numbers: &mut Numbers) -> u8 {
    let facing = match numbers.below(6) {
        0 => 1,
        1 => 2,
        2 => 3,
        _ => 0,
    };
    let opacity = match numbers.below(6) {
        0 => 4,
        1 => 8,
        _ => 0,
    };
    facing + opacity
}

// A random transform: it mirrors, scales and shears, or has any small numbers.
fn transform(numbers: &mut Numbers) -> [i32; 12] {
    let drawn = match numbers.below(6) {
        0 => IDENTITY,
        1 | 2 => any(numbers),
        _ => turned(numbers),
    };
    if Matrix::from_words(drawn).is_some() {
        drawn
    } else {
        IDENTITY
    }
}

// A transform of any small numbers. It may be none, as its determinant may be 0.
fn any(numbers: &mut Numbers) -> [i32; 12] {
    let [a, b, c] = three(numbers, 2);
    let [d, e, f] = three(numbers, 2);
    let [g, h, i] = three(numbers, 2);
    let [x, y, z] = three(numbers, 4);
    [a, b, c, x, d, e, f, y, g, h, i, z]
}

// A transform that exchanges axes, mirrors and scales each, and may shear.
fn turned(numbers: &mut Numbers) -> [i32; 12] {
    let (first, second, third) = match numbers.below(6) {
        0 => (0, 1, 2),
        1 => (0, 2, 1),
        2 => (1, 0, 2),
        3 => (1, 2, 0),
        4 => (2, 0, 1),
        _ => (2, 1, 0),
    };
    let [a, b, c] = along(first, scale(numbers), 0);
    let [d, e, f] = along(second, scale(numbers), 0);
    let shear = if numbers.is_one_of(2) {
        numbers.within(1)
    } else {
        0
    };
    let [g, h, i] = along(third, scale(numbers), shear);
    let [x, y, z] = three(numbers, 4);
    [a, b, c, x, d, e, f, y, g, h, i, z]
}

// A row with one number on an axis, and another on the rest.
fn along(axis: u32, number: i32, rest: i32) -> [i32; 3] {
    match axis {
        0 => [number, rest, 0],
        1 => [0, number, rest],
        _ => [rest, 0, number],
    }
}

// A scale of 1 to 3 with a sign.
fn scale(numbers: &mut Numbers) -> i32 {
    let size = match numbers.below(4) {
        0 => 3,
        1 => 2,
        _ => 1,
    };
    if numbers.is_one_of(2) { -size } else { size }
}

// Three numbers up to a reach in absolute value.
fn three(numbers: &mut Numbers, reach: u16) -> [i32; 3] {
    [
        numbers.within(reach),
        numbers.within(reach),
        numbers.within(reach),
    ]
}
