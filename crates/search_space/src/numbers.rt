//! Lists of numbers, by place.

/// No number.
pub const NONE: u32 = u32::MAX;

/// The number at a place, or none.
pub fn at(list: &[u32], place: u32) -> u32 {
    match list.get(place as usize) {
        Some(number) => *number,
        None => NONE,
    }
}

/// Puts a number at a place, if there is one.
pub fn put(list: &mut [u32], place: u32, number: u32) {
    let place = place as usize;
    if place < list.len() {
        list[place] = number;
    }
}

/// A count as a number.
pub fn small(count: usize) -> u32 {
    if count < NONE as usize {
        count as u32
    } else {
        NONE
    }
}

/// Whether a number is marked.
pub fn is_marked(marks: &[bool], number: u32) -> bool {
    match marks.get(number as usize) {
        Some(mark) => *mark,
        None => false,
    }
}
