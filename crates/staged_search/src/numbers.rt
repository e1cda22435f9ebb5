//! Lists of numbers and of marks, by place.

/// No number.
pub(crate) const NONE: u32 = u32::MAX;

/// The number at a place, or none.
pub(crate) fn at(list: &[u32], place: u32) -> u32 {
    match list.get(place as usize) {
        Some(number) => *number,
        None => NONE,
    }
}

/// Puts a number at a place, if there is one.
pub(crate) fn put(list: &mut [u32], place: u32, number: u32) {
    let place = place as usize;
    if place < list.len() {
        list[place] = number;
    }
}

/// Whether a place is marked.
pub(crate) fn is_marked(marks: &[bool], place: u32) -> bool {
    match marks.get(place as usize) {
        Some(mark) => *mark,
        None => false,
    }
}

/// Takes the mark of a place away.
pub(crate) fn unmark(marks: &mut [bool], place: u32) {
    let place = place as usize;
    if place < marks.len() {
        marks[place] = false;
    }
}

/// A count as a number.
pub(crate) fn small(count: usize) -> u32 {
    if count < NONE as usize {
        count as u32
    } else {
        NONE
    }
}
