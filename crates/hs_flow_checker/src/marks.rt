//! Marks by number.

ghost use Rattle.std.specs.Prelude.{◌≡◌, ◌↔◌, IsTrue, Some, true, slice_get};

/// Whether the item of this number, counted from 0, is marked: a point, a state or a terminal. Behind
/// the last mark none is. Takes constant time.
pub fn is_marked(marks: &[bool], number: u32) -> bool
    ensures { IsTrue result ↔ slice_get marks.now number ≡ Some true }
{
    match marks.get(number as usize) {
        None => false,
        Some(mark) => *mark,
    }
}
