//! Memory that a caller lends.

ghost use Rattle.std.specs.Prelude.{◌≡◌, [], length};
ghost use Rattle.page_rules.specs.Rooms.{with_front};

use std::alloc::Global;

/// No bytes, and memory for so many, where there is as much.
pub fn bytes_for(alloc: Global, count: usize) -> Vec<u8>
    ensures { result.items ≡ [] }
{
    match Vec::with_capacity(alloc, count) {
        Ok(bytes) => bytes,
        Err(_) => Vec::new(alloc),
    }
}

/// Copies items to the front of `room`, and says how many they are; where the room is too small for them, it stays as
/// it was.
pub fn copy_if_fits<T: Copy>(items: &[T], room: &mut [T]) -> usize
    ensures room { room.new ≡ with_front items.now room.old }
    ensures count { result ≡ length items.now }
{
    let count = items.len();
    if count <= room.len() {
        room[..count].copy_from_slice(items);
    }
    count
}
