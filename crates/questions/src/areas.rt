// Areas that a call is lent: the first words or bytes of a buffer that is filled before the call, and told after it.
ghost use Rattle.std.specs.Prelude.{◌≤◌};

use lines::{Fault, numbers};

// What an area of numbers with a sign is filled with; it is no frame, and no word of a tree.
pub const FILL: i32 = 7777777;

// The first `room` of `of` words or bytes, of which there are at most so many.
#[derive(Clone, Copy)]
pub struct Area<const MOST: usize> {
    pub room: usize,
    pub of: usize,
    ghost room_in_area: { room ≤ of },
    ghost area_in_buffer: { of ≤ MOST },
}

impl<const MOST: usize> Area<MOST> {
    // The area that two numbers of a line give.
    pub fn read(room: i32, of: i32) -> Result<Area<MOST>, Fault> {
        let room = numbers::size_of(room);
        let of = numbers::size_of(of);
        if of < room || MOST < of {
            return Err(Fault);
        }
        Ok(Area { room, of })
    }
}
