//! The two directions in which extents are sought from a place.
ghost use Rattle.std.specs.Prelude.{◌≡◌, ◌+◌, ◌<◌, ◌^◌, IsTrue, ◌↔◌};
ghost use Rattle.wu_cursor.specs.Directions.{Precedes, near, far, opposite, between, next_place, nearer_of, farther};

use wu_base::Extent;

/// Which extents are sought from a place.
#[derive(Clone, Copy)]
pub enum Direction {
    /// Those that start at the place or after it; the nearest is the first one.
    Forward,
    /// Those that end at the place or before it; the nearest is the last one.
    Backward,
}

/// The other direction.
pub fn opposite(direction: Direction) -> Direction
    ensures { result ≡ opposite direction }
{
    match direction {
        Direction::Forward => Direction::Backward,
        Direction::Backward => Direction::Forward,
    }
}

/// Whether the one place comes before the other in the direction.
pub fn precedes(direction: Direction, one: u64, other: u64) -> bool
    ensures { IsTrue result ↔ Precedes direction one other }
{
    match direction {
        Direction::Forward => one < other,
        Direction::Backward => other < one,
    }
}

/// The next place in the direction; none is before place 0.
pub fn next_place(direction: Direction, place: u64) -> Option<u64>
    requires { place + 1 < 2 ^ 64 }
    ensures { result ≡ next_place direction place }
{
    match direction {
        Direction::Forward => Some(place + 1),
        Direction::Backward => place.checked_sub(1),
    }
}

/// The place of the extent that comes first in the direction.
pub fn near(direction: Direction, extent: Extent) -> u64
    ensures { result ≡ near direction extent }
{
    match direction {
        Direction::Forward => extent.start,
        Direction::Backward => extent.end,
    }
}

/// The place of the extent that comes last in the direction.
pub fn far(direction: Direction, extent: Extent) -> u64
    ensures { result ≡ far direction extent }
{
    match direction {
        Direction::Forward => extent.end,
        Direction::Backward => extent.start,
    }
}

/// The extent from the one place to the other in the direction.
pub fn between(direction: Direction, near: u64, far: u64) -> Extent
    ensures { result ≡ between direction near far }
{
    match direction {
        Direction::Forward => Extent {
            start: near,
            end: far,
        },
        Direction::Backward => Extent {
            start: far,
            end: near,
        },
    }
}

/// The one of both places that comes first in the direction, as far as they are there.
pub fn nearer(direction: Direction, one: Option<u64>, other: Option<u64>) -> Option<u64>
    ensures { result ≡ nearer_of direction one other }
{
    match (one, other) {
        (Some(one), Some(other)) => match direction {
            Direction::Forward => Some(one.min(other)),
            Direction::Backward => Some(one.max(other)),
        },
        (Some(one), None) => Some(one),
        (None, other) => other,
    }
}

/// The one of both places that comes last in the direction.
pub fn farther(direction: Direction, one: u64, other: u64) -> u64
    ensures { result ≡ farther direction one other }
{
    match direction {
        Direction::Forward => one.max(other),
        Direction::Backward => one.min(other),
    }
}
