//! The first extents of an ascending list, and what is left of the list from a place on.
ghost use Rattle.std.specs.Prelude.{◌≡◌};
ghost use Rattle.wu_solve.specs.FirstExtents.{from_start, from_end, after_start, first_ends_before, first_ends_by, first_starts_by};

use wu_base::Extent;

/// What is left from the first extent on that doesn't start before the place.
#[inline]
pub fn starting_from(extents: &[Extent], place: u64) -> &[Extent]
    ensures { result.now ≡ from_start place extents.now }
{
    let mut i = 0;
    while i < extents.len() && extents[i].start < place {
        i += 1;
    }
    &extents[i..]
}

/// What is left from the first extent on that doesn't end before the place.
#[inline]
pub fn ending_from(extents: &[Extent], place: u64) -> &[Extent]
    ensures { result.now ≡ from_end place extents.now }
{
    let mut i = 0;
    while i < extents.len() && extents[i].end < place {
        i += 1;
    }
    &extents[i..]
}

/// What is left from the first extent on that starts after the place.
#[inline]
pub fn starting_after(extents: &[Extent], place: u64) -> &[Extent]
    ensures { result.now ≡ after_start place extents.now }
{
    let mut i = 0;
    while i < extents.len() && extents[i].start <= place {
        i += 1;
    }
    &extents[i..]
}

/// Whether there is a first that ends at the place or before it.
#[inline(always)]
pub fn ends_by(extents: &[Extent], place: u64) -> bool
    ensures { result ≡ first_ends_by place extents.now }
{
    extents.first().is_some_and(|first| first.end <= place)
}

/// Whether there is a first that starts at the place or before it.
#[inline(always)]
pub fn starts_by(extents: &[Extent], place: u64) -> bool
    ensures { result ≡ first_starts_by place extents.now }
{
    extents.first().is_some_and(|first| first.start <= place)
}

/// Whether there is a first that ends before the place.
#[inline(always)]
pub fn ends_before(extents: &[Extent], place: u64) -> bool
    ensures { result ≡ first_ends_before place extents.now }
{
    extents.first().is_some_and(|first| first.end < place)
}
