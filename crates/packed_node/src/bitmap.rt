//! The positions that a branch has twigs for, as bits.

ghost use Rattle.std.specs.Prelude.{◌≡◌, ◌≢◌, ◌+◌, ◌-◌, ◌/◌, ◌%◌, ◌^◌, ◌<◌, ◌↔◌, IsTrue, IsNone, Some, count_ones, count_by};
ghost use Rattle.std.specs.List.{range_with_len};
ghost use Rattle.std.specs.Int.{bit_at};
ghost use Rattle.packed_node.specs.Bitmaps.{has_position};

/// Whether the position is there.
#[inline]
pub fn has(bitmap: u64, position: u8) -> bool
    requires { position < 47 }
    ensures { IsTrue result ↔ (bit_at bitmap position ≡ 1) }
{
    (bitmap >> position) & 1 == 1
}

/// How many smaller positions are there.
#[inline]
pub fn count_below(bitmap: u64, position: u8) -> u32
    requires { position < 47 }
    ensures by_popcount { result ≡ count_ones (bitmap % 2 ^ position) }
    ensures smaller { result ≡ count_by (has_position bitmap) (range_with_len 0 position) }
{
    (bitmap % bit(position)).count_ones()
}

/// How many smaller positions are there, if the position itself is.
#[inline]
pub fn index_of(bitmap: u64, position: u8) -> Option<u32>
    requires { position < 47 }
    ensures there { bit_at bitmap position ≡ 1 → result ≡ Some (count_ones (bitmap % 2 ^ position)) }
    ensures absent { bit_at bitmap position ≢ 1 → IsNone result }
{
    // The bits above the position's are shifted out, and its own becomes the highest.
    let up_to = bitmap << (63 - position);
    if up_to < 1 << 63 {
        return None;
    }
    Some(up_to.count_ones() - 1)
}

/// The bitmap of the position alone.
#[inline]
pub fn bit(position: u8) -> u64
    requires { position < 47 }
    ensures value { result ≡ 2 ^ position }
    ensures small { result < 2 ^ 47 }
{
    1 << position
}

/// The bitmap of two positions.
#[inline]
pub fn pair(first: u8, second: u8) -> u64
    requires first { first < 47 }
    requires second { second < 47 }
    requires apart { first ≢ second }
    ensures { result ≡ 2 ^ first + 2 ^ second }
{
    with(bit(first), second)
}

/// The bitmap with a position that it lacks.
#[inline]
pub fn with(bitmap: u64, position: u8) -> u64
    requires bitmap { bitmap < 2 ^ 47 }
    requires position { position < 47 }
    requires absent { bit_at bitmap position ≡ 0 }
    ensures { result ≡ bitmap + 2 ^ position }
{
    bitmap + bit(position)
}

/// The bitmap without a position that it has.
#[inline]
pub fn without(bitmap: u64, position: u8) -> u64
    requires position { position < 47 }
    requires present { bit_at bitmap position ≡ 1 }
    ensures { result + 2 ^ position ≡ bitmap }
{
    bitmap - bit(position)
}
