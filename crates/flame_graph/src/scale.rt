//! Where a place is in the picture.

ghost use Rattle.std.specs.Prelude.{◌≡◌, ◌≤◌};
ghost use Rattle.flame_graph.specs.Picture.{thousandths_at, unit_of};

/// The width of the lowest row of frames, in thousandths of a pixel.
const ACROSS: u128 = 1_180_000;

/// From this total on, places are counted in greater units.
const LARGE: u128 = 1 << 107;

/// The greater unit, in cycles.
const LARGE_UNIT: u128 = 1 << 21;

/// How far from the left a place is, in thousandths of a pixel, if all rows end at `total`.
pub(crate) fn thousandths_at(total: u128, place: u128) -> u128
    requires { place ≤ total }
    ensures at { result ≡ thousandths_at total place }
    ensures bound { result ≤ 1180000 }
{
    let unit = unit_of(total);
    let whole = total / unit;
    if whole == 0 {
        return 0;
    }
    place / unit * ACROSS / whole
}

/// The cycles that are counted as one.
fn unit_of(total: u128) -> u128
    ensures { result ≡ unit_of total }
{
    if total < LARGE { 1 } else { LARGE_UNIT }
}
