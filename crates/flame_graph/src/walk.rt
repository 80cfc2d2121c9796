//! The lines of all frames.

ghost use Rattle.std.specs.Prelude.{◌≡◌, ◌+◌, ◌-◌, ◌^◌, ◌<◌, ◌≤◌, length, map, suc, if◌then◌else◌, OnOk};
ghost use Rattle.std.specs.List.{flat_map};
ghost use Rattle.function_names.specs.Name.{naming};
ghost use Rattle.stack_rebuild.specs.Stacks.{told};
ghost use Rattle.xray_io.specs.Text.{AddsText};
ghost use Rattle.flame_graph.specs.FlameText.{frame_text, top_of};
ghost use Rattle.flame_graph.specs.Frames.{AreAscending, capped, end_of, frames, frames_total};
ghost use Rattle.flame_graph.specs.Picture.{is_drawn, left_of, left_out, levels_of, most_levels, width_of};
ghost use Rattle.flame_graph.specs.private.Walking.{IsKept, IsOpen, Stands, count_left, ended_at, opening_at, shared_at};

use crate::frame::{Calls, Openings};
use crate::line::{Place, add_frame_line};
use crate::open_frames::open_frames;
use crate::scale::thousandths_at;
use crate::sums::{MOST_LEVELS, shared};
use function_names::Names;
use stack_rebuild::StackRow;
use xray_io::{Sink, Text, WriteFault};

/// The least width that is drawn, in thousandths of a pixel.
const LEAST_WIDTH: u128 = 100;

/// The height of a row of frames, in pixels.
pub(crate) const LEVEL: u128 = 16;

/// What is free above the frames, in pixels.
const ABOVE: u128 = 48;

/// What is drawn, and what is known of all rows.
#[derive(Drop)]
pub(crate) struct Picture<'a> {
    pub(crate) rows: &'a [StackRow],
    pub(crate) names: Names<'a>,
    /// Where the rows end, in cycles.
    pub(crate) total: u128,
    /// How many rows of frames are drawn.
    pub(crate) levels: usize,
    ghost total_is: { total ≡ frames_total (map told rows.now) },
    ghost levels_are: { levels ≡ levels_of (map told rows.now) },
}

/// What is kept from a row to the next.
#[derive(Drop)]
pub(crate) struct Walk {
    /// The frames that are open, from the outermost on.
    openings: Openings,
    /// How many of them the next row goes on with.
    standing: usize,
    /// Where the next row begins, in cycles.
    place: u128,
}

/// Adds the lines of the frames that are drawn, and counts those that are left out.
pub(crate) fn add_frames<S: Sink>(
    to: &mut Text<S>,
    picture: &Picture,
    left: &mut u128,
) -> Result<(), WriteFault>
    requires ascending { AreAscending (map told picture.now.rows.now) }
    requires none { left.old ≡ 0 }
    ensures adds { AddsText S.written S.faults S.along to.old to.new
        (flat_map (frame_text (naming picture.now.names)
        (map told picture.now.rows.now)) (frames (map told picture.now.rows.now))) result }
    ensures left { OnOk result (left.new ≡ left_out (map told picture.now.rows.now)) }
{
    let mut walk = Walk {
        openings: Openings {
            lefts: [0; MOST_LEVELS],
            firsts: [0; MOST_LEVELS],
        },
        standing: 0,
        place: 0,
    };
    'rows: for at in 0..picture.rows.len() {
        add_row(to, picture, at, &mut walk, left)?;
    }
    Ok(())
}

/// Goes on to a row: opens its frames, and adds the lines of those that end with it.
fn add_row<S: Sink>(
    to: &mut Text<S>,
    picture: &Picture,
    at: usize,
    walk: &mut Walk,
    left: &mut u128,
) -> Result<(), WriteFault>
    requires ascending { AreAscending (map told picture.now.rows.now) }
    requires within { at < length picture.now.rows.now }
    requires stands { Stands (map told picture.now.rows.now) at walk.old }
    ensures adds { AddsText S.written S.faults S.along to.old to.new
        (flat_map (frame_text (naming picture.now.names)
        (map told picture.now.rows.now)) (ended_at (map told picture.now.rows.now) at)) result }
    ensures left { OnOk result (left.new ≡ capped (left.old
        + count_left (map told picture.now.rows.now) (ended_at (map told picture.now.rows.now) at))) }
    ensures stands { OnOk result (Stands (map told picture.now.rows.now) (at + 1) walk.new) }
{
    open_row(walk, picture, at);
    walk.standing = shared_after(picture.rows, at);
    add_ended(to, picture, at, walk, left)
}

/// Opens the frames of a row.
fn open_row(walk: &mut Walk, picture: &Picture, at: usize)
    requires ascending { AreAscending (map told picture.now.rows.now) }
    requires within { at < length picture.now.rows.now }
    requires stands { Stands (map told picture.now.rows.now) at walk.old }
    ensures { IsOpen (map told picture.now.rows.now) at walk.new }
{
    let row = &picture.rows[at];
    let left = thousandths_at(picture.total, walk.place) as u32;
    open_frames(&mut walk.openings, walk.standing, row, left, at);
    walk.place = walk.place.saturating_add(row.own);
}

/// How many functions the path of a row has in common with that of the next one.
fn shared_after(rows: &[StackRow], at: usize) -> usize
    requires { at < length rows.now }
    ensures { result ≡ shared_at (map told rows.now) (suc at) }
{
    match rows.get(at + 1) {
        Some(next) => shared(&rows[at].path, &next.path),
        None => 0,
    }
}

/// Adds the lines of the frames that end with a row: those with more functions than the next row
/// shares.
fn add_ended<S: Sink>(
    to: &mut Text<S>,
    picture: &Picture,
    at: usize,
    walk: &Walk,
    left: &mut u128,
) -> Result<(), WriteFault>
    requires ascending { AreAscending (map told picture.now.rows.now) }
    requires within { at < length picture.now.rows.now }
    requires opened { IsOpen (map told picture.now.rows.now) at walk.now }
    requires standing { walk.now.standing ≡ shared_at (map told picture.now.rows.now) (suc at) }
    ensures adds { AddsText S.written S.faults S.along to.old to.new
        (flat_map (frame_text (naming picture.now.names)
        (map told picture.now.rows.now)) (ended_at (map told picture.now.rows.now) at)) result }
    ensures left { OnOk result (left.new ≡ capped (left.old
        + count_left (map told picture.now.rows.now) (ended_at (map told picture.now.rows.now) at))) }
{
    let _before = *left;
    let path = picture.rows[at].path.as_slice();
    'frames: for outer in walk.standing..path.len() {
        add_frame(to, picture, &path[..outer + 1], walk, left)?;
    }
    Ok(())
}

/// Adds the line of a frame that ends here, or counts it if it is left out.
fn add_frame<S: Sink>(
    to: &mut Text<S>,
    picture: &Picture,
    frame: &[u32],
    walk: &Walk,
    left: &mut u128,
) -> Result<(), WriteFault>
    requires some { 0 < length frame.now }
    requires kept { length frame.now ≤ most_levels → IsKept (map told picture.now.rows.now) frame.now
        (opening_at walk.now.openings (length frame.now - 1)) }
    requires end { walk.now.place ≡ end_of (map told picture.now.rows.now) frame.now }
    ensures adds { AddsText S.written S.faults S.along to.old to.new
        (frame_text (naming picture.now.names)
        (map told picture.now.rows.now) frame.now) result }
    ensures left { OnOk result (left.new ≡ capped (left.old
        + (if is_drawn (map told picture.now.rows.now) frame.now then 0 else 1))) }
{
    let before = *left;
    if frame.len() > MOST_LEVELS {
        *left = before.saturating_add(1);
        return Ok(());
    }
    let outer = frame.len() - 1;
    let place = place_of(picture, frame, walk.openings.lefts[outer], walk.place);
    if place.width < LEAST_WIDTH {
        *left = before.saturating_add(1);
        return Ok(());
    }
    let first = &picture.rows[walk.openings.firsts[outer]];
    let calls = Calls::of_frame(first, frame.len());
    add_frame_line(to, &place, frame[outer], picture.names, &calls)
}

/// Where a frame is drawn that begins at `left`, in thousandths of a pixel, and ends at `end`, in
/// cycles.
fn place_of(picture: &Picture, frame: &[u32], left: u32, end: u128) -> Place
    requires left { left ≡ left_of (map told picture.now.rows.now) frame.now }
    requires end { end ≡ end_of (map told picture.now.rows.now) frame.now }
    ensures left { result.left ≡ left_of (map told picture.now.rows.now) frame.now }
    ensures width { result.width ≡ width_of (map told picture.now.rows.now) frame.now }
    ensures top { result.top
        ≡ top_of (levels_of (map told picture.now.rows.now)) (length frame.now) }
    ensures left_bound { result.left < 2 ^ 64 }
    ensures width_bound { result.width < 2 ^ 64 }
    ensures top_bound { result.top < 2 ^ 64 }
{
    let left = u128::from(left);
    let right = thousandths_at(picture.total, end);
    Place {
        left,
        width: right.saturating_sub(left),
        top: ABOVE + picture.levels.saturating_sub(frame.len()) as u128 * LEVEL,
    }
}
