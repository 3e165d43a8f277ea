// The lines of a Multi-PG frame's groups.
ghost use Rattle.std.specs.Prelude.{◌≡◌, ◌+◌, ◌≤◌, length};
ghost use Rattle.multi_pg.specs.Groups.{groups_of};
ghost use Rattle.reader.specs.Runs.{groups_left};
ghost use Rattle.report.specs.Lines.{group_numbers, group_line, group_lines};
ghost use Rattle.text.specs.Line.{left_by, Placed};
ghost use Rattle.text.specs.Put.{PutAt};

use frame::judge::Route;
use multi_pg::Group;
use reader::Reader;
use text::line::Line;

fn group_numbers(route: Route, group: Group) -> [u64; 4]
    ensures { result ≡ group_numbers route group }
{
    [
        route.sa.0 as u64,
        route.da.0 as u64,
        group.pgn as u64,
        group.len as u64,
    ]
}

fn left_after_group(room: usize, route: Route, group: Group) -> Option<usize>
    ensures { result ≡ left_by room (length (group_line route group)) }
{
    let fields = group_numbers(route, group);
    Line::plain(b"pg", &fields).left_after(room)
}

fn put_group(out: &mut [u8], at: usize, route: Route, group: Group) -> usize
    requires { at + length (group_line route group) ≤ length out.old }
    ensures { PutAt out.old at (group_line route group) result out.new }
{
    let fields = group_numbers(route, group);
    Line::plain(b"pg", &fields).put(out, at)
}

// The room that the lines of what a reader still gives leave.
fn left_after_groups(room: usize, route: Route, groups: Reader) -> Option<usize>
    ensures { result ≡ left_by room (length (group_lines route (groups_left groups.entry))) }
{
    let mut left = room;
    for group in groups {
        left = left_after_group(left, route, group)?;
    }
    Some(left)
}

fn put_groups(out: &mut [u8], at: usize, route: Route, groups: Reader) -> usize
    requires { at + length (group_lines route (groups_left groups)) ≤ length out.old }
    ensures { PutAt out.old at (group_lines route (groups_left groups.entry)) result out.new }
{
    let mut next = at;
    for group in groups {
        next = put_group(out, next, route, group);
    }
    next
}

// A line for each group of a frame; none if the frame is refused. To make a reader judges the frame, which is done once.
pub fn write_groups(out: &mut [u8], at: usize, route: Route, frame: &[u8]) -> Option<usize>
    ensures { Placed out.old at (group_lines route (groups_of frame.now)) result out.new }
{
    let room = out.len().checked_sub(at)?;
    let groups = Reader::over(frame);
    left_after_groups(room, route, groups)?;
    Some(put_groups(out, at, route, groups))
}
