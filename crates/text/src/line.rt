// A line: a word, then a space and the digits of each number, then LF. It has no Display: a write! puts part by part and promises
// nothing of a buffer that was too short, while Placed needs all of the line or nothing.
ghost use Rattle.std.specs.Prelude.{◌≡◌, ◌++◌, ◌+◌, ◌≤◌, length, map};
ghost use Rattle.text.specs.Line.{spaced, numbers, line_of, bytes_of, left_by, Placed};
ghost use Rattle.text.specs.Put.{PutAt};

use super::decimal::Decimal;

// ---- The numbers of a line.

// Puts a space and a number, where the caller has seen that there is room.
#[tactic(auto, unfolding(crate::specs::Line::spaced))]
fn put_spaced<N: Decimal>(out: &mut [u8], at: usize, number: N) -> usize
    requires { at + length (spaced (N.number number)) ≤ length out.old }
    ensures { PutAt out.old at (spaced (N.number number)) result out.new }
{
    out[at] = b' ';
    number.put(out, at + 1)
}

fn put_numbers<N: Decimal>(out: &mut [u8], at: usize, list: &[N]) -> usize
    requires { at + length (numbers (map N.number list.now)) ≤ length out.old }
    ensures { PutAt out.old at (numbers (map N.number list.now)) result out.new }
{
    let mut place = at;
    for number in list {
        place = put_spaced(out, place, *number);
    }
    place
}

// How much of some room is left after them.
fn left_after_numbers<N: Decimal>(room: usize, list: &[N]) -> Option<usize>
    ensures { result ≡ left_by room (length (numbers (map N.number list.now))) }
{
    let mut left = room;
    for number in list {
        left = left.checked_sub(number.width())?.checked_sub(1)?;
    }
    Some(left)
}

// ---- A whole line. Its methods are compiled into whoever calls them, where the word and the number of numbers are known (docs/SPEED.md).

#[derive(Clone, Copy)]
pub struct Line<'a> {
    pub word: &'a [u8],
    pub fields: &'a [u64],
    // the numbers after those of fields
    pub octets: &'a [u8],
}

impl<'a> Line<'a> {
    // A line with no octets.
    pub fn plain(word: &'a [u8], fields: &'a [u64]) -> Line<'a>
        ensures { bytes_of result ≡ line_of word.now fields.now }
    {
        Line {
            word,
            fields,
            octets: b"",
        }
    }

    // How much of some room is left after it.
    #[inline(always)]
    pub fn left_after(self, room: usize) -> Option<usize>
        ensures { result ≡ left_by room (length (bytes_of self.entry)) }
    {
        let behind = room.checked_sub(self.word.len() + 1)?;
        let left = left_after_numbers(behind, self.fields)?;
        left_after_numbers(left, self.octets)
    }

    // Puts it at a place of a lent buffer, where the caller has seen that there is room, and answers the place after it.
    #[inline(always)]
    pub fn put(self, out: &mut [u8], at: usize) -> usize
        requires { at + length (bytes_of self) ≤ length out.old }
        ensures { PutAt out.old at (bytes_of self.entry) result out.new }
    {
        let first = at + self.word.len();
        out[at..first].copy_from_slice(self.word);
        let second = put_numbers(out, first, self.fields);
        let third = put_numbers(out, second, self.octets);
        out[third] = b'\n';
        third + 1
    }

    // Puts it there if there is room for all of it, and answers the place after it.
    #[inline(always)]
    pub fn write(self, out: &mut [u8], at: usize) -> Option<usize>
        ensures { Placed out.old at (bytes_of self.entry) result out.new }
    {
        self.left_after(out.len().checked_sub(at)?)?;
        Some(self.put(out, at))
    }

    // Puts it and then another line, if there is room for both.
    pub fn write_then(self, next: Line<'_>, out: &mut [u8], at: usize) -> Option<usize>
        ensures { Placed out.old at (bytes_of self.entry ++ bytes_of next.entry) result out.new }
    {
        let left = self.left_after(out.len().checked_sub(at)?)?;
        next.left_after(left)?;
        let behind = self.put(out, at);
        Some(next.put(out, behind))
    }
}
