// The last line of a run.
ghost use Rattle.report.specs.Lines.{end_line, bad_line};
ghost use Rattle.text.specs.Line.{Placed};

use text::line::Line;

// All records were read.
pub fn write_end(out: &mut [u8], at: usize, records: u64) -> Option<usize>
    ensures { Placed out.old at (end_line records) result out.new }
{
    let fields = [records];
    Line::plain(b"end", &fields).write(out, at)
}

// A bad record starts at the offset.
pub fn write_bad_record(out: &mut [u8], at: usize, offset: u64) -> Option<usize>
    ensures { Placed out.old at (bad_line offset) result out.new }
{
    let fields = [offset];
    Line::plain(b"bad record at", &fields).write(out, at)
}
