// A message handed over.
ghost use Rattle.std.specs.Prelude.{◌≡◌, [], ◌++◌};
ghost use Rattle.session_lines.specs.Lines.{session_line, message_numbers, message_line, message_lines, eoma_word};
ghost use Rattle.text.specs.Line.{Placed};

use super::key::session_numbers;
use answer::Message;
use text::line::Line;
use transport::Kind;

// What comes before a message's bytes.
pub fn message_numbers(m: Message) -> [u64; 5]
    ensures { result ≡ message_numbers m }
{
    [
        u64::from(m.key.sa.0),
        u64::from(m.key.da.0),
        u64::from(m.key.session.0),
        u64::from(m.pgn),
        u64::from(m.total.0),
    ]
}

// A message by itself, as a BAM's is handed over.
pub fn write_message(out: &mut [u8], at: usize, m: Message, bytes: &[u8]) -> Option<usize>
    ensures { Placed out.old at (message_line m bytes.now) result out.new }
{
    let fields = message_numbers(m);
    Line {
        word: b"msg",
        fields: &fields,
        octets: bytes,
    }
    .write(out, at)
}

// The EOMA that an RTS is answered by, and the message.
pub fn write_acknowledged(out: &mut [u8], at: usize, m: Message, bytes: &[u8]) -> Option<usize>
    ensures { Placed out.old at (session_line eoma_word m.key [] ++ message_line m bytes.now) result out.new }
{
    let session = session_numbers(m.key);
    let fields = message_numbers(m);
    let message = Line {
        word: b"msg",
        fields: &fields,
        octets: bytes,
    };
    Line::plain(b"send eoma", &session).write_then(message, out, at)
}

pub fn write_handed_over(out: &mut [u8], at: usize, m: Message, bytes: &[u8]) -> Option<usize>
    ensures { Placed out.old at (message_lines m bytes.now) result out.new }
{
    match m.kind {
        Kind::Rts => write_acknowledged(out, at, m, bytes),
        Kind::Bam => write_message(out, at, m, bytes),
    }
}
