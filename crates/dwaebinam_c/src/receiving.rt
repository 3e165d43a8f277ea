// The calls of the version, the lengths and the receiver.
ghost use Rattle.std.specs.Prelude.{◌≡◌};
ghost use Rattle.frame.specs.Lengths.{least_length};
ghost use Rattle.engine.specs.Missing.{missing_in};
ghost use Rattle.dwaebinam.specs.Calls.{boundary_version, least_or, opened_in, framed_in};
ghost use Rattle.dwaebinam.specs.Message.{copied_in};
ghost use Rattle.dwaebinam.specs.Missing.{missing_answer};
ghost use Rattle.dwaebinam.specs.Reading.{read_in};

use dwaebinam::{export, message, missing, reading};

#[unsafe(no_mangle)]
pub extern "C" fn dwb_version() -> u32
    ensures { result ≡ boundary_version }
{
    export::dwb_version()
}

#[unsafe(no_mangle)]
pub extern "C" fn dwb_least_length(need: usize) -> usize
    ensures { result ≡ least_or (least_length need) }
{
    export::dwb_least_length(need)
}

#[unsafe(no_mangle)]
pub extern "C" fn dwb_open(buffer: &mut [u8], own: u8, first: u32, second: u32, reading: u32) -> u8
    ensures { (result, buffer.new) ≡ opened_in own (record { first = first; second = second }) reading buffer.old }
{
    export::dwb_open(buffer, own, first, second, reading)
}

#[unsafe(no_mangle)]
pub extern "C" fn dwb_frame(
    buffer: &mut [u8],
    id: u32,
    bytes: &[u8],
    store: &mut [u8],
    answer: &mut [u8],
) -> u8
    ensures { (result, (buffer.new, (store.new, answer.new)))
        ≡ framed_in buffer.old id bytes.now store.old answer.old }
{
    export::dwb_frame(buffer, id, bytes, store, answer)
}

#[unsafe(no_mangle)]
pub extern "C" fn dwb_reading(
    buffer: &mut [u8],
    reading: u32,
    store: &[u8],
    answers: &mut [u8],
) -> u8
    ensures { (result, (buffer.new, answers.new)) ≡ read_in buffer.old reading store.now answers.old }
{
    reading::dwb_reading(buffer, reading, store, answers)
}

#[unsafe(no_mangle)]
pub extern "C" fn dwb_missing(buffer: &[u8], sa: u8, da: u8, session: u8) -> usize
    ensures { result ≡ missing_answer (missing_in buffer.now (record { sa = record { 0 = sa }; da = record { 0 = da }; session = record { 0 = session } })) }
{
    missing::dwb_missing(buffer, sa, da, session)
}

#[unsafe(no_mangle)]
pub extern "C" fn dwb_message(answer: &[u8], store: &[u8], out: &mut [u8]) -> usize
    ensures { (result, out.new) ≡ copied_in answer.now store.now out.old }
{
    message::dwb_message(answer, store, out)
}
