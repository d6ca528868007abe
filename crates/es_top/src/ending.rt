ghost use Rattle.std.specs.Prelude.{◌≡◌, ◌≤◌, IfOk};
ghost use Rattle.es_model.specs.Causes.{Rose};
ghost use Rattle.es_lines.specs.Texts.{end_text as text_of_end};
ghost use Rattle.es_process.specs.SingleThread.{as_line};
ghost use Rattle.es_top.specs.Ends.{ended, Writes, WritesLine};

use crate::Status;
use crate::serve::write_line;
use es_io::Sink;
use es_lines::{End, end_text, fixed_end_line};
use es_model::{Bytes, Failed, NoMemory};
use std::alloc::Global;

// The end line that tells want of memory.
fn memory_line() -> &'static [u8]
    ensures { result.now ≡ as_line (text_of_end End.Memory) }
{
    fixed_end_line(&End::Memory).unwrap()
}

// Writes an end line, and gives its status.
fn tell<T: Sink>(out: &mut T, line: &[u8], end: End) -> Status
    ensures told { WritesLine end line.now (T.written out.old) (T.written out.new) (ended result) }
    ensures sink { result ≡ Status.Sink → Rose (T.faults out.old) (T.faults out.new) }
    ensures later { T.faults out.old ≤ T.faults out.new }
{
    match write_line(out, line) {
        Ok(()) => Status::from(end),
        Err(Failed) => Status::Sink,
    }
}

/// Writes the end line of an end, or that memory ran out.
pub fn finish<T: Sink>(alloc: Global, out: &mut T, end: End) -> Status
    ensures told { Writes end (T.written out.old) (T.written out.new) (ended result) }
    ensures sink { result ≡ Status.Sink → Rose (T.faults out.old) (T.faults out.new) }
    ensures later { T.faults out.old ≤ T.faults out.new }
{
    if let Some(line) = fixed_end_line(&end) {
        return tell(out, line, end);
    }
    match end_line(alloc, &end) {
        Ok(line) => tell(out, line.as_slice(), end),
        Err(NoMemory) => tell(out, memory_line(), End::Memory),
    }
}

// The end line of an end.
fn end_line(alloc: Global, end: &End) -> Result<Bytes, NoMemory>
    ensures { IfOk result (λ line. line ≡ as_line (text_of_end end.now)) }
{
    let mut text = end_text(alloc, end)?;
    text.push(b'\n')?;
    Ok(text)
}
