ghost use Rattle.std.specs.Prelude.{◌≡◌, ◌≤◌, ◌<◌, ◌+◌, ◌-◌, ◌∷◌, [], ◌↔◌, List, ℕ, IfOk, IfErr, OnOk, IfSome, OnErr, IsTrue, IsErrOf, None, Some, false, length, if◌then◌else◌, nat_lt};
ghost use Rattle.std.specs.Io.{ReadsAtMost};
ghost use Rattle.std.specs.Io.KnownBytes.{Keeps, Consumes, IsAtEnd, ReadConsumes};
ghost use Rattle.es_model.specs.Causes.{Rose, HasCause};

use crate::Source;
use es_model::{Bytes, Failed, NoMemory};
use std::alloc::Global;
use thiserror::Error;

const PIECE: usize = 8192;

// Takes bytes into the front of a piece, at most so many.
fn read_at_most<S: Source>(source: &mut S, piece: &mut [u8], most: usize) -> Result<usize, Failed>
    requires { 0 < most }
    ensures bound { ReadsAtMost result piece.new }
    ensures few { IfOk result (λ count. count ≤ most) }
    ensures bytes { ReadConsumes (S.left source.old) (S.left source.new) result piece.new }
    ensures cause { HasCause (S.faults source.old) (S.faults source.new) result }
{
    let room = piece.len().min(most);
    source.read(&mut piece[..room])
}

/// The memory that holds what is read ahead of a source. It is made before a source is lent, so that no call that was lent one fails for
/// want of it.
#[derive(Drop)]
pub struct Piece {
    bytes: Vec<u8>,
    ghost some: { 0 < length bytes.items },
}

impl Piece {
    /// Memory for one piece of a source.
    pub fn new(alloc: Global) -> Result<Piece, NoMemory> {
        let bytes = vec![in alloc; 0; PIECE]?;
        Ok(Piece { bytes })
    }
}

// What was read ahead of a source.
#[derive(Drop)]
struct Ahead<'a, S> {
    source: &'a mut S,
    piece: Vec<u8>,
    start: usize,
    end: usize,
    ghost some: { 0 < length piece.items },
    ghost ordered: { start ≤ end },
    ghost inside: { end ≤ length piece.items },
}

impl<'a, S: Source> Ahead<'a, S> {
    ghost use Rattle.es_io.specs.Ahead.{unread};
    ghost use Rattle.es_io.specs.Remains.{MayHold, MayRemain};

    fn new(piece: Piece, source: &'a mut S) -> Ahead<'a, S>
        ensures same_reference { result.source.ghost_name ≡ source.entry.ghost_name }
        ensures source { result.source.now ≡ source.old }
        ensures unread { unread S.left result ≡ S.left source.old }
        ensures empty { result.start ≡ result.end }
        ensures remains { (b : List ℕ) → MayRemain S.left result b → MayHold (S.left source.old) b }
    {
        let Piece { bytes } = piece;
        Ahead {
            source,
            piece: bytes,
            start: 0,
            end: 0,
        }
    }

    // Takes the next piece, of at most so many bytes, where the last one is used up. `false` only at the end.
    fn fill(&mut self, most: usize) -> Result<bool, Failed>
        requires used_up { self.old.start ≡ self.old.end }
        requires some { 0 < most }
        ensures same_reference { self.new.source.ghost_name ≡ self.old.source.ghost_name }
        ensures keeps { Keeps (unread S.left self.old) (unread S.left self.new) }
        ensures more { IfOk result (λ more. IsTrue more ↔ (self.new.start < self.new.end)) }
        ensures end { result ≡ Ok false → IsAtEnd (unread S.left self.new) }
        ensures remains { (b : List ℕ) → MayRemain S.left self.new b → MayRemain S.left self.old b }
        ensures no_more { result ≡ Ok false → MayRemain S.left self.new [] }
        ensures bound { self.new.end - self.new.start ≤ most }
        ensures failed { OnErr result (self.new.start ≡ self.new.end) }
        ensures cause { HasCause (S.faults self.old.source.now) (S.faults self.new.source.now) result }
    {
        self.start = 0;
        self.end = 0;
        let count = read_at_most(self.source, self.piece.as_mut_slice(), most)?;
        self.end = count;
        Ok(count > 0)
    }

    // The next byte that was read ahead.
    fn pop(&mut self) -> u8
        requires { self.old.start < self.old.end }
        ensures same_source { self.new.source ≡ self.old.source }
        ensures takes { Consumes (unread S.left self.old) (unread S.left self.new) (result ∷ []) }
        ensures remains { (b : List ℕ) → MayRemain S.left self.new b → MayRemain S.left self.old (result ∷ b) }
        ensures one { (self.new.end - self.new.start) + 1 ≡ self.old.end - self.old.start }
    {
        let byte = self.piece[self.start];
        self.start += 1;
        byte
    }
}

/// What comes next of a source.
#[derive(Debug, Drop)]
pub enum Step {
    /// A line, without its line feed.
    Line(Bytes),
    /// A line with too many bytes, which was passed over whole.
    Long,
    /// No byte is left.
    End,
    /// The next line doesn't end within the bytes that may be taken.
    Over,
}

/// Why there is no next line.
#[derive(Clone, Copy, Debug, PartialEq, Eq, Error)]
pub enum LinesFault {
    #[error("the source failed")]
    Read,
    #[error("out of memory")]
    NoMemory,
}

impl From<NoMemory> for LinesFault {
    ghost use Rattle.std.specs.Prelude.{◌≡◌};
    ghost use Rattle.es_io.specs.declared.lines.LinesFault.TheVariants as faults;

    ghost from_gives = { λ _ e. e ≡ faults.NoMemory };

    fn from(_: NoMemory) -> LinesFault {
        LinesFault::NoMemory
    }
}

impl From<Failed> for LinesFault {
    ghost use Rattle.std.specs.Prelude.{◌≡◌};
    ghost use Rattle.es_io.specs.declared.lines.LinesFault.TheVariants as faults;

    ghost from_gives = { λ _ e. e ≡ faults.Read };

    fn from(_: Failed) -> LinesFault {
        LinesFault::Read
    }
}

/// The lines of a source, one by one. It holds one line and one piece of the source at most.
#[derive(Drop)]
pub struct Lines<'a, S> {
    ahead: Ahead<'a, S>,
    alloc: Global,
    line_limit: u64,
    room: u64,
    ended: bool,
    fault: Option<LinesFault>,
    ghost bounded: { ahead.end - ahead.start ≤ room + 1 },
    ghost spent: { IsTrue ended → ahead.start ≡ ahead.end },
}

impl<'a, S: Source> Lines<'a, S> {
    ghost use Rattle.es_io.specs.Ahead.{unread};
    ghost use Rattle.es_io.specs.LinesLeft.{lines_left, unread_of, room_of, may_take, has_ended, fault_of, source_of, IsOver, EndsRightly};
    ghost use Rattle.es_io.specs.Next.{IsNext, Uses, TakesRoom, EndsUnended, TakesAtMost};
    ghost use Rattle.es_io.specs.Remains.{MayHold, MayRemain, MayHaveLeft, StepOf, FaultOf, lines_from};
    ghost use Rattle.es_model.specs.Lines.{lines_of};
    ghost use Rattle.std.specs.Option.{option_map};

    /// The lines of a source, read ahead into a piece of memory. A line may have `line_limit` bytes, its line feed not counted, and all
    /// lines together `total_limit`, with their line feeds.
    pub fn new(
        alloc: Global,
        piece: Piece,
        source: &'a mut S,
        line_limit: u64,
        total_limit: u64,
    ) -> Lines<'a, S>
        ensures same_reference { (source_of result).ghost_name ≡ source.entry.ghost_name }
        ensures source { (source_of result).now ≡ source.old }
        ensures lines { lines_left S.left result ≡ option_map (lines_of line_limit total_limit) (S.left source.old) }
        ensures unread { unread_of S.left result ≡ S.left source.old }
        ensures room { room_of result ≡ total_limit }
        ensures bound { may_take result ≡ total_limit + 1 }
        ensures clear { fault_of result ≡ None }
        ensures ends { EndsRightly S.left result }
        ensures remains { (b : List ℕ) → MayHaveLeft S.left result b → MayHold (S.left source.old) b }
        ensures lines_from { (b : List ℕ) → lines_from result b ≡ lines_of line_limit total_limit b }
    {
        Lines {
            ahead: Ahead::new(piece, source),
            alloc,
            line_limit,
            room: total_limit,
            ended: false,
            fault: None,
        }
    }

    /// Gives the source back.
    pub fn into_source(self) -> &'a mut S
        ensures same_reference { result.ghost_name ≡ (source_of self.entry).ghost_name }
        ensures source { result.now ≡ (source_of self.entry).now }

        // Something may be left.
        ensures left { EndsRightly S.left self.entry → (b : List ℕ) × MayHaveLeft S.left self.entry b }
    {
        let Lines {
            ahead,
            alloc: _,
            line_limit: _,
            room: _,
            ended: _,
            fault: _,
        } = self;
        let Ahead {
            source,
            piece: _,
            start: _,
            end: _,
        } = ahead;
        source
    }

    /// The next line, or that there is none. After a fault each call answers that fault. Once the
    /// source is found at its end it isn't asked again.
    pub fn next(&mut self) -> Result<Step, LinesFault>
        ensures same_reference { (source_of self.new).ghost_name ≡ (source_of self.old).ghost_name }

        // The end is known only where no byte is left, from `new` on.
        ensures ends { EndsRightly S.left self.old → EndsRightly S.left self.new }
        ensures next { EndsRightly S.left self.old → IfOk result (IsNext (lines_left S.left self.old) (lines_left S.left self.new)) }
        ensures uses { EndsRightly S.left self.old → IfOk result (Uses (unread_of S.left self.old) (unread_of S.left self.new) (has_ended self.new)) }
        ensures room { IfOk result (TakesRoom (room_of self.old) (room_of self.new)) }

        // The same where the bytes aren't told: whatever may be left after it, before it there may have been what it answers, and then this.
        ensures step { IfOk result (λ s. (b : List ℕ) → MayHaveLeft S.left self.new b → StepOf S.left self.old self.new b s) }
        ensures cut { (b : List ℕ) → MayHaveLeft S.left self.new b → OnErr result (FaultOf S.left self.old b) }

        // After `Over` each call answers that.
        ensures over { result ≡ Ok Step.Over → IsOver self.new }
        ensures over_stays { fault_of self.old ≡ None → IsOver self.old → result ≡ Ok Step.Over }

        // No more than one byte past the limit is ever taken from the source.
        ensures bound { TakesAtMost (S.left (source_of self.old).now) (S.left (source_of self.new).now) (may_take self.old) (may_take self.new) }

        ensures stuck { IfSome (fault_of self.old) (λ fault. result ≡ Err fault) }
        ensures sticks { IfErr result (λ fault. fault_of self.new ≡ Some fault) }
        ensures clear { OnOk result (fault_of self.new ≡ None) }

        // No line feed is left in what was taken and not answered.
        ensures unended { IsErrOf result LinesFault.Read → fault_of self.old ≡ None → EndsUnended (unread_of S.left self.old) (S.left (source_of self.new).now) }
        ensures not_ended { IsErrOf result LinesFault.Read → fault_of self.old ≡ None → has_ended self.old ≡ false }

        // After a failed read nothing is read ahead: what the source may have left may be left.
        ensures left { IsErrOf result LinesFault.Read → fault_of self.old ≡ None → (b : List ℕ) → MayHold (S.left (source_of self.new).now) b → MayHaveLeft S.left self.new b }
        ensures later { S.faults (source_of self.old).now ≤ S.faults (source_of self.new).now }
        ensures read { IsErrOf result LinesFault.Read → fault_of self.old ≡ None → Rose (S.faults (source_of self.old).now) (S.faults (source_of self.new).now) }
    {
        if let Some(fault) = self.fault {
            return Err(fault);
        }
        if self.room == 0 && self.ahead.start < self.ahead.end {
            return Ok(Step::Over);
        }
        if self.ended {
            return Ok(Step::End);
        }
        match self.read_line() {
            Ok(step) => Ok(step),
            Err(fault) => {
                self.fault = Some(fault);
                Err(fault)
            }
        }
    }

    // Whether a byte is left, read ahead where need be.
    fn has_more(&mut self) -> Result<bool, Failed>
        requires { self.old.ended ≡ false }
        ensures same_reference { self.new.ahead.source.ghost_name ≡ self.old.ahead.source.ghost_name }
        ensures keeps { Keeps (unread S.left self.old.ahead) (unread S.left self.new.ahead) }
        ensures more { IfOk result (λ more. IsTrue more ↔ (self.new.ahead.start < self.new.ahead.end)) }
        ensures end { result ≡ Ok false → IsAtEnd (unread S.left self.new.ahead) }
        ensures remains { (b : List ℕ) → MayRemain S.left self.new.ahead b → MayRemain S.left self.old.ahead b }
        ensures no_more { result ≡ Ok false → MayRemain S.left self.new.ahead [] }
        ensures failed { OnErr result (unread S.left self.new.ahead ≡ S.left self.new.ahead.source.now) }
        ensures none_ahead { OnErr result (self.new.ahead.start ≡ self.new.ahead.end) }
        ensures bound { TakesAtMost (S.left self.old.ahead.source.now) (S.left self.new.ahead.source.now) (may_take self.old) (may_take self.new) }
        ensures line_limit { self.new.line_limit ≡ self.old.line_limit }
        ensures room { self.new.room ≡ self.old.room }
        ensures ended { self.new.ended ≡ self.old.ended }
        ensures fault { self.new.fault ≡ self.old.fault }
        ensures cause { HasCause (S.faults self.old.ahead.source.now) (S.faults self.new.ahead.source.now) result }
    {
        if self.ahead.start < self.ahead.end {
            return Ok(true);
        }
        self.ahead.fill((self.room as usize).saturating_add(1))
    }

    // The next line, where nothing has failed yet and the end wasn't found.
    fn read_line(&mut self) -> Result<Step, LinesFault>
        requires { self.old.ended ≡ false }
        ensures same_reference { self.new.ahead.source.ghost_name ≡ self.old.ahead.source.ghost_name }
        ensures next { IfOk result (IsNext (lines_left S.left self.old) (lines_left S.left self.new)) }
        ensures uses { IfOk result (Uses (unread S.left self.old.ahead) (unread S.left self.new.ahead) self.new.ended) }
        ensures step { IfOk result (λ s. (b : List ℕ) → MayHaveLeft S.left self.new b → StepOf S.left self.old self.new b s) }
        ensures cut { (b : List ℕ) → MayHaveLeft S.left self.new b → OnErr result (FaultOf S.left self.old b) }
        ensures ends { EndsRightly S.left self.new }
        ensures room { IfOk result (TakesRoom self.old.room self.new.room) }
        ensures over { result ≡ Ok Step.Over → IsOver self.new }
        ensures bound { TakesAtMost (S.left self.old.ahead.source.now) (S.left self.new.ahead.source.now) (may_take self.old) (may_take self.new) }
        ensures fault { self.new.fault ≡ self.old.fault }
        ensures unended { IsErrOf result LinesFault.Read → EndsUnended (unread S.left self.old.ahead) (S.left self.new.ahead.source.now) }
        ensures none_ahead { IsErrOf result LinesFault.Read → self.new.ahead.start ≡ self.new.ahead.end }
        ensures not_ended { OnErr result (self.new.ended ≡ false) }
        ensures later { S.faults self.old.ahead.source.now ≤ S.faults self.new.ahead.source.now }
        ensures read { IsErrOf result LinesFault.Read → Rose (S.faults self.old.ahead.source.now) (S.faults self.new.ahead.source.now) }
    {
        let mut line = Bytes::new(self.alloc);
        let mut count: u64 = 0;
        while self.has_more()? {
            if self.room == 0 {
                return Ok(Step::Over);
            }
            let byte = self.ahead.pop();
            self.room -= 1;
            if byte == b'\n' {
                return Ok(whole(line, count, self.line_limit));
            }
            if count < self.line_limit {
                line.push(byte)?;
            }
            count += 1;
        }
        self.ended = true;
        if count == 0 {
            return Ok(Step::End);
        }
        Ok(whole(line, count, self.line_limit))
    }
}

// A line that has ended, of which the front that fits was kept.
fn whole(line: Bytes, count: u64, limit: u64) -> Step
    ensures { result ≡ (if nat_lt limit count then Step.Long else Step.Line line) }
{
    if limit < count {
        Step::Long
    } else {
        Step::Line(line)
    }
}
