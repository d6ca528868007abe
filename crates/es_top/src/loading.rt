ghost use Rattle.std.specs.Prelude.{◌≤◌, ◌<◌, ◌+◌, IfOk, IsErrOf, length};
ghost use Rattle.es_model.specs.Causes.{CallHasCause, Rose};
ghost use Rattle.es_expr.specs.Checked.{IsCheckedSystem};
ghost use Rattle.es_io.specs.Next.{TakesAtMost};
ghost use Rattle.es_decl.specs.Declaration.{declared as declared_by};
ghost use Rattle.es_decl.specs.declared.builtin.TheConstants.{SAMPLE};
ghost use Rattle.es_top.specs.Loads.{Gives, IsDocument, IsRead, Loads, ReadsOn, TakesDocument};

use es_decl::{DeclFault, read_system, sample};
use es_io::{Document, Source};
use es_model::limits::MOST_DOCUMENT_BYTES;
use es_model::{Bytes, CallFault, Code, NoMemory, System, Text};
use std::alloc::Global;

/// The most bytes that are read at once.
const PIECE: usize = 8192;

/// Why there is no system.
#[derive(Debug, Drop)]
pub enum LoadFault {
    /// The document is no declaration, for this reason and at this place.
    Declaration { code: Code, path: Text },
    /// It couldn't be begun or read.
    Failed,
    NoMemory,
}

// The system that some bytes declare.
fn declared(alloc: Global, bytes: &[u8]) -> Result<System, LoadFault>
    ensures gives { Gives (declared_by bytes.now) result }
    ensures checked { IfOk result IsCheckedSystem }
{
    match read_system(alloc, bytes) {
        Ok(sys) => Ok(sys),
        Err(DeclFault::At { code, path }) => Err(LoadFault::Declaration { code, path }),
        Err(DeclFault::NoMemory) => Err(LoadFault::NoMemory),
    }
}

// The system that is built in.
fn built_in(alloc: Global) -> Result<System, LoadFault>
    ensures gives { Gives (declared_by SAMPLE.now) result }
    ensures checked { IfOk result IsCheckedSystem }
{
    match sample(alloc) {
        Ok(sys) => Ok(sys),
        Err(NoMemory) => Err(LoadFault::NoMemory),
    }
}

// Reads a piece of at most so many bytes behind those that were read, and says how many it has.
fn read_piece<S: Source>(
    source: &mut S,
    piece: &mut [u8],
    most: usize,
    bytes: &mut Bytes,
) -> Result<usize, CallFault>
    requires some { 0 < most }
    requires room { 0 < length piece.old }
    ensures few { IfOk result (λ count. count ≤ most) }
    ensures reads { IfOk result (ReadsOn (S.left source.old) (S.left source.new) bytes.old bytes.new) }
    ensures bound { TakesAtMost (S.left source.old) (S.left source.new) most 0 }
    ensures cause { CallHasCause (S.faults source.old) (S.faults source.new) result }
{
    let room = piece.len().min(most);
    let Ok(count) = source.read(&mut piece[..room]) else {
        return Err(CallFault::Failed);
    };
    match bytes.extend(&piece[..count]) {
        Ok(()) => Ok(count),
        Err(NoMemory) => Err(CallFault::NoMemory),
    }
}

// Reads what a source has left, up to the first byte that is too many.
fn read_rest<S: Source>(alloc: Global, source: &mut S) -> Result<Bytes, CallFault>
    ensures reads { IfOk result (IsRead (S.left source.old) (S.left source.new)) }
    ensures bound { TakesAtMost (S.left source.old) (S.left source.new) (MOST_DOCUMENT_BYTES + 1) 0 }
    ensures later { S.faults source.old ≤ S.faults source.new }
    ensures failed { IsErrOf result CallFault.Failed → Rose (S.faults source.old) (S.faults source.new) }
{
    let Ok(mut piece) = vec![in alloc; 0; PIECE] else {
        return Err(CallFault::NoMemory);
    };
    let mut bytes = Bytes::new(alloc);
    let mut room = MOST_DOCUMENT_BYTES + 1;
    while room > 0 {
        let count = read_piece(source, piece.as_mut_slice(), room, &mut bytes)?;
        if count == 0 {
            return Ok(bytes);
        }
        room -= count;
    }
    Ok(bytes)
}

// Reads a document, up to the first byte that is too many.
fn read_document<D: Document>(
    alloc: Global,
    system: &mut D,
    name: &Text,
) -> Result<Bytes, CallFault>
    ensures read { IfOk result (IsDocument (D.documents system.old) name.now) }
    ensures bound { TakesDocument (D.documents system.old) name.now (D.left system.old) (D.left system.new) }
    ensures cause { CallHasCause (D.faults system.old) (D.faults system.new) result }
{
    match system.begin(name) {
        Ok(()) => read_rest(alloc, system),
        Err(fault) => Err(fault),
    }
}

/// The system of a name: `sample` is built in, and any other name is that of a document.
pub fn load<D: Document>(alloc: Global, system: &mut D, name: &str) -> Result<System, LoadFault>
    ensures loads { Loads (D.documents system.old) name.now result }
    ensures checked { IfOk result IsCheckedSystem }

    // Of the document no more than one byte past its limit is taken.
    ensures bound { TakesDocument (D.documents system.old) name.now (D.left system.old) (D.left system.new) }
    ensures later { D.faults system.old ≤ D.faults system.new }
    ensures failed { IsErrOf result LoadFault.Failed → Rose (D.faults system.old) (D.faults system.new) }
{
    if name == "sample" {
        return built_in(alloc);
    }
    let Ok(title) = Text::from_str(alloc, name) else {
        return Err(LoadFault::NoMemory);
    };
    match read_document(alloc, system, &title) {
        Ok(bytes) => declared(alloc, bytes.as_slice()),
        Err(CallFault::Failed) => Err(LoadFault::Failed),
        Err(CallFault::NoMemory) => Err(LoadFault::NoMemory),
    }
}
