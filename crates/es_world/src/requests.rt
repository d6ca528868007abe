//! What the text of a command asks of an application.
ghost use Rattle.std.specs.Prelude.{◌≡◌, ◌&&◌, IfOk};
ghost use Rattle.std.specs.Str.{bytes_eq};
ghost use Rattle.es_model.specs.declared.declaration.System.{System as SystemOf};
ghost use Rattle.es_lines.specs.CommandText.{command_text as text_of};
ghost use Rattle.es_lines.specs.Requests.{asks, request_in, IsOfSystem};
ghost use Rattle.es_world.specs.inner.Left.{IsAskedIn, IsChosen};

use es_domain::Command;
use es_lines::{LineFault, Request, command_text, read_line};
use es_model::{NoMemory, System, Text};
use std::alloc::Global;

// The command that was read, where it is asked of this application and this is its canonical text.
fn canonical(
    alloc: Global,
    app: &Text,
    text: &[u8],
    name: &Text,
    command: Command,
) -> Result<Option<Command>, NoMemory>
    ensures { IfOk result (IsChosen (bytes_eq name.now app.now && bytes_eq (text_of name.now command) text.now) command) }
{
    let written = command_text(alloc, name, &command)?;
    if name.as_str() == app.as_str() && written.as_slice() == text {
        Ok(Some(command))
    } else {
        Ok(None)
    }
}

// The command of an application that a request asks.
fn chosen(
    alloc: Global,
    app: &Text,
    text: &[u8],
    request: Request,
) -> Result<Option<Command>, NoMemory>
    ensures { (sys : SystemOf) → request_in sys text.now ≡ asks request → IsOfSystem sys request → IfOk result (IsAskedIn sys app.now text.now) }
{
    match request {
        Request::Do { app: name, command } => canonical(alloc, app, text, &name, command),
        _ => Ok(None),
    }
}

/// The command of an application that a text asks, if it asks one.
pub(crate) fn asked_command(
    alloc: Global,
    sys: &System,
    app: &Text,
    text: &[u8],
) -> Result<Option<Command>, NoMemory>
    ensures { IfOk result (IsAskedIn sys.now app.now text.now) }
{
    match read_line(alloc, sys, text) {
        Ok(request) => chosen(alloc, app, text, request),
        Err(LineFault::NoMemory) => Err(NoMemory),
        Err(_) => Ok(None),
    }
}
