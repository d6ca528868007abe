ghost use Rattle.es_decl.specs.Names.{name_test};
ghost use Rattle.es_decl.specs.Readings.{Reads};

use crate::DeclFault;
use crate::fault::here;
use es_model::Code;
use es_model::names::{NameForm, has_name_length, is_spelled};
use std::alloc::Global;

/// Finds what is wrong with a name.
pub(crate) fn test_name(alloc: Global, form: NameForm, name: &str) -> Result<(), DeclFault>
    ensures { Reads (name_test form name.now) result }
{
    if !has_name_length(name) {
        return here(alloc, Code::Limit);
    }
    if !is_spelled(form, name) {
        return here(alloc, Code::Name);
    }
    Ok(())
}
