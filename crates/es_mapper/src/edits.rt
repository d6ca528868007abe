ghost use Rattle.std.specs.Prelude.{◌≡◌, OnOk};
ghost use Rattle.es_mapper.specs.Upcasts.{edited, edited_by};

use es_model::{Duplicate, Edit, Fields, NoMemory};

// One edit. What isn't there is left alone.
fn apply(edit: &Edit, fields: &mut Fields) -> Result<(), NoMemory>
    ensures { OnOk result (fields.new ≡ edited edit.now fields.old) }
{
    match edit {
        Edit::Add { name, value } => fields.put(name.copy()?, value.copy()?),
        Edit::Rename { from, to } => match fields.remove(from.as_str()) {
            Some(value) => fields.put(to.copy()?, value),
            None => Ok(()),
        },
        Edit::Drop { name } => {
            fields.remove(name.as_str());
            Ok(())
        }
    }
}

/// Applies edits in order. After an error the fields are of no more use.
pub fn upcast(edits: &[Edit], fields: &mut Fields) -> Result<(), NoMemory>
    ensures { OnOk result (fields.new ≡ edited_by edits.now fields.old) }
{
    for edit in edits {
        apply(edit, fields)?;
    }
    Ok(())
}
