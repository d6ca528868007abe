ghost use Rattle.std.specs.Prelude.{◌≡◌, IfOk, option_map};
ghost use Rattle.serde_json.specs.View.{view};
ghost use Rattle.es_expr.specs.Checked.{IsCheckedSystem};
ghost use Rattle.es_decl.specs.Readings.{Reads};
ghost use Rattle.es_decl.specs.Declaration as spec;

use crate::DeclFault;
use crate::apps::AppObject;
use crate::classes::ClassObject;
use crate::fault::here;
use crate::objects::{Object, test_shape};
use crate::parts::{Several, member};
use es_expr::first_misfit;
use es_model::limits::{LEAST_MEMBERS, MOST_APPS, MOST_DOCUMENT_BYTES, MOST_MEMBERS, MOST_PIPES};
use es_model::names::NameForm;
use es_model::{Code, System};
use es_transcode::read_tree;
use serde_json::Value;
use std::alloc::Global;

fn document(alloc: Global, tree: &Value) -> Result<System, DeclFault>
    ensures { Reads (spec.document (view tree.now)) result }
{
    let classes = Several {
        least: 0,
        most: None,
        part: ClassObject,
    };
    let apps = Several {
        least: 1,
        most: Some(MOST_APPS),
        part: AppObject,
    };
    let pipes = Several {
        least: 0,
        most: Some(MOST_PIPES),
        part: Several {
            least: LEAST_MEMBERS,
            most: Some(MOST_MEMBERS),
            part: NameForm::Plain,
        },
    };
    test_shape(alloc, Object::Document, tree)?;
    let classes = member(alloc, tree, "classes", &classes)?;
    let apps = member(alloc, tree, "apps", &apps)?;
    let pipes = member(alloc, tree, "pipes", &pipes)?;
    Ok(System {
        apps,
        classes,
        pipes,
    })
}

// The system, where all of it fits together.
fn fitting(alloc: Global, sys: System) -> Result<System, DeclFault>
    ensures { Reads (spec.fitting sys) result }
{
    match first_misfit(alloc, &sys)? {
        Some(misfit) => Err(DeclFault::At {
            code: misfit.code,
            path: misfit.path,
        }),
        None => Ok(sys),
    }
}

fn system_of(alloc: Global, tree: &Value) -> Result<System, DeclFault>
    ensures { Reads (spec.system_of (view tree.now)) result }
{
    let sys = document(alloc, tree)?;
    fitting(alloc, sys)
}

fn of_tree(alloc: Global, tree: &Option<Value>) -> Result<System, DeclFault>
    ensures { Reads (spec.of_tree (option_map view tree.now)) result }
{
    match tree {
        Some(tree) => system_of(alloc, tree),
        None => here(alloc, Code::Json),
    }
}

fn declared(alloc: Global, bytes: &[u8]) -> Result<System, DeclFault>
    ensures { Reads (spec.declared bytes.now) result }
{
    if bytes.len() > MOST_DOCUMENT_BYTES {
        return here(alloc, Code::Long);
    }
    let tree = read_tree(alloc, bytes)?;
    of_tree(alloc, &tree)
}

/// The system that a document declares, or its first fault.
pub fn read_system(alloc: Global, bytes: &[u8]) -> Result<System, DeclFault>
    ensures declared { Reads (spec.declared bytes.now) result }
    ensures checked { IfOk result IsCheckedSystem }
{
    declared(alloc, bytes)
}
