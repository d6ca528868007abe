//! The world: all histories, and who is down.
ghost use Rattle.std.specs.Prelude.{◌≡◌, map};
ghost use Rattle.es_expr.specs.Checked.{IsCheckedSystem};
ghost use Rattle.es_process.specs.SystemRules.{app_names};
ghost use Rattle.es_world.specs.Told.{AreFormed};

use crate::AppHistory;
use es_model::{System, Text};

/// The histories of all applications, and which of them are down.
#[derive(Drop)]
pub struct World {
    pub(crate) sys: System,
    pub(crate) histories: Vec<AppHistory>,
    // Their names. The last recording of each is in doubt.
    pub(crate) down: Vec<Text>,
    ghost checked: { IsCheckedSystem sys },
    ghost formed: { AreFormed histories.items },
    ghost named: { map (λ a. a.app) histories.items ≡ app_names sys },
}
