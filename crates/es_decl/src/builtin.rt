ghost use Rattle.std.specs.Prelude.{◌≡◌, IfOk, Ok};
ghost use Rattle.es_expr.specs.Checked.{IsCheckedSystem};
ghost use Rattle.es_decl.specs.Declaration.{declared};

use crate::document::read_system;
use es_model::{NoMemory, System};
use std::alloc::Global;

/// The document of the sample system: accounts of a bank, and statements that audit them.
pub const SAMPLE: &str =
    "{\"apps\":[{\"classes\":[\"Account\"],\"name\":\"bank\"},{\"classes\":[\"Statement\"],\"name\":\"audit\",\"policy\":[{\"args\":{},\"do\":\"Statement.Start\",\"on\":\"Account.Opened\",\"target\":{\"get\":\"id\"}},{\"args\":{\"amount\":{\"get\":\"event.amount\"}},\"do\":\"Statement.Note\",\"on\":\"Account.Deposited\",\"target\":{\"get\":\"id\"}},{\"args\":{\"amount\":{\"sub\":[{\"int\":0},{\"get\":\"event.amount\"}]}},\"do\":\"Statement.Note\",\"on\":\"Account.Withdrawn\",\"target\":{\"get\":\"id\"}},{\"args\":{},\"do\":\"Statement.Flag\",\"on\":\"Account.Withdrawn\",\"target\":{\"get\":\"id\"}}]}],\"classes\":[{\"commands\":[{\"name\":\"Open\",\"params\":{\"owner\":\"text\"},\"trigger\":[{\"event\":\"Opened\",\"fields\":{\"owner\":{\"get\":\"arg.owner\"}}}]},{\"name\":\"Deposit\",\"params\":{\"amount\":\"int\"},\"require\":[{\"code\":\"amount\",\"that\":{\"lt\":[{\"int\":0},{\"get\":\"arg.amount\"}]}}],\"trigger\":[{\"event\":\"Deposited\",\"fields\":{\"amount\":{\"get\":\"arg.amount\"}}}]},{\"name\":\"Withdraw\",\"params\":{\"amount\":\"int\"},\"require\":[{\"code\":\"amount\",\"that\":{\"lt\":[{\"int\":0},{\"get\":\"arg.amount\"}]}},{\"code\":\"funds\",\"that\":{\"le\":[{\"get\":\"arg.amount\"},{\"get\":\"self.balance\"}]}}],\"trigger\":[{\"event\":\"Withdrawn\",\"fields\":{\"amount\":{\"get\":\"arg.amount\"}}}]}],\"created\":{\"fields\":{\"owner\":\"text\"},\"name\":\"Opened\",\"set\":{\"balance\":{\"int\":0},\"owner\":{\"get\":\"event.owner\"}}},\"events\":[{\"fields\":{\"amount\":\"int\"},\"name\":\"Deposited\",\"set\":{\"balance\":{\"add\":[{\"get\":\"self.balance\"},{\"get\":\"event.amount\"}]}}},{\"fields\":{\"amount\":\"int\"},\"name\":\"Withdrawn\",\"set\":{\"balance\":{\"sub\":[{\"get\":\"self.balance\"},{\"get\":\"event.amount\"}]}}}],\"fields\":{\"balance\":\"int\",\"owner\":\"text\"},\"name\":\"Account\"},{\"commands\":[{\"name\":\"Start\",\"params\":{},\"trigger\":[{\"event\":\"Started\",\"fields\":{}}]},{\"name\":\"Note\",\"params\":{\"amount\":\"int\"},\"trigger\":[{\"event\":\"Noted\",\"fields\":{\"amount\":{\"get\":\"arg.amount\"}}}]},{\"name\":\"Flag\",\"params\":{},\"trigger\":[{\"event\":\"Flagged\",\"fields\":{}}]}],\"created\":{\"fields\":{},\"name\":\"Started\",\"set\":{\"entries\":{\"int\":0},\"flags\":{\"int\":0},\"total\":{\"int\":0}}},\"events\":[{\"fields\":{\"amount\":\"int\"},\"name\":\"Noted\",\"set\":{\"entries\":{\"add\":[{\"get\":\"self.entries\"},{\"int\":1}]},\"total\":{\"add\":[{\"get\":\"self.total\"},{\"get\":\"event.amount\"}]}}},{\"fields\":{},\"name\":\"Flagged\",\"set\":{\"flags\":{\"add\":[{\"get\":\"self.flags\"},{\"int\":1}]}}}],\"fields\":{\"entries\":\"int\",\"flags\":\"int\",\"total\":\"int\"},\"name\":\"Statement\"}],\"pipes\":[[\"bank\",\"audit\"]]}";

/// The sample system, which is what its document declares.
pub fn sample(alloc: Global) -> Result<System, NoMemory>
    ensures declared { IfOk result (λ s. declared SAMPLE.now ≡ Ok s) }
    ensures checked { IfOk result IsCheckedSystem }
{
    match read_system(alloc, SAMPLE.as_bytes()) {
        Ok(sys) => Ok(sys),
        Err(_) => Err(NoMemory),
    }
}
