//! A bank with accounts, and a ledger that follows it by three rules.
ghost use Rattle.std.specs.Prelude.{IfOk};
ghost use Rattle.es_expr.specs.Checked.{IsCheckedSystem};

use es_decl::read_system;
use es_domain::Aggregate;
use es_model::{Atom, DomainEvent, DomainEvents, Fields, Moment, NoMemory, System, Text, Value};
use std::alloc::Global;
use uuid::Uuid;

// The id of the account.
pub(crate) const ID: u128 = 7;

// The ledger deposits what the bank's accounts were paid in, once more where it is above 1000, and withdraws it.
const LEDGER: &str =
    "{\"classes\":[{\"name\":\"Account\",\"fields\":{\"balance\":\"int\"},\"created\":{\"name\":\"Opened\",\"fields\":{\"amount\":\"int\"},\"set\":{\"balance\":{\"get\":\"event.amount\"}}},\"events\":[{\"name\":\"Deposited\",\"fields\":{\"amount\":\"int\"},\"set\":{\"balance\":{\"add\":[{\"get\":\"self.balance\"},{\"get\":\"event.amount\"}]}}},{\"name\":\"Withdrawn\",\"fields\":{\"amount\":\"int\"},\"set\":{\"balance\":{\"sub\":[{\"get\":\"self.balance\"},{\"get\":\"event.amount\"}]}}}],\"commands\":[{\"name\":\"Deposit\",\"params\":{\"amount\":\"int\"},\"require\":[{\"that\":{\"lt\":[{\"int\":0},{\"get\":\"arg.amount\"}]},\"code\":\"amount\"}],\"trigger\":[{\"event\":\"Deposited\",\"fields\":{\"amount\":{\"get\":\"arg.amount\"}}}]},{\"name\":\"Withdraw\",\"params\":{\"amount\":\"int\"},\"require\":[{\"that\":{\"le\":[{\"get\":\"arg.amount\"},{\"get\":\"self.balance\"}]},\"code\":\"funds\"}],\"trigger\":[{\"event\":\"Withdrawn\",\"fields\":{\"amount\":{\"get\":\"arg.amount\"}}}]}]}],\"apps\":[{\"name\":\"bank\",\"classes\":[\"Account\"]},{\"name\":\"ledger\",\"classes\":[\"Account\"],\"policy\":[{\"on\":\"Account.Deposited\",\"target\":{\"get\":\"id\"},\"do\":\"Account.Deposit\",\"args\":{\"amount\":{\"get\":\"event.amount\"}}},{\"when\":{\"lt\":[{\"int\":1000},{\"get\":\"event.amount\"}]},\"on\":\"Account.Deposited\",\"target\":{\"get\":\"id\"},\"do\":\"Account.Deposit\",\"args\":{\"amount\":{\"get\":\"event.amount\"}}},{\"on\":\"Account.Deposited\",\"target\":{\"get\":\"id\"},\"do\":\"Account.Withdraw\",\"args\":{\"amount\":{\"get\":\"event.amount\"}}}]}],\"pipes\":[[\"bank\",\"ledger\"]]}";

pub(crate) fn text(alloc: Global, text: &str) -> Result<Text, NoMemory> {
    Text::from_str(alloc, text)
}

pub(crate) fn system(alloc: Global) -> anyhow::Result<System>
    ensures { IfOk result IsCheckedSystem }
{
    match read_system(alloc, LEDGER.as_bytes()) {
        Ok(sys) => Ok(sys),
        Err(_) => Err(anyhow::anyhow!("no system")),
    }
}

fn fields(alloc: Global, name: &str, number: i64) -> Result<Fields, NoMemory> {
    let mut fields = Fields::new(alloc);
    fields.put(text(alloc, name)?, Value::One(Atom::Int(number)))?;
    Ok(fields)
}

// An account with a balance of 1000, at version 3.
pub(crate) fn account(alloc: Global) -> Result<Aggregate, NoMemory> {
    let class = text(alloc, "Account")?;
    let fields = fields(alloc, "balance", 1000)?;
    Ok(Aggregate {
        id: Uuid::from_u128(ID),
        version: 3,
        class,
        created_on: Moment::nearest(1),
        modified_on: Moment::nearest(2),
        fields,
        pending: DomainEvents::new(alloc),
    })
}

// A deposit of 5 in the account of the bank.
pub(crate) fn deposit(alloc: Global) -> Result<DomainEvent, NoMemory> {
    let topic = text(alloc, "Account.Deposited")?;
    let fields = fields(alloc, "amount", 5)?;
    Ok(DomainEvent {
        originator_id: Uuid::from_u128(ID),
        originator_version: 2,
        timestamp: Moment::nearest(7),
        topic,
        fields,
    })
}
