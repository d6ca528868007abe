use es_model::Notifications;
use thiserror::Error;

/// A part of an application's notification log.
#[derive(Debug, Drop)]
pub struct Section {
    /// The ids of its first and its last notification, if it has any.
    pub id: Option<(u64, u64)>,
    pub items: Notifications,
    /// The first and the last id to ask for next, if it has as many notifications as it may.
    pub next: Option<(u64, u64)>,
}

/// Why there is no section.
#[derive(Clone, Copy, Debug, PartialEq, Eq, Error)]
pub enum SectionFault {
    /// The text isn't two numbers with a comma between them.
    #[error("this asks for no section")]
    BadRequest,
    #[error("the recorder failed")]
    Failed,
    #[error("out of memory")]
    NoMemory,
}
