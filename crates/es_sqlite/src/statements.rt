//! The texts of all statements. Each is fixed, and takes what varies by its parameters.

/// The tables of a store that is empty. Any number of commands may stand beside each other without
/// a leader, so the key of leader and position isn't unique.
pub(crate) const TABLES: &str = "CREATE TABLE layout (version INTEGER PRIMARY KEY) STRICT;
CREATE TABLE recordings (number INTEGER PRIMARY KEY, moment INTEGER NOT NULL, command BLOB, leader TEXT, position INTEGER) STRICT;
CREATE INDEX recordings_by_cause ON recordings (leader, position);
CREATE TABLE stored_events (notification INTEGER PRIMARY KEY, recording INTEGER NOT NULL, originator_id BLOB NOT NULL, originator_version INTEGER NOT NULL, topic TEXT NOT NULL, state BLOB NOT NULL, UNIQUE (originator_id, originator_version)) STRICT;
CREATE TABLE tracking (leader TEXT PRIMARY KEY, position INTEGER NOT NULL) STRICT;
CREATE TABLE snapshots (number INTEGER PRIMARY KEY, originator_id BLOB NOT NULL, originator_version INTEGER NOT NULL, topic TEXT NOT NULL, class_version INTEGER NOT NULL, created_on INTEGER NOT NULL, modified_on INTEGER NOT NULL, state BLOB NOT NULL, UNIQUE (originator_id, originator_version)) STRICT;
INSERT INTO layout (version) VALUES (1);";

/// The rows of the layout, one more than there may be.
pub(crate) const LAYOUT: &str = "SELECT version FROM layout LIMIT 2";

/// The greatest number of a recording, a notification and a snapshot, each null where there is none.
pub(crate) const GREATEST: &str =
    "SELECT (SELECT number FROM recordings ORDER BY number DESC LIMIT 1), (SELECT notification FROM stored_events ORDER BY notification DESC LIMIT 1), (SELECT number FROM snapshots ORDER BY number DESC LIMIT 1)";

pub(crate) const INSERT_RECORDING: &str =
    "INSERT INTO recordings (number, moment, command, leader, position) VALUES (?1, ?2, ?3, ?4, ?5)";

pub(crate) const INSERT_EVENT: &str =
    "INSERT INTO stored_events (notification, recording, originator_id, originator_version, topic, state) VALUES (?1, ?2, ?3, ?4, ?5, ?6)";

pub(crate) const INSERT_TRACKING: &str = "INSERT INTO tracking (leader, position) VALUES (?1, ?2)";

pub(crate) const UPDATE_TRACKING: &str = "UPDATE tracking SET position = ?2 WHERE leader = ?1";

pub(crate) const DELETE_SNAPSHOT: &str =
    "DELETE FROM snapshots WHERE originator_id = ?1 AND originator_version = ?2";

pub(crate) const INSERT_SNAPSHOT: &str =
    "INSERT INTO snapshots (number, originator_id, originator_version, topic, class_version, created_on, modified_on, state) VALUES (?1, ?2, ?3, ?4, ?5, ?6, ?7, ?8)";

/// Events of an originator with versions above one and up to another, by rising versions.
pub(crate) const RISING_EVENTS: &str =
    "SELECT notification, originator_id, originator_version, topic, state FROM stored_events WHERE originator_id = ?1 AND originator_version > ?2 AND originator_version <= ?3 ORDER BY originator_version LIMIT ?4";

/// The same by falling versions.
pub(crate) const FALLING_EVENTS: &str =
    "SELECT notification, originator_id, originator_version, topic, state FROM stored_events WHERE originator_id = ?1 AND originator_version > ?2 AND originator_version <= ?3 ORDER BY originator_version DESC LIMIT ?4";

/// Events from a notification on.
pub(crate) const NOTIFICATIONS: &str =
    "SELECT notification, originator_id, originator_version, topic, state FROM stored_events WHERE notification >= ?1 ORDER BY notification LIMIT ?2";

pub(crate) const TRACKING: &str = "SELECT position FROM tracking WHERE leader = ?1";

/// The recording that a leader's notification caused.
pub(crate) const CAUSED: &str =
    "SELECT number FROM recordings WHERE leader = ?1 AND position = ?2 LIMIT 1";

/// The snapshot of an originator with the greatest version up to one.
pub(crate) const NEWEST_SNAPSHOT: &str =
    "SELECT originator_id, originator_version, topic, class_version, created_on, modified_on, state FROM snapshots WHERE originator_id = ?1 AND originator_version <= ?2 ORDER BY originator_version DESC LIMIT 1";

/// The snapshot after so many others.
pub(crate) const NEXT_SNAPSHOT: &str =
    "SELECT originator_id, originator_version, topic, class_version, created_on, modified_on, state FROM snapshots ORDER BY number LIMIT 1 OFFSET ?1";

/// All of them but those that make the tables. Each is compiled over a store's tables when the
/// store is opened, so a table or a column that is missing shows at once.
pub(crate) const STATEMENTS: [&str; 15] = [
    LAYOUT,
    GREATEST,
    INSERT_RECORDING,
    INSERT_EVENT,
    INSERT_TRACKING,
    UPDATE_TRACKING,
    DELETE_SNAPSHOT,
    INSERT_SNAPSHOT,
    RISING_EVENTS,
    FALLING_EVENTS,
    NOTIFICATIONS,
    TRACKING,
    CAUSED,
    NEWEST_SNAPSHOT,
    NEXT_SNAPSHOT,
];
