//! The table and the five statements.

/// The table, made where it is missing.
pub(crate) const TABLE: &str =
    "CREATE TABLE IF NOT EXISTS history (id INTEGER PRIMARY KEY, word BLOB NOT NULL, address BLOB NOT NULL, name BLOB NOT NULL, complete INTEGER NOT NULL, total INTEGER, digest BLOB, at BLOB NOT NULL) STRICT";

/// Keeps a row, in place of the one of the same id.
pub(crate) const PUT: &str =
    "INSERT INTO history (id, word, address, name, complete, total, digest, at) VALUES (?1, ?2, ?3, ?4, ?5, ?6, ?7, ?8) ON CONFLICT (id) DO UPDATE SET word = excluded.word, address = excluded.address, name = excluded.name, complete = excluded.complete, total = excluded.total, digest = excluded.digest, at = excluded.at";

/// The row of an id.
pub(crate) const FIND: &str =
    "SELECT id, word, address, name, complete, total, digest, at FROM history WHERE id = ?1";

/// The rows of a word by rising id, of which the first is taken.
pub(crate) const FIND_WORD: &str =
    "SELECT id, word, address, name, complete, total, digest, at FROM history WHERE word = ?1 ORDER BY id";

/// The rows above an id by rising id.
pub(crate) const PAGE: &str =
    "SELECT id, word, address, name, complete, total, digest, at FROM history WHERE id > ?1 ORDER BY id";

/// Drops the row of an id.
pub(crate) const DROP: &str = "DELETE FROM history WHERE id = ?1";
