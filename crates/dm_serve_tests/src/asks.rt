// Requests that several tests make, and contents of replies.

/// Adds `http://h/a` under the word w1.
pub(crate) const ADD_A: &[u8] =
    b"POST /items HTTP/1.1\r\nHost: a\r\nContent-Length: 32\r\n\r\n{\"url\":\"http://h/a\",\"word\":\"w1\"}";

/// Adds `http://h/b` under the word w2.
pub(crate) const ADD_B: &[u8] =
    b"POST /items HTTP/1.1\r\nHost: a\r\nContent-Length: 32\r\n\r\n{\"url\":\"http://h/b\",\"word\":\"w2\"}";

/// Adds `http://h/b` under the word w1.
pub(crate) const ADD_OTHER: &[u8] =
    b"POST /items HTTP/1.1\r\nHost: a\r\nContent-Length: 32\r\n\r\n{\"url\":\"http://h/b\",\"word\":\"w1\"}";

pub(crate) const LIST: &[u8] = b"GET /items HTTP/1.1\r\nHost: a\r\n\r\n";

pub(crate) const SHOW_1: &[u8] = b"GET /items/1 HTTP/1.1\r\nHost: a\r\n\r\n";

pub(crate) const REMOVE_1: &[u8] = b"DELETE /items/1 HTTP/1.1\r\nHost: a\r\n\r\n";

pub(crate) const REMOVE_2: &[u8] = b"DELETE /items/2 HTTP/1.1\r\nHost: a\r\n\r\n";

pub(crate) const PAUSE_1: &[u8] = b"POST /items/1/pause HTTP/1.1\r\nHost: a\r\n\r\n";

pub(crate) const RESUME_1: &[u8] = b"POST /items/1/resume HTTP/1.1\r\nHost: a\r\n\r\n";

pub(crate) const CANCEL_1: &[u8] = b"POST /items/1/cancel HTTP/1.1\r\nHost: a\r\n\r\n";

pub(crate) const CANCEL_2: &[u8] = b"POST /items/2/cancel HTTP/1.1\r\nHost: a\r\n\r\n";

pub(crate) const ARCHIVE: &[u8] = b"POST /archive HTTP/1.1\r\nHost: a\r\n\r\n";

pub(crate) const HISTORY: &[u8] = b"GET /history HTTP/1.1\r\nHost: a\r\n\r\n";

pub(crate) const REPORT: &[u8] = b"GET /report HTTP/1.1\r\nHost: a\r\n\r\n";

pub(crate) const STOP: &[u8] = b"POST /stop HTTP/1.1\r\nHost: a\r\n\r\n";

/// The first item, as it waits.
pub(crate) const A_WAITS: &str =
    "{\"address\":\"http://h/a\",\"autos\":0,\"covered\":0,\"id\":1,\"name\":null,\"phase\":\"waiting\",\"reason\":null,\"sha256\":null,\"total\":null,\"word\":\"w1\"}";

pub(crate) const A_IS_PAUSED: &str =
    "{\"address\":\"http://h/a\",\"autos\":0,\"covered\":0,\"id\":1,\"name\":null,\"phase\":\"paused\",\"reason\":null,\"sha256\":null,\"total\":null,\"word\":\"w1\"}";

pub(crate) const A_IS_CANCELLED: &str =
    "{\"address\":\"http://h/a\",\"autos\":0,\"covered\":0,\"id\":1,\"name\":null,\"phase\":\"cancelled\",\"reason\":40,\"sha256\":null,\"total\":null,\"word\":\"w1\"}";

/// The second one.
pub(crate) const B_WAITS: &str =
    "{\"address\":\"http://h/b\",\"autos\":0,\"covered\":0,\"id\":2,\"name\":null,\"phase\":\"waiting\",\"reason\":null,\"sha256\":null,\"total\":null,\"word\":\"w2\"}";

pub(crate) const B_IS_CANCELLED: &str =
    "{\"address\":\"http://h/b\",\"autos\":0,\"covered\":0,\"id\":2,\"name\":null,\"phase\":\"cancelled\",\"reason\":40,\"sha256\":null,\"total\":null,\"word\":\"w2\"}";

/// Lists of items.
pub(crate) const NO_ITEMS: &str = "{\"items\":[]}";

pub(crate) const A_LISTED: &str =
    "{\"items\":[{\"address\":\"http://h/a\",\"autos\":0,\"covered\":0,\"id\":1,\"name\":null,\"phase\":\"waiting\",\"reason\":null,\"sha256\":null,\"total\":null,\"word\":\"w1\"}]}";

pub(crate) const PAUSED_A_LISTED: &str =
    "{\"items\":[{\"address\":\"http://h/a\",\"autos\":0,\"covered\":0,\"id\":1,\"name\":null,\"phase\":\"paused\",\"reason\":null,\"sha256\":null,\"total\":null,\"word\":\"w1\"}]}";

pub(crate) const BOTH_LISTED: &str =
    "{\"items\":[{\"address\":\"http://h/a\",\"autos\":0,\"covered\":0,\"id\":1,\"name\":null,\"phase\":\"waiting\",\"reason\":null,\"sha256\":null,\"total\":null,\"word\":\"w1\"},{\"address\":\"http://h/b\",\"autos\":0,\"covered\":0,\"id\":2,\"name\":null,\"phase\":\"waiting\",\"reason\":null,\"sha256\":null,\"total\":null,\"word\":\"w2\"}]}";

pub(crate) const BOTH_CANCELLED_LISTED: &str =
    "{\"items\":[{\"address\":\"http://h/a\",\"autos\":0,\"covered\":0,\"id\":1,\"name\":null,\"phase\":\"cancelled\",\"reason\":40,\"sha256\":null,\"total\":null,\"word\":\"w1\"},{\"address\":\"http://h/b\",\"autos\":0,\"covered\":0,\"id\":2,\"name\":null,\"phase\":\"cancelled\",\"reason\":40,\"sha256\":null,\"total\":null,\"word\":\"w2\"}]}";

pub(crate) const CANCELLED_B_LISTED: &str =
    "{\"items\":[{\"address\":\"http://h/b\",\"autos\":0,\"covered\":0,\"id\":2,\"name\":null,\"phase\":\"cancelled\",\"reason\":40,\"sha256\":null,\"total\":null,\"word\":\"w2\"}]}";

/// Rows of the history.
pub(crate) const NO_ROWS: &str = "{\"rows\":[]}";

pub(crate) const A_ROW: &str =
    "{\"address\":\"http://h/a\",\"at\":0,\"id\":1,\"name\":null,\"phase\":\"cancelled\",\"sha256\":null,\"total\":null,\"word\":\"w1\"}";

pub(crate) const A_IN_HISTORY: &str =
    "{\"rows\":[{\"address\":\"http://h/a\",\"at\":0,\"id\":1,\"name\":null,\"phase\":\"cancelled\",\"sha256\":null,\"total\":null,\"word\":\"w1\"}]}";

pub(crate) const B_IN_HISTORY: &str =
    "{\"rows\":[{\"address\":\"http://h/b\",\"at\":0,\"id\":2,\"name\":null,\"phase\":\"cancelled\",\"sha256\":null,\"total\":null,\"word\":\"w2\"}]}";

pub(crate) const BOTH_IN_HISTORY: &str =
    "{\"rows\":[{\"address\":\"http://h/a\",\"at\":0,\"id\":1,\"name\":null,\"phase\":\"cancelled\",\"sha256\":null,\"total\":null,\"word\":\"w1\"},{\"address\":\"http://h/b\",\"at\":0,\"id\":2,\"name\":null,\"phase\":\"cancelled\",\"sha256\":null,\"total\":null,\"word\":\"w2\"}]}";

/// Refusals.
pub(crate) const NO_ITEM: &str = "{\"error\":\"item\"}";

pub(crate) const DISK_FAILED: &str = "{\"error\":\"disk\"}";

pub(crate) const IS_BROKEN: &str = "{\"error\":\"broken\"}";

pub(crate) const HISTORY_FAILED: &str = "{\"error\":\"history\"}";

pub(crate) const STOPPING: &str = "{\"stopping\":true}";
