ghost use Rattle.std.specs.Prelude.{◌≡◌, bytes_eq};
ghost use Rattle.dm_shown.specs.Answering as answers;

use dm_hist::Row;
use dm_report::Verdict;
use dm_types::Phase;

fn has_address(row: &Row, address: &[u8]) -> bool
    ensures { result ≡ bytes_eq row.now.address address.now }
{
    row.address.is(address)
}

/// What a command that brings an item from this address says where a row has its word: the row is complete,
/// or it was cancelled, or it has another address.
pub fn get_by_row(row: &Row, address: &[u8]) -> Verdict
    ensures { result ≡ answers.get_by_row address.now row.now }
{
    if !has_address(row, address) {
        return Verdict::OtherWord(row.id);
    }
    if row.complete {
        Verdict::Done
    } else {
        Verdict::WrongState(Phase::Cancelled)
    }
}

/// What a command that adds an item of this address says where a row has its word: nothing is added, and the
/// row is shown, or it has another address.
pub fn add_by_row(row: &Row, address: &[u8]) -> Verdict
    ensures { result ≡ answers.add_by_row address.now row.now }
{
    if has_address(row, address) {
        Verdict::Done
    } else {
        Verdict::OtherWord(row.id)
    }
}
