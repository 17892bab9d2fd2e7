// The most items that a list takes.
use crate::runs::ListRuns;
use dm_run_bench::{Played, Row, Step, play};

const LAST: Row = Row {
    words: &[b"add", b"http://h/b"],
    status: 0,
    out: b"4096 waiting 0 ? -\n",
    errs: b"",
    ..Row::NOTHING
};

const ONE_MORE: Row = Row {
    words: &[b"add", b"http://h/c"],
    status: 8,
    out: b"",
    errs: b"items full 4096\n",
    ..Row::NOTHING
};

#[test]
fn a_list_takes_4096_items(rt: HostRuntime) {
    let steps = [Step::Items(4095), Step::Runs(LAST), Step::Runs(ONE_MORE)];
    assert_eq!(rt; play(rt.alloc(), &ListRuns, None, &steps), Played::AsSaid);
}
