// The commands of the list through the top call, one run after another on one disk.
use crate::runs::WordRuns;
use dm_run_bench::{Outside, Played, Row, Step, Told, play};

const LINE: &[u8] = b"1 waiting 0 ? -\n";

/// Adds an item to an empty list, and finds it there the next time.
const ADD: Row = Row {
    words: &[b"add", b"--word", b"w1", b"http://h/a"],
    out: LINE,
    ..Row::NOTHING
};

const LIST: Row = Row {
    words: &[b"list"],
    out: LINE,
    ..Row::NOTHING
};

/// With room for 5 bytes a front of the line is written.
const CUT_OFF: Row = Row {
    outside: Outside {
        room: 5,
        ..Outside::SOUND
    },
    told: Told::Front,
    status: 7,
    ..LIST
};

const SHOW: Row = Row {
    words: &[b"show", b"1"],
    out: b"id 1\nstate waiting\nword w1\naddress http://h/a\nlast -\nname -\ncovered 0\ntotal -\nepoch 1\nattempts 0\nautomatic 0\nmodified -\nsha256 -\n",
    ..Row::NOTHING
};

/// What commands come to where one item stands.
const COMMANDS: &[Row] = &[
    ADD,
    LIST,
    CUT_OFF,
    SHOW,
    Row {
        words: &[b"add", b"http://h/b"],
        out: b"2 waiting 0 ? -\n",
        ..Row::NOTHING
    },
    Row {
        words: &[b"add", b"--word", b"w1", b"http://h/b"],
        status: 10,
        errs: b"word of item 1\n",
        ..Row::NOTHING
    },
    Row {
        words: &[b"pause", b"1"],
        out: b"1 paused 0 ? -\n",
        ..Row::NOTHING
    },
    Row {
        words: &[b"cancel", b"1"],
        out: b"1 cancelled 0 ? -\n",
        ..Row::NOTHING
    },
    Row {
        words: &[b"remove", b"1"],
        ..Row::NOTHING
    },
    Row {
        words: &[b"show", b"5"],
        status: 3,
        errs: b"no item 5\n",
        ..Row::NOTHING
    },
    Row {
        words: &[b"pause", b"5"],
        status: 3,
        errs: b"no item 5\n",
        ..Row::NOTHING
    },
    Row {
        words: &[b"add", b"ftp://x/a"],
        status: 2,
        errs: b"bad address\n",
        ..Row::NOTHING
    },
    Row {
        words: &[b"list", b"x"],
        status: 2,
        errs: b"bad words\n",
        ..Row::NOTHING
    },
];

#[test]
fn each_command_of_the_list_ends_as_it_should(rt: HostRuntime) {
    for (place, row) in COMMANDS.iter().enumerate() {
        let steps = [Step::Runs(ADD), Step::Runs(*row)];
        let played = play(rt.alloc(), &WordRuns, None, &steps);
        assert_eq!(rt; played, Played::AsSaid, "in {place}");
    }
}

/// Words that are no command, or one for an address that is none.
const REFUSED: &[(&[&[u8]], &[u8])] = &[
    (&[], b"bad words\n"),
    (&[b"get"], b"bad words\n"),
    (&[b"get", b"--slices", b"17", b"http://h/a"], b"bad words\n"),
    (&[b"get", b"--slices", b"0", b"http://h/a"], b"bad words\n"),
    (&[b"add", b"--slices", b"1", b"http://h/a"], b"bad words\n"),
    (&[b"resume"], b"bad words\n"),
    (&[b"resume", b"--slices", b"x", b"1"], b"bad words\n"),
    (&[b"pause"], b"bad words\n"),
    (&[b"cancel", b"x"], b"bad words\n"),
    (&[b"remove", b"1", b"2"], b"bad words\n"),
    (&[b"get", b"ftp://x/a"], b"bad address\n"),
    (&[b"get", b"--name", b"a", b"http://u@h/"], b"bad address\n"),
];

#[test]
fn refused_words_do_nothing(rt: HostRuntime) {
    for (place, (words, errs)) in REFUSED.iter().enumerate() {
        let row = Row {
            words: *words,
            status: 2,
            errs: *errs,
            ..Row::NOTHING
        };
        let played = play(rt.alloc(), &WordRuns, None, &[Step::Runs(row)]);
        assert_eq!(rt; played, Played::AsSaid, "in {place}");
    }
}
