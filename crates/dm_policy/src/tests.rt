use crate::*;
use dm_types::{Attempt, DiskKind, Mode, Reason};
use std::test::Fail;

/// The facts of an item that can go on from where it stopped, by itself.
fn ready() -> ModeFacts {
    ModeFacts {
        strong: true,
        total: true,
        covered: true,
        autos: 0,
        attempt: Attempt(1),
        paused: false,
    }
}

#[test]
fn each_cause_has_its_reason(rt: HostRuntime) -> Result<(), Fail> {
    let causes = [
        (Cause::File(DiskKind::Failed), 1),
        (Cause::File(DiskKind::Denied), 2),
        (Cause::File(DiskKind::NoSpace), 3),
        (Cause::File(DiskKind::NameTooLong), 5),
        (Cause::NamesTaken, 1),
        (Cause::BothStand, 1),
        (Cause::TooLarge(1_099_511_627_777), 6),
        (Cause::PartShort { have: 3, wanted: 5 }, 13),
        (
            Cause::DigestDiffers {
                have: [0; 32],
                wanted: [1; 32],
            },
            14,
        ),
        (Cause::NetFailed, 20),
        (Cause::HeadCut, 20),
        (Cause::NetTimeout, 21),
        (Cause::NetNoRoute, 22),
        (Cause::NetRefused, 23),
        (Cause::BadLocation, 24),
        (Cause::TooManyRedirects, 24),
        (Cause::BadHead, 33),
        (Cause::Encoded, 33),
        (Cause::BadFraming, 33),
        (Cause::RangeRefused(206), 31),
        (
            Cause::ContentShort {
                have: 5,
                wanted: Some(11),
            },
            38,
        ),
        (Cause::Cancel, 40),
        (Cause::Shutdown, 41),
        (Cause::Crash, 50),
        (Cause::Memory, 60),
    ];
    for (cause, code) in causes {
        assert_eq!(rt; reason_of(&cause).code(), code);
    }
    Ok(())
}

#[test]
fn each_status_has_its_reason(rt: HostRuntime) -> Result<(), Fail> {
    let statuses = [
        (100, 30),
        (101, 30),
        (102, 30),
        (199, 30),
        (200, 30),
        (201, 33),
        (206, 33),
        (299, 33),
        (300, 30),
        (301, 30),
        (304, 30),
        (308, 30),
        (400, 30),
        (401, 34),
        (402, 30),
        (403, 36),
        (404, 33),
        (405, 30),
        (407, 34),
        (410, 33),
        (416, 31),
        (500, 30),
        (503, 30),
        (999, 30),
    ];
    for (status, code) in statuses {
        assert_eq!(rt; reason_of(&Cause::Status(status)).code(), code);
    }
    Ok(())
}

#[test]
fn each_reason_has_its_mode(rt: HostRuntime) -> Result<(), Fail> {
    let rows = [
        (Mode::ImmediateContinue, [21, 38].as_slice()),
        (Mode::ImmediateRestart, [31, 13, 14].as_slice()),
        (Mode::UserContinue, [20, 22, 23, 30, 41, 50, 60].as_slice()),
        (Mode::UserRestart, [1, 2, 3, 5, 6].as_slice()),
        (Mode::Invalid, [24, 33, 34, 36, 40].as_slice()),
    ];
    for (mode, codes) in rows {
        for code in codes {
            assert_eq!(rt; mode_of(Reason::from_code(*code), ready()), mode);
        }
    }
    assert_eq!(rt; mode_of(None, ready()), Mode::UserContinue);
    Ok(())
}

#[test]
fn the_facts_change_the_mode(rt: HostRuntime) -> Result<(), Fail> {
    let mut facts = [ready(); 8];
    facts[0].strong = false;
    facts[1].total = false;
    facts[2].covered = false;
    facts[3].autos = 4;
    facts[4].autos = 5;
    facts[5].paused = true;
    facts[6].attempt = Attempt(4_294_967_294);
    facts[7].attempt = Attempt(4_294_967_295);
    let modes = [
        (Mode::ImmediateRestart, Mode::UserRestart, Some(2)),
        (Mode::ImmediateRestart, Mode::UserRestart, Some(3)),
        (Mode::ImmediateRestart, Mode::UserRestart, Some(4)),
        (Mode::ImmediateContinue, Mode::UserContinue, None),
        (Mode::UserContinue, Mode::UserContinue, None),
        (Mode::UserContinue, Mode::UserContinue, None),
        (Mode::ImmediateContinue, Mode::UserContinue, None),
        (Mode::Invalid, Mode::Invalid, None),
    ];
    for (facts, (short, none, because)) in facts.into_iter().zip(modes) {
        let reason = Some(Reason::ServerContentLengthMismatch);
        assert_eq!(rt; mode_of(reason, facts), short);
        assert_eq!(rt; mode_of(None, facts), none);
        assert_eq!(rt; because_of(reason, facts), because);
        assert_eq!(rt; because_of(Some(Reason::ServerNoRange), facts), Some(1));
        assert_eq!(rt; mode_of(Some(Reason::UserCanceled), facts), Mode::Invalid);
    }
    Ok(())
}
