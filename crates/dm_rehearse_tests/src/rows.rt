use dm_edge::SinkMem;
use dm_rehearse_run::{read_rehearsal, run_rehearsal};
use dm_types::Text;
use std::alloc::Global;
use std::test::Fail;

/// What the numbers 0 to 7 print. The sums are those of the definition's bytes, computed by a program in C. Of the counts: the
/// first attempt is cut by connection 0. The second, on connections 4 to 7, by connection 5, after 393,216 bytes and the
/// number. The third has less than 720,896 bytes to bring on each connection, and so on connection 10.
const PRINTED: &[(u32, &[u8])] = &[
    (
        0,
        b"bytes 4194304\nattempts 3\nbroke 2\nsha256 062f7038198a90607076ff166d63baf60cf33053d207b40a8670a3711e5d0906\n",
    ),
    (
        1,
        b"bytes 4194305\nattempts 3\nbroke 2\nsha256 fc502167d3386a5191d2c3fc87783525b1a96b38573d55a4a3b8ed9f7c96f9a6\n",
    ),
    (
        2,
        b"bytes 4194306\nattempts 3\nbroke 2\nsha256 31ddb3409aac94388773d08a337d104b0513388624403b6398d59954cb9e3966\n",
    ),
    (
        3,
        b"bytes 4194307\nattempts 3\nbroke 2\nsha256 7e6c2c394b9a7b3ae904f1f22720ac98c6f9f32ca99100e81d80648ee06ce148\n",
    ),
    (
        4,
        b"bytes 4194308\nattempts 3\nbroke 2\nsha256 f5d05401439117fe6fa27b6c0ea4832b89ee9b138aaa40e08dbaf27142ebd8a0\n",
    ),
    (
        5,
        b"bytes 4194309\nattempts 3\nbroke 2\nsha256 84177d3d640e4a5316df99671f45f629c0e6b222be73d6206f0ab1044ffa1d11\n",
    ),
    (
        6,
        b"bytes 4194310\nattempts 3\nbroke 2\nsha256 296f911e3131d54799a001be4588aece0919212ace742e716a2f5b2ede6b5320\n",
    ),
    (
        7,
        b"bytes 4194311\nattempts 3\nbroke 2\nsha256 85040c9d7eab85d7d7815f24356c8f6e8633fdf2b13e1c682b6e963d22f5bdd8\n",
    ),
];

/// A rehearsal with room for so many bytes on standard output: its status, and both texts.
fn rehearsed(alloc: Global, number: u32, room: u64) -> Result<(u8, Text, Text), Fail> {
    let mut out = SinkMem::new(alloc, room, &[])?;
    let mut errs = SinkMem::new(alloc, 100, &[])?;
    let status = run_rehearsal(alloc, number, &mut out, &mut errs);
    let out_text = Text::from_bytes(alloc, out.written())?;
    let errs_text = Text::from_bytes(alloc, errs.written())?;
    Ok((status, out_text, errs_text))
}

/// Whether it prints these lines alone.
fn prints(alloc: Global, number: u32, lines: &[u8]) -> Result<bool, Fail> {
    let (status, out, errs) = rehearsed(alloc, number, 1000)?;
    Ok(status == 0 && out.is(lines) && errs.is_empty())
}

#[test]
fn eight_numbers(rt: HostRuntime) -> Result<(), Fail> {
    let alloc = rt.alloc();
    for (number, lines) in PRINTED {
        assert!(rt; prints(alloc, *number, lines)?);
    }
    Ok(())
}

#[test]
fn twice_the_same(rt: HostRuntime) -> Result<(), Fail> {
    let alloc = rt.alloc();
    let (_, first, _) = rehearsed(alloc, 4_294_967_295, 1000)?;
    let (status, second, _) = rehearsed(alloc, 4_294_967_295, 1000)?;
    assert!(rt; status == 0);
    assert!(rt; first.same(&second));
    Ok(())
}

#[test]
fn no_room_on_standard_output(rt: HostRuntime) -> Result<(), Fail> {
    let (status, out, errs) = rehearsed(rt.alloc(), 0, 10)?;
    assert!(rt; status == 7);
    assert!(rt; out.is_empty());
    assert!(rt; errs.is_empty());
    Ok(())
}

fn number_of(alloc: Global, words: &[&[u8]]) -> Result<Option<u32>, Fail> {
    let mut list = Vec::new(alloc);
    for word in words {
        list.push(Text::from_bytes(alloc, word)?)?;
    }
    Ok(read_rehearsal(&list))
}

#[test]
fn words_of_a_rehearsal(rt: HostRuntime) -> Result<(), Fail> {
    let alloc = rt.alloc();
    assert!(rt; number_of(alloc, &[b"rehearse", b"7"])? == Some(7));
    assert!(rt; number_of(alloc, &[b"rehearse", b"4294967295"])? == Some(4_294_967_295));
    assert!(rt; number_of(alloc, &[b"rehearse"])?.is_none());
    assert!(rt; number_of(alloc, &[b"rehearse", b"4294967296"])?.is_none());
    assert!(rt; number_of(alloc, &[b"rehearse", b"1", b"2"])?.is_none());
    assert!(rt; number_of(alloc, &[b"rehearse", b"--slices", b"4", b"1"])?.is_none());
    assert!(rt; number_of(alloc, &[b"list"])?.is_none());
    Ok(())
}
