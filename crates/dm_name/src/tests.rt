use crate::*;
use dm_disk_model::NameList;
use dm_disposition::disposition_of;
use dm_types::{Address, Text};
use std::alloc::Global;
use std::process::Abort;
use std::test::Fail;

fn address(alloc: Global, target: &[u8]) -> Result<Address, Fail> {
    Ok(Address {
        text: Text::from_bytes(alloc, b"http://files.example/")?,
        host: Text::from_bytes(alloc, b"files.example")?,
        port: 80,
        target: Text::from_bytes(alloc, target)?,
    })
}

/// Checks the name that a handed name gives.
fn check_handed(rt: &(impl Abort + AllocGlobal), handed: &[u8], name: &[u8]) -> Result<(), Fail> {
    let from = address(rt.alloc(), b"/a/hello.txt")?;
    let wish = wish_name(rt.alloc(), handed, None, &from)?;
    assert_eq!(rt; wish.bytes(), name);
    Ok(())
}

#[test]
fn a_handed_name_is_cleaned(rt: HostRuntime) -> Result<(), Fail> {
    check_handed(&rt, b"../a/b.tar.gz", b"b.tar.gz")?;
    check_handed(&rt, b"..\\a\\c.txt", b"c.txt")?;
    check_handed(&rt, b".profile", b"_profile")?;
    check_handed(&rt, b"a:b?.txt. ", b"a_b_.txt")?;
    check_handed(&rt, b"  a b", b"a b")?;
    check_handed(&rt, b"\t\x7f\x1f", b"___")?;
    check_handed(&rt, b"..", b"download")?;
    check_handed(&rt, b"a/", b"download")?;
    Ok(())
}

#[test]
fn a_name_that_ends_as_a_part_does_is_marked(rt: HostRuntime) -> Result<(), Fail> {
    check_handed(
        &rt,
        b"Unconfirmed 1-1.crdownload",
        b"Unconfirmed 1-1.crdownload_",
    )?;
    check_handed(&rt, b"x.CRDownload", b"x.CRDownload_")?;
    check_handed(&rt, b".crdownload", b"_crdownload")?;
    Ok(())
}

#[test]
fn a_long_name_keeps_its_extension_and_whole_characters(rt: HostRuntime) -> Result<(), Fail> {
    let mut plain = Text::new(rt.alloc());
    let mut accented = Text::from_bytes(rt.alloc(), b"x")?;
    for _ in 0..196u8 {
        plain.push_bytes(b"a")?;
    }
    let mut wanted = plain.copy(rt.alloc())?;
    wanted.push_bytes(b".txt")?;
    plain.push_bytes(b"aaaa.txt")?;
    check_handed(&rt, plain.bytes(), wanted.bytes())?;
    for _ in 0..97u8 {
        accented.push_bytes(b"\xc3\xa9")?;
    }
    let mut kept = accented.copy(rt.alloc())?;
    kept.push_bytes(b".txt")?;
    accented.push_bytes(b"\xc3\xa9\xc3\xa9.txt")?;
    check_handed(&rt, accented.bytes(), kept.bytes())?;
    Ok(())
}

/// Checks the name that a disposition and the address give.
fn check_told(
    rt: &(impl Abort + AllocGlobal),
    value: &[u8],
    target: &[u8],
    name: &[u8],
) -> Result<(), Fail> {
    let from = address(rt.alloc(), target)?;
    let told = disposition_of(rt.alloc(), Some(value))?;
    let wish = wish_name(rt.alloc(), b"", told.as_ref(), &from)?;
    assert_eq!(rt; wish.bytes(), name);
    Ok(())
}

#[test]
fn a_name_is_told_by_the_reply_or_the_address(rt: HostRuntime) -> Result<(), Fail> {
    let both = b"attachment; filename=\"a.txt\"; filename*=UTF-8''%e2%82%ac.txt";
    check_told(&rt, both, b"/a/hello.txt", b"\xe2\x82\xac.txt")?;
    let repeated = b"attachment; filename=a; FILENAME=b";
    check_told(&rt, repeated, b"/a/hello.txt", b"hello.txt")?;
    check_told(&rt, b"x; filename=\"..\\..\\x\"", b"/a/hello.txt", b"_...x")?;
    let empty = b"x; filename=a; filename*=UTF-8''";
    check_told(&rt, empty, b"/a/hello.txt", b"a")?;
    check_told(&rt, b"inline", b"/a/", b"download")?;
    check_told(
        &rt,
        b"inline",
        b"/%c3%a9%ff.txt?x=/y.z",
        b"\xc3\xa9\xef\xbf\xbd.txt",
    )?;
    check_told(&rt, b"inline", b"/a%2fb", b"b")?;
    Ok(())
}

#[test]
fn a_taken_name_gets_a_number(rt: HostRuntime) -> Result<(), Fail> {
    let mut taken = NameList::new(rt.alloc());
    let free = unique_name(rt.alloc(), b"report.pdf", &taken)?;
    assert!(rt; free.is(b"report.pdf"));
    taken.push(Text::from_bytes(rt.alloc(), b"Report.PDF")?)?;
    let first = unique_name(rt.alloc(), b"report.pdf", &taken)?;
    assert!(rt; first.is(b"report (1).pdf"));
    taken.push(Text::from_bytes(rt.alloc(), b"b.tar.gz")?)?;
    let stem = unique_name(rt.alloc(), b"b.tar.gz", &taken)?;
    assert!(rt; stem.is(b"b.tar (1).gz"));
    Ok(())
}

#[test]
fn the_hundredth_number_is_the_last(rt: HostRuntime) -> Result<(), Fail> {
    let mut taken = NameList::new(rt.alloc());
    taken.push(Text::from_bytes(rt.alloc(), b"report.pdf")?)?;
    for number in 1..100u8 {
        let form = format!(in rt.alloc(); "report ({number}).pdf")?;
        taken.push(Text::from_bytes(rt.alloc(), form.as_bytes())?)?;
    }
    let last = unique_name(rt.alloc(), b"report.pdf", &taken)?;
    assert!(rt; last.is(b"report (100).pdf"));
    taken.push(last)?;
    match unique_name(rt.alloc(), b"report.pdf", &taken) {
        Err(fault) => assert_eq!(rt; fault, NameFault::AllTaken),
        Ok(_) => assert!(rt; false),
    }
    Ok(())
}

/// So many bytes, and then `.txt`.
fn long_name(alloc: Global, byte: &[u8], count: u8) -> Result<Text, Fail> {
    let mut name = Text::new(alloc);
    for _ in 0..count {
        name.push_bytes(byte)?;
    }
    name.push_bytes(b".txt")?;
    Ok(name)
}

#[test]
fn names_of_200_and_of_255_bytes(rt: HostRuntime) -> Result<(), Fail> {
    let most = long_name(rt.alloc(), b"a", 196)?;
    check_handed(&rt, most.bytes(), most.bytes())?;
    let longer = long_name(rt.alloc(), b"a", 197)?;
    check_handed(&rt, longer.bytes(), most.bytes())?;
    let longest = long_name(rt.alloc(), b"a", 251)?;
    check_handed(&rt, longest.bytes(), most.bytes())?;
    Ok(())
}

#[test]
fn bytes_that_are_no_text_are_cut_as_they_stand(rt: HostRuntime) -> Result<(), Fail> {
    check_handed(&rt, b"\xff/\xfeb.txt", b"\xfeb.txt")?;
    let longest = long_name(rt.alloc(), b"\x80", 251)?;
    let most = long_name(rt.alloc(), b"\x80", 196)?;
    check_handed(&rt, longest.bytes(), most.bytes())?;
    Ok(())
}

#[test]
fn a_form_of_206_bytes(rt: HostRuntime) -> Result<(), Fail> {
    let wish = long_name(rt.alloc(), b"a", 196)?;
    let mut taken = NameList::new(rt.alloc());
    for _ in 0..100u8 {
        let name = unique_name(rt.alloc(), wish.bytes(), &taken)?;
        taken.push(name)?;
    }
    let last = unique_name(rt.alloc(), wish.bytes(), &taken)?;
    assert_eq!(rt; last.len(), 206);
    assert!(rt; last.bytes().ends_with(b" (100).txt"));
    Ok(())
}
