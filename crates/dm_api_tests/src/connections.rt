use dm_conns::{Conn, ConnMem, ConnMems, Conns, ConnsMem};
use dm_edge::EdgeFault;
use dm_hear::{ApiFault, read_api, write_api};
use dm_types::Listed;
use std::alloc::Global;
use std::test::Fail;

/// One that ends inside its head, and one that asks.
fn two(alloc: Global) -> Result<ConnMems, Fail> {
    let mut conns = Listed::new(alloc);
    conns.push(ConnMem::new(alloc, b"GET /items HT", 64, &[])?)?;
    conns.push(ConnMem::new(alloc, b"GET /items HTTP/1.1\r\n\r\nmore", 64, &[])?)?;
    Ok(conns)
}

#[test]
fn a_cut_one_is_dropped_and_the_next_one_is_answered(rt: HostRuntime) -> Result<(), Fail> {
    let mut conns = ConnsMem::new(rt.alloc(), two(rt.alloc())?, &[1])?;
    let mut conn = conns.accept().ok().expect(&rt, "the first one");
    assert!(rt; matches!(read_api(rt.alloc(), &mut conn), Err(ApiFault::Cut)));
    conns.done(conn);
    assert!(rt; conns.accept().is_err());
    let mut conn = conns.accept().ok().expect(&rt, "the next one");
    assert!(rt; read_api(rt.alloc(), &mut conn).is_ok());
    assert_eq!(rt; write_api(&mut conn, b"HTTP/1.1 200 OK\r\n\r\n"), Ok(()));
    conns.done(conn);
    assert!(rt; conns.accept().is_err());
    assert_eq!(rt; conns.served(), 2);
    assert_eq!(rt; conns.failed(), 2);
    let first = conns.over(0).expect(&rt, "the first one is listed");
    assert_eq!(rt; first.written.as_slice(), b"".as_slice());
    let next = conns.over(1).expect(&rt, "the next one is listed");
    assert_eq!(rt;
        next.written.as_slice(),
        b"HTTP/1.1 200 OK\r\n\r\n".as_slice()
    );
    assert_eq!(rt;
        next.stream.bytes(),
        b"GET /items HTTP/1.1\r\n\r\nmore".as_slice()
    );
    Ok(())
}

#[test]
fn a_write_past_the_room_fails(rt: HostRuntime) -> Result<(), Fail> {
    let mut conn = ConnMem::new(rt.alloc(), b"", 4, &[1])?;
    assert_eq!(rt; conn.write(b"abc"), Ok(3));
    assert_eq!(rt; conn.write(b"d"), Err(EdgeFault::Failed));
    assert_eq!(rt; write_api(&mut conn, b"de"), Err(EdgeFault::Failed));
    assert_eq!(rt; conn.written(), b"abc".as_slice());
    assert_eq!(rt; conn.failed(), 2);
    Ok(())
}
