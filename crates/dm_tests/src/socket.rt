// The first file over a real socket.
use dm_cli::{Ran, run_words};
use dm_disk::{FailList, MemoryDisk};
use dm_edge::{ClockList, Net, SinkMem};
use dm_edge_real::TcpNet;
use dm_run_bench::{Left, stands, texts};
use dm_types::NoMemory;
use std::alloc::Global;
use std::io::{Read, Write};
use std::net::TcpListener;
use std::test::Fail;
use std::{io, thread};

/// Takes one connection, reads the end of a request and answers.
fn serve(listener: &TcpListener) -> io::Result<()> {
    let (mut stream, _) = listener.accept()?;
    let mut request = [0; 4096];
    let _ = stream.read(&mut request)?;
    stream.write_all(b"HTTP/1.1 200 OK\r\nContent-Length: 11\r\n\r\nhello ")?;
    stream.write_all(b"world")
}

/// Whether a file is brought from this address, and told.
fn arrives<N: Net>(alloc: Global, address: &[u8], net: &mut N) -> Result<bool, NoMemory> {
    let words = texts(alloc, &[b"get", b"--name", b"hello.txt", address])?;
    let mut clock = ClockList::new(alloc, &[0])?;
    let mut out = SinkMem::new(alloc, 1000, &[])?;
    let mut errs = SinkMem::new(alloc, 1000, &[])?;
    let there = MemoryDisk::new(alloc, FailList::new(alloc), None)?;
    let Ran { status, mut disk } = run_words(
        alloc, &words, there, net, &mut clock, &mut out, &mut errs,
    );
    let is_told = status == 0 && out.written() == b"1 complete 11 11 hello.txt\n".as_slice();
    let is_held = stands(alloc, &mut disk, Left::File(b"hello.txt", b"hello world"));
    Ok(is_told && is_held)
}

#[test]
fn a_whole_reply_comes_over_tcp(rt: HostRuntime) -> Result<(), Fail> {
    let alloc = rt.alloc();
    let listener = TcpListener::bind(&rt, "127.0.0.1:0")?;
    let port = listener.local_addr()?.port();
    let address = format!(in alloc; "http://127.0.0.1:{port}/hello.txt")?;
    let server = thread::spawn(&rt, move || serve(&listener))
        .ok()
        .expect(&rt, "a thread");
    let mut net = TcpNet::new(rt.clone()?);
    assert!(rt; arrives(alloc, address.as_bytes(), &mut net)?);
    server.join(&rt).expect(&rt, "is served");
    Ok(())
}
