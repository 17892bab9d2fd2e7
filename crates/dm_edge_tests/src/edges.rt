ghost use Rattle.std.specs.Prelude.{◌≡◌, [], ◌∷◌, IfOk};
ghost use Rattle.dm_edge.specs.Script.{IsGood};

use dm_edge::*;
use dm_policy::Cause;
use dm_types::{Address, Attempt, ItemId, Listed, NoMemory, Text};
use std::alloc::Global;
use std::test::Fail;

fn address(alloc: Global) -> Result<Address, NoMemory> {
    Ok(Address {
        text: Text::from_bytes(alloc, b"http://a.test/f")?,
        host: Text::from_bytes(alloc, b"a.test")?,
        port: 80,
        target: Text::from_bytes(alloc, b"/f")?,
    })
}

#[test]
fn a_sink_takes_whole_pieces(rt: HostRuntime) -> Result<(), Fail> {
    let mut sink = SinkMem::new(rt.alloc(), 8, &[1])?;
    assert_eq!(rt; sink.write(b"hello"), Ok(5));
    assert_eq!(rt; sink.write(b"x"), Err(EdgeFault::Failed));
    assert_eq!(rt; sink.write(b"four"), Err(EdgeFault::Failed));
    assert_eq!(rt; sink.write(b"abc"), Ok(3));
    assert_eq!(rt; sink.write(b""), Ok(0));
    assert_eq!(rt; sink.written(), b"helloabc".as_slice());
    assert_eq!(rt; sink.failed(), 2);
    Ok(())
}

#[test]
fn a_clock_repeats_its_last_moment(rt: HostRuntime) -> Result<(), Fail> {
    let mut clock = ClockList::new(rt.alloc(), &[3, 7])?;
    assert_eq!(rt; clock.now(), 3);
    assert_eq!(rt; clock.now(), 7);
    assert_eq!(rt; clock.now(), 7);
    Ok(())
}

/// `hello` in two pieces, with a fault in between.
fn script(alloc: Global) -> Result<WireScript, NoMemory>
    ensures { IfOk result IsGood }
{
    Ok(WireScript {
        stream: Text::from_bytes(alloc, b"hello")?,
        cuts: Listed::from_vec(Vec::from_slice(alloc, &[2])?),
        failing: Listed::from_vec(Vec::from_slice(alloc, &[(2, WireFault::Timeout)])?),
    })
}

fn refused_second(alloc: Global) -> Result<NetFails, NoMemory>
    ensures { IfOk result (λ failing. failing ≡ record { 0 = 1; 1 = NetFault.Refused } ∷ []) }
{
    Ok(Listed::from_vec(Vec::from_slice(alloc, &[(1, NetFault::Refused)])?))
}

fn one_wire(alloc: Global) -> Result<NetScript, NoMemory> {
    let mut wires = Listed::new(alloc);
    wires.push(script(alloc)?)?;
    NetScript::new(wires, refused_second(alloc)?)
}

fn connected<N: Net>(alloc: Global, net: &mut N) -> Result<Option<N::W>, NoMemory> {
    let to = address(alloc)?;
    Ok(net.connect(alloc, &to, ItemId(4), Attempt(1)).ok())
}

#[test]
fn a_wire_says_its_script(rt: HostRuntime) -> Result<(), Fail> {
    let mut net = one_wire(rt.alloc())?;
    let mut wire = connected(rt.alloc(), &mut net)?.expect(&rt, "connects");
    let mut buf = [0; 8];
    assert_eq!(rt; wire.send(b"GET"), Ok(()));
    assert_eq!(rt; wire.receive(&mut buf), Ok(2));
    assert_eq!(rt; &buf[..2], b"he".as_slice());
    assert_eq!(rt; wire.receive(&mut buf), Err(WireFault::Timeout));
    assert_eq!(rt; wire.receive(&mut buf), Ok(3));
    assert_eq!(rt; &buf[..3], b"llo".as_slice());
    assert_eq!(rt; wire.receive(&mut buf), Ok(0));
    net.close(wire);
    Ok(())
}

/// How a connect fails. One that doesn't is closed again.
fn refusal<N: Net>(alloc: Global, net: &mut N, to: &Address) -> Option<NetFault> {
    match net.connect(alloc, to, ItemId(1), Attempt(1)) {
        Ok(wire) => {
            net.close(wire);
            None
        }
        Err(fault) => Some(fault),
    }
}

#[test]
fn a_net_counts_its_refusals(rt: HostRuntime) -> Result<(), Fail> {
    let to = address(rt.alloc())?;
    let mut net = one_wire(rt.alloc())?;
    assert_eq!(rt; refusal(rt.alloc(), &mut net, &to), None);
    assert_eq!(rt; refusal(rt.alloc(), &mut net, &to), Some(NetFault::Refused));
    assert_eq!(rt; refusal(rt.alloc(), &mut net, &to), Some(NetFault::NoRoute));
    let counts = net.counts();
    assert_eq!(rt; (counts.no_route, counts.refused), (1, 1));
    assert_eq!(rt; (counts.timeout, counts.failed), (0, 0));
    Ok(())
}

#[test]
fn a_net_keeps_what_it_closed(rt: HostRuntime) -> Result<(), Fail> {
    let mut net = one_wire(rt.alloc())?;
    let mut wire = connected(rt.alloc(), &mut net)?.expect(&rt, "connects");
    let sent = wire.send(b"GET");
    net.close(wire);
    assert_eq!(rt; sent, Ok(()));
    let closed = net.closed(0).expect(&rt, "is kept");
    assert!(rt; closed.address.text.is(b"http://a.test/f"));
    assert_eq!(rt; (closed.id, closed.attempt), (ItemId(4), Attempt(1)));
    assert!(rt; closed.sent.is(b"GET") && closed.stream.is(b"hello"));
    assert!(rt; net.closed(1).is_none());
    Ok(())
}

#[test]
fn each_fault_has_its_cause(rt: HostRuntime) {
    assert_eq!(rt; net_cause(NetFault::NoRoute), Cause::NetNoRoute);
    assert_eq!(rt; net_cause(NetFault::Refused), Cause::NetRefused);
    assert_eq!(rt; net_cause(NetFault::Timeout), Cause::NetTimeout);
    assert_eq!(rt; net_cause(NetFault::Failed), Cause::NetFailed);
    assert_eq!(rt; net_cause(NetFault::NoMemory), Cause::Memory);
    assert_eq!(rt; wire_cause(WireFault::Failed), Cause::NetFailed);
    assert_eq!(rt; wire_cause(WireFault::Timeout), Cause::NetTimeout);
    assert_eq!(rt; wire_cause(WireFault::NoMemory), Cause::Memory);
}

#[test]
fn a_part_is_asked_for_by_its_range(rt: HostRuntime) -> Result<(), Fail> {
    let part = Wanted::Part {
        first: 5,
        last: 10,
        tag: Text::from_bytes(rt.alloc(), b"\"v1\"")?,
        total: 11,
    };
    let ask = ask_for(rt.alloc(), &part)?.expect(&rt, "is a range");
    assert_eq!(rt; (ask.first, ask.last), (5, 10));
    assert!(rt; ask.tag.is(b"\"v1\""));
    assert!(rt; ask_for(rt.alloc(), &Wanted::Whole)?.is_none());
    Ok(())
}
