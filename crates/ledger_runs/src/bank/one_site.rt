//! One site that keeps the bank's book: where its log is full it drops a request.
use fixtures::setup::three_currencies;
use pvp_book::Book;
use pvp_types::Cmd;
use std::alloc::Global;
use std::test::Fail;
use vr_site::Replica;
use vr_types::{Config, EnvelopeOf, EventOf, MemCell, MsgOf, RequestOf, Why};

/// A site of the bank.
type Site = Replica<Book, MemCell>;

/// Why site 0 drops a request of USD's node for a pay-in of 1200, where it does.
fn drops_request(site: &mut Site, alloc: Global, number: u32) -> Option<Why> {
    let cmd = Cmd::Fund {
        ccy: 1,
        pay: 1,
        member: 1,
        amt: 1_200,
    };
    let envelope = EnvelopeOf {
        from: 102,
        to: 200,
        msg: MsgOf::Request(RequestOf { number, cmd }),
    };
    site.handle(alloc, EventOf::Deliver(envelope)).ok()?.dropped
}

#[test]
fn a_full_log_drops_a_request(rt: HostRuntime) -> Result<(), Fail> {
    let alloc = rt.alloc();
    let config = Config { f: 1, me: 0 };
    let mut primary = Replica::new(alloc, config, three_currencies(alloc)?, MemCell::new())?;
    for number in 1..65_536 {
        assert!(rt; drops_request(&mut primary, alloc, number) == None);
    }
    assert!(rt; primary.log_len() == 65_535);
    assert!(rt; drops_request(&mut primary, alloc, 65_536) == Some(Why::Full));
    assert!(rt; primary.log_len() == 65_535);
    Ok(())
}
