// The worked examples through the real store, and the losses of the first delivery.
use site::regular::RegularMap;
use site::set::NumberSet;
use site::target::TargetMap;
use site::{Node, Rack, SiteMap};
use std::process::Abort;
use std::test::Fail;
use store::store::Store;
use store::types::{Answer, Call, Refusal, Row};

// The map of racks of `each` nodes with these targets.
fn map_of(racks: u32, each: u32, targets: u32) -> Result<TargetMap<RegularMap>, Fail> {
    let map = RegularMap::new(racks, each).map_err(|_| Fail::new("no such map"))?;
    Ok(TargetMap::new(map, targets))
}

fn offer<M: SiteMap>(store: &mut Store<M>, block: u32, nodes: &[Node]) -> Result<Answer, Refusal> {
    let mut rows = [Row::default(); 1];
    store.call(&Call::Offer { block, nodes }, &mut rows)
}

// Whether the rows begin with these nodes, in their order.
fn begins(rows: &[Row], nodes: &[u16]) -> bool {
    rows.len() >= nodes.len() && rows.iter().zip(nodes).all(|(row, v)| row.node == Node(*v))
}

#[test]
fn set_up_needs_space(rt: HostRuntime) -> Result<(), Fail> {
    let mut four = Store::new(map_of(4, 2, u32::MAX)?);
    assert_eq!(rt;
        four.set_up(5, 4, 1),
        Err(Refusal::SpaceBelowN),
        "space 4 for 5"
    );
    assert_eq!(rt; four.set_up(4, 3, 1), Ok(Answer::Done), "space 4");
    let mut two = Store::new(map_of(6, 3, 3)?);
    assert_eq!(rt;
        two.set_up(6, 3, 2),
        Err(Refusal::SpaceBelowN),
        "two targets, c = 2"
    );
    assert_eq!(rt; two.set_up(6, 3, 3), Ok(Answer::Done), "two targets, c = 3");
    Ok(())
}

#[test]
fn an_earlier_block_moves_aside(rt: HostRuntime) -> Result<(), Fail> {
    let mut store = Store::new(map_of(5, 2, 15)?);
    assert_eq!(rt; store.set_up(4, 3, 1), Ok(Answer::Done));
    assert_eq!(rt;
        offer(&mut store, 201, &[Node(0), Node(2)]),
        Ok(Answer::Position(1))
    );
    assert_eq!(rt;
        offer(&mut store, 202, &[Node(1), Node(8)]),
        Ok(Answer::Position(2))
    );
    assert_eq!(rt;
        offer(&mut store, 203, &[Node(0), Node(4)]),
        Ok(Answer::Position(3))
    );
    assert_eq!(rt; store.seal(Rack(0), Node(0)), Ok(Answer::Done));
    let mut rows = [Row::default(); 4];
    assert_eq!(rt; store.plan(Rack(0), &mut rows), Ok(Answer::Rows(4)));
    assert!(rt; begins(&rows, &[2, 1, 4, 6]));
    Ok(())
}

#[test]
fn the_refusal_names_who_is_in_the_way(rt: HostRuntime) -> Result<(), Fail> {
    let mut outside = Store::new(map_of(6, 2, 15)?);
    assert_eq!(rt; outside.set_up(4, 3, 1), Ok(Answer::Done));
    assert_eq!(rt;
        offer(&mut outside, 301, &[Node(8), Node(10)]),
        Err(Refusal::NoChoice(NumberSet::from(1)))
    );
    let mut store = Store::new(map_of(3, 3, 7)?);
    assert_eq!(rt; store.set_up(6, 4, 2), Ok(Answer::Done));
    assert_eq!(rt;
        offer(&mut store, 7, &[Node(1), Node(6)]),
        Ok(Answer::Position(1))
    );
    assert_eq!(rt;
        offer(&mut store, 8, &[Node(0), Node(3)]),
        Ok(Answer::Position(2))
    );
    assert_eq!(rt;
        offer(&mut store, 9, &[Node(0), Node(3)]),
        Ok(Answer::Position(3))
    );
    assert_eq!(rt;
        offer(&mut store, 10, &[Node(0), Node(3)]),
        Err(Refusal::NoChoice(NumberSet::from(14)))
    );
    Ok(())
}

#[test]
fn four_racks_of_two(rt: HostRuntime) -> Result<(), Fail> {
    let mut store = Store::new(map_of(4, 2, 15)?);
    assert_eq!(rt; store.set_up(4, 3, 1), Ok(Answer::Done));
    assert_eq!(rt;
        offer(&mut store, 101, &[Node(0), Node(2), Node(3)]),
        Ok(Answer::Position(1))
    );
    assert_eq!(rt;
        offer(&mut store, 102, &[Node(1), Node(2), Node(3)]),
        Ok(Answer::Position(2))
    );
    assert_eq!(rt;
        offer(&mut store, 103, &[Node(0), Node(3), Node(2)]),
        Err(Refusal::NoChoice(NumberSet::from(7)))
    );
    assert_eq!(rt;
        offer(&mut store, 103, &[Node(1), Node(4), Node(5)]),
        Ok(Answer::Position(3))
    );
    assert_eq!(rt; store.seal(Rack(0), Node(6)), Ok(Answer::Done));
    let mut rows = [Row::default(); 8];
    assert_eq!(rt; store.plan(Rack(0), &mut rows), Ok(Answer::Rows(4)));
    assert!(rt; begins(&rows, &[0, 2, 4, 6, 0]));
    assert_eq!(rt; store.deletions(Rack(0), &mut rows), Ok(Answer::Rows(6)));
    assert!(rt; begins(&rows, &[2, 3, 1, 3, 1, 5, 0]));
    assert_eq!(rt;
        store.standing(Rack(0), &[Node(1)], 0),
        Ok(Answer::Standing(4)),
        "a node beside the plan"
    );
    assert_eq!(rt;
        store.standing(Rack(0), &[Node(2)], 2),
        Ok(Answer::Standing(3)),
        "a node and its rack"
    );
    assert_eq!(rt; store.release(Rack(0)), Ok(Answer::Done));
    Ok(())
}

// The first stripe of the first delivery, up to its seal.
fn first_stripe<M: SiteMap>(rt: &impl Abort, store: &mut Store<M>) {
    assert_eq!(rt; store.set_up(14, 10, 2), Ok(Answer::Done));
    assert_eq!(rt;
        offer(store, 1001, &[Node(0), Node(72), Node(80)]),
        Ok(Answer::Position(1))
    );
    assert_eq!(rt;
        offer(store, 1002, &[Node(1), Node(73), Node(81)]),
        Ok(Answer::Position(2))
    );
    assert_eq!(rt;
        offer(store, 1003, &[Node(2), Node(74), Node(8)]),
        Ok(Answer::Position(3))
    );
    assert_eq!(rt;
        offer(store, 1004, &[Node(3), Node(8), Node(16)]),
        Ok(Answer::Position(4))
    );
    assert_eq!(rt;
        offer(store, 1005, &[Node(0), Node(9), Node(75)]),
        Ok(Answer::Position(5))
    );
    assert_eq!(rt;
        offer(store, 1006, &[Node(4), Node(8), Node(24)]),
        Ok(Answer::Position(6))
    );
    assert_eq!(rt;
        offer(store, 1007, &[Node(5), Node(24), Node(32), Node(40)]),
        Ok(Answer::Position(7))
    );
    assert_eq!(rt;
        offer(store, 1008, &[Node(6), Node(33), Node(89)]),
        Ok(Answer::Position(8))
    );
    assert_eq!(rt;
        offer(store, 1009, &[Node(7), Node(41), Node(48)]),
        Ok(Answer::Position(9))
    );
    assert_eq!(rt;
        offer(store, 1010, &[Node(0), Node(17), Node(49), Node(56)]),
        Ok(Answer::Position(10))
    );
    assert_eq!(rt; store.seal(Rack(0), Node(40)), Ok(Answer::Done));
}

#[test]
fn which_racks_may_burn(rt: HostRuntime) -> Result<(), Fail> {
    let mut store = Store::new(map_of(12, 8, 511)?);
    first_stripe(&rt, &mut store);
    assert_eq!(rt; store.standing(Rack(0), &[], 0), Ok(Answer::Standing(14)));
    assert_eq!(rt;
        store.standing(Rack(0), &[], 0b1111_0000_0000),
        Ok(Answer::Standing(14)),
        "rack 8 and the ingest racks"
    );
    assert_eq!(rt;
        store.standing(Rack(0), &[], 0b1_0001),
        Ok(Answer::Standing(10)),
        "racks 0 and 4"
    );
    assert_eq!(rt;
        store.standing(Rack(0), &[Node(24), Node(56)], 1),
        Ok(Answer::Standing(10)),
        "a rack and two nodes"
    );
    assert_eq!(rt;
        store.standing(Rack(0), &[Node(0), Node(1), Node(8), Node(9)], 0),
        Ok(Answer::Standing(10)),
        "four nodes"
    );
    assert_eq!(rt;
        store.standing(Rack(0), &[Node(56)], 0b11),
        Ok(Answer::Standing(9)),
        "past what the code promises"
    );
    Ok(())
}
