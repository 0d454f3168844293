// The three maps at their edges.
use crate::listed::ListedMap;
use crate::regular::RegularMap;
use crate::target::TargetMap;
use crate::{Mark, Node, Rack, SiteMap};
use std::test::Fail;

// A node's rack where it is marked yes.
fn yes_rack<M: SiteMap>(map: &M, v: u16) -> Option<u32> {
    match map.node(Node(v)) {
        Some((rack, Mark::Yes)) => Some(rack.0),
        Some((_, Mark::No)) => None,
        None => None,
    }
}

// How many nodes a regular map has; absent where it is refused.
fn regular_nodes(racks: u32, each: u32) -> Option<u16> {
    match RegularMap::new(racks, each) {
        Ok(map) => Some(map.nodes()),
        Err(_) => None,
    }
}

#[test]
fn regular_limits(rt: HostRuntime) {
    assert_eq!(rt; regular_nodes(32, 8), Some(256), "R × m = 256");
    assert_eq!(rt; regular_nodes(1, 256), Some(256), "m = 256");
    assert_eq!(rt; regular_nodes(2, 129), None, "R × m = 258");
    assert_eq!(rt; regular_nodes(1, 257), None, "m = 257");
    assert_eq!(rt; regular_nodes(33, 1), None, "33 racks");
    assert_eq!(rt; regular_nodes(0, 1), None, "no rack");
    assert_eq!(rt; regular_nodes(1, 0), None, "no node in a rack");
    assert_eq!(rt; regular_nodes(65536, 65536), None, "a product past 32 bits");
}

#[test]
fn regular_racks(rt: HostRuntime) -> Result<(), Fail> {
    let Ok(map) = RegularMap::new(32, 8) else {
        return Err(Fail::new("refused"));
    };
    assert_eq!(rt; yes_rack(&map, 7), Some(0));
    assert_eq!(rt; yes_rack(&map, 8), Some(1));
    assert_eq!(rt; yes_rack(&map, 255), Some(31));
    assert_eq!(rt; yes_rack(&map, 256), None);
    Ok(())
}

#[test]
fn listed_window(rt: HostRuntime) {
    let none: [(Rack, Mark); 0] = [];
    assert_eq!(rt; ListedMap::new(&none).nodes(), 0, "an empty table");
    let long = [(Rack(31), Mark::Yes); 257];
    let map = ListedMap::new(&long);
    assert_eq!(rt; map.nodes(), 256, "257 entries");
    assert_eq!(rt; yes_rack(&map, 255), Some(31));
    assert_eq!(rt; yes_rack(&map, 256), None);
    let broken = [
        (Rack(5), Mark::Yes),
        (Rack(6), Mark::No),
        (Rack(32), Mark::Yes),
        (Rack(7), Mark::Yes),
    ];
    let map = ListedMap::new(&broken);
    assert_eq!(rt; map.nodes(), 2, "a rack of 32 in the middle");
    assert_eq!(rt; yes_rack(&map, 0), Some(5));
    assert_eq!(rt; yes_rack(&map, 1), None);
}

#[test]
fn target_words(rt: HostRuntime) -> Result<(), Fail> {
    let Ok(below) = RegularMap::new(32, 8) else {
        return Err(Fail::new("refused"));
    };
    let dark = TargetMap::new(below, 0);
    assert_eq!(rt; dark.nodes(), 256);
    assert_eq!(rt; yes_rack(&dark, 0), None, "a word of 0");
    let ends = TargetMap::new(below, 0x8000_0001);
    assert_eq!(rt; yes_rack(&ends, 7), Some(0));
    assert_eq!(rt; yes_rack(&ends, 8), None);
    assert_eq!(rt; yes_rack(&ends, 248), Some(31));
    let last = ends.within(0xffff_fffe);
    assert_eq!(rt; yes_rack(&last, 0), None);
    assert_eq!(rt; yes_rack(&last, 255), Some(31));
    assert_eq!(rt; yes_rack(&TargetMap::all(below), 8), Some(1));
    Ok(())
}

#[test]
fn a_lent_map_is_a_map(rt: HostRuntime) -> Result<(), Fail> {
    let Ok(below) = RegularMap::new(4, 2) else {
        return Err(Fail::new("refused"));
    };
    let shared = TargetMap::new(&below, 2);
    assert_eq!(rt; yes_rack(&shared, 2), Some(1));
    assert_eq!(rt; shared.nodes(), below.nodes());
    Ok(())
}
