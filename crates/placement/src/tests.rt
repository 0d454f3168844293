// The traps of admission and of the first choice.
use crate::admit::admit;
use crate::plan::plan;
use blocks::block::Block;
use blocks::code::Code;
use blocks::lists::{Blocks, Nodes};
use site::regular::RegularMap;
use site::set::NumberSet;
use site::target::TargetMap;
use site::{Node, SiteMap};
use std::test::Fail;

// Offers a block with copies at two nodes, and takes it where it is admitted: 0, or else the tight set.
fn offer<M: SiteMap>(map: &M, c: u32, blocks: &mut Blocks, v: u16, w: u16) -> u32 {
    let Some(block) = Block::new(1, &[Node(v), Node(w)]) else {
        return 0xffff_ffff;
    };
    match admit(map, c, blocks, &block) {
        Ok(()) => {
            let _ = blocks.push(block);
            0
        }
        Err(set) => set.into(),
    }
}

fn node_at(nodes: &Nodes, i: usize) -> Option<u16> {
    let all = nodes.as_slice();
    if i < all.len() { Some(all[i].0) } else { None }
}

#[test]
fn a_first_copy_gives_way(rt: HostRuntime) -> Result<(), Fail> {
    let Ok(below) = RegularMap::new(5, 2) else {
        return Err(Fail::new("the map is refused"));
    };
    let map = TargetMap::new(below, 15);
    let Some(code) = Code::new(4, 3, 1) else {
        return Err(Fail::new("the code is refused"));
    };
    let mut blocks = Blocks::new();
    assert_eq!(rt; offer(&map, 1, &mut blocks, 0, 2), 0);
    assert_eq!(rt; offer(&map, 1, &mut blocks, 1, 8), 0);
    assert_eq!(rt; offer(&map, 1, &mut blocks, 0, 4), 0);
    let nodes = plan(&map, &code, &blocks, Node(0));
    assert_eq!(rt; node_at(&nodes, 0), Some(2));
    assert_eq!(rt; node_at(&nodes, 1), Some(1));
    assert_eq!(rt; node_at(&nodes, 2), Some(4));
    assert_eq!(rt; node_at(&nodes, 3), Some(6));
    assert_eq!(rt; node_at(&nodes, 4), None);
    Ok(())
}

#[test]
fn a_node_keeps_one_block(rt: HostRuntime) -> Result<(), Fail> {
    let Ok(map) = RegularMap::new(2, 2) else {
        return Err(Fail::new("the map is refused"));
    };
    let mut blocks = Blocks::new();
    assert_eq!(rt; offer(&map, 3, &mut blocks, 0, 1), 0);
    assert_eq!(rt; offer(&map, 3, &mut blocks, 0, 1), 0);
    assert_eq!(rt;
        offer(&map, 3, &mut blocks, 0, 1),
        7,
        "the rack has room for 3, but two nodes only"
    );
    Ok(())
}

#[test]
fn a_tight_set_has_no_bystander(rt: HostRuntime) -> Result<(), Fail> {
    let Ok(map) = RegularMap::new(3, 3) else {
        return Err(Fail::new("the map is refused"));
    };
    let mut blocks = Blocks::new();
    assert_eq!(rt; offer(&map, 2, &mut blocks, 1, 6), 0);
    assert_eq!(rt; offer(&map, 2, &mut blocks, 0, 3), 0);
    assert_eq!(rt; offer(&map, 2, &mut blocks, 0, 3), 0);
    let set = offer(&map, 2, &mut blocks, 0, 3);
    assert_eq!(rt; set, 14, "positions 2, 3 and 4");
    assert_eq!(rt; NumberSet::from(set).len(), 3);
    Ok(())
}
