// Faults of a sheet at their places, and what right sheets say.
use crate::calls::{Asked, CallLine, read_call, read_calls};
use crate::head::read_head;
use crate::sites::SiteValues;
use site::{Mark, Rack};
use std::test::Fail;
use text::lines::{Line, Lines};

// The number and the place of the fault of code and site.
fn told(sheet: &[u8]) -> Option<(u8, u32, u32)> {
    let mut lines = Lines::new(b"");
    let mut table = [(Rack(0), Mark::No); 256];
    match read_head(sheet, &mut lines, &mut table) {
        Ok(_) => None,
        Err(fault) => Some((u8::from(fault.kind), fault.place.line, fault.place.column)),
    }
}

#[test]
fn faults_of_the_code(rt: HostRuntime) {
    assert_eq!(rt; told(b""), Some((14, 1, 1)), "no line");
    assert_eq!(rt; told(b"n,k,c\n"), Some((10, 1, 1)), "a name is missing");
    assert_eq!(rt; told(b"n,k,c,targets\n"), Some((12, 2, 1)), "no value line");
    assert_eq!(rt;
        told(b"n,k,c,targets\n4,3,\n"),
        Some((11, 2, 5)),
        "11 before 12 at one place"
    );
    assert_eq!(rt;
        told(b"n,k,c,targets\n4,3,1\n"),
        Some((12, 2, 6)),
        "a value is missing"
    );
    assert_eq!(rt;
        told(b"n,k,c,targets\n4,3,1,15,7\n"),
        Some((12, 2, 10)),
        "one too many"
    );
    assert_eq!(rt;
        told(b"n,k,c,targets\n4,3,1,4294967296\n"),
        Some((11, 2, 7)),
        "past 32 bits"
    );
    assert_eq!(rt;
        told(b"n,k,c,targets\n4,3,1,15\n4,3,1,15\n"),
        Some((12, 3, 1)),
        "a second value line"
    );
    assert_eq!(rt;
        told(b"n,k,c,targets\n4,3,1,15\n\n"),
        Some((14, 4, 1)),
        "no site"
    );
}

#[test]
fn faults_of_the_site(rt: HostRuntime) {
    assert_eq!(rt;
        told(b"k,n,c,targets\n3,4,1,15\n\nracks\n"),
        Some((10, 4, 1))
    );
    assert_eq!(rt;
        told(b"k,n,c,targets\n3,4,1,15\n\neach,racks\n"),
        Some((12, 5, 1))
    );
    assert_eq!(rt;
        told(b"k,n,c,targets\n3,4,1,15\n\neach,racks\n2,4\n2,4\n"),
        Some((12, 6, 1))
    );
    assert_eq!(rt; told(b"k,n,c,targets\n3,4,1,15\n\neach,racks\n2,4\n"), None);
    assert_eq!(rt;
        told(b"k,n,c,targets\n3,4,1,15\n\nnode,rack,keep\n0,31,y\n2,32,n\n"),
        Some((13, 6, 1))
    );
    assert_eq!(rt;
        told(b"k,n,c,targets\n3,4,1,15\n\nkeep,rack,node\nx,0,5\n"),
        Some((11, 5, 1))
    );
    assert_eq!(rt;
        told(b"k,n,c,targets\n3,4,1,15\n\nnode,rack,keep\n\n"),
        None
    );
}

#[test]
fn a_listing_is_read(rt: HostRuntime) -> Result<(), Fail> {
    let mut lines = Lines::new(b"");
    let mut table = [(Rack(0), Mark::No); 256];
    let sheet = b"targets,n,k,c\n15,4,3,1\n\nkeep,node,rack\ny,0,7\nn,1,31\n\nrest,call,first\n";
    let Ok(head) = read_head(sheet, &mut lines, &mut table) else {
        return Err(Fail::new("refused"));
    };
    assert_eq!(rt; (head.code.n, head.code.targets), (4, 15));
    let SiteValues::Listed { nodes } = head.site else {
        return Err(Fail::new("not a listing"));
    };
    assert_eq!(rt; nodes, 2);
    assert_eq!(rt; (table[0].0.0, table[1].0.0), (7, 31));
    assert_eq!(rt; lines.number(), 8, "the calls' names line");
    assert!(rt; read_calls(&mut lines).is_ok());
    Ok(())
}

// The number and the column of the fault of a call's line, under names in this order.
fn told_call(order: [usize; 3], line: &[u8]) -> Option<(u8, u32)> {
    match read_call(
        &order,
        Line {
            bytes: line,
            number: 9,
        },
    ) {
        Ok(_) => None,
        Err(fault) => Some((u8::from(fault.kind), fault.place.column)),
    }
}

#[test]
fn call_lines(rt: HostRuntime) -> Result<(), Fail> {
    assert_eq!(rt; told_call([0, 1, 2], b""), Some((12, 1)), "an empty line");
    assert_eq!(rt; told_call([0, 1, 2], b"x,7,x"), Some((11, 1)));
    assert_eq!(rt;
        told_call([2, 1, 0], b"x,7,x"),
        Some((11, 5)),
        "rest is not judged where the letter is unknown"
    );
    assert_eq!(rt;
        told_call([2, 1, 0], b"x,7,o"),
        Some((11, 1)),
        "and it is where the letter is known"
    );
    assert_eq!(rt; told_call([0, 1, 2], b"s,7,65536"), Some((11, 5)));
    assert_eq!(rt; told_call([0, 1, 2], b"p,7"), Some((12, 4)));
    assert_eq!(rt; told_call([0, 1, 2], b"o,7,"), None);
    match read_call(
        &[1, 2, 0],
        Line {
            bytes: b"101,0 2 65535,o",
            number: 9,
        },
    ) {
        Ok(
            CallLine {
                asked: Asked::Offer(list),
                first,
            },
        ) => {
            assert_eq!(rt; (first, list.len, list.nodes.get(2)), (101, 3, Some(65535)));
            Ok(())
        },
        Ok(_) => Err(Fail::new("another call")),
        Err(_) => Err(Fail::new("refused")),
    }
}
