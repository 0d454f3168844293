// Edges of the format, one test a topic.
use crate::fault::FaultKind;
use crate::lexer::{Lexer, Token};
use crate::lines::{Line, Lines};
use crate::names::name_order;
use crate::nodes::node_list;
use crate::number::number;
use crate::writer::Writer;

// How many lines a sheet has, and the bytes of its last.
fn counted(sheet: &[u8]) -> (u32, usize) {
    let mut lines = Lines::new(sheet);
    let mut last = 0;
    for _ in 0..9 {
        match lines.next() {
            Some(line) => last = line.bytes.len(),
            None => return (lines.number(), last),
        }
    }
    (0, 0)
}

#[test]
fn lines_end_in_byte_10(rt: HostRuntime) {
    assert_eq!(rt; counted(b""), (1, 0));
    assert_eq!(rt; counted(b"\n"), (2, 0));
    assert_eq!(rt; counted(b"n,k\n\nracks"), (4, 5));
    assert_eq!(rt; counted(b"n,k\n\nracks\n"), (4, 5));
}

// The column of the token after so many others, and how long its field is, or none at the line's end.
fn token_after(line: &[u8], skipped: u8) -> (u32, Option<usize>) {
    let mut lexer = Lexer::new(Line {
        bytes: line,
        number: 7,
    });
    for _ in 0..skipped {
        let _ = lexer.next_token();
    }
    match lexer.next_token() {
        Token::Field { bytes, place } => (place.column, Some(bytes.len())),
        Token::End { place } => (place.column, None),
    }
}

#[test]
fn fields_have_columns(rt: HostRuntime) {
    assert_eq!(rt; token_after(b"ab,,c", 0), (1, Some(2)));
    assert_eq!(rt; token_after(b"ab,,c", 1), (4, Some(0)));
    assert_eq!(rt; token_after(b"ab,,c", 2), (5, Some(1)));
    assert_eq!(rt; token_after(b"ab,,c", 3), (6, None));
    assert_eq!(rt; token_after(b"", 0), (1, None));
    assert_eq!(rt; token_after(b",", 1), (2, Some(0)));
}

#[test]
fn numbers_up_to_a_limit(rt: HostRuntime) {
    assert_eq!(rt; number(b"4294967295", 4294967295), Some(4294967295));
    assert_eq!(rt; number(b"4294967296", 4294967295), None);
    assert_eq!(rt; number(b"0", 0), Some(0));
    assert_eq!(rt; number(b"00", 9), None);
    assert_eq!(rt; number(b"", 9), None);
    assert_eq!(rt; number(b"+1", 9), None);
}

// How many nodes a list has, and its eighth.
fn nodes(text: &[u8]) -> Option<(usize, u16)> {
    let list = node_list(text)?;
    Some((list.len, list.nodes.get(7).unwrap_or(0)))
}

#[test]
fn node_lists_are_counted(rt: HostRuntime) {
    assert_eq!(rt; nodes(b""), Some((0, 0)));
    assert_eq!(rt; nodes(b"1 2 3 4 5 6 7 8"), Some((8, 8)));
    assert_eq!(rt; nodes(b"1 2 3 4 5 6 7 8 65535"), Some((9, 8)));
    assert_eq!(rt; nodes(b"1 2 3 4 5 6 7 8 65536"), None);
    assert_eq!(rt; nodes(b"1  2"), None);
    assert_eq!(rt; nodes(b"1 "), None);
}

// The name of the last field of a names line.
fn last_name(line: &[u8]) -> Option<usize> {
    let order: [usize; 3] = name_order(line, &[b"call", b"first", b"rest"])?;
    Some(order[2])
}

#[test]
fn names_in_any_order(rt: HostRuntime) {
    assert_eq!(rt; last_name(b"call,first,rest"), Some(2));
    assert_eq!(rt; last_name(b"rest,first,call"), Some(0));
    assert_eq!(rt; last_name(b"rest,first,rest"), None);
    assert_eq!(rt; last_name(b"rest,first"), None);
    assert_eq!(rt; last_name(b"rest,first,call,call"), None);
    assert_eq!(rt; last_name(b""), None);
}

#[test]
fn a_short_buffer_has_the_front(rt: HostRuntime) {
    let mut buffer = [b'x'; 12];
    let mut writer = Writer::new(&mut buffer);
    writer.put_bytes(b"ok,");
    writer.put_number(u32::from(u8::from(FaultKind::Sheet)));
    writer.put(b',');
    writer.put_numbers(&[0, 10, 205]);
    assert_eq!(rt; writer.len(), 12);
    assert!(rt; buffer == *b"ok,14,0 10 2");
}
