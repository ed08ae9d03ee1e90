//! Lines of a script, at the edges of what can be read.
use script::{BookKind, Command};
use std::test::Fail;
use text::{Unread, read_line};

fn read(line: &[u8]) -> Result<Option<Command>, Unread> {
    read_line(line)
}

/// The quantity of a movement from 0 to 1 in resource 2.
fn moved(line: &[u8]) -> Option<u64> {
    match read(line) {
        Ok(Some(Command::Move(m))) if m.from == 0 && m.to == 1 && m.resource == 2 => Some(
            m.quantity,
        ),
        _ => None,
    }
}

#[test]
fn empty_lines(rt: HostRuntime) {
    assert!(rt; matches!(read(b""), Ok(None)));
    assert!(rt; matches!(read(b" \t "), Ok(None)));
    assert!(rt; matches!(read(b"#show"), Ok(None)));
    assert!(rt; matches!(read(b"  # move 0 1 2 3"), Ok(None)));
    assert!(rt; matches!(read(b"\r"), Err(Unread)));
}

#[test]
fn numbers(rt: HostRuntime) {
    assert_eq!(rt; moved(b"move 0 1 2 3"), Some(3));
    assert_eq!(rt; moved(b"\tmove  0\t1 2 0003#4"), Some(3));
    assert_eq!(rt; moved(b"move 0 1 2 18446744073709551615"), Some(u64::MAX));
    assert_eq!(rt; moved(b"move 0 1 2 0018446744073709551615"), Some(u64::MAX));
    assert_eq!(rt; moved(b"move 0 1 2 18446744073709551616"), None);
    assert_eq!(rt; moved(b"move 0 1 2 184467440737095516150"), None);
    assert_eq!(rt; moved(b"move 0 1 2 +3"), None);
    assert_eq!(rt; moved(b"move 0 1 2 3x"), None);
    assert_eq!(rt; moved(b"move 0 1 2 :"), None);
    assert_eq!(rt; moved(b"move 0 1 2 /"), None);
    assert_eq!(rt; moved(b"move 0 1 2"), None);
    assert_eq!(rt; moved(b"move 0 1 2 3 4"), None);
    assert_eq!(rt; moved(b"Move 0 1 2 3"), None);
    assert_eq!(rt; moved(b"moved 0 1 2 3"), None);
}

#[test]
fn small_numbers(rt: HostRuntime) -> Result<(), Fail> {
    assert!(rt; matches!(read(b"show"), Ok(Some(Command::Show))));
    assert!(rt; matches!(read(b"show 1"), Err(Unread)));
    let Ok(Some(Command::Choose(book))) = read(b"journal 4294967295 128 65536") else {
        return Err(Fail::new("a journal"));
    };
    assert!(rt; matches!(book.kind, BookKind::Journal));
    assert_eq!(rt; book.accounts, u32::MAX);
    assert_eq!(rt; book.resources, 128);
    assert_eq!(rt; book.count, 65_536);
    assert!(rt; matches!(read(b"grid 4294967296 4 1"), Err(Unread)));
    assert!(rt; matches!(read(b"hold 1 4294967296 1"), Err(Unread)));
    let Ok(Some(Command::Amount(stated))) = read(b"amount 1 2 4294967296") else {
        return Err(Fail::new("an amount"));
    };
    assert_eq!(rt; stated.quantity, 4_294_967_296);
    Ok(())
}
