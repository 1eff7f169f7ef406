//! Data of records, read and printed, and items.
use dns_name::Name;
use rr_data::{Entry, Rdata, RdataRefusal, item_buffer, push_type, read_type};
use std::alloc::{AllocError, Global};
use std::process::Abort;
use std::test::Fail;
use zone_text::line_tokens;

// The data of a type that the words of a text are. Of no text, and of one that is no line, it says that memory is wanting.
fn read(alloc: Global, rtype: u16, text: &[u8], origin: &Name) -> Result<Rdata, RdataRefusal> {
    if text.is_empty() || text.len() > 100_000 {
        return Err(RdataRefusal::Memory);
    }
    match line_tokens(Vec::new(alloc), text, 0, 1) {
        Ok(line) => Rdata::read(alloc, rtype, text, &line.tokens, origin),
        Err(_) => Err(RdataRefusal::Memory),
    }
}

// How many octets it has, or why there is none.
fn outcome(alloc: Global, rtype: u16, text: &[u8], origin: &Name) -> Result<String, AllocError> {
    let octets = read(alloc, rtype, text, origin).map(|rdata| rdata.octets().len());
    format!(in alloc; "{octets:?}")
}

// The name example.
fn origin() -> Result<Name, Fail> {
    Ok(Name::from_wire(b"\x07example\0").ok_or("no name")?)
}

// Types by their numbers, data, and how it is printed: both sides of each limit.
const PRINTED: &[(u16, &[u8], &[u8])] = &[
    (1, b"001.2.3.255", b"1.2.3.255"),
    (2, b"NS", b"ns.example."),
    (5, b"@", b"example."),
    (12, b"Host.", b"host."),
    (
        6,
        b"ns h 4294967295 1h30m 2147483647 0 1",
        b"ns.example. h.example. 4294967295 5400 2147483647 0 1",
    ),
    (15, b"65535 mx", b"65535 mx.example."),
    (16, b"a b\\\"\\200", b"\"a\" \"b\\\"\\200\""),
    (28, b"2001:DB8::1", b"2001:db8:0:0:0:0:0:1"),
    (28, b"::192.0.2.1", b"0:0:0:0:0:0:c000:201"),
    (28, b"1:2:3:4:5:6:7::", b"1:2:3:4:5:6:7:0"),
    (33, b"0 1 65535 a.", b"0 1 65535 a."),
    (1, b"\\# 4 c0000201", b"192.0.2.1"),
    (2, b"\\# 3 016100", b"a."),
    (16, b"\\# 2 0141", b"\"A\""),
    (
        6,
        b"\\# 22 0000 00000001 00000002 00000003 00000004 7fffffff",
        b". . 1 2 3 4 2147483647",
    ),
    (65280, b"\\# 0", b"\\# 0"),
    (65280, b"\\# 2 0A 0F", b"\\# 2 0a0f"),
    (65280, b"\\# 2 0 A0f", b"\\# 2 0a0f"),
];

#[test]
fn data_is_read_and_printed(rt: HostRuntime) -> Result<(), Fail> {
    for (rtype, text, want) in PRINTED {
        let mut out = Vec::new(rt.alloc());
        read(rt.alloc(), *rtype, text, &origin()?)?.push_text(*rtype, &mut out)?;
        assert_eq!(rt; out.as_slice(), *want);
    }
    Ok(())
}

// Types by their numbers, data, and the index of its first bad token.
const REFUSED: &[(u16, &[u8], usize)] = &[
    (1, b"192.0.2.256", 0),
    (1, b"192.0.2", 0),
    (1, b"192.0.2.1 x", 1),
    (2, b"a..b", 0),
    (6, b"ns h 4294967296 1 1 1 1", 2),
    (6, b"ns h 1 2147483648 1 1 1", 3),
    (6, b"ns h 1 1 1 1", 6),
    (15, b"65536 mx", 0),
    (16, b"a \\256", 1),
    (28, b"1:2:3:4::5:6:7:8", 0),
    (28, b"::12345", 0),
    (1, b"\\# 3 c00002", 0),
    (1, b"\\# 65536 00", 1),
    (1, b"\\# 4 c00002010", 2),
    (1, b"\\# 4 c00002", 3),
    (65280, b"x", 0),
];

#[test]
fn data_is_refused_at_its_first_bad_token(rt: HostRuntime) -> Result<(), Fail> {
    for (rtype, text, at) in REFUSED {
        let due = format!(in rt.alloc(); "Err(BadRdata {{ at: {at} }})")?;
        assert_eq!(rt; outcome(rt.alloc(), *rtype, text, &origin()?)?, due);
    }
    Ok(())
}

// As many strings of 255 octets, and one more.
fn strings(alloc: Global, full: usize, last: usize) -> Result<String, AllocError> {
    let mut string = "a".repeat(alloc, 255)?;
    string.push(' ')?;
    let mut text = string.repeat(alloc, full)?;
    text.push_str("a".repeat(alloc, last)?.as_str())?;
    Ok(text)
}

// A string has at most 255 octets, and all of them, each behind its length, at most 65,535.
#[test]
fn strings_at_their_limits(rt: HostRuntime) -> Result<(), Fail> {
    for (full, last, due) in [
        (0, 255, "Ok(256)"),
        (1, 256, "Err(LongString { at: 1 })"),
        (255, 254, "Ok(65535)"),
        (255, 255, "Err(BadRdata { at: 255 })"),
    ] {
        let text = strings(rt.alloc(), full, last)?;
        let found = outcome(rt.alloc(), 16, text.as_bytes(), &Name::root())?;
        assert_eq!(rt; found.as_str(), due);
    }
    Ok(())
}

// Names of types, and their numbers; 0 where there is no such type.
const TYPES: &[(u16, &[u8])] = &[
    (28, b"aaaa"),
    (1, b"type1"),
    (0, b"TYPE0"),
    (0, b"TYPE41"),
    (127, b"TYPE127"),
    (0, b"TYPE128"),
    (0, b"TYPE255"),
    (256, b"TYPE256"),
    (0, b"HINFO"),
];

#[test]
fn types_are_read_and_printed(rt: HostRuntime) -> Result<(), Fail> {
    for (want, text) in TYPES {
        assert_eq!(rt; read_type(text).unwrap_or(0), *want);
    }
    let mut out = Vec::new(rt.alloc());
    push_type(28, &mut out)?;
    push_type(256, &mut out)?;
    assert_eq!(rt; out.as_slice(), b"AAAATYPE256".as_slice());
    Ok(())
}

// An item whose only record is the address 192.0.2.1, with a time to live of 300, stays as it is when that is added with another.
fn stays(rt: &impl Abort, alloc: Global, item: &[u8]) -> Result<(), Fail> {
    let owner = Name::from_wire(item).ok_or("no owner")?;
    let mut entry = Entry::decode(alloc, item)?;
    let rdata = read(alloc, 1, b"192.0.2.1", &owner)?;
    assert!(rt; !entry.add(alloc, 1, 60, rdata.clone()?)?);
    assert_eq!(rt; entry.find_set(1).map(|set| set.ttl()), Some(300));
    assert!(rt; !entry.is_empty());
    let mut room = item_buffer(alloc)?;
    let len = entry.encode(&owner, &mut room).ok_or("a long item")?;
    assert_eq!(rt; &room[..len], item);
    assert!(rt; entry.del_one(1, &rdata));
    assert!(rt; !entry.del_set(1));
    Ok(())
}

const ITEM: &[u8] = b"\x02ns\x07example\0\0\x01\0\x01\0\0\x01\x2c\0\x01\0\x04\xc0\0\x02\x01";

#[test]
fn an_item_is_written_and_read(rt: HostRuntime) -> Result<(), Fail> {
    stays(&rt, rt.alloc(), ITEM)?;
    assert!(rt; Entry::decode(rt.alloc(), &ITEM[..27]).is_err());
    Ok(())
}
