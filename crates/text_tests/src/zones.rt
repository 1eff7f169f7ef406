//! A master file with entries of every form, and where tokens lie. A proof computes with a text that it sees, so texts are passed
//! to functions.
ghost use Rattle.std.specs.Prelude.{◌≡◌, ◌≤◌, length};
ghost use Rattle.zone_model.specs.Records.{item_limit};

use dns_name::Name;
use master_file::{IntoItems, read_zone};
use rr_data::{Entry, item_buffer};
use std::alloc::Global;
use std::process::Abort;
use std::test::Fail;
use zone_text::{line_tokens, tokens};

/// An RRset of a type: its owner's number of labels, its time to live and number of records, and how many names are left behind it.
type Set = (u16, u8, u32, usize, usize);

// The next item of a zone has such an RRset.
fn check_next(
    rt: &impl Abort,
    alloc: Global,
    items: &mut IntoItems,
    octets: &mut [u8],
    due: Set,
) -> Result<(), Fail>
    requires { item_limit ≤ length octets.old }
    ensures { length octets.new ≡ length octets.old }
{
    let len = items.next(octets).ok_or("no item")?;
    let owner = Name::from_wire(&octets[..len]).ok_or("no owner")?;
    let entry = Entry::decode(alloc, &octets[..len])?;
    let set = entry.find_set(due.0).ok_or("no set")?;
    assert_eq!(rt;
        (due.0, owner.labels(), set.ttl(), set.len(), items.len()),
        due
    );
    Ok(())
}

// A text says a zone of as many names as there are RRsets, each of which has one of these.
fn check_zone(rt: &impl Abort, alloc: Global, text: &[u8], dues: &[Set]) -> Result<(), Fail> {
    if text.len() > 1000 {
        return Err(Fail::from("a long text"));
    }
    let origin = Name::read(b"example.", &Name::root())?;
    let zone = read_zone(alloc, text, &origin)?;
    assert_eq!(rt; zone.len(), dues.len());
    assert_eq!(rt; zone.origin().labels(), 1);
    let mut octets = item_buffer(alloc)?;
    let mut items = zone.into_items();
    for due in dues {
        check_next(rt, alloc, &mut items, &mut octets, *due)?;
    }
    assert!(rt; items.is_empty() && items.next(&mut octets).is_none());
    Ok(())
}

const ZONE: &[u8] =
    b"$TTL 1h ; for all\r\n@ IN SOA ns admin ( 1\n 2h30m\n 1D 2w 60 )\r\n$ORIGIN sub.example.\r\n\
    www 30m class1 A 192.0.2.1\r\n\tTXT \"a ; b\" (c\\ d\n)\nmail A 192.0.2.2\n A 192.0.2.3";

const SETS: &[Set] = &[(6, 1, 3600, 1, 2), (1, 3, 3600, 2, 1), (16, 3, 3600, 1, 0)];

#[test]
fn reads_entries_of_every_form(rt: HostRuntime) -> Result<(), Fail> {
    check_zone(&rt, rt.alloc(), ZONE, SETS)
}

// Two entries, and the first line of the second alone.
fn check_places(rt: &impl Abort, alloc: Global, text: &[u8]) -> Result<(), Fail> {
    assert_eq!(rt; text.len(), 21);
    let first = tokens(alloc, text, 0, 1)?;
    assert_eq!(rt; first.tokens.len(), 2);
    assert_eq!(rt; first.tokens[1].text(text), b"b c".as_slice());
    assert_eq!(rt;
        (first.next, first.next_line, first.parens, first.blank),
        (9, 2, false, false)
    );
    let second = tokens(alloc, text, 9, 2)?;
    assert_eq!(rt; second.tokens.len(), 2);
    assert_eq!(rt;
        (second.next, second.next_line, second.parens, second.blank),
        (20, 4, true, false)
    );
    let line = line_tokens(Vec::new(alloc), text, 9, 2)?;
    assert_eq!(rt; (line.tokens.len(), line.next, line.parens), (1, 15, true));
    Ok(())
}

#[test]
fn tells_tokens_by_their_places(rt: HostRuntime) -> Result<(), Fail> {
    check_places(&rt, rt.alloc(), b"a\"b c\";d\n( e\\\"\n ) f\ng")
}
