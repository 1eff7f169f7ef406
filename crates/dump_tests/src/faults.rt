//! What a sink has whose calls fail.

use crate::written::dumped;
use std::alloc::{AllocError, Global};
use std::test::Fail;
use zone_dump::{DumpRefusal, Style};

const TEXT: &[u8] = b"$TTL 60\n@ SOA ns hm 1 2 3 4 5\nns A 192.0.2.9\n";

const DUMP: &[u8] = b"a. 60 IN SOA ns.a. hm.a. 1 2 3 4 5\nns.a. 60 IN A 192.0.2.9\n";

// The dump has 59 octets, and so six calls, each of which takes ten.
#[test]
fn a_failing_call_leaves_a_front(rt: HostRuntime) -> Result<(), Fail> {
    for before in 0..6 {
        let fails = [before as u64 + 1];
        let (told, held) = dumped(rt.alloc(), TEXT, b"a.", Style::Full, 10, &fails)?;
        assert_eq!(rt; told, Err(DumpRefusal::Fault));
        assert_eq!(rt; Some(held.as_slice()), DUMP.get(..10 * before));
    }
    let (told, _held) = dumped(rt.alloc(), TEXT, b"a.", Style::Full, 10, &[7])?;
    assert_eq!(rt; told, Ok(2));
    Ok(())
}

// A head, and a line for each of 26 names: the name's letter, a middle, and ten strings of 200 times that letter.
fn long_text(alloc: Global, head: &str, middle: &str) -> Result<String, AllocError> {
    let mut text = String::from_str(alloc, head)?;
    for letter in "abcdefghijklmnopqrstuvwxyz".chars() {
        let octets = format!(in alloc; "{letter}")?.repeat(alloc, 200)?;
        let strings = format!(in alloc; " \"{octets}\"")?.repeat(alloc, 10)?;
        writeln!(text, "{letter}{middle}{strings}")?;
    }
    Ok(text)
}

// The dump has 53,205 octets, more than what is gathered before it is written, and so at least three calls.
#[test]
fn a_failing_call_leaves_a_front_of_a_long_dump(rt: HostRuntime) -> Result<(), Fail> {
    let alloc = rt.alloc();
    let text = long_text(alloc, "$TTL 60\n@ SOA ns hm 1 2 3 4 5\n", " TXT")?;
    let head = "a. 60 IN SOA ns.a. hm.a. 1 2 3 4 5\n";
    let want = long_text(alloc, head, ".a. 60 IN TXT")?;
    let (told, held) = dumped(alloc, text.as_bytes(), b"a.", Style::Full, 20_000, &[])?;
    assert_eq!(rt; told, Ok(27));
    assert_eq!(rt; held.as_slice(), want.as_bytes());
    for fails in 1..4 {
        let (told, held) = dumped(alloc, text.as_bytes(), b"a.", Style::Full, 20_000, &[fails])?;
        assert_eq!(rt; told, Err(DumpRefusal::Fault));
        assert!(rt; held.len() < want.len() && want.as_bytes().starts_with(&held));
    }
    Ok(())
}
