//! Names read, printed and taken apart.
use dns_name::Name;
use std::alloc::{AllocError, Global};
use std::test::Fail;
use zone_model::NameRefusal;

// How a name is printed.
fn printed(alloc: Global, name: &Name) -> Result<Vec<u8>, AllocError> {
    let mut text = Vec::new(alloc);
    name.push_text(&mut text)?;
    Ok(text)
}

// Texts of names under example., and how the names are printed.
const PRINTED: &[(&[u8], &[u8])] = &[
    (b"@", b"example."),
    (b".", b"."),
    (b"NS", b"ns.example."),
    (b"a.B.", b"a.b."),
    (b"\\001.\\065", b"\\001.a.example."),
    (b"\\a\\.b\\046", b"a\\.b\\..example."),
    (b"a.@", b"a.\\@.example."),
    (b"\\@.\\200\x80", b"\\@.\\200\\128.example."),
];

#[test]
fn texts_are_read_and_printed(rt: HostRuntime) -> Result<(), Fail> {
    let origin = Name::read(b"Example.", &Name::root())?;
    for (text, want) in PRINTED {
        let name = Name::read(text, &origin)?;
        assert_eq!(rt; printed(rt.alloc(), &name)?.as_slice(), *want);
    }
    Ok(())
}

// How many octets the wire form of a text's name has.
fn wire_len(text: &[u8]) -> Result<usize, NameRefusal> {
    Ok(Name::read(text, &Name::root())?.wire().len())
}

// Texts, and the first fault of each.
const REFUSED: &[(&[u8], NameRefusal)] = &[
    (b"a..b", NameRefusal::EmptyLabel { at: 2 }),
    (
        b"aaaaaaaaaaaaaaaaaaaaaaaaaaaaaaaaaaaaaaaaaaaaaaaaaaaaaaaaaaaaaaaa",
        NameRefusal::LongLabel { at: 63 },
    ),
    (b"a\\256", NameRefusal::BadEscape { at: 1 }),
    (b"a\\2", NameRefusal::BadEscape { at: 1 }),
    (b"a\\", NameRefusal::BadEscape { at: 1 }),
    (b"a\\1.2..", NameRefusal::BadEscape { at: 1 }),
    (b"", NameRefusal::EmptyLabel { at: 0 }),
];

#[test]
fn the_first_fault_of_a_text_is_refused(rt: HostRuntime) -> Result<(), Fail> {
    for (text, refusal) in REFUSED {
        assert_eq!(rt; wire_len(text), Err(*refusal));
    }
    // Labels of the octets FF: three of 63, and one of so many.
    let full = "\\255".repeat(rt.alloc(), 63)?;
    for (last, want) in [
        (61, Ok(255)),
        (62, Err(NameRefusal::LongName { octets: 256 })),
    ] {
        let last = "\\255".repeat(rt.alloc(), last)?;
        let text = format!(in rt.alloc(); "{full}.{full}.{full}.{last}.")?;
        assert_eq!(rt; wire_len(text.as_bytes()), want);
    }
    Ok(())
}

// The name whose wire form octets begin with.
fn wired(octets: &[u8]) -> Option<Name> {
    Name::from_wire(octets)
}

#[test]
fn names_are_taken_apart(rt: HostRuntime) -> Result<(), Fail> {
    let octets = b"\x03www\x07example\0behind";
    let name = wired(octets).ok_or("no name")?;
    assert_eq!(rt; name.wire(), &octets[..13]);
    assert_eq!(rt; name.labels(), 2);
    assert!(rt; name.cut(name.labels()) == name);
    let above = name.parent().ok_or("no parent")?;
    assert_eq!(rt;
        printed(rt.alloc(), &above)?.as_slice(),
        b"example.".as_slice()
    );
    let wildcard = above.star().ok_or("no wildcard")?;
    assert_eq!(rt;
        printed(rt.alloc(), &wildcard)?.as_slice(),
        b"*.example.".as_slice()
    );
    assert!(rt; name.is_under(&above) && name.is_under(&name) && !above.is_under(&name));
    assert!(rt; Name::root().parent().is_none());
    assert!(rt; wired(b"\x03www").is_none() && wired(b"\x01A\0").is_none());
    Ok(())
}
