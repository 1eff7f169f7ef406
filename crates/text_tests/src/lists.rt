//! Lists of zones that are read, and such as are refused; more of these stand in `zones.cases` of `conformance`. A proof computes
//! with a text that it sees, so texts are passed to functions.
use std::alloc::Global;
use std::test::Fail;
use zone_list::read_zones;
use zone_model::ZoneKind;
use zone_model::ZoneKind::{
    BadName, BadToken, Memory, Repeated, SoaRule, TooManyZones, UnknownType,
};
use zone_text::{ZoneRefusal, refuse};

// How many labels the origin of each zone of a text has, and how many names own records.
fn sizes(alloc: Global, text: &[u8]) -> Result<Vec<(u8, usize)>, ZoneRefusal> {
    if text.len() > 10_000 {
        return Err(refuse(0, Memory));
    }
    let zones = read_zones(alloc, text)?;
    Ok(
        zones
            .iter()
            .map(|zone| (zone.origin().labels(), zone.len()))
            .collect(alloc)?,
    )
}

// Why it is refused, and at which line.
fn refusal(alloc: Global, text: &[u8]) -> Option<(u32, ZoneKind)> {
    match sizes(alloc, text) {
        Err(refusal) => Some((refusal.line, refusal.kind)),
        Ok(_) => None,
    }
}

const TWO: &[u8] =
    b"%zone example.\n$TTL 300\n@ SOA ns hostmaster 1 3600 600 86400 60\n@ NS ns\nns A 192.0.2.1\n%zone sub.example.\n\
    $TTL 60\n@ SOA ns h 1 2 3 4 5\nwww A 192.0.2.8\n";

// The same with carriage returns before the feeds, a tab, comments, parentheses, origins without a dot, and no feed at the end.
const TWO_DRESSED: &[u8] =
    b"%zone\t(Example ) ; the first\r\n$TTL 300\r\n@ SOA ns hostmaster 1 3600 600 86400 60\r\n@ NS ns\r\nns A 192.0.2.1\r\n\
    %zone sub.example ; \r\n$TTL 60\r\n@ SOA ns h 1 2 3 4 5\r\nwww A 192.0.2.8";

#[test]
fn zones_are_read_in_order(rt: HostRuntime) -> Result<(), Fail> {
    for text in [TWO, TWO_DRESSED] {
        assert_eq!(rt;
            sizes(rt.alloc(), text)?.as_slice(),
            [(1, 2), (2, 2)].as_slice()
        );
    }
    Ok(())
}

#[test]
fn sixteen_zones_are_taken(rt: HostRuntime) -> Result<(), Fail> {
    let mut zones = String::new(rt.alloc());
    for letter in "abcdefghijklmnop".chars() {
        write!(zones, "%zone {letter}.\n@ 1 SOA . . 1 1 1 1 1\n")?;
    }
    for (last, kind) in [
        ("%zone q.\n", TooManyZones),
        ("%zone a.\n", Repeated),
        ("%zone a..\n", BadName),
        ("x\n%zone a.\n", UnknownType),
    ] {
        let text = format!(in rt.alloc(); "{zones}{last}")?;
        assert_eq!(rt; refusal(rt.alloc(), text.as_bytes()), Some((33, kind)));
    }
    Ok(())
}

// Texts with the line of what is refused, and why.
const REFUSED: &[(&[u8], u32, ZoneKind)] = &[
    (b"; \n%zone a.\n", 1, BadToken),
    (b"%ZONE a.\n", 1, BadToken),
    (b"%zone \"a.\"\n", 1, BadName),
    (b"%zone a.", 2, SoaRule),
    (b"%zone a.\n@ 1 SOA . . 1 1 1 1 1\n%zone\n", 3, UnknownType),
];

#[test]
fn the_first_refusal_is_told(rt: HostRuntime) {
    for (text, line, kind) in REFUSED {
        assert_eq!(rt; refusal(rt.alloc(), text), Some((*line, *kind)));
    }
}
