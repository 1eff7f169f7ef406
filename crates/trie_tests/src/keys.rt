//! Keys of names, against the vectors of the layout. A proof computes with a text that it sees, so texts are passed to functions.

use crate::tries::comes_before;
use dns_name::Name;
use shift_key::{Difference, Key};

fn key_of(text: &[u8]) -> Option<Key> {
    let name = Name::read(text, &Name::root()).ok()?;
    Some(Key::of(&name))
}

// Whether the positions of a key are these.
fn has_positions(key: &Key, positions: &[u8]) -> bool {
    for place in 0..512 {
        if key.at(place) != positions.get(place as usize).copied().unwrap_or(0) {
            return false;
        }
    }
    key.len() as usize == positions.len()
}

// Whether the positions of a name's key are these, and the name comes back.
fn has_key(text: &[u8], positions: &[u8]) -> bool {
    let Ok(name) = Name::read(text, &Name::root()) else {
        return false;
    };
    let key = Key::of(&name);
    has_positions(&key, positions) && key.to_name() == name
}

fn all_have_keys(rows: &[(&[u8], &[u8])]) -> bool {
    rows.iter()
        .all(|(text, positions)| has_key(text, positions))
}

const KEYS: &[(&[u8], &[u8])] = &[
    (b".", &[]),
    (b"ns.example.", &[21, 40, 17, 29, 32, 28, 21, 0, 30, 35, 0]),
    (
        b"\\001.z.example.",
        &[21, 40, 17, 29, 32, 28, 21, 0, 42, 0, 1, 2, 0],
    ),
    (
        b"*.z.example.",
        &[21, 40, 17, 29, 32, 28, 21, 0, 42, 0, 1, 43, 0],
    ),
    (
        b"\\200.z.example.",
        &[21, 40, 17, 29, 32, 28, 21, 0, 42, 0, 44, 32, 0],
    ),
];

#[test]
fn names_have_their_keys(rt: HostRuntime) {
    assert!(rt; all_have_keys(KEYS));
}

// Whether octets begin with a name that has a key so long, and comes back.
fn has_key_of_len(wire: &[u8], len: u16) -> bool {
    let Some(name) = Name::from_wire(wire) else {
        return false;
    };
    let key = Key::of(&name);
    key.len() == len && key.to_name() == name
}

// Labels of 63, 63, 63 and 61 octets FF.
#[test]
fn the_longest_key(rt: HostRuntime) {
    let mut wire = [0xff; 255];
    wire[0] = 63;
    wire[64] = 63;
    wire[128] = 63;
    wire[192] = 61;
    wire[254] = 0;
    assert!(rt; has_key_of_len(&wire, 504));
}

// Whether texts are names, each of which comes before the next, and its key before the next one's.
fn rise(texts: &[&[u8]]) -> bool {
    let mut before = Name::root();
    for text in texts {
        let Ok(name) = Name::read(text, &Name::root()) else {
            return false;
        };
        let key = Key::of(&name);
        if key.first_difference(&key).is_some() || !comes_before(&Key::of(&before), &key) {
            return false;
        }
        if name != name || before >= name {
            return false;
        }
        before = name;
    }
    true
}

// The example of RFC 4034, section 6.1.
const RISING: &[&[u8]] = &[
    b"example.",
    b"a.example.",
    b"yljkjljk.a.example.",
    b"Z.a.example.",
    b"zABC.a.EXAMPLE.",
    b"z.example.",
    b"\\001.z.example.",
    b"*.z.example.",
    b"\\200.z.example.",
];

#[test]
fn names_and_their_keys_stand_in_canonical_order(rt: HostRuntime) {
    assert!(rt; rise(RISING));
}

// Whether the key of a name leads those items that are marked, and no other.
fn leads_just(text: &[u8], items: &[(&[u8], bool)]) -> bool {
    let Some(key) = key_of(text) else {
        return false;
    };
    items.iter().all(|(item, want)| key.leads(item) == *want)
}

const ITEMS: &[(&[u8], bool)] = &[
    (b"\x02ns\x07example\0", true),
    (b"\x02ns\x07example\0behind", true),
    (b"\x02nS\x07example\0", false),
    (b"\x02ns\x07example", false),
    (b"\x07example\0", false),
    (b"", false),
];

#[test]
fn a_key_leads_items_of_its_name(rt: HostRuntime) {
    assert!(rt; leads_just(b"ns.example.", ITEMS));
}

// Whether a name's key differs so from the name in front of an item.
fn differs(text: &[u8], item: &[u8], want: Option<Difference>) -> bool {
    let Some(key) = key_of(text) else {
        return false;
    };
    match Name::from_wire(item) {
        Some(other) => key.difference(other.wire()) == want,
        None => false,
    }
}

fn all_differ(rows: &[(&[u8], &[u8], Option<Difference>)]) -> bool {
    rows.iter()
        .all(|(text, item, want)| differs(text, item, *want))
}

fn at(place: u16, position: u8) -> Option<Difference> {
    Some(Difference { place, position })
}

// Whether a key that was another name's is a name's with these positions and this wire form.
fn is_set_anew(key: &mut Key, text: &[u8], positions: &[u8], wire: &[u8]) -> bool {
    let Ok(name) = Name::read(text, &Name::root()) else {
        return false;
    };
    key.set(&name);
    has_positions(key, positions) && key.wire() == wire
}

fn is_exchanged(text: &[u8], by: &[u8], positions: &[u8], wire: &[u8]) -> bool {
    let Some(mut key) = key_of(text) else {
        return false;
    };
    is_set_anew(&mut key, by, positions, wire)
}

#[test]
fn keys_differ_from_names(rt: HostRuntime) {
    let rows: [(&[u8], &[u8], Option<Difference>); 6] = [
        (b"ns.example.", b"\x02ns\x07example\0", None),
        (b"ns.example.", b"\x02nt\x07example\0", at(9, 36)),
        (b"ns.example.", b"\x07example\0", at(8, 0)),
        (b"example.", b"\x02ns\x07example\0", at(8, 30)),
        (b"*.z.", b"\x01\x01\x01z\0", at(3, 2)),
        (b".", b"\0", None),
    ];
    assert!(rt; all_differ(&rows));
    assert!(rt; is_exchanged(b"a.very.long.name.example.", b"z.", &[42, 0], b"\x01z\0"));
}
