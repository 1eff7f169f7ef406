//! What the tests serve.
use dns_name::Name;
use std::alloc::Global;
use zone_server::LoadedZone;

/// The number of the type A (RFC 1035, section 3.2.2).
pub(crate) const A: u16 = 1;

/// A zone of an origin, with one host.
const TEXT: &str =
    "@ 300 SOA ns hostmaster 1 3600 600 86400 60\n@ 300 NS ns\nns 300 A 192.0.2.1\nwww 300 A 192.0.2.2\n";

/// The name that a text says.
pub(crate) fn name(text: &str) -> Option<Name> {
    Name::read(text.as_bytes(), &Name::root()).ok()
}

/// The zone of an origin.
pub(crate) fn zone(alloc: Global, origin: &Name) -> Option<LoadedZone> {
    LoadedZone::read(alloc, origin, TEXT.as_bytes()).ok()
}
