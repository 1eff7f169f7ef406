//! Zones and their dumps, which say the same zones again.

use crate::written::dumped;
use std::alloc::Global;
use std::process::Abort;
use std::test::Fail;
use zone_dump::Style;

// A zone of an origin, and its dumps in both styles.
#[derive(Drop)]
struct Case {
    text: &'static [u8],
    origin: &'static [u8],
    full: &'static [u8],
    short: &'static [u8],
}

// The text and both dumps are dumped alike.
fn check(rt: &impl Abort, alloc: Global, case: &Case) -> Result<(), Fail> {
    for (text, style, want) in [
        (case.text, Style::Full, case.full),
        (case.text, Style::Short, case.short),
        (case.full, Style::Full, case.full),
        (case.full, Style::Short, case.short),
        (case.short, Style::Full, case.full),
        (case.short, Style::Short, case.short),
    ] {
        let (told, dump) = dumped(alloc, text, case.origin, style, 7, &[])?;
        assert!(rt; told.is_ok());
        assert_eq!(rt; dump.as_slice(), want);
    }
    Ok(())
}

const PLAIN: Case = Case {
    text: b"$TTL 300\n@ SOA ns hostmaster 1 3600 600 86400 60\n@ NS ns\nns A 192.0.2.1\n",
    origin: b"example.",
    full: b"example. 300 IN NS ns.example.\n\
        example. 300 IN SOA ns.example. hostmaster.example. 1 3600 600 86400 60\n\
        ns.example. 300 IN A 192.0.2.1\n",
    short: b"$ORIGIN example.\n$TTL 300\n@ IN NS ns\n\tIN SOA ns hostmaster 1 3600 600 86400 60\nns IN A 192.0.2.1\n",
};

// Labels that would be something else unescaped, or as another word, or that have a dot or a space in them; names outside
// the zone, other times to live, a wildcard, and data of a type that has no name.
const ODD: Case = Case {
    text: b"$TTL 300\n@ SOA ns hostmaster 1 2 3 4 5\n\\@ A 192.0.2.1\na\\.b A 192.0.2.2\n*.w A 192.0.2.3\n\
        300 CNAME in\nin 60 TXT \"x\"\na NS in.example.net.\na NS \\@\na NS @\nt TYPE65280 \\# 2 0aFF\n\\032 60 PTR .\n",
    origin: b"example.",
    full: b"example. 300 IN SOA ns.example. hostmaster.example. 1 2 3 4 5\n\
        \\032.example. 60 IN PTR .\n\
        300.example. 300 IN CNAME in.example.\n\
        \\@.example. 300 IN A 192.0.2.1\n\
        a.example. 300 IN NS \\@.example.\n\
        a.example. 300 IN NS in.example.net.\n\
        a.example. 300 IN NS example.\n\
        a\\.b.example. 300 IN A 192.0.2.2\n\
        in.example. 60 IN TXT \"x\"\n\
        t.example. 300 IN TYPE65280 \\# 2 0aff\n\
        *.w.example. 300 IN A 192.0.2.3\n",
    short: b"$ORIGIN example.\n$TTL 300\n\
        @ IN SOA ns hostmaster 1 2 3 4 5\n\
        \\032 60 IN PTR .\n\
        300 IN CNAME in\n\
        \\@ IN A 192.0.2.1\n\
        a IN NS \\@\n\
        \tIN NS in.example.net.\n\
        \tIN NS @\n\
        a\\.b IN A 192.0.2.2\n\
        in 60 IN TXT \"x\"\n\
        t IN TYPE65280 \\# 2 0aff\n\
        *.w IN A 192.0.2.3\n",
};

// The zone of examples/delegations.job.
const DELEGATIONS: Case = Case {
    text: b"$TTL 1h\n@ SOA ns hostmaster 1 1h 10m 1d 1m\n NS ns\nns A 192.0.2.1\n AAAA 2001:db8::1\nwww CNAME web\n\
        web A 192.0.2.80\n* TXT \"nobody of that name\"\n_sip._tcp SRV 0 5 5060 web\nshop NS ns.shop\n NS ns.example.net.\n\
        ns.shop A 192.0.2.53\n*.mail MX 10 mx.example.net.\n",
    origin: b"example.",
    full: b"example. 3600 IN NS ns.example.\n\
        example. 3600 IN SOA ns.example. hostmaster.example. 1 3600 600 86400 60\n\
        *.example. 3600 IN TXT \"nobody of that name\"\n\
        _sip._tcp.example. 3600 IN SRV 0 5 5060 web.example.\n\
        *.mail.example. 3600 IN MX 10 mx.example.net.\n\
        ns.example. 3600 IN A 192.0.2.1\n\
        ns.example. 3600 IN AAAA 2001:db8:0:0:0:0:0:1\n\
        shop.example. 3600 IN NS ns.shop.example.\n\
        shop.example. 3600 IN NS ns.example.net.\n\
        ns.shop.example. 3600 IN A 192.0.2.53\n\
        web.example. 3600 IN A 192.0.2.80\n\
        www.example. 3600 IN CNAME web.example.\n",
    short: b"$ORIGIN example.\n$TTL 3600\n\
        @ IN NS ns\n\
        \tIN SOA ns hostmaster 1 3600 600 86400 60\n\
        * IN TXT \"nobody of that name\"\n\
        _sip._tcp IN SRV 0 5 5060 web\n\
        *.mail IN MX 10 mx.example.net.\n\
        ns IN A 192.0.2.1\n\
        \tIN AAAA 2001:db8:0:0:0:0:0:1\n\
        shop IN NS ns.shop\n\
        \tIN NS ns.example.net.\n\
        ns.shop IN A 192.0.2.53\n\
        web IN A 192.0.2.80\n\
        www IN CNAME web\n",
};

// Relative names that look like a time to live, a class, a type, a directive, a wildcard or a comment, as owners and in
// data; a name outside the zone whose last label ends like the origin's; and no octets at all.
const WORDS: Case = Case {
    text: b"$TTL 300\n@ SOA @ in 1 2 3 4 5\n300 MX 10 a\n300 MX 20 300\nin A 192.0.2.1\na AAAA ::1\n* PTR *\n\
        \\$ttl A 192.0.2.2\n1h 60 NS ns.xexample.\n1h 60 NS a.b.\n\\;x TXT \"\\\"\\\\;\"\nx TYPE65280 \\# 0\n",
    origin: b"example.",
    full: b"example. 300 IN SOA example. in.example. 1 2 3 4 5\n\
        \\$ttl.example. 300 IN A 192.0.2.2\n\
        *.example. 300 IN PTR *.example.\n\
        1h.example. 60 IN NS a.b.\n\
        1h.example. 60 IN NS ns.xexample.\n\
        300.example. 300 IN MX 10 a.example.\n\
        300.example. 300 IN MX 20 300.example.\n\
        \\;x.example. 300 IN TXT \"\\\"\\\\;\"\n\
        a.example. 300 IN AAAA 0:0:0:0:0:0:0:1\n\
        in.example. 300 IN A 192.0.2.1\n\
        x.example. 300 IN TYPE65280 \\# 0\n",
    short: b"$ORIGIN example.\n$TTL 300\n\
        @ IN SOA @ in 1 2 3 4 5\n\
        \\$ttl IN A 192.0.2.2\n\
        * IN PTR *\n\
        1h 60 IN NS a.b.\n\
        \t60 IN NS ns.xexample.\n\
        300 IN MX 10 a\n\
        \tIN MX 20 300\n\
        \\;x IN TXT \"\\\"\\\\;\"\n\
        a IN AAAA 0:0:0:0:0:0:0:1\n\
        in IN A 192.0.2.1\n\
        x IN TYPE65280 \\# 0\n",
};

// The zone of RFC 4592, section 2.2.1.
const WILDCARDS: Case = Case {
    text: b"$TTL 3600\n@ SOA ns.example.com. hostmaster 1 3600 600 86400 60\n@ NS ns.example.com.\n@ NS ns.example.net.\n\
        * TXT \"this is a wildcard\"\n* MX 10 host1\nsub.* TXT \"this is not a wildcard\"\nhost1 A 192.0.2.1\n\
        _ssh._tcp.host1 SRV 0 0 22 host1\n_ssh._tcp.host2 SRV 0 0 22 host2\nsubdel NS ns.example.com.\nsubdel NS ns.example.net.\n",
    origin: b"example.",
    full: b"example. 3600 IN NS ns.example.com.\n\
        example. 3600 IN NS ns.example.net.\n\
        example. 3600 IN SOA ns.example.com. hostmaster.example. 1 3600 600 86400 60\n\
        *.example. 3600 IN MX 10 host1.example.\n\
        *.example. 3600 IN TXT \"this is a wildcard\"\n\
        sub.*.example. 3600 IN TXT \"this is not a wildcard\"\n\
        host1.example. 3600 IN A 192.0.2.1\n\
        _ssh._tcp.host1.example. 3600 IN SRV 0 0 22 host1.example.\n\
        _ssh._tcp.host2.example. 3600 IN SRV 0 0 22 host2.example.\n\
        subdel.example. 3600 IN NS ns.example.com.\n\
        subdel.example. 3600 IN NS ns.example.net.\n",
    short: b"$ORIGIN example.\n$TTL 3600\n\
        @ IN NS ns.example.com.\n\
        \tIN NS ns.example.net.\n\
        \tIN SOA ns.example.com. hostmaster 1 3600 600 86400 60\n\
        * IN MX 10 host1\n\
        \tIN TXT \"this is a wildcard\"\n\
        sub.* IN TXT \"this is not a wildcard\"\n\
        host1 IN A 192.0.2.1\n\
        _ssh._tcp.host1 IN SRV 0 0 22 host1\n\
        _ssh._tcp.host2 IN SRV 0 0 22 host2\n\
        subdel IN NS ns.example.com.\n\
        \tIN NS ns.example.net.\n",
};

const ROOT: Case = Case {
    text: b"$TTL 60\n@ SOA ns hm 1 2 3 4 5\ncom NS ns.com\na.com 5 A 192.0.2.9\n",
    origin: b".",
    full: b". 60 IN SOA ns. hm. 1 2 3 4 5\ncom. 60 IN NS ns.com.\na.com. 5 IN A 192.0.2.9\n",
    short: b"$ORIGIN .\n$TTL 60\n@ IN SOA ns hm 1 2 3 4 5\ncom IN NS ns.com\na.com 5 IN A 192.0.2.9\n",
};

#[test]
fn zones_are_dumped(rt: HostRuntime) -> Result<(), Fail> {
    for case in [PLAIN, ODD, DELEGATIONS, WORDS, WILDCARDS, ROOT] {
        check(&rt, rt.alloc(), &case)?;
    }
    Ok(())
}

#[test]
fn records_are_counted(rt: HostRuntime) -> Result<(), Fail> {
    let (told, _dump) = dumped(rt.alloc(), ODD.text, ODD.origin, Style::Full, 100, &[])?;
    assert_eq!(rt; told, Ok(11));
    Ok(())
}
