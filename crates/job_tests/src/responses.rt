//! Whole responses, and what is printed of them. What is due was written down from RFC 1034, section 4.3.2, RFC 2181, sections 5.4.1
//! and 10.3, RFC 2308, sections 2 to 5, RFC 4592, RFC 6604 and RFC 9471. A proof computes with a text that it sees, so texts are passed
//! to functions.

use chunk_cells::PlainCells;
use chunk_usage::Usage;
use dns_name::Name;
use job_commands::{WorkerScratch, reply_text};
use job_model::Question;
use master_file::{Zone, read_zone};
use qp_main::zone_items;
use std::alloc::Global;
use std::test::Fail;
use trie_read::CellReading;
use trie_write::build;

/// A question for a name and a type, and what is printed of the response.
type Case = (&'static [u8], u16, &'static [u8]);

/// Delegations with servers below the cut, below another one, beside both, and elsewhere; aliases into them; mail and services; wildcards.
const ZONE: &[u8] = b"$TTL 3600
@ SOA ns1 hostmaster 1 7200 900 1209600 300
@ NS ns1
@ NS ns2.other.
@ MX 10 mail
@ MX 20 mail
@ MX 30 mx.other.
ns1 A 192.0.2.1
ns1 AAAA 2001:db8::1
mail A 192.0.2.25
www A 192.0.2.80
alias CNAME ns1
_sip._udp SRV 0 0 5060 ns1
sub NS ns.sub
sub NS ns1
sub NS ns.del
sub NS ns2.other.
ns.sub A 192.0.2.53
ns.sub AAAA 2001:db8::53
del NS ns.del
ns.del A 192.0.2.54
into CNAME host.sub
away CNAME www.other.
lost CNAME nobody
bare CNAME mail
*.w NS ns1
*.w MX 10 mail
*.w A 192.0.2.99
v MX 10 x.w
m MX 10 alias
a.b TXT \"below\"
";

/// A zone whose SOA is kept shorter than its minimum says.
const SHORT: &[u8] = b"@ 60 SOA ns hostmaster 1 7200 900 1209600 300
@ 60 NS ns
ns 60 A 192.0.2.1
";

/// What is printed of the response to a question about the version that a zone's pairs are.
fn responded(
    alloc: Global,
    zone: Zone,
    origin: &Name,
    name: &[u8],
    rtype: u16,
) -> Result<Vec<u8>, Fail> {
    let items = zone_items(alloc, zone)?;
    let mut cells = PlainCells::new(alloc, 16)?;
    let mut usage = Usage::new(alloc, 16, 2)?;
    let root = build(&mut cells, &mut usage, &items)?;
    let mut version = CellReading::new(cells, root, 0);
    let question = Question::Respond(Name::read(name, origin)?, rtype);
    let mut room = WorkerScratch::new(alloc)?;
    let text = reply_text(alloc, origin, &mut version, &question, &mut room)?;
    let mut out = Vec::new(alloc);
    text.push_to(&mut out)?;
    Ok(out)
}

/// How many questions about a zone are answered as is due.
fn as_due(alloc: Global, zone: &[u8], cases: &[Case]) -> Result<usize, Fail> {
    let origin = Name::read(b"example.", &Name::root())?;
    let mut as_due = 0usize;
    for (name, rtype, due) in cases {
        if zone.len() > 10_000 {
            return Ok(as_due);
        }
        let read = read_zone(alloc, zone, &origin)?;
        if responded(alloc, read, &origin, name, *rtype)?.as_slice() == *due {
            as_due = as_due.saturating_add(1);
        }
    }
    Ok(as_due)
}

/// Records behind their names: each server's addresses once, whether the name is below a cut or not, and none of what is elsewhere.
const ANSWERS: [Case; 6] = [
    (
        b"@",
        2,
        b"ask NOERROR aa 2 0 2
example. 3600 IN NS ns1.example.
example. 3600 IN NS ns2.other.
ns1.example. 3600 IN A 192.0.2.1
ns1.example. 3600 IN AAAA 2001:db8:0:0:0:0:0:1
",
    ),
    (
        b"@",
        15,
        b"ask NOERROR aa 3 0 1
example. 3600 IN MX 10 mail.example.
example. 3600 IN MX 20 mail.example.
example. 3600 IN MX 30 mx.other.
mail.example. 3600 IN A 192.0.2.25
",
    ),
    (
        b"_sip._udp",
        33,
        b"ask NOERROR aa 1 0 2
_sip._udp.example. 3600 IN SRV 0 0 5060 ns1.example.
ns1.example. 3600 IN A 192.0.2.1
ns1.example. 3600 IN AAAA 2001:db8:0:0:0:0:0:1
",
    ),
    (
        b"www",
        1,
        b"ask NOERROR aa 1 0 0
www.example. 3600 IN A 192.0.2.80
",
    ),
    (
        b"@",
        6,
        b"ask NOERROR aa 1 0 0
example. 3600 IN SOA ns1.example. hostmaster.example. 1 7200 900 1209600 300
",
    ),
    (b"www.other.", 1, b"ask REFUSED - 0 0 0\n"),
];

/// Aliases: to an address, which is then in the answer and nowhere else; elsewhere; to nobody; to a name without the type.
const ALIASES: [Case; 4] = [
    (
        b"alias",
        1,
        b"ask NOERROR aa 2 0 0
alias.example. 3600 IN CNAME ns1.example.
ns1.example. 3600 IN A 192.0.2.1
",
    ),
    (
        b"away",
        1,
        b"ask NOERROR aa 1 0 0
away.example. 3600 IN CNAME www.other.
",
    ),
    (
        b"lost",
        1,
        b"ask NXDOMAIN aa 1 1 0
lost.example. 3600 IN CNAME nobody.example.
example. 300 IN SOA ns1.example. hostmaster.example. 1 7200 900 1209600 300
",
    ),
    (
        b"bare",
        28,
        b"ask NOERROR aa 1 1 0
bare.example. 3600 IN CNAME mail.example.
example. 300 IN SOA ns1.example. hostmaster.example. 1 7200 900 1209600 300
",
    ),
];

/// At a cut and below it, for any type, a referral with glue; behind an alias it is authoritative for the alias.
const REFERRALS: [Case; 6] = [
    (
        b"host.sub",
        1,
        b"ask NOERROR - 0 4 5
sub.example. 3600 IN NS ns.del.example.
sub.example. 3600 IN NS ns.sub.example.
sub.example. 3600 IN NS ns1.example.
sub.example. 3600 IN NS ns2.other.
ns.del.example. 3600 IN A 192.0.2.54
ns.sub.example. 3600 IN A 192.0.2.53
ns.sub.example. 3600 IN AAAA 2001:db8:0:0:0:0:0:53
ns1.example. 3600 IN A 192.0.2.1
ns1.example. 3600 IN AAAA 2001:db8:0:0:0:0:0:1
",
    ),
    (
        b"into",
        1,
        b"ask NOERROR aa 1 4 5
into.example. 3600 IN CNAME host.sub.example.
sub.example. 3600 IN NS ns.del.example.
sub.example. 3600 IN NS ns.sub.example.
sub.example. 3600 IN NS ns1.example.
sub.example. 3600 IN NS ns2.other.
ns.del.example. 3600 IN A 192.0.2.54
ns.sub.example. 3600 IN A 192.0.2.53
ns.sub.example. 3600 IN AAAA 2001:db8:0:0:0:0:0:53
ns1.example. 3600 IN A 192.0.2.1
ns1.example. 3600 IN AAAA 2001:db8:0:0:0:0:0:1
",
    ),
    (
        b"del",
        2,
        b"ask NOERROR - 0 1 1
del.example. 3600 IN NS ns.del.example.
ns.del.example. 3600 IN A 192.0.2.54
",
    ),
    (
        b"ns.del",
        1,
        b"ask NOERROR - 0 1 1
del.example. 3600 IN NS ns.del.example.
ns.del.example. 3600 IN A 192.0.2.54
",
    ),
    (
        b"nobody.del",
        16,
        b"ask NOERROR - 0 1 1
del.example. 3600 IN NS ns.del.example.
ns.del.example. 3600 IN A 192.0.2.54
",
    ),
    (
        b"del",
        43,
        b"ask NOERROR - 0 1 1
del.example. 3600 IN NS ns.del.example.
ns.del.example. 3600 IN A 192.0.2.54
",
    ),
];

/// Wildcards give their records to who is asked for, NS records too. No wildcard answers for a name that records name, and no alias of it
/// is followed.
const WILDCARDS: [Case; 5] = [
    (
        b"x.w",
        2,
        b"ask NOERROR aa 1 0 2
x.w.example. 3600 IN NS ns1.example.
ns1.example. 3600 IN A 192.0.2.1
ns1.example. 3600 IN AAAA 2001:db8:0:0:0:0:0:1
",
    ),
    (
        b"x.y.w",
        15,
        b"ask NOERROR aa 1 0 1
x.y.w.example. 3600 IN MX 10 mail.example.
mail.example. 3600 IN A 192.0.2.25
",
    ),
    (
        b"x.w",
        16,
        b"ask NOERROR aa 0 1 0
example. 300 IN SOA ns1.example. hostmaster.example. 1 7200 900 1209600 300
",
    ),
    (
        b"v",
        15,
        b"ask NOERROR aa 1 0 0
v.example. 3600 IN MX 10 x.w.example.
",
    ),
    (
        b"m",
        15,
        b"ask NOERROR aa 1 0 0
m.example. 3600 IN MX 10 alias.example.
",
    ),
];

/// Nobody, no such type, and a name that is there for what is under it: the SOA has its minimum for its time, which is less.
const NEGATIVE: [Case; 3] = [
    (
        b"nobody",
        1,
        b"ask NXDOMAIN aa 0 1 0
example. 300 IN SOA ns1.example. hostmaster.example. 1 7200 900 1209600 300
",
    ),
    (
        b"www",
        28,
        b"ask NOERROR aa 0 1 0
example. 300 IN SOA ns1.example. hostmaster.example. 1 7200 900 1209600 300
",
    ),
    (
        b"b",
        16,
        b"ask NOERROR aa 0 1 0
example. 300 IN SOA ns1.example. hostmaster.example. 1 7200 900 1209600 300
",
    ),
];

/// The SOA's own time is less.
const SHORT_NEGATIVE: [Case; 1] = [(
    b"nobody",
    1,
    b"ask NXDOMAIN aa 0 1 0
example. 60 IN SOA ns.example. hostmaster.example. 1 7200 900 1209600 300
",
)];

#[test]
fn answers_have_addresses(rt: HostRuntime) -> Result<(), Fail> {
    assert_eq!(rt; as_due(rt.alloc(), ZONE, &ANSWERS)?, ANSWERS.len());
    Ok(())
}

#[test]
fn aliases_are_answers(rt: HostRuntime) -> Result<(), Fail> {
    assert_eq!(rt; as_due(rt.alloc(), ZONE, &ALIASES)?, ALIASES.len());
    Ok(())
}

#[test]
fn referrals_have_glue(rt: HostRuntime) -> Result<(), Fail> {
    assert_eq!(rt; as_due(rt.alloc(), ZONE, &REFERRALS)?, REFERRALS.len());
    Ok(())
}

#[test]
fn wildcards_answer_for_who_is_asked(rt: HostRuntime) -> Result<(), Fail> {
    assert_eq!(rt; as_due(rt.alloc(), ZONE, &WILDCARDS)?, WILDCARDS.len());
    Ok(())
}

#[test]
fn negative_answers_have_the_soa(rt: HostRuntime) -> Result<(), Fail> {
    assert_eq!(rt; as_due(rt.alloc(), ZONE, &NEGATIVE)?, NEGATIVE.len());
    assert_eq!(rt;
        as_due(rt.alloc(), SHORT, &SHORT_NEGATIVE)?,
        SHORT_NEGATIVE.len()
    );
    Ok(())
}
