//! Lines that end otherwise than others, or hold what no word does.

use crate::sessions::{Calls, lived};
use std::test::Fail;

// Lines with a carriage return before the line feed; an octet 0 in a word, in a comment and in a transaction; and a form feed.
#[test]
fn odd_lines(rt: HostRuntime) -> Result<(), Fail> {
    let input =
        b"$TTL 300\r\n@ SOA ns hostmaster 1 3600 600 86400 60\r\n@ NS ns\r\nns A 192.0.2.1\r\n%%\r\n\
        get ns A\r\n\r\n\0\nget ns A ; \0\nwrite\r\nadd www 300 A 192.0.2.7\r\n\0\r\ncommit\r\nget www A\r\nstat\x0c\nget ns A\r";
    let due =
        b"live v0 names 2\n1.1 v0 ANSWER 1\nns.example. 300 IN A 192.0.2.1\nrefused line 8 BadCommand\n\
        1.2 v0 ANSWER 1\nns.example. 300 IN A 192.0.2.1\nrefused line 12 BadCommand\n1.3 v0 REFUSED line\n1.4 v0 NXDOMAIN\n\
        refused line 15 BadCommand\nrefused line 16 BadType\nend v0 names 2\n";
    for most in [1, 2, 50, 4096] {
        let found = lived(&rt, rt.alloc(), input, Calls::of(most), Calls::of(most))?;
        assert_eq!(rt; found.status, 1);
        assert_eq!(rt; found.written.as_slice(), due.as_slice());
    }
    Ok(())
}
