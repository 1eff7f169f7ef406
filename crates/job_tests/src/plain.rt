//! A zone without workers: an answer as rows from cells that nobody shares, and the report of a job that has none.

use chunk_cells::PlainCells;
use chunk_usage::Usage;
use dns_name::Name;
use job_report::print_report;
use job_script::Job;
use master_file::{Zone, read_zone};
use qp_main::zone_items;
use std::alloc::Global;
use std::test::Fail;
use trie_read::CellReading;
use trie_write::build;
use zone_answer::{Answer, Kind, answer};

/// A zone with an alias.
const ZONE: &[u8] =
    b"$TTL 300\n@ SOA ns hostmaster 1 3600 600 86400 60\n@ NS ns\nns A 192.0.2.1\nwww CNAME ns\n";

/// The addresses of a name, by way of aliases.
fn addresses(alloc: Global, zone: Zone, origin: &Name, name: &Name) -> Result<Answer, Fail> {
    let items = zone_items(alloc, zone)?;
    let mut cells = PlainCells::new(alloc, 16)?;
    let mut usage = Usage::new(alloc, 16, 2)?;
    let root = build(&mut cells, &mut usage, &items)?;
    let mut version = CellReading::new(cells, root, 0);
    Ok(answer(alloc, &mut version, origin, name, 1)?)
}

/// The name that a text says, under the root.
fn named(text: &[u8]) -> Result<Name, Fail> {
    Ok(Name::read(text, &Name::root())?)
}

// The alias, and the address that it leads to.
#[test]
fn an_answer_is_rows(rt: HostRuntime) -> Result<(), Fail> {
    let origin = named(b"example.")?;
    let zone = read_zone(rt.alloc(), ZONE, &origin)?;
    let answer = addresses(rt.alloc(), zone, &origin, &named(b"www.example.")?)?;
    assert!(rt; matches!(answer.kind(), Kind::Answered));
    assert!(rt;
        answer
            .rows()
            .as_slice()
            .iter()
            .map(|row| row.rtype)
            .eq([5, 1])
    );
    Ok(())
}

#[test]
fn a_job_without_workers_is_its_last_line(rt: HostRuntime) -> Result<(), Fail> {
    let zone = read_zone(rt.alloc(), ZONE, &named(b"example.")?)?;
    let job = Job {
        workers: Vec::new(rt.alloc()),
    };
    let names = zone.len() as u64;
    let report = print_report(rt.alloc(), &zone, &job, Vec::new(rt.alloc()), 0, names)?;
    assert_eq!(rt; report.last.as_slice(), b"end v0 names 3\n".as_slice());
    Ok(())
}
