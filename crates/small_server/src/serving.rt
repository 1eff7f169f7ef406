//! The server from its opening to its end.
ghost use Rattle.std.specs.Prelude.{◌≡◌};

use crate::failure::Failure;
use crate::name;
use outer_io::MemSink;
use std::alloc::{AllocError, Global};
use std::sync::Wait;
use std::thread::{Threads, join};
use zone_model::Style;
use zone_server::{Answered, Home, Opening, Reply, Server, ServerPass as Pass, Update};

/// The number of the type A (RFC 1035, section 3.2.2).
const A: u16 = 1;

/// A server, and what it needs of its surroundings.
#[derive(Drop)]
struct Small<'a, R, H: Home> {
    rt: &'a R,
    alloc: Global,
    server: &'a Server<H>,
}

/// The passes of three threads.
#[derive(Drop)]
struct Passes<H: Home> {
    one: Pass<H>,
    two: Pass<H>,
    writer: Pass<H>,
}

// What both threads gave, or why one failed.
fn both<A: Drop, B: Drop>(
    results: (Result<A, Failure>, Result<B, Failure>),
) -> Result<(A, B), Failure> {
    let (one, two) = results;
    Ok((one?, two?))
}

// What was done next is told behind a text.
fn add(text: &mut String, next: Result<String, Failure>) -> Result<(), Failure> {
    text.push_str(&next?)?;
    Ok(())
}

// How many records a reply has.
fn records(reply: &Reply<Answered>) -> usize {
    match &reply.from {
        Some(from) => from.told.rows.as_slice().len(),
        None => 0,
    }
}

// A reply in short.
fn told(alloc: Global, host: &str, reply: &Reply<Answered>) -> Result<String, AllocError> {
    let (table, records) = (reply.table, records(reply));
    match &reply.from {
        None => format!(in alloc; "{host}: table v{table}, no zone\n"),
        Some(from) => format!(in alloc;
            "{host}: table v{table}, zone {} v{}, {:?} {records}\n",
            from.zone, from.version, from.told.kind
        ),
    }
}

// An address is put into the upper zone.
fn addition(alloc: Global) -> Result<Update, Failure> {
    let mut update = Update::new(alloc, &name("example.")?);
    let address = Vec::from_slice(alloc, &[192, 0, 2, 7])?;
    update.add(&name("new.example.")?, A, 300, address)?;
    Ok(update)
}

// A pass for each thread.
fn three<H: Home>(mut passes: Vec<Pass<H>>) -> Result<Passes<H>, Failure> {
    let one = passes.pop().ok_or(Failure::Passes)?;
    let two = passes.pop().ok_or(Failure::Passes)?;
    let writer = passes.pop().ok_or(Failure::Passes)?;
    Ok(Passes { one, two, writer })
}

impl<R: Threads + Wait + Sync, H: Home + Send + Sync> Small<'_, R, H> {
    // Asks for the addresses of a host.
    fn ask(&self, pass: &mut Pass<H>, host: &str) -> Result<Reply<Answered>, Failure> {
        let host = name(host)?;
        Ok(self.server.ask(self.alloc, pass, &host, A)?)
    }

    // The same, told in short.
    fn answer(&self, pass: &mut Pass<H>, host: &str) -> Result<String, Failure> {
        let reply = self.ask(pass, host)?;
        Ok(told(self.alloc, host, &reply)?)
    }

    // What one pass has seen, another one is to see too.
    fn tell(&self, from: &mut Pass<H>, to: &mut Pass<H>) -> Result<(), Failure> {
        let note = self.server.note(self.alloc, from)?;
        self.server.learn(to, note);
        Ok(())
    }

    // The thread that changes makes an update of the upper zone, and detaches the lower one: both versions.
    fn change(&self, pass: &mut Pass<H>) -> Result<(u64, u64), Failure> {
        let update = addition(self.alloc)?;
        let version = self.server.change(self.rt, self.alloc, pass, &update)?;
        let lower = name("sub.example.")?;
        Ok((version, self.server.detach(self.rt, pass, &lower)?.version))
    }

    // Two threads answer beside each other.
    fn answer_both(
        &self,
        one: &mut Pass<H>,
        two: &mut Pass<H>,
        host: &'static str,
    ) -> Result<String, Failure> {
        let here = move || self.answer(one, host);
        let there = move || self.answer(two, "www.sub.example.");
        let (here, there) = both(join(self.rt, here, there))?;
        Ok(format!(in self.alloc; "{here}{there}")?)
    }

    // One thread changes, and one asks.
    fn change_beside(&self, writer: &mut Pass<H>, pass: &mut Pass<H>) -> Result<String, Failure> {
        let changes = move || self.change(writer);
        let asks = move || self.ask(pass, "www.example.");
        let ((zone, table), reply) = both(join(self.rt, changes, asks))?;
        let count = records(&reply);
        Ok(format!(in self.alloc;
            "v{zone} of example. was made, and v{table} of the table\nwhile these were made, www.example. had {count} record\n"
        )?)
    }

    // Holds a version of the upper zone while one thread changes it and one asks. It is written down then.
    fn hold(&self, passes: &mut Passes<H>) -> Result<String, Failure> {
        let (alloc, server) = (self.alloc, self.server);
        let Passes { one, two, writer } = passes;
        let origin = name("example.")?;
        let mut sink = MemSink::new(alloc, 1024, 1024, Vec::new(alloc))?;
        let work = move || self.change_beside(writer, two);
        let (done, held) = server.transfer_after(alloc, one, &origin, Style::Full, &mut sink, work);
        let (made, held) = both((done, held.map_err(Failure::Transfer)))?;
        let version = held.version;
        let text = String::from_utf8_lossy(alloc, sink.held().unwrap_or(&[]))?;
        Ok(format!(in alloc; "{made}held for a transfer, v{version}:\n{text}")?)
    }

    // Both threads that answer learn of what was made. They answer then.
    fn answer_again(&self, passes: &mut Passes<H>) -> Result<String, Failure> {
        let Passes { one, two, writer } = passes;
        self.tell(writer, one)?;
        self.tell(writer, two)?;
        self.answer_both(one, two, "new.example.")
    }

    // All of it, in turn.
    fn serve(&self, passes: &mut Passes<H>) -> Result<String, Failure> {
        let mut text = self.answer_both(&mut passes.one, &mut passes.two, "www.example.")?;
        add(&mut text, self.hold(passes))?;
        add(&mut text, self.answer_again(passes))?;
        Ok(text)
    }
}

/// Opens zones for three threads, and serves them. `H` names them, and their tables.
pub fn open_and_serve<R: Threads + Wait + Sync, H: Home + Send + Sync>(
    rt: &R,
    alloc: Global,
    opening: Opening,
) -> Result<String, Failure>
    requires tables { H.tables ≡ opening.tables }
    requires zones { H.zones ≡ opening.zones }
{
    let (server, passes) = opening.open::<H>(alloc)?;
    let mut passes = three(passes)?;
    let small = Small {
        rt,
        alloc,
        server: &server,
    };
    small.serve(&mut passes)
}
