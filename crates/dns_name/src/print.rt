//! Names as they are printed.
ghost use Rattle.std.specs.Prelude.{◌≡◌, ◌<◌, ◌≤◌, ◌+◌, ◌++◌, ◌∷◌, [], ℕ, List, length, OnOk, OnErr};
ghost use Rattle.dns_name.specs.Prelude.{StartsWith, Labels, option_copied, octet_text, label_text, text_of, front_text};
ghost use Rattle.dns_name.specs.Prelude.{name_text, Spells, IsSpelled, SpellsInFront, HasFront, is_plain, flat_map, list_all};

use crate::Name;
use crate::wire::first;
use std::alloc::AllocError;

fn push_octet(out: &mut Vec<u8>, octet: u8) -> Result<(), AllocError>
    ensures ok { OnOk result (out.new.items ≡ out.old.items ++ octet_text octet) }
    ensures kept { StartsWith out.new.items out.old.items }
{
    match octet {
        b'"' | b'$' | b'(' | b')' | b'.' | b';' | b'@' | b'\\' => {
            out.push(b'\\')?;
            out.push(octet)?;
        }
        33..=126 => out.push(octet)?,
        _ => {
            out.push(b'\\')?;
            out.push(octet / 100 + 48)?;
            out.push(octet / 10 % 10 + 48)?;
            out.push(octet % 10 + 48)?;
        }
    }
    Ok(())
}

// Short words for the table below.
const F: bool = false;

const T: bool = true;

// Which octets stand for themselves.
static PLAIN: [bool; 256] = [
    F, F, F, F, F, F, F, F, F, F, F, F, F, F, F, F, F, F, F, F, F, F, F, F, F, F, F, F, F, F, F, F,
    F, T, F, T, F, T, T, T, F, F, T, T, T, T, F, T, T, T, T, T, T, T, T, T, T, T, T, F, T, T, T, T,
    F, T, T, T, T, T, T, T, T, T, T, T, T, T, T, T, T, T, T, T, T, T, T, T, T, T, T, T, F, T, T, T,
    T, T, T, T, T, T, T, T, T, T, T, T, T, T, T, T, T, T, T, T, T, T, T, T, T, T, T, T, T, T, T, F,
    F, F, F, F, F, F, F, F, F, F, F, F, F, F, F, F, F, F, F, F, F, F, F, F, F, F, F, F, F, F, F, F,
    F, F, F, F, F, F, F, F, F, F, F, F, F, F, F, F, F, F, F, F, F, F, F, F, F, F, F, F, F, F, F, F,
    F, F, F, F, F, F, F, F, F, F, F, F, F, F, F, F, F, F, F, F, F, F, F, F, F, F, F, F, F, F, F, F,
    F, F, F, F, F, F, F, F, F, F, F, F, F, F, F, F, F, F, F, F, F, F, F, F, F, F, F, F, F, F, F, F,
];

// Whether an octet stands for itself.
#[inline]
fn is_plain(octet: u8) -> bool
    ensures { result ≡ is_plain octet }
{
    PLAIN[octet as usize]
}

// Whether all octets stand for themselves.
fn all_plain(octets: &[u8]) -> bool
    ensures { result ≡ list_all is_plain octets.now }
{
    octets.iter().all(|octet| is_plain(*octet))
}

// Octets of which some may not stand for themselves.
fn push_each(out: &mut Vec<u8>, octets: &[u8]) -> Result<(), AllocError>
    ensures ok { OnOk result (out.new.items ≡ out.old.items ++ flat_map octet_text octets.now) }
    ensures kept { StartsWith out.new.items out.old.items }
{
    for octet in octets {
        push_octet(out, *octet)?;
    }
    Ok(())
}

#[tactic(auto, using(crate::proofs::PrintLemmas::plain_text))]
fn push_octets(out: &mut Vec<u8>, octets: &[u8]) -> Result<(), AllocError>
    ensures ok { OnOk result (out.new.items ≡ out.old.items ++ flat_map octet_text octets.now) }
    ensures kept { StartsWith out.new.items out.old.items }
{
    if all_plain(octets) {
        out.extend_from_slice(octets)
    } else {
        push_each(out, octets)
    }
}

fn push_label(out: &mut Vec<u8>, label: &[u8]) -> Result<(), AllocError>
    ensures ok { OnOk result (out.new.items ≡ out.old.items ++ label_text label.now) }
    ensures kept { StartsWith out.new.items out.old.items }
{
    push_octets(out, label)?;
    out.push(b'.')?;
    Ok(())
}

// The labels in front of the last octets, each with a dot behind it.
fn push_labels(out: &mut Vec<u8>, bytes: &[u8], last: usize) -> Result<(), AllocError>
    requires { HasFront bytes.now last }
    ensures ok { OnOk result ((front : Labels) → SpellsInFront bytes.now last front → out.new.items ≡ out.old.items ++ flat_map label_text front) }
    ensures kept { StartsWith out.new.items out.old.items }
{
    let mut rest = bytes;
    while rest.len() > last {
        let Some((label, after)) = first(rest) else {
            return Ok(());
        };
        push_label(out, label)?;
        rest = after;
    }
    Ok(())
}

// All labels; a dot for the root.
fn push_absolute(out: &mut Vec<u8>, bytes: &[u8]) -> Result<(), AllocError>
    requires { IsSpelled bytes.now }
    ensures ok { OnOk result ((labels : Labels) → Spells bytes.now labels → out.new.items ≡ out.old.items ++ text_of labels) }
    ensures kept { StartsWith out.new.items out.old.items }
{
    if bytes.len() == 1 {
        out.push(b'.')?;
        return Ok(());
    }
    push_labels(out, bytes, 1)
}

// The labels in front of an origin's octets, with dots between them; `@` where there are none.
fn push_front(out: &mut Vec<u8>, bytes: &[u8], last: usize) -> Result<(), AllocError>
    requires { HasFront bytes.now last }
    ensures ok { OnOk result ((front : Labels) → SpellsInFront bytes.now last front → out.new.items ≡ out.old.items ++ front_text front) }
    ensures kept { StartsWith out.new.items out.old.items }
{
    if bytes.len() == last {
        out.push(b'@')?;
        return Ok(());
    }
    push_labels(out, bytes, last)?;
    let _dot = out.pop();
    Ok(())
}

fn push_name(out: &mut Vec<u8>, name: &Name, origin: Option<&Name>) -> Result<(), AllocError>
    ensures ok { OnOk result (out.new.items ≡ out.old.items ++ name_text (option_copied origin.entry) name.now) }
    ensures kept { StartsWith out.new.items out.old.items }
{
    match origin {
        Some(origin) if name.is_under(origin) => {
            push_front(out, name.wire(), origin.wire().len())
        }
        _ => push_absolute(out, name.wire()),
    }
}

impl Name {
    /// Adds the name as it is printed: each label and a dot, `.` for the root. Octets 21 to 7E (hexadecimal)
    /// stand for themselves, with a backslash before `"`, `$`, `(`, `)`, `.`, `;`, `@` and `\`; all
    /// others are `\DDD`. Where no memory is left, `out` stays as it was.
    pub fn push_text(&self, out: &mut Vec<u8>) -> Result<(), AllocError>
        ensures ok { OnOk result (out.new.items ≡ out.old.items ++ text_of self.now) }
        ensures err { OnErr result (out.new.items ≡ out.old.items) }
    {
        self.push_text_in(None, out)
    }

    /// The same where an origin is in force: the origin is `@`, and a name under it has the labels in front alone, with
    /// dots between them.
    pub fn push_text_in(&self, origin: Option<&Name>, out: &mut Vec<u8>) -> Result<(), AllocError>
        ensures ok { OnOk result (out.new.items ≡ out.old.items ++ name_text (option_copied origin.entry) self.now) }
        ensures err { OnErr result (out.new.items ≡ out.old.items) }
    {
        let start = out.len();
        let result = push_name(out, self, origin);
        if result.is_err() {
            out.truncate(start);
        }
        result
    }
}
