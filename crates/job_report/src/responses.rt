//! How responses are printed.
ghost use Rattle.std.specs.Prelude.{◌≡◌, ◌++◌, OnOk, codes};
ghost use Rattle.job_report.specs.Prelude.{HasPrinted, IsResponded, Response};
ghost use Rattle.job_model.specs.Replies as replies;

use crate::marks::push_marked;
use crate::printed::PrintedRows;
use std::alloc::AllocError;
use zone_answer::{Code, Header};

fn code_name(code: Code) -> &'static [u8]
    ensures { result.now ≡ replies.code_text code }
{
    match code {
        Code::NoError => b"NOERROR",
        Code::NxDomain => b"NXDOMAIN",
        Code::Refused => b"REFUSED",
    }
}

// Whether it is authoritative, between spaces.
fn flag_word(authoritative: bool) -> &'static [u8]
    ensures { result.now ≡ codes " " ++ replies.flag_text authoritative ++ codes " " }
{
    if authoritative { b" aa " } else { b" - " }
}

fn push_header(out: &mut Vec<u8>, header: &Header) -> Result<(), AllocError>
    ensures { OnOk result (out.new.items ≡ out.old.items
        ++ replies.header_text header.now.code header.now.authoritative header.now.answer header.now.authority header.now.additional) }
{
    out.extend_from_slice(b"ask ")?;
    out.extend_from_slice(code_name(header.code))?;
    out.extend_from_slice(flag_word(header.authoritative))?;
    push_marked(out, header.answer, b' ')?;
    push_marked(out, header.authority, b' ')?;
    push_marked(out, header.additional, b'\n')
}

/// Pushes the header of a response, and the records of its sections.
pub fn push_response(
    out: &mut Vec<u8>,
    header: &Header,
    rows: &PrintedRows,
) -> Result<(), AllocError>
    ensures { (response : Response) → IsResponded (HasPrinted rows.now) response header.now
        → OnOk result (out.new.items ≡ out.old.items ++ replies.response_text response) }
{
    push_header(out, header)?;
    rows.push_lines(out)
}
