//! The line that a session prints of a certificate.
ghost use Rattle.std.specs.Prelude.{◌≡◌, IfOk};
ghost use Rattle.lc_formats.specs.Shape.{IsShaped};
ghost use Rattle.lc_certificate.specs.Seen.{certificate_of};
ghost use Rattle.lc_language.specs.Query.{certificate_line};

use lc_certificate::{Certificate, write};
use lc_checker::{MOST_WORDS, checking_cost};
use lc_field::NoMemory;
use lc_print::{certificate_cost_line, certificate_length_line};
use std::alloc::Global;

// No line has more bytes than these, its newline counted.
const LONGEST: usize = 1_048_576;

/// The line of the certificate: its text and a newline. If a checker would have to look at more than 2^32 words, the line says
/// how many; else, if the line would have more than 2^20 bytes, it says how many these are.
///
/// The certificate has the shape, as one of a search has.
#[tactic(auto, using(crate::proofs::LineLaws::certificate_line_laws))]
pub fn certificate_line(alloc: Global, certificate: &Certificate) -> Result<Vec<u8>, NoMemory>
    requires shaped { IsShaped (certificate_of certificate.now) }
    ensures is { IfOk result (λ line. line.items ≡ certificate_line (certificate_of certificate.now)) }
{
    let words = checking_cost(alloc, certificate)?;
    if words > MOST_WORDS {
        let costly = certificate_cost_line(alloc, words)?;
        return Ok(costly);
    }
    let mut line = write(alloc, certificate)?;
    line.push(b'\n')?;
    if line.len() > LONGEST {
        let long = certificate_length_line(alloc, line.len() as u64)?;
        return Ok(long);
    }
    Ok(line)
}
