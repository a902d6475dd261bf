//! The codes that claims without parts define, with their bounds.
ghost use Rattle.std.specs.Prelude.{◌≡◌, ◌≢◌, Err, IsTrue};
ghost use Rattle.lc_algebra.specs.declared.FieldName.{FieldName};
ghost use Rattle.lc_algebra.specs.Field.{size, is_symbol};
ghost use Rattle.lc_formats.specs.Claim.{search, alternant};
ghost use Rattle.lc_formats.specs.ClaimMeaning.{HasOutcome};
ghost use Rattle.lc_formats.specs.Document.{IsShapedClaim};
ghost use Rattle.lc_certificate.specs.Seen.{certificate_of};
ghost use Rattle.lc_trees.specs.Outcome.{IsOutcomeOf};

use crate::outcome::{Made, Stop, own};
use lc_certificate::Certificate;
use lc_checker::{Verdict, check};
use lc_code::Code;
use lc_field::{Field, FieldRefusal};
use lc_goppa::subfield_subcode;
use std::alloc::Global;

/// An alternant form that a claim states: the number of elements of its locator field, its points and multipliers, and r.
#[derive(Clone, Copy)]
pub(crate) struct StatedForm<'a> {
    pub(crate) locator: u64,
    pub(crate) points: &'a [u8],
    pub(crate) multipliers: &'a [u8],
    pub(crate) r: u64,
}

// What comes of a search: the span of its rows if the certificate is accepted, else the number of the reason.
pub(crate) fn searched(
    alloc: Global,
    field: &Field,
    cert: &Certificate,
    number: u64,
) -> Result<Made, Stop>
    requires symbol { IsTrue (is_symbol field.now) }
    requires shaped { IsShapedClaim field.now (search (certificate_of cert.now)) }
    ensures is { IsOutcomeOf result (HasOutcome field.now number (search (certificate_of cert.now))) }
{
    match check(alloc, cert)? {
        Verdict::Rejected(reason) => Err(Stop::Refused(number, reason.number())),
        Verdict::Accepted => {
            let code = Code::from_rows(alloc, field, cert.word.len(), &cert.rows)?;
            own(number, Ok(code), cert.distance)
        }
    }
}

// What comes of an alternant form.
pub(crate) fn formed(
    alloc: Global,
    field: &Field,
    form: &StatedForm<'_>,
    number: u64,
) -> Result<Made, Stop>
    ensures is { IsOutcomeOf result (HasOutcome field.now number
        (alternant form.now.locator form.now.points.now form.now.multipliers.now form.now.r)) }
    ensures told { ((f : FieldName) → size f ≢ form.now.locator) → result ≢ Err Stop.NoMemory }
{
    let StatedForm {
        locator,
        points,
        multipliers,
        r,
    } = *form;
    match Field::of(alloc, locator) {
        Ok(large) => {
            let code = subfield_subcode(alloc, r, points, multipliers, &large, field);
            own(number, code, r.min(255) + 1)
        }
        Err(FieldRefusal::NotAField) => Err(Stop::Refused(number, 1)),
        Err(FieldRefusal::NoMemory) => Err(Stop::NoMemory),
    }
}
