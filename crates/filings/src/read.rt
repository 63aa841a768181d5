// A filing read from its bytes: its kind, then its fields, low byte first.
ghost use Rattle.std.specs.Prelude.{◌≡◌, length, MatchOption, ◌≢◌};
ghost use Rattle.std.specs.Bool.{then_some};
ghost use Rattle.std.specs.Ordering.{partial_le};
ghost use Rattle.pages.specs.Bytes.{eight, four};
ghost use Rattle.filings.specs.Reading.{at_most, fields, kind_in, reading};

use crate::filing::Filing;
use crate::kind::Kind;
use pages::bytes::{eight_at, four_at, two_at};
use pages::opening::MOST_AREA;
use pages::refusal::Refusal;

pub const MOST_AMOUNT: u64 = 1_000_000_000_000_000;

pub(crate) fn kind_of(bytes: &[u8]) -> Option<Kind>
    ensures { result ≡ kind_in bytes.now }
{
    Kind::try_from(*bytes.first()?).ok()
}

fn exactly(bytes: &[u8], long: usize) -> Option<&[u8]>
    ensures { MatchOption result (length bytes.now ≢ long) (λ body. (body.now ≡ bytes.now) × (length bytes.now ≡ long)) }
{
    (bytes.len() == long).then_some(bytes)
}

fn at_most<T: PartialOrd + Copy>(value: T, most: T) -> Option<T>
    ensures { result ≡ then_some (partial_le T.partial_cmp value most) value }
{
    (value <= most).then_some(value)
}

fn amount_at(bytes: &[u8], at: u32) -> Option<u64>
    ensures { result ≡ at_most 1000000000000000 (eight bytes.now at) }
{
    at_most(eight_at(bytes, at), MOST_AMOUNT)
}

// Who signs, and the other person of a filing that has two.
fn persons_in(body: &[u8]) -> (u32, u32)
    ensures { (result.0 ≡ four body.now 3) × (result.1 ≡ four body.now 7) }
{
    (four_at(body, 3), four_at(body, 7))
}

fn charge_in(body: &[u8]) -> Result<Filing, Refusal>
    ensures { result ≡ fields Kind.Charge body.now }
{
    let Some(amount) = amount_at(body, 11) else {
        return Err(Refusal::Amount(11));
    };
    let (owner, holder) = persons_in(body);
    Ok(Filing::Charge {
        parcel: two_at(body, 1),
        owner,
        holder,
        amount,
    })
}

fn fill_in(body: &[u8]) -> Result<Filing, Refusal>
    ensures { result ≡ fields Kind.Fill body.now }
{
    let Some(amount) = amount_at(body, 13) else {
        return Err(Refusal::Amount(13));
    };
    let (owner, holder) = persons_in(body);
    Ok(Filing::Fill {
        parcel: two_at(body, 1),
        owner,
        holder,
        number: two_at(body, 11),
        amount,
    })
}

fn subdivision_in(body: &[u8]) -> Result<Filing, Refusal>
    ensures { result ≡ fields Kind.Subdivide body.now }
{
    let Some(area) = at_most(four_at(body, 7), MOST_AREA) else {
        return Err(Refusal::Amount(7));
    };
    Ok(Filing::Subdivide {
        parcel: two_at(body, 1),
        owner: four_at(body, 3),
        area,
    })
}

// The parcel stands first in every kind, and who signs stands behind it in all but a merger.
fn filing_in(kind: Kind, body: &[u8]) -> Result<Filing, Refusal>
    ensures { result ≡ fields kind body.now }
{
    let parcel = two_at(body, 1);
    let signer = four_at(body, 3);
    match kind {
        Kind::Charge => charge_in(body),
        Kind::Fill => fill_in(body),
        Kind::Subdivide => subdivision_in(body),
        Kind::Transfer => Ok(Filing::Transfer {
            parcel,
            owner: signer,
            to: four_at(body, 7),
        }),
        Kind::Reserve => Ok(Filing::Reserve {
            parcel,
            owner: signer,
            holder: four_at(body, 7),
        }),
        Kind::Release => Ok(Filing::Release {
            parcel,
            holder: signer,
            number: two_at(body, 7),
        }),
        Kind::Postpone => Ok(Filing::Postpone {
            parcel,
            holder: signer,
            number: two_at(body, 7),
        }),
        Kind::Merge => Ok(Filing::Merge {
            parcel,
            other: two_at(body, 3),
            owner: four_at(body, 5),
        }),
    }
}

impl Filing {
    // The first thing that is wrong is told: the kind, then the length, then an amount.
    pub fn read(bytes: &[u8]) -> Result<Filing, Refusal>
        ensures { result ≡ reading bytes.now }
    {
        let Some(kind) = kind_of(bytes) else {
            return Err(Refusal::Kind);
        };
        let Some(body) = exactly(bytes, kind.length()) else {
            return Err(Refusal::Length(bytes.len()));
        };
        filing_in(kind, body)
    }
}
