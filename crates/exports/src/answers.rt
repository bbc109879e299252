// What the calls answer, as one number: refusal + 256 * value.
ghost use Rattle.std.specs.Prelude.{◌≡◌};
ghost use Rattle.field.specs.Answer.{outcome};
ghost use Rattle.code.specs.Call.{membership, done};
ghost use Rattle.report.specs.Compare.{choice};
ghost use Rattle.exports.specs.Packed.{packed, packed_bytes, packed_totals};

use field::{Question, refusal_number};
use report::compare::Side;

// A symbol, or the number of changed places, or a refusal as one number.
pub fn pack(answer: Result<u8, Question>) -> u32
    ensures { result ≡ packed (outcome answer) }
{
    match answer {
        Ok(x) => 256 * u32::from(x),
        Err(q) => u32::from(refusal_number(q)),
    }
}

// The verdict of a call that has no value of its own.
pub fn pack_verdict(v: Result<(), Question>) -> u32
    ensures { result ≡ packed (done v) }
{
    pack(v.map(|()| 0))
}

// The answer of the codeword test: 1 for yes.
pub fn pack_membership(m: Result<bool, Question>) -> u32
    ensures { result ≡ packed (membership m) }
{
    pack(m.map(u8::from))
}

// A refusal number and five bytes as one number, the refusal lowest.
pub fn pack_bytes(refusal: u32, bytes: [u8; 5]) -> u64
    ensures { result ≡ packed_bytes refusal bytes }
{
    let [a, b, c, d, e] = bytes.map(u64::from);
    u64::from(refusal) + 256 * (a + 256 * (b + 256 * (c + 256 * (d + 256 * e))))
}

// The choice of a comparison: 1 for the controller's sheet, 2 for the cupboard's.
pub fn pack_choice(c: Side) -> u32
    ensures { result ≡ packed (choice c) }
{
    match c {
        Side::Controller => 256,
        Side::Cupboard => 512,
    }
}

// A packed answer and the three totals above it.
pub fn pack_totals(answer: u32, equal: u8, controller: u8, cupboard: u8) -> u64
    ensures { result ≡ packed_totals answer equal controller cupboard }
{
    let totals = u64::from(equal) + 256 * (u64::from(controller) + 256 * u64::from(cupboard));
    u64::from(answer) + 65536 * totals
}
