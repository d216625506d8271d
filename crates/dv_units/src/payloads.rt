// Payloads in units: their sizes, reading and writing.
ghost use Rattle.std.specs.Prelude.{◌≡◌, ◌↔◌, ◌⊎◌, ℕ, ◌^◌, ◌<◌, ◌++◌, List, length, take, drop, Some, None, IsSome, IsSomeAnd, IfSome, IfOk, IfErr, OnErr, IsOkUnless};
ghost use Rattle.dv_defs.specs.declared.code.Payload.{Payload};
ghost use Rattle.dv_defs.specs.Payloads.{payload_spelling};
ghost use Rattle.dv_units.specs.Reading.{StandAt};
ghost use Rattle.dv_units.specs.Payloads.{PayloadStandsAt, NoPayloadStandsAt};

use crate::UnitError;
use crate::header::read_header;
use crate::payload_readers::read_payload;
use crate::payload_writers::payload_units;
use dv_defs::Payload;
use std::alloc::Global;

/// The units from an address on: none at or past their end.
fn units_from(units: &[u16], at: usize) -> &[u16]
    ensures { result.now ≡ drop at units.now }
{
    units.get(at..).unwrap_or(&[])
}

/// The number of units of the payload that stands at `at`; none where no payload does, as at or past the end.
/// Takes no memory.
pub fn payload_size(units: &[u16], at: usize) -> Option<u32>
    requires { length units.now < 2 ^ 32 }
    ensures found { IfSome result (λ n. (p : Payload) × (payload_spelling p ≡ Some (take n (drop at units.now)))) }
    ensures every { (p : Payload) (us : List ℕ) → payload_spelling p ≡ Some us → StandAt us units.now at → result ≡ Some (length us) }
{
    let header = read_header(units_from(units, at))?;
    Some(header.units() as u32)
}

/// Reads the payload at `at`.
///
/// # Errors
///
/// `BadPayload` where no payload's spelling stands there, as at or past the end, and `Memory`.
pub fn decode_payload(alloc: Global, units: &[u16], at: usize) -> Result<Payload, UnitError>
    ensures read { IfOk result (λ p. PayloadStandsAt p units.now at) }
    ensures every { (p : Payload) (us : List ℕ) → payload_spelling p ≡ Some us → StandAt us units.now at → IfOk result (λ q. q ≡ p) }
    ensures bad_payload { (result ≡ Err UnitError.BadPayload) ↔ NoPayloadStandsAt units.now at }
    ensures only { IfErr result (λ e. (e ≡ UnitError.BadPayload) ⊎ (e ≡ UnitError.Memory)) }
{
    let rest = units_from(units, at);
    let header = read_header(rest).ok_or(UnitError::BadPayload)?;
    let payload = read_payload(alloc, header, rest)?;
    Ok(payload)
}

/// Appends the units of a payload to `out`, and gives their number.
///
/// # Errors
///
/// `BadPayload` where the payload has no spelling, and `Memory`.
pub fn encode_payload(payload: &Payload, out: &mut Vec<u16>) -> Result<usize, UnitError>
    ensures written { IfOk result (λ n. IsSomeAnd (payload_spelling payload.now)
        (λ us. (out.new.items ≡ out.old.items ++ us) × (n ≡ length us))) }
    ensures unchanged { OnErr result (out.new.items ≡ out.old.items) }
    ensures bad_payload { (result ≡ Err UnitError.BadPayload) ↔ (payload_spelling payload.now ≡ None) }
    ensures only_memory { IsSome (payload_spelling payload.now) → IsOkUnless result UnitError.Memory }
{
    let alloc = *out.allocator();
    let units = payload_units(alloc, payload)?.ok_or(UnitError::BadPayload)?;
    out.extend_from_slice(&units)?;
    Ok(units.len())
}
