// The option area: delay, destination, maximum size, offline block, signature, each where the last one ended. The bytes are the packet's up to the area's end.
ghost use Rattle.std.specs.Prelude.{◌≡◌, ◌+◌, ◌≤◌, length, eqb};
ghost use Rattle.terms.specs.Answers.{values, saying};
ghost use Rattle.terms.specs.Ladder.{◌when◌else◌};
ghost use Rattle.wire.specs.BigEndian.{number_at};
ghost use Rattle.packet_keys.specs.Kinds.{signature_length};
ghost use Rattle.packet_read.specs.Destination.{form_fits, key_fits, destination_in};
ghost use Rattle.packet_read.specs.Options.{destination_begins, no_destination, after_destination, options_in};

use super::{Destination, Found, Span, flags};
use terms::Refusal;
use wire::Number;

// Certificate type 0 wants L 0, and type 5 L at least 4.
fn form_fits(certificate: u8, length: usize) -> bool
    ensures { result ≡ form_fits certificate length }
{
    match certificate {
        0 => length == 0,
        5 => length >= 4,
        _ => false,
    }
}

// The type of the signing key: DSA, type 0, for certificate type 0.
fn signing_type(bytes: &[u8], at: usize, certificate: u8) -> u16
    requires { certificate ≡ 5 → at + 389 ≤ length bytes.now }
    ensures { result ≡ (number_at 2 (at + 387) bytes.now when eqb certificate 5 else 0) }
{
    if certificate == 5 {
        u16::read(bytes, at + 387)
    } else {
        0
    }
}

// How long the signatures of this type are, where it is listed. Key type 3, whose key overruns its field, wants L at least 8.
fn signs(kind: u16, length: usize) -> Option<usize>
    ensures { result ≡ (Some (signature_length kind) when key_fits kind length else None) }
{
    if kind == 3 && length < 8 {
        return None;
    }
    packet_keys::signature_length(kind)
}

// A destination in the bytes from at on: 384 key bytes, certificate type, length L, L bytes.
#[tactic(auto, unfolding(crate::specs::Destination::destination_in))]
pub(super) fn destination_in(bytes: &[u8], at: usize) -> Result<Destination, Refusal>
    requires { at ≤ length bytes.now }
    ensures { saying result ≡ destination_in bytes.now at (length bytes.now) }
{
    let left = bytes.len() - at;
    if left < 387 {
        return Err(Refusal::OptionCut);
    }
    let certificate = u8::read(bytes, at + 384);
    let length = usize::from(u16::read(bytes, at + 385));
    if !form_fits(certificate, length) {
        return Err(Refusal::DestinationForm);
    }
    if left < 387 + length {
        return Err(Refusal::OptionCut);
    }
    let kind = signing_type(bytes, at, certificate);
    let Some(signs) = signs(kind, length) else {
        return Err(Refusal::DestinationForm);
    };
    Ok(Destination {
        size: 387 + length,
        signs,
    })
}

// What follows the destination. The offline block has no form here yet, so its bit is refused at its place.
#[tactic(auto, unfolding(crate::specs::Options::after_destination))]
fn after_destination(
    bytes: &[u8],
    at: usize,
    destination_at: usize,
    flags: u16,
    destination: Destination,
) -> Result<Found, Refusal>
    requires { (destination_at ≡ destination_begins at flags) × (destination_at + destination.size ≤ length bytes.now) }
    ensures { saying result ≡ after_destination bytes.now at (length bytes.now) flags destination }
{
    let max_at = destination_at + destination.size;
    let sized = flags::has(flags, flags::MAX_SIZE);
    let signature_at = max_at + flags::size_if(sized, 2);
    if bytes.len() < signature_at {
        return Err(Refusal::OptionCut);
    }
    let from = flags::has(flags, flags::FROM);
    if flags::has(flags, flags::OFFLINE) {
        if from {
            return Err(Refusal::OfflineBlock);
        }
        return Err(Refusal::OfflineAlone);
    }
    let left = bytes.len() - signature_at;
    let signed = signature_size(
        flags::has(flags, flags::SIGNATURE),
        from,
        destination.signs,
        left,
    );
    if left < signed {
        return Err(Refusal::OptionCut);
    }
    let delay = flags::number_if(flags::has(flags, flags::DELAY), bytes, at);
    let max_size = flags::number_if(sized, bytes, max_at);
    Ok(Found {
        delay,
        destination: Span {
            at: destination_at,
            len: destination.size,
        },
        max_size,
        signature: Span {
            at: signature_at,
            len: signed,
        },
        leftover: left - signed,
    })
}

// As long as the destination's signatures are; without one, all the bytes that are left.
fn signature_size(signed: bool, from: bool, signs: usize, left: usize) -> usize
    ensures { result ≡ ((signs when from else left) when signed else 0) }
{
    if !signed {
        return 0;
    }
    if from { signs } else { left }
}

// The destination, that of no byte where its bit is clear.
fn destination_there(bytes: &[u8], at: usize, from: bool) -> Result<Destination, Refusal>
    requires { at ≤ length bytes.now }
    ensures { saying result ≡ (destination_in bytes.now at (length bytes.now) when from else values no_destination) }
{
    if from {
        destination_in(bytes, at)
    } else {
        Ok(Destination { size: 0, signs: 0 })
    }
}

// Ports `Flags::new`, with the signature that it drops where there is no destination.
#[tactic(auto, using(crate::proofs::Form::size_inside), unfolding(crate::specs::Options::options_in))]
pub(super) fn options(bytes: &[u8], at: usize, flags: u16) -> Result<Found, Refusal>
    requires { at ≤ length bytes.now }
    ensures { saying result ≡ options_in bytes.now at (length bytes.now) flags }
{
    let destination_at = at + flags::size_if(flags::has(flags, flags::DELAY), 2);
    if bytes.len() < destination_at {
        return Err(Refusal::OptionCut);
    }
    let destination = destination_there(bytes, destination_at, flags::has(flags, flags::FROM))?;
    after_destination(bytes, at, destination_at, flags, destination)
}
