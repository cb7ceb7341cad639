// Whether a packet can be written, how long it is, and where its signature begins.
ghost use Rattle.std.specs.Prelude.{◌≡◌, [], ◌&&◌, not, ◌+◌, ◌*◌, ◌/◌, ◌%◌, ◌≤◌, ◌<◌, ltb, eqb, length};
ghost use Rattle.terms.specs.Answers.{refusal, values, said, saying};
ghost use Rattle.terms.specs.Ladder.{◌when◌else◌};
ghost use Rattle.packet_read.specs.Flags.{bit};
ghost use Rattle.packet_read.specs.Destination.{signs_of, is_destination};
ghost use Rattle.packet_read.specs.Options.{signature_at};
ghost use Rattle.packet_write.specs.Writing.{written, unfit, parts_unfit, write_of};

use super::{Fields, Parts, Written};
use packet_read::flags;
use terms::Refusal;

// A part or number that is given although the bit of this weight is clear.
fn unfit(flags: u16, weight: u16, given: usize) -> bool
    requires { 0 < weight }
    ensures { result ≡ unfit (eqb (flags / weight % 2) 1) given }
{
    !flags::has(flags, weight) && given > 0
}

// A part or number given for any clear bit.
fn parts_unfit(fields: Fields, parts: Parts) -> bool
    ensures { result ≡ parts_unfit fields parts.entry.destination.now parts.entry.signature.now }
{
    let flags = fields.flags;
    unfit(flags, flags::DELAY, usize::from(fields.delay))
        || unfit(flags, flags::FROM, parts.destination.len())
        || unfit(flags, flags::MAX_SIZE, usize::from(fields.max_size))
        || unfit(flags, flags::SIGNATURE, parts.signature.len())
}

// With bit 5 the destination is exactly one, and with bit 3 too the signature is as long as that one's signatures.
fn signing_fits(flags: u16, parts: Parts) -> Result<(), Refusal>
    ensures { said result
        ≡ (refusal 4 when bit 5 flags && not (is_destination parts.entry.destination.now) else
        refusal 9 when bit 3 flags && (bit 5 flags && not (eqb (length parts.entry.signature.now) (signs_of parts.entry.destination.now))) else
        values []) }
{
    if !flags::has(flags, flags::FROM) {
        return Ok(());
    }
    let Some(signs) = packet_read::signature_length(parts.destination) else {
        return Err(Refusal::DestinationForm);
    };
    if flags::has(flags, flags::SIGNATURE) && parts.signature.len() != signs {
        return Err(Refusal::PartsUnfit);
    }
    Ok(())
}

// How many bytes the delay and the maximum size take.
pub(super) fn numbers_size(flags: u16) -> usize
    ensures { (result ≡ (2 when bit 6 flags else 0) + (2 when bit 7 flags else 0)) × (result ≤ 4) }
{
    flags::size_if(flags::has(flags, flags::DELAY), 2)
        + flags::size_if(flags::has(flags, flags::MAX_SIZE), 2)
}

// The last two refusals, which go by lengths. A sum that leaves the width is too long as well.
fn sizes(flags: u16, parts: Parts, room: usize) -> Result<Written, Refusal>
    requires { length parts.nacks.now ≤ 255 }
    ensures { let at = signature_at (22 + 4 * length parts.entry.nacks.now) flags (length parts.entry.destination.now) in
        let size = at + length parts.entry.signature.now + length parts.entry.payload.now in
        saying result ≡ (refusal 2 when ltb 65535 size else refusal 7 when ltb room size else written size (at when bit 3 flags else 0)) }
{
    let options_at = 22 + 4 * parts.nacks.len();
    let signature_at = parts
        .destination
        .len()
        .saturating_add(options_at + numbers_size(flags));
    let length = signature_at
        .saturating_add(parts.signature.len())
        .saturating_add(parts.payload.len());
    if length > 65535 {
        return Err(Refusal::PacketLong);
    }
    if room < length {
        return Err(Refusal::OutputShort);
    }
    Ok(Written {
        length,
        signature_at: flags::size_if(flags::has(flags, flags::SIGNATURE), signature_at),
    })
}

// The refusals in document 01's order, or the lengths.
#[tactic(auto, unfolding(crate::specs::Writing::write_of))]
pub(super) fn judge(fields: Fields, parts: Parts, room: usize) -> Result<Written, Refusal>
    ensures { saying result ≡ write_of fields parts.entry.nacks.now parts.entry.destination.now parts.entry.signature.now parts.entry.payload.now room }
{
    let flags = fields.flags;
    if parts.nacks.len() > 255 {
        return Err(Refusal::NacksMany);
    }
    if flags::has(flags, flags::OFFLINE) {
        if flags::has(flags, flags::FROM) {
            return Err(Refusal::OfflineBlock);
        }
        return Err(Refusal::OfflineAlone);
    }
    if parts_unfit(fields, parts) {
        return Err(Refusal::PartsUnfit);
    }
    signing_fits(flags, parts)?;
    sizes(flags, parts, room)
}
