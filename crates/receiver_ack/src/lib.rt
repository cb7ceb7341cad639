// What a receiver tells the other side of a stream: which numbers it has, and which it misses.
// Ports the ack fields that `packetize` and the plain ack of `poll` take from `InboundContext`, mended: where more than 255 numbers
// are missing, ack-through stands before the first that no NACK names, so that missing data never counts as received.
#![tactic(auto)]

ghost use Rattle.std.specs.Prelude.{◌≡◌, [], ◌∷◌, ltb, length};
ghost use Rattle.terms.specs.Ladder.{◌when◌else◌};
ghost use Rattle.terms.specs.Lists.{◌at_front_of◌};
ghost use Rattle.terms.specs.Answers.{refusal, values, said_of, ◌unless_refused◌else◌};
ghost use Rattle.receiver_ack.specs.Missing.{spanned, missing_of};
ghost use Rattle.receiver_ack.specs.Fields.{ack_fields_of};
ghost use Rattle.receiver_ack.specs.Acknowledge.{acknowledged, plain_ack_of, acknowledge_of};

use packet_read::flags;
use packet_write::Fields;
use receiver_state::Receiver;
use terms::{Refusal, SeqNo, StreamId};

// The most NACKs that a packet has room for.
const MAX_NACKS: usize = 255;

// The delay that asks the other side to stop for now.
const CHOKING_REQUEST: u16 = 60001;

// The ack fields of a packet. The NACKs are the first of the numbers in the table that `fields` was lent, so many as nacks says: a count
// beside the table, since memory is fixed and the caller cuts its own table.
#[derive(Clone, Copy, Debug, PartialEq, Eq)]
pub struct AckFields {
    pub nacks: usize,
    pub ack_through: SeqNo,
    pub flags: u16,
    pub delay: u16,
}

// Writes the missing numbers, ascending, to the front of a lent table, and answers how many they are. Ports the set `missing` of
// `InboundContext`, which the marks make needless: one pass over the numbers from next to highest.
#[tactic(auto, using(crate::proofs::Listed::list_end))]
fn list_missing(r: &Receiver, missing: &mut [u32; 512]) -> usize
    requires { spanned r.now }
    ensures value { result ≡ length (missing_of r.now) }
    ensures missing_after { missing.new ≡ missing_of r.now at_front_of missing.old }
{
    let mut count = 0;
    for number in r.head.next.0..r.head.highest.0 + 1 {
        if r.marks[(number % 512) as usize] == 0 {
            missing[count] = number;
            count += 1;
        }
    }
    count
}

// The ack fields of a receiver, for the plain ack and for data packets: ports what both of them take from `InboundContext`. All missing
// numbers are written to the front of the lent table, and the NACKs are the first of them. The state keeps the rules, as
// `receiver_state::rules_hold` tells.
pub fn fields(r: &Receiver, missing: &mut [u32; 512]) -> AckFields
    requires { spanned r.now }
    ensures value { result ≡ ack_fields_of r.now }
    ensures missing_after { missing.new ≡ missing_of r.now at_front_of missing.old }
{
    let count = list_missing(r, missing);
    let (nacks, ack_through) = if count <= MAX_NACKS {
        (count, r.head.highest)
    } else {
        (MAX_NACKS, SeqNo(missing[MAX_NACKS] - 1))
    };
    let (flags, delay) = if count >= MAX_NACKS {
        (flags::DELAY, CHOKING_REQUEST)
    } else {
        (0, 0)
    };
    AckFields {
        nacks,
        ack_through,
        flags,
        delay,
    }
}

// The plain ack of a receiver that keeps the rules, written to the output's front where it has room.
fn plain(r: &Receiver, send: StreamId, recv: StreamId, output: &mut [u8]) -> Result<usize, Refusal>
    requires { spanned r.now }
    ensures result_value { said_of result ≡ (refusal 7 when ltb (length output.old) (length (plain_ack_of r.now send recv))
        else values (length (plain_ack_of r.now send recv) ∷ [])) }
    ensures output_after { output.new ≡ (plain_ack_of r.now send recv at_front_of output.old unless_refused said_of result else output.old) }
{
    let mut missing = [0; 512];
    let acks = fields(r, &mut missing);
    let f = Fields {
        send_stream_id: send,
        recv_stream_id: recv,
        seq_nro: SeqNo(0),
        ack_through: acks.ack_through,
        resend_delay: 0,
        flags: acks.flags,
        delay: acks.delay,
        max_size: 0,
    };
    let written = packet_write::write(f, &missing[..acks.nacks], b"", b"", b"", output)?;
    Ok(written.length)
}

// Writes the plain ack of a receiver to the front of the output: both stream ids in wire order, sequence 0, resend delay 0, the ack
// fields, and no payload. Ports the plain ack of `poll`, without its closing form. Refusals in document 01's order: 11, 10, 7. An
// output of 1,044 bytes is always enough.
#[tactic(auto, using(crate::proofs::Ways::bounded), unfolding(crate::specs::Acknowledge::acknowledge_of, crate::specs::Acknowledge::acknowledge_said))]
pub fn acknowledge(
    r: &Receiver,
    send: StreamId,
    recv: StreamId,
    output: &mut [u8],
) -> Result<usize, Refusal>
    ensures { acknowledged result output.new ≡ acknowledge_of r.now send recv output.old }
{
    if !receiver_state::rules_hold(r) {
        return Err(Refusal::StateBroken);
    }
    if !receiver_state::slot_fits(r.head.slot) {
        return Err(Refusal::SizeWrong);
    }
    plain(r, send, recv, output)
}
