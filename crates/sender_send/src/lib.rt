// Packets leave: send moves the lowest waiting one in flight and gives its bytes, fetch gives those of one in flight again. Ports the
// sending loop of `poll`: explicit steps with the clock as an input.
#![tactic(auto)]

mod going;
mod table;

ghost use Rattle.std.specs.Prelude.{◌≡◌};
ghost use Rattle.sender_send.specs.Fetch.{fetch_of, fetched};
ghost use Rattle.sender_send.specs.Send.{send_of, sent_out};

use sender_state::Sender;
use terms::{Refusal, SeqNo};
use timer::Sampled;

// The packet that left: its number and its length.
#[derive(Clone, Copy, Debug, PartialEq, Eq)]
pub struct Departure {
    pub number: SeqNo,
    pub size: usize,
}

// What send answers, beside the state after the call, which a refusal leaves as it was.
#[derive(Clone, Copy)]
pub struct Sent {
    pub answer: Result<Departure, Refusal>,
    pub state: Sender,
}

// A packet as the table has it: its number, its place, and its length.
#[derive(Clone, Copy, Debug, PartialEq, Eq)]
pub struct Packet {
    pub number: SeqNo,
    pub place: usize,
    pub size: usize,
}

// Copies out the packet at a rank of those in flight, 0 being the lowest number. Stands for the sending in `resend`: the host asks
// for as many as resend told.
#[tactic(auto, unfolding(crate::specs::Fetch::fetch_said, crate::specs::Fetch::fetch_of))]
pub fn fetch(s: &Sender, rank: u32, store: &[u8], output: &mut [u8]) -> Result<usize, Refusal>
    ensures { fetched result output.new ≡ fetch_of s.now rank store.now output.old }
{
    if !sender_check::valid(s) {
        return Err(Refusal::StateBroken);
    }
    if !sender_state::sizes_fit(s.chunk, s.count, store.len()) {
        return Err(Refusal::SizeWrong);
    }
    let Some(packet) = table::ranked(s, 2, rank) else {
        return Err(Refusal::NothingThere);
    };
    if packet.size > output.len() {
        return Err(Refusal::OutputShort);
    }
    table::put(packet, s.chunk, store, output);
    Ok(packet.size)
}

// Moves the lowest waiting packet in flight and copies it out. Ports one turn of the sending loop of `poll`, mended: the host calls
// once for each packet that it can take.
#[tactic(auto, using(timer::proofs::Laws::rto_most), unfolding(crate::specs::Send::send_of, crate::specs::Send::armed))]
pub fn send(s: Sender, clock: u64, store: &[u8], output: &mut [u8]) -> Sent
    ensures { sent_out result output.new ≡ send_of s clock store.now output.old }
{
    match going::judge_send(&s, clock, store.len(), output.len()) {
        Err(why) => Sent {
            answer: Err(why),
            state: s,
        },
        Ok(packet) => {
            table::put(packet, s.chunk, store, output);
            let due = clock + Sampled::rto(s.timing);
            Sent {
                answer: Ok(Departure {
                    number: packet.number,
                    size: packet.size,
                }),
                state: going::departs(s, packet.place, clock, due),
            }
        }
    }
}
