// The table of places and what stands in the store: what the calls share.
ghost use Rattle.std.specs.Prelude.{◌≡◌, true, ◌+◌, ◌≤◌, length};
ghost use Rattle.std.specs.List.{slice_get};
ghost use Rattle.std.specs.Option.{MatchOption};
ghost use Rattle.terms.specs.Lists.{◌at_front_of◌};
ghost use Rattle.sender_state.specs.Rules.{rules};
ghost use Rattle.sender_state.specs.Steps.{Tidy};
ghost use Rattle.sender_state.specs.Numbers.{numbers_where, marked_with, offset_of, bytes_at};
ghost use Rattle.sender_send.specs.Steps.{RanksAt};

use super::Packet;
use sender_state::Sender;
use terms::SeqNo;

// The number at a rank of those that bear the mark, the lowest first.
fn number_at(s: &Sender, wanted: u32, rank: u32) -> Option<u32>
    requires { Tidy s.now.numbers s.now.marks wanted s.now.next.0 }
    ensures { result ≡ slice_get (numbers_where s.now.numbers s.now.next.0 (marked_with wanted s.now.marks)) rank }
{
    let mut from = 0;
    for k in 0..rank {
        from = sender_state::least(&s.numbers, &s.marks, wanted, from)? + 1;
    }
    sender_state::least(&s.numbers, &s.marks, wanted, from)
}

// The packet at a rank of those that bear the mark, the lowest number first.
pub(super) fn ranked(s: &Sender, wanted: u32, rank: u32) -> Option<Packet>
    requires { (rules s.now ≡ true) × (1 ≤ wanted) }
    ensures { MatchOption result
        (length (numbers_where s.now.numbers s.now.next.0 (marked_with wanted s.now.marks)) ≤ rank)
        (λ packet. RanksAt s.now wanted rank packet) }
{
    // Read here, since a proof knows the range of a number behind a reference once it is read.
    let _next = s.next.0;
    let number = number_at(s, wanted, rank)?;
    let place = sender_state::place_of(&s.numbers, number);
    Some(Packet {
        number: SeqNo(number),
        place,
        size: s.lengths[place] as usize,
    })
}

// Copies a packet to the output's front.
pub(super) fn put(packet: Packet, chunk: u32, store: &[u8], output: &mut [u8])
    requires { (offset_of chunk packet.place + packet.size ≤ length store.now) × (packet.size ≤ length output.old) }
    ensures { output.new ≡ bytes_at chunk packet.place packet.size store.now at_front_of output.old }
{
    let from = packet.place * (chunk as usize + 1044);
    wire::put_bytes(output, &store[from..from + packet.size]);
}
