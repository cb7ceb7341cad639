// The packets of one submit: how each is made and stored.
ghost use Rattle.std.specs.Prelude.{◌≡◌, ◌+◌, ◌≤◌, length};
ghost use Rattle.terms.specs.Lists.{◌at_front_of◌};
ghost use Rattle.sender_submit_answer.specs.Answer.{chunks_of};
ghost use Rattle.sender_submit.specs.Chunks.{laid_at, lowest_free, joined_by, stored_by};
ghost use Rattle.sender_submit.specs.Steps.{Acking, Roomy};

use packet_write::Fields;
use receiver_ack::AckFields;
use sender_state::Sender;
use terms::{SeqNo, StreamId};

// What they have in common. The ack fields and NACKs are as every receiver gives them, so that the writer takes them.
#[derive(Clone, Copy)]
pub(super) struct Making<'a> {
    pub(super) acks: AckFields,
    pub(super) nacks: &'a [u32],
    pub(super) send: StreamId,
    pub(super) recv: StreamId,
    ghost acking: { Acking acks nacks.now },
}

impl Making<'_> {
    ghost use Rattle.sender_submit.specs.Making.{made_by};

    // Writes the packet of a chunk to the front of a place, and answers how long it is. The writer has nothing to refuse: the place is
    // long enough, and the ack fields fit their flags.
    #[tactic(auto, using(crate::proofs::Ways::made_written))]
    fn put(&self, number: SeqNo, chunk: &[u8], place: &mut [u8]) -> usize
        requires { (length chunk.now ≤ 1812) × (length chunk.now + 1044 ≤ length place.old) }
        ensures value { result ≡ length (made_by self.now number.0 chunk.now) }
        ensures place_after { place.new ≡ made_by self.now number.0 chunk.now at_front_of place.old }
    {
        let f = Fields {
            send_stream_id: self.send,
            recv_stream_id: self.recv,
            seq_nro: number,
            ack_through: self.acks.ack_through,
            resend_delay: 0,
            flags: self.acks.flags,
            delay: self.acks.delay,
            max_size: 0,
        };
        packet_write::write(f, self.nacks, b"", b"", chunk, place)
            .unwrap()
            .length
    }

    // Stores a chunk as a packet in the lowest free place, waiting under the next number.
    #[tactic(auto, using(crate::proofs::Storing::room_place, crate::proofs::Ways::made_most))]
    fn store(&self, s: &mut Sender, chunk: &[u8], store: &mut [u8])
        requires { (length chunk.now ≤ s.old.chunk) × Roomy s.old 1 (length store.old) }
        ensures state { s.new ≡ joined_by s.old (length (made_by self.now s.old.next.0 chunk.now)) }
        ensures store_after { store.new ≡ laid_at s.old.chunk (lowest_free s.old) (made_by self.now s.old.next.0 chunk.now) store.old }
    {
        let at = sender_state::place_of(&s.marks, 0);
        let from = at * (s.chunk as usize + 1044);
        let size = self.put(s.next, chunk, &mut store[from..]);
        s.numbers[at] = s.next.0;
        s.lengths[at] = size as u32;
        s.marks[at] = 1;
        s.next = SeqNo(s.next.0 + 1);
    }

    // Stores the bytes in chunks, one after the other.
    #[tactic(auto, using(crate::proofs::Storing::storing_start, crate::proofs::Storing::storing_asks, crate::proofs::Storing::storing_end))]
    pub(super) fn store_all(&self, mut s: Sender, bytes: &[u8], store: &mut [u8]) -> Sender
        requires { (1 ≤ s.chunk) × Roomy s (chunks_of s.chunk (length bytes.now)) (length store.old) }
        ensures { record { state = result; store = store.new }
            ≡ stored_by (made_by self.now) (chunks_of s.chunk (length bytes.now)) bytes.now s store.old }
    {
        for chunk in bytes.chunks(s.chunk as usize) {
            self.store(&mut s, chunk, store);
        }
        s
    }
}
