// The lamp's side: a packet is read and accepted, and what is ready is taken into the lamp's image.
use super::image::Image;
use super::tell::Payload;
use super::{sender, tell};
use program_lines::{part, say};
use receiver_state::Receiver;
use terms::SeqNo;

#[derive(Clone, Copy)]
pub struct Lamp {
    receiver: Receiver,
    // 512 slots of 128 bytes
    store: [u8; 65536],
    image: Image,
    // how many bytes of its image it has
    filled: usize,
}

impl Lamp {
    pub fn new() -> Lamp {
        let store = [0; 65536];
        Lamp {
            receiver: receiver_state::start(SeqNo(0), 128, &store).state,
            store,
            image: [0; 1000],
            filled: 0,
        }
    }

    // What it has of its image.
    pub fn shown(&self) -> &[u8] {
        part::front(&self.image, self.filled)
    }

    // Takes the next payload into the rest of the image, if it is held.
    fn take(&mut self) -> Option<Payload> {
        let number = self.receiver.head.next;
        let rest = self.image.get_mut(self.filled..)?;
        let taken = receiver_calls::take(self.receiver, &self.store, rest);
        let size = taken.answer.ok()?;
        self.receiver = taken.state;
        self.filled = self.filled.saturating_add(size);
        Some(Payload { number, size })
    }

    // Takes all that is ready, or tells what is waited for.
    fn take_ready(&mut self, rt: &(impl Print + Eprint)) {
        let Some(first) = self.take() else {
            tell::held(rt, self.receiver.head.next);
            return;
        };
        say::text(rt, format_args!(": taken {first}"));
        // at most once for each slot
        for _ in 0..512 {
            let Some(next) = self.take() else {
                break;
            };
            say::text(rt, format_args!(", {next}"));
        }
        say::text(rt, "\n");
    }

    // The plain acknowledgement, written and read back.
    fn acknowledge(&self, rt: &(impl Print + Eprint)) {
        let mut out = [0u8; 1044];
        let (to, from) = (sender::SENDER_ID, sender::LAMP_ID);
        match receiver_ack::acknowledge(&self.receiver, to, from, &mut out) {
            Ok(n) => tell::acknowledgement(rt, part::front(&out, n)),
            Err(why) => {
                say::text(rt, "  acknowledged");
                tell::refused(rt, why);
            }
        }
    }

    // Tells why a piece is not delivered.
    pub fn explain(&self, rt: &(impl Print + Eprint), number: u32) {
        tell::reason(rt, number, receiver_why::why(&self.receiver, SeqNo(number)));
    }

    // Accepts a payload, takes what is ready, and acknowledges; a refused one changes nothing.
    fn accept(&mut self, rt: &(impl Print + Eprint), number: SeqNo, payload: &[u8]) {
        let accepted = receiver_calls::accept(self.receiver, number, payload, &mut self.store);
        if let Err(why) = accepted.answer {
            tell::refused(rt, why);
            return;
        }
        self.receiver = accepted.state;
        self.take_ready(rt);
        self.acknowledge(rt);
    }

    // A packet arrives, in the way that the words say.
    pub fn receive(&mut self, rt: &(impl Print + Eprint), packet: &[u8], how: &str) {
        match packet_read::read(packet) {
            Ok(p) => {
                tell::packet(rt, p, how);
                self.accept(rt, p.seq_nro, packet_parts::payload(packet));
            }
            Err(why) => {
                say::text(rt, "bytes arrive");
                tell::refused(rt, why);
            }
        }
    }
}
