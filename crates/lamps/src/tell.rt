// What happens, in words.
use packet_read::Packet;
use program_lines::say;
use program_lines::say::Named;
use receiver_why::Reason;
use std::fmt;
use terms::{Refusal, SeqNo};

fn why(refusal: Refusal) -> &'static str {
    match refusal {
        Refusal::BelowNext => "number below the next to take",
        Refusal::BeyondSpan => "number minus next to take is 512 or more",
        Refusal::AlreadyHeld => "number already held",
        Refusal::PayloadLong => "payload longer than a slot",
        _ => "as the table of refusals says",
    }
}

pub fn refused(rt: &(impl Print + Eprint), refusal: Refusal) {
    let number = u64::from(refusal.number());
    say::text(
        rt,
        format_args!("{}, {}\n", Named(": refused", number), why(refusal)),
    );
}

// A payload by its number, with a word where it is empty.
#[derive(Drop)]
pub struct Payload {
    pub number: SeqNo,
    pub size: usize,
}

impl fmt::Display for Payload {
    fn fmt<W: fmt::Write>(&self, f: &mut fmt::Formatter<W>) -> fmt::Result {
        let empty = if self.size == 0 { " (empty)" } else { "" };
        write!(f, "{}{empty}", self.number.0)
    }
}

pub fn packet(rt: &(impl Print + Eprint), p: Packet, how: &str) {
    let payload = Payload {
        number: p.seq_nro,
        size: p.payload.len,
    };
    say::text(rt, format_args!("packet {payload}{how}"));
}

pub fn held(rt: &(impl Print + Eprint), next: SeqNo) {
    let next = u64::from(next.0);
    say::text(rt, format_args!("{}\n", Named(": held, waiting for", next)));
}

// Where a number stands, as support reads it.
pub fn reason(rt: &(impl Print + Eprint), number: u32, answer: Result<Reason, Refusal>) {
    let asked = Named("  why is", u64::from(number));
    say::text(rt, format_args!("{asked} not delivered? "));
    match answer {
        Ok(Reason::LastNumber) => say::text(rt, "It is the last number, which no packet can use"),
        Ok(Reason::AtOrBelowStart) => say::text(rt, "It is at or below the start"),
        Ok(Reason::Taken) => say::text(rt, "It is: it was taken"),
        Ok(Reason::Ready) => say::text(rt, "It is ready: it has only to be taken"),
        Ok(Reason::BehindGap(smallest)) => say::text(
            rt,
            Named(
                "It is held behind a gap: the smallest missing number is",
                u64::from(smallest.0),
            ),
        ),
        Ok(Reason::Missing) => say::text(rt, "It is missing, and a later one came"),
        Ok(Reason::NotYetSeen) => say::text(rt, "It is not yet seen"),
        Ok(Reason::BeyondSpan) => say::text(rt, "It is beyond the span"),
        Err(why) => say::text(rt, Named("Refused", u64::from(why.number()))),
    }
    say::text(rt, ".\n");
}

// An acknowledgement that names missing numbers, as our own reader reads it.
pub fn acknowledgement(rt: &(impl Print + Eprint), bytes: &[u8]) {
    let Ok(p) = packet_read::read(bytes) else {
        return;
    };
    if p.nacks.len == 0 {
        return;
    }
    let through = Named("  acknowledged: ack-through", u64::from(p.ack_through.0));
    say::text(rt, format_args!("{through}, NACKs"));
    let (nacks, _) = packet_parts::nacks(bytes).as_chunks();
    for nack in nacks {
        say::text(rt, format_args!(" {}", u32::from_be_bytes(*nack)));
    }
    say::text(rt, "\n");
}
