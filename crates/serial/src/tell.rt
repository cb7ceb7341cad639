// What is heard, in words.
use packet_read::Packet;
use program_lines::say;
use program_lines::say::Named;
use serial_state::LineReader;
use terms::Refusal;

pub fn refused(rt: &(impl Print + Eprint), why: Refusal) {
    let number = u64::from(why.number());
    say::text(rt, format_args!("{}\n", Named("refused", number)));
}

fn fields(rt: &(impl Print + Eprint), p: Packet) {
    say::text(
        rt,
        format_args!(
            "{}{}{}{}{}{}{}{}{}{}\n",
            Named("send", u64::from(p.send_stream_id.0)),
            Named(", receive", u64::from(p.recv_stream_id.0)),
            Named(", number", u64::from(p.seq_nro.0)),
            Named(", ack-through", u64::from(p.ack_through.0)),
            Named(", NACKs", (p.nacks.len / 4) as u64),
            Named(", resend delay", u64::from(p.resend_delay)),
            Named(", flags", u64::from(p.flags)),
            Named(", delay", u64::from(p.delay)),
            Named(", maximum size", u64::from(p.max_size)),
            Named(", payload", p.payload.len as u64)
        ),
    );
}

// A packet's length and its fields, or why it cannot be read.
pub fn packet(rt: &(impl Print + Eprint), bytes: &[u8]) {
    let length = bytes.len() as u64;
    say::text(rt, format_args!("{}: ", Named("packet of", length)));
    match packet_read::read(bytes) {
        Ok(p) => fields(rt, p),
        Err(why) => refused(rt, why),
    }
}

// Where the line ends, by the reader's phase, which is a number for hosts in C.
pub fn end(rt: &(impl Print + Eprint), r: LineReader) {
    match r.phase {
        0 => say::text(rt, "the line ends behind a packet\n"),
        1 => say::text(rt, "the line ends inside a length\n"),
        2 => say::text(
            rt,
            format_args!(
                "{}{}\n",
                Named("the line ends inside a packet of", r.size as u64),
                Named(", of which there are", r.there as u64)
            ),
        ),
        _ => say::text(rt, "the line is not read on\n"),
    }
}
