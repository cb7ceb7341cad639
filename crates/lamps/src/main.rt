// The story of the lamps: an image is cut into packets, which come out of order, with repeats and gaps, and a lamp takes it in order.
#![tactic(auto)]

mod image;
mod lamp;
mod sender;
mod tell;

use image::Image;
use lamp::Lamp;
use program_lines::say;
use program_lines::say::Named;

// Packets of the image arrive.
fn arrive(rt: &(impl Print + Eprint), lamp: &mut Lamp, original: &Image, numbers: &[u32]) {
    for &number in numbers {
        let mut bytes = [0u8; 256];
        let packet = sender::send(number, image::piece(original, number), &mut bytes);
        lamp.receive(rt, packet, " arrives");
    }
}

// A packet arrives that has the number of an earlier one, and other bytes: its number, 128 times.
fn again(rt: &(impl Print + Eprint), lamp: &mut Lamp, number: u8) {
    let mut bytes = [0u8; 256];
    let packet = sender::send(u32::from(number), &[number; 128], &mut bytes);
    lamp.receive(rt, packet, " again, with other bytes");
}

fn compare(rt: &(impl Print + Eprint), original: &Image, shown: &[u8]) {
    say::text(rt, Named("The lamp's image:", shown.len() as u64));
    if shown == original.as_slice() {
        say::text(rt, " bytes, the same as the original, byte for byte.\n");
    } else {
        say::text(rt, " bytes, and another than the original.\n");
        say::fault(rt, "another image\n");
    }
}

fn main(rt: HostRuntime) {
    let original = image::drawn();
    say::text(
        &rt,
        "An image of 1000 bytes goes to a lamp as packets 1 to 9; packet 2 is empty, as a keep-alive is.\n",
    );
    let mut lamp = Lamp::new();
    arrive(&rt, &mut lamp, &original, &[2, 3]);
    lamp.explain(&rt, 3);
    arrive(&rt, &mut lamp, &original, &[1, 4, 6]);
    again(&rt, &mut lamp, 3);
    arrive(&rt, &mut lamp, &original, &[9]);
    again(&rt, &mut lamp, 6);
    arrive(&rt, &mut lamp, &original, &[7, 5, 8]);
    compare(&rt, &original, lamp.shown());
}
