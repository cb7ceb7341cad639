// The image, made up by a formula, and its pieces.
use std::array;

pub type Image = [u8; 1000];

pub fn drawn() -> Image {
    array::from_fn(|i| (i * 31 % 251) as u8)
}

// The bytes of the image that a packet carries: 128 are in packet 1, none in packet 2, and 128 in each one after it. The last has the 104 that are left.
pub fn piece(image: &Image, number: u32) -> &[u8] {
    if number == 2 {
        return &[];
    }
    let place = number.saturating_sub(2) % 8;
    image.chunks(128).nth(place as usize).unwrap_or(&[])
}
