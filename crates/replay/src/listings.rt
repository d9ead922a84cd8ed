// A stored image for its listing; and a stored call on parameters, whose words stand behind the image, for the listing and the locals. They are printed, or the refusal.
use image_listing::list_image;
use params_listing::list_params;
use program_io::write_output;
use std::io::Read;
use stored_records::next_words;

// Prints the listing of an image, or its refusal; the buffer is lent as room for the text, and one that does not fit is not printed.
pub fn print_listing(rt: &(impl Print + Eprint), image: &[u8], out: &mut [u8]) {
    let count = list_image(image, out);
    write_output(rt, &out[..count]);
}

// Prints the text of a call; the buffer is lent as room for it, and a text that does not fit is not printed.
fn print_params(rt: &(impl Print + Eprint), image: &[u8], words: &[u16], out: &mut [u8]) {
    let count = list_params(image, words, out);
    write_output(rt, &out[..count]);
}

// The call on this image, whose words come next: answers whether they fitted.
pub fn replay_params(
    rt: &(impl Print + Eprint),
    input: &mut impl Read,
    image: &[u8],
    out: &mut [u8],
) -> bool {
    let mut words = [0u16; 4096];
    match next_words(input, &mut words) {
        None => false,
        Some(k) => {
            print_params(rt, image, &words[..k], out);
            true
        }
    }
}
