// tramcard: makes the card of a Reed-Muller code. Its arguments are the track number, the order r and the number of variables m, in
// decimal; standard output gets the card's 512 bytes. Where no card is made, standard error gets a line that says why, and standard
// output nothing. The answer to the arguments is `request_answer`, a definition of crate card_request.
// The stored args are track 14, r 1 and m 4, and stdout is that card: n is 16, k is 5 and D is 8.
#![tactic(auto)]

ghost use Rattle.std.specs.Prelude.{◌≡◌, ◌≤◌, length};
ghost use Rattle.card_request.specs.Request.{request_answer};

use std::env::FillError;
use std::rt::Env;

// How many bytes an argument has at most: the system hands a program no longer one.
const LONGEST_ARGUMENT: usize = 131072;

// Whether the program was given so many arguments. The name that it was called by is argument 0.
fn has_argument(rt: &HostRuntime, number: usize) -> bool {
    !matches!(rt.arg(number, &mut []), Err(FillError::NotPresent))
}

// An argument's text, put at the front of the buffer. One that is missing, or has no room in the buffer, counts as an empty one, which
// is no number.
fn argument<'a>(rt: &HostRuntime, number: usize, buffer: &'a mut [u8]) -> &'a [u8]
    ensures { length result.now ≤ length buffer.old }
{
    let end = rt.arg(number, buffer).unwrap_or(0);
    &buffer[..end]
}

// Puts out the card that answers these three texts. Nothing else goes to standard output.
fn put_out_card(rt: &HostRuntime, track: &[u8], r: &[u8], m: &[u8], card: &[u8; 512])
    requires { request_answer track.now r.now m.now ≡ Ok card.now }
{
    if let Err(failure) = standard_io::put_all(rt, card) {
        failure.tell(rt, "tramcard");
    }
}

fn main(rt: HostRuntime) {
    if !has_argument(&rt, 3) || has_argument(&rt, 4) {
        let _ = rt.eprintln(
            "usage: tramcard TRACK R M > CARD   (three numbers in decimal; a card of 512 bytes)",
        );
        return;
    }
    let mut track_buffer = [0; LONGEST_ARGUMENT];
    let mut r_buffer = [0; LONGEST_ARGUMENT];
    let mut m_buffer = [0; LONGEST_ARGUMENT];
    let track = argument(&rt, 1, &mut track_buffer);
    let r = argument(&rt, 2, &mut r_buffer);
    let m = argument(&rt, 3, &mut m_buffer);
    match card_request::card_for(track, r, m) {
        Ok(card) => put_out_card(&rt, track, r, m, &card),
        Err(refusal) => {
            let _ = eprintln!(rt; "tramcard: {refusal}");
        }
    }
}
