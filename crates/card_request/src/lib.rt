// A request for a card, as radio staff type it: the track number, the order r and the number of variables m, three texts in decimal.
// It is answered with the card, or with the first thing that is wrong with it; specs/Request.antt says which.
#![tactic(auto)]

ghost use Rattle.std.specs.Prelude.{◌≡◌, Some, IfOk};
ghost use Rattle.model.specs.Refusals.{if_served};
ghost use Rattle.reed_muller_theory.specs.MadeCards.{IsReedMullerCard};
ghost use Rattle.card_request.specs.Request.{number_in, number_text, request_refusal, request_card, request_answer};
ghost use Rattle.card_request.specs.Request.{refusal_text, request_status, request_values};

use std::error::Error;
use std::fmt;

// Why no card is made: a text is no number, or one that does not fit, or the code is outside the limits. The definitions number them: 101,
// 102 and 103 for the texts, and 13 of document 02.
#[derive(Clone, Copy, Debug, PartialEq, Eq)]
pub enum RequestRefusal {
    NotATrack,
    NotAnOrder,
    NotVariables,
    OutsideLimits,
}

impl fmt::Display for RequestRefusal {
    ghost output = { λ refusal. Some (refusal_text refusal) };

    fn fmt<W: fmt::Write>(&self, f: &mut fmt::Formatter<W>) -> fmt::Result {
        match self {
            RequestRefusal::NotATrack => f.write_str("TRACK is not a number from 0 to 65535"),
            RequestRefusal::NotAnOrder => f.write_str("R is not a number from 0 to 4294967295"),
            RequestRefusal::NotVariables => f.write_str("M is not a number from 0 to 4294967295"),
            RequestRefusal::OutsideLimits => {
                f.write_str("refused 13: M is not 1 to 6, R is above M, or k is above 12")
            }
        }
    }
}

impl Error for RequestRefusal {}

// The number in a text, at most `most`. Once it is past 32 bits, no further digit brings it back.
pub fn number_in(text: &[u8], most: u32) -> Option<u32>
    ensures { result ≡ number_text most text.now }
{
    if text.is_empty() {
        return None;
    }
    let mut number: u32 = 0;
    for &byte in text {
        if !byte.is_ascii_digit() {
            return None;
        }
        number = number.checked_mul(10)?.checked_add(u32::from(byte - b'0'))?;
    }
    (number <= most).then_some(number)
}

// The answer to a request: the card for the track number, the order r and the number of variables m that the texts give.
pub fn card_for(track: &[u8], r: &[u8], m: &[u8]) -> Result<[u8; 512], RequestRefusal>
    ensures answer { result ≡ request_answer track.now r.now m.now }
    ensures status { request_status result ≡ request_refusal track.now r.now m.now }
    ensures values { request_values result
        ≡ if_served (request_status result) (request_card track.now r.now m.now) }
    ensures made { IfOk result
        (λ card. IsReedMullerCard (number_in track.now) (number_in r.now) (number_in m.now) card) }
{
    let track = number_in(track, u32::from(u16::MAX)).ok_or(RequestRefusal::NotATrack)?;
    let r = number_in(r, u32::MAX).ok_or(RequestRefusal::NotAnOrder)?;
    let m = number_in(m, u32::MAX).ok_or(RequestRefusal::NotVariables)?;
    depot::make_card(track as u16, r, m).map_err(|_| RequestRefusal::OutsideLimits)
}
