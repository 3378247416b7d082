// The checked examples of the paper that are run and not proved; the listing is the watch program's.
#![tactic(auto)]

use answers::Refusal;
use image::{HEADER_SIZE, OUTPUT_BOUND};
use records::RECORD_LENGTH;
use session::SESSION_LENGTH;
use std::io;

// Writes a line: what was tried, and the number that came of it.
fn line(rt: &impl Print, name: &str, number: u64) -> io::Result<()> {
    println!(rt; "{name} {number}")
}

// The number of an outcome.
fn told(outcome: Result<(), Refusal>) -> u64 {
    answers::outcome_number(outcome) as u64
}

// "Empty policy: 18 bytes."
fn empty_policy(rt: &impl Print) -> io::Result<()> {
    let image: [u8; HEADER_SIZE] = [5, 0, 18, 0, 0, 0, 18, 0, 0, 0, 18, 0, 0, 0, 18, 0, 0, 0];
    let mut session = [0u64; SESSION_LENGTH];
    line(rt, "empty policy, check", told(image::check(&image)))?;
    line(
        rt,
        "empty policy, start",
        told(session::start(&image, &mut session)),
    )?;
    line(
        rt,
        "17 bytes of it, check",
        told(image::check(&image[0..17])),
    )?;
    let mut out = [0u8; OUTPUT_BOUND];
    let length = match normaliser::normalise(&image, &mut out) {
        Ok(length) => length as u64,
        Err(refusal) => refusal.number() as u64,
    };
    line(rt, "empty policy, length of the normal image", length)
}

// "Every image now leads with a 16-bit 5, and 2 refuses the old 4."
fn old_image(rt: &impl Print) -> io::Result<()> {
    let image: [u8; HEADER_SIZE] = [4, 0, 18, 0, 0, 0, 18, 0, 0, 0, 18, 0, 0, 0, 18, 0, 0, 0];
    line(
        rt,
        "empty policy that leads with 4, check",
        told(image::check(&image)),
    )
}

// "a 16-bit owner last, a declared user or 65535 for nobody; 4 checks it": one rule without a mixture, no user.
fn owners(rt: &impl Print) -> io::Result<()> {
    let mut image = [0u8; 24];
    image[0] = 5;
    image[2] = 18;
    image[6] = 18;
    image[10] = 18;
    image[12] = 6;
    image[14] = 24;
    line(
        rt,
        "unused rule of user 0, no user declared, check",
        told(image::check(&image)),
    )?;
    image[22] = 255;
    image[23] = 255;
    line(
        rt,
        "unused rule of nobody, check",
        told(image::check(&image)),
    )
}

// "Code 9 with a short session: 9."
fn short_session(rt: &impl Print) -> io::Result<()> {
    let record: [u8; RECORD_LENGTH] = [9, 0, 4, 0, 2, 0, 255, 255];
    let mut short = [0u64; 5535];
    let mut whole = [0u64; SESSION_LENGTH];
    line(
        rt,
        "code 9, session of 5535",
        answers::number(monitor::step(&mut short, &record)) as u64,
    )?;
    line(
        rt,
        "code 9, session of 5536",
        answers::number(monitor::step(&mut whole, &record)) as u64,
    )
}

fn main(rt: HostRuntime) -> io::Result<()> {
    empty_policy(&rt)?;
    old_image(&rt)?;
    owners(&rt)?;
    short_session(&rt)
}
