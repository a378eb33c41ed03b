// One line for a book: its name, the refusal and the size, and where a body breaks a rule the reason and the place.
use book::read;
use book::verdict::{Fault, Unreadable, judge};
use refusals::number_of;
use std::io;

pub fn show(rt: &impl Print, name: &str, bytes: &[u8]) -> io::Result<()> {
    let answer = read(bytes);
    print!(rt; "{name} {} {}", number_of(&answer), answer.unwrap_or(0))?;
    if let Err(Unreadable::Body(Fault { reason, place })) = judge(bytes) {
        print!(rt; " {} {place}", reason.number())?;
    }
    println!(rt;)
}
