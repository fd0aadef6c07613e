// The reply to a line: what is printed of what a call answered.
use model::{Mean, Refusal, Totals};
use probing::out::Out;
use std::io;
use std::io::Write;

fn refused<W: Write>(to: &mut Out<W>, why: Refusal) -> io::Result<()> {
    let number = plic::number_of(why);
    writeln!(to.line()?, "refused {number}")
}

pub(crate) fn unreadable<W: Write>(to: &mut Out<W>) -> io::Result<()> {
    refused(to, Refusal::Unreadable)
}

// A call whose value is not printed.
pub(crate) fn silent<W: Write>(to: &mut Out<W>, answer: Result<u32, Refusal>) -> io::Result<()> {
    match answer {
        Ok(_) => Ok(()),
        Err(why) => refused(to, why),
    }
}

// A call whose value is printed after a label.
pub(crate) fn value<W: Write>(
    to: &mut Out<W>,
    label: &str,
    answer: Result<u32, Refusal>,
) -> io::Result<()> {
    match answer {
        Ok(value) => writeln!(to.line()?, "{label} {value}"),
        Err(why) => refused(to, why),
    }
}

pub(crate) fn mean<W: Write>(to: &mut Out<W>, answer: Result<Mean, Refusal>) -> io::Result<()> {
    match answer {
        Ok(Mean { ticks, claims }) => writeln!(to.line()?, "M {ticks} {claims}"),
        Err(why) => refused(to, why),
    }
}

pub(crate) fn totals<W: Write>(to: &mut Out<W>, answer: Result<Totals, Refusal>) -> io::Result<()> {
    match answer {
        Ok(
            Totals {
                clock,
                claims,
                waited,
                ages,
            },
        ) => writeln!(
            to.line()?,
            "clock {clock} claims {claims} waited {waited} open {ages}"
        ),
        Err(why) => refused(to, why),
    }
}

pub(crate) fn sound<W: Write>(to: &mut Out<W>, is_sound: bool) -> io::Result<()> {
    let digit = u8::from(is_sound);
    writeln!(to.line()?, "S {digit}")
}
