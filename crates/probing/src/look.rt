// Looking: `V` shows every field that is not zero.
use crate::fields::{FIELDS, Field};
use crate::out::Out;
use crate::values::value_of;
use model::State;
use std::io;
use std::io::Write;

// The values of one field that are not zero, by rising index.
fn show<W: Write>(to: &mut Out<W>, state: &State, field: Field) -> io::Result<()> {
    for i in 0..field.room() {
        let value = value_of(state, field, i);
        if value != 0 {
            writeln!(to.line()?, "V {field} {i} {value}")?;
        }
    }
    Ok(())
}

pub fn look<W: Write>(to: &mut Out<W>, state: &State) -> io::Result<()> {
    for field in &FIELDS {
        show(to, state, *field)?;
    }
    writeln!(to.line()?, "V end")
}
