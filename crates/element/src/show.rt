// How the lanes of an element are printed.
use crate::rules::Open;
use std::fmt;

// The lanes of an element, with commas between them. `Numbers` of the crate `shown` prints a slice, while an element shows one lane at a time.
#[derive(Drop)]
pub struct LanesOf<'a, E>(pub &'a E);

impl<E: Open> fmt::Display for LanesOf<'_, E> {
    fn fmt<W: fmt::Write>(&self, f: &mut fmt::Formatter<W>) -> fmt::Result {
        for (i, lane) in (0..).map_while(|i| self.0.lane(i)).enumerate() {
            if i > 0 {
                write!(f, ",")?;
            }
            write!(f, "{lane}")?;
        }
        Ok(())
    }
}
