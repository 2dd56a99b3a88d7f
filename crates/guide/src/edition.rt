// The editions of the guide.

// PRICAT 2.0d and PRICAT 2.0c.
#[derive(Clone, Copy, PartialEq, Eq, Debug)]
pub enum Edition {
    D,
    C,
}
