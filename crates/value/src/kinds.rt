// What a cell can hold.
#[derive(Clone, Copy, PartialEq, Eq, Debug)]
pub enum Kind {
    Char,
    Int,
    Bool,
    Pointer,
}
