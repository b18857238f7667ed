// What one unit of a flash holds.
#[derive(Clone, Copy, PartialEq, Eq, Debug)]
pub enum Unit {
    Blank,
    Programmed(u64),
    Unreadable,
}
