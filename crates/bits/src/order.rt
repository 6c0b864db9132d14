// Which bit comes first, of a byte and of a number alike: the least significant one (000, section 2.2), or the most (01, "The record";
// 003, section 2.1).
#[derive(Clone, Copy, Debug, PartialEq, Eq)]
pub enum Order {
    Least,
    Most,
}
