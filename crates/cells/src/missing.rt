// Why there is no value: what would carry it isn't held, or there is no such place.
#[derive(Clone, Copy, Debug, PartialEq, Eq)]
pub enum Missing {
    Absent,
    NoSuchPlace,
}
