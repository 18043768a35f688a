/// Which number of a triple `min:typ:max` is meant (IEEE 1481-1999 and IEEE 1497-2001, a value of three members).
#[derive(Clone, Copy)]
pub enum Pick {
    Min,
    Typ,
    Max,
}
