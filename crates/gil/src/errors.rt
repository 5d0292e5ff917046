// "Error numbers": what a command may fail of. An error's number is its discriminant.
#[derive(Clone, Copy, Debug, PartialEq, Eq)]
pub enum Error {
    NotBound = 1,
    WrongSort,
    NoSuchCell,
    NinthFrame,
    SeventeenthInput,
    SeventeenthLocation,
    ThirtyThirdCell,
}
