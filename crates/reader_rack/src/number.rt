// The number of a reader.
ghost use Rattle.reader_rack.specs.Statements.{IsReader};

/// The number of a reader, 1 to 4.
#[derive(Clone, Copy, PartialEq, Eq, Debug)]
pub(crate) struct ReaderNumber {
    pub(crate) number: u8,
    ghost reader: { IsReader number },
}
