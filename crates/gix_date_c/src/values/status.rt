//! What a call answers.
ghost use Rattle.std.specs.Prelude.{◌≡◌};
ghost use Rattle.gix_date_c.specs as Spec;

/// How a call ended. C gets the number, and `include/gix_date.h` or `include/git_date.h` has it.
#[derive(Clone, Copy)]
pub(crate) enum Status {
    /// The call did what it is for.
    Done = 0,
    /// Bytes that have to be UTF-8 are not.
    NotText = 1,
    /// A number stands for no format, or for no option.
    NoSuchOption = 2,
    /// The buffer is too short for the text.
    NoRoom = 3,
    /// The text is no time of a header.
    InvalidTime = 4,
    /// No form that a date may have holds the text.
    UnknownFormat = 5,
    /// The day's midnight in UTC is no instant that can be computed with.
    DateConversion = 6,
    /// The text is relative to a moment, and none was given.
    MissingNow = 7,
    /// The relative text names an instant that cannot be computed.
    Range = 8,
    /// The moment is outside the instants that can be computed with.
    InvalidInstant = 9,
    /// The zone of the moment is none: its offset is too wide, or its rule or file cannot be read.
    InvalidZone = 10,
    /// The seconds or the offset are outside what a civil date can be computed for.
    Conversion = 11,
    /// The offset is 100 hours or more, or more than 35791394 minutes in an identity line.
    OffsetTooWide = 12,
    /// The pattern cannot be printed.
    Pattern = 13,
    /// Memory was asked for and refused.
    Memory = 14,
    /// The line is no signature line.
    NoSignature = 15,
    /// The name or the email holds `<`, `>`, a newline or NUL.
    BadPart = 16,
    /// The relative text is not careful. The call tells the place from which on it is not clear.
    Unclear = 17,
    /// Git reads no date either.
    Unreadable = 18,
    /// A number of a date is too large. The call tells its place.
    NumberTooLarge = 19,
    /// A date leads back beyond what Git can say. The call tells the place.
    BackTooFar = 20,
    /// A date begins with a year that Git refuses. The call tells the place.
    YearRefused = 21,
    /// The date is before 1970 or no instant that can be computed with, or Git cannot show it.
    GitRange = 22,
    /// The text is a number of seconds after the year 9999, which is not careful.
    AfterYear9999 = 23,
    /// Flags or a width stand in a format where Git says another offset, or begins again. The call tells the place.
    FlagRefused = 24,
    /// A directive of a format is none that all C libraries show alike. The call tells its place.
    UnknownDirective = 25,
    /// A width of a format is too large. The call tells its place.
    WidthTooLarge = 26,
    /// Git finds no identity in the line.
    NoIdentity = 27,
    /// The name or the email of a line to write holds NUL.
    NulInPart = 28,
    /// The name has no bytes.
    EmptyName = 29,
    /// The name holds only bytes that Git cuts off its ends.
    OnlyCrud = 30,
    /// The time is before 1970, perhaps by the clock of its identity line.
    BeforeEpoch = 31,
    /// The file of a zone counts leap seconds, as no time of Git does.
    ZoneCountsLeapSeconds = 32,
}

impl Status {
    /// The number for C.
    pub(crate) fn number(self) -> u32
        ensures { result ≡ Spec.number_of self }
    {
        self as u32
    }
}
