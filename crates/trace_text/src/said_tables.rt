//! How the lines of data, flags, triggers, frequencies, NULL_TS and errors are spelt, by the numbers of their rows in
//! the table of opcodes, and that of ASYNC after them. What the tables hold where other rows are is of no account.

/// These, a bit for each number.
pub(crate) const WRITTEN: u64 = 0b1111_1101_1111_1111_1101_0111_1111_1111_0100;

/// The word of each row with a space after it, and that of ASYNC, in eight bytes.
pub(crate) const WORDS: &[u8] = b"\
    ................merr    ........data    data    data    data    data    data    \
    data    data    data    data    flag    ........gerr    ........data    data    \
    data    data    data    data    data    data    data    data    flag    ........\
    nullts  trig    trig    freq    freq    async   ";

/// How many of these bytes there are.
pub(crate) const WORD_LENS: &[u8] = &[
    0, 0, 5, 0, 5, 5, 5, 5, 5, 5, 5, 5, 5, 5, 5, 0, 5, 0, 5, 5, 5, 5, 5, 5, 5, 5, 5, 5, 5, 0, 7, 5,
    5, 5, 5, 5,
];

/// How many places the line has: 1 or 0.
pub(crate) const PLACE_COUNTS: &[u8] = &[
    0, 0, 1, 0, 1, 1, 1, 1, 1, 1, 1, 1, 1, 1, 1, 0, 0, 0, 1, 1, 1, 1, 1, 1, 1, 1, 1, 1, 1, 0, 0, 0,
    0, 0, 0, 0,
];

/// What is after the place, in eight bytes: a datum's width between spaces, or the space of a flag or an error.
pub(crate) const WIDTHS: &[u8] = b"\
    ................        ........ u8      u16     u32     u64     u8      u16    \
    \x20u32     u64     u4      u4             ........................ u8      u16    \
    \x20u32     u64     u8      u16     u32     u64     u4      u4             ........\
    \x20                       ........................";

/// How many of these bytes there are.
pub(crate) const WIDTH_LENS: &[u8] = &[
    0, 0, 1, 0, 4, 5, 5, 5, 4, 5, 5, 5, 4, 4, 1, 0, 0, 0, 4, 5, 5, 5, 4, 5, 5, 5, 4, 4, 1, 0, 0, 0,
    0, 0, 0, 0,
];

/// How many hexadecimal digits the value has. A frequency has none: it is put in decimal.
pub(crate) const DIGIT_COUNTS: &[u8] = &[
    0, 0, 2, 0, 2, 4, 8, 16, 2, 4, 8, 16, 1, 1, 0, 0, 2, 0, 2, 4, 8, 16, 2, 4, 8, 16, 1, 1, 0, 0,
    0, 2, 2, 0, 0, 0,
];

/// What is between the value and the timestamp, in four bytes: a datum's mark between spaces, or the space of a trigger
/// or a frequency.
pub(crate) const MARKS: &[u8] = b"\
    ................ -   -   -   -   m   m   m   m   -   m      ............ -   -  \
    \x20-   -   m   m   m   m   -   m      ....                    ....";

/// How many of these bytes there are.
pub(crate) const MARK_LENS: &[u8] = &[
    0, 0, 0, 0, 3, 3, 3, 3, 3, 3, 3, 3, 3, 3, 0, 0, 0, 0, 3, 3, 3, 3, 3, 3, 3, 3, 3, 3, 0, 0, 0, 1,
    1, 1, 1, 0,
];

/// How many timestamps the line has: 1, or 0 where it is an error's or an ASYNC's.
pub(crate) const STAMP_COUNTS: &[u8] = &[
    0, 1, 0, 1, 1, 1, 1, 1, 1, 1, 1, 1, 1, 1, 1, 1, 0, 1, 1, 1, 1, 1, 1, 1, 1, 1, 1, 1, 1, 1, 1, 1,
    1, 1, 1, 0,
];
