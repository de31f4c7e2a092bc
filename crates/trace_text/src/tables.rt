//! The digits of short numbers, ready to be copied.

/// The tens and the ones of each number below 100: those of n at 2n.
pub(crate) const PAIRS: &[u8] = b"\
    00010203040506070809101112131415161718192021222324252627282930313233343536373839\
    40414243444546474849505152535455565758596061626364656667686970717273747576777879\
    8081828384858687888990919293949596979899";

/// Each number below 256 in decimal: n at 4n. The bytes after its digits are of no account.
pub(crate) const NUMBERS: &[u8] = b"\
    0   1   2   3   4   5   6   7   8   9   10  11  12  13  14  15  16  17  18  19  \
    20  21  22  23  24  25  26  27  28  29  30  31  32  33  34  35  36  37  38  39  \
    40  41  42  43  44  45  46  47  48  49  50  51  52  53  54  55  56  57  58  59  \
    60  61  62  63  64  65  66  67  68  69  70  71  72  73  74  75  76  77  78  79  \
    80  81  82  83  84  85  86  87  88  89  90  91  92  93  94  95  96  97  98  99  \
    100 101 102 103 104 105 106 107 108 109 110 111 112 113 114 115 116 117 118 119 \
    120 121 122 123 124 125 126 127 128 129 130 131 132 133 134 135 136 137 138 139 \
    140 141 142 143 144 145 146 147 148 149 150 151 152 153 154 155 156 157 158 159 \
    160 161 162 163 164 165 166 167 168 169 170 171 172 173 174 175 176 177 178 179 \
    180 181 182 183 184 185 186 187 188 189 190 191 192 193 194 195 196 197 198 199 \
    200 201 202 203 204 205 206 207 208 209 210 211 212 213 214 215 216 217 218 219 \
    220 221 222 223 224 225 226 227 228 229 230 231 232 233 234 235 236 237 238 239 \
    240 241 242 243 244 245 246 247 248 249 250 251 252 253 254 255 ";

/// The text of each stimulus port, 0 to 31, with a space after it: that of port n at 8n. The bytes after it are of no
/// account.
pub(crate) const PORTS: &[u8] = b"\
    port 0  port 1  port 2  port 3  port 4  port 5  port 6  port 7  port 8  port 9  \
    port 10 port 11 port 12 port 13 port 14 port 15 port 16 port 17 port 18 port 19 \
    port 20 port 21 port 22 port 23 port 24 port 25 port 26 port 27 port 28 port 29 \
    port 30 port 31 ";

/// The word of each width with a space after it, in four bytes: of one byte, of two, and of four. The bytes after it
/// are of no account.
pub(crate) const WIDTHS: &[u8] = b"u8  u16 u32 ";

/// How many of these bytes there are.
pub(crate) const WIDTH_LENS: &[u8] = &[3, 4, 4];

/// How many bytes a value of each of these widths has.
pub(crate) const VALUE_LENS: &[u8] = &[1, 2, 4];

/// By how many bits a value of each of these widths is moved up, so that its bytes are the first of four.
pub(crate) const VALUE_SHIFTS: &[u8] = &[24, 16, 0];

/// The words of the widths of data, each with a space after it, in four bytes: those of 4, 8, 16, 32 and 64 bits.
pub(crate) const DATUM_WIDTHS: &[u8] = b"u4  u8  u16 u32 u64 ";

/// How many of these bytes there are.
pub(crate) const DATUM_WIDTH_LENS: &[u8] = &[3, 3, 4, 4, 4];

/// How many hexadecimal digits a datum of each of these widths has.
pub(crate) const DATUM_DIGITS: &[u8] = &[1, 2, 4, 8, 16];

/// `local` and how late a local timestamp is, with a space after it, in 18 bytes: exact, then by its stamp, by its
/// packet, and by both. The bytes after it are of no account.
pub(crate) const LATENESSES: &[u8] =
    b"local exact       local stamp-late  local packet-late local both-late   ";

/// How many of these bytes there are.
pub(crate) const LATENESS_LENS: &[u8] = &[12, 17, 18, 16];

/// The flags of a first global timestamp, each with a space before it, in four bytes: first by whether the clock
/// changed, then by whether the time wrapped.
pub(crate) const FLAGS: &[u8] = b" 0 0 0 1 1 0 1 1";

/// How many bits the time of a second global timestamp has, with a space after it, in four bytes. The last is of no
/// account.
pub(crate) const BITS: &[u8] = b"48  64  ";

/// Whether a datum is marked, with a space before it and after it, in four bytes: first where it is not. The last is of
/// no account.
pub(crate) const MARKS: &[u8] = b" -   m  ";
