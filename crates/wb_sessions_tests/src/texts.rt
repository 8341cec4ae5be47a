//! Texts of workbooks, and texts that are none, each with what is printed of it.

/// A text, and what is printed of it.
pub type Text = (&'static [u8], &'static [u8]);

const REFUSED: &[u8] = b"refused\n";

/// Texts of workbooks.
pub const WORKBOOKS: [Text; 14] = [
    (b"chapel-workbook 1\nend\n", b"ok 0\n"),
    (
        b"chapel-workbook 1\narray A over D [0, 0, 0, 9]\nrect D {1..4} none\nend\n",
        b"ok 2\n",
    ),
    (
        b"chapel-workbook 1\nassoc N of int {-1, 5}\nassoc T of text {\"a, }\", \"b\"}\nassoc U of text {}\nend\n",
        b"ok 3\n",
    ),
    (
        b"chapel-workbook 1\narray B over S [7, -7] irv 7\nrect P {1..3, 2..8 by 3} none\nsparse S of P {(1, 2), (3, 8)}\nend\n",
        b"ok 3\n",
    ),
    (
        b"chapel-workbook 1\nrect D {1..0} blockDist({1..10}, [4])\nrect E {1..0, 1..5} blockCycDist((0, -1), (2, 3), [2, 2])\nrect F {3..9 by -2} cyclicDist(1, [3])\nend\n",
        b"ok 3\n",
    ),
    (
        b"chapel-workbook 1\narray A over E []\narray C over T [1]\nrect E {1..0, 1..5} none\nrect G {1..1, 2..2, 3..3} none\nassoc T of text {\"x\"}\nend\n",
        b"ok 5\n",
    ),
    (
        b"chapel-workbook 1\nrect D {1..4} none\nrect E {1..10 by -3, 1..0} none\nrect F {2..8 by 3, 7..7, -1..1} none\nend\n",
        b"ok 3\n",
    ),
    (
        b"chapel-workbook 1\nrect D {0..11} blockDist({1..10}, [4])\nrect E {0..1, 0..2} cyclicDist((0, -1), [2, 3])\nrect F {0..11} blockCycDist(1, 2, [3])\nend\n",
        b"ok 3\n",
    ),
    (
        b"chapel-workbook 1\nrect D {1..2, -5..0} none\nassoc N of int {1, 5}\nsparse S of D {(1, -5)}\nend\n",
        b"ok 3\n",
    ),
    (
        b"chapel-workbook 1\narray A over D [0, 0, 0, 9]\narray B over S [7, 8] irv 7\narray C over N []\nrect D {1..4} cyclicDist(1, [2])\nassoc N of int {}\nsparse S of D {2, 4}\nassoc T of text {\"a\", \"b, }\"}\nend\n",
        b"ok 7\n",
    ),
    // numbers of 8, 16, 32 and 64 bits, at the bounds of each
    (
        b"chapel-workbook 1\narray A1 over D [-128, 127]\narray A2 over D [-129, 0]\narray A3 over D [0, 128]\narray A4 over D [-32768, 32767]\narray A5 over D [32768, -32769]\narray A6 over D [-2147483648, 2147483647]\narray A7 over D [2147483648, -2147483649]\narray A8 over D [-9223372036854775808, 9223372036854775807]\narray A9 over K []\nrect D {1..2} none\nassoc K of int {}\nend\n",
        b"ok 11\n",
    ),
    (
        b"chapel-workbook 1\narray B over S [300, -5] irv 70000\nrect D {1..4} none\nassoc N of int {-9223372036854775808, 127, 9223372036854775807}\nsparse S of D {2, 4}\nend\n",
        b"ok 4\n",
    ),
    // texts of at most 23 bytes, and longer ones; sparse domains of each rank
    (
        b"chapel-workbook 1\narray A over T2 [1, 300, -70000]\nassoc T1 of text {\"abcdefghijklmnopqrstuvw\", \"abcdefghijklmnopqrstu\xc3\xa9\"}\nassoc T2 of text {\"abcdefghijklmnopqrstuvw\", \"abcdefghijklmnopqrstuvwx\", \"b\"}\nassoc T3 of text {\"0123456789012345678901234567890123456789012345678901234567890123\", \"01234567890123456789012345678901234567890123456789012345678901\xc3\xa9\", \"abcdefghijklmnopqrstuv\xc3\xa9\"}\nend\n",
        b"ok 4\n",
    ),
    (
        b"chapel-workbook 1\nrect D1 {-3..3} none\nrect D2 {1..2, -5..0} none\nrect D3 {1..2, -5..0, 7..7} none\nsparse S1 of D1 {-3, 0, 3}\nsparse S2 of D2 {(1, -5), (1, 0), (2, -5)}\nsparse S3 of D3 {(1, -5, 7), (2, -5, 7), (2, 0, 7)}\nend\n",
        b"ok 6\n",
    ),
];

/// Texts that are those of no workbook.
pub const OTHERS: [Text; 41] = [
    // no text at all, no first line, no last line, no line end, something behind
    (b"", REFUSED),
    (b"end\n", REFUSED),
    (b"chapel-workbook 2\nend\n", REFUSED),
    (b"chapel-workbook 1\n", REFUSED),
    (b"chapel-workbook 1\nend", REFUSED),
    (b"chapel-workbook 1\nend\n\n", REFUSED),
    (b"chapel-workbook 1\r\nend\r\n", REFUSED),
    // no UTF-8
    (
        b"chapel-workbook 1\nassoc T of text {\"\xff\"}\nend\n",
        REFUSED,
    ),
    // names that do not ascend, a name that is none, a kind that is none
    (
        b"chapel-workbook 1\nrect D {1..4} none\narray A over D [0, 0, 0, 9]\nend\n",
        REFUSED,
    ),
    (
        b"chapel-workbook 1\nassoc N of int {}\nassoc N of int {}\nend\n",
        REFUSED,
    ),
    (b"chapel-workbook 1\nassoc 1 of int {}\nend\n", REFUSED),
    (b"chapel-workbook 1\nassoc N of bool {}\nend\n", REFUSED),
    // spellings that are not canonical
    (b"chapel-workbook 1\nrect D {1..4}  none\nend\n", REFUSED),
    (b"chapel-workbook 1\nrect D { 1..4} none\nend\n", REFUSED),
    (
        b"chapel-workbook 1\nrect D {1..4 by 1} none\nend\n",
        REFUSED,
    ),
    (b"chapel-workbook 1\nrect D {5..4} none\nend\n", REFUSED),
    (b"chapel-workbook 1\nrect D {01..4} none\nend\n", REFUSED),
    (b"chapel-workbook 1\nassoc N of int {5, -1}\nend\n", REFUSED),
    (b"chapel-workbook 1\nassoc N of int {1,5}\nend\n", REFUSED),
    // limits, and a mapping of another rank
    (b"chapel-workbook 1\nrect D {1..65537} none\nend\n", REFUSED),
    (
        b"chapel-workbook 1\nrect D {1..4} cyclicDist((1, 1), [2, 2])\nend\n",
        REFUSED,
    ),
    // what is not there, an index outside the parent, another number of elements, an implicit value too many or too few
    (b"chapel-workbook 1\narray A over D []\nend\n", REFUSED),
    (
        b"chapel-workbook 1\nrect D {1..4} none\nsparse S of D {5}\nend\n",
        REFUSED,
    ),
    (
        b"chapel-workbook 1\narray A over D [0, 0, 0]\nrect D {1..4} none\nend\n",
        REFUSED,
    ),
    (
        b"chapel-workbook 1\narray A over D [0, 0, 0, 0] irv 0\nrect D {1..4} none\nend\n",
        REFUSED,
    ),
    (
        b"chapel-workbook 1\narray A over S []\nrect D {1..4} none\nsparse S of D {}\nend\n",
        REFUSED,
    ),
    // numbers beyond 64 bits, or not as they are printed
    (
        b"chapel-workbook 1\narray A over D [1, 9223372036854775808]\nrect D {1..2} none\nend\n",
        REFUSED,
    ),
    (
        b"chapel-workbook 1\narray A over D [-9223372036854775809, 1]\nrect D {1..2} none\nend\n",
        REFUSED,
    ),
    (
        b"chapel-workbook 1\narray A over D [127, 0128]\nrect D {1..2} none\nend\n",
        REFUSED,
    ),
    (
        b"chapel-workbook 1\narray A over D [-0, 300]\nrect D {1..2} none\nend\n",
        REFUSED,
    ),
    (
        b"chapel-workbook 1\narray B over S [7] irv 9223372036854775808\nrect D {1..4} none\nsparse S of D {2}\nend\n",
        REFUSED,
    ),
    // texts of 65 bytes, texts that do not ascend, members of several forms
    (
        b"chapel-workbook 1\nassoc T of text {\"01234567890123456789012345678901234567890123456789012345678901234\"}\nend\n",
        REFUSED,
    ),
    (
        b"chapel-workbook 1\nassoc T of text {\"\", \"012345678901234567890123456789012345678901234567890123456789012\xc3\xa9\"}\nend\n",
        REFUSED,
    ),
    (
        b"chapel-workbook 1\nassoc T of text {\"abcdefghijklmnopqrstuvwx\", \"abcdefghijklmnopqrstuvw\"}\nend\n",
        REFUSED,
    ),
    (
        b"chapel-workbook 1\nassoc T of text {\"b\", \"abcdefghijklmnopqrstuvwx\"}\nend\n",
        REFUSED,
    ),
    (
        b"chapel-workbook 1\nassoc T of text {\"abcdefghijklmnopqrstuvwx\", \"abcdefghijklmnopqrstuvwx\"}\nend\n",
        REFUSED,
    ),
    (
        b"chapel-workbook 1\nassoc T of text {\"a\", 5}\nend\n",
        REFUSED,
    ),
    (
        b"chapel-workbook 1\nassoc N of int {5, \"a\"}\nend\n",
        REFUSED,
    ),
    (
        b"chapel-workbook 1\nrect D {1..2, 1..2} none\nsparse S of D {(1, 2), 1}\nend\n",
        REFUSED,
    ),
    (
        b"chapel-workbook 1\nrect D {1..2, 1..2} none\nsparse S of D {(1, 2), (1, 1)}\nend\n",
        REFUSED,
    ),
    (
        b"chapel-workbook 1\nrect D {1..2, 1..2} none\nsparse S of D {(1, 1, 1)}\nend\n",
        REFUSED,
    ),
];
