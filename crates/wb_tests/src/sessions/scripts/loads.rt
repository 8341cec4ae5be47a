//! Workbooks that are loaded from their texts.

use super::Script;

// A workbook is loaded where there is none, undone, and not redone under another one.
const LOAD_AND_UNDO: &str = r#"
{"op":"load","text":"chapel-workbook 1\narray A over D [0, 0, 0, 9]\nrect D {1..4} none\nend\n"} -> {"edit":1,"n":10}
{"op":"set","a":"A","i":1,"v":5} -> {"edit":2,"n":1}
{"op":"undo","k":1} -> {"by":2,"error":"E14","name":"blocked"}
{"op":"load","text":"chapel-workbook 1\narray A over D [0, 0, 0, 9]\nrect D {1..4} none\nend\n"} -> {"error":"E17","name":"not-empty"}
{"op":"undo","k":2} -> {"n":1,"undone":2}
{"op":"undo","k":1} -> {"n":10,"undone":1}
{"op":"size","d":"D"} -> {"error":"E04","name":"no-such-name"}
{"op":"load","text":"chapel-workbook 1\narray A over D [0, 0, 0, 9]\nrect D {1..4} none\nend\n"} -> {"edit":3,"n":10}
{"op":"redo","k":1} -> {"by":3,"error":"E14","name":"blocked"}
{"op":"load","text":"x"} -> {"error":"E02","name":"bad-literal"}
{"op":"print"} -> {"text":"chapel-workbook 1\narray A over D [0, 0, 0, 9]\nrect D {1..4} none\nend\n"}
"#;

// Every kind of object is there, with its mapping, its elements and its implicit value, and goes again.
const EVERY_KIND: &str = r#"
{"op":"load","text":"chapel-workbook 1\narray B over S [6, 8] irv 7\narray C over T [0, 3]\nrect D {1..10 by -3} blockDist({1..10}, [4])\nassoc N of int {1, 5}\nsparse S of D {4, 10}\nassoc T of text {\"a\", \"b\"}\nend\n"} -> {"edit":1,"n":23}
{"op":"get","a":"B","i":4} -> {"value":6}
{"op":"get","a":"B","i":7} -> {"value":7}
{"op":"get","a":"C","i":"b"} -> {"value":3}
{"op":"where","d":"D","i":10} -> {"locale":3}
{"op":"size","d":"N"} -> {"size":2}
{"op":"print"} -> {"text":"chapel-workbook 1\narray B over S [6, 8] irv 7\narray C over T [0, 3]\nrect D {1..10 by -3} blockDist({1..10}, [4])\nassoc N of int {1, 5}\nsparse S of D {4, 10}\nassoc T of text {\"a\", \"b\"}\nend\n"}
{"op":"undo"} -> {"n":23,"undone":1}
{"op":"print"} -> {"text":"chapel-workbook 1\nend\n"}
{"op":"redo","k":1} -> {"n":23,"redone":1}
{"op":"get","a":"B","i":7} -> {"value":7}
"#;

// An empty workbook is loaded over an empty one, again and again.
const NOTHING: &str = r#"
{"op":"load","text":"chapel-workbook 1\nend\n"} -> {"edit":1,"n":0}
{"op":"load","text":"chapel-workbook 1\nend\n"} -> {"edit":2,"n":0}
{"op":"domain","d":"D","is":"{1..2}"} -> {"edit":3,"n":3}
{"op":"load","text":"chapel-workbook 1\nend\n"} -> {"error":"E17","name":"not-empty"}
{"op":"undo","k":2} -> {"n":0,"undone":2}
{"op":"redo","k":2} -> {"by":3,"error":"E14","name":"blocked"}
"#;

// A text that is no workbook's is refused when it is read, whatever is wrong in it and whatever there is.
const NO_BOOKS: &str = r#"
{"op":"domain","d":"D","is":"{1..4}"} -> {"edit":1,"n":3}
{"op":"load","text":""} -> {"error":"E02","name":"bad-literal"}
{"op":"load","text":"chapel-workbook 1\nrect D {1..4} none\nend"} -> {"error":"E02","name":"bad-literal"}
{"op":"load","text":"chapel-workbook 1\nrect D { 1..4} none\nend\n"} -> {"error":"E02","name":"bad-literal"}
{"op":"load","text":"chapel-workbook 1\nrect D {1..65537} none\nend\n"} -> {"error":"E02","name":"bad-literal"}
{"op":"load","text":"chapel-workbook 1\nrect D {1..4} blockDist({1..4}, [257])\nend\n"} -> {"error":"E02","name":"bad-literal"}
{"op":"load","text":"chapel-workbook 1\narray A over D [0]\nend\n"} -> {"error":"E02","name":"bad-literal"}
{"op":"load","text":"chapel-workbook 1\nrect D {1..2} none\nrect D {1..2} none\nend\n"} -> {"error":"E02","name":"bad-literal"}
{"op":"load","text":"chapel-workbook 1\nrect E {1..2} none\nrect D {1..2} none\nend\n"} -> {"error":"E02","name":"bad-literal"}
{"op":"load","text":"chapel-workbook 1\nrect D {1..4} none\nsparse S of D {5}\nend\n"} -> {"error":"E02","name":"bad-literal"}
{"op":"load","text":"chapel-workbook 2\nhistory 0\nend\n"} -> {"error":"E02","name":"bad-literal"}
{"op":"load","text":5} -> {"error":"E01","name":"bad-request"}
{"op":"load"} -> {"error":"E01","name":"bad-request"}
{"op":"load","d":"D"} -> {"error":"E01","name":"bad-request"}
{"op":"load","text":"x","d":"D"} -> {"error":"E01","name":"bad-request"}
"#;

// The text of a history has the text of a loaded workbook in it.
const IN_A_HISTORY: &str = r#"
{"op":"load","text":"chapel-workbook 1\nrect D {1..4} none\nend\n"} -> {"edit":1,"n":3}
{"op":"history"} -> {"text":"chapel-workbook 2\nrect D {1..4} none\nhistory 1\n+ {\"op\":\"load\",\"text\":\"chapel-workbook 1\\nrect D {1..4} none\\nend\\n\"}\nend\n"}
"#;

// Arrays whose numbers need 8, 16, 32 and 64 bits, at the bounds of each, in either order; each comes back as it was.
const NUMBERS_OF_EACH_WIDTH: &str = r#"
{"op":"load","text":"chapel-workbook 1\narray A over D []\nrect D {1..0} none\nend\n"} -> {"edit":1,"n":6}
{"op":"print"} -> {"text":"chapel-workbook 1\narray A over D []\nrect D {1..0} none\nend\n"}
{"op":"undo"} -> {"n":6,"undone":1}
{"op":"load","text":"chapel-workbook 1\narray A over D [0]\nrect D {1..1} none\nend\n"} -> {"edit":2,"n":7}
{"op":"print"} -> {"text":"chapel-workbook 1\narray A over D [0]\nrect D {1..1} none\nend\n"}
{"op":"undo"} -> {"n":7,"undone":2}
{"op":"load","text":"chapel-workbook 1\narray A over D [-128, 127]\nrect D {1..2} none\nend\n"} -> {"edit":3,"n":8}
{"op":"print"} -> {"text":"chapel-workbook 1\narray A over D [-128, 127]\nrect D {1..2} none\nend\n"}
{"op":"undo"} -> {"n":8,"undone":3}
{"op":"load","text":"chapel-workbook 1\narray A over D [-129]\nrect D {1..1} none\nend\n"} -> {"edit":4,"n":7}
{"op":"print"} -> {"text":"chapel-workbook 1\narray A over D [-129]\nrect D {1..1} none\nend\n"}
{"op":"undo"} -> {"n":7,"undone":4}
{"op":"load","text":"chapel-workbook 1\narray A over D [128]\nrect D {1..1} none\nend\n"} -> {"edit":5,"n":7}
{"op":"print"} -> {"text":"chapel-workbook 1\narray A over D [128]\nrect D {1..1} none\nend\n"}
{"op":"undo"} -> {"n":7,"undone":5}
{"op":"load","text":"chapel-workbook 1\narray A over D [-32768, 32767]\nrect D {1..2} none\nend\n"} -> {"edit":6,"n":8}
{"op":"print"} -> {"text":"chapel-workbook 1\narray A over D [-32768, 32767]\nrect D {1..2} none\nend\n"}
{"op":"undo"} -> {"n":8,"undone":6}
{"op":"load","text":"chapel-workbook 1\narray A over D [-32769]\nrect D {1..1} none\nend\n"} -> {"edit":7,"n":7}
{"op":"print"} -> {"text":"chapel-workbook 1\narray A over D [-32769]\nrect D {1..1} none\nend\n"}
{"op":"undo"} -> {"n":7,"undone":7}
{"op":"load","text":"chapel-workbook 1\narray A over D [32768]\nrect D {1..1} none\nend\n"} -> {"edit":8,"n":7}
{"op":"print"} -> {"text":"chapel-workbook 1\narray A over D [32768]\nrect D {1..1} none\nend\n"}
{"op":"undo"} -> {"n":7,"undone":8}
{"op":"load","text":"chapel-workbook 1\narray A over D [-2147483648, 2147483647]\nrect D {1..2} none\nend\n"} -> {"edit":9,"n":8}
{"op":"print"} -> {"text":"chapel-workbook 1\narray A over D [-2147483648, 2147483647]\nrect D {1..2} none\nend\n"}
{"op":"undo"} -> {"n":8,"undone":9}
{"op":"load","text":"chapel-workbook 1\narray A over D [-2147483649]\nrect D {1..1} none\nend\n"} -> {"edit":10,"n":7}
{"op":"print"} -> {"text":"chapel-workbook 1\narray A over D [-2147483649]\nrect D {1..1} none\nend\n"}
{"op":"undo"} -> {"n":7,"undone":10}
{"op":"load","text":"chapel-workbook 1\narray A over D [2147483648]\nrect D {1..1} none\nend\n"} -> {"edit":11,"n":7}
{"op":"print"} -> {"text":"chapel-workbook 1\narray A over D [2147483648]\nrect D {1..1} none\nend\n"}
{"op":"undo"} -> {"n":7,"undone":11}
{"op":"load","text":"chapel-workbook 1\narray A over D [-9223372036854775808, 9223372036854775807]\nrect D {1..2} none\nend\n"} -> {"edit":12,"n":8}
{"op":"print"} -> {"text":"chapel-workbook 1\narray A over D [-9223372036854775808, 9223372036854775807]\nrect D {1..2} none\nend\n"}
{"op":"undo"} -> {"n":8,"undone":12}
{"op":"load","text":"chapel-workbook 1\narray A over D [-1, 255, -65535, 4294967295, -4294967296]\nrect D {1..5} none\nend\n"} -> {"edit":13,"n":11}
{"op":"print"} -> {"text":"chapel-workbook 1\narray A over D [-1, 255, -65535, 4294967295, -4294967296]\nrect D {1..5} none\nend\n"}
{"op":"undo"} -> {"n":11,"undone":13}
{"op":"load","text":"chapel-workbook 1\narray A over D [-4294967296, 4294967295, -65535, 255, -1]\nrect D {1..5} none\nend\n"} -> {"edit":14,"n":11}
{"op":"print"} -> {"text":"chapel-workbook 1\narray A over D [-4294967296, 4294967295, -65535, 255, -1]\nrect D {1..5} none\nend\n"}
{"op":"undo"} -> {"n":11,"undone":14}
{"op":"load","text":"chapel-workbook 1\narray A over D [1, -2]\narray B over D [-300, 3]\narray C over D [70000, -4]\nrect D {1..2} none\narray E over D [5, 9223372036854775807]\narray F over G []\nassoc G of int {}\nend\n"} -> {"edit":15,"n":27}
{"op":"print"} -> {"text":"chapel-workbook 1\narray A over D [1, -2]\narray B over D [-300, 3]\narray C over D [70000, -4]\nrect D {1..2} none\narray E over D [5, 9223372036854775807]\narray F over G []\nassoc G of int {}\nend\n"}
{"op":"undo"} -> {"n":27,"undone":15}
{"op":"load","text":"chapel-workbook 1\narray B over S [7, -129] irv 70000\nrect D {1..4} none\nsparse S of D {2, 4}\nend\n"} -> {"edit":16,"n":12}
{"op":"print"} -> {"text":"chapel-workbook 1\narray B over S [7, -129] irv 70000\nrect D {1..4} none\nsparse S of D {2, 4}\nend\n"}
{"op":"undo"} -> {"n":12,"undone":16}
{"op":"load","text":"chapel-workbook 1\narray B over S [32768, -1] irv -9223372036854775808\nrect D {1..4} none\nsparse S of D {2, 4}\nend\n"} -> {"edit":17,"n":12}
{"op":"print"} -> {"text":"chapel-workbook 1\narray B over S [32768, -1] irv -9223372036854775808\nrect D {1..4} none\nsparse S of D {2, 4}\nend\n"}
{"op":"undo"} -> {"n":12,"undone":17}
"#;

// Numbers beyond 64 bits, and those that aren't spelled as they are printed.
const NUMBERS_OF_NO_WIDTH: &str = r#"
{"op":"load","text":"chapel-workbook 1\narray A over D [9223372036854775808]\nrect D {1..1} none\nend\n"} -> {"error":"E02","name":"bad-literal"}
{"op":"load","text":"chapel-workbook 1\narray A over D [-9223372036854775809]\nrect D {1..1} none\nend\n"} -> {"error":"E02","name":"bad-literal"}
{"op":"load","text":"chapel-workbook 1\narray A over D [1, 300, 18446744073709551616]\nrect D {1..3} none\nend\n"} -> {"error":"E02","name":"bad-literal"}
{"op":"load","text":"chapel-workbook 1\narray A over D [0127]\nrect D {1..1} none\nend\n"} -> {"error":"E02","name":"bad-literal"}
{"op":"load","text":"chapel-workbook 1\narray A over D [-0]\nrect D {1..1} none\nend\n"} -> {"error":"E02","name":"bad-literal"}
{"op":"load","text":"chapel-workbook 1\narray A over D [+1]\nrect D {1..1} none\nend\n"} -> {"error":"E02","name":"bad-literal"}
{"op":"load","text":"chapel-workbook 1\narray A over D [1, ]\nrect D {1..1} none\nend\n"} -> {"error":"E02","name":"bad-literal"}
{"op":"load","text":"chapel-workbook 1\narray A over D [127, 128,32768]\nrect D {1..3} none\nend\n"} -> {"error":"E02","name":"bad-literal"}
{"op":"load","text":"chapel-workbook 1\narray B over S [7] irv 9223372036854775808\nrect D {1..4} none\nsparse S of D {2}\nend\n"} -> {"error":"E02","name":"bad-literal"}
"#;

// Elements of any width stand in an array that was read with narrow ones, and the narrow ones come back.
const WIDER_NUMBERS_AFTER_A_LOAD: &str = r#"
{"op":"load","text":"chapel-workbook 1\narray A over D [-128, 127]\nrect D {1..2} none\nend\n"} -> {"edit":1,"n":8}
{"op":"set","a":"A","i":1,"v":128} -> {"edit":2,"n":1}
{"op":"set","a":"A","i":2,"v":-9223372036854775808} -> {"edit":3,"n":1}
{"op":"copy","a":"A","i":1,"b":"A","j":1,"c":2147483520} -> {"edit":4,"n":1}
{"op":"print"} -> {"text":"chapel-workbook 1\narray A over D [2147483648, -9223372036854775808]\nrect D {1..2} none\nend\n"}
{"op":"undo"} -> {"n":1,"undone":4}
{"op":"undo"} -> {"n":1,"undone":3}
{"op":"undo"} -> {"n":1,"undone":2}
{"op":"print"} -> {"text":"chapel-workbook 1\narray A over D [-128, 127]\nrect D {1..2} none\nend\n"}
{"op":"reshape","d":"D","to":"{1..3}"} -> {"edit":5,"n":2}
{"op":"fill_all","a":"A","v":65536} -> {"edit":6,"n":3}
{"op":"print"} -> {"text":"chapel-workbook 1\narray A over D [65536, 65536, 65536]\nrect D {1..3} none\nend\n"}
{"op":"undo"} -> {"n":3,"undone":6}
{"op":"print"} -> {"text":"chapel-workbook 1\narray A over D [-128, 127, 0]\nrect D {1..3} none\nend\n"}
"#;

// Domains of integers, of short and of long texts, and sparse ones of each rank; each comes back as it was.
const MEMBERS_OF_EACH_FORM: &str = r#"
{"op":"load","text":"chapel-workbook 1\nassoc T of text {}\nend\n"} -> {"edit":1,"n":1}
{"op":"print"} -> {"text":"chapel-workbook 1\nassoc T of text {}\nend\n"}
{"op":"undo"} -> {"n":1,"undone":1}
{"op":"load","text":"chapel-workbook 1\nassoc T of text {\"abcdefghijklmnopqrstuvw\", \"bcdefghijklmnopqrstuvwx\"}\nend\n"} -> {"edit":2,"n":3}
{"op":"print"} -> {"text":"chapel-workbook 1\nassoc T of text {\"abcdefghijklmnopqrstuvw\", \"bcdefghijklmnopqrstuvwx\"}\nend\n"}
{"op":"undo"} -> {"n":3,"undone":2}
{"op":"load","text":"chapel-workbook 1\nassoc T of text {\"abcdefghijklmnopqrstuvwx\"}\nend\n"} -> {"edit":3,"n":2}
{"op":"print"} -> {"text":"chapel-workbook 1\nassoc T of text {\"abcdefghijklmnopqrstuvwx\"}\nend\n"}
{"op":"undo"} -> {"n":2,"undone":3}
{"op":"load","text":"chapel-workbook 1\nassoc T of text {\"abcdefghijklmnopqrstuvw\", \"abcdefghijklmnopqrstuvwx\", \"bcdefghijklmnopqrstuvwx\"}\nend\n"} -> {"edit":4,"n":4}
{"op":"print"} -> {"text":"chapel-workbook 1\nassoc T of text {\"abcdefghijklmnopqrstuvw\", \"abcdefghijklmnopqrstuvwx\", \"bcdefghijklmnopqrstuvwx\"}\nend\n"}
{"op":"undo"} -> {"n":4,"undone":4}
{"op":"load","text":"chapel-workbook 1\nassoc T of text {\"0123456789012345678901234567890123456789012345678901234567890123\", \"abcdefghijklmnopqrstuvw\", \"abcdefghijklmnopqrstuvwx\", \"b\"}\nend\n"} -> {"edit":5,"n":5}
{"op":"print"} -> {"text":"chapel-workbook 1\nassoc T of text {\"0123456789012345678901234567890123456789012345678901234567890123\", \"abcdefghijklmnopqrstuvw\", \"abcdefghijklmnopqrstuvwx\", \"b\"}\nend\n"}
{"op":"undo"} -> {"n":5,"undone":5}
{"op":"load","text":"chapel-workbook 1\nassoc T of text {\"01234567890123456789012345678901234567890123456789012345678901é\", \"abcdefghijklmnopqrstuvé\", \"abcdefghijklmnopqrstué\", \"é\", \"éabcdefghijklmnopqrstu\"}\nend\n"} -> {"edit":6,"n":6}
{"op":"print"} -> {"text":"chapel-workbook 1\nassoc T of text {\"01234567890123456789012345678901234567890123456789012345678901é\", \"abcdefghijklmnopqrstuvé\", \"abcdefghijklmnopqrstué\", \"é\", \"éabcdefghijklmnopqrstu\"}\nend\n"}
{"op":"undo"} -> {"n":6,"undone":6}
{"op":"load","text":"chapel-workbook 1\narray A over T [300, -1, 70000, 5]\nassoc T of text {\"\", \"abcdefghijklmnopqrstuvw\", \"abcdefghijklmnopqrstuvwx\", \"b\"}\nend\n"} -> {"edit":7,"n":12}
{"op":"print"} -> {"text":"chapel-workbook 1\narray A over T [300, -1, 70000, 5]\nassoc T of text {\"\", \"abcdefghijklmnopqrstuvw\", \"abcdefghijklmnopqrstuvwx\", \"b\"}\nend\n"}
{"op":"undo"} -> {"n":12,"undone":7}
{"op":"load","text":"chapel-workbook 1\nassoc N of int {-9223372036854775808, -1, 0, 9223372036854775807}\nend\n"} -> {"edit":8,"n":5}
{"op":"print"} -> {"text":"chapel-workbook 1\nassoc N of int {-9223372036854775808, -1, 0, 9223372036854775807}\nend\n"}
{"op":"undo"} -> {"n":5,"undone":8}
{"op":"load","text":"chapel-workbook 1\nrect D {-1000000000000000000..-999999999999999998} none\nsparse S of D {-1000000000000000000, -999999999999999998}\nend\n"} -> {"edit":9,"n":7}
{"op":"print"} -> {"text":"chapel-workbook 1\nrect D {-1000000000000000000..-999999999999999998} none\nsparse S of D {-1000000000000000000, -999999999999999998}\nend\n"}
{"op":"undo"} -> {"n":7,"undone":9}
{"op":"load","text":"chapel-workbook 1\nrect D {1..2, -5..0} cyclicDist((1, 0), [2, 1])\nsparse S of D {(1, -5), (1, 0), (2, -5)}\nend\n"} -> {"edit":10,"n":8}
{"op":"print"} -> {"text":"chapel-workbook 1\nrect D {1..2, -5..0} cyclicDist((1, 0), [2, 1])\nsparse S of D {(1, -5), (1, 0), (2, -5)}\nend\n"}
{"op":"undo"} -> {"n":8,"undone":10}
{"op":"load","text":"chapel-workbook 1\nrect D {1..2, -5..0, 7..7} none\nsparse S of D {(1, -5, 7), (2, -5, 7), (2, 0, 7)}\nend\n"} -> {"edit":11,"n":8}
{"op":"print"} -> {"text":"chapel-workbook 1\nrect D {1..2, -5..0, 7..7} none\nsparse S of D {(1, -5, 7), (2, -5, 7), (2, 0, 7)}\nend\n"}
{"op":"undo"} -> {"n":8,"undone":11}
{"op":"load","text":"chapel-workbook 1\nrect D {1..2, -5..0, 7..7} none\nassoc N of int {5}\nrect P {1..0} none\nsparse Q of P {}\nsparse S of D {(1, -5, 7)}\nassoc T of text {\"\"}\nend\n"} -> {"edit":12,"n":15}
{"op":"print"} -> {"text":"chapel-workbook 1\nrect D {1..2, -5..0, 7..7} none\nassoc N of int {5}\nrect P {1..0} none\nsparse Q of P {}\nsparse S of D {(1, -5, 7)}\nassoc T of text {\"\"}\nend\n"}
{"op":"undo"} -> {"n":15,"undone":12}
"#;

// Sets with a text of 65 bytes, that don't ascend, or of several forms.
const MEMBERS_OF_NO_FORM: &str = r#"
{"op":"load","text":"chapel-workbook 1\nassoc T of text {\"01234567890123456789012345678901234567890123456789012345678901234\"}\nend\n"} -> {"error":"E02","name":"bad-literal"}
{"op":"load","text":"chapel-workbook 1\nassoc T of text {\"012345678901234567890123456789012345678901234567890123456789012é\"}\nend\n"} -> {"error":"E02","name":"bad-literal"}
{"op":"load","text":"chapel-workbook 1\nassoc T of text {\"\", \"01234567890123456789012345678901234567890123456789012345678901234\", \"a\"}\nend\n"} -> {"error":"E02","name":"bad-literal"}
{"op":"load","text":"chapel-workbook 1\nassoc T of text {\"abcdefghijklmnopqrstuvwx\", \"abcdefghijklmnopqrstuvw\"}\nend\n"} -> {"error":"E02","name":"bad-literal"}
{"op":"load","text":"chapel-workbook 1\nassoc T of text {\"b\", \"abcdefghijklmnopqrstuvwx\"}\nend\n"} -> {"error":"E02","name":"bad-literal"}
{"op":"load","text":"chapel-workbook 1\nassoc T of text {\"abcdefghijklmnopqrstuvw\", \"abcdefghijklmnopqrstuvw\"}\nend\n"} -> {"error":"E02","name":"bad-literal"}
{"op":"load","text":"chapel-workbook 1\nassoc T of text {\"abcdefghijklmnopqrstuvwx\", \"abcdefghijklmnopqrstuvwx\"}\nend\n"} -> {"error":"E02","name":"bad-literal"}
{"op":"load","text":"chapel-workbook 1\nassoc T of text {\"a\", 5}\nend\n"} -> {"error":"E02","name":"bad-literal"}
{"op":"load","text":"chapel-workbook 1\nassoc T of text {5}\nend\n"} -> {"error":"E02","name":"bad-literal"}
{"op":"load","text":"chapel-workbook 1\nassoc N of int {5, \"a\"}\nend\n"} -> {"error":"E02","name":"bad-literal"}
{"op":"load","text":"chapel-workbook 1\nassoc N of int {(1, 2)}\nend\n"} -> {"error":"E02","name":"bad-literal"}
{"op":"load","text":"chapel-workbook 1\nassoc N of int {9223372036854775808}\nend\n"} -> {"error":"E02","name":"bad-literal"}
{"op":"load","text":"chapel-workbook 1\nrect D {1..2, 1..2} none\nsparse S of D {(1, 2), 1}\nend\n"} -> {"error":"E02","name":"bad-literal"}
{"op":"load","text":"chapel-workbook 1\nrect D {1..2, 1..2} none\nsparse S of D {(1, 2), (1, 1)}\nend\n"} -> {"error":"E02","name":"bad-literal"}
{"op":"load","text":"chapel-workbook 1\nrect D {1..2, 1..2} none\nsparse S of D {(1, 1, 1)}\nend\n"} -> {"error":"E02","name":"bad-literal"}
{"op":"load","text":"chapel-workbook 1\nrect D {1..2, 1..2, 1..2} none\nsparse S of D {(1, 1, 3)}\nend\n"} -> {"error":"E02","name":"bad-literal"}
"#;

// A longer text comes to a domain that was read with short ones, and short ones to one with a long text.
const TEXTS_AFTER_A_LOAD: &str = r#"
{"op":"load","text":"chapel-workbook 1\narray A over T [5, -6]\nassoc L of text {\"abcdefghijklmnopqrstuvwx\"}\nassoc T of text {\"abcdefghijklmnopqrstuvw\", \"b\"}\nend\n"} -> {"edit":1,"n":10}
{"op":"add","d":"T","i":"abcdefghijklmnopqrstuvwx"} -> {"edit":2,"n":2}
{"op":"add","d":"L","i":"b"} -> {"edit":3,"n":1}
{"op":"set","a":"A","i":"abcdefghijklmnopqrstuvwx","v":7} -> {"edit":4,"n":1}
{"op":"print"} -> {"text":"chapel-workbook 1\narray A over T [5, 7, -6]\nassoc L of text {\"abcdefghijklmnopqrstuvwx\", \"b\"}\nassoc T of text {\"abcdefghijklmnopqrstuvw\", \"abcdefghijklmnopqrstuvwx\", \"b\"}\nend\n"}
{"op":"undo","k":1} -> {"by":2,"error":"E14","name":"blocked"}
{"op":"undo","k":4} -> {"n":1,"undone":4}
{"op":"undo","k":3} -> {"n":1,"undone":3}
{"op":"undo","k":2} -> {"n":2,"undone":2}
{"op":"print"} -> {"text":"chapel-workbook 1\narray A over T [5, -6]\nassoc L of text {\"abcdefghijklmnopqrstuvwx\"}\nassoc T of text {\"abcdefghijklmnopqrstuvw\", \"b\"}\nend\n"}
{"op":"undo","k":1} -> {"n":10,"undone":1}
"#;

/// Each script, over a history of its own.
pub const SCRIPTS: [Script; 11] = [
    ("", LOAD_AND_UNDO, 3, 32),
    ("", EVERY_KIND, 1, 69),
    ("", NOTHING, 3, 3),
    ("", NO_BOOKS, 1, 3),
    ("", IN_A_HISTORY, 1, 3),
    ("", NUMBERS_OF_EACH_WIDTH, 17, 320),
    ("", NUMBERS_OF_NO_WIDTH, 0, 0),
    ("", WIDER_NUMBERS_AFTER_A_LOAD, 6, 22),
    ("", MEMBERS_OF_EACH_FORM, 12, 152),
    ("", MEMBERS_OF_NO_FORM, 0, 0),
    ("", TEXTS_AFTER_A_LOAD, 4, 28),
];
