//! Worked histories of indices that come and go, and of domains that end.

use super::Script;

// Adding an index that is there reads it, so the first addition cannot be undone under the second.
const ADDING_TWICE: &str = r#"
{"op":"assoc","d":"N","of":"text"} -> {"edit":1,"n":1}
{"op":"add","d":"N","i":"x"} -> {"edit":2,"n":1}
{"op":"add","d":"N","i":"x"} -> {"edit":3,"n":0}
{"op":"undo","k":2} -> {"by":3,"error":"E14","name":"blocked"}
{"op":"undo","k":3} -> {"n":0,"undone":3}
{"op":"undo","k":2} -> {"n":1,"undone":2}
{"op":"remove","d":"N","i":"x"} -> {"edit":4,"n":0}
"#;

// New elements over a sparse domain are the implicit value.
const SPARSE_WITH_AN_IMPLICIT_VALUE: &str = r#"
{"op":"domain","d":"D","is":"{1..10}"} -> {"edit":1,"n":3}
{"op":"sparse","d":"S","of":"D"} -> {"edit":2,"n":2}
{"op":"array","a":"A","d":"S"} -> {"edit":3,"n":3}
{"op":"irv","a":"A","v":7} -> {"edit":4,"n":1}
{"op":"add","d":"S","i":3} -> {"edit":5,"n":2}
{"op":"get","a":"A","i":3} -> {"value":7}
{"op":"get","a":"A","i":4} -> {"value":7}
{"op":"set","a":"A","i":4,"v":1} -> {"error":"E06","name":"out-of-domain"}
{"op":"add","d":"S","i":99} -> {"error":"E07","name":"out-of-parent"}
{"op":"array","a":"B","d":"D"} -> {"edit":6,"n":13}
{"op":"copy","a":"B","i":1,"b":"A","j":4,"c":1} -> {"edit":7,"n":1}
{"op":"get","a":"B","i":1} -> {"value":8}
{"op":"undo","k":4} -> {"by":5,"error":"E14","name":"blocked"}
"#;

// An index that is removed takes its element along, and undo brings both back.
const INDEX_REMOVED: &str = r#"
{"op":"domain","d":"D","is":"{1..4}"} -> {"edit":1,"n":3}
{"op":"sparse","d":"S","of":"D"} -> {"edit":2,"n":2}
{"op":"array","a":"A","d":"S"} -> {"edit":3,"n":3}
{"op":"add","d":"S","i":2} -> {"edit":4,"n":2}
{"op":"set","a":"A","i":2,"v":5} -> {"edit":5,"n":1}
{"op":"remove","d":"S","i":2} -> {"edit":6,"n":2}
{"op":"size","d":"S"} -> {"size":0}
{"op":"get","a":"A","i":2} -> {"value":0}
{"op":"set","a":"A","i":2,"v":6} -> {"error":"E06","name":"out-of-domain"}
{"op":"undo"} -> {"n":2,"undone":6}
{"op":"get","a":"A","i":2} -> {"value":5}
{"op":"undo","k":4} -> {"by":5,"error":"E14","name":"blocked"}
{"op":"remove","d":"S","i":3} -> {"edit":7,"n":0}
{"op":"add","d":"S","i":[1,2]} -> {"error":"E05","name":"wrong-kind"}
{"op":"add","d":"S","i":"x"} -> {"error":"E05","name":"wrong-kind"}
{"op":"add","d":"D","i":2} -> {"error":"E05","name":"wrong-kind"}
{"op":"remove","d":"D","i":2} -> {"error":"E05","name":"wrong-kind"}
{"op":"add","d":"A","i":2} -> {"error":"E05","name":"wrong-kind"}
{"op":"remove","d":"X","i":2} -> {"error":"E04","name":"no-such-name"}
"#;

// A domain ends only where nothing is bound to it, and undo brings all of it back.
const DOMAINS_DROPPED: &str = r#"
{"op":"domain","d":"D","is":"{1..4}"} -> {"edit":1,"n":3}
{"op":"array","a":"A","d":"D"} -> {"edit":2,"n":7}
{"op":"drop_domain","d":"D"} -> {"error":"E08","name":"in-use"}
{"op":"drop_array","a":"A"} -> {"edit":3,"n":7}
{"op":"drop_domain","d":"D"} -> {"edit":4,"n":3}
{"op":"size","d":"D"} -> {"error":"E04","name":"no-such-name"}
{"op":"undo","k":3} -> {"by":4,"error":"E14","name":"blocked"}
{"op":"undo","k":4} -> {"n":3,"undone":4}
{"op":"size","d":"D"} -> {"size":4}
{"op":"where","d":"D","i":4} -> {"locale":0}
{"op":"undo","k":3} -> {"n":7,"undone":3}
{"op":"get","a":"A","i":4} -> {"value":0}
{"op":"drop_domain","d":"A"} -> {"error":"E05","name":"wrong-kind"}
{"op":"drop_domain","d":"X"} -> {"error":"E04","name":"no-such-name"}
{"op":"sparse","d":"S","of":"D"} -> {"edit":5,"n":2}
{"op":"add","d":"S","i":2} -> {"edit":6,"n":1}
{"op":"drop_array","a":"A"} -> {"edit":7,"n":7}
{"op":"drop_domain","d":"D"} -> {"error":"E08","name":"in-use"}
{"op":"drop_domain","d":"S"} -> {"edit":8,"n":3}
{"op":"drop_domain","d":"D"} -> {"edit":9,"n":3}
{"op":"undo","k":8} -> {"by":9,"error":"E14","name":"blocked"}
{"op":"undo","k":9} -> {"n":3,"undone":9}
{"op":"undo","k":8} -> {"n":3,"undone":8}
{"op":"size","d":"S"} -> {"size":1}
{"op":"assoc","d":"N","of":"int"} -> {"edit":10,"n":1}
{"op":"add","d":"N","i":5} -> {"edit":11,"n":1}
{"op":"add","d":"N","i":-7} -> {"edit":12,"n":1}
{"op":"drop_domain","d":"N"} -> {"edit":13,"n":3}
{"op":"size","d":"N"} -> {"error":"E04","name":"no-such-name"}
{"op":"undo","k":13} -> {"n":3,"undone":13}
{"op":"size","d":"N"} -> {"size":2}
{"op":"where","d":"N","i":-7} -> {"locale":0}
{"op":"where","d":"N","i":7} -> {"error":"E06","name":"out-of-domain"}
"#;

// The indices of a sparse domain lie by the mapping of its parent, also after that changes.
const MAPPED_BY_THE_PARENT: &str = r#"
{"op":"domain","d":"D","is":"{0..5}","map":"cyclicDist(0, [2])"} -> {"edit":1,"n":3}
{"op":"sparse","d":"S","of":"D"} -> {"edit":2,"n":2}
{"op":"add","d":"S","i":3} -> {"edit":3,"n":1}
{"op":"add","d":"S","i":4} -> {"edit":4,"n":1}
{"op":"where","d":"S","i":3} -> {"locale":1}
{"op":"where","d":"S","i":4} -> {"locale":0}
{"op":"where","d":"S","i":5} -> {"error":"E06","name":"out-of-domain"}
{"op":"remap","d":"D","map":"blockDist({0..5}, [2])"} -> {"edit":5,"n":1}
{"op":"where","d":"S","i":3} -> {"locale":1}
{"op":"where","d":"S","i":4} -> {"locale":1}
{"op":"undo","k":5} -> {"n":1,"undone":5}
{"op":"where","d":"S","i":4} -> {"locale":0}
{"op":"remap","d":"S","map":"none"} -> {"error":"E05","name":"wrong-kind"}
{"op":"remap","d":"D","map":"cyclicDist((1, 1), [2, 2])"} -> {"error":"E15","name":"bad-mapping"}
"#;

// A new implicit value, and copies over a sparse domain: of an element, also to itself, and of the implicit value.
const COPIES_OVER_A_SPARSE_DOMAIN: &str = r#"
{"op":"domain","d":"D","is":"{1..4}"} -> {"edit":1,"n":3}
{"op":"sparse","d":"S","of":"D"} -> {"edit":2,"n":2}
{"op":"add","d":"S","i":1} -> {"edit":3,"n":1}
{"op":"add","d":"S","i":2} -> {"edit":4,"n":1}
{"op":"array","a":"A","d":"S"} -> {"edit":5,"n":5}
{"op":"irv","a":"A","v":7} -> {"edit":6,"n":1}
{"op":"copy","a":"A","i":1,"b":"A","j":1,"c":5} -> {"edit":7,"n":1}
{"op":"copy","a":"A","i":2,"b":"A","j":1,"c":1} -> {"edit":8,"n":1}
{"op":"copy","a":"A","i":1,"b":"A","j":4,"c":1} -> {"edit":9,"n":1}
{"op":"get","a":"A","i":1} -> {"value":8}
{"op":"undo","k":6} -> {"by":9,"error":"E14","name":"blocked"}
{"op":"undo","k":7} -> {"by":8,"error":"E14","name":"blocked"}
{"op":"undo","k":9} -> {"n":1,"undone":9}
{"op":"get","a":"A","i":1} -> {"value":5}
{"op":"undo","k":6} -> {"n":1,"undone":6}
{"op":"get","a":"A","i":4} -> {"value":0}
{"op":"redo","k":6} -> {"n":1,"redone":6}
{"op":"get","a":"A","i":4} -> {"value":7}
{"op":"undo","k":8} -> {"n":1,"undone":8}
{"op":"undo","k":7} -> {"n":1,"undone":7}
{"op":"get","a":"A","i":1} -> {"value":0}
{"op":"redo","k":7} -> {"n":1,"redone":7}
{"op":"redo","k":8} -> {"n":1,"redone":8}
{"op":"get","a":"A","i":2} -> {"value":6}
"#;

// Indices that come to an associative domain and leave it, by number, and an array over it that comes later and goes.
const COMING_AND_LEAVING: &str = r#"
{"op":"assoc","d":"N","of":"int"} -> {"edit":1,"n":1}
{"op":"add","d":"N","i":5} -> {"edit":2,"n":1}
{"op":"add","d":"N","i":6} -> {"edit":3,"n":1}
{"op":"remove","d":"N","i":5} -> {"edit":4,"n":1}
{"op":"undo","k":1} -> {"by":2,"error":"E14","name":"blocked"}
{"op":"undo","k":2} -> {"by":4,"error":"E14","name":"blocked"}
{"op":"undo","k":3} -> {"n":1,"undone":3}
{"op":"size","d":"N"} -> {"size":0}
{"op":"undo","k":4} -> {"n":1,"undone":4}
{"op":"where","d":"N","i":5} -> {"locale":0}
{"op":"array","a":"A","d":"N"} -> {"edit":5,"n":4}
{"op":"undo","k":2} -> {"by":5,"error":"E14","name":"blocked"}
{"op":"redo","k":3} -> {"by":5,"error":"E14","name":"blocked"}
{"op":"undo","k":5} -> {"n":4,"undone":5}
{"op":"redo","k":3} -> {"n":1,"redone":3}
{"op":"redo","k":5} -> {"n":5,"redone":5}
{"op":"redo","k":4} -> {"by":5,"error":"E14","name":"blocked"}
{"op":"undo","k":5} -> {"n":5,"undone":5}
{"op":"redo","k":4} -> {"n":1,"redone":4}
{"op":"where","d":"N","i":5} -> {"error":"E06","name":"out-of-domain"}
{"op":"undo"} -> {"n":1,"undone":4}
{"op":"where","d":"N","i":5} -> {"locale":0}
"#;

// An index came while no array was over its domain, and is brought back where one is.
const COMING_UNDER_AN_ARRAY: &str = r#"
{"op":"assoc","d":"N","of":"int"} -> {"edit":1,"n":1}
{"op":"array","a":"A","d":"N"} -> {"edit":2,"n":3}
{"op":"undo","k":2} -> {"n":3,"undone":2}
{"op":"add","d":"N","i":5} -> {"edit":3,"n":1}
{"op":"undo","k":3} -> {"n":1,"undone":3}
{"op":"redo","k":2} -> {"n":3,"redone":2}
{"op":"redo","k":3} -> {"n":2,"redone":3}
{"op":"get","a":"A","i":5} -> {"value":0}
{"op":"undo","k":2} -> {"by":3,"error":"E14","name":"blocked"}
{"op":"undo","k":3} -> {"n":2,"undone":3}
{"op":"undo","k":2} -> {"n":3,"undone":2}
{"op":"redo","k":3} -> {"n":1,"redone":3}
{"op":"size","d":"N"} -> {"size":1}
"#;

// Labels of 0, 1, 2 and 64 bytes: fills of an array over them, indices that go and come back, and a drop, each taken back by number.
const AT_LABELS: &str = r#"
{"op":"assoc","d":"N","of":"text"} -> {"edit":1,"n":1}
{"op":"reshape","d":"N","to":"{\"b\", \"xxxxxxxxxxxxxxxxxxxxxxxxxxxxxxxxxxxxxxxxxxxxxxxxxxxxxxxxxxxxxxxx\", \"\", \"é\"}"} -> {"edit":2,"n":4}
{"op":"array","a":"A","d":"N"} -> {"edit":3,"n":7}
{"op":"fill_all","a":"A","v":5} -> {"edit":4,"n":4}
{"op":"set","a":"A","i":"é","v":-3} -> {"edit":5,"n":1}
{"op":"fill_all","a":"A","v":6} -> {"edit":6,"n":4}
{"op":"set","a":"A","i":"b","v":7} -> {"edit":7,"n":1}
{"op":"undo","k":6} -> {"by":7,"error":"E14","name":"blocked"}
{"op":"undo","k":7} -> {"n":1,"undone":7}
{"op":"undo","k":6} -> {"n":4,"undone":6}
{"op":"get","a":"A","i":"é"} -> {"value":-3}
{"op":"get","a":"A","i":""} -> {"value":5}
{"op":"get","a":"A","i":"xxxxxxxxxxxxxxxxxxxxxxxxxxxxxxxxxxxxxxxxxxxxxxxxxxxxxxxxxxxxxxxx"} -> {"value":5}
{"op":"redo","k":6} -> {"n":4,"redone":6}
{"op":"get","a":"A","i":"é"} -> {"value":6}
{"op":"reshape","d":"N","minus":"{\"xxxxxxxxxxxxxxxxxxxxxxxxxxxxxxxxxxxxxxxxxxxxxxxxxxxxxxxxxxxxxxxx\", \"b\"}"} -> {"edit":8,"n":4}
{"op":"get","a":"A","i":"b"} -> {"error":"E06","name":"out-of-domain"}
{"op":"undo","k":6} -> {"by":8,"error":"E14","name":"blocked"}
{"op":"undo","k":8} -> {"n":4,"undone":8}
{"op":"get","a":"A","i":"b"} -> {"value":6}
{"op":"redo","k":8} -> {"n":4,"redone":8}
{"op":"size","d":"N"} -> {"size":2}
{"op":"undo","k":8} -> {"n":4,"undone":8}
{"op":"drop_array","a":"A"} -> {"edit":9,"n":7}
{"op":"undo","k":9} -> {"n":7,"undone":9}
{"op":"get","a":"A","i":"xxxxxxxxxxxxxxxxxxxxxxxxxxxxxxxxxxxxxxxxxxxxxxxxxxxxxxxxxxxxxxxx"} -> {"value":6}
{"op":"remove","d":"N","i":""} -> {"edit":10,"n":2}
{"op":"where","d":"N","i":""} -> {"error":"E06","name":"out-of-domain"}
{"op":"undo","k":10} -> {"n":2,"undone":10}
{"op":"get","a":"A","i":""} -> {"value":6}
{"op":"print"} -> {"text":"chapel-workbook 1\narray A over N [6, 6, 6, 6]\nassoc N of text {\"\", \"b\", \"xxxxxxxxxxxxxxxxxxxxxxxxxxxxxxxxxxxxxxxxxxxxxxxxxxxxxxxxxxxxxxxx\", \"é\"}\nend\n"}
"#;

// Texts of at most 23 bytes, and one of 24 that is asked for, comes, goes and comes back; the others stay, in their order.
const LONGER_TEXT_COMES: &str = r#"
{"op":"assoc","d":"T","of":"text"} -> {"edit":1,"n":1}
{"op":"add","d":"T","i":"bcdefghijklmnopqrstuvwx"} -> {"edit":2,"n":1}
{"op":"add","d":"T","i":"abcdefghijklmnopqrstuvw"} -> {"edit":3,"n":1}
{"op":"where","d":"T","i":"abcdefghijklmnopqrstuvwx"} -> {"error":"E06","name":"out-of-domain"}
{"op":"remove","d":"T","i":"abcdefghijklmnopqrstuvwx"} -> {"edit":4,"n":0}
{"op":"print"} -> {"text":"chapel-workbook 1\nassoc T of text {\"abcdefghijklmnopqrstuvw\", \"bcdefghijklmnopqrstuvwx\"}\nend\n"}
{"op":"add","d":"T","i":"abcdefghijklmnopqrstuvwx"} -> {"edit":5,"n":1}
{"op":"size","d":"T"} -> {"size":3}
{"op":"where","d":"T","i":"abcdefghijklmnopqrstuvw"} -> {"locale":0}
{"op":"where","d":"T","i":"abcdefghijklmnopqrstuvwx"} -> {"locale":0}
{"op":"where","d":"T","i":"bcdefghijklmnopqrstuvwx"} -> {"locale":0}
{"op":"where","d":"T","i":"abcdefghijklmnopqrstuv"} -> {"error":"E06","name":"out-of-domain"}
{"op":"where","d":"T","i":"abcdefghijklmnopqrstuvwy"} -> {"error":"E06","name":"out-of-domain"}
{"op":"print"} -> {"text":"chapel-workbook 1\nassoc T of text {\"abcdefghijklmnopqrstuvw\", \"abcdefghijklmnopqrstuvwx\", \"bcdefghijklmnopqrstuvwx\"}\nend\n"}
{"op":"undo","k":5} -> {"n":1,"undone":5}
{"op":"size","d":"T"} -> {"size":2}
{"op":"where","d":"T","i":"abcdefghijklmnopqrstuvw"} -> {"locale":0}
{"op":"where","d":"T","i":"abcdefghijklmnopqrstuvwx"} -> {"error":"E06","name":"out-of-domain"}
{"op":"where","d":"T","i":"bcdefghijklmnopqrstuvwx"} -> {"locale":0}
{"op":"print"} -> {"text":"chapel-workbook 1\nassoc T of text {\"abcdefghijklmnopqrstuvw\", \"bcdefghijklmnopqrstuvwx\"}\nend\n"}
{"op":"redo","k":5} -> {"n":1,"redone":5}
{"op":"print"} -> {"text":"chapel-workbook 1\nassoc T of text {\"abcdefghijklmnopqrstuvw\", \"abcdefghijklmnopqrstuvwx\", \"bcdefghijklmnopqrstuvwx\"}\nend\n"}
{"op":"add","d":"T","i":"abcdefghijklmnopqrstuvwx"} -> {"edit":6,"n":0}
{"op":"add","d":"T","i":"abcdefghijklmnopqrstuvw"} -> {"edit":7,"n":0}
{"op":"undo","k":5} -> {"by":6,"error":"E14","name":"blocked"}
{"op":"undo","k":3} -> {"by":7,"error":"E14","name":"blocked"}
{"op":"remove","d":"T","i":"abcdefghijklmnopqrstuvw"} -> {"edit":8,"n":1}
{"op":"print"} -> {"text":"chapel-workbook 1\nassoc T of text {\"abcdefghijklmnopqrstuvwx\", \"bcdefghijklmnopqrstuvwx\"}\nend\n"}
{"op":"remove","d":"T","i":"abcdefghijklmnopqrstuvwx"} -> {"edit":9,"n":1}
{"op":"print"} -> {"text":"chapel-workbook 1\nassoc T of text {\"bcdefghijklmnopqrstuvwx\"}\nend\n"}
{"op":"undo","k":8} -> {"n":1,"undone":8}
{"op":"print"} -> {"text":"chapel-workbook 1\nassoc T of text {\"abcdefghijklmnopqrstuvw\", \"bcdefghijklmnopqrstuvwx\"}\nend\n"}
{"op":"undo","k":9} -> {"n":1,"undone":9}
{"op":"redo","k":9} -> {"n":1,"redone":9}
{"op":"add","d":"T","i":""} -> {"edit":10,"n":1}
{"op":"size","d":"T"} -> {"size":3}
{"op":"drop_domain","d":"T"} -> {"edit":11,"n":4}
{"op":"undo","k":11} -> {"n":4,"undone":11}
{"op":"undo","k":9} -> {"n":1,"undone":9}
{"op":"print"} -> {"text":"chapel-workbook 1\nassoc T of text {\"\", \"abcdefghijklmnopqrstuvw\", \"abcdefghijklmnopqrstuvwx\", \"bcdefghijklmnopqrstuvwx\"}\nend\n"}
"#;

// The first text has 24 bytes; shorter ones, one of 64 bytes and one too many follow.
const LONG_TEXT_FIRST: &str = r#"
{"op":"assoc","d":"T","of":"text"} -> {"edit":1,"n":1}
{"op":"add","d":"T","i":"abcdefghijklmnopqrstuvwx"} -> {"edit":2,"n":1}
{"op":"size","d":"T"} -> {"size":1}
{"op":"where","d":"T","i":"abcdefghijklmnopqrstuvwx"} -> {"locale":0}
{"op":"where","d":"T","i":"abcdefghijklmnopqrstuvw"} -> {"error":"E06","name":"out-of-domain"}
{"op":"add","d":"T","i":"a"} -> {"edit":3,"n":1}
{"op":"add","d":"T","i":"0123456789012345678901234567890123456789012345678901234567890123"} -> {"edit":4,"n":1}
{"op":"add","d":"T","i":"01234567890123456789012345678901234567890123456789012345678901234"} -> {"error":"E01","name":"bad-request"}
{"op":"add","d":"T","i":""} -> {"edit":5,"n":1}
{"op":"print"} -> {"text":"chapel-workbook 1\nassoc T of text {\"\", \"0123456789012345678901234567890123456789012345678901234567890123\", \"a\", \"abcdefghijklmnopqrstuvwx\"}\nend\n"}
{"op":"undo","k":2} -> {"n":1,"undone":2}
{"op":"undo","k":4} -> {"n":1,"undone":4}
{"op":"print"} -> {"text":"chapel-workbook 1\nassoc T of text {\"\", \"a\"}\nend\n"}
{"op":"redo","k":2} -> {"n":1,"redone":2}
{"op":"remove","d":"T","i":"a"} -> {"edit":6,"n":1}
{"op":"remove","d":"T","i":"abcdefghijklmnopqrstuvwx"} -> {"edit":7,"n":1}
{"op":"remove","d":"T","i":""} -> {"edit":8,"n":1}
{"op":"print"} -> {"text":"chapel-workbook 1\nassoc T of text {}\nend\n"}
{"op":"add","d":"T","i":"abcdefghijklmnopqrstuvw"} -> {"edit":9,"n":1}
{"op":"undo","k":7} -> {"n":1,"undone":7}
{"op":"print"} -> {"text":"chapel-workbook 1\nassoc T of text {\"abcdefghijklmnopqrstuvw\", \"abcdefghijklmnopqrstuvwx\"}\nend\n"}
"#;

// Short and long texts stand by their bytes, not by how many they have.
const ORDER_OF_TEXTS: &str = r#"
{"op":"assoc","d":"T","of":"text"} -> {"edit":1,"n":1}
{"op":"reshape","d":"T","to":"{\"z\", \"b\", \"a  \", \"aa\", \"a\", \"abcdefghijklmnopqrstuvx\", \"\", \"a \", \"abcdefghijklmnopqrstuvw\", \"abcdefghijklmnopqrstuv\"}"} -> {"edit":2,"n":10}
{"op":"print"} -> {"text":"chapel-workbook 1\nassoc T of text {\"\", \"a\", \"a \", \"a  \", \"aa\", \"abcdefghijklmnopqrstuv\", \"abcdefghijklmnopqrstuvw\", \"abcdefghijklmnopqrstuvx\", \"b\", \"z\"}\nend\n"}
{"op":"reshape","d":"T","or":"{\"éabcdefghijklmnopqrstuv\", \"abcdefghijklmnopqrstuvwxyz\", \"éabcdefghijklmnopqrstu\", \"abcdefghijklmnopqrstuvwy\", \"é\", \"abcdefghijklmnopqrstuvwx\", \"abcdefghijklmnopqrstuvw\"}"} -> {"edit":3,"n":6}
{"op":"size","d":"T"} -> {"size":16}
{"op":"print"} -> {"text":"chapel-workbook 1\nassoc T of text {\"\", \"a\", \"a \", \"a  \", \"aa\", \"abcdefghijklmnopqrstuv\", \"abcdefghijklmnopqrstuvw\", \"abcdefghijklmnopqrstuvwx\", \"abcdefghijklmnopqrstuvwxyz\", \"abcdefghijklmnopqrstuvwy\", \"abcdefghijklmnopqrstuvx\", \"b\", \"z\", \"é\", \"éabcdefghijklmnopqrstu\", \"éabcdefghijklmnopqrstuv\"}\nend\n"}
{"op":"undo","k":3} -> {"n":6,"undone":3}
{"op":"print"} -> {"text":"chapel-workbook 1\nassoc T of text {\"\", \"a\", \"a \", \"a  \", \"aa\", \"abcdefghijklmnopqrstuv\", \"abcdefghijklmnopqrstuvw\", \"abcdefghijklmnopqrstuvx\", \"b\", \"z\"}\nend\n"}
"#;

// Characters of two, three and four bytes at the end of texts of 23 and of 24 bytes: bytes count, not characters.
const TEXTS_BEYOND_ASCII: &str = r#"
{"op":"assoc","d":"T","of":"text"} -> {"edit":1,"n":1}
{"op":"add","d":"T","i":"abcdefghijklmnopqrstué"} -> {"edit":2,"n":1}
{"op":"add","d":"T","i":"abcdefghijklmnopqrst€"} -> {"edit":3,"n":1}
{"op":"add","d":"T","i":"abcdefghijklmnopqrs𝄞"} -> {"edit":4,"n":1}
{"op":"print"} -> {"text":"chapel-workbook 1\nassoc T of text {\"abcdefghijklmnopqrstué\", \"abcdefghijklmnopqrst€\", \"abcdefghijklmnopqrs𝄞\"}\nend\n"}
{"op":"where","d":"T","i":"abcdefghijklmnopqrstuvé"} -> {"error":"E06","name":"out-of-domain"}
{"op":"add","d":"T","i":"abcdefghijklmnopqrstuvé"} -> {"edit":5,"n":1}
{"op":"print"} -> {"text":"chapel-workbook 1\nassoc T of text {\"abcdefghijklmnopqrstuvé\", \"abcdefghijklmnopqrstué\", \"abcdefghijklmnopqrst€\", \"abcdefghijklmnopqrs𝄞\"}\nend\n"}
{"op":"add","d":"T","i":"abcdefghijklmnopqrstu€"} -> {"edit":6,"n":1}
{"op":"add","d":"T","i":"abcdefghijklmnopqrst𝄞"} -> {"edit":7,"n":1}
{"op":"print"} -> {"text":"chapel-workbook 1\nassoc T of text {\"abcdefghijklmnopqrstuvé\", \"abcdefghijklmnopqrstué\", \"abcdefghijklmnopqrstu€\", \"abcdefghijklmnopqrst€\", \"abcdefghijklmnopqrst𝄞\", \"abcdefghijklmnopqrs𝄞\"}\nend\n"}
{"op":"add","d":"T","i":"012345678901234567890123456789012345678901234567890123456789012é"} -> {"error":"E01","name":"bad-request"}
{"op":"add","d":"T","i":"01234567890123456789012345678901234567890123456789012345678901é"} -> {"edit":8,"n":1}
{"op":"undo","k":5} -> {"n":1,"undone":5}
{"op":"remove","d":"T","i":"abcdefghijklmnopqrstu€"} -> {"edit":9,"n":1}
{"op":"remove","d":"T","i":"abcdefghijklmnopqrs𝄞"} -> {"edit":10,"n":1}
{"op":"print"} -> {"text":"chapel-workbook 1\nassoc T of text {\"01234567890123456789012345678901234567890123456789012345678901é\", \"abcdefghijklmnopqrstué\", \"abcdefghijklmnopqrst€\", \"abcdefghijklmnopqrst𝄞\"}\nend\n"}
{"op":"redo","k":5} -> {"n":1,"redone":5}
{"op":"where","d":"T","i":"abcdefghijklmnopqrstuvé"} -> {"locale":0}
{"op":"where","d":"T","i":"abcdefghijklmnopqrstué"} -> {"locale":0}
"#;

// Elements of an array stay with their texts while longer ones come and go.
const ELEMENTS_STAY_WITH_TEXTS: &str = r#"
{"op":"assoc","d":"T","of":"text"} -> {"edit":1,"n":1}
{"op":"reshape","d":"T","to":"{\"w\", \"bcdefghijklmnopqrstuvwx\"}"} -> {"edit":2,"n":2}
{"op":"array","a":"A","d":"T"} -> {"edit":3,"n":5}
{"op":"set","a":"A","i":"w","v":7} -> {"edit":4,"n":1}
{"op":"set","a":"A","i":"bcdefghijklmnopqrstuvwx","v":8} -> {"edit":5,"n":1}
{"op":"get","a":"A","i":"abcdefghijklmnopqrstuvwx"} -> {"error":"E06","name":"out-of-domain"}
{"op":"add","d":"T","i":"abcdefghijklmnopqrstuvwx"} -> {"edit":6,"n":2}
{"op":"get","a":"A","i":"w"} -> {"value":7}
{"op":"get","a":"A","i":"bcdefghijklmnopqrstuvwx"} -> {"value":8}
{"op":"get","a":"A","i":"abcdefghijklmnopqrstuvwx"} -> {"value":0}
{"op":"set","a":"A","i":"abcdefghijklmnopqrstuvwx","v":9} -> {"edit":7,"n":1}
{"op":"piece","a":"A","l":0} -> {"piece":[["abcdefghijklmnopqrstuvwx",9],["bcdefghijklmnopqrstuvwx",8],["w",7]]}
{"op":"print"} -> {"text":"chapel-workbook 1\narray A over T [9, 8, 7]\nassoc T of text {\"abcdefghijklmnopqrstuvwx\", \"bcdefghijklmnopqrstuvwx\", \"w\"}\nend\n"}
{"op":"undo","k":6} -> {"by":7,"error":"E14","name":"blocked"}
{"op":"undo","k":7} -> {"n":1,"undone":7}
{"op":"undo","k":6} -> {"n":2,"undone":6}
{"op":"print"} -> {"text":"chapel-workbook 1\narray A over T [8, 7]\nassoc T of text {\"bcdefghijklmnopqrstuvwx\", \"w\"}\nend\n"}
{"op":"redo","k":6} -> {"n":2,"redone":6}
{"op":"redo","k":7} -> {"n":1,"redone":7}
{"op":"remove","d":"T","i":"bcdefghijklmnopqrstuvwx"} -> {"edit":8,"n":2}
{"op":"piece","a":"A","l":0} -> {"piece":[["abcdefghijklmnopqrstuvwx",9],["w",7]]}
{"op":"undo","k":8} -> {"n":2,"undone":8}
{"op":"get","a":"A","i":"bcdefghijklmnopqrstuvwx"} -> {"value":8}
{"op":"remove","d":"T","i":"abcdefghijklmnopqrstuvwx"} -> {"edit":9,"n":2}
{"op":"piece","a":"A","l":0} -> {"piece":[["bcdefghijklmnopqrstuvwx",8],["w",7]]}
{"op":"undo","k":9} -> {"n":2,"undone":9}
{"op":"get","a":"A","i":"abcdefghijklmnopqrstuvwx"} -> {"value":9}
{"op":"drop_array","a":"A"} -> {"edit":10,"n":6}
{"op":"add","d":"T","i":"0123456789012345678901234567890123456789012345678901234567890123"} -> {"edit":11,"n":1}
{"op":"undo","k":10} -> {"by":11,"error":"E14","name":"blocked"}
{"op":"undo","k":11} -> {"n":1,"undone":11}
{"op":"undo","k":10} -> {"n":6,"undone":10}
{"op":"redo","k":11} -> {"n":2,"redone":11}
{"op":"print"} -> {"text":"chapel-workbook 1\narray A over T [0, 9, 8, 7]\nassoc T of text {\"0123456789012345678901234567890123456789012345678901234567890123\", \"abcdefghijklmnopqrstuvwx\", \"bcdefghijklmnopqrstuvwx\", \"w\"}\nend\n"}
{"op":"reduce","a":"A","how":"+"} -> {"value":24}
"#;

// Unions, intersections and differences of a domain of short texts and one with a long text.
const SETS_OF_SHORT_AND_LONG_TEXTS: &str = r#"
{"op":"assoc","d":"S","of":"text"} -> {"edit":1,"n":1}
{"op":"reshape","d":"S","to":"{\"a\", \"abcdefghijklmnopqrstuvw\"}"} -> {"edit":2,"n":2}
{"op":"assoc","d":"L","of":"text"} -> {"edit":3,"n":1}
{"op":"reshape","d":"L","to":"{\"abcdefghijklmnopqrstuvw\", \"abcdefghijklmnopqrstuvwx\"}"} -> {"edit":4,"n":2}
{"op":"reshape","d":"S","or":"L"} -> {"edit":5,"n":1}
{"op":"print"} -> {"text":"chapel-workbook 1\nassoc L of text {\"abcdefghijklmnopqrstuvw\", \"abcdefghijklmnopqrstuvwx\"}\nassoc S of text {\"a\", \"abcdefghijklmnopqrstuvw\", \"abcdefghijklmnopqrstuvwx\"}\nend\n"}
{"op":"undo","k":5} -> {"n":1,"undone":5}
{"op":"reshape","d":"S","and":"L"} -> {"edit":6,"n":1}
{"op":"print"} -> {"text":"chapel-workbook 1\nassoc L of text {\"abcdefghijklmnopqrstuvw\", \"abcdefghijklmnopqrstuvwx\"}\nassoc S of text {\"abcdefghijklmnopqrstuvw\"}\nend\n"}
{"op":"undo","k":6} -> {"n":1,"undone":6}
{"op":"reshape","d":"S","xor":"L"} -> {"edit":7,"n":2}
{"op":"print"} -> {"text":"chapel-workbook 1\nassoc L of text {\"abcdefghijklmnopqrstuvw\", \"abcdefghijklmnopqrstuvwx\"}\nassoc S of text {\"a\", \"abcdefghijklmnopqrstuvwx\"}\nend\n"}
{"op":"undo","k":7} -> {"n":2,"undone":7}
{"op":"reshape","d":"S","minus":"L"} -> {"edit":8,"n":1}
{"op":"print"} -> {"text":"chapel-workbook 1\nassoc L of text {\"abcdefghijklmnopqrstuvw\", \"abcdefghijklmnopqrstuvwx\"}\nassoc S of text {\"a\"}\nend\n"}
{"op":"reshape","d":"L","minus":"{\"abcdefghijklmnopqrstuvwx\"}"} -> {"edit":9,"n":1}
{"op":"undo","k":8} -> {"n":1,"undone":8}
{"op":"reshape","d":"S","to":"L"} -> {"edit":10,"n":1}
{"op":"print"} -> {"text":"chapel-workbook 1\nassoc L of text {\"abcdefghijklmnopqrstuvw\"}\nassoc S of text {\"abcdefghijklmnopqrstuvw\"}\nend\n"}
{"op":"undo","k":9} -> {"by":10,"error":"E14","name":"blocked"}
{"op":"undo","k":10} -> {"n":1,"undone":10}
{"op":"undo","k":9} -> {"n":1,"undone":9}
{"op":"reshape","d":"L","or":"S"} -> {"edit":11,"n":1}
{"op":"print"} -> {"text":"chapel-workbook 1\nassoc L of text {\"a\", \"abcdefghijklmnopqrstuvw\", \"abcdefghijklmnopqrstuvwx\"}\nassoc S of text {\"a\", \"abcdefghijklmnopqrstuvw\"}\nend\n"}
"#;

// Short and long texts that come and go in one edit.
const TEXTS_IN_A_TRANSACTION: &str = r#"
{"op":"assoc","d":"T","of":"text"} -> {"edit":1,"n":1}
{"op":"transaction","edits":[{"op":"add","d":"T","i":"b"},{"op":"add","d":"T","i":"abcdefghijklmnopqrstuvwx"},{"op":"add","d":"T","i":"abcdefghijklmnopqrstuvw"},{"op":"remove","d":"T","i":"abcdefghijklmnopqrstuvwx"}]} -> {"edit":2,"n":3}
{"op":"print"} -> {"text":"chapel-workbook 1\nassoc T of text {\"abcdefghijklmnopqrstuvw\", \"b\"}\nend\n"}
{"op":"undo","k":2} -> {"n":3,"undone":2}
{"op":"size","d":"T"} -> {"size":0}
{"op":"redo","k":2} -> {"n":3,"redone":2}
{"op":"transaction","edits":[{"op":"add","d":"T","i":"abcdefghijklmnopqrstuvwx"},{"op":"reshape","d":"T","minus":"{\"b\"}"},{"op":"add","d":"T","i":"0123456789012345678901234567890123456789012345678901234567890123"}]} -> {"edit":3,"n":3}
{"op":"print"} -> {"text":"chapel-workbook 1\nassoc T of text {\"0123456789012345678901234567890123456789012345678901234567890123\", \"abcdefghijklmnopqrstuvw\", \"abcdefghijklmnopqrstuvwx\"}\nend\n"}
{"op":"transaction","edits":[{"op":"remove","d":"T","i":"abcdefghijklmnopqrstuvwx"},{"op":"add","d":"T","i":5}]} -> {"at":1,"error":"E05","name":"wrong-kind"}
{"op":"where","d":"T","i":"abcdefghijklmnopqrstuvwx"} -> {"locale":0}
{"op":"undo","k":3} -> {"n":3,"undone":3}
{"op":"print"} -> {"text":"chapel-workbook 1\nassoc T of text {\"abcdefghijklmnopqrstuvw\", \"b\"}\nend\n"}
{"op":"transaction","edits":[{"op":"array","a":"A","d":"T"},{"op":"set","a":"A","i":"abcdefghijklmnopqrstuvw","v":4},{"op":"add","d":"T","i":"abcdefghijklmnopqrstuvwx"},{"op":"set","a":"A","i":"abcdefghijklmnopqrstuvwx","v":5}]} -> {"edit":4,"n":7}
{"op":"print"} -> {"text":"chapel-workbook 1\narray A over T [4, 5, 0]\nassoc T of text {\"abcdefghijklmnopqrstuvw\", \"abcdefghijklmnopqrstuvwx\", \"b\"}\nend\n"}
{"op":"undo","k":4} -> {"n":7,"undone":4}
{"op":"print"} -> {"text":"chapel-workbook 1\nassoc T of text {\"abcdefghijklmnopqrstuvw\", \"b\"}\nend\n"}
"#;

/// Each script, over a history of its own.
pub const SCRIPTS: [Script; 16] = [
    ("", ADDING_TWICE, 4, 3),
    ("", SPARSE_WITH_AN_IMPLICIT_VALUE, 7, 25),
    ("", INDEX_REMOVED, 7, 15),
    ("", DOMAINS_DROPPED, 13, 61),
    ("", MAPPED_BY_THE_PARENT, 5, 9),
    ("", COPIES_OVER_A_SPARSE_DOMAIN, 9, 23),
    ("", COMING_AND_LEAVING, 5, 27),
    ("", COMING_UNDER_AN_ARRAY, 3, 20),
    ("", AT_LABELS, 10, 65),
    ("", LONGER_TEXT_COMES, 11, 21),
    ("", LONG_TEXT_FIRST, 9, 13),
    ("", ORDER_OF_TEXTS, 3, 23),
    ("", TEXTS_BEYOND_ASCII, 10, 12),
    ("", ELEMENTS_STAY_WITH_TEXTS, 11, 43),
    ("", SETS_OF_SHORT_AND_LONG_TEXTS, 11, 21),
    ("", TEXTS_IN_A_TRANSACTION, 4, 30),
];
