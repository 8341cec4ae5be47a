//! Requests that are read, and requests that are not.

use super::Script;

// Lines that are no request.
const FIELDS_OF_THEIR_TYPES: &str = r#"
[] -> {"error":"E01","name":"bad-request"}
{} -> {"error":"E01","name":"bad-request"}
{"op":"undo","k":"\ud800"} -> {"error":"E01","name":"bad-request"}
{"op":"undo","k":1.0} -> {"error":"E01","name":"bad-request"}
{"op":"undo","k":1e0} -> {"error":"E01","name":"bad-request"}
{"op":"undo","k":-1} -> {"error":"E01","name":"bad-request"}
{"op":"undo","k":18446744073709551616} -> {"error":"E01","name":"bad-request"}
{"op":"undo","l":1} -> {"error":"E01","name":"bad-request"}
{"op":"undo","k":1,"l":1} -> {"error":"E01","name":"bad-request"}
{"op":"redo"} -> {"error":"E01","name":"bad-request"}
{"op":1} -> {"error":"E01","name":"bad-request"}
{"op":"count","d":"D"} -> {"error":"E01","name":"bad-request"}
{"op":"print","d":"D"} -> {"error":"E01","name":"bad-request"}
{"op":"text"} -> {"error":"E01","name":"bad-request"}
{"op":"size"} -> {"error":"E01","name":"bad-request"}
{"op":"size","a":"D"} -> {"error":"E01","name":"bad-request"}
{"op":"size","d":"D","k":1} -> {"error":"E01","name":"bad-request"}
{"op":"fill","a":"A","on":"{1..4}"} -> {"error":"E01","name":"bad-request"}
{"op":"fill","a":"A","on":"{1..","v":1.5} -> {"error":"E01","name":"bad-request"}
{"op":"fill","a":"A","on":1,"v":1} -> {"error":"E01","name":"bad-request"}
{"op":"fill_all","a":"A"} -> {"error":"E01","name":"bad-request"}
{"op":"fill_all","a":"A","v":1,"on":"{1..4}"} -> {"error":"E01","name":"bad-request"}
{"op":"drop_array"} -> {"error":"E01","name":"bad-request"}
{"op":"drop_array","d":"A"} -> {"error":"E01","name":"bad-request"}
{"op":"drop_array","a":"A","v":1} -> {"error":"E01","name":"bad-request"}
{"op":"copy","a":"A","i":1,"b":"A","j":1} -> {"error":"E01","name":"bad-request"}
{"op":"copy","a":"A","i":1,"b":"A","j":1,"c":1,"v":1} -> {"error":"E01","name":"bad-request"}
{"op":"copy","a":"A","i":1,"b":"A","j":{},"c":1} -> {"error":"E01","name":"bad-request"}
{"op":"sparse","d":"S"} -> {"error":"E01","name":"bad-request"}
{"op":"sparse","d":"S","is":"D"} -> {"error":"E01","name":"bad-request"}
{"op":"sparse","d":"S","of":"D","v":1} -> {"error":"E01","name":"bad-request"}
{"op":"sparse","d":"S","of":"{1..4}"} -> {"error":"E01","name":"bad-request"}
{"op":"assoc","d":"K"} -> {"error":"E01","name":"bad-request"}
{"op":"assoc","d":"K","of":"integer"} -> {"error":"E01","name":"bad-request"}
{"op":"assoc","d":"K","of":""} -> {"error":"E01","name":"bad-request"}
{"op":"assoc","d":"K","of":1} -> {"error":"E01","name":"bad-request"}
{"op":"assoc","d":"K","of":"int","v":1} -> {"error":"E01","name":"bad-request"}
{"op":"reduce","a":"A"} -> {"error":"E01","name":"bad-request"}
{"op":"reduce","a":"A","how":"*"} -> {"error":"E01","name":"bad-request"}
{"op":"reduce","a":"A","how":1} -> {"error":"E01","name":"bad-request"}
{"op":"reduce","a":"A","how":"min","v":1} -> {"error":"E01","name":"bad-request"}
{"op":"irv","a":"B"} -> {"error":"E01","name":"bad-request"}
{"op":"irv","a":"B","v":0.5} -> {"error":"E01","name":"bad-request"}
{"op":"irv","a":"B","v":1,"i":1} -> {"error":"E01","name":"bad-request"}
{"op":"array","a":"A"} -> {"error":"E01","name":"bad-request"}
{"op":"get","a":"A","i":[]} -> {"error":"E01","name":"bad-request"}
{"op":"get","a":"A","i":[1]} -> {"error":"E01","name":"bad-request"}
{"op":"get","a":"A","i":[1,2,3,4]} -> {"error":"E01","name":"bad-request"}
{"op":"get","a":"A","i":[1,"2"]} -> {"error":"E01","name":"bad-request"}
{"op":"get","a":"A","i":"a\"b"} -> {"error":"E01","name":"bad-request"}
{"op":"get","a":"A","i":null} -> {"error":"E01","name":"bad-request"}
{"op":"set","a":"A","i":1,"v":9223372036854775808} -> {"error":"E01","name":"bad-request"}
{"op":"set","a":"A","i":1} -> {"error":"E01","name":"bad-request"}
"#;

// Names of 1 to 32 bytes; there is no domain D.
const BOUNDS_OF_NAMES: &str = r#"
{"op":"array","a":"a_1","d":"D"} -> {"error":"E04","name":"no-such-name"}
{"op":"array","a":"","d":"D"} -> {"error":"E01","name":"bad-request"}
{"op":"array","a":"1a","d":"D"} -> {"error":"E01","name":"bad-request"}
{"op":"array","a":"a234567890123456789012345678901","d":"D"} -> {"error":"E04","name":"no-such-name"}
{"op":"array","a":"a2345678901234567890123456789012","d":"D"} -> {"error":"E04","name":"no-such-name"}
{"op":"array","a":"a23456789012345678901234567890123","d":"D"} -> {"error":"E01","name":"bad-request"}
"#;

// Fields before literals, and limits last.
const LITERALS_AFTER_FIELDS: &str = r#"
{"op":"domain","d":"1","is":"{1.."} -> {"error":"E01","name":"bad-request"}
{"op":"domain","d":"1","is":"{1..65537}"} -> {"error":"E01","name":"bad-request"}
{"op":"domain","d":"D","is":"{1..65537} "} -> {"error":"E02","name":"bad-literal"}
{"op":"domain","d":"D","is":"{,}"} -> {"error":"E02","name":"bad-literal"}
{"op":"domain","d":"D","is":"{}"} -> {"error":"E05","name":"wrong-kind"}
{"op":"domain","d":"D","is":"{1..65537}"} -> {"error":"E09","name":"too-large"}
{"op":"domain","d":"D","is":"{1000000000000000001..5}"} -> {"error":"E09","name":"too-large"}
{"op":"domain","d":"D","is":"{5..1000000000000000001}"} -> {"error":"E09","name":"too-large"}
{"op":"domain","d":"D","is":"{ 1 .. 65536 }"} -> {"edit":1,"n":3}
{"op":"domain","d":"E","is":"{-1000000000000000000..-1000000000000000001}"} -> {"error":"E09","name":"too-large"}
{"op":"domain","d":"E","is":"{1000000000000000000..-1000000000000000000}"} -> {"edit":2,"n":3}
"#;

// A fill is read whole before its literal is judged.
const FILLS_READ_WHOLE: &str = r#"
{"op":"fill","a":"1","on":"{1..","v":1} -> {"error":"E01","name":"bad-request"}
{"op":"fill","a":"A","on":"{1..","v":true} -> {"error":"E01","name":"bad-request"}
{"op":"fill","a":"A","on":"{1..65537}","v":true} -> {"error":"E01","name":"bad-request"}
{"op":"fill","a":"A","on":"{1..","v":1} -> {"error":"E02","name":"bad-literal"}
{"op":"fill","a":"A","on":"{1..65537}","v":1} -> {"error":"E09","name":"too-large"}
{"op":"fill","a":"A","on":"{1..65536}","v":1} -> {"error":"E04","name":"no-such-name"}
"#;

// Each domain has as many indices as its literal says.
const SIZES_OF_LITERALS: &str = r#"
{"op":"domain","d":"D0","is":"{1..3, 2..8 by 3}"} -> {"edit":1,"n":3}
{"op":"array","a":"A0","d":"D0"} -> {"edit":2,"n":12}
{"op":"domain","d":"D1","is":"{0..1, 5..6, 1..3}"} -> {"edit":3,"n":3}
{"op":"array","a":"A1","d":"D1"} -> {"edit":4,"n":15}
{"op":"domain","d":"D2","is":"{1..10 by -3}"} -> {"edit":5,"n":3}
{"op":"array","a":"A2","d":"D2"} -> {"edit":6,"n":7}
{"op":"domain","d":"D3","is":"{-5..5 by 4 align 1}"} -> {"edit":7,"n":3}
{"op":"array","a":"A3","d":"D3"} -> {"edit":8,"n":6}
{"op":"domain","d":"D4","is":"{1..<4}"} -> {"edit":9,"n":3}
{"op":"array","a":"A4","d":"D4"} -> {"edit":10,"n":6}
{"op":"domain","d":"D5","is":"{7..#4}"} -> {"edit":11,"n":3}
{"op":"array","a":"A5","d":"D5"} -> {"edit":12,"n":7}
{"op":"domain","d":"D6","is":"{1..#9 by 4}"} -> {"edit":13,"n":3}
{"op":"array","a":"A6","d":"D6"} -> {"edit":14,"n":6}
{"op":"domain","d":"D7","is":"{1000000000000000001..#0}"} -> {"edit":15,"n":3}
{"op":"array","a":"A7","d":"D7"} -> {"edit":16,"n":3}
{"op":"domain","d":"D8","is":"{1..65536, 1..65536, 1..0}"} -> {"edit":17,"n":3}
{"op":"array","a":"A8","d":"D8"} -> {"edit":18,"n":3}
{"op":"domain","d":"D9","is":"{ 1 .. 2 , 1 ..# 3 }"} -> {"edit":19,"n":3}
{"op":"array","a":"A9","d":"D9"} -> {"edit":20,"n":9}
"#;

// Elements of an array of rank 2.
const INDICES_OF_A_RECTANGLE: &str = r#"
{"op":"domain","d":"D","is":"{1..3, 2..8 by 3}"} -> {"edit":1,"n":3}
{"op":"array","a":"A","d":"D"} -> {"edit":2,"n":12}
{"op":"set","a":"A","i":[2,5],"v":7} -> {"edit":3,"n":1}
{"op":"get","a":"A","i":[2,5]} -> {"value":7}
{"op":"get","a":"A","i":[3,8]} -> {"value":0}
{"op":"get","a":"A","i":[2,6]} -> {"error":"E06","name":"out-of-domain"}
{"op":"get","a":"A","i":2} -> {"error":"E05","name":"wrong-kind"}
"#;

// Literals outside their grammar and beyond their limits.
const REFUSED_LITERALS: &str = r#"
{"op":"domain","d":"D","is":"{1..4 by 0}"} -> {"error":"E02","name":"bad-literal"}
{"op":"domain","d":"D","is":"{1..65537, 1..4 by 0}"} -> {"error":"E02","name":"bad-literal"}
{"op":"domain","d":"D","is":"{1..4by 2}"} -> {"error":"E02","name":"bad-literal"}
{"op":"domain","d":"D","is":"{1..#-1}"} -> {"error":"E02","name":"bad-literal"}
{"op":"domain","d":"D","is":"{1..#9223372036854775808}"} -> {"error":"E02","name":"bad-literal"}
{"op":"domain","d":"D","is":"{1..2, 1..2, 1..2, 1..2}"} -> {"error":"E02","name":"bad-literal"}
{"op":"domain","d":"D","is":"{1, 2,}"} -> {"error":"E02","name":"bad-literal"}
{"op":"domain","d":"D","is":"{1, 2}"} -> {"error":"E05","name":"wrong-kind"}
{"op":"domain","d":"D","is":"{1..65537, 1..0}"} -> {"error":"E09","name":"too-large"}
{"op":"domain","d":"D","is":"{1..256, 1..257}"} -> {"error":"E09","name":"too-large"}
{"op":"domain","d":"D","is":"{1..<-9223372036854775808}"} -> {"error":"E09","name":"too-large"}
{"op":"domain","d":"D","is":"{1..#9223372036854775807}"} -> {"error":"E09","name":"too-large"}
{"op":"domain","d":"D","is":"{1000000000000000000..#2}"} -> {"error":"E09","name":"too-large"}
{"op":"domain","d":"D","is":"{1..9223372036854775808}"} -> {"error":"E02","name":"bad-literal"}
{"op":"domain","d":"D","is":"{1..2 align 1}"} -> {"error":"E02","name":"bad-literal"}
{"op":"domain","d":"D","is":"{1.. <2}"} -> {"error":"E02","name":"bad-literal"}
{"op":"domain","d":"D","is":"{1..2,}"} -> {"error":"E02","name":"bad-literal"}
{"op":"domain","d":"D","is":"{1..2 3..4}"} -> {"error":"E02","name":"bad-literal"}
{"op":"domain","d":"D","is":" {1..2}"} -> {"error":"E02","name":"bad-literal"}
{"op":"domain","d":"D","is":"{1..2"} -> {"error":"E02","name":"bad-literal"}
{"op":"domain","d":"D","is":"{-9223372036854775808..1}"} -> {"error":"E09","name":"too-large"}
"#;

// Mappings and sets outside their grammar. What begins with no brace is no set, but a name.
const REFUSED_MAPPINGS_AND_SETS: &str = r#"
{"op":"remap","d":"D","map":"none "} -> {"error":"E02","name":"bad-literal"}
{"op":"remap","d":"D","map":"blockDist({1..10}, [4]"} -> {"error":"E02","name":"bad-literal"}
{"op":"remap","d":"D","map":"blockDist({1..10} [4])"} -> {"error":"E02","name":"bad-literal"}
{"op":"remap","d":"D","map":"blockDist({1..10}, [])"} -> {"error":"E02","name":"bad-literal"}
{"op":"remap","d":"D","map":"blockDist({}, [4])"} -> {"error":"E02","name":"bad-literal"}
{"op":"remap","d":"D","map":"cyclicDist(1, 3)"} -> {"error":"E02","name":"bad-literal"}
{"op":"remap","d":"D","map":"cyclicDist((1), [3])"} -> {"error":"E02","name":"bad-literal"}
{"op":"remap","d":"D","map":"cyclicDist((1 2), [3])"} -> {"error":"E02","name":"bad-literal"}
{"op":"remap","d":"D","map":"cyclicDist(+1, [3])"} -> {"error":"E02","name":"bad-literal"}
{"op":"remap","d":"D","map":"blockCycDist(1, [3])"} -> {"error":"E02","name":"bad-literal"}
{"op":"reshape","d":"N","or":"{1"} -> {"error":"E02","name":"bad-literal"}
{"op":"reshape","d":"N","or":"{1,}"} -> {"error":"E02","name":"bad-literal"}
{"op":"reshape","d":"N","or":"{,}"} -> {"error":"E02","name":"bad-literal"}
{"op":"reshape","d":"N","or":" {1}"} -> {"error":"E01","name":"bad-request"}
{"op":"reshape","d":"N","or":"{1} "} -> {"error":"E02","name":"bad-literal"}
{"op":"reshape","d":"N","or":"{1, (1, 2)}"} -> {"error":"E02","name":"bad-literal"}
{"op":"reshape","d":"N","or":"{(1, 2), (1, 2, 3)}"} -> {"error":"E02","name":"bad-literal"}
{"op":"reshape","d":"N","or":"{1, \"a\"}"} -> {"error":"E02","name":"bad-literal"}
{"op":"reshape","d":"N","or":"{\"a\", 1}"} -> {"error":"E02","name":"bad-literal"}
{"op":"reshape","d":"N","or":"{\"a}"} -> {"error":"E02","name":"bad-literal"}
{"op":"reshape","d":"N","or":"{\"a\\\"}"} -> {"error":"E02","name":"bad-literal"}
{"op":"reshape","d":"N","or":"{\"0123456789012345678901234567890123456789012345678901234567890123 \"}"} -> {"error":"E02","name":"bad-literal"}
{"op":"reshape","d":"N","or":"{9223372036854775808}"} -> {"error":"E02","name":"bad-literal"}
"#;

/// Each script, over a history of its own.
pub const SCRIPTS: [Script; 8] = [
    ("", FIELDS_OF_THEIR_TYPES, 0, 0),
    ("", BOUNDS_OF_NAMES, 0, 0),
    ("", LITERALS_AFTER_FIELDS, 2, 6),
    ("", FILLS_READ_WHOLE, 0, 0),
    ("", SIZES_OF_LITERALS, 20, 104),
    ("", INDICES_OF_A_RECTANGLE, 3, 16),
    ("", REFUSED_LITERALS, 0, 0),
    ("", REFUSED_MAPPINGS_AND_SETS, 0, 0),
];
