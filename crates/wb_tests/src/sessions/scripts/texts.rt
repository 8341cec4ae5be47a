//! The text of a workbook after worked requests, as the format spells it, and the lines of its edits from a number on.

use super::Script;

// No object.
const NOTHING: &str = r#"
{"op":"print"} -> {"text":"chapel-workbook 1\nend\n"}
"#;

// A domain and an array over it, in and out of force.
const FIRST_RUN: &str = r#"
{"op":"domain","d":"D","is":"{1..4}"} -> {"edit":1,"n":3}
{"op":"array","a":"A","d":"D"} -> {"edit":2,"n":7}
{"op":"set","a":"A","i":4,"v":9} -> {"edit":3,"n":1}
{"op":"print"} -> {"text":"chapel-workbook 1\narray A over D [0, 0, 0, 9]\nrect D {1..4} none\nend\n"}
{"op":"undo"} -> {"n":1,"undone":3}
{"op":"print"} -> {"text":"chapel-workbook 1\narray A over D [0, 0, 0, 0]\nrect D {1..4} none\nend\n"}
{"op":"undo"} -> {"n":7,"undone":2}
{"op":"print"} -> {"text":"chapel-workbook 1\nrect D {1..4} none\nend\n"}
"#;

// Every kind of domain and an array over each, not in the order of their names.
const EVERY_KIND: &str = r#"
{"op":"domain","d":"G","is":"{3..1}"} -> {"edit":1,"n":3}
{"op":"array","a":"H","d":"G"} -> {"edit":2,"n":3}
{"op":"domain","d":"E","is":"{0..1, 0..2}","map":"cyclicDist((0, -1), [2, 3])"} -> {"edit":3,"n":3}
{"op":"array","a":"F","d":"E"} -> {"edit":4,"n":9}
{"op":"set","a":"F","i":[1,2],"v":-5} -> {"edit":5,"n":1}
{"op":"sparse","d":"M","of":"E"} -> {"edit":6,"n":2}
{"op":"add","d":"M","i":[1,0]} -> {"edit":7,"n":1}
{"op":"assoc","d":"T","of":"text"} -> {"edit":8,"n":1}
{"op":"add","d":"T","i":"b"} -> {"edit":9,"n":1}
{"op":"add","d":"T","i":"a"} -> {"edit":10,"n":1}
{"op":"array","a":"C","d":"T"} -> {"edit":11,"n":5}
{"op":"set","a":"C","i":"b","v":3} -> {"edit":12,"n":1}
{"op":"assoc","d":"N","of":"int"} -> {"edit":13,"n":1}
{"op":"array","a":"a","d":"N"} -> {"edit":14,"n":3}
{"op":"add","d":"N","i":5} -> {"edit":15,"n":2}
{"op":"add","d":"N","i":1} -> {"edit":16,"n":2}
{"op":"domain","d":"D","is":"{1..10 by -3}","map":"blockDist({1..10}, [4])"} -> {"edit":17,"n":3}
{"op":"sparse","d":"S","of":"D"} -> {"edit":18,"n":2}
{"op":"array","a":"B","d":"S"} -> {"edit":19,"n":3}
{"op":"irv","a":"B","v":7} -> {"edit":20,"n":1}
{"op":"add","d":"S","i":10} -> {"edit":21,"n":2}
{"op":"add","d":"S","i":4} -> {"edit":22,"n":2}
{"op":"print"} -> {"text":"chapel-workbook 1\narray B over S [7, 7] irv 7\narray C over T [0, 3]\nrect D {1..10 by -3} blockDist({1..10}, [4])\nrect E {0..1, 0..2} cyclicDist((0, -1), [2, 3])\narray F over E [0, 0, 0, 0, 0, -5]\nrect G {1..0} none\narray H over G []\nsparse M of E {(1, 0)}\nassoc N of int {1, 5}\nsparse S of D {4, 10}\nassoc T of text {\"a\", \"b\"}\narray a over N [0, 0]\nend\n"}
"#;

// Ranges with a stride, upward and downward: their elements stand in their order.
const STRIDED_AND_ALIGNED: &str = r#"
{"op":"domain","d":"D","is":"{-5..5 by 4 align 1}"} -> {"edit":1,"n":3}
{"op":"array","a":"A","d":"D"} -> {"edit":2,"n":6}
{"op":"size","d":"D"} -> {"size":3}
{"op":"set","a":"A","i":-3,"v":1} -> {"edit":3,"n":1}
{"op":"set","a":"A","i":5,"v":3} -> {"edit":4,"n":1}
{"op":"get","a":"A","i":-5} -> {"error":"E06","name":"out-of-domain"}
{"op":"domain","d":"E","is":"{1..10 by -3}"} -> {"edit":5,"n":3}
{"op":"array","a":"B","d":"E"} -> {"edit":6,"n":7}
{"op":"set","a":"B","i":10,"v":1} -> {"edit":7,"n":1}
{"op":"set","a":"B","i":1,"v":4} -> {"edit":8,"n":1}
{"op":"print"} -> {"text":"chapel-workbook 1\narray A over D [1, 0, 3]\narray B over E [1, 0, 0, 4]\nrect D {-3..5 by 4} none\nrect E {1..10 by -3} none\nend\n"}
"#;

// Each range has one spelling, whatever it was spelled as.
const SPELLINGS_OF_RANGES: &str = r#"
{"op":"domain","d":"P","is":"{1..10 by -2}"} -> {"edit":1,"n":3}
{"op":"domain","d":"Q","is":"{1..10 by 2 align 0}"} -> {"edit":2,"n":3}
{"op":"domain","d":"R","is":"{5..#3}"} -> {"edit":3,"n":3}
{"op":"domain","d":"S","is":"{5..#0}"} -> {"edit":4,"n":3}
{"op":"domain","d":"T","is":"{3..<3}"} -> {"edit":5,"n":3}
{"op":"domain","d":"U","is":"{1..10 by -9223372036854775808}"} -> {"edit":6,"n":3}
{"op":"domain","d":"V","is":"{1..10 by 0}"} -> {"error":"E02","name":"bad-literal"}
{"op":"domain","d":"V","is":"{5..#-1}"} -> {"error":"E02","name":"bad-literal"}
{"op":"print"} -> {"text":"chapel-workbook 1\nrect P {2..10 by -2} none\nrect Q {2..10 by 2} none\nrect R {5..7} none\nrect S {1..0} none\nrect T {1..0} none\nrect U {10..10} none\nend\n"}
"#;

// The lines of the edits from a number on, in force and out of force, with how many edits there are.
const EDITS_FROM: &str = r#"
{"op":"history","from":1} -> {"edits":0,"text":""}
{"op":"domain","d":"D","is":"{1..4}"} -> {"edit":1,"n":3}
{"op":"array","a":"A","d":"D"} -> {"edit":2,"n":7}
{"op":"set","a":"A","i":4,"v":9} -> {"edit":3,"n":1}
{"op":"undo","k":3} -> {"n":1,"undone":3}
{"op":"history","from":3} -> {"edits":3,"text":"- {\"a\":\"A\",\"i\":4,\"op\":\"set\",\"v\":9}\n"}
{"from":2,"op":"history"} -> {"edits":3,"text":"+ {\"a\":\"A\",\"d\":\"D\",\"op\":\"array\"}\n- {\"a\":\"A\",\"i\":4,\"op\":\"set\",\"v\":9}\n"}
{"op":"history","from":1} -> {"edits":3,"text":"+ {\"d\":\"D\",\"is\":\"{1..4}\",\"map\":\"none\",\"op\":\"domain\"}\n+ {\"a\":\"A\",\"d\":\"D\",\"op\":\"array\"}\n- {\"a\":\"A\",\"i\":4,\"op\":\"set\",\"v\":9}\n"}
{"op":"history","from":0} -> {"edits":3,"text":"+ {\"d\":\"D\",\"is\":\"{1..4}\",\"map\":\"none\",\"op\":\"domain\"}\n+ {\"a\":\"A\",\"d\":\"D\",\"op\":\"array\"}\n- {\"a\":\"A\",\"i\":4,\"op\":\"set\",\"v\":9}\n"}
{"op":"history","from":4} -> {"edits":3,"text":""}
{"op":"history","from":5} -> {"edits":3,"text":""}
{"op":"history","from":18446744073709551615} -> {"edits":3,"text":""}
{"op":"redo","k":3} -> {"n":1,"redone":3}
{"op":"history","from":3} -> {"edits":3,"text":"+ {\"a\":\"A\",\"i\":4,\"op\":\"set\",\"v\":9}\n"}
{"op":"history"} -> {"text":"chapel-workbook 2\narray A over D [0, 0, 0, 9]\nrect D {1..4} none\nhistory 3\n+ {\"d\":\"D\",\"is\":\"{1..4}\",\"map\":\"none\",\"op\":\"domain\"}\n+ {\"a\":\"A\",\"d\":\"D\",\"op\":\"array\"}\n+ {\"a\":\"A\",\"i\":4,\"op\":\"set\",\"v\":9}\nend\n"}
{"op":"history","from":-1} -> {"error":"E01","name":"bad-request"}
{"op":"history","from":1.0} -> {"error":"E01","name":"bad-request"}
{"op":"history","from":"1"} -> {"error":"E01","name":"bad-request"}
{"op":"history","from":null} -> {"error":"E01","name":"bad-request"}
{"op":"history","from":18446744073709551616} -> {"error":"E01","name":"bad-request"}
{"op":"history","k":1} -> {"error":"E01","name":"bad-request"}
{"op":"history","from":1,"k":1} -> {"error":"E01","name":"bad-request"}
"#;

/// Each script, over a history of its own.
pub const SCRIPTS: [Script; 6] = [
    ("", NOTHING, 0, 0),
    ("", FIRST_RUN, 3, 19),
    ("", EVERY_KIND, 22, 52),
    ("", STRIDED_AND_ALIGNED, 8, 23),
    ("", SPELLINGS_OF_RANGES, 6, 18),
    ("", EDITS_FROM, 3, 13),
];
