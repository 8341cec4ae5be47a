//! Reductions of arrays over each kind of domain.

use super::Script;

// A sum is judged once, as a whole, whatever the locales' parts come to; it is that of the edits in force. A sparse array's
// implicit value is no element.
const REDUCTIONS: &str = r#"
{"op":"domain","d":"D","is":"{1..3}","map":"cyclicDist(1, [2])"} -> {"edit":1,"n":3}
{"op":"array","a":"A","d":"D"} -> {"edit":2,"n":6}
{"op":"set","a":"A","i":1,"v":9223372036854775807} -> {"edit":3,"n":1}
{"op":"set","a":"A","i":3,"v":7} -> {"edit":4,"n":1}
{"op":"reduce","a":"A","how":"+"} -> {"error":"E10","name":"overflow"}
{"op":"set","a":"A","i":2,"v":-7} -> {"edit":5,"n":1}
{"op":"reduce","a":"A","how":"+"} -> {"value":9223372036854775807}
{"op":"remap","d":"D","map":"none"} -> {"edit":6,"n":1}
{"op":"reduce","a":"A","how":"+"} -> {"value":9223372036854775807}
{"op":"undo","k":3} -> {"n":1,"undone":3}
{"op":"reduce","a":"A","how":"+"} -> {"value":0}
{"op":"reduce","a":"A","how":"min"} -> {"value":-7}
{"op":"reduce","a":"A","how":"max"} -> {"value":7}
{"op":"sparse","d":"S","of":"D"} -> {"edit":7,"n":2}
{"op":"array","a":"B","d":"S"} -> {"edit":8,"n":3}
{"op":"irv","a":"B","v":5} -> {"edit":9,"n":1}
{"op":"reduce","a":"B","how":"max"} -> {"error":"E18","name":"empty"}
{"op":"reduce","a":"B","how":"+"} -> {"value":0}
{"op":"add","d":"S","i":2} -> {"edit":10,"n":2}
{"op":"reduce","a":"B","how":"+"} -> {"value":5}
{"op":"domain","d":"E","is":"{1..2, 1..2}"} -> {"edit":11,"n":3}
{"op":"array","a":"C","d":"E"} -> {"edit":12,"n":7}
{"op":"set","a":"C","i":[2,1],"v":-9223372036854775808} -> {"edit":13,"n":1}
{"op":"set","a":"C","i":[1,1],"v":-1} -> {"edit":14,"n":1}
{"op":"reduce","a":"C","how":"+"} -> {"error":"E10","name":"overflow"}
{"op":"reduce","a":"C","how":"min"} -> {"value":-9223372036854775808}
{"op":"assoc","d":"T","of":"text"} -> {"edit":15,"n":1}
{"op":"array","a":"L","d":"T"} -> {"edit":16,"n":3}
{"op":"add","d":"T","i":"x"} -> {"edit":17,"n":2}
{"op":"set","a":"L","i":"x","v":4} -> {"edit":18,"n":1}
{"op":"reduce","a":"L","how":"+"} -> {"value":4}
{"op":"reduce","a":"D","how":"+"} -> {"error":"E05","name":"wrong-kind"}
{"op":"reduce","a":"Q","how":"min"} -> {"error":"E04","name":"no-such-name"}
"#;

/// Each script, over a history of its own.
pub const SCRIPTS: [Script; 1] = [("", REDUCTIONS, 18, 41)];
