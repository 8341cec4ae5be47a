//! Worked histories of all kinds of requests.

use super::Script;

// An array, a set of an element, and its undo.
const FIRST_RUN: &str = r#"
{"op":"domain","d":"D","is":"{1..4}"} -> {"edit":1,"n":3}
{"op":"array","a":"A","d":"D"} -> {"edit":2,"n":7}
{"op":"set","a":"A","i":4,"v":9} -> {"edit":3,"n":1}
{"op":"undo"} -> {"n":1,"undone":3}
{"op":"get","a":"A","i":4} -> {"value":0}
"#;

// A domain D of 1 to 4, and an array A over it, where A[1] is 5.
const BUILT: &str = r#"
{"op":"domain","d":"D","is":"{1..4}"} -> {"edit":1,"n":3}
{"op":"array","a":"A","d":"D"} -> {"edit":2,"n":7}
{"op":"set","a":"A","i":1,"v":5} -> {"edit":3,"n":1}
"#;

// Refusals of undo and redo.
const REFUSALS: &str = r#"
{"op":"array","a":"A","d":"D"} -> {"error":"E03","name":"name-taken"}
{"op":"get","a":"A","i":"x"} -> {"error":"E05","name":"wrong-kind"}
{"op":"get","a":"A","i":[1,2]} -> {"error":"E05","name":"wrong-kind"}
{"op":"get","a":"A","i":5} -> {"error":"E06","name":"out-of-domain"}
{"op":"undo","k":0} -> {"error":"E11","name":"no-such-edit"}
{"op":"undo","k":4} -> {"error":"E11","name":"no-such-edit"}
{"op":"undo","k":1} -> {"by":2,"error":"E14","name":"blocked"}
{"op":"redo","k":3} -> {"error":"E13","name":"in-force"}
{"op":"state","k":3} -> {"in_force":true}
{"op":"undo","k":3} -> {"n":1,"undone":3}
{"op":"state","k":3} -> {"in_force":false}
{"op":"undo","k":3} -> {"error":"E12","name":"not-in-force"}
{"op":"undo","k":2} -> {"n":7,"undone":2}
{"op":"redo","k":3} -> {"code":"E04","error":"E16","name":"refused-in-place"}
{"op":"redo","k":2} -> {"n":7,"redone":2}
"#;

// Copies fills and sizes.
const COPIES: &str = r#"
{"op":"size","d":"D"} -> {"size":4}
{"op":"size","d":"A"} -> {"error":"E05","name":"wrong-kind"}
{"op":"size","d":"E"} -> {"error":"E04","name":"no-such-name"}
{"op":"copy","a":"A","i":2,"b":"A","j":1,"c":1} -> {"edit":4,"n":1}
{"op":"get","a":"A","i":2} -> {"value":6}
{"op":"undo","k":3} -> {"by":4,"error":"E14","name":"blocked"}
{"op":"copy","a":"A","i":1,"b":"A","j":1,"c":9223372036854775803} -> {"error":"E10","name":"overflow"}
{"op":"copy","a":"A","i":1,"b":"A","j":5,"c":1} -> {"error":"E06","name":"out-of-domain"}
{"op":"fill","a":"A","on":"{2..3}","v":8} -> {"edit":5,"n":2}
{"op":"get","a":"A","i":3} -> {"value":8}
{"op":"get","a":"A","i":4} -> {"value":0}
{"op":"fill","a":"A","on":"{4..5}","v":8} -> {"error":"E06","name":"out-of-domain"}
{"op":"fill","a":"A","on":"{1..0}","v":8} -> {"edit":6,"n":0}
{"op":"undo","k":4} -> {"by":5,"error":"E14","name":"blocked"}
{"op":"undo","k":5} -> {"n":2,"undone":5}
{"op":"get","a":"A","i":2} -> {"value":6}
"#;

// Fills and ends of whole arrays.
const FILLS: &str = r#"
{"op":"fill_all","a":"A","v":7} -> {"edit":4,"n":4}
{"op":"get","a":"A","i":4} -> {"value":7}
{"op":"undo","k":3} -> {"by":4,"error":"E14","name":"blocked"}
{"op":"fill_all","a":"D","v":7} -> {"error":"E05","name":"wrong-kind"}
{"op":"drop_array","a":"A"} -> {"edit":5,"n":7}
{"op":"drop_array","a":"A"} -> {"error":"E04","name":"no-such-name"}
{"op":"undo"} -> {"n":7,"undone":5}
{"op":"get","a":"A","i":4} -> {"value":7}
"#;

// Sparse domains and implicit values.
const SPARSE: &str = r#"
{"op":"sparse","d":"S","of":"D"} -> {"edit":4,"n":2}
{"op":"array","a":"B","d":"S"} -> {"edit":5,"n":3}
{"op":"get","a":"B","i":2} -> {"value":0}
{"op":"irv","a":"B","v":7} -> {"edit":6,"n":1}
{"op":"get","a":"B","i":2} -> {"value":7}
{"op":"get","a":"B","i":9} -> {"error":"E06","name":"out-of-domain"}
{"op":"copy","a":"A","i":1,"b":"B","j":2,"c":1} -> {"edit":7,"n":1}
{"op":"get","a":"A","i":1} -> {"value":8}
{"op":"undo","k":6} -> {"by":7,"error":"E14","name":"blocked"}
{"op":"irv","a":"A","v":1} -> {"error":"E05","name":"wrong-kind"}
{"op":"sparse","d":"T","of":"S"} -> {"error":"E05","name":"wrong-kind"}
{"op":"sparse","d":"T","of":"X"} -> {"error":"E04","name":"no-such-name"}
{"op":"size","d":"S"} -> {"size":0}
"#;

// One array with another.
const COMBINED: &str = r#"
{"op":"array","a":"C","d":"D"} -> {"edit":4,"n":7}
{"op":"fill_all","a":"A","v":3} -> {"edit":5,"n":4}
{"op":"fill_all","a":"C","v":4} -> {"edit":6,"n":4}
{"op":"all","a":"A","how":"*","b":"C"} -> {"edit":7,"n":4}
{"op":"get","a":"A","i":4} -> {"value":12}
{"op":"all","a":"A","how":"-","b":"C"} -> {"edit":8,"n":4}
{"op":"get","a":"A","i":4} -> {"value":8}
{"op":"all","a":"A","how":"+","b":"A"} -> {"edit":9,"n":4}
{"op":"get","a":"A","i":1} -> {"value":16}
{"op":"all","a":"A","how":"=","b":"C"} -> {"edit":10,"n":4}
{"op":"get","a":"A","i":1} -> {"value":4}
{"op":"all","a":"A","how":"%","b":"C"} -> {"error":"E01","name":"bad-request"}
{"op":"undo","k":6} -> {"by":7,"error":"E14","name":"blocked"}
{"op":"where","d":"D","i":3} -> {"locale":0}
{"op":"where","d":"D","i":5} -> {"error":"E06","name":"out-of-domain"}
{"op":"where","d":"A","i":3} -> {"error":"E05","name":"wrong-kind"}
{"op":"where","d":"X","i":3} -> {"error":"E04","name":"no-such-name"}
"#;

// Associative domains of both types.
const ASSOCIATIVE: &str = r#"
{"op":"assoc","d":"K","of":"int"} -> {"edit":4,"n":1}
{"op":"assoc","d":"T","of":"text"} -> {"edit":5,"n":1}
{"op":"assoc","d":"D","of":"text"} -> {"error":"E03","name":"name-taken"}
{"op":"array","a":"B","d":"K"} -> {"edit":6,"n":3}
{"op":"array","a":"C","d":"T"} -> {"edit":7,"n":3}
{"op":"get","a":"B","i":2} -> {"error":"E06","name":"out-of-domain"}
{"op":"get","a":"B","i":"x"} -> {"error":"E05","name":"wrong-kind"}
{"op":"get","a":"C","i":"x"} -> {"error":"E06","name":"out-of-domain"}
{"op":"get","a":"C","i":2} -> {"error":"E05","name":"wrong-kind"}
{"op":"size","d":"K"} -> {"size":0}
{"op":"undo","k":4} -> {"by":6,"error":"E14","name":"blocked"}
"#;

// Nothing to undo.
const EMPTY: &str = r#"
{"op":"undo"} -> {"error":"E11","name":"no-such-edit"}
{"op":"undo","k":1} -> {"error":"E11","name":"no-such-edit"}
{"op":"redo","k":1} -> {"error":"E11","name":"no-such-edit"}
"#;

/// Each script, over a history of its own.
pub const SCRIPTS: [Script; 8] = [
    ("", FIRST_RUN, 3, 12),
    ("", EMPTY, 0, 0),
    (BUILT, REFUSALS, 3, 26),
    (BUILT, COPIES, 6, 16),
    (BUILT, FILLS, 5, 29),
    (BUILT, SPARSE, 7, 18),
    (BUILT, COMBINED, 10, 42),
    (BUILT, ASSOCIATIVE, 7, 19),
];
