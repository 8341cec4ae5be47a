//! Worked histories of undo with dependents.

use super::Script;

// A domain D of 1 to 4, and an array A over it: an element is set and copied on, and another is set alone.
const COPIES: &str = r#"
{"op":"domain","d":"D","is":"{1..4}"} -> {"edit":1,"n":3}
{"op":"array","a":"A","d":"D"} -> {"edit":2,"n":7}
{"op":"set","a":"A","i":1,"v":5} -> {"edit":3,"n":1}
{"op":"copy","a":"A","i":2,"b":"A","j":1,"c":1} -> {"edit":4,"n":1}
{"op":"copy","a":"A","i":3,"b":"A","j":2,"c":1} -> {"edit":5,"n":1}
{"op":"set","a":"A","i":4,"v":8} -> {"edit":6,"n":1}
"#;

// The set and its copies go, the other set stays, and goes alone.
const CASCADE_OF_COPIES: &str = r#"
{"op":"undo","k":3} -> {"by":4,"error":"E14","name":"blocked"}
{"op":"dependents","k":3} -> {"dependents":[5,4,3]}
{"op":"state","k":5} -> {"in_force":true}
{"op":"cascade","k":3} -> {"n":3,"undone":[5,4,3]}
{"op":"piece","a":"A","l":0} -> {"piece":[[1,0],[2,0],[3,0],[4,8]]}
{"op":"state","k":6} -> {"in_force":true}
{"op":"cascade","k":3} -> {"error":"E12","name":"not-in-force"}
{"op":"dependents","k":3} -> {"error":"E12","name":"not-in-force"}
{"op":"cascade","k":9} -> {"error":"E11","name":"no-such-edit"}
{"op":"dependents","k":9} -> {"error":"E11","name":"no-such-edit"}
{"op":"cascade","k":0} -> {"error":"E11","name":"no-such-edit"}
{"op":"dependents","k":0} -> {"error":"E11","name":"no-such-edit"}
{"op":"cascade","k":6} -> {"n":1,"undone":[6]}
{"op":"piece","a":"A","l":0} -> {"piece":[[1,0],[2,0],[3,0],[4,0]]}
"#;

// All goes with the domain.
const CASCADE_OF_A_DOMAIN: &str = r#"
{"op":"dependents","k":6} -> {"dependents":[6]}
{"op":"dependents","k":1} -> {"dependents":[6,5,4,3,2,1]}
{"op":"cascade","k":1} -> {"n":14,"undone":[6,5,4,3,2,1]}
{"op":"size","d":"D"} -> {"error":"E04","name":"no-such-name"}
{"op":"undo"} -> {"error":"E11","name":"no-such-edit"}
"#;

// An edit out of force needs nothing, and each that went may come back in its own place.
const BACK_AGAIN: &str = r#"
{"op":"undo","k":5} -> {"n":1,"undone":5}
{"op":"dependents","k":3} -> {"dependents":[4,3]}
{"op":"cascade","k":3} -> {"n":2,"undone":[4,3]}
{"op":"redo","k":3} -> {"n":1,"redone":3}
{"op":"redo","k":4} -> {"n":1,"redone":4}
{"op":"redo","k":5} -> {"n":1,"redone":5}
{"op":"piece","a":"A","l":0} -> {"piece":[[1,5],[2,6],[3,7],[4,8]]}
{"op":"cascade","k":4} -> {"n":2,"undone":[5,4]}
{"op":"get","a":"A","i":1} -> {"value":5}
"#;

// What is no request.
const MISREAD: &str = r#"
{"op":"cascade"} -> {"error":"E01","name":"bad-request"}
{"op":"cascade","k":"3"} -> {"error":"E01","name":"bad-request"}
{"op":"cascade","k":-1} -> {"error":"E01","name":"bad-request"}
{"op":"cascade","k":3,"l":1} -> {"error":"E01","name":"bad-request"}
{"op":"dependents"} -> {"error":"E01","name":"bad-request"}
{"op":"dependents","k":1.0} -> {"error":"E01","name":"bad-request"}
{"op":"dependents","d":"D"} -> {"error":"E01","name":"bad-request"}
{"op":"cascade","k":18446744073709551615} -> {"error":"E11","name":"no-such-edit"}
{"op":"dependents","k":18446744073709551615} -> {"error":"E11","name":"no-such-edit"}
"#;

/// Each script, over a history of its own.
pub const SCRIPTS: [Script; 4] = [
    (COPIES, CASCADE_OF_COPIES, 6, 18),
    (COPIES, CASCADE_OF_A_DOMAIN, 6, 28),
    (COPIES, BACK_AGAIN, 6, 22),
    (COPIES, MISREAD, 6, 14),
];
