//! A number for each index of a rectangle.

use super::Script;

// A domain D of 1 to 4, and an array A over it, where A[2] is 5.
const BUILT: &str = r#"
{"op":"domain","d":"D","is":"{1..4}"} -> {"edit":1,"n":3}
{"op":"array","a":"A","d":"D"} -> {"edit":2,"n":7}
{"op":"set","a":"A","i":2,"v":5} -> {"edit":3,"n":1}
"#;

// Numbers stand at the indices in their order, row after row, also where a range goes down.
const IN_ORDER: &str = r#"
{"op":"domain","d":"D","is":"{1..2, 1..3}"} -> {"edit":1,"n":3}
{"op":"array","a":"A","d":"D"} -> {"edit":2,"n":9}
{"op":"put","a":"A","on":"{1..2, 2..3}","vs":[12,13,22,23]} -> {"edit":3,"n":4}
{"op":"piece","a":"A","l":0} -> {"piece":[[[1,1],0],[[1,2],12],[[1,3],13],[[2,1],0],[[2,2],22],[[2,3],23]]}
{"op":"put","a":"A","on":"{2..2, 1..3 by -2}","vs":[-9223372036854775808,9223372036854775807]} -> {"edit":4,"n":2}
{"op":"get","a":"A","i":[2,3]} -> {"value":-9223372036854775808}
{"op":"get","a":"A","i":[2,1]} -> {"value":9223372036854775807}
{"op":"get","a":"A","i":[2,2]} -> {"value":22}
{"op":"undo","k":3} -> {"by":4,"error":"E14","name":"blocked"}
{"op":"undo","k":4} -> {"n":2,"undone":4}
{"op":"get","a":"A","i":[2,3]} -> {"value":23}
{"op":"undo","k":3} -> {"n":4,"undone":3}
{"op":"piece","a":"A","l":0} -> {"piece":[[[1,1],0],[[1,2],0],[[1,3],0],[[2,1],0],[[2,2],0],[[2,3],0]]}
{"op":"redo","k":3} -> {"n":4,"redone":3}
{"op":"piece","a":"A","l":0} -> {"piece":[[[1,1],0],[[1,2],12],[[1,3],13],[[2,1],0],[[2,2],22],[[2,3],23]]}
"#;

// Edits that stand on a put, and those that it stands on; an index that it leaves out is free.
const BLOCKED_AND_BLOCKING: &str = r#"
{"op":"put","a":"A","on":"{2..3}","vs":[7,8]} -> {"edit":4,"n":2}
{"op":"undo","k":3} -> {"by":4,"error":"E14","name":"blocked"}
{"op":"set","a":"A","i":4,"v":1} -> {"edit":5,"n":1}
{"op":"copy","a":"A","i":1,"b":"A","j":3,"c":1} -> {"edit":6,"n":1}
{"op":"get","a":"A","i":1} -> {"value":9}
{"op":"undo","k":4} -> {"by":6,"error":"E14","name":"blocked"}
{"op":"undo","k":6} -> {"n":1,"undone":6}
{"op":"undo","k":4} -> {"n":2,"undone":4}
{"op":"get","a":"A","i":2} -> {"value":5}
{"op":"get","a":"A","i":3} -> {"value":0}
{"op":"undo","k":3} -> {"n":1,"undone":3}
{"op":"redo","k":4} -> {"n":2,"redone":4}
{"op":"redo","k":3} -> {"by":4,"error":"E14","name":"blocked"}
{"op":"undo","k":4} -> {"n":2,"undone":4}
{"op":"set","a":"A","i":3,"v":2} -> {"edit":7,"n":1}
{"op":"redo","k":4} -> {"by":7,"error":"E14","name":"blocked"}
{"op":"undo","k":7} -> {"n":1,"undone":7}
{"op":"redo","k":4} -> {"n":2,"redone":4}
{"op":"cascade","k":2} -> {"n":10,"undone":[5,4,2]}
{"op":"redo","k":4} -> {"code":"E04","error":"E16","name":"refused-in-place"}
"#;

// Each refusal of a workbook; nothing changes by one.
const REFUSED: &str = r#"
{"op":"assoc","d":"K","of":"int"} -> {"edit":4,"n":1}
{"op":"array","a":"B","d":"K"} -> {"edit":5,"n":3}
{"op":"put","a":"X","on":"{1..2}","vs":[1,2]} -> {"error":"E04","name":"no-such-name"}
{"op":"put","a":"X","on":"{1, 2}","vs":[1,2]} -> {"error":"E04","name":"no-such-name"}
{"op":"put","a":"D","on":"{1..2}","vs":[1,2]} -> {"error":"E05","name":"wrong-kind"}
{"op":"put","a":"B","on":"{1..2}","vs":[1,2]} -> {"error":"E05","name":"wrong-kind"}
{"op":"put","a":"A","on":"{1..2, 1..2}","vs":[1,2,3,4]} -> {"error":"E05","name":"wrong-kind"}
{"op":"put","a":"A","on":"{1, 2}","vs":[1,2]} -> {"error":"E05","name":"wrong-kind"}
{"op":"put","a":"A","on":"{1, 2}","vs":[1,2,3]} -> {"error":"E05","name":"wrong-kind"}
{"op":"put","a":"A","on":"{}","vs":[]} -> {"error":"E05","name":"wrong-kind"}
{"op":"put","a":"A","on":"{2..5}","vs":[1,2,3,4]} -> {"error":"E06","name":"out-of-domain"}
{"op":"put","a":"A","on":"{0..1}","vs":[1,2]} -> {"error":"E06","name":"out-of-domain"}
{"op":"piece","a":"A","l":0} -> {"piece":[[1,0],[2,5],[3,0],[4,0]]}
{"op":"put","a":"A","on":"{1..0}","vs":[]} -> {"edit":6,"n":0}
{"op":"put","a":"A","on":"{1..4}","vs":[1,5,3,4]} -> {"edit":7,"n":4}
{"op":"undo","k":6} -> {"n":0,"undone":6}
"#;

// What is no request: the least code of all that is wrong, and numbers are counted only by a rectangle within the limits.
const NO_REQUESTS: &str = r#"
{"op":"put","a":"A","on":"{1..2}","vs":[1]} -> {"error":"E01","name":"bad-request"}
{"op":"put","a":"A","on":"{1..2}","vs":[1,2,3]} -> {"error":"E01","name":"bad-request"}
{"op":"put","a":"X","on":"{1..2}","vs":[]} -> {"error":"E01","name":"bad-request"}
{"op":"put","a":"A","on":"{1..0}","vs":[1]} -> {"error":"E01","name":"bad-request"}
{"op":"put","a":"A","on":"{1..2}","vs":[1,"2"]} -> {"error":"E01","name":"bad-request"}
{"op":"put","a":"A","on":"{1..2}","vs":[1,2.0]} -> {"error":"E01","name":"bad-request"}
{"op":"put","a":"A","on":"{1..2}","vs":[1,null]} -> {"error":"E01","name":"bad-request"}
{"op":"put","a":"A","on":"{1..2}","vs":[1,[2]]} -> {"error":"E01","name":"bad-request"}
{"op":"put","a":"A","on":"{1..1}","vs":[9223372036854775808]} -> {"error":"E01","name":"bad-request"}
{"op":"put","a":"A","on":"{1..1}","vs":[-9223372036854775809]} -> {"error":"E01","name":"bad-request"}
{"op":"put","a":"A","on":"{1..1}","vs":1} -> {"error":"E01","name":"bad-request"}
{"op":"put","a":"A","on":"{1..1}","vs":"1"} -> {"error":"E01","name":"bad-request"}
{"op":"put","a":"A","on":"{1..1}","vs":{"1":1}} -> {"error":"E01","name":"bad-request"}
{"op":"put","a":"A","on":"{1..1}","v":1} -> {"error":"E01","name":"bad-request"}
{"op":"put","a":"A","on":"{1..1}"} -> {"error":"E01","name":"bad-request"}
{"op":"put","a":"A","vs":[1]} -> {"error":"E01","name":"bad-request"}
{"op":"put","on":"{1..1}","vs":[1]} -> {"error":"E01","name":"bad-request"}
{"op":"put","a":"A","on":"{1..1}","vs":[1],"v":1} -> {"error":"E01","name":"bad-request"}
{"op":"put","a":"A","on":1,"vs":[1]} -> {"error":"E01","name":"bad-request"}
{"op":"put","a":"1","on":"{1..","vs":[1]} -> {"error":"E01","name":"bad-request"}
{"op":"put","a":"A","on":"{1..","vs":[1.5]} -> {"error":"E01","name":"bad-request"}
{"op":"put","a":"A","on":"{1..65537}","vs":[true]} -> {"error":"E01","name":"bad-request"}
{"op":"put","a":"A","on":"{1, 2}","vs":[true]} -> {"error":"E01","name":"bad-request"}
{"op":"put","a":"A","on":"{1..","vs":[1]} -> {"error":"E02","name":"bad-literal"}
{"op":"put","a":"A","on":"D","vs":[1]} -> {"error":"E02","name":"bad-literal"}
{"op":"put","a":"A","on":"{1..65537}","vs":[1]} -> {"error":"E09","name":"too-large"}
{"op":"put","a":"A","on":"{1..2}","vs":[1,2]} -> {"error":"E04","name":"no-such-name"}
"#;

// The text of a history has the canonical line of a put, in force and out of force.
const TEXTS: &str = r#"
{"op":"put","vs":[ 7, -8 ],"on":"{2..#2}","a":"A"} -> {"edit":4,"n":2}
{"op":"put","a":"A","on":"{4..1}","vs":[]} -> {"edit":5,"n":0}
{"op":"undo","k":4} -> {"n":2,"undone":4}
{"op":"history"} -> {"text":"chapel-workbook 2\narray A over D [0, 5, 0, 0]\nrect D {1..4} none\nhistory 5\n+ {\"d\":\"D\",\"is\":\"{1..4}\",\"map\":\"none\",\"op\":\"domain\"}\n+ {\"a\":\"A\",\"d\":\"D\",\"op\":\"array\"}\n+ {\"a\":\"A\",\"i\":2,\"op\":\"set\",\"v\":5}\n- {\"a\":\"A\",\"on\":\"{2..3}\",\"op\":\"put\",\"vs\":[7,-8]}\n+ {\"a\":\"A\",\"on\":\"{1..0}\",\"op\":\"put\",\"vs\":[]}\nend\n"}
{"op":"redo","k":4} -> {"n":2,"redone":4}
{"op":"history"} -> {"text":"chapel-workbook 2\narray A over D [0, 7, -8, 0]\nrect D {1..4} none\nhistory 5\n+ {\"d\":\"D\",\"is\":\"{1..4}\",\"map\":\"none\",\"op\":\"domain\"}\n+ {\"a\":\"A\",\"d\":\"D\",\"op\":\"array\"}\n+ {\"a\":\"A\",\"i\":2,\"op\":\"set\",\"v\":5}\n+ {\"a\":\"A\",\"on\":\"{2..3}\",\"op\":\"put\",\"vs\":[7,-8]}\n+ {\"a\":\"A\",\"on\":\"{1..0}\",\"op\":\"put\",\"vs\":[]}\nend\n"}
"#;

/// Each script, over a history of its own.
pub const SCRIPTS: [Script; 5] = [
    ("", IN_ORDER, 4, 28),
    (BUILT, BLOCKED_AND_BLOCKING, 7, 37),
    (BUILT, REFUSED, 7, 19),
    ("", NO_REQUESTS, 0, 0),
    (BUILT, TEXTS, 5, 17),
];
