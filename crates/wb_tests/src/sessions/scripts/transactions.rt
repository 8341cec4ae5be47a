//! Several commands as one edit, with a note.

use super::Script;

// A domain D of 1 to 4, and an array A over it, where A[2] is 5.
const BUILT: &str = r#"
{"op":"domain","d":"D","is":"{1..4}"} -> {"edit":1,"n":3}
{"op":"array","a":"A","d":"D"} -> {"edit":2,"n":7}
{"op":"set","a":"A","i":2,"v":5} -> {"edit":3,"n":1}
"#;

// A domain, an array over it and a fill are one edit with a note: undone, redone and told as one.
const ONE_EDIT: &str = r#"
{"op":"transaction","edits":[{"op":"domain","d":"D","is":"{1..4}"},{"op":"array","a":"A","d":"D"},{"op":"fill","a":"A","on":"{2..3}","v":7}],"note":"a plan"} -> {"edit":1,"n":10}
{"op":"piece","a":"A","l":0} -> {"piece":[[1,0],[2,7],[3,7],[4,0]]}
{"op":"note","k":1} -> {"note":"a plan"}
{"op":"note","k":2} -> {"error":"E11","name":"no-such-edit"}
{"op":"note","k":0} -> {"error":"E11","name":"no-such-edit"}
{"op":"state","k":1} -> {"in_force":true}
{"op":"set","a":"A","i":1,"v":1} -> {"edit":2,"n":1}
{"op":"note","k":2} -> {"note":null}
{"op":"undo","k":1} -> {"by":2,"error":"E14","name":"blocked"}
{"op":"undo"} -> {"n":1,"undone":2}
{"op":"undo","k":1} -> {"n":10,"undone":1}
{"op":"size","d":"D"} -> {"error":"E04","name":"no-such-name"}
{"op":"note","k":1} -> {"note":"a plan"}
{"op":"redo","k":1} -> {"n":10,"redone":1}
{"op":"piece","a":"A","l":0} -> {"piece":[[1,0],[2,7],[3,7],[4,0]]}
{"op":"edits"} -> {"edits":2,"writes":32}
"#;

// The first command that is refused refuses all, with its place; nothing is left, and each sees what those before it made.
const REFUSED: &str = r#"
{"op":"transaction","edits":[{"op":"set","a":"A","i":1,"v":1},{"op":"set","a":"A","i":4,"v":2},{"op":"set","a":"A","i":5,"v":3},{"op":"set","a":"B","i":1,"v":4}]} -> {"at":2,"error":"E06","name":"out-of-domain"}
{"op":"transaction","edits":[{"op":"set","a":"B","i":1,"v":4}]} -> {"at":0,"error":"E04","name":"no-such-name"}
{"op":"piece","a":"A","l":0} -> {"piece":[[1,0],[2,5],[3,0],[4,0]]}
{"op":"transaction","edits":[{"op":"assoc","d":"K","of":"int"},{"op":"add","d":"K","i":1},{"op":"assoc","d":"K","of":"text"}]} -> {"at":2,"error":"E03","name":"name-taken"}
{"op":"size","d":"K"} -> {"error":"E04","name":"no-such-name"}
{"op":"transaction","edits":[{"op":"drop_array","a":"A"},{"op":"get_rid","a":"A"}]} -> {"error":"E01","name":"bad-request"}
{"op":"transaction","edits":[{"op":"drop_array","a":"A"},{"op":"set","a":"A","i":1,"v":1}]} -> {"at":1,"error":"E04","name":"no-such-name"}
{"op":"transaction","edits":[{"op":"set","a":"A","i":1,"v":9223372036854775807},{"op":"copy","a":"A","i":3,"b":"A","j":1,"c":1}]} -> {"at":1,"error":"E10","name":"overflow"}
{"op":"piece","a":"A","l":0} -> {"piece":[[1,0],[2,5],[3,0],[4,0]]}
{"op":"edits"} -> {"edits":3,"writes":11}
"#;

// A cell that is set twice is counted once, and undo brings back the first value. What is made and taken back again counts too.
const TWICE: &str = r#"
{"op":"transaction","edits":[{"op":"set","a":"A","i":2,"v":8},{"op":"set","a":"A","i":1,"v":6},{"op":"copy","a":"A","i":2,"b":"A","j":1,"c":4}]} -> {"edit":4,"n":2}
{"op":"piece","a":"A","l":0} -> {"piece":[[1,6],[2,10],[3,0],[4,0]]}
{"op":"undo","k":4} -> {"n":2,"undone":4}
{"op":"piece","a":"A","l":0} -> {"piece":[[1,0],[2,5],[3,0],[4,0]]}
{"op":"redo","k":4} -> {"n":2,"redone":4}
{"op":"transaction","edits":[{"op":"reshape","d":"D","to":"{1..2}"},{"op":"reshape","d":"D","to":"{1..4}"}]} -> {"edit":5,"n":3}
{"op":"piece","a":"A","l":0} -> {"piece":[[1,6],[2,10],[3,0],[4,0]]}
"#;

// Edits that stand on a transaction, and those that it stands on.
const BLOCKED_AND_BLOCKING: &str = r#"
{"op":"transaction","edits":[{"op":"set","a":"A","i":3,"v":7},{"op":"copy","a":"A","i":4,"b":"A","j":2,"c":1}]} -> {"edit":4,"n":2}
{"op":"undo","k":3} -> {"by":4,"error":"E14","name":"blocked"}
{"op":"set","a":"A","i":1,"v":1} -> {"edit":5,"n":1}
{"op":"undo","k":5} -> {"n":1,"undone":5}
{"op":"copy","a":"A","i":1,"b":"A","j":4,"c":0} -> {"edit":6,"n":1}
{"op":"undo","k":4} -> {"by":6,"error":"E14","name":"blocked"}
{"op":"dependents","k":3} -> {"dependents":[6,4,3]}
{"op":"cascade","k":3} -> {"n":4,"undone":[6,4,3]}
{"op":"piece","a":"A","l":0} -> {"piece":[[1,0],[2,0],[3,0],[4,0]]}
{"op":"redo","k":4} -> {"n":2,"redone":4}
{"op":"piece","a":"A","l":0} -> {"piece":[[1,0],[2,0],[3,7],[4,1]]}
{"op":"redo","k":3} -> {"by":4,"error":"E14","name":"blocked"}
{"op":"set","a":"A","i":3,"v":9} -> {"edit":7,"n":1}
{"op":"undo","k":4} -> {"by":7,"error":"E14","name":"blocked"}
{"op":"undo","k":7} -> {"n":1,"undone":7}
{"op":"undo","k":4} -> {"n":2,"undone":4}
{"op":"undo","k":2} -> {"n":7,"undone":2}
{"op":"redo","k":4} -> {"at":0,"code":"E04","error":"E16","name":"refused-in-place"}
{"op":"undo","k":1} -> {"n":3,"undone":1}
{"op":"redo","k":2} -> {"code":"E04","error":"E16","name":"refused-in-place"}
"#;

// Sets of elements of one array as one edit: in force, blocked, undone and redone, with a note, and told again.
const SETS: &str = r#"
{"op":"transaction","edits":[{"op":"set","a":"A","i":3,"v":7},{"op":"set","a":"A","i":2,"v":8}],"note":"two"} -> {"edit":4,"n":2}
{"op":"piece","a":"A","l":0} -> {"piece":[[1,0],[2,8],[3,7],[4,0]]}
{"op":"note","k":4} -> {"note":"two"}
{"op":"state","k":4} -> {"in_force":true}
{"op":"history","from":4} -> {"edits":4,"text":"+ {\"edits\":[{\"a\":\"A\",\"i\":3,\"op\":\"set\",\"v\":7},{\"a\":\"A\",\"i\":2,\"op\":\"set\",\"v\":8}],\"note\":\"two\",\"op\":\"transaction\"}\n"}
{"op":"copy","a":"A","i":4,"b":"A","j":2,"c":1} -> {"edit":5,"n":1}
{"op":"piece","a":"A","l":0} -> {"piece":[[1,0],[2,8],[3,7],[4,9]]}
{"op":"undo","k":4} -> {"by":5,"error":"E14","name":"blocked"}
{"op":"undo","k":3} -> {"by":4,"error":"E14","name":"blocked"}
{"op":"dependents","k":4} -> {"dependents":[5,4]}
{"op":"dependents","k":2} -> {"dependents":[5,4,3,2]}
{"op":"undo","k":5} -> {"n":1,"undone":5}
{"op":"undo","k":4} -> {"n":2,"undone":4}
{"op":"piece","a":"A","l":0} -> {"piece":[[1,0],[2,5],[3,0],[4,0]]}
{"op":"note","k":4} -> {"note":"two"}
{"op":"state","k":4} -> {"in_force":false}
{"op":"history","from":5} -> {"edits":5,"text":"- {\"a\":\"A\",\"b\":\"A\",\"c\":1,\"i\":4,\"j\":2,\"op\":\"copy\"}\n"}
{"op":"set","a":"A","i":2,"v":1} -> {"edit":6,"n":1}
{"op":"redo","k":4} -> {"by":6,"error":"E14","name":"blocked"}
{"op":"undo"} -> {"n":1,"undone":6}
{"op":"redo","k":4} -> {"n":2,"redone":4}
{"op":"piece","a":"A","l":0} -> {"piece":[[1,0],[2,8],[3,7],[4,0]]}
{"op":"undo","k":3} -> {"by":4,"error":"E14","name":"blocked"}
{"op":"undo"} -> {"n":2,"undone":4}
{"op":"piece","a":"A","l":0} -> {"piece":[[1,0],[2,5],[3,0],[4,0]]}
{"op":"undo","k":3} -> {"n":1,"undone":3}
{"op":"undo","k":2} -> {"n":7,"undone":2}
{"op":"redo","k":4} -> {"at":0,"code":"E04","error":"E16","name":"refused-in-place"}
{"op":"redo","k":2} -> {"n":7,"redone":2}
{"op":"redo","k":4} -> {"n":2,"redone":4}
{"op":"undo","k":2} -> {"by":4,"error":"E14","name":"blocked"}
{"op":"undo","k":4} -> {"n":2,"undone":4}
{"op":"piece","a":"A","l":0} -> {"piece":[[1,0],[2,0],[3,0],[4,0]]}
"#;

// Sets of one element twice, of two arrays, at pairs and at texts.
const OTHER_SETS: &str = r#"
{"op":"transaction","edits":[{"op":"set","a":"A","i":1,"v":6},{"op":"set","a":"A","i":1,"v":7}]} -> {"edit":4,"n":1}
{"op":"undo","k":4} -> {"n":1,"undone":4}
{"op":"piece","a":"A","l":0} -> {"piece":[[1,0],[2,5],[3,0],[4,0]]}
{"op":"redo","k":4} -> {"n":1,"redone":4}
{"op":"array","a":"B","d":"D"} -> {"edit":5,"n":7}
{"op":"transaction","edits":[{"op":"set","a":"A","i":1,"v":9},{"op":"set","a":"B","i":1,"v":4}]} -> {"edit":6,"n":2}
{"op":"undo","k":5} -> {"by":6,"error":"E14","name":"blocked"}
{"op":"undo","k":6} -> {"n":2,"undone":6}
{"op":"piece","a":"A","l":0} -> {"piece":[[1,7],[2,5],[3,0],[4,0]]}
{"op":"redo","k":6} -> {"n":2,"redone":6}
{"op":"domain","d":"E","is":"{1..2, 1..2}"} -> {"edit":7,"n":3}
{"op":"array","a":"C","d":"E"} -> {"edit":8,"n":7}
{"op":"transaction","edits":[{"op":"set","a":"C","i":[2,1],"v":3},{"op":"set","a":"C","i":[1,2],"v":-3}]} -> {"edit":9,"n":2}
{"op":"transaction","edits":[{"op":"set","a":"C","i":[1,2],"v":6},{"op":"set","a":"C","i":[2,1],"v":4}]} -> {"edit":10,"n":2}
{"op":"undo","k":9} -> {"by":10,"error":"E14","name":"blocked"}
{"op":"undo","k":10} -> {"n":2,"undone":10}
{"op":"piece","a":"C","l":0} -> {"piece":[[[1,1],0],[[1,2],-3],[[2,1],3],[[2,2],0]]}
{"op":"undo","k":9} -> {"n":2,"undone":9}
{"op":"history","from":10} -> {"edits":10,"text":"- {\"edits\":[{\"a\":\"C\",\"i\":[1,2],\"op\":\"set\",\"v\":6},{\"a\":\"C\",\"i\":[2,1],\"op\":\"set\",\"v\":4}],\"op\":\"transaction\"}\n"}
{"op":"redo","k":9} -> {"n":2,"redone":9}
{"op":"piece","a":"C","l":0} -> {"piece":[[[1,1],0],[[1,2],-3],[[2,1],3],[[2,2],0]]}
{"op":"assoc","d":"K","of":"text"} -> {"edit":11,"n":1}
{"op":"add","d":"K","i":"x"} -> {"edit":12,"n":1}
{"op":"add","d":"K","i":"y"} -> {"edit":13,"n":1}
{"op":"array","a":"T","d":"K"} -> {"edit":14,"n":5}
{"op":"transaction","edits":[{"op":"set","a":"T","i":"y","v":1},{"op":"set","a":"T","i":"x","v":2}],"note":"texts"} -> {"edit":15,"n":2}
{"op":"undo"} -> {"n":2,"undone":15}
{"op":"redo","k":15} -> {"n":2,"redone":15}
{"op":"piece","a":"T","l":0} -> {"piece":[["x",2],["y",1]]}
"#;

// What is no request: the least code of all that is wrong, also within the commands.
const NO_REQUESTS: &str = r#"
{"op":"transaction"} -> {"error":"E01","name":"bad-request"}
{"op":"transaction","edits":[]} -> {"error":"E01","name":"bad-request"}
{"op":"transaction","edits":{}} -> {"error":"E01","name":"bad-request"}
{"op":"transaction","edits":[1]} -> {"error":"E01","name":"bad-request"}
{"op":"transaction","edits":[{}]} -> {"error":"E01","name":"bad-request"}
{"op":"transaction","edits":[{"op":"undo"}]} -> {"error":"E01","name":"bad-request"}
{"op":"transaction","edits":[{"op":"get","a":"A","i":1}]} -> {"error":"E01","name":"bad-request"}
{"op":"transaction","edits":[{"op":"load","text":"chapel-workbook 1\nend\n"}]} -> {"error":"E01","name":"bad-request"}
{"op":"transaction","edits":[{"op":"load","text":""}]} -> {"error":"E01","name":"bad-request"}
{"op":"transaction","edits":[{"op":"transaction","edits":[{"op":"drop_array","a":"A"}]}]} -> {"error":"E01","name":"bad-request"}
{"op":"transaction","edits":[{"op":"drop_array","a":"A","b":1}]} -> {"error":"E01","name":"bad-request"}
{"op":"transaction","edits":[{"op":"drop_array","a":"1"}]} -> {"error":"E01","name":"bad-request"}
{"op":"transaction","edits":[{"op":"drop_array","a":"A"}],"note":1} -> {"error":"E01","name":"bad-request"}
{"op":"transaction","edits":[{"op":"drop_array","a":"A"}],"note":null} -> {"error":"E01","name":"bad-request"}
{"op":"transaction","edits":[{"op":"drop_array","a":"A"}],"note":"a\"b"} -> {"error":"E01","name":"bad-request"}
{"op":"transaction","edits":[{"op":"drop_array","a":"A"}],"why":"x"} -> {"error":"E01","name":"bad-request"}
{"op":"transaction","edits":[{"op":"fill","a":"A","on":"{1..","v":1}]} -> {"error":"E02","name":"bad-literal"}
{"op":"transaction","edits":[{"op":"fill","a":"A","on":"{1..","v":1}],"note":1} -> {"error":"E01","name":"bad-request"}
{"op":"transaction","edits":[{"op":"fill","a":"A","on":"{1..65537}","v":1}]} -> {"error":"E09","name":"too-large"}
{"op":"transaction","edits":[{"op":"remap","d":"D","map":"blockDist({1..4} by 2, 2)"}]} -> {"error":"E02","name":"bad-literal"}
{"op":"transaction","edits":[{"op":"fill","a":"A","on":"{1..65537}","v":1},{"op":"fill","a":"A","on":"{1..","v":1}]} -> {"error":"E02","name":"bad-literal"}
{"op":"transaction","edits":[{"op":"fill","a":"A","on":"{1..","v":1},{"op":"fill","a":"A","on":"{1..65537}","v":1},{"op":"size","d":"D"}]} -> {"error":"E01","name":"bad-request"}
{"op":"note"} -> {"error":"E01","name":"bad-request"}
{"op":"note","k":-1} -> {"error":"E01","name":"bad-request"}
{"op":"note","k":1,"note":"x"} -> {"error":"E01","name":"bad-request"}
"#;

// What is wrong with a transaction, and with the command at a place within it.
const EXPLAINED: &str = r#"
{"op":"explain","line":"{\"op\":\"transaction\"}"} -> {"wrong":{"error":"E01","field":"edits","name":"bad-request","rule":"each field that the op has"}}
{"op":"explain","line":"{\"op\":\"transaction\",\"edits\":[]}"} -> {"wrong":{"error":"E01","field":"edits","name":"bad-request","rule":"an array of 1 to 4096 edits"}}
{"op":"explain","line":"{\"op\":\"transaction\",\"edits\":[{}],\"note\":1}"} -> {"wrong":{"error":"E01","field":"note","name":"bad-request","rule":"a text of at most 256 bytes without quotes, backslashes and control characters"}}
{"op":"explain","line":"{\"op\":\"transaction\",\"edits\":[{\"op\":\"drop_array\",\"a\":\"A\"},{}]}"} -> {"wrong":{"at":1,"error":"E01","field":"op","name":"bad-request","rule":"an op that changes a domain or an array"}}
{"op":"explain","line":"{\"op\":\"transaction\",\"edits\":[{\"op\":\"load\",\"text\":\"\"}]}"} -> {"wrong":{"at":0,"error":"E01","field":"op","name":"bad-request","rule":"an op that changes a domain or an array"}}
{"op":"explain","line":"{\"op\":\"transaction\",\"edits\":[7]}"} -> {"wrong":{"at":0,"error":"E01","field":null,"name":"bad-request","rule":"a JSON object"}}
{"op":"explain","line":"{\"op\":\"transaction\",\"edits\":[{\"op\":\"fill\",\"a\":\"A\",\"on\":\"{1..\",\"v\":1},{\"op\":\"set\",\"a\":\"A\",\"i\":1,\"v\":2.5}]}"} -> {"wrong":{"at":1,"error":"E01","field":"v","name":"bad-request","rule":"an integer from -2^63 to 2^63-1, without fraction and exponent"}}
{"op":"explain","line":"{\"op\":\"transaction\",\"edits\":[{\"op\":\"put\",\"a\":\"A\",\"on\":\"{1..2}\",\"vs\":[1]}]}"} -> {"wrong":{"at":0,"error":"E01","field":"vs","name":"bad-request","rule":"as many numbers as the rectangle has indices"}}
{"op":"explain","line":"{\"op\":\"transaction\",\"edits\":[{\"op\":\"drop_array\",\"a\":\"A\"}],\"note\":\"x\"}"} -> {"wrong":null}
{"op":"explain","line":"{\"op\":\"note\",\"k\":1}"} -> {"wrong":null}
"#;

// The text of a history has the canonical line of a transaction, in force and out of force.
const TEXTS: &str = r#"
{"note":"März","op":"transaction","edits":[{"v":7,"op":"set","i":1,"a":"A"},{"op":"fill","a":"A","on":"{3..#2}","v":1}]} -> {"edit":4,"n":3}
{"op":"transaction","edits":[{"op":"drop_array","a":"A"}]} -> {"edit":5,"n":7}
{"op":"undo","k":5} -> {"n":7,"undone":5}
{"op":"history","from":4} -> {"edits":5,"text":"+ {\"edits\":[{\"a\":\"A\",\"i\":1,\"op\":\"set\",\"v\":7},{\"a\":\"A\",\"on\":\"{3..4}\",\"op\":\"fill\",\"v\":1}],\"note\":\"März\",\"op\":\"transaction\"}\n- {\"edits\":[{\"a\":\"A\",\"op\":\"drop_array\"}],\"op\":\"transaction\"}\n"}
{"edits":[{"a":"A","i":1,"op":"set","v":7},{"a":"A","on":"{3..4}","op":"fill","v":1}],"note":"März","op":"transaction"} -> {"edit":6,"n":3}
{"op":"note","k":6} -> {"note":"März"}
{"op":"note","k":5} -> {"note":null}
"#;

/// Each script, over a history of its own.
pub const SCRIPTS: [Script; 9] = [
    ("", ONE_EDIT, 2, 32),
    (BUILT, REFUSED, 3, 11),
    (BUILT, TWICE, 5, 20),
    (BUILT, BLOCKED_AND_BLOCKING, 7, 36),
    (BUILT, SETS, 6, 42),
    (BUILT, OTHER_SETS, 15, 61),
    ("", NO_REQUESTS, 0, 0),
    ("", EXPLAINED, 0, 0),
    (BUILT, TEXTS, 6, 31),
];
