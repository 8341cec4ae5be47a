//! Worked histories of edits, undos and redos.

use super::Script;

// A domain D of 1 to 4, and an array A over it.
const OPENING: &str = r#"
{"op":"domain","d":"D","is":"{1..4}"} -> {"edit":1,"n":3}
{"op":"array","a":"A","d":"D"} -> {"edit":2,"n":7}
"#;

// Refused edits and queries.
const REFUSED: &str = r#"
{"op":"array","a":"A","d":"D"} -> {"error":"E03","name":"name-taken"}
{"op":"array","a":"B","d":"E"} -> {"error":"E04","name":"no-such-name"}
{"op":"array","a":"B","d":"A"} -> {"error":"E05","name":"wrong-kind"}
{"op":"set","a":"D","i":1,"v":1} -> {"error":"E05","name":"wrong-kind"}
{"op":"set","a":"A","i":5,"v":1} -> {"error":"E06","name":"out-of-domain"}
{"op":"get","a":"A","i":5} -> {"error":"E06","name":"out-of-domain"}
{"op":"get","a":"A","i":[1,2]} -> {"error":"E05","name":"wrong-kind"}
{"op":"fill_all","a":"X","v":7} -> {"error":"E04","name":"no-such-name"}
{"op":"fill_all","a":"D","v":7} -> {"error":"E05","name":"wrong-kind"}
{"op":"drop_array","a":"X"} -> {"error":"E04","name":"no-such-name"}
{"op":"drop_array","a":"D"} -> {"error":"E05","name":"wrong-kind"}
"#;

// Sizes of domains, and how much there is.
const SIZES: &str = r#"
{"op":"domain","d":"E","is":"{1..0}"} -> {"edit":3,"n":3}
{"op":"size","d":"D"} -> {"size":4}
{"op":"size","d":"E"} -> {"size":0}
{"op":"size","d":"A"} -> {"error":"E05","name":"wrong-kind"}
{"op":"size","d":"F"} -> {"error":"E04","name":"no-such-name"}
{"op":"edits"} -> {"edits":3,"writes":13}
{"op":"undo"} -> {"n":3,"undone":3}
{"op":"edits"} -> {"edits":3,"writes":16}
{"op":"edits","k":3} -> {"error":"E01","name":"bad-request"}
"#;

// Refusals of undo and redo.
const REFUSALS_OF_UNDO_AND_REDO: &str = r#"
{"op":"set","a":"A","i":1,"v":5} -> {"edit":3,"n":1}
{"op":"undo","k":0} -> {"error":"E11","name":"no-such-edit"}
{"op":"undo","k":4} -> {"error":"E11","name":"no-such-edit"}
{"op":"redo","k":3} -> {"error":"E13","name":"in-force"}
{"op":"state","k":3} -> {"in_force":true}
{"op":"state","k":4} -> {"error":"E11","name":"no-such-edit"}
{"op":"undo","k":3} -> {"n":1,"undone":3}
{"op":"undo","k":3} -> {"error":"E12","name":"not-in-force"}
{"op":"undo","k":2} -> {"n":7,"undone":2}
{"op":"redo","k":3} -> {"code":"E04","error":"E16","name":"refused-in-place"}
{"op":"state","k":3} -> {"in_force":false}
"#;

// Undo of a domain under its array.
const UNDER_ARRAYS: &str = r#"
{"op":"undo","k":1} -> {"by":2,"error":"E14","name":"blocked"}
{"op":"array","a":"B","d":"D"} -> {"edit":3,"n":7}
{"op":"undo","k":1} -> {"by":2,"error":"E14","name":"blocked"}
{"op":"undo","k":2} -> {"n":7,"undone":2}
{"op":"undo","k":1} -> {"by":3,"error":"E14","name":"blocked"}
"#;

// Undo of an earlier set.
const EARLIER_SET: &str = r#"
{"op":"set","a":"A","i":1,"v":5} -> {"edit":3,"n":1}
{"op":"set","a":"A","i":2,"v":6} -> {"edit":4,"n":1}
{"op":"undo","k":3} -> {"n":1,"undone":3}
{"op":"get","a":"A","i":1} -> {"value":0}
{"op":"get","a":"A","i":2} -> {"value":6}
{"op":"set","a":"A","i":2,"v":7} -> {"edit":5,"n":1}
{"op":"undo","k":4} -> {"by":5,"error":"E14","name":"blocked"}
"#;

// Redo of two sets of one element.
const REDO_TWO_SETS: &str = r#"
{"op":"set","a":"A","i":1,"v":5} -> {"edit":3,"n":1}
{"op":"set","a":"A","i":1,"v":6} -> {"edit":4,"n":1}
{"op":"undo","k":4} -> {"n":1,"undone":4}
{"op":"undo","k":3} -> {"n":1,"undone":3}
{"op":"redo","k":4} -> {"n":1,"redone":4}
{"op":"get","a":"A","i":1} -> {"value":6}
{"op":"undo","k":4} -> {"n":1,"undone":4}
{"op":"get","a":"A","i":1} -> {"value":0}
"#;

// A redo keeps its place.
const IN_PLACE: &str = r#"
{"op":"set","a":"A","i":1,"v":5} -> {"edit":3,"n":1}
{"op":"set","a":"A","i":2,"v":6} -> {"edit":4,"n":1}
{"op":"undo","k":3} -> {"n":1,"undone":3}
{"op":"redo","k":4} -> {"error":"E13","name":"in-force"}
{"op":"redo","k":3} -> {"n":1,"redone":3}
{"op":"undo"} -> {"n":1,"undone":4}
{"op":"get","a":"A","i":1} -> {"value":5}
"#;

// Undo and redo by number among later edits, and of the latest over those that are out of force.
const AMONG_LATER_EDITS: &str = r#"
{"op":"set","a":"A","i":1,"v":3} -> {"edit":3,"n":1}
{"op":"set","a":"A","i":2,"v":4} -> {"edit":4,"n":1}
{"op":"set","a":"A","i":3,"v":5} -> {"edit":5,"n":1}
{"op":"set","a":"A","i":4,"v":6} -> {"edit":6,"n":1}
{"op":"set","a":"A","i":1,"v":7} -> {"edit":7,"n":1}
{"op":"set","a":"A","i":2,"v":8} -> {"edit":8,"n":1}
{"op":"undo","k":3} -> {"by":7,"error":"E14","name":"blocked"}
{"op":"undo","k":5} -> {"n":1,"undone":5}
{"op":"undo","k":7} -> {"n":1,"undone":7}
{"op":"undo","k":3} -> {"n":1,"undone":3}
{"op":"redo","k":7} -> {"n":1,"redone":7}
{"op":"redo","k":3} -> {"by":7,"error":"E14","name":"blocked"}
{"op":"redo","k":5} -> {"n":1,"redone":5}
{"op":"undo"} -> {"n":1,"undone":8}
{"op":"undo"} -> {"n":1,"undone":7}
{"op":"redo","k":3} -> {"n":1,"redone":3}
{"op":"set","a":"A","i":1,"v":9} -> {"edit":9,"n":1}
{"op":"undo"} -> {"n":1,"undone":9}
{"op":"undo"} -> {"n":1,"undone":6}
{"op":"undo","k":2} -> {"by":3,"error":"E14","name":"blocked"}
{"op":"get","a":"A","i":1} -> {"value":3}
{"op":"get","a":"A","i":3} -> {"value":5}
{"op":"get","a":"A","i":4} -> {"value":0}
"#;

// A copy depends on its source.
const COPY_DEPENDS_ON_ITS_SOURCE: &str = r#"
{"op":"set","a":"A","i":1,"v":5} -> {"edit":3,"n":1}
{"op":"copy","a":"A","i":2,"b":"A","j":1,"c":1} -> {"edit":4,"n":1}
{"op":"get","a":"A","i":2} -> {"value":6}
{"op":"undo","k":3} -> {"by":4,"error":"E14","name":"blocked"}
"#;

// A copy depends on its source: both are undone, the copy is redone, and then it stands in the way of the source's redo.
const COST_OF_THE_COPY: &str = r#"
{"op":"set","a":"A","i":1,"v":5} -> {"edit":3,"n":1}
{"op":"copy","a":"A","i":2,"b":"A","j":1,"c":1} -> {"edit":4,"n":1}
{"op":"get","a":"A","i":2} -> {"value":6}
{"op":"undo","k":3} -> {"by":4,"error":"E14","name":"blocked"}
{"op":"undo","k":4} -> {"n":1,"undone":4}
{"op":"undo","k":3} -> {"n":1,"undone":3}
{"op":"redo","k":4} -> {"n":1,"redone":4}
{"op":"get","a":"A","i":2} -> {"value":1}
{"op":"redo","k":3} -> {"by":4,"error":"E14","name":"blocked"}
"#;

// Redo blocked by a later set.
const REDO_BLOCKED_BY_A_LATER_SET: &str = r#"
{"op":"array","a":"B","d":"D"} -> {"edit":3,"n":7}
{"op":"copy","a":"A","i":1,"b":"B","j":1,"c":1} -> {"edit":4,"n":1}
{"op":"set","a":"B","i":1,"v":5} -> {"edit":5,"n":1}
{"op":"undo","k":4} -> {"n":1,"undone":4}
{"op":"redo","k":4} -> {"by":5,"error":"E14","name":"blocked"}
{"op":"undo","k":5} -> {"n":1,"undone":5}
{"op":"redo","k":4} -> {"n":1,"redone":4}
{"op":"get","a":"A","i":1} -> {"value":1}
"#;

// A whole array filled.
const FILLED: &str = r#"
{"op":"set","a":"A","i":1,"v":5} -> {"edit":3,"n":1}
{"op":"fill_all","a":"A","v":7} -> {"edit":4,"n":4}
{"op":"get","a":"A","i":1} -> {"value":7}
{"op":"get","a":"A","i":4} -> {"value":7}
{"op":"undo","k":3} -> {"by":4,"error":"E14","name":"blocked"}
{"op":"set","a":"A","i":2,"v":9} -> {"edit":5,"n":1}
{"op":"undo","k":4} -> {"by":5,"error":"E14","name":"blocked"}
{"op":"undo","k":5} -> {"n":1,"undone":5}
{"op":"undo","k":4} -> {"n":4,"undone":4}
{"op":"get","a":"A","i":1} -> {"value":5}
{"op":"get","a":"A","i":4} -> {"value":0}
{"op":"undo","k":3} -> {"n":1,"undone":3}
{"op":"redo","k":4} -> {"n":4,"redone":4}
{"op":"get","a":"A","i":1} -> {"value":7}
{"op":"redo","k":3} -> {"by":4,"error":"E14","name":"blocked"}
"#;

// An array dropped and brought back.
const DROPPED: &str = r#"
{"op":"set","a":"A","i":1,"v":5} -> {"edit":3,"n":1}
{"op":"drop_array","a":"A"} -> {"edit":4,"n":7}
{"op":"get","a":"A","i":1} -> {"error":"E04","name":"no-such-name"}
{"op":"undo","k":3} -> {"by":4,"error":"E14","name":"blocked"}
{"op":"undo","k":4} -> {"n":7,"undone":4}
{"op":"get","a":"A","i":1} -> {"value":5}
{"op":"get","a":"A","i":4} -> {"value":0}
{"op":"redo","k":4} -> {"n":7,"redone":4}
{"op":"get","a":"A","i":1} -> {"error":"E04","name":"no-such-name"}
{"op":"array","a":"A","d":"D"} -> {"edit":5,"n":7}
{"op":"get","a":"A","i":1} -> {"value":0}
{"op":"undo","k":4} -> {"by":5,"error":"E14","name":"blocked"}
"#;

// One array with another, where A[1] is 6 and B[1] is 4.
const COMBINED: &str = r#"
{"op":"array","a":"B","d":"D"} -> {"edit":3,"n":7}
{"op":"set","a":"A","i":1,"v":6} -> {"edit":4,"n":1}
{"op":"set","a":"B","i":1,"v":4} -> {"edit":5,"n":1}
{"op":"all","a":"A","how":"+","b":"B"} -> {"edit":6,"n":4}
{"op":"get","a":"A","i":1} -> {"value":10}
{"op":"all","a":"A","how":"-","b":"B"} -> {"edit":7,"n":4}
{"op":"get","a":"A","i":1} -> {"value":6}
{"op":"all","a":"A","how":"*","b":"B"} -> {"edit":8,"n":4}
{"op":"get","a":"A","i":1} -> {"value":24}
{"op":"all","a":"A","how":"*","b":"A"} -> {"edit":9,"n":4}
{"op":"get","a":"A","i":1} -> {"value":576}
{"op":"all","a":"A","how":"=","b":"B"} -> {"edit":10,"n":4}
{"op":"get","a":"A","i":1} -> {"value":4}
{"op":"get","a":"A","i":2} -> {"value":0}
{"op":"undo","k":5} -> {"by":6,"error":"E14","name":"blocked"}
{"op":"undo","k":10} -> {"n":4,"undone":10}
{"op":"get","a":"A","i":1} -> {"value":576}
{"op":"redo","k":10} -> {"n":4,"redone":10}
{"op":"get","a":"A","i":1} -> {"value":4}
"#;

// Arrays that do not combine.
const NOT_COMBINED: &str = r#"
{"op":"array","a":"B","d":"D"} -> {"edit":3,"n":7}
{"op":"set","a":"A","i":1,"v":6} -> {"edit":4,"n":1}
{"op":"set","a":"B","i":1,"v":4} -> {"edit":5,"n":1}
{"op":"domain","d":"E","is":"{1..4}"} -> {"edit":6,"n":3}
{"op":"array","a":"C","d":"E"} -> {"edit":7,"n":7}
{"op":"set","a":"A","i":1,"v":4611686018427387904} -> {"edit":8,"n":1}
{"op":"all","a":"A","how":"*","b":"B"} -> {"error":"E10","name":"overflow"}
{"op":"all","a":"A","how":"=","b":"C"} -> {"error":"E05","name":"wrong-kind"}
{"op":"all","a":"A","how":"=","b":"X"} -> {"error":"E04","name":"no-such-name"}
{"op":"get","a":"A","i":1} -> {"value":4611686018427387904}
"#;

// A set, a fill, a reshape and the end of an array, each undone and put in force again.
const UNDONE_AND_REDONE: &str = r#"
{"op":"undo"} -> {"error":"E11","name":"no-such-edit"}
{"op":"domain","d":"D","is":"{1..4}"} -> {"edit":1,"n":3}
{"op":"array","a":"A","d":"D"} -> {"edit":2,"n":7}
{"op":"set","a":"A","i":2,"v":5} -> {"edit":3,"n":1}
{"op":"fill_all","a":"A","v":7} -> {"edit":4,"n":4}
{"op":"reshape","d":"D","to":"{1..2}"} -> {"edit":5,"n":3}
{"op":"drop_array","a":"A"} -> {"edit":6,"n":5}
{"op":"undo","k":6} -> {"n":5,"undone":6}
{"op":"undo","k":5} -> {"n":3,"undone":5}
{"op":"undo","k":4} -> {"n":4,"undone":4}
{"op":"piece","a":"A","l":0} -> {"piece":[[1,0],[2,5],[3,0],[4,0]]}
{"op":"undo"} -> {"n":1,"undone":3}
{"op":"get","a":"A","i":2} -> {"value":0}
{"op":"redo","k":3} -> {"n":1,"redone":3}
{"op":"redo","k":4} -> {"n":4,"redone":4}
{"op":"redo","k":5} -> {"n":3,"redone":5}
{"op":"get","a":"A","i":2} -> {"value":7}
{"op":"state","k":6} -> {"in_force":false}
"#;

// Fills at the one index of a rectangle, by number, among sets of the same elements.
const FILLS_OF_ONE_ELEMENT: &str = r#"
{"op":"domain","d":"D","is":"{1..4}"} -> {"edit":1,"n":3}
{"op":"array","a":"A","d":"D"} -> {"edit":2,"n":7}
{"op":"set","a":"A","i":2,"v":5} -> {"edit":3,"n":1}
{"op":"fill","a":"A","on":"{2..2}","v":7} -> {"edit":4,"n":1}
{"op":"fill","a":"A","on":"{3..4 by 2}","v":8} -> {"edit":5,"n":1}
{"op":"undo","k":3} -> {"by":4,"error":"E14","name":"blocked"}
{"op":"set","a":"A","i":3,"v":9} -> {"edit":6,"n":1}
{"op":"undo","k":5} -> {"by":6,"error":"E14","name":"blocked"}
{"op":"undo","k":4} -> {"n":1,"undone":4}
{"op":"get","a":"A","i":2} -> {"value":5}
{"op":"undo","k":3} -> {"n":1,"undone":3}
{"op":"redo","k":4} -> {"n":1,"redone":4}
{"op":"redo","k":3} -> {"by":4,"error":"E14","name":"blocked"}
{"op":"undo","k":4} -> {"n":1,"undone":4}
{"op":"get","a":"A","i":2} -> {"value":0}
{"op":"cascade","k":5} -> {"n":2,"undone":[6,5]}
{"op":"get","a":"A","i":3} -> {"value":0}
{"op":"redo","k":5} -> {"n":1,"redone":5}
{"op":"get","a":"A","i":3} -> {"value":8}
{"op":"undo","k":2} -> {"by":5,"error":"E14","name":"blocked"}
"#;

// Fills and a reshape of so many cells that the index keeps them as blocks.
const RUNS_OF_MANY_CELLS: &str = r#"
{"op":"domain","d":"D","is":"{1..100}"} -> {"edit":1,"n":3}
{"op":"array","a":"A","d":"D"} -> {"edit":2,"n":103}
{"op":"fill","a":"A","on":"{10..89}","v":4} -> {"edit":3,"n":80}
{"op":"set","a":"A","i":9,"v":1} -> {"edit":4,"n":1}
{"op":"undo","k":3} -> {"n":80,"undone":3}
{"op":"get","a":"A","i":50} -> {"value":0}
{"op":"redo","k":3} -> {"n":80,"redone":3}
{"op":"set","a":"A","i":50,"v":2} -> {"edit":5,"n":1}
{"op":"undo","k":3} -> {"by":5,"error":"E14","name":"blocked"}
{"op":"fill","a":"A","on":"{1..80}","v":6} -> {"edit":6,"n":80}
{"op":"undo","k":4} -> {"by":6,"error":"E14","name":"blocked"}
{"op":"undo","k":5} -> {"by":6,"error":"E14","name":"blocked"}
{"op":"undo","k":6} -> {"n":80,"undone":6}
{"op":"get","a":"A","i":9} -> {"value":1}
{"op":"get","a":"A","i":50} -> {"value":2}
{"op":"get","a":"A","i":51} -> {"value":4}
{"op":"undo","k":1} -> {"by":2,"error":"E14","name":"blocked"}
{"op":"reshape","d":"D","to":"{1..200}"} -> {"edit":7,"n":101}
{"op":"array","a":"B","d":"D"} -> {"edit":8,"n":203}
{"op":"undo","k":7} -> {"by":8,"error":"E14","name":"blocked"}
{"op":"undo","k":8} -> {"n":203,"undone":8}
{"op":"undo","k":7} -> {"n":101,"undone":7}
{"op":"get","a":"A","i":101} -> {"error":"E06","name":"out-of-domain"}
"#;

// One array with another of so many elements that the index keeps what each read and wrote as blocks.
const ARRAYS_OF_MANY_ELEMENTS: &str = r#"
{"op":"domain","d":"D","is":"{1..100}"} -> {"edit":1,"n":3}
{"op":"array","a":"A","d":"D"} -> {"edit":2,"n":103}
{"op":"array","a":"B","d":"D"} -> {"edit":3,"n":103}
{"op":"fill_all","a":"A","v":2} -> {"edit":4,"n":100}
{"op":"fill_all","a":"B","v":3} -> {"edit":5,"n":100}
{"op":"all","a":"A","how":"+","b":"B"} -> {"edit":6,"n":100}
{"op":"get","a":"A","i":100} -> {"value":5}
{"op":"set","a":"B","i":50,"v":9} -> {"edit":7,"n":1}
{"op":"undo","k":6} -> {"n":100,"undone":6}
{"op":"get","a":"A","i":100} -> {"value":2}
{"op":"redo","k":6} -> {"by":7,"error":"E14","name":"blocked"}
{"op":"undo","k":7} -> {"n":1,"undone":7}
{"op":"redo","k":6} -> {"n":100,"redone":6}
{"op":"get","a":"A","i":50} -> {"value":5}
{"op":"undo","k":5} -> {"by":6,"error":"E14","name":"blocked"}
{"op":"undo","k":4} -> {"by":6,"error":"E14","name":"blocked"}
{"op":"undo","k":6} -> {"n":100,"undone":6}
{"op":"undo","k":4} -> {"n":100,"undone":4}
{"op":"get","a":"A","i":1} -> {"value":0}
{"op":"get","a":"B","i":1} -> {"value":3}
"#;

// So many labels that the index keeps what each edit read and wrote as blocks.
const MANY_LABELS: &str = r#"
{"op":"assoc","d":"N","of":"text"} -> {"edit":1,"n":1}
{"op":"array","a":"A","d":"N"} -> {"edit":2,"n":3}
{"op":"array","a":"B","d":"N"} -> {"edit":3,"n":3}
{"op":"reshape","d":"N","or":"{\"a0\", \"a1\", \"a2\", \"a3\", \"a4\", \"a5\", \"a6\", \"a7\", \"a8\", \"a9\", \"b0\", \"b1\", \"b2\", \"b3\", \"b4\", \"b5\", \"b6\", \"b7\", \"b8\", \"b9\", \"c0\", \"c1\", \"c2\", \"c3\", \"c4\", \"c5\", \"c6\", \"c7\", \"c8\", \"c9\", \"d0\", \"d1\", \"d2\", \"d3\", \"d4\", \"d5\", \"d6\", \"d7\", \"d8\", \"d9\", \"e0\", \"e1\", \"e2\", \"e3\", \"e4\", \"e5\", \"e6\", \"e7\", \"e8\", \"e9\", \"f0\", \"f1\", \"f2\", \"f3\", \"f4\", \"f5\", \"f6\", \"f7\", \"f8\", \"f9\", \"g0\", \"g1\", \"g2\", \"g3\", \"g4\", \"g5\", \"g6\", \"g7\", \"g8\", \"g9\"}"} -> {"edit":4,"n":210}
{"op":"reshape","d":"N","or":"{\"h0\", \"h1\", \"h2\", \"h3\", \"h4\", \"h5\", \"h6\", \"h7\", \"h8\", \"h9\", \"i0\", \"i1\", \"i2\", \"i3\", \"i4\", \"i5\", \"i6\", \"i7\", \"i8\", \"i9\", \"j0\", \"j1\", \"j2\", \"j3\", \"j4\", \"j5\", \"j6\", \"j7\", \"j8\", \"j9\", \"k0\", \"k1\", \"k2\", \"k3\", \"k4\", \"k5\", \"k6\", \"k7\", \"k8\", \"k9\", \"l0\", \"l1\", \"l2\", \"l3\", \"l4\", \"l5\", \"l6\", \"l7\", \"l8\", \"l9\", \"m0\", \"m1\", \"m2\", \"m3\", \"m4\", \"m5\", \"m6\", \"m7\", \"m8\", \"m9\", \"n0\", \"n1\", \"n2\", \"n3\", \"n4\", \"n5\", \"n6\", \"n7\", \"n8\", \"n9\"}"} -> {"edit":5,"n":210}
{"op":"fill_all","a":"A","v":4} -> {"edit":6,"n":140}
{"op":"set","a":"A","i":"a5","v":9} -> {"edit":7,"n":1}
{"op":"undo","k":6} -> {"by":7,"error":"E14","name":"blocked"}
{"op":"undo","k":5} -> {"by":6,"error":"E14","name":"blocked"}
{"op":"undo","k":4} -> {"by":5,"error":"E14","name":"blocked"}
{"op":"fill_all","a":"B","v":3} -> {"edit":8,"n":140}
{"op":"all","a":"A","how":"+","b":"B"} -> {"edit":9,"n":140}
{"op":"get","a":"A","i":"a5"} -> {"value":12}
{"op":"undo","k":8} -> {"by":9,"error":"E14","name":"blocked"}
{"op":"undo","k":7} -> {"by":9,"error":"E14","name":"blocked"}
{"op":"undo","k":9} -> {"n":140,"undone":9}
{"op":"get","a":"A","i":"n9"} -> {"value":4}
{"op":"undo","k":7} -> {"n":1,"undone":7}
{"op":"undo","k":6} -> {"n":140,"undone":6}
{"op":"get","a":"A","i":"a5"} -> {"value":0}
{"op":"redo","k":9} -> {"n":140,"redone":9}
{"op":"get","a":"A","i":"a5"} -> {"value":3}
{"op":"cascade","k":8} -> {"n":280,"undone":[9,8]}
{"op":"remove","d":"N","i":"c3"} -> {"edit":10,"n":3}
{"op":"undo","k":10} -> {"n":3,"undone":10}
{"op":"undo","k":5} -> {"n":210,"undone":5}
{"op":"undo","k":4} -> {"n":210,"undone":4}
{"op":"size","d":"N"} -> {"size":0}
"#;

/// Each script, over a history of its own.
pub const SCRIPTS: [Script; 20] = [
    ("", UNDONE_AND_REDONE, 6, 44),
    (OPENING, REFUSED, 2, 10),
    (OPENING, SIZES, 3, 16),
    (OPENING, REFUSALS_OF_UNDO_AND_REDO, 3, 19),
    (OPENING, UNDER_ARRAYS, 3, 24),
    (OPENING, EARLIER_SET, 5, 14),
    (OPENING, REDO_TWO_SETS, 4, 16),
    (OPENING, IN_PLACE, 4, 15),
    (OPENING, AMONG_LATER_EDITS, 9, 27),
    (OPENING, COPY_DEPENDS_ON_ITS_SOURCE, 4, 12),
    (OPENING, COST_OF_THE_COPY, 4, 15),
    (OPENING, REDO_BLOCKED_BY_A_LATER_SET, 5, 22),
    (OPENING, FILLED, 5, 26),
    (OPENING, DROPPED, 5, 39),
    (OPENING, COMBINED, 10, 47),
    (OPENING, NOT_COMBINED, 8, 30),
    ("", FILLS_OF_ONE_ELEMENT, 6, 21),
    ("", RUNS_OF_MANY_CELLS, 8, 1116),
    ("", ARRAYS_OF_MANY_ELEMENTS, 7, 911),
    ("", MANY_LABELS, 10, 1975),
];
