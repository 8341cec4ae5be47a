//! The worked histories of the folder `examples` that no other file here has whole.

use super::Script;

// All that was made of a domain goes with it, and comes back from the least number up.
const CASCADE_OF_A_DOMAIN: &str = r#"
{"op":"domain","d":"D","is":"{1..4}"} -> {"edit":1,"n":3}
{"op":"array","a":"A","d":"D"} -> {"edit":2,"n":7}
{"op":"set","a":"A","i":1,"v":5} -> {"edit":3,"n":1}
{"op":"copy","a":"A","i":2,"b":"A","j":1,"c":1} -> {"edit":4,"n":1}
{"op":"copy","a":"A","i":3,"b":"A","j":2,"c":1} -> {"edit":5,"n":1}
{"op":"set","a":"A","i":4,"v":8} -> {"edit":6,"n":1}
{"op":"cascade","k":1} -> {"n":14,"undone":[6,5,4,3,2,1]}
{"op":"size","d":"D"} -> {"error":"E04","name":"no-such-name"}
{"op":"redo","k":1} -> {"n":3,"redone":1}
{"op":"redo","k":2} -> {"n":7,"redone":2}
{"op":"redo","k":6} -> {"n":1,"redone":6}
{"op":"dependents","k":1} -> {"dependents":[6,2,1]}
{"op":"piece","a":"A","l":0} -> {"piece":[[1,0],[2,0],[3,0],[4,8]]}
"#;

// An edit that others need is taken back with them, and an edit that needs nothing of it stays.
const CASCADE_OF_COPIES: &str = r#"
{"op":"domain","d":"D","is":"{1..4}"} -> {"edit":1,"n":3}
{"op":"array","a":"A","d":"D"} -> {"edit":2,"n":7}
{"op":"set","a":"A","i":1,"v":5} -> {"edit":3,"n":1}
{"op":"copy","a":"A","i":2,"b":"A","j":1,"c":1} -> {"edit":4,"n":1}
{"op":"copy","a":"A","i":3,"b":"A","j":2,"c":1} -> {"edit":5,"n":1}
{"op":"set","a":"A","i":4,"v":8} -> {"edit":6,"n":1}
{"op":"undo","k":3} -> {"by":4,"error":"E14","name":"blocked"}
{"op":"dependents","k":3} -> {"dependents":[5,4,3]}
{"op":"cascade","k":3} -> {"n":3,"undone":[5,4,3]}
{"op":"piece","a":"A","l":0} -> {"piece":[[1,0],[2,0],[3,0],[4,8]]}
{"op":"cascade","k":3} -> {"error":"E12","name":"not-in-force"}
{"op":"cascade","k":9} -> {"error":"E11","name":"no-such-edit"}
{"op":"cascade","k":6} -> {"n":1,"undone":[6]}
{"op":"dependents","k":1} -> {"dependents":[2,1]}
"#;

// Cyclic mappings, blocks of a size, two dimensions, and the limits of grids.
const CYCLIC_AND_GRID_LIMITS: &str = r#"
{"op":"domain","d":"D","is":"{-1..9}","map":"cyclicDist(1, [3])"} -> {"edit":1,"n":3}
{"op":"where","d":"D","i":-1} -> {"locale":1}
{"op":"where","d":"D","i":0} -> {"locale":2}
{"op":"where","d":"D","i":1} -> {"locale":0}
{"op":"remap","d":"D","map":"blockCycDist(1, 2, [3])"} -> {"edit":2,"n":1}
{"op":"where","d":"D","i":0} -> {"locale":2}
{"op":"where","d":"D","i":7} -> {"locale":0}
{"op":"domain","d":"M","is":"{1..4, 1..4}","map":"blockDist({1..4, 1..4}, [2, 2])"} -> {"edit":3,"n":3}
{"op":"where","d":"M","i":[3,2]} -> {"locale":2}
{"op":"remap","d":"D","map":"blockCycDist(1, 0, [3])"} -> {"error":"E15","name":"bad-mapping"}
{"op":"remap","d":"D","map":"cyclicDist(1, [0])"} -> {"error":"E15","name":"bad-mapping"}
{"op":"remap","d":"D","map":"cyclicDist(1, [257])"} -> {"error":"E15","name":"bad-mapping"}
{"op":"remap","d":"D","map":"cyclicDist(1, [64])"} -> {"edit":4,"n":1}
{"op":"remap","d":"D","map":"cyclicDist(1, [256])"} -> {"edit":5,"n":1}
"#;

// One session with every kind of domain: arrays, copies, implicit values, reshapes, set operations, undos and blocks.
const EVERY_KIND_OF_DOMAIN: &str = r#"
{"op":"domain","d":"D","is":"{1..4}"} -> {"edit":1,"n":3}
{"op":"array","a":"A","d":"D"} -> {"edit":2,"n":7}
{"op":"set","a":"A","i":4,"v":9} -> {"edit":3,"n":1}
{"op":"undo"} -> {"n":1,"undone":3}
{"op":"get","a":"A","i":4} -> {"value":0}
{"op":"set","a":"A","i":1,"v":5} -> {"edit":4,"n":1}
{"op":"set","a":"A","i":2,"v":6} -> {"edit":5,"n":1}
{"op":"undo","k":4} -> {"n":1,"undone":4}
{"op":"get","a":"A","i":2} -> {"value":6}
{"op":"undo","k":1} -> {"by":2,"error":"E14","name":"blocked"}
{"op":"copy","a":"A","i":1,"b":"A","j":2,"c":10} -> {"edit":6,"n":1}
{"op":"undo","k":5} -> {"by":6,"error":"E14","name":"blocked"}
{"op":"fill","a":"A","on":"{3..4}","v":7} -> {"edit":7,"n":2}
{"op":"size","d":"D"} -> {"size":4}
{"op":"sparse","d":"S","of":"D"} -> {"edit":8,"n":2}
{"op":"array","a":"B","d":"S"} -> {"edit":9,"n":3}
{"op":"irv","a":"B","v":7} -> {"edit":10,"n":1}
{"op":"get","a":"B","i":2} -> {"value":7}
{"op":"copy","a":"A","i":1,"b":"B","j":2,"c":1} -> {"edit":11,"n":1}
{"op":"undo","k":10} -> {"by":11,"error":"E14","name":"blocked"}
{"op":"add","d":"S","i":2} -> {"edit":12,"n":2}
{"op":"get","a":"B","i":2} -> {"value":7}
{"op":"add","d":"S","i":9} -> {"error":"E07","name":"out-of-parent"}
{"op":"remap","d":"D","map":"cyclicDist(1, [2])"} -> {"edit":13,"n":1}
{"op":"where","d":"S","i":2} -> {"locale":1}
{"op":"piece","a":"B","l":1} -> {"piece":[[2,7]]}
{"op":"drop_domain","d":"D"} -> {"error":"E08","name":"in-use"}
{"op":"assoc","d":"N","of":"text"} -> {"edit":14,"n":1}
{"op":"add","d":"N","i":"x"} -> {"edit":15,"n":1}
{"op":"remove","d":"N","i":"x"} -> {"edit":16,"n":1}
{"op":"drop_domain","d":"N"} -> {"edit":17,"n":1}
{"op":"reshape","d":"D","to":"{1..2}"} -> {"edit":18,"n":3}
{"op":"get","a":"A","i":4} -> {"error":"E06","name":"out-of-domain"}
{"op":"undo","k":18} -> {"n":3,"undone":18}
{"op":"get","a":"A","i":4} -> {"value":7}
{"op":"reshape","d":"D","slice":"{3..9}"} -> {"error":"E08","name":"in-use"}
{"op":"reshape","d":"D","expand":2} -> {"edit":19,"n":5}
{"op":"size","d":"D"} -> {"size":8}
{"op":"reshape","d":"S","to":"{5, 2}"} -> {"edit":20,"n":2}
{"op":"undo","k":19} -> {"by":20,"error":"E14","name":"blocked"}
{"op":"assoc","d":"M","of":"int"} -> {"edit":21,"n":1}
{"op":"reshape","d":"M","to":"{5, 1, 3}"} -> {"edit":22,"n":3}
{"op":"reshape","d":"M","or":"{3, 7}"} -> {"edit":23,"n":1}
{"op":"reshape","d":"M","minus":"{1, 9}"} -> {"edit":24,"n":1}
{"op":"size","d":"M"} -> {"size":3}
{"op":"reshape","d":"M","slice":"{1, 9}"} -> {"error":"E05","name":"wrong-kind"}
{"op":"print"} -> {"text":"chapel-workbook 1\narray A over D [0, 0, 8, 6, 7, 7, 0, 0]\narray B over S [7, 7] irv 7\nrect D {-1..6} cyclicDist(1, [2])\nassoc M of int {3, 5, 7}\nsparse S of D {2, 5}\nend\n"}
"#;

// At most 65,536 indices, and bounds within 10^18.
const LIMITS_OF_RECTANGLES: &str = r#"
{"op":"domain","d":"G","is":"{1..65536}"} -> {"edit":1,"n":3}
{"op":"domain","d":"H","is":"{1..256, 1..256}"} -> {"edit":2,"n":3}
{"op":"domain","d":"I","is":"{1..65537}"} -> {"error":"E09","name":"too-large"}
{"op":"domain","d":"I","is":"{1..256, 1..257}"} -> {"error":"E09","name":"too-large"}
{"op":"domain","d":"I","is":"{1..1000000000000000001}"} -> {"error":"E09","name":"too-large"}
"#;

// A redo is blocked by a later edit that touched what it would read.
const REDO_BLOCKED_BY_A_LATER_SET: &str = r#"
{"op":"domain","d":"D","is":"{1..2}"} -> {"edit":1,"n":3}
{"op":"array","a":"A","d":"D"} -> {"edit":2,"n":5}
{"op":"array","a":"B","d":"D"} -> {"edit":3,"n":5}
{"op":"copy","a":"A","i":1,"b":"B","j":1,"c":1} -> {"edit":4,"n":1}
{"op":"set","a":"B","i":1,"v":5} -> {"edit":5,"n":1}
{"op":"undo","k":4} -> {"n":1,"undone":4}
{"op":"redo","k":4} -> {"by":5,"error":"E14","name":"blocked"}
{"op":"undo","k":5} -> {"n":1,"undone":5}
{"op":"redo","k":4} -> {"n":1,"redone":4}
{"op":"get","a":"A","i":1} -> {"value":1}
"#;

// Each refusal of undo and redo, and some of other requests.
const REFUSALS_OF_UNDO_AND_REDO: &str = r#"
{"op":"domain","d":"D","is":"{1..4}"} -> {"edit":1,"n":3}
{"op":"array","a":"A","d":"D"} -> {"edit":2,"n":7}
{"op":"set","a":"A","i":1,"v":5} -> {"edit":3,"n":1}
{"op":"array","a":"A","d":"D"} -> {"error":"E03","name":"name-taken"}
{"op":"drop_domain","d":"D"} -> {"error":"E08","name":"in-use"}
{"op":"size","d":"A"} -> {"error":"E05","name":"wrong-kind"}
{"op":"get","a":"A","i":"x"} -> {"error":"E05","name":"wrong-kind"}
{"op":"undo","k":0} -> {"error":"E11","name":"no-such-edit"}
{"op":"undo","k":4} -> {"error":"E11","name":"no-such-edit"}
{"op":"redo","k":3} -> {"error":"E13","name":"in-force"}
{"op":"state","k":3} -> {"in_force":true}
{"op":"undo","k":3} -> {"n":1,"undone":3}
{"op":"undo","k":3} -> {"error":"E12","name":"not-in-force"}
{"op":"undo","k":2} -> {"n":7,"undone":2}
{"op":"redo","k":3} -> {"code":"E04","error":"E16","name":"refused-in-place"}
"#;

// A fill outside the array, and results beyond 64 bits, change nothing.
const REFUSED_FILLS_AND_OVERFLOW: &str = r#"
{"op":"domain","d":"D","is":"{1..2}"} -> {"edit":1,"n":3}
{"op":"array","a":"A","d":"D"} -> {"edit":2,"n":5}
{"op":"array","a":"B","d":"D"} -> {"edit":3,"n":5}
{"op":"fill","a":"A","on":"{2..3}","v":4} -> {"error":"E06","name":"out-of-domain"}
{"op":"get","a":"A","i":2} -> {"value":0}
{"op":"fill_all","a":"A","v":9223372036854775807} -> {"edit":4,"n":2}
{"op":"set","a":"B","i":1,"v":1} -> {"edit":5,"n":1}
{"op":"all","a":"A","how":"+","b":"B"} -> {"error":"E10","name":"overflow"}
{"op":"get","a":"A","i":1} -> {"value":9223372036854775807}
{"op":"reshape","d":"D","to":"{1..0}"} -> {"edit":6,"n":5}
{"op":"size","d":"D"} -> {"size":0}
"#;

// An array made after a remap lies by the mapping as it is, also when the remap is undone.
const REMAP_MOVES_PIECES: &str = r#"
{"op":"domain","d":"D","is":"{0..5}","map":"blockDist({0..5}, [2])"} -> {"edit":1,"n":3}
{"op":"remap","d":"D","map":"cyclicDist(0, [2])"} -> {"edit":2,"n":1}
{"op":"array","a":"B","d":"D"} -> {"edit":3,"n":9}
{"op":"piece","a":"B","l":0} -> {"piece":[[0,0],[2,0],[4,0]]}
{"op":"undo","k":2} -> {"n":1,"undone":2}
{"op":"piece","a":"B","l":0} -> {"piece":[[0,0],[1,0],[2,0]]}
{"op":"piece","a":"B","l":2} -> {"error":"E06","name":"out-of-domain"}
"#;

// What two sets of integers make.
const SET_OPERATIONS: &str = r#"
{"op":"assoc","d":"N","of":"int"} -> {"edit":1,"n":1}
{"op":"reshape","d":"N","to":"{5, 1, 3}"} -> {"edit":2,"n":3}
{"op":"reshape","d":"N","or":"{3, 7}"} -> {"edit":3,"n":1}
{"op":"reshape","d":"N","xor":"{1, 9}"} -> {"edit":4,"n":2}
{"op":"reshape","d":"N","minus":"{3}"} -> {"edit":5,"n":1}
{"op":"reshape","d":"N","and":"{5, 6}"} -> {"edit":6,"n":2}
{"op":"print"} -> {"text":"chapel-workbook 1\nassoc N of int {5}\nend\n"}
"#;

// Slices of strided ranges, and ranges displaced.
const SLICES_AND_OFFSETS: &str = r#"
{"op":"domain","d":"D","is":"{1..10 by 2}"} -> {"edit":1,"n":3}
{"op":"reshape","d":"D","slice":"{1..10 by 3}"} -> {"edit":2,"n":1}
{"op":"print"} -> {"text":"chapel-workbook 1\nrect D {1..7 by 6} none\nend\n"}
{"op":"reshape","d":"D","translate":1} -> {"error":"E05","name":"wrong-kind"}
{"op":"reshape","d":"D","to":"{1..4}"} -> {"edit":3,"n":1}
{"op":"reshape","d":"D","translate":2} -> {"edit":4,"n":1}
{"op":"print"} -> {"text":"chapel-workbook 1\nrect D {3..6} none\nend\n"}
{"op":"undo"} -> {"n":1,"undone":4}
{"op":"reshape","d":"D","expand":1} -> {"edit":5,"n":1}
{"op":"print"} -> {"text":"chapel-workbook 1\nrect D {0..5} none\nend\n"}
{"op":"undo"} -> {"n":1,"undone":5}
{"op":"reshape","d":"D","expand":-2} -> {"edit":6,"n":1}
{"op":"print"} -> {"text":"chapel-workbook 1\nrect D {1..0} none\nend\n"}
{"op":"undo"} -> {"n":1,"undone":6}
{"op":"reshape","d":"D","translate":1000000000000000000} -> {"error":"E09","name":"too-large"}
"#;

// New elements over a sparse domain have the implicit value.
const SPARSE_WITH_AN_IMPLICIT_VALUE: &str = r#"
{"op":"domain","d":"D","is":"{1..10}"} -> {"edit":1,"n":3}
{"op":"sparse","d":"S","of":"D"} -> {"edit":2,"n":2}
{"op":"array","a":"A","d":"S"} -> {"edit":3,"n":3}
{"op":"irv","a":"A","v":7} -> {"edit":4,"n":1}
{"op":"add","d":"S","i":3} -> {"edit":5,"n":2}
{"op":"get","a":"A","i":3} -> {"value":7}
{"op":"get","a":"A","i":4} -> {"value":7}
{"op":"set","a":"A","i":4,"v":1} -> {"error":"E06","name":"out-of-domain"}
{"op":"add","d":"S","i":99} -> {"error":"E07","name":"out-of-parent"}
{"op":"reshape","d":"D","to":"{4..10}"} -> {"error":"E08","name":"in-use"}
{"op":"array","a":"B","d":"D"} -> {"edit":6,"n":13}
{"op":"copy","a":"B","i":1,"b":"A","j":4,"c":1} -> {"edit":7,"n":1}
{"op":"get","a":"B","i":1} -> {"value":8}
{"op":"undo","k":4} -> {"by":5,"error":"E14","name":"blocked"}
"#;

// How a domain is asked for, and how its text spells it.
const SPELLINGS_OF_RANGES: &str = r#"
{"op":"domain","d":"D","is":"{-5..5 by 4 align 1}"} -> {"edit":1,"n":3}
{"op":"size","d":"D"} -> {"size":3}
{"op":"where","d":"D","i":5} -> {"locale":0}
{"op":"where","d":"D","i":-5} -> {"error":"E06","name":"out-of-domain"}
{"op":"print"} -> {"text":"chapel-workbook 1\nrect D {-3..5 by 4} none\nend\n"}
{"op":"reshape","d":"D","to":"{1..10 by -3}"} -> {"edit":2,"n":1}
{"op":"print"} -> {"text":"chapel-workbook 1\nrect D {1..10 by -3} none\nend\n"}
{"op":"reshape","d":"D","to":"{1..10 by -2}"} -> {"edit":3,"n":1}
{"op":"print"} -> {"text":"chapel-workbook 1\nrect D {2..10 by -2} none\nend\n"}
{"op":"reshape","d":"D","to":"{1..10 by 2 align 0}"} -> {"edit":4,"n":1}
{"op":"print"} -> {"text":"chapel-workbook 1\nrect D {2..10 by 2} none\nend\n"}
{"op":"reshape","d":"D","to":"{5..#3}"} -> {"edit":5,"n":1}
{"op":"print"} -> {"text":"chapel-workbook 1\nrect D {5..7} none\nend\n"}
{"op":"reshape","d":"D","to":"{5..#0}"} -> {"edit":6,"n":1}
{"op":"print"} -> {"text":"chapel-workbook 1\nrect D {1..0} none\nend\n"}
{"op":"reshape","d":"D","to":"{3..<3}"} -> {"edit":7,"n":1}
{"op":"print"} -> {"text":"chapel-workbook 1\nrect D {1..0} none\nend\n"}
{"op":"reshape","d":"D","to":"{1..10 by -9223372036854775808}"} -> {"edit":8,"n":1}
{"op":"print"} -> {"text":"chapel-workbook 1\nrect D {10..10} none\nend\n"}
{"op":"reshape","d":"D","to":"{1..10 by 0}"} -> {"error":"E02","name":"bad-literal"}
{"op":"reshape","d":"D","to":"{5..#-1}"} -> {"error":"E02","name":"bad-literal"}
"#;

// What comes back lies by the mapping as it is.
const UNDO_OF_A_RESHAPE_UNDER_A_REMAP: &str = r#"
{"op":"domain","d":"D","is":"{1..4}"} -> {"edit":1,"n":3}
{"op":"array","a":"A","d":"D"} -> {"edit":2,"n":7}
{"op":"set","a":"A","i":4,"v":9} -> {"edit":3,"n":1}
{"op":"reshape","d":"D","to":"{1..2}"} -> {"edit":4,"n":3}
{"op":"remap","d":"D","map":"cyclicDist(1, [2])"} -> {"edit":5,"n":1}
{"op":"undo","k":4} -> {"n":3,"undone":4}
{"op":"piece","a":"A","l":1} -> {"piece":[[2,0],[4,9]]}
"#;

pub const SCRIPTS: [Script; 14] = [
    ("", CASCADE_OF_A_DOMAIN, 6, 39),
    ("", CASCADE_OF_COPIES, 6, 18),
    ("", CYCLIC_AND_GRID_LIMITS, 5, 9),
    ("", EVERY_KIND_OF_DOMAIN, 24, 51),
    ("", LIMITS_OF_RECTANGLES, 2, 6),
    ("", REDO_BLOCKED_BY_A_LATER_SET, 5, 18),
    ("", REFUSALS_OF_UNDO_AND_REDO, 3, 19),
    ("", REFUSED_FILLS_AND_OVERFLOW, 6, 21),
    ("", REMAP_MOVES_PIECES, 3, 14),
    ("", SET_OPERATIONS, 6, 10),
    ("", SLICES_AND_OFFSETS, 6, 11),
    ("", SPARSE_WITH_AN_IMPLICIT_VALUE, 7, 25),
    ("", SPELLINGS_OF_RANGES, 8, 10),
    ("", UNDO_OF_A_RESHAPE_UNDER_A_REMAP, 5, 18),
];
