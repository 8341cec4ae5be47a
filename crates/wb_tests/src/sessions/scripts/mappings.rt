//! Worked histories of mappings, and the elements on each locale.

use super::Script;

// Blocks in one dimension.
const BLOCK_DISTRIBUTION: &str = r#"
{"op":"domain","d":"D","is":"{0..11}","map":"blockDist({1..10}, [4])"} -> {"edit":1,"n":3}
{"op":"where","d":"D","i":0} -> {"locale":0}
{"op":"where","d":"D","i":1} -> {"locale":0}
{"op":"where","d":"D","i":2} -> {"locale":0}
{"op":"where","d":"D","i":3} -> {"locale":0}
{"op":"where","d":"D","i":4} -> {"locale":1}
{"op":"where","d":"D","i":5} -> {"locale":1}
{"op":"where","d":"D","i":6} -> {"locale":2}
{"op":"where","d":"D","i":7} -> {"locale":2}
{"op":"where","d":"D","i":8} -> {"locale":2}
{"op":"where","d":"D","i":9} -> {"locale":3}
{"op":"where","d":"D","i":10} -> {"locale":3}
{"op":"where","d":"D","i":11} -> {"locale":3}
{"op":"where","d":"D","i":12} -> {"error":"E06","name":"out-of-domain"}
{"op":"domain","d":"E","is":"{0..4}","map":"blockDist({0..4}, [2])"} -> {"edit":2,"n":3}
{"op":"where","d":"E","i":0} -> {"locale":0}
{"op":"where","d":"E","i":1} -> {"locale":0}
{"op":"where","d":"E","i":2} -> {"locale":0}
{"op":"where","d":"E","i":3} -> {"locale":1}
{"op":"where","d":"E","i":4} -> {"locale":1}
"#;

// Cyclic mappings, blocks of a size, more dimensions, and limits of grids.
const CYCLIC_AND_GRID_LIMITS: &str = r#"
{"op":"domain","d":"C","is":"{-1..1}","map":"cyclicDist(1, [3])"} -> {"edit":1,"n":3}
{"op":"where","d":"C","i":-1} -> {"locale":1}
{"op":"where","d":"C","i":0} -> {"locale":2}
{"op":"where","d":"C","i":1} -> {"locale":0}
{"op":"domain","d":"B","is":"{0..7}","map":"blockCycDist(1, 2, [3])"} -> {"edit":2,"n":3}
{"op":"where","d":"B","i":0} -> {"locale":2}
{"op":"where","d":"B","i":7} -> {"locale":0}
{"op":"domain","d":"P","is":"{1..4, 1..4}","map":"blockDist({1..4, 1..4}, [2, 2])"} -> {"edit":3,"n":3}
{"op":"where","d":"P","i":[3,2]} -> {"locale":2}
{"op":"where","d":"P","i":3} -> {"error":"E05","name":"wrong-kind"}
{"op":"domain","d":"X","is":"{1..4}","map":"blockCycDist(1, 0, [3])"} -> {"error":"E15","name":"bad-mapping"}
{"op":"domain","d":"X","is":"{1..4}","map":"cyclicDist(1, [0])"} -> {"error":"E15","name":"bad-mapping"}
{"op":"domain","d":"X","is":"{1..4}","map":"cyclicDist(1, [257])"} -> {"error":"E15","name":"bad-mapping"}
{"op":"domain","d":"X","is":"{1..4}","map":"cyclicDist(1, [256])"} -> {"edit":4,"n":3}
{"op":"domain","d":"Y","is":"{1..2, 1..2}","map":"cyclicDist((1, 1), [16, 17])"} -> {"error":"E15","name":"bad-mapping"}
{"op":"domain","d":"Y","is":"{1..2, 0..3, 5..5}","map":"blockCycDist((1, 0, 5), (1, 2, 1), [2, 2, 1])"} -> {"edit":5,"n":3}
{"op":"where","d":"Y","i":[1,3,5]} -> {"locale":1}
{"op":"where","d":"Y","i":[2,1,5]} -> {"locale":2}
{"op":"where","d":"Y","i":[2,3,5]} -> {"locale":3}
{"op":"domain","d":"Z","is":"{1..2, 0..3}","map":"cyclicDist((1, 0), [2, 3])"} -> {"edit":6,"n":3}
{"op":"where","d":"Z","i":[2,2]} -> {"locale":5}
{"op":"where","d":"Z","i":[1,3]} -> {"locale":0}
"#;

// A new mapping, undone and redone.
const REMAPPED: &str = r#"
{"op":"domain","d":"D","is":"{0..5}","map":"blockDist({0..5}, [2])"} -> {"edit":1,"n":3}
{"op":"where","d":"D","i":0} -> {"locale":0}
{"op":"where","d":"D","i":1} -> {"locale":0}
{"op":"where","d":"D","i":2} -> {"locale":0}
{"op":"where","d":"D","i":3} -> {"locale":1}
{"op":"where","d":"D","i":4} -> {"locale":1}
{"op":"where","d":"D","i":5} -> {"locale":1}
{"op":"remap","d":"D","map":"cyclicDist(0, [2])"} -> {"edit":2,"n":1}
{"op":"where","d":"D","i":0} -> {"locale":0}
{"op":"where","d":"D","i":1} -> {"locale":1}
{"op":"where","d":"D","i":2} -> {"locale":0}
{"op":"where","d":"D","i":3} -> {"locale":1}
{"op":"where","d":"D","i":4} -> {"locale":0}
{"op":"where","d":"D","i":5} -> {"locale":1}
{"op":"array","a":"B","d":"D"} -> {"edit":3,"n":9}
{"op":"undo","k":2} -> {"n":1,"undone":2}
{"op":"where","d":"D","i":0} -> {"locale":0}
{"op":"where","d":"D","i":1} -> {"locale":0}
{"op":"where","d":"D","i":2} -> {"locale":0}
{"op":"where","d":"D","i":3} -> {"locale":1}
{"op":"where","d":"D","i":4} -> {"locale":1}
{"op":"where","d":"D","i":5} -> {"locale":1}
{"op":"redo","k":2} -> {"n":1,"redone":2}
{"op":"where","d":"D","i":0} -> {"locale":0}
{"op":"where","d":"D","i":1} -> {"locale":1}
{"op":"where","d":"D","i":2} -> {"locale":0}
{"op":"where","d":"D","i":3} -> {"locale":1}
{"op":"where","d":"D","i":4} -> {"locale":0}
{"op":"where","d":"D","i":5} -> {"locale":1}
{"op":"remap","d":"D","map":"none"} -> {"edit":4,"n":1}
{"op":"where","d":"D","i":0} -> {"locale":0}
{"op":"where","d":"D","i":1} -> {"locale":0}
{"op":"where","d":"D","i":2} -> {"locale":0}
{"op":"where","d":"D","i":3} -> {"locale":0}
{"op":"where","d":"D","i":4} -> {"locale":0}
{"op":"where","d":"D","i":5} -> {"locale":0}
{"op":"undo","k":2} -> {"by":4,"error":"E14","name":"blocked"}
"#;

// Mappings of other ranks, and names.
const NOT_MAPPED: &str = r#"
{"op":"domain","d":"D","is":"{1..4}"} -> {"edit":1,"n":3}
{"op":"array","a":"A","d":"D"} -> {"edit":2,"n":7}
{"op":"remap","d":"D","map":"blockDist({1..4, 1..4}, [2, 2])"} -> {"error":"E15","name":"bad-mapping"}
{"op":"remap","d":"A","map":"cyclicDist(0, [2])"} -> {"error":"E05","name":"wrong-kind"}
{"op":"remap","d":"X","map":"blockDist({1..4, 1..4}, [2, 2])"} -> {"error":"E04","name":"no-such-name"}
{"op":"domain","d":"E","is":"{1..4}","map":"blockDist({1..4, 1..4}, [2, 2])"} -> {"error":"E15","name":"bad-mapping"}
{"op":"domain","d":"E","is":"{1..4, 1..4}","map":"cyclicDist(0, [2])"} -> {"error":"E15","name":"bad-mapping"}
{"op":"domain","d":"A","is":"{1..4, 1..4}","map":"cyclicDist(0, [2])"} -> {"error":"E03","name":"name-taken"}
{"op":"where","d":"A","i":1} -> {"error":"E05","name":"wrong-kind"}
{"op":"where","d":"X","i":1} -> {"error":"E04","name":"no-such-name"}
{"op":"where","d":"D","i":1} -> {"locale":0}
{"op":"where","d":"D","i":2} -> {"locale":0}
{"op":"where","d":"D","i":3} -> {"locale":0}
{"op":"where","d":"D","i":4} -> {"locale":0}
"#;

// Fields before literals, these before limits, and only then the mapping.
const IN_ORDER: &str = r#"
{"op":"domain","d":"D","is":"{1..4}","map":1} -> {"error":"E01","name":"bad-request"}
{"op":"domain","d":"D","is":"{1..4}","map":null} -> {"error":"E01","name":"bad-request"}
{"op":"domain","d":"D","is":"{1..4}","map":"none","of":"D"} -> {"error":"E01","name":"bad-request"}
{"op":"domain","d":"D","map":"none"} -> {"error":"E01","name":"bad-request"}
{"op":"remap","d":"D"} -> {"error":"E01","name":"bad-request"}
{"op":"remap","d":"D","map":"none","is":"{1..4}"} -> {"error":"E01","name":"bad-request"}
{"op":"domain","d":"1","is":"{1..4}","map":"x"} -> {"error":"E01","name":"bad-request"}
{"op":"remap","d":"1","map":"x"} -> {"error":"E01","name":"bad-request"}
{"op":"domain","d":"D","is":"{1..4}","map":"blockDist ({1..4}, [2])"} -> {"error":"E02","name":"bad-literal"}
{"op":"domain","d":"D","is":"{1..4}","map":" none"} -> {"error":"E02","name":"bad-literal"}
{"op":"domain","d":"D","is":"{1..4}","map":""} -> {"error":"E02","name":"bad-literal"}
{"op":"domain","d":"D","is":"{1..4}","map":"cyclicDist(0, [])"} -> {"error":"E02","name":"bad-literal"}
{"op":"domain","d":"D","is":"{1..65537}","map":"x"} -> {"error":"E02","name":"bad-literal"}
{"op":"remap","d":"D","map":"blockDist({1..65537 by 0}, [2])"} -> {"error":"E02","name":"bad-literal"}
{"op":"domain","d":"D","is":"{1..65537}","map":"cyclicDist(0, [0])"} -> {"error":"E09","name":"too-large"}
{"op":"domain","d":"D","is":"{1..4}","map":"blockDist({1..65537}, [0])"} -> {"error":"E09","name":"too-large"}
{"op":"domain","d":"D","is":"{1..4}","map":"blockDist({1..65537}, [1, 1])"} -> {"error":"E09","name":"too-large"}
{"op":"domain","d":"D","is":"{1..4}","map":"blockDist({1..256, 1..257}, [1, 1])"} -> {"error":"E09","name":"too-large"}
{"op":"remap","d":"D","map":"blockDist({1000000000000000001..5}, [2])"} -> {"error":"E09","name":"too-large"}
{"op":"domain","d":"D","is":"{1..4}","map":"blockDist({1..0}, [2])"} -> {"error":"E15","name":"bad-mapping"}
{"op":"domain","d":"D","is":"{1..4}","map":"blockDist({1..9 by 2}, [2])"} -> {"error":"E15","name":"bad-mapping"}
{"op":"domain","d":"D","is":"{1..4}","map":"blockDist({1..4}, [1, 1])"} -> {"error":"E15","name":"bad-mapping"}
{"op":"domain","d":"D","is":"{1..4}","map":"cyclicDist((0, 0), [2])"} -> {"error":"E15","name":"bad-mapping"}
{"op":"domain","d":"D","is":"{1..4}","map":"blockCycDist(0, (1, 1), [2])"} -> {"error":"E15","name":"bad-mapping"}
{"op":"domain","d":"D","is":"{1..4}","map":"blockCycDist((0, 0), 1, [1, 1])"} -> {"error":"E15","name":"bad-mapping"}
{"op":"remap","d":"D","map":"cyclicDist(0, [0])"} -> {"error":"E15","name":"bad-mapping"}
{"op":"remap","d":"D","map":"none"} -> {"error":"E04","name":"no-such-name"}
{"op":"domain","d":"D","is":"{1..4}","map":"blockDist({1..2 by 2}, [1])"} -> {"edit":1,"n":3}
{"op":"domain","d":"D","is":"{1..4}","map":"cyclicDist(0, [0])"} -> {"error":"E15","name":"bad-mapping"}
{"op":"domain","d":"D","is":"{1..4}","map":"cyclicDist((0, 0), [1, 2])"} -> {"error":"E03","name":"name-taken"}
"#;

// The elements on each locale, by the mapping as it is: upward also where the stride is negative, by the parent's mapping
// for a sparse domain, and all on one locale where there is none.
const REMAP_MOVES_PIECES: &str = r#"
{"op":"domain","d":"D","is":"{0..5}","map":"blockDist({0..5}, [2])"} -> {"edit":1,"n":3}
{"op":"remap","d":"D","map":"cyclicDist(0, [2])"} -> {"edit":2,"n":1}
{"op":"array","a":"B","d":"D"} -> {"edit":3,"n":9}
{"op":"piece","a":"B","l":0} -> {"piece":[[0,0],[2,0],[4,0]]}
{"op":"undo","k":2} -> {"n":1,"undone":2}
{"op":"piece","a":"B","l":0} -> {"piece":[[0,0],[1,0],[2,0]]}
{"op":"piece","a":"B","l":1} -> {"piece":[[3,0],[4,0],[5,0]]}
{"op":"piece","a":"B","l":2} -> {"error":"E06","name":"out-of-domain"}
{"op":"piece","a":"X","l":0} -> {"error":"E04","name":"no-such-name"}
{"op":"piece","a":"D","l":2} -> {"error":"E05","name":"wrong-kind"}
{"op":"piece","a":"B","l":-1} -> {"error":"E01","name":"bad-request"}
{"op":"domain","d":"E","is":"{1..10 by -3}"} -> {"edit":4,"n":3}
{"op":"array","a":"C","d":"E"} -> {"edit":5,"n":7}
{"op":"set","a":"C","i":10,"v":-5} -> {"edit":6,"n":1}
{"op":"piece","a":"C","l":0} -> {"piece":[[1,0],[4,0],[7,0],[10,-5]]}
{"op":"piece","a":"C","l":1} -> {"error":"E06","name":"out-of-domain"}
{"op":"domain","d":"P","is":"{1..2, 0..1}","map":"cyclicDist((1, 0), [2, 1])"} -> {"edit":7,"n":3}
{"op":"array","a":"Q","d":"P"} -> {"edit":8,"n":7}
{"op":"piece","a":"Q","l":1} -> {"piece":[[[2,0],0],[[2,1],0]]}
{"op":"sparse","d":"S","of":"P"} -> {"edit":9,"n":2}
{"op":"add","d":"S","i":[2,1]} -> {"edit":10,"n":1}
{"op":"array","a":"T","d":"S"} -> {"edit":11,"n":4}
{"op":"piece","a":"T","l":1} -> {"piece":[[[2,1],0]]}
{"op":"piece","a":"T","l":0} -> {"piece":[]}
{"op":"piece","a":"T","l":2} -> {"error":"E06","name":"out-of-domain"}
{"op":"assoc","d":"N","of":"text"} -> {"edit":12,"n":1}
{"op":"add","d":"N","i":"a"} -> {"edit":13,"n":1}
{"op":"array","a":"M","d":"N"} -> {"edit":14,"n":4}
{"op":"piece","a":"M","l":0} -> {"piece":[["a",0]]}
{"op":"piece","a":"M","l":1} -> {"error":"E06","name":"out-of-domain"}
"#;

/// Each script, over a history of its own.
pub const SCRIPTS: [Script; 6] = [
    ("", BLOCK_DISTRIBUTION, 2, 6),
    ("", CYCLIC_AND_GRID_LIMITS, 6, 18),
    ("", REMAPPED, 4, 16),
    ("", NOT_MAPPED, 2, 10),
    ("", IN_ORDER, 1, 3),
    ("", REMAP_MOVES_PIECES, 14, 48),
];
