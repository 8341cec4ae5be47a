//! Worked histories of domains that are assigned.

use super::Script;

// A domain with no index, its array with no element, until the domain has indices.
const EMPTY_RECTANGLES: &str = r#"
{"op":"domain","d":"E","is":"{1..0, 1..5}"} -> {"edit":1,"n":3}
{"op":"array","a":"Z","d":"E"} -> {"edit":2,"n":3}
{"op":"size","d":"E"} -> {"size":0}
{"op":"reshape","d":"E","to":"{1..2, 1..2}"} -> {"edit":3,"n":5}
{"op":"get","a":"Z","i":[2,2]} -> {"value":0}
{"op":"undo"} -> {"n":5,"undone":3}
{"op":"size","d":"E"} -> {"size":0}
"#;

// What a reshape drops comes back by its undo.
const RESHAPE_DROPS_AND_BRINGS_BACK: &str = r#"
{"op":"domain","d":"D","is":"{1..4}"} -> {"edit":1,"n":3}
{"op":"array","a":"A","d":"D"} -> {"edit":2,"n":7}
{"op":"set","a":"A","i":4,"v":9} -> {"edit":3,"n":1}
{"op":"reshape","d":"D","to":"{1..2}"} -> {"edit":4,"n":3}
{"op":"get","a":"A","i":4} -> {"error":"E06","name":"out-of-domain"}
{"op":"undo"} -> {"n":3,"undone":4}
{"op":"get","a":"A","i":4} -> {"value":9}
"#;

// Of four elements two stay, two go and two come; the undo brings the two back.
const REALLOCATION_OF_FOUR: &str = r#"
{"op":"domain","d":"D","is":"{1..4}"} -> {"edit":1,"n":3}
{"op":"array","a":"A","d":"D"} -> {"edit":2,"n":7}
{"op":"set","a":"A","i":1,"v":1} -> {"edit":3,"n":1}
{"op":"set","a":"A","i":2,"v":2} -> {"edit":4,"n":1}
{"op":"set","a":"A","i":3,"v":3} -> {"edit":5,"n":1}
{"op":"set","a":"A","i":4,"v":4} -> {"edit":6,"n":1}
{"op":"reshape","d":"D","to":"{3..6}"} -> {"edit":7,"n":5}
{"op":"print"} -> {"text":"chapel-workbook 1\narray A over D [3, 4, 0, 0]\nrect D {3..6} none\nend\n"}
{"op":"get","a":"A","i":1} -> {"error":"E06","name":"out-of-domain"}
{"op":"undo"} -> {"n":5,"undone":7}
{"op":"print"} -> {"text":"chapel-workbook 1\narray A over D [1, 2, 3, 4]\nrect D {1..4} none\nend\n"}
{"op":"set","a":"A","i":5,"v":9} -> {"error":"E06","name":"out-of-domain"}
"#;

// An earlier reshape is undone where a later edit wrote nothing that came with it.
const UNDO_OF_AN_EARLIER_RESHAPE: &str = r#"
{"op":"domain","d":"D","is":"{1..4}"} -> {"edit":1,"n":3}
{"op":"array","a":"A","d":"D"} -> {"edit":2,"n":7}
{"op":"reshape","d":"D","to":"{1..6}"} -> {"edit":3,"n":3}
{"op":"set","a":"A","i":2,"v":5} -> {"edit":4,"n":1}
{"op":"undo","k":3} -> {"n":3,"undone":3}
{"op":"get","a":"A","i":2} -> {"value":5}
{"op":"get","a":"A","i":6} -> {"error":"E06","name":"out-of-domain"}
"#;

// An element that came with a reshape was set since.
const RESHAPE_IN_USE: &str = r#"
{"op":"domain","d":"D","is":"{1..4}"} -> {"edit":1,"n":3}
{"op":"array","a":"A","d":"D"} -> {"edit":2,"n":7}
{"op":"reshape","d":"D","to":"{1..6}"} -> {"edit":3,"n":3}
{"op":"set","a":"A","i":6,"v":5} -> {"edit":4,"n":1}
{"op":"undo","k":3} -> {"by":4,"error":"E14","name":"blocked"}
"#;

// A reshape dropped what was set.
const BLOCKED_BY_A_RESHAPE: &str = r#"
{"op":"domain","d":"D","is":"{1..4}"} -> {"edit":1,"n":3}
{"op":"array","a":"A","d":"D"} -> {"edit":2,"n":7}
{"op":"set","a":"A","i":4,"v":9} -> {"edit":3,"n":1}
{"op":"reshape","d":"D","to":"{1..2}"} -> {"edit":4,"n":3}
{"op":"undo","k":3} -> {"by":4,"error":"E14","name":"blocked"}
"#;

// A domain keeps the indices that a sparse domain in it has.
const KEPT_BY_SPARSE: &str = r#"
{"op":"domain","d":"D","is":"{1..10}"} -> {"edit":1,"n":3}
{"op":"sparse","d":"S","of":"D"} -> {"edit":2,"n":2}
{"op":"array","a":"A","d":"S"} -> {"edit":3,"n":3}
{"op":"irv","a":"A","v":7} -> {"edit":4,"n":1}
{"op":"add","d":"S","i":3} -> {"edit":5,"n":2}
{"op":"get","a":"A","i":3} -> {"value":7}
{"op":"get","a":"A","i":4} -> {"value":7}
{"op":"reshape","d":"D","to":"{4..10}"} -> {"error":"E08","name":"in-use"}
{"op":"reshape","d":"D","to":"{3..10}"} -> {"edit":6,"n":1}
"#;

// Slices of strided ranges, and ranges displaced.
const SLICES_AND_OFFSETS: &str = r#"
{"op":"domain","d":"D","is":"{1..10 by 2}"} -> {"edit":1,"n":3}
{"op":"reshape","d":"D","slice":"{1..10 by 3}"} -> {"edit":2,"n":1}
{"op":"size","d":"D"} -> {"size":2}
{"op":"where","d":"D","i":7} -> {"locale":0}
{"op":"where","d":"D","i":4} -> {"error":"E06","name":"out-of-domain"}
{"op":"reshape","d":"D","translate":1} -> {"error":"E05","name":"wrong-kind"}
{"op":"domain","d":"E","is":"{1..4}"} -> {"edit":3,"n":3}
{"op":"reshape","d":"E","translate":2} -> {"edit":4,"n":1}
{"op":"size","d":"E"} -> {"size":4}
{"op":"where","d":"E","i":6} -> {"locale":0}
{"op":"where","d":"E","i":2} -> {"error":"E06","name":"out-of-domain"}
{"op":"undo"} -> {"n":1,"undone":4}
{"op":"reshape","d":"E","expand":1} -> {"edit":5,"n":1}
{"op":"size","d":"E"} -> {"size":6}
{"op":"where","d":"E","i":0} -> {"locale":0}
{"op":"undo"} -> {"n":1,"undone":5}
{"op":"reshape","d":"E","expand":-2} -> {"edit":6,"n":1}
{"op":"size","d":"E"} -> {"size":0}
{"op":"undo"} -> {"n":1,"undone":6}
{"op":"reshape","d":"E","translate":1000000000000000000} -> {"error":"E09","name":"too-large"}
{"op":"domain","d":"P","is":"{1..2, 1..3}"} -> {"edit":7,"n":3}
{"op":"reshape","d":"P","translate":[1,10]} -> {"edit":8,"n":1}
{"op":"where","d":"P","i":[3,11]} -> {"locale":0}
{"op":"where","d":"P","i":[2,2]} -> {"error":"E06","name":"out-of-domain"}
"#;

// What two sets of integers make.
const SET_OPERATIONS: &str = r#"
{"op":"assoc","d":"N","of":"int"} -> {"edit":1,"n":1}
{"op":"reshape","d":"N","to":"{5, 1, 3}"} -> {"edit":2,"n":3}
{"op":"reshape","d":"N","or":"{3, 7}"} -> {"edit":3,"n":1}
{"op":"reshape","d":"N","xor":"{1, 9}"} -> {"edit":4,"n":2}
{"op":"reshape","d":"N","minus":"{3}"} -> {"edit":5,"n":1}
{"op":"size","d":"N"} -> {"size":3}
{"op":"reshape","d":"N","and":"{5, 6}"} -> {"edit":6,"n":2}
{"op":"size","d":"N"} -> {"size":1}
{"op":"where","d":"N","i":5} -> {"locale":0}
"#;

// A reshape is undone under a later mapping.
const UNDO_OF_A_RESHAPE_UNDER_A_REMAP: &str = r#"
{"op":"domain","d":"D","is":"{1..4}"} -> {"edit":1,"n":3}
{"op":"array","a":"A","d":"D"} -> {"edit":2,"n":7}
{"op":"set","a":"A","i":4,"v":9} -> {"edit":3,"n":1}
{"op":"reshape","d":"D","to":"{1..2}"} -> {"edit":4,"n":3}
{"op":"remap","d":"D","map":"cyclicDist(1, [2])"} -> {"edit":5,"n":1}
{"op":"undo","k":4} -> {"n":3,"undone":4}
{"op":"get","a":"A","i":2} -> {"value":0}
{"op":"get","a":"A","i":4} -> {"value":9}
{"op":"where","d":"D","i":4} -> {"locale":1}
{"op":"where","d":"D","i":3} -> {"locale":0}
{"op":"piece","a":"A","l":1} -> {"piece":[[2,0],[4,9]]}
"#;

// An earlier reshape of a sparse domain is undone, and the index that came since stays.
const INDEX_ADDED_SINCE_A_RESHAPE: &str = r#"
{"op":"domain","d":"D","is":"{1..9}"} -> {"edit":1,"n":3}
{"op":"sparse","d":"S","of":"D"} -> {"edit":2,"n":2}
{"op":"array","a":"A","d":"S"} -> {"edit":3,"n":3}
{"op":"add","d":"S","i":3} -> {"edit":4,"n":2}
{"op":"set","a":"A","i":3,"v":8} -> {"edit":5,"n":1}
{"op":"reshape","d":"S","to":"{1, 2}"} -> {"edit":6,"n":6}
{"op":"add","d":"S","i":5} -> {"edit":7,"n":2}
{"op":"undo","k":6} -> {"n":6,"undone":6}
{"op":"size","d":"S"} -> {"size":2}
{"op":"get","a":"A","i":3} -> {"value":8}
"#;

// A reshape is undone where an index that came to a sparse domain since did not come with it.
const FINER_READS_OF_A_RESHAPE: &str = r#"
{"op":"domain","d":"D","is":"{1..10}"} -> {"edit":1,"n":3}
{"op":"sparse","d":"S","of":"D"} -> {"edit":2,"n":2}
{"op":"reshape","d":"D","to":"{1..12}"} -> {"edit":3,"n":1}
{"op":"add","d":"S","i":5} -> {"edit":4,"n":1}
{"op":"undo","k":3} -> {"n":1,"undone":3}
"#;

// A reshape stays where a sparse domain has an index that came with it.
const FINER_READS_STILL_BLOCK: &str = r#"
{"op":"domain","d":"D","is":"{1..10}"} -> {"edit":1,"n":3}
{"op":"sparse","d":"S","of":"D"} -> {"edit":2,"n":2}
{"op":"reshape","d":"D","to":"{1..12}"} -> {"edit":3,"n":1}
{"op":"add","d":"S","i":11} -> {"edit":4,"n":1}
{"op":"undo","k":3} -> {"by":4,"error":"E14","name":"blocked"}
"#;

// A reshape that loses no index stands in no sparse domain's way.
const FINER_READS_OF_A_WIDENED_DOMAIN: &str = r#"
{"op":"domain","d":"D","is":"{1..10}"} -> {"edit":1,"n":3}
{"op":"sparse","d":"S","of":"D"} -> {"edit":2,"n":2}
{"op":"add","d":"S","i":3} -> {"edit":3,"n":1}
{"op":"reshape","d":"D","to":"{1..12}"} -> {"edit":4,"n":1}
{"op":"undo","k":3} -> {"n":1,"undone":3}
"#;

// A copy of an implicit value reads that its index is in the parent, and no more of the parent.
const FINER_READS_OF_A_COPY: &str = r#"
{"op":"domain","d":"D","is":"{1..4}"} -> {"edit":1,"n":3}
{"op":"sparse","d":"S","of":"D"} -> {"edit":2,"n":2}
{"op":"array","a":"A","d":"S"} -> {"edit":3,"n":3}
{"op":"array","a":"B","d":"D"} -> {"edit":4,"n":7}
{"op":"reshape","d":"D","to":"{1..6}"} -> {"edit":5,"n":3}
{"op":"copy","a":"B","i":1,"b":"A","j":2,"c":1} -> {"edit":6,"n":1}
{"op":"undo","k":5} -> {"n":3,"undone":5}
"#;

// New values by names of domains, and sets of indices of each rank and of texts.
const OF_EACH_KIND: &str = r#"
{"op":"domain","d":"D","is":"{1..4}"} -> {"edit":1,"n":3}
{"op":"domain","d":"E","is":"{2..3}"} -> {"edit":2,"n":3}
{"op":"reshape","d":"D","to":"E"} -> {"edit":3,"n":1}
{"op":"size","d":"D"} -> {"size":2}
{"op":"reshape","d":"D","slice":"D"} -> {"edit":4,"n":1}
{"op":"assoc","d":"N","of":"text"} -> {"edit":5,"n":1}
{"op":"reshape","d":"N","to":"{\"b\", \"a\"}"} -> {"edit":6,"n":2}
{"op":"assoc","d":"M","of":"text"} -> {"edit":7,"n":1}
{"op":"reshape","d":"M","or":"N"} -> {"edit":8,"n":2}
{"op":"where","d":"M","i":"b"} -> {"locale":0}
{"op":"reshape","d":"M","to":"{}"} -> {"edit":9,"n":2}
{"op":"size","d":"M"} -> {"size":0}
{"op":"domain","d":"P","is":"{1..2, 1..3}"} -> {"edit":10,"n":3}
{"op":"sparse","d":"Q","of":"P"} -> {"edit":11,"n":2}
{"op":"reshape","d":"Q","to":"{(2, 3), (1, 2), (2, 3)}"} -> {"edit":12,"n":2}
{"op":"where","d":"Q","i":[2,3]} -> {"locale":0}
{"op":"where","d":"Q","i":[2,1]} -> {"error":"E06","name":"out-of-domain"}
{"op":"domain","d":"T","is":"{1..2, 1..2, 1..2}"} -> {"edit":13,"n":3}
{"op":"sparse","d":"U","of":"T"} -> {"edit":14,"n":2}
{"op":"reshape","d":"U","to":"{(1, 2, 1)}"} -> {"edit":15,"n":1}
{"op":"where","d":"U","i":[1,2,1]} -> {"locale":0}
"#;

// Requests that are refused.
const REFUSED_RESHAPES: &str = r#"
{"op":"domain","d":"D","is":"{1..4}"} -> {"edit":1,"n":3}
{"op":"sparse","d":"S","of":"D"} -> {"edit":2,"n":2}
{"op":"assoc","d":"N","of":"int"} -> {"edit":3,"n":1}
{"op":"array","a":"A","d":"D"} -> {"edit":4,"n":7}
{"op":"reshape","d":"D","to":"1x"} -> {"error":"E01","name":"bad-request"}
{"op":"reshape","d":"D","to":4} -> {"error":"E01","name":"bad-request"}
{"op":"reshape","d":"D"} -> {"error":"E01","name":"bad-request"}
{"op":"reshape","d":"D","on":"{1..2}"} -> {"error":"E01","name":"bad-request"}
{"op":"reshape","d":"D","to":"{1..2}","slice":"{1..2}"} -> {"error":"E01","name":"bad-request"}
{"op":"reshape","d":"1","to":"{1,"} -> {"error":"E01","name":"bad-request"}
{"op":"reshape","d":"D","translate":[1,2,3,4]} -> {"error":"E01","name":"bad-request"}
{"op":"reshape","d":"D","translate":"x"} -> {"error":"E01","name":"bad-request"}
{"op":"reshape","d":"D","to":"{1,"} -> {"error":"E02","name":"bad-literal"}
{"op":"reshape","d":"D","to":"{1..65537, 1..}"} -> {"error":"E02","name":"bad-literal"}
{"op":"reshape","d":"X","to":"{1..2}"} -> {"error":"E04","name":"no-such-name"}
{"op":"reshape","d":"D","to":"X"} -> {"error":"E04","name":"no-such-name"}
{"op":"reshape","d":"D","to":"{1, 2}"} -> {"error":"E05","name":"wrong-kind"}
{"op":"reshape","d":"D","to":"{}"} -> {"error":"E05","name":"wrong-kind"}
{"op":"reshape","d":"D","translate":[1,2]} -> {"error":"E05","name":"wrong-kind"}
{"op":"reshape","d":"D","or":"{1..2}"} -> {"error":"E05","name":"wrong-kind"}
{"op":"reshape","d":"S","slice":"{1..2}"} -> {"error":"E05","name":"wrong-kind"}
{"op":"reshape","d":"N","to":"{\"a\"}"} -> {"error":"E05","name":"wrong-kind"}
{"op":"reshape","d":"N","to":"A"} -> {"error":"E05","name":"wrong-kind"}
{"op":"reshape","d":"S","to":"{9}"} -> {"error":"E07","name":"out-of-parent"}
{"op":"reshape","d":"D","to":"{1..65537}"} -> {"error":"E09","name":"too-large"}
{"op":"domain","d":"D","is":"{}"} -> {"error":"E03","name":"name-taken"}
{"op":"domain","d":"E","is":"{}"} -> {"error":"E05","name":"wrong-kind"}
{"op":"domain","d":"E","is":"{1, 2}","map":"blockDist("} -> {"error":"E02","name":"bad-literal"}
{"op":"domain","d":"E","is":"{1, 2}","map":"blockDist({1..65537}, [2])"} -> {"error":"E09","name":"too-large"}
{"op":"domain","d":"E","is":"{1, 2}","map":"cyclicDist(1, [0])"} -> {"error":"E15","name":"bad-mapping"}
{"op":"fill","a":"A","on":"{1}","v":5} -> {"error":"E05","name":"wrong-kind"}
{"op":"fill","a":"X","on":"{1}","v":5} -> {"error":"E04","name":"no-such-name"}
{"op":"fill","a":"A","on":"{1,","v":5} -> {"error":"E02","name":"bad-literal"}
{"op":"get","a":"A","i":1} -> {"value":0}
"#;

// Fills and sums that are refused leave everything as it was; a domain without indices takes all elements.
const REFUSED_FILLS_AND_OVERFLOW: &str = r#"
{"op":"domain","d":"D","is":"{1..2}"} -> {"edit":1,"n":3}
{"op":"array","a":"A","d":"D"} -> {"edit":2,"n":5}
{"op":"array","a":"B","d":"D"} -> {"edit":3,"n":5}
{"op":"fill","a":"A","on":"{2..3}","v":4} -> {"error":"E06","name":"out-of-domain"}
{"op":"get","a":"A","i":2} -> {"value":0}
{"op":"fill_all","a":"A","v":9223372036854775807} -> {"edit":4,"n":2}
{"op":"set","a":"B","i":1,"v":1} -> {"edit":5,"n":1}
{"op":"all","a":"A","how":"+","b":"B"} -> {"error":"E10","name":"overflow"}
{"op":"get","a":"A","i":1} -> {"value":9223372036854775807}
{"op":"reduce","a":"A","how":"+"} -> {"error":"E10","name":"overflow"}
{"op":"reduce","a":"A","how":"max"} -> {"value":9223372036854775807}
{"op":"reshape","d":"D","to":"{1..0}"} -> {"edit":6,"n":5}
{"op":"reduce","a":"A","how":"min"} -> {"error":"E18","name":"empty"}
{"op":"reduce","a":"A","how":"+"} -> {"value":0}
{"op":"size","d":"D"} -> {"size":0}
"#;

/// Each script, over a history of its own.
pub const SCRIPTS: [Script; 18] = [
    ("", REFUSED_FILLS_AND_OVERFLOW, 6, 21),
    ("", EMPTY_RECTANGLES, 3, 16),
    ("", RESHAPE_DROPS_AND_BRINGS_BACK, 4, 17),
    ("", REALLOCATION_OF_FOUR, 7, 24),
    ("", UNDO_OF_AN_EARLIER_RESHAPE, 4, 17),
    ("", RESHAPE_IN_USE, 4, 14),
    ("", BLOCKED_BY_A_RESHAPE, 4, 14),
    ("", KEPT_BY_SPARSE, 6, 12),
    ("", SLICES_AND_OFFSETS, 8, 17),
    ("", SET_OPERATIONS, 6, 10),
    ("", UNDO_OF_A_RESHAPE_UNDER_A_REMAP, 5, 18),
    ("", INDEX_ADDED_SINCE_A_RESHAPE, 7, 25),
    ("", FINER_READS_OF_A_RESHAPE, 4, 8),
    ("", FINER_READS_STILL_BLOCK, 4, 7),
    ("", FINER_READS_OF_A_WIDENED_DOMAIN, 4, 8),
    ("", FINER_READS_OF_A_COPY, 6, 22),
    ("", OF_EACH_KIND, 15, 29),
    ("", REFUSED_RESHAPES, 4, 13),
];
