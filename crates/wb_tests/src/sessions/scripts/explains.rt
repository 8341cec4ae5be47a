//! What is wrong with a line: the field and the rule.

use super::Script;

// Of several faults with the least code the first is told: the line and its op, which members there are, their values in the
// order of the op's form, and then the count of a `put`. A request has nothing wrong, and no line changes anything.
const EXPLAINED: &str = r#"
{"op":"explain","line":"size D"} -> {"wrong":{"error":"E01","field":null,"name":"bad-request","rule":"JSON in UTF-8"}}
{"op":"explain","line":""} -> {"wrong":{"error":"E01","field":null,"name":"bad-request","rule":"JSON in UTF-8"}}
{"op":"explain","line":"[]"} -> {"wrong":{"error":"E01","field":null,"name":"bad-request","rule":"a JSON object"}}
{"op":"explain","line":"1"} -> {"wrong":{"error":"E01","field":null,"name":"bad-request","rule":"a JSON object"}}
{"op":"explain","line":"{}"} -> {"wrong":{"error":"E01","field":"op","name":"bad-request","rule":"an op"}}
{"op":"explain","line":"{\"op\":1}"} -> {"wrong":{"error":"E01","field":"op","name":"bad-request","rule":"an op"}}
{"op":"explain","line":"{\"op\":\"count\",\"d\":\"D\"}"} -> {"wrong":{"error":"E01","field":"op","name":"bad-request","rule":"an op"}}
{"op":"explain","line":"{\"op\":\"size\",\"d\":\"D\",\"why\":1}"} -> {"wrong":{"error":"E01","field":"why","name":"bad-request","rule":"no field that the op does not have"}}
{"op":"explain","line":"{\"op\":\"size\",\"d\":\"D\",\"b\":1,\"a\":1}"} -> {"wrong":{"error":"E01","field":"a","name":"bad-request","rule":"no field that the op does not have"}}
{"op":"explain","line":"{\"op\":\"size\"}"} -> {"wrong":{"error":"E01","field":"d","name":"bad-request","rule":"each field that the op has"}}
{"op":"explain","line":"{\"op\":\"copy\",\"a\":\"A\",\"b\":\"B\",\"c\":1}"} -> {"wrong":{"error":"E01","field":"i","name":"bad-request","rule":"each field that the op has"}}
{"op":"explain","line":"{\"op\":\"reshape\",\"d\":\"D\"}"} -> {"wrong":{"error":"E01","field":null,"name":"bad-request","rule":"one of the fields to, slice, translate, expand, or, and, minus and xor"}}
{"op":"explain","line":"{\"op\":\"reshape\",\"d\":\"D\",\"or\":\"K\",\"and\":\"K\"}"} -> {"wrong":{"error":"E01","field":null,"name":"bad-request","rule":"one of the fields to, slice, translate, expand, or, and, minus and xor"}}
{"op":"explain","line":"{\"op\":\"reshape\",\"to\":\"K\"}"} -> {"wrong":{"error":"E01","field":"d","name":"bad-request","rule":"each field that the op has"}}
{"op":"explain","line":"{\"op\":\"undo\",\"l\":1}"} -> {"wrong":{"error":"E01","field":"l","name":"bad-request","rule":"no field that the op does not have"}}
{"op":"explain","line":"{\"op\":\"set\",\"a\":\"A\",\"i\":1,\"v\":2.5}"} -> {"wrong":{"error":"E01","field":"v","name":"bad-request","rule":"an integer from -2^63 to 2^63-1, without fraction and exponent"}}
{"op":"explain","line":"{\"op\":\"set\",\"a\":\"1\",\"i\":{},\"v\":1}"} -> {"wrong":{"error":"E01","field":"a","name":"bad-request","rule":"a name: 1 to 32 letters, digits and _, a letter first"}}
{"op":"explain","line":"{\"op\":\"set\",\"a\":\"A\",\"i\":[1,2,3,4],\"v\":1}"} -> {"wrong":{"error":"E01","field":"i","name":"bad-request","rule":"an index: an integer, an array of 2 or 3 of them, or a text of at most 64 bytes without quotes, backslashes and control characters"}}
{"op":"explain","line":"{\"op\":\"redo\",\"k\":-1}"} -> {"wrong":{"error":"E01","field":"k","name":"bad-request","rule":"an integer from 0 to 2^64-1, without fraction and exponent"}}
{"op":"explain","line":"{\"op\":\"assoc\",\"d\":\"K\",\"of\":\"integer\"}"} -> {"wrong":{"error":"E01","field":"of","name":"bad-request","rule":"int or text"}}
{"op":"explain","line":"{\"op\":\"sparse\",\"d\":\"S\",\"of\":\"{1..4}\"}"} -> {"wrong":{"error":"E01","field":"of","name":"bad-request","rule":"a name: 1 to 32 letters, digits and _, a letter first"}}
{"op":"explain","line":"{\"op\":\"all\",\"a\":\"A\",\"how\":\"min\",\"b\":\"B\"}"} -> {"wrong":{"error":"E01","field":"how","name":"bad-request","rule":"=, +, - or *"}}
{"op":"explain","line":"{\"op\":\"reduce\",\"a\":\"A\",\"how\":\"=\"}"} -> {"wrong":{"error":"E01","field":"how","name":"bad-request","rule":"+, min or max"}}
{"op":"explain","line":"{\"op\":\"reshape\",\"d\":\"D\",\"expand\":\"x\"}"} -> {"wrong":{"error":"E01","field":"expand","name":"bad-request","rule":"an integer, or an array of 2 or 3 of them"}}
{"op":"explain","line":"{\"op\":\"put\",\"a\":\"A\",\"on\":\"{1..2\",\"vs\":[1,2.5]}"} -> {"wrong":{"error":"E01","field":"vs","name":"bad-request","rule":"an array of integers from -2^63 to 2^63-1"}}
{"op":"explain","line":"{\"op\":\"explain\",\"line\":1}"} -> {"wrong":{"error":"E01","field":"line","name":"bad-request","rule":"a text"}}
{"op":"explain","line":"{\"op\":\"fill\",\"a\":\"A\",\"on\":\"{1..2\",\"v\":1}"} -> {"wrong":{"error":"E02","field":"on","name":"bad-literal","rule":"a rectangle or a set, as {1..9} or {1, 5}"}}
{"op":"explain","line":"{\"op\":\"fill\",\"a\":\"A\",\"on\":\"{1..2\",\"v\":1.5}"} -> {"wrong":{"error":"E01","field":"v","name":"bad-request","rule":"an integer from -2^63 to 2^63-1, without fraction and exponent"}}
{"op":"explain","line":"{\"op\":\"fill\",\"a\":\"A\",\"on\":1,\"v\":1}"} -> {"wrong":{"error":"E01","field":"on","name":"bad-request","rule":"a text"}}
{"op":"explain","line":"{\"op\":\"fill\",\"a\":\"A\",\"on\":\"{1..65537}\",\"v\":1}"} -> {"wrong":{"error":"E09","field":"on","name":"too-large","rule":"at most 65536 indices, bounds within 10^18"}}
{"op":"explain","line":"{\"op\":\"domain\",\"d\":\"D\",\"is\":\"{1..65537}\",\"map\":\"blockDist(1..2)\"}"} -> {"wrong":{"error":"E02","field":"map","name":"bad-literal","rule":"none, blockDist(..), cyclicDist(..) or blockCycDist(..)"}}
{"op":"explain","line":"{\"op\":\"domain\",\"d\":\"D\",\"is\":\"{1..65537}\",\"map\":\"blockDist({1..2}, [2, 2])\"}"} -> {"wrong":{"error":"E09","field":"is","name":"too-large","rule":"at most 65536 indices, bounds within 10^18"}}
{"op":"explain","line":"{\"op\":\"remap\",\"d\":\"D\",\"map\":\"blockDist({1..65537}, [2, 2])\"}"} -> {"wrong":{"error":"E09","field":"map","name":"too-large","rule":"a box of at most 65536 indices, bounds within 10^18"}}
{"op":"explain","line":"{\"op\":\"remap\",\"d\":\"D\",\"map\":\"blockDist({1..2}, [2, 2])\"}"} -> {"wrong":{"error":"E15","field":"map","name":"bad-mapping","rule":"parts of one rank, a box of filled ranges with stride 1, block sizes from 1, and a grid of 1 to 256 locales"}}
{"op":"explain","line":"{\"op\":\"reshape\",\"d\":\"D\",\"to\":\"1\"}"} -> {"wrong":{"error":"E01","field":"to","name":"bad-request","rule":"a literal in braces, or the name of a domain"}}
{"op":"explain","line":"{\"op\":\"reshape\",\"d\":\"D\",\"slice\":\"{1..\"}"} -> {"wrong":{"error":"E02","field":"slice","name":"bad-literal","rule":"a rectangle or a set, as {1..9} or {1, 5}"}}
{"op":"explain","line":"{\"op\":\"reshape\",\"d\":\"D\",\"to\":\"{1..65537}\"}"} -> {"wrong":{"error":"E09","field":"to","name":"too-large","rule":"at most 65536 indices, bounds within 10^18"}}
{"op":"explain","line":"{\"op\":\"load\",\"text\":\"x\"}"} -> {"wrong":{"error":"E02","field":"text","name":"bad-literal","rule":"the text of a workbook, as print answers it"}}
{"op":"explain","line":"{\"op\":\"load\",\"text\":1}"} -> {"wrong":{"error":"E01","field":"text","name":"bad-request","rule":"a text"}}
{"op":"explain","line":"{\"op\":\"put\",\"a\":\"A\",\"on\":\"{1..3}\",\"vs\":[1,2]}"} -> {"wrong":{"error":"E01","field":"vs","name":"bad-request","rule":"as many numbers as the rectangle has indices"}}
{"op":"explain","line":"{\"op\":\"put\",\"a\":\"1\",\"on\":\"{1..3}\",\"vs\":[1,2]}"} -> {"wrong":{"error":"E01","field":"a","name":"bad-request","rule":"a name: 1 to 32 letters, digits and _, a letter first"}}
{"op":"explain","line":"{\"op\":\"put\",\"a\":\"A\",\"on\":\"{1..65537}\",\"vs\":[1]}"} -> {"wrong":{"error":"E09","field":"on","name":"too-large","rule":"at most 65536 indices, bounds within 10^18"}}
{"op":"explain","line":"{\"op\":\"put\",\"a\":\"A\",\"on\":\"{1, 2}\",\"vs\":[1]}"} -> {"wrong":null}
{"op":"explain","line":"{\"op\":\"put\",\"a\":\"A\",\"on\":\"{1..3}\",\"vs\":[1,2,3]}"} -> {"wrong":null}
{"op":"explain","line":"{\"op\":\"size\",\"d\":\"D\"}"} -> {"wrong":null}
{"op":"explain","line":"{\"op\":\"undo\"}"} -> {"wrong":null}
{"op":"explain","line":"{\"op\":\"explain\",\"line\":\"size D\"}"} -> {"wrong":null}
{"op":"explain","line":1} -> {"error":"E01","name":"bad-request"}
{"op":"explain"} -> {"error":"E01","name":"bad-request"}
{"op":"explain","line":"{}","d":"D"} -> {"error":"E01","name":"bad-request"}
{"op":"edits"} -> {"edits":0,"writes":0}
"#;

/// Each script, over a history of its own.
pub const SCRIPTS: [Script; 1] = [("", EXPLAINED, 0, 0)];
