//! Lines of requests as the format spells them, read and written again.

use std::alloc::Global;
use std::process::Abort;
use std::test::Fail;
use wb_requests::wire::{edit_text, request_text};
use wb_requests::{Request, read_request};

// Lines, each with the canonical line of its request.
const LINES: [(&str, &str); 24] = [
    (
        "{\"op\":\"explain\",\"line\":\"{\\\"op\\\": \\\"size\\\"}\"}",
        "{\"line\":\"{\\\"op\\\": \\\"size\\\"}\",\"op\":\"explain\"}",
    ),
    (
        "{\"op\":\"domain\",\"d\":\"D\",\"is\":\"{1..4}\"}",
        "{\"d\":\"D\",\"is\":\"{1..4}\",\"map\":\"none\",\"op\":\"domain\"}",
    ),
    (
        "{\"op\":\"array\",\"a\":\"A\",\"d\":\"D\"}",
        "{\"a\":\"A\",\"d\":\"D\",\"op\":\"array\"}",
    ),
    (
        "{ \"op\" : \"set\", \"v\" : 9, \"i\" : 4, \"a\" : \"A\" }",
        "{\"a\":\"A\",\"i\":4,\"op\":\"set\",\"v\":9}",
    ),
    (
        "{\"op\":\"domain\",\"d\":\"E\",\"is\":\"{ 0 ..<2,05..#3 by -2 }\",\"map\":\"blockDist( {1..8,1..1} , [2,1] )\"}",
        "{\"d\":\"E\",\"is\":\"{0..1, 5..7 by -2}\",\"map\":\"blockDist({1..8, 1..1}, [2, 1])\",\"op\":\"domain\"}",
    ),
    (
        "{\"op\":\"domain\",\"d\":\"E\",\"is\":\"{2,1}\",\"map\":\"cyclicDist( 1 , [2] )\"}",
        "{\"d\":\"E\",\"is\":\"{}\",\"map\":\"cyclicDist(1, [2])\",\"op\":\"domain\"}",
    ),
    (
        "{\"op\":\"fill\",\"a\":\"A\",\"on\":\"{2,1}\",\"v\":5}",
        "{\"a\":\"A\",\"on\":\"{}\",\"op\":\"fill\",\"v\":5}",
    ),
    (
        "{\"op\":\"put\",\"vs\":[ 1,-2 ,9223372036854775807],\"on\":\"{1..#3}\",\"a\":\"A\"}",
        "{\"a\":\"A\",\"on\":\"{1..3}\",\"op\":\"put\",\"vs\":[1,-2,9223372036854775807]}",
    ),
    (
        "{\"op\":\"put\",\"a\":\"A\",\"on\":\"{2,1}\",\"vs\":[5]}",
        "{\"a\":\"A\",\"on\":\"{}\",\"op\":\"put\",\"vs\":[]}",
    ),
    (
        "{\"op\":\"reshape\",\"d\":\"T\",\"or\":\"{\\\"b\\\",\\\"a\\\",\\\"b\\\"}\"}",
        "{\"d\":\"T\",\"op\":\"reshape\",\"or\":\"{\\\"a\\\", \\\"b\\\"}\"}",
    ),
    (
        "{\"op\":\"reshape\",\"d\":\"S\",\"to\":\"{(2,1),( 1 , 2 )}\"}",
        "{\"d\":\"S\",\"op\":\"reshape\",\"to\":\"{(1, 2), (2, 1)}\"}",
    ),
    (
        "{\"op\":\"reshape\",\"d\":\"D\",\"expand\":[1,-1]}",
        "{\"d\":\"D\",\"expand\":[1,-1],\"op\":\"reshape\"}",
    ),
    (
        "{\"op\":\"copy\",\"a\":\"A\",\"i\":[1,2],\"b\":\"B\",\"j\":\"x\",\"c\":-1}",
        "{\"a\":\"A\",\"b\":\"B\",\"c\":-1,\"i\":[1,2],\"j\":\"x\",\"op\":\"copy\"}",
    ),
    (
        "{\"op\":\"all\",\"a\":\"A\",\"how\":\"*\",\"b\":\"B\"}",
        "{\"a\":\"A\",\"b\":\"B\",\"how\":\"*\",\"op\":\"all\"}",
    ),
    (
        "{\"text\":\"chapel-workbook 1\\u000aassoc T of text {\\\"é\\\"}\\nend\\n\",\"op\":\"load\"}",
        "{\"op\":\"load\",\"text\":\"chapel-workbook 1\\nassoc T of text {\\\"é\\\"}\\nend\\n\"}",
    ),
    ("{\"op\":\"undo\"}", "{\"op\":\"undo\"}"),
    (
        "{\"op\":\"redo\",\"k\":18446744073709551615}",
        "{\"k\":18446744073709551615,\"op\":\"redo\"}",
    ),
    (
        "{\"op\":\"cascade\",\"k\":3}",
        "{\"k\":3,\"op\":\"cascade\"}",
    ),
    (
        "{\"op\":\"dependents\",\"k\":0}",
        "{\"k\":0,\"op\":\"dependents\"}",
    ),
    (
        "{\"op\":\"piece\",\"l\":0,\"a\":\"A\"}",
        "{\"a\":\"A\",\"l\":0,\"op\":\"piece\"}",
    ),
    (
        "{\"op\":\"reduce\",\"how\":\"min\",\"a\":\"A\"}",
        "{\"a\":\"A\",\"how\":\"min\",\"op\":\"reduce\"}",
    ),
    ("{ \"op\":\"edits\" }", "{\"op\":\"edits\"}"),
    ("{\"op\":\"history\"}", "{\"op\":\"history\"}"),
    (
        "{\"op\":\"history\", \"from\":3}",
        "{\"from\":3,\"op\":\"history\"}",
    ),
];

// The line of a request, or of its edit.
fn line_of(alloc: Global, request: &Request) -> Result<String, Fail> {
    match request {
        Request::Change(edit) => Ok(edit_text(alloc, edit)?),
        other => Ok(request_text(alloc, other)?),
    }
}

// That each line's request has the canonical line beside it.
fn are_canonical(rt: &impl Abort, alloc: Global, lines: &[(&str, &str)]) -> Result<(), Fail> {
    for row in lines {
        let request = read_request(alloc, row.0.as_bytes())?;
        assert!(rt; line_of(alloc, &request)?.as_str() == row.1, "{}", row.1);
        assert!(rt;
            request_text(alloc, &request)?.as_str() == row.1,
            "{}",
            row.1
        );
    }
    Ok(())
}

#[test]
fn canonical_lines(rt: HostRuntime) -> Result<(), Fail> {
    are_canonical(&rt, rt.alloc(), &LINES)
}
