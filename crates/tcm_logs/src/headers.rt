//! Headers of logs and of files that are replayed: which names they may have, and lines that they make refused.

use file_runs::{
    AT_0, AT_2, AT_3, File, Replayed, holds, holds_second, is_run, is_shown, put_file, replays,
    sure_store_of, words_in,
};
use std::alloc::Global;
use std::process::Abort;
use std::test::Fail;

/// Words, the files `x` and `y`, and the text that is printed.
type Refused = (&'static str, File, File, &'static str);

/// Logs whose first line is no header.
const FORMATS: [Refused; 13] = [
    ("commit x c1", Some("1"), None, "REFUSED 1 1 FORMAT\n"),
    ("commit x c1", Some("123|f"), None, "REFUSED 1 1 FORMAT\n"),
    ("commit x c1", Some("2"), None, "REFUSED 1 1 FORMAT\n"),
    ("commit x c1", Some("1x"), None, "REFUSED 1 1 FORMAT\n"),
    ("commit x c1", Some("1H2"), None, "REFUSED 1 1 FORMAT\n"),
    ("commit x c1", Some("1|H"), None, "REFUSED 1 1 FORMAT\n"),
    ("commit x c1", Some("A3"), None, "REFUSED 1 1 FORMAT\n"),
    ("snapshot x 0", Some("1"), None, "REFUSED 1 1 FORMAT\n"),
    ("snapshot x 0", Some("AH"), None, "REFUSED 1 1 FORMAT\n"),
    ("commit x c1", Some("xH1"), None, "REFUSED 1 1 LINE 2\n"),
    ("commit x c1", Some("F1"), None, "REFUSED 1 1 LINE 7\n"),
    ("snapshot x 0", Some("x1"), None, "REFUSED 1 1 LINE 2\n"),
    ("snapshot x 0", Some("F"), None, "REFUSED 1 1 LINE 7\n"),
];

/// Headers past the first line.
const SECOND_HEADERS: [Refused; 13] = [
    ("commit x c1", Some("HH"), None, "REFUSED 1 2 HEADER\n"),
    ("commit x c1", Some("H1h|f"), None, "REFUSED 1 3 HEADER\n"),
    ("commit x c1", Some("H1I2"), None, "REFUSED 1 3 HEADER\n"),
    ("commit x c1", Some("H1F"), None, "REFUSED 1 3 LINE 7\n"),
    ("snapshot x 0", Some("HI"), None, "REFUSED 1 2 HEADER\n"),
    ("snapshot x 0", Some("H12H3"), None, "REFUSED 1 4 HEADER\n"),
    ("replay x y", Some("1H"), Some("2"), "REFUSED 1 2 HEADER\n"),
    ("replay x y", Some("HH"), Some("1"), "REFUSED 1 2 HEADER\n"),
    ("replay x y", Some("HI"), None, "REFUSED 1 2 HEADER\n"),
    (
        "replay x y",
        Some("H12"),
        Some("3H"),
        "REFUSED 2 2 HEADER\n",
    ),
    ("replay x y", Some("H1"), Some("2I"), "REFUSED 2 2 HEADER\n"),
    ("replay x y", Some("H1"), Some("HH"), "REFUSED 2 2 HEADER\n"),
    ("replay x y", Some("H1"), Some("HF"), "REFUSED 2 2 LINE 7\n"),
];

/// Headers that name another cluster.
const OTHER_CLUSTERS: [Refused; 14] = [
    (
        "commit x c1",
        Some("I"),
        None,
        "REFUSED 1 1 CLUSTER c1 c2\n",
    ),
    (
        "commit x c1",
        Some("I12|f"),
        None,
        "REFUSED 1 1 CLUSTER c1 c2\n",
    ),
    (
        "commit x c1",
        Some("Ix"),
        None,
        "REFUSED 1 1 CLUSTER c1 c2\n",
    ),
    (
        "commit x c1",
        Some("IH"),
        None,
        "REFUSED 1 1 CLUSTER c1 c2\n",
    ),
    (
        "commit x c2",
        Some("h1"),
        None,
        "REFUSED 1 1 CLUSTER c2 c1\n",
    ),
    ("commit x c", Some("H"), None, "REFUSED 1 1 CLUSTER c c1\n"),
    (
        "commit x c11",
        Some("H"),
        None,
        "REFUSED 1 1 CLUSTER c11 c1\n",
    ),
    (
        "commit x C1",
        Some("H"),
        None,
        "REFUSED 1 1 CLUSTER C1 c1\n",
    ),
    (
        "replay x y",
        Some("H1"),
        Some("I2"),
        "REFUSED 2 1 CLUSTER c1 c2\n",
    ),
    (
        "replay x y",
        Some("I"),
        Some("h1"),
        "REFUSED 2 1 CLUSTER c2 c1\n",
    ),
    (
        "replay x y",
        Some("H"),
        Some("Ix"),
        "REFUSED 2 1 CLUSTER c1 c2\n",
    ),
    (
        "replay x x y",
        Some("H1"),
        Some("I2"),
        "REFUSED 3 1 CLUSTER c1 c2\n",
    ),
    (
        "replay y x x",
        Some("H1"),
        Some("I2"),
        "REFUSED 2 1 CLUSTER c2 c1\n",
    ),
    (
        "replay x y x",
        Some("H1"),
        Some("2H"),
        "REFUSED 2 2 HEADER\n",
    ),
];

/// Lines after a header that are refused for another cause.
const AFTER_HEADERS: [Refused; 8] = [
    ("commit x c1", Some("HA"), None, "REFUSED 1 2 NOT-ENTRY\n"),
    ("commit x c1", Some("HN1"), None, "REFUSED 1 2 NOT-ENTRY\n"),
    (
        "snapshot x 0",
        Some("H12K"),
        None,
        "REFUSED 1 4 NOT-ENTRY\n",
    ),
    ("commit x c1", Some("H1i"), None, "REFUSED 1 3 ID 1 1\n"),
    (
        "replay x y",
        Some("HN"),
        Some("H"),
        "REFUSED 1 2 IMAGE 6 3\n",
    ),
    (
        "replay x y",
        Some("H41"),
        Some("H3b"),
        "REFUSED 2 3 COMMAND 4 NAME-TAKEN 2\n",
    ),
    (
        "replay x y",
        Some("13r"),
        Some("H"),
        "REFUSED 1 3 FORK 3\n\
            {\"command\":{\"kind\":\"keyspace\",\"name\":\"ks\",\"replication\":\"simple 1\"},\"entry\":3,\"epoch\":3}\n\
            {\"command\":{\"kind\":\"keyspace\",\"name\":\"ks\",\"replication\":\"simple 2\"},\"entry\":3,\"epoch\":3}\n",
    ),
    (
        "replay x y",
        Some("H3"),
        Some("H1r"),
        "REFUSED 2 3 FORK 3\n\
            {\"command\":{\"kind\":\"keyspace\",\"name\":\"ks\",\"replication\":\"simple 1\"},\"entry\":3,\"epoch\":3}\n\
            {\"command\":{\"kind\":\"keyspace\",\"name\":\"ks\",\"replication\":\"simple 2\"},\"entry\":3,\"epoch\":3}\n",
    ),
];

/// Runs the words of each row. Both files are unchanged.
fn refuses<A: Abort>(rt: &A, alloc: Global, rows: &[Refused]) -> Result<(), Fail> {
    for row in rows {
        let (line, first, second, text) = *row;
        let words = words_in(alloc, line)?;
        let mut store = sure_store_of(alloc, first)?;
        put_file(alloc, &mut store, "y", second)?;
        is_shown(alloc, line, &words, &mut store, (3, text))?;
        assert!(rt; holds(alloc, &store, first)?, "{line}");
        assert!(rt; holds_second(alloc, &store, second)?, "{line}");
    }
    Ok(())
}

#[test]
fn headers_are_refused(rt: HostRuntime) -> Result<(), Fail> {
    refuses(&rt, rt.alloc(), &FORMATS)?;
    refuses(&rt, rt.alloc(), &SECOND_HEADERS)?;
    refuses(&rt, rt.alloc(), &OTHER_CLUSTERS)?;
    refuses(&rt, rt.alloc(), &AFTER_HEADERS)
}

/// Runs of `replay x y` over files with headers. A header is counted, and changes nothing else.
const HEADED: [Replayed; 11] = [
    (
        "a header of the first file",
        Some("H12"),
        Some("3"),
        0,
        "REPLAY 4 at 3 waiting 0 full 0\n",
        AT_3,
    ),
    (
        "a header of the second file",
        Some("21"),
        Some("H3"),
        0,
        "REPLAY 4 at 3 waiting 0 full 0\n",
        AT_3,
    ),
    (
        "headers of one cluster",
        Some("H31"),
        Some("h2"),
        0,
        "REPLAY 5 at 3 waiting 0 full 0\n",
        AT_3,
    ),
    (
        "the header of another cluster alone",
        Some("12"),
        Some("I3"),
        0,
        "REPLAY 4 at 3 waiting 0 full 0\n",
        AT_3,
    ),
    (
        "snapshot-line",
        Some("A"),
        Some("H123"),
        0,
        "REPLAY 5 at 3 waiting 0 full 0\n",
        AT_3,
    ),
    (
        "a state after a header",
        Some("HA"),
        Some("H3|4"),
        0,
        "REPLAY 4 at 3 waiting 0 full 0\n",
        AT_3,
    ),
    (
        "an entry that waits after a header",
        Some("H4"),
        Some("H12"),
        0,
        "REPLAY 5 at 2 waiting 1 full 0\n",
        AT_2,
    ),
    (
        "headers alone",
        Some("H"),
        Some("h"),
        0,
        "REPLAY 2 at 0 waiting 0 full 0\n",
        AT_0,
    ),
    (
        "cut headers",
        Some("|H"),
        Some("|I"),
        0,
        "REPLAY 0 at 0 waiting 0 full 0\n",
        AT_0,
    ),
    (
        "a cut header of another cluster",
        Some("H12"),
        Some("|I"),
        0,
        "REPLAY 3 at 2 waiting 0 full 0\n",
        AT_2,
    ),
    (
        "a header before an absent file",
        Some("H"),
        None,
        7,
        "NO FILE y\n",
        "",
    ),
];

/// Names of clusters, the first and the last of them of the least and of the greatest length.
const CLUSTERS: [&str; 5] = [
    "c",
    "0",
    "-._",
    "Test_Cluster-1.a",
    "c2345678901234567890123456789012",
];

/// Runs a script without lines over an absent file, and over the header that it leaves.
fn is_headed<A: Abort>(rt: &A, alloc: Global, cluster: &str) -> Result<(), Fail> {
    let mut store = sure_store_of(alloc, None)?;
    let words = ["commit", "x", cluster];
    let header = format!(in alloc; "{{\"cluster\":\"{cluster}\",\"format\":2}}\n")?;
    for _run in 0..2 {
        is_run(alloc, cluster, &words, "", &mut store, (0, ""))?;
        assert!(rt; store.file("x") == Some(header.as_bytes()), "{cluster}");
    }
    Ok(())
}

#[test]
fn headers_are_written_and_read(rt: HostRuntime) -> Result<(), Fail> {
    replays(rt.alloc(), &HEADED)?;
    for cluster in &CLUSTERS {
        is_headed(&rt, rt.alloc(), *cluster)?;
    }
    Ok(())
}
