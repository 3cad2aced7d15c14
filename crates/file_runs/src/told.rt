//! Files that are told by letters, and stores with such files.

use std::alloc::Global;
use std::test::Fail;
use tcm_edges::{MemStore, StoreFailList};

/// The header of a log of the cluster `c1`.
pub const HEADER: &str = r#"{"cluster":"c1","format":2}"#;

/// This header in another spelling, and the header of another cluster.
const SPELT_HEADER: &str = " {\"format\" : 1,\"cluster\":\"\\u0063\\u0031\",\t\"format\":2 }\r";

const OTHER_HEADER: &str = r#"{"cluster":"c2","format":2}"#;

/// The header of another format, which breaks a rule.
const FORMAT_1: &str = r#"{"cluster":"c1","format":1}"#;

/// The lines of six entries: a node gets the token 0, a keyspace is set, and the join of a second node is started.
pub const ENTRY_1: &str =
    r#"{"command":{"dc":"dc1","kind":"register","name":"a","rack":"r1"},"entry":1,"epoch":1}"#;

pub const ENTRY_2: &str =
    r#"{"command":{"kind":"unsafe-join","node":1,"tokens":[0]},"entry":2,"epoch":2}"#;

pub const ENTRY_3: &str =
    r#"{"command":{"kind":"keyspace","name":"ks","replication":"simple 1"},"entry":3,"epoch":3}"#;

const ENTRY_4: &str =
    r#"{"command":{"dc":"dc1","kind":"register","name":"b","rack":"r1"},"entry":4,"epoch":4}"#;

const ENTRY_5: &str =
    r#"{"command":{"kind":"prepare-join","node":2,"tokens":[100]},"entry":5,"epoch":5}"#;

const ENTRY_6: &str = r#"{"command":{"kind":"start-join","node":2},"entry":6,"epoch":6}"#;

/// The line that brings this join half way.
const ENTRY_7: &str = r#"{"command":{"kind":"mid-join","node":2},"entry":7,"epoch":7}"#;

/// The line that ends this join.
const ENTRY_8: &str = r#"{"command":{"kind":"finish-join","node":2},"entry":8,"epoch":8}"#;

/// The line of a second node that is registered after the first.
const SECOND_NODE: &str =
    r#"{"command":{"dc":"dc1","kind":"register","name":"b","rack":"r1"},"entry":2,"epoch":2}"#;

/// The line of a second entry with the id of the first.
const ID_TWICE: &str =
    r#"{"command":{"kind":"unsafe-join","node":1,"tokens":[0]},"entry":1,"epoch":2}"#;

/// The lines of three tokens, and of two datacenters, each in ascending order.
const THREE_TOKENS: &str =
    r#"{"command":{"kind":"unsafe-join","node":1,"tokens":[-9223372036854775808,-5,5]},"entry":18446744073709551615,"epoch":2}"#;

const TWO_DATACENTERS: &str =
    r#"{"command":{"kind":"keyspace","name":"kt","replication":"topology dc1:3 dc2:1"},"entry":0,"epoch":3}"#;

/// The first two lines in other spellings.
const SPELT_1: &str =
    " { \"epoch\" : 1, \"entry\":1,\t\"command\":{\"rack\":\"r1\",\"name\":\"\\u0061\",\"kind\":\"register\",\"dc\":\"dc1\"}}\r";

const SPELT_2: &str =
    r#"{"entry":7,"entry":2,"command":{"tokens":[ 0 ],"node":1,"kind":"unsafe-join"},"epoch":2} "#;

/// The line of a keyspace whose name is before that of the other keyspace.
const FIRST_KEYSPACE: &str =
    r#"{"command":{"kind":"keyspace","name":"ka","replication":"simple 1"},"entry":9,"epoch":4}"#;

/// The states of the first six entries: at epoch 0, once the node has its token, with the keyspace, and with the join.
pub const STATE_0: &str =
    r#"{"snapshot":{"epoch":0,"keyspaces":[],"next":1,"nodes":[],"sequences":[],"tokens":[]}}"#;

const STATE_2: &str =
    r#"{"snapshot":{"epoch":2,"keyspaces":[],"next":2,"nodes":[{"dc":"dc1","id":1,"left":false,"name":"a","rack":"r1"}],"sequences":[],"tokens":[[0,1]]}}"#;

const STATE_3: &str =
    r#"{"snapshot":{"epoch":3,"keyspaces":[{"name":"ks","replication":"simple 1"}],"next":2,"nodes":[{"dc":"dc1","id":1,"left":false,"name":"a","rack":"r1"}],"sequences":[],"tokens":[[0,1]]}}"#;

const STATE_6: &str =
    r#"{"snapshot":{"epoch":6,"keyspaces":[{"name":"ks","replication":"simple 1"}],"next":3,"nodes":[{"dc":"dc1","id":1,"left":false,"name":"a","rack":"r1"},{"dc":"dc1","id":2,"left":false,"name":"b","rack":"r1"}],"sequences":[{"in":[[100,2]],"kind":"join","node":2,"out":[],"phase":"STARTED"}],"tokens":[[0,1]]}}"#;

/// The second state in another spelling.
const SPELT_STATE: &str =
    " {\"snapshot\":{ \"tokens\" :[[0, 1] ],\"sequences\":[],\"nodes\":[{\"rack\":\"r1\",\"name\":\"\\u0061\",\"left\":false,\"id\":1,\"dc\":\"dc1\"}],\"next\":7,\"next\":2,\"keyspaces\":[],\"epoch\":2}}\r";

/// The state once two nodes are registered and nothing else.
const TWO_NODES: &str =
    r#"{"snapshot":{"epoch":2,"keyspaces":[],"next":3,"nodes":[{"dc":"dc1","id":1,"left":false,"name":"a","rack":"r1"},{"dc":"dc1","id":2,"left":false,"name":"b","rack":"r1"}],"sequences":[],"tokens":[]}}"#;

/// A state at the greatest epoch, and a state that isn't valid: its next id is too great.
const STATE_65536: &str =
    r#"{"snapshot":{"epoch":65536,"keyspaces":[],"next":1,"nodes":[],"sequences":[],"tokens":[]}}"#;

const NO_STATE: &str =
    r#"{"snapshot":{"epoch":1,"keyspaces":[],"next":3,"nodes":[],"sequences":[],"tokens":[]}}"#;

/// The first twenty bytes of the third entry, and another entry of its epoch.
const CUT_3: &str = r#"{"command":{"kind":""#;

const OTHER_3: &str =
    r#"{"command":{"kind":"keyspace","name":"ks","replication":"simple 2"},"entry":3,"epoch":3}"#;

/// The first bytes of a line.
const FRONT: &str = "{\"comman";

/// Bytes that are no text.
const NO_TEXT: &[u8] = b"{\"command\":\"\xff\"}";

/// The lines that letters stand for.
fn line_of(letter: u8) -> &'static [u8] {
    match letter {
        b'H' => HEADER.as_bytes(),
        b'h' => SPELT_HEADER.as_bytes(),
        b'I' => OTHER_HEADER.as_bytes(),
        b'F' => FORMAT_1.as_bytes(),
        b'1' => ENTRY_1.as_bytes(),
        b'2' => ENTRY_2.as_bytes(),
        b'3' => ENTRY_3.as_bytes(),
        b'4' => ENTRY_4.as_bytes(),
        b'5' => ENTRY_5.as_bytes(),
        b'6' => ENTRY_6.as_bytes(),
        b'7' => ENTRY_7.as_bytes(),
        b'8' => ENTRY_8.as_bytes(),
        b'b' => SECOND_NODE.as_bytes(),
        b'i' => ID_TWICE.as_bytes(),
        b't' => THREE_TOKENS.as_bytes(),
        b'd' => TWO_DATACENTERS.as_bytes(),
        b'k' => FIRST_KEYSPACE.as_bytes(),
        b's' => SPELT_1.as_bytes(),
        b'p' => SPELT_2.as_bytes(),
        b'f' => FRONT.as_bytes(),
        b'c' => CUT_3.as_bytes(),
        b'r' => OTHER_3.as_bytes(),
        b'O' => STATE_0.as_bytes(),
        b'A' => STATE_2.as_bytes(),
        b'K' => STATE_3.as_bytes(),
        b'J' => STATE_6.as_bytes(),
        b'S' => SPELT_STATE.as_bytes(),
        b'T' => TWO_NODES.as_bytes(),
        b'L' => STATE_65536.as_bytes(),
        b'N' => NO_STATE.as_bytes(),
        _ => NO_TEXT,
    }
}

/// A file, told by its lines: each letter stands for a line, and `|` for the end of the last whole one. `None` stands
/// for an absent file.
pub type File = Option<&'static str>;

/// Adds an item to a list, after a comma unless it is the first.
pub fn add_item(list: &mut String, item: &str) -> Result<(), Fail> {
    if !list.is_empty() {
        list.push_str(",")?;
    }
    list.push_str(item)?;
    Ok(())
}

/// The bytes of another file of the store.
const OTHER: &str = "other\n{";

/// The bytes of a file that is told by its lines.
pub fn bytes_of(alloc: Global, told: &str) -> Result<Vec<u8>, Fail> {
    let mut bytes = Vec::new(alloc);
    let mut whole = true;
    for letter in told.as_bytes() {
        if *letter == b'|' {
            whole = false;
        } else {
            bytes.extend_from_slice(line_of(*letter))?;
            if whole {
                bytes.push(b'\n')?;
            }
        }
    }
    Ok(bytes)
}

/// Puts a file into a store, unless it is absent.
pub fn put_file(alloc: Global, store: &mut MemStore, name: &str, file: File) -> Result<(), Fail> {
    if let Some(told) = file {
        store.put(name, bytes_of(alloc, told)?.as_slice())?;
    }
    Ok(())
}

/// A store with the other file, and the file `x` unless it is absent. The calls of the list fail.
pub fn store_of(alloc: Global, fails: StoreFailList, file: File) -> Result<MemStore, Fail> {
    let mut store = MemStore::new(alloc, fails);
    store.put("other", OTHER.as_bytes())?;
    put_file(alloc, &mut store, "x", file)?;
    Ok(store)
}

/// A store in which no call fails.
pub fn sure_store_of(alloc: Global, file: File) -> Result<MemStore, Fail> {
    store_of(alloc, StoreFailList::empty(alloc), file)
}

/// Whether the other file is unchanged.
pub fn keeps_other(store: &MemStore) -> bool {
    store.file("other") == Some(OTHER.as_bytes())
}

/// Whether the file `x` has these contents, and the other file is unchanged.
pub fn holds(alloc: Global, store: &MemStore, file: File) -> Result<bool, Fail> {
    let other = keeps_other(store);
    match file {
        Some(told) => {
            let bytes = bytes_of(alloc, told)?;
            Ok(other && store.file("x") == Some(bytes.as_slice()))
        }
        None => Ok(other && store.file("x").is_none()),
    }
}
