// Tables of what no method shows: where a number is that is no integer, and which path of a patch
// is invalid. The pointers are worked out from RFC 6901, the patches from RFC 8620, section 5.3.
use jm_json::{Json, PatchFault, ReadFault, patch, read, write};
use std::alloc::{AllocError, Global};
use std::test::Fail;

// JSON, and the pointer of its first number that is no integer.
const NUMBERS: &[(&str, &str)] = &[
    ("-0", ""),
    ("[1.5]", "/0"),
    (r#"[1,[2,{"a/b":[0,{"m~n":1.5}]}]]"#, "/1/1/a~1b/1/m~0n"),
    (r#"{"":1.5}"#, "/"),
    (r#"{"~1":[0.5]}"#, "/~01/0"),
    (r#"{"b":1.5,"a":[0,-0]}"#, "/a/1"),
    (r#"{"a":2,"a":1.5}"#, "/a"),
];

// A tree, a patch, and what the patch makes of the tree, or its invalid path.
const PATCHES: &[(&str, &str, &str)] = &[
    (
        r#"{"a":{"b":1}}"#,
        r#"{"a/b":2,"a/c":3}"#,
        r#"{"a":{"b":2,"c":3}}"#,
    ),
    (r#"{"a":{"b":1}}"#, r#"{"a":1,"a/b":2}"#, "invalid: a"),
    (r#"{"a":{"b":1}}"#, r#"{"x/y":1}"#, "invalid: x/y"),
    (r#"{"a":[1]}"#, r#"{"a/0":2}"#, "invalid: a/0"),
    (r#"{"a":1,"b":2}"#, r#"{"a":null}"#, r#"{"b":2}"#),
    (r#"{"a":1}"#, "{}", r#"{"a":1}"#),
    ("[1]", "{}", "[1]"),
    ("1", r#"{"a":1}"#, "invalid: a"),
    (r#"{"a":1}"#, r#"["a"]"#, "invalid: "),
    (r#"{"a":1}"#, "null", "invalid: "),
    (r#"{"a":1}"#, r#"{"b":null}"#, r#"{"a":1}"#),
    (
        r#"{"a":{"b":{"c":1}}}"#,
        r#"{"a/b/c":null}"#,
        r#"{"a":{"b":{}}}"#,
    ),
    (r#"{"a":{}}"#, r#"{"a/x~1y~0z":1}"#, r#"{"a":{"x/y~z":1}}"#),
    (
        r#"{"a/b":{"c":1}}"#,
        r#"{"a~1b/c":2}"#,
        r#"{"a/b":{"c":2}}"#,
    ),
    (r#"{"a":1}"#, r#"{"a~2":1}"#, "invalid: a~2"),
    (r#"{"a~":{}}"#, r#"{"a~/b":1}"#, "invalid: a~/b"),
    ("{}", r#"{"":1}"#, r#"{"":1}"#),
    (r#"{"":{"":1}}"#, r#"{"/":2}"#, r#"{"":{"":2}}"#),
    (r#"{"a":null}"#, r#"{"a/b":1}"#, "invalid: a/b"),
    (r#"{"a":"x"}"#, r#"{"a/b":1}"#, "invalid: a/b"),
    (r#"{"a":{}}"#, r#"{"a/b":2,"a!":1,"a":3}"#, "invalid: a"),
    (r#"{"b":{}}"#, r#"{"b/x":1,"a/x":1}"#, "invalid: a/x"),
    (
        r#"{"a":{"b":1},"c":2}"#,
        r#"{"a/b":null,"a/d":{"e":null},"c":[3]}"#,
        r#"{"a":{"d":{"e":null}},"c":[3]}"#,
    ),
];

fn find_number(alloc: Global, text: &str) -> Result<Vec<u8>, AllocError> {
    match read(alloc, text.as_bytes()) {
        Err(ReadFault::NotWhole(path)) => Vec::from_slice(alloc, path.as_bytes()),
        _ => Vec::from_slice(alloc, b"none"),
    }
}

#[test]
fn numbers_that_are_no_integers_are_found(rt: HostRuntime) -> Result<(), Fail> {
    for (text, want) in NUMBERS {
        let got = find_number(rt.alloc(), text)?;
        assert_eq!(rt; got.as_slice(), want.as_bytes(), "at {text}");
    }
    Ok(())
}

fn read_tree(alloc: Global, text: &str) -> Result<Json, AllocError> {
    match read(alloc, text.as_bytes()) {
        Ok(tree) => Ok(tree),
        Err(_) => Err(AllocError),
    }
}

fn write_tree(alloc: Global, tree: &Json) -> Result<Vec<u8>, AllocError> {
    match write(alloc, tree) {
        Ok(text) => Ok(text.into_vec()),
        Err(_) => Err(AllocError),
    }
}

fn show_patched(alloc: Global, tree: Json, change: &Json) -> Result<Vec<u8>, AllocError> {
    match patch(alloc, tree, change) {
        Ok(patched) => write_tree(alloc, &patched),
        Err(PatchFault::BadPatch(path)) => {
            let mut text = Vec::from_slice(alloc, b"invalid: ")?;
            text.extend_from_slice(path.as_bytes())?;
            Ok(text)
        }
        Err(PatchFault::NoMemory) => Err(AllocError),
    }
}

fn show_row(alloc: Global, tree: &str, change: &str) -> Result<Vec<u8>, AllocError> {
    let change = read_tree(alloc, change)?;
    show_patched(alloc, read_tree(alloc, tree)?, &change)
}

#[test]
fn trees_are_patched(rt: HostRuntime) -> Result<(), Fail> {
    for (tree, change, want) in PATCHES {
        let got = show_row(rt.alloc(), tree, change)?;
        assert_eq!(rt; got.as_slice(), want.as_bytes(), "at {tree} {change}");
    }
    Ok(())
}
