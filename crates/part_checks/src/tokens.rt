// Where the tokens of a line stand, and the first byte that begins none.
use script_tokens::{TokenStop, tokens};
use std::alloc::Global;
use std::test::Fail;

/// Whether the tokens of the line stand at these places.
fn has_places(alloc: Global, line: &[u8], wanted: &[(usize, usize)]) -> bool {
    let Ok(found) = tokens(alloc, line) else {
        return false;
    };
    if found.len() != wanted.len() {
        return false;
    }
    for (token, place) in found.iter().zip(wanted) {
        if token.start != place.0 || token.end != place.1 {
            return false;
        }
    }
    true
}

/// Where the line has a byte that begins no token.
fn stray(alloc: Global, line: &[u8]) -> Option<usize> {
    match tokens(alloc, line) {
        Err(TokenStop::At(i)) => Some(i),
        _ => None,
    }
}

#[test]
fn lines(rt: HostRuntime) -> Result<(), Fail> {
    let alloc = rt.alloc();
    let places = [(0, 1), (1, 4), (5, 6), (6, 8)];
    assert!(rt; has_places(alloc, b"2x_1 ^03\r# \xff?", &places));
    assert!(rt; has_places(alloc, b" \t\r", &[]));
    for (line, wanted) in [("x?#", 1), ("x _y", 2), ("x\x0b", 1)] {
        assert_eq!(rt; stray(alloc, line.as_bytes()), Some(wanted));
    }
    Ok(())
}
