//! The program of a worked source, the map of its statements, and the checked program.
use std::alloc::{AllocError, Global};
use u_check::Checked;
use u_compile::{Compiled, compile};

const SOURCE: &[u8] = b"def main(n) { n + n }";

const PROGRAM: &[u8] =
    b"u-program 2\nblock main\n1 0 begin -> 2.1 2.2\n2 0 add -> 3.1\n3 0 end ->\n";

const MAP: &[u8] = b"u-map 1\nmain.1 1:10 param n\nmain.2 1:17 op\nmain.3 1:1 end\n";

/// Whether the map is so, of one procedure.
fn has_map(alloc: Global, compiled: &Compiled) -> Result<bool, AllocError> {
    let mut map: Vec<u8> = Vec::new(alloc);
    compiled.write_map(&mut map)?;
    Ok(map.as_slice() == MAP && compiled.origins().len() == 1)
}

/// Whether the checked program is so. Want of memory is a no.
fn is_program(alloc: Global, checked: &Checked) -> bool {
    let mut text: Vec<u8> = Vec::new(alloc);
    checked.program().write_text(&mut text).is_ok() && text.as_slice() == PROGRAM
}

/// Whether the source's map and its checked program are so.
fn is_compiled(alloc: Global, source: &[u8]) -> bool {
    match compile(alloc, source) {
        Ok(compiled) => {
            matches!(has_map(alloc, &compiled), Ok(true))
                && is_program(alloc, &compiled.into_parts().0)
        }
        Err(_) => false,
    }
}

#[test]
fn a_source_is_compiled(rt: HostRuntime) {
    assert!(rt; is_compiled(rt.alloc(), SOURCE));
}
