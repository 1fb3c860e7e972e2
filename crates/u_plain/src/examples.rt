//! Programs of the folder programs, byte by byte, which tests run by calls of the library.
use std::alloc::{AllocError, Global};
use u_check::{Job, Table, check};
use u_program::read;

/// Twice its argument.
pub const DOUBLE: &[u8] =
    b"u-program 1\nblock main\n1 0 begin -> 2.1 2.2\n2 0 add -> 3.1\n3 0 end ->\n";

/// The sum of the numbers from its argument down to 1, over a loop.
pub const SUM: &[u8] =
    b"u-program 1\nblock main\nloop 1 0\n1 0 begin -> 2.1 3.1\n2 0 enter 1 -> 5.1 6.2 7.1 8.1 9.2\n3 0 const 0 -> 4.1\n4 0 enter 1 -> 9.1 12.1\n5 1 const 0 -> 6.1\n6 1 lt -> 10.2 11.2 12.2\n7 1 const 1 -> 8.2\n8 1 sub -> 10.1\n9 1 add -> 11.1\n10 1 switch -> 13.1 /\n11 1 switch -> 14.1 /\n12 1 switch -> / 15.1\n13 1 next -> 5.1 6.2 7.1 8.1 9.2\n14 1 next -> 9.1 12.1\n15 1 last -> 16.1\n16 1 leave -> 17.1\n17 0 end ->\n";

/// The factorial, by calls within calls.
pub const FACTORIAL: &[u8] =
    b"u-program 1\nblock main\n1 0 begin -> 2.1 3.2\n2 0 const @fact -> 3.1\n3 0 apply 4 ->\n4 0 back -> 5.1\n5 0 end ->\nblock fact\n1 0 begin -> 2.1 3.1 4.1 5.1 7.2\n2 0 const 0 -> 5.2\n3 0 const @one -> 6.2\n4 0 const @rec -> 6.3\n5 0 le -> 6.1\n6 0 select -> 7.1\n7 0 apply 8 ->\n8 0 back -> 9.1\n9 0 end ->\nblock rec\n1 0 begin -> 2.1 3.1 4.1 7.1\n2 0 const 1 -> 3.2\n3 0 sub -> 5.2\n4 0 const @fact -> 5.1\n5 0 apply 6 ->\n6 0 back -> 7.2\n7 0 mul -> 8.1\n8 0 end ->\nblock one\n1 0 begin -> 2.1\n2 0 const 1 -> 3.1\n3 0 end ->\n";

/// Two writers of one cell, and a reader that each of the writes wakes.
pub const TWO_WRITERS: &[u8] =
    b"u-program 1\nblock main\n1 0 begin -> 2.1 3.1 4.1 5.1\n2 0 const 1 -> 6.1\n3 0 const 0 -> 7.2 8.2 9.2\n4 0 const 10 -> 7.3\n5 0 const 20 -> 8.3\n6 0 alloc -> 7.1 8.1 9.1\n7 0 store ->\n8 0 store ->\n9 0 fetch -> 10.1\n10 0 end ->\n";

/// A reader of a cell that nothing writes.
pub const NO_WRITER: &[u8] =
    b"u-program 1\nblock main\n1 0 begin -> 2.1 3.1\n2 0 const 1 -> 4.1\n3 0 const 0 -> 5.2\n4 0 alloc -> 5.1\n5 0 fetch -> 6.1\n6 0 end ->\n";

/// The programs, each with the argument that it is run on.
pub const EXAMPLES: [(&[u8], i64); 5] = [
    (DOUBLE, 4),
    (SUM, 3),
    (FACTORIAL, 2),
    (TWO_WRITERS, 0),
    (NO_WRITER, 0),
];

/// How many firings each of them makes.
pub const FIRINGS: [usize; 5] = [3, 45, 51, 12, 4];

/// The program of that text, on the argument.
pub fn job(alloc: Global, text: &[u8], argument: i64) -> Result<Job, AllocError> {
    let program = read(alloc, text).map_err(|_| AllocError)?;
    let checked = check(program).map_err(|_| AllocError)?;
    Ok(Job::new(checked, argument, Table::new(alloc)))
}
